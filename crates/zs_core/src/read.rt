//! Reads: where an answer comes from, and what is answered.

ghost use Rattle.std.specs.Prelude.{◌≡◌, IfOk, OnErr, IfSome, IfNone, OnSome, ◌≤◌, true, IsTrue, ◌↔◌, length, ◌++◌, ◌∷◌, [], ℕ, List, Option, None, Some};
ghost use Rattle.std.specs.Option.{option_copied};
ghost use Rattle.std.specs.Int.{from_be_bytes, w64};
ghost use Rattle.zs_ids.specs.Key.{record_key};
ghost use Rattle.zs_ids.specs.Blocks.{bp_at};
ghost use Rattle.zs_sum.specs.Sum.{sha256};
ghost use Rattle.zs_machine.specs.Machine.{staged_record};
ghost use Rattle.zs_machine.specs.Replies.{read_refusal};
ghost use Rattle.zs_machine.specs.Steps.{ReadBeginStep, ReadEndStep, IsReadAnswer, plan_from, plan_in};
ghost use Rattle.std.specs.Prelude.{Ok};
ghost use Rattle.zs_ids.specs.Graph.{Dataset};
ghost use Rattle.zs_ids.specs.GraphTree.{dataset_at, entries_of};
ghost use Rattle.zs_machine.specs.Shapes.{room_in};
ghost use Rattle.zs_script.specs.declared.refusal.Refusal.{Refusal};
ghost use Rattle.zs_core.specs.Reading.{planned_of, begun_reply, IsGotFor, IsReadReply, HasNoRead, IsFirstRead, EndsRead, IsBegunInRoom, IsPlacedAt, ReadsOr, got_reply, read_reply};

use crate::present::Present;
use std::alloc::AllocError;
use zs_ids::{Bp, DsId, DsName, Item, Key};
use zs_machine::{OpenRead, ReadPlan};
use zs_scan::item_of;
use zs_script::{Refusal, Reply};

/// How a read began.
#[derive(Clone, Copy, Debug, PartialEq, Eq)]
pub(crate) enum Begun {
    /// It is open, with this plan.
    Planned(ReadPlan),
    /// It is refused.
    Refused(Refusal),
}

/// The key of a record.
fn key_of(object: u16, leaf: u32) -> Key
    ensures { result ≡ record_key object leaf }
{
    Key {
        object,
        rank: 1,
        leaf,
        depth: 3,
    }
}

impl Present {
    /// Which dataset a `read` reads, or why it is refused.
    fn may_read(&self, name: &DsName, object: u16, leaf: u32) -> Result<DsId, Refusal>
        ensures { ReadsOr (read_refusal self.now.state name.now object leaf) self.now.state name.now result }
    {
        if self.suspended {
            return Err(Refusal::Suspended);
        }
        self.graph.facts();
        let Some(id) = self.graph.find(name) else {
            return Err(Refusal::NoDataset);
        };
        if !self.has_object(id, object) {
            return Err(Refusal::NoObject);
        }
        if leaf != 0 {
            return Err(Refusal::PastEnd);
        }
        Ok(id)
    }

    /// Where the answer of a read of a dataset comes from.
    fn plan(&self, ds: DsId, object: u16, leaf: u32) -> ReadPlan
        ensures plan { (d : Dataset) → dataset_at self.now.state.graph ds ≡ Some d → result ≡ plan_in self.now.state d object leaf }
        ensures placed { staged_record self.now.state ds (record_key object leaf) ≡ None →
            IsPlacedAt (bp_at (entries_of (dataset_at self.now.state.graph ds)) (record_key object leaf)) }
    {
        let key = key_of(object, leaf);
        if let Some(staging) = self.staging(ds, key) {
            return ReadPlan::Staged(staging.fill.unwrap_or(0));
        }
        mapped_plan(self.pointer_at(ds, key), self.online)
    }

    /// Begins a read. After want of memory nothing has changed.
    pub(crate) fn read_begin(
        &mut self,
        by: u8,
        ds: &DsName,
        object: u16,
        leaf: u32,
    ) -> Result<Begun, AllocError>
        ensures step { IfOk result (λ b. ReadBeginStep self.old.state by ds.now object leaf (planned_of b) (begun_reply b) self.new.state) }
        ensures stage { self.new.state.stage ≡ self.old.state.stage }
        ensures suspended { self.new.state.suspended ≡ self.old.state.suspended }
        ensures refused { (why : Refusal) → result ≡ Ok (Begun.Refused why) → self.new ≡ self.old }
        ensures within { IfOk result (λ b. IsBegunInRoom (room_in self.old.shape self.old.end_sector 0) (planned_of b)) }
        ensures rest { self.new ≡ record self.old { state = self.new.state } }
        ensures err { OnErr result (self.new ≡ self.old) }
    {
        let id = match self.may_read(ds, object, leaf) {
            Ok(id) => id,
            Err(refusal) => return Ok(Begun::Refused(refusal)),
        };
        let plan = self.plan(id, object, leaf);
        let read = OpenRead {
            by,
            ds: *ds,
            object,
            leaf,
            plan,
        };
        self.reads.push(read)?;
        Ok(Begun::Planned(plan))
    }

    /// Ends the first open read of the client with this plan, and answers its reply: the staged fill, `hole`, or the first
    /// eight bytes of those that were got, which hash to the piece's sum; where none were got, that they are lost. Answers
    /// none, and nothing changes, where the client has no such read.
    pub(crate) fn read_end(&mut self, by: u8, plan: &ReadPlan, got: Option<&[u8]>) -> Option<Reply>
        ghost bytes: { Option (List ℕ) }
        requires got { option_copied got ≡ bytes }
        requires fits { IsGotFor plan.now bytes }
        ensures step { IfSome result (λ answer. ReadEndStep self.old.state by plan.now answer self.new.state) }
        ensures ended { IfSome result (λ answer. EndsRead by plan.now bytes self.old.state.reads answer self.new.state.reads) }
        ensures rest { self.new ≡ record self.old { state = record self.old.state { reads = self.new.state.reads } } }
        ensures none { IfNone result (self.new ≡ self.old) }
        ensures absent { IfNone result (HasNoRead self.old.state.reads by plan.now) }
        ensures answer { IfSome result IsReadReply }
    {
        let found = find_read(&self.reads, by, plan)?;
        let read = self.reads.remove(found);
        Some(answer_of(&read, got))
    }
}

/// Where the answer of a read comes from that is not staged.
fn mapped_plan(mapped: Option<Bp>, online: u32) -> ReadPlan
    ensures plan { result ≡ plan_from None mapped online }
    ensures placed { IsPlacedAt mapped }
{
    match mapped {
        Some(bp) => ReadPlan::Pinned(item_of(&bp), online),
        None => ReadPlan::Hole,
    }
}

/// Where the first open read of the client with this plan stands, if there is one.
fn find_read(reads: &[OpenRead], by: u8, plan: &ReadPlan) -> Option<usize>
    ensures found { IfSome result (λ i. IsFirstRead reads.now by plan.now i) }
    ensures absent { IfNone result (HasNoRead reads.now by plan.now) }
{
    for (i, read) in reads.iter().enumerate() {
        if is_read_of(read, by, plan) {
            return Some(i);
        }
    }
    None
}

/// Whether the open read is the client's, with this plan.
fn is_read_of(read: &OpenRead, by: u8, plan: &ReadPlan) -> bool
    ensures { IsTrue result ↔ (read.now.by ≡ by) × (read.now.plan ≡ plan.now) }
{
    read.by == by && is_same_plan(&read.plan, plan)
}

/// Whether the two items are one.
fn is_same_item(a: &Item, b: &Item) -> bool
    ensures { IsTrue result ↔ a.now ≡ b.now }
{
    a.piece == b.piece && a.sectors == b.sectors && a.sum == b.sum
}

/// Whether the two plans are one.
fn is_same_plan(a: &ReadPlan, b: &ReadPlan) -> bool
    ensures { IsTrue result ↔ a.now ≡ b.now }
{
    match a {
        ReadPlan::Staged(fill) => match b {
            ReadPlan::Staged(other) => fill == other,
            _ => false,
        },
        ReadPlan::Hole => match b {
            ReadPlan::Hole => true,
            _ => false,
        },
        ReadPlan::Pinned(item, online) => match b {
            ReadPlan::Pinned(other, mask) => online == mask && is_same_item(item, other),
            _ => false,
        },
    }
}

/// The number that the first eight bytes spell, the most significant first.
fn number_of(bytes: &[u8]) -> u64
    requires { 8 ≤ length bytes.now }
    ensures { result ≡ from_be_bytes w64 bytes.now }
{
    let eight = [
        bytes[0], bytes[1], bytes[2], bytes[3], bytes[4], bytes[5], bytes[6], bytes[7],
    ];
    u64::from_be_bytes(eight)
}

/// The reply to an open read.
fn answer_of(read: &OpenRead, got: Option<&[u8]>) -> Reply
    ghost bytes: { Option (List ℕ) }
    requires got { option_copied got ≡ bytes }
    requires fits { IsGotFor read.now.plan bytes }
    ensures reply { result ≡ read_reply read.now read.now.plan bytes }
    ensures answer { IsReadAnswer read.now read.now.plan result }
    ensures plain { IsReadReply result }
{
    let ds = read.ds;
    let object = read.object;
    let leaf = read.leaf;
    match read.plan {
        ReadPlan::Staged(value) => Reply::Read {
            ds,
            object,
            leaf,
            value,
        },
        ReadPlan::Hole => Reply::ReadHole { ds, object, leaf },
        ReadPlan::Pinned(_, _) => match got {
            Some(bytes) => Reply::Read {
                ds,
                object,
                leaf,
                value: number_of(bytes),
            },
            None => Reply::Refused(Refusal::ReadLost),
        },
    }
}

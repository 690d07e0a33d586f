//! Staging a new object's record.

ghost use Rattle.std.specs.Prelude.{nat_le, ◌≡◌, ◌≢◌, ◌<◌, ◌≤◌, ◌+◌, ◌/◌, ◌-◌, ◌%◌, ◌^◌, None, Some, true, false, IfOk, OnOk, OnErr, IsErrOf, ◌↔◌, is_some, if◌then◌else◌, option_map};
ghost use Rattle.zs_ids.specs.Key.{root_key, dnode_key, record_key};
ghost use Rattle.zs_txg.specs.Txg.{staged_at, put_staged};
ghost use Rattle.zs_machine.specs.Machine.{has_object, staged_record, record_sectors};
ghost use Rattle.zs_ids.specs.Blocks.{bp_at};
ghost use Rattle.zs_ids.specs.Graph.{Dataset};
ghost use Rattle.zs_ids.specs.GraphTree.{dataset_at, entries_of};
ghost use Rattle.zs_machine.specs.Replies.{make_refusal, write_refusal};
ghost use Rattle.zs_script.specs.declared.command.Command.TheVariants.{Make, Write};
ghost use Rattle.zs_script.specs.Lines.{IsMake};
ghost use Rattle.zs_machine.specs.Steps.{MakeStep, WriteStep, staged_once};
ghost use Rattle.zs_core.specs.Placed.{staged_again};
ghost use Rattle.zs_core.specs.Calls.{IsPlain};
ghost use Rattle.zs_core.specs.View.{KeepsCourse};
ghost use Rattle.zs_core.specs.Staging.{HeadToWrite, StagesOr};
ghost use Rattle.zs_core.specs.Safe.{IsFullFor, next_after};
ghost use Rattle.zs_core.specs.Kept.{sectors_to_stage};

use crate::present::Present;
use std::alloc::AllocError;
use zs_ids::limits::TXG_END;
use zs_ids::{Blocks, Bp, DsId, DsName, Key, Place};
use zs_machine::Stage;
use zs_script::{Refusal, Reply};
use zs_txg::{OpenTxg, Staging};

/// The sectors of a block of pointers.
const POINTERS: u16 = 8;

/// The key of record 0 of an object.
pub(crate) fn record_key(object: u16) -> Key
    ensures { result ≡ record_key object 0 }
{
    Key {
        object,
        rank: 1,
        leaf: 0,
        depth: 3,
    }
}

/// The key of the block with an object's dnode.
fn dnode_key(object: u16) -> Key
    ensures { result ≡ dnode_key object }
{
    Key {
        object: object - object % 32,
        rank: 0,
        leaf: 0,
        depth: 1,
    }
}

/// Stages a block of pointers at the next sector, unless one is staged at the key.
fn stage_once(txg: &mut OpenTxg, ds: DsId, key: Key, sector: u32) -> u32
    requires room { 1 ≤ txg.old.room }
    requires fits { sector + 8 < 2 ^ 32 }
    ensures staged { txg.new ≡ record txg.old { staged = staged_once txg.old.staged (ds, key) (record { vdev = 0; sector = sector }); room = txg.new.room } }
    ensures room { txg.old.room ≤ txg.new.room + 1 }
    ensures next { result ≡ (if is_some (staged_at txg.old.staged (ds, key)) then sector else sector + 8) }
{
    if txg.get(ds, key).is_some() {
        return sector;
    }
    let place = Place { vdev: 0, sector };
    if txg.stage(ds, key, place, POINTERS, None).is_err() {
        unreachable!();
    }
    sector + 8
}

impl Present {
    /// The pointer that a dataset has at a key.
    pub(crate) fn pointer_at(&self, ds: DsId, key: Key) -> Option<Bp>
        ensures { result ≡ bp_at (entries_of (dataset_at self.now.state.graph ds)) key }
    {
        self.graph.blocks(ds)?.get(key)
    }

    /// Whether a dataset has the object: its record 0 is mapped or staged.
    pub(crate) fn has_object(&self, ds: DsId, object: u16) -> bool
        ensures { (d : Dataset) → dataset_at self.now.state.graph ds ≡ Some d → result ≡ has_object self.now.state d object }
    {
        let key = record_key(object);
        self.staging(ds, key).is_some() || self.pointer_at(ds, key).is_some()
    }

    /// What is staged for a dataset at a key.
    pub(crate) fn staging(&self, ds: DsId, key: Key) -> Option<Staging>
        ensures { result ≡ staged_record self.now.state ds key }
    {
        if let Some(staging) = self.open.get(ds, key) {
            return Some(staging);
        }
        match &self.closed {
            Some(closed) => closed.txg.get(ds, key),
            None => None,
        }
    }

    /// How many sectors each record of an object of a dataset has.
    fn record_sectors(&self, ds: DsId, object: u16) -> u16
        ensures { (d : Dataset) → dataset_at self.now.state.graph ds ≡ Some d → result ≡ record_sectors self.now.state d object }
    {
        let key = record_key(object);
        if let Some(staging) = self.staging(ds, key) {
            return staging.sectors;
        }
        match self.pointer_at(ds, key) {
            Some(bp) => bp.sectors,
            None => 0,
        }
    }

    /// The head of that name.
    fn head_to_write(&self, name: &DsName) -> Result<DsId, Refusal>
        ensures { HeadToWrite self.now.state name.now result }
    {
        if self.suspended {
            return Err(Refusal::Suspended);
        }
        let Some(ds) = self.graph.find(name) else {
            return Err(Refusal::NoDataset);
        };
        if !self.graph.is_head(ds) {
            return Err(Refusal::NotHead);
        }
        Ok(ds)
    }

    /// In which head a `make` stages, or why it is refused, but for want of space.
    fn may_make(&self, name: &DsName, object: u16) -> Result<DsId, Refusal>
        ensures { StagesOr (make_refusal self.now.state name.now object) self.now.state name.now result }
    {
        let ds = self.head_to_write(name)?;
        if self.has_object(ds, object) {
            return Err(Refusal::ObjectThere);
        }
        if self.open.txg() == TXG_END {
            return Err(Refusal::TxgEnd);
        }
        Ok(ds)
    }

    /// In which head a `write` stages, or why it is refused, but for want of space.
    fn may_write(&self, name: &DsName, object: u16, leaf: u32) -> Result<DsId, Refusal>
        ensures { StagesOr (write_refusal self.now.state name.now object leaf) self.now.state name.now result }
    {
        let ds = self.head_to_write(name)?;
        if !self.has_object(ds, object) {
            return Err(Refusal::NoObject);
        }
        if leaf != 0 {
            return Err(Refusal::PastEnd);
        }
        if self.open.txg() == TXG_END {
            return Err(Refusal::TxgEnd);
        }
        Ok(ds)
    }

    /// Stages record 0 of a new object in the head of that name.
    pub(crate) fn make(
        &mut self,
        ds: &DsName,
        object: u16,
        size: u32,
        fill: u64,
    ) -> Result<Reply, AllocError>
        requires numbers { IsMake object 1 size }
        requires open { self.old.state.stage ≢ Stage.Writing }
        ensures step { IfOk result (λ answer. MakeStep self.old.state ds.now object size fill answer self.new.state) }
        ensures plain { IfOk result IsPlain }
        ensures kept { KeepsCourse self.old.state self.new.state }
        ensures space { IfOk result (IsFullFor self.old (Make ds.now object 1 size fill)) }
        ensures next { IfOk result (λ answer. self.new.next_sector ≡ next_after self.old (Make ds.now object 1 size fill) answer) }
        ensures rest { OnOk result (self.new ≡ record self.old { state = self.new.state; next_sector = self.new.next_sector }) }
        ensures err { OnErr result (self.new ≡ self.old) }
    {
        let id = match self.may_make(ds, object) {
            Ok(id) => id,
            Err(refusal) => return Ok(Reply::Refused(refusal)),
        };
        let sectors = (size / 512) as u16;
        let needed = sectors_needed(&self.open, id, object, sectors);
        if self.next_sector + needed > self.end_sector {
            return Ok(Reply::Refused(Refusal::NoSpace));
        }
        stage_record(&mut self.open, id, object, sectors, fill, self.next_sector)?;
        self.next_sector += needed;
        Ok(Reply::Wrote {
            ds: *ds,
            object,
            leaf: 0,
            txg: self.open.txg(),
        })
    }

    /// Stages a record of an object that is there, in the head of that name.
    pub(crate) fn write(
        &mut self,
        ds: &DsName,
        object: u16,
        leaf: u32,
        fill: u64,
    ) -> Result<Reply, AllocError>
        requires open { self.old.state.stage ≢ Stage.Writing }
        ensures step { IfOk result (λ answer. WriteStep self.old.state ds.now object leaf fill answer self.new.state) }
        ensures plain { IfOk result IsPlain }
        ensures kept { KeepsCourse self.old.state self.new.state }
        ensures space { IfOk result (IsFullFor self.old (Write ds.now object leaf fill)) }
        ensures next { IfOk result (λ answer. self.new.next_sector ≡ next_after self.old (Write ds.now object leaf fill) answer) }
        ensures rest { OnOk result (self.new ≡ record self.old { state = self.new.state; next_sector = self.new.next_sector }) }
        ensures err { OnErr result (self.new ≡ self.old) }
    {
        let id = match self.may_write(ds, object, leaf) {
            Ok(id) => id,
            Err(refusal) => return Ok(Reply::Refused(refusal)),
        };
        let sectors = self.record_sectors(id, object);
        let needed = sectors_needed(&self.open, id, object, sectors);
        if self.next_sector + needed > self.end_sector {
            return Ok(Reply::Refused(Refusal::NoSpace));
        }
        stage_record(&mut self.open, id, object, sectors, fill, self.next_sector)?;
        self.next_sector += needed;
        Ok(Reply::Wrote {
            ds: *ds,
            object,
            leaf,
            txg: self.open.txg(),
        })
    }
}

/// How many sectors the record of an object needs with the blocks above it, of those that are not staged yet.
fn sectors_needed(txg: &OpenTxg, ds: DsId, object: u16, sectors: u16) -> u32
    ensures needed { result ≡ sectors_to_stage txg.now.staged ds object sectors }
    ensures few { result ≤ 65551 }
{
    let root: u32 = if txg.get(ds, Key::ROOT).is_some() {
        0
    } else {
        8
    };
    let dnode: u32 = if txg.get(ds, dnode_key(object)).is_some() {
        0
    } else {
        8
    };
    let record: u32 = if txg.get(ds, record_key(object)).is_some() {
        0
    } else {
        u32::from(sectors)
    };
    root + dnode + record
}

/// Stages record 0 of an object, with the blocks above it, those that are not staged yet from a sector on. A record that
/// is staged keeps its place.
fn stage_record(
    txg: &mut OpenTxg,
    ds: DsId,
    object: u16,
    sectors: u16,
    fill: u64,
    sector: u32,
) -> Result<(), AllocError>
    requires { sector + 16 < 2 ^ 32 }
    ensures kept { txg.new ≡ record txg.old { staged = txg.new.staged; room = txg.new.room } }
    ensures staged { OnOk result (txg.new.staged ≡ staged_again txg.old.staged ds object sectors (Some fill) sector) }
    ensures err { OnErr result (txg.new.staged ≡ txg.old.staged) }
{
    txg.reserve(3)?;
    let next = stage_once(txg, ds, Key::ROOT, sector);
    let sector = stage_once(txg, ds, dnode_key(object), next);
    let record = record_key(object);
    let place = match txg.get(ds, record) {
        Some(staging) => staging.place,
        None => Place { vdev: 0, sector },
    };
    if txg.stage(ds, record, place, sectors, Some(fill)).is_err() {
        unreachable!();
    }
    Ok(())
}

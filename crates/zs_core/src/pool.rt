//! The pool: its present state, and the history of what happened to it.

ghost use Rattle.std.specs.Prelude.{◌≡◌, ◌≢◌, ◌≤◌, ◌<◌, ◌+◌, ◌++◌, ◌∷◌, ◌⊎◌, ◌↔◌, [], false, true, length, vec_len, vec_capacity, Err, IfOk, OnOk, OnErr, IsErrOf, MatchOption, take, drop, map, Some, None, OnSome, IfSome, IfNone};
ghost use Rattle.std.specs.Option.{option_copied};
ghost use Rattle.zs_queue.specs.Waiting.{lowest};
ghost use Rattle.zs_walk.specs.Walking.{runs};
ghost use Rattle.zs_scan.specs.View.{pieces_in};
ghost use Rattle.zs_scan.specs.Steps.{Taken, IsComplete, IsDrained, blank_scan};
ghost use Rattle.zs_scan.specs.Walks.{Walked, IsDraining, IsFull};
ghost use Rattle.zs_walk.specs.Left.{turns_left};
ghost use Rattle.zs_machine.specs.Machine.{is_running, is_at_work};
ghost use Rattle.zs_core.specs.Line.{IsLineReply};
ghost use Rattle.zs_core.specs.Status.{status_reply};
ghost use Rattle.zs_machine.specs.Steps.{committed_reply, CommandStep, TaskStep, DataStep, ReadBeginStep, ReadEndStep, VerdictStep, blank_state, begun_sync};
ghost use Rattle.zs_machine.specs.Replies.{read_refusal};
ghost use Rattle.zs_core.specs.FlightTold.{FlyAsTold};
ghost use Rattle.zs_machine.specs.Writes.{AreStagedBlocks, AreInRoom, AreApart};
ghost use Rattle.zs_ledger.specs.Entry.{HaveCopies};
ghost use Rattle.zs_ids.specs.declared.block.Item.{Item};
ghost use Rattle.zs_core.specs.Judging.{HasVerdict};
ghost use Rattle.zs_core.specs.Synced.{IsSynced, AppliesGroup};
ghost use Rattle.zs_objset.specs.Staged.{pointers_of};
ghost use Rattle.zs_core.specs.Safe.{IsFullFor, IsHaltedCore, IsSafe, next_after};
ghost use Rattle.zs_core.specs.Reading.{IsGotFor, EndsIfRead, IsPlanInRoom};
ghost use Rattle.zs_machine.specs.History.{AddsEvent};
ghost use Rattle.zs_core.specs.View.{KeepsCourse, KeepsReads, tasks_in, with_read};
ghost use Rattle.std.specs.Prelude.{ℕ, List, Option};
ghost use Rattle.zs_ids.specs.declared.block.Piece.{Piece};
ghost use Rattle.zs_machine.specs.History.{IsHistory};
ghost use Rattle.zs_machine.specs.Shapes.{IsShape, IsLeast, data_start, room_in};
ghost use Rattle.zs_core.specs.Calls.{IsPoolCommand, IsPlain, IsStaging};

use crate::present::Present;
use crate::read::Begun;
use crate::replies::{copied, read_copied};
use std::alloc::{AllocError, Global};
use std::marker::Model;
use zs_ids::limits::TXG_END;
use zs_ids::{Boxed, DsName, Item, Marks, Piece, Seq};
use zs_ledger::Entry;
use zs_machine::{Event, ReadPlan, Shape, Stage, Step};
use zs_objset::{CommitFault, Staged};
use zs_scan::{Batch, Scan, ScanFault, Turn};
use zs_script::{Command, Refusal, Reply};
use zs_txg::Task;

/// Why a call of the pool gave no answer of its own.
#[derive(Clone, Copy, Debug, PartialEq, Eq)]
pub enum PoolFault {
    /// It is refused for this reason; the event that was recorded has the reply.
    Refused(Refusal),
    /// Memory was wanting.
    Memory,
}

impl From<AllocError> for PoolFault {
    ghost use Rattle.zs_core.specs.declared.pool.PoolFault.TheVariants.{Memory};

    ghost from_gives = { λ _ e. e ≡ Memory };

    fn from(_error: AllocError) -> Self {
        PoolFault::Memory
    }
}

/// What the checks of a batch found.
#[derive(Debug, Drop)]
pub struct Verdicts {
    /// The batch's number.
    pub number: u64,
    /// An entry for each piece, in order.
    pub entries: Seq<Entry>,
}

/// A pool with its history. The history is a run of the abstract machine that ends in the pool's present state.
#[derive(Drop)]
pub struct Pool {
    alloc: Global,
    present: Present,
    history: Vec<Event>,
}

impl Model for Pool {
    ghost use Rattle.zs_core.specs.View.{PoolView};

    ghost Value = { PoolView };

    ghost use Rattle.std.specs.Prelude.{◌≤◌, ◌+◌, vec_len, vec_capacity};
    ghost use Rattle.zs_machine.specs.History.{IsHistory};
    ghost use Rattle.zs_core.specs.FlightTold.{FlyAsTold};
    ghost use Rattle.zs_core.specs.Calls.{events_due};

    ghost view = { λ p. record { core = p.present; history = p.history.items } };

    ghost invariant = { λ p. IsHistory p.history.items p.present.state ×
        (vec_len p.history + events_due p.present.state.stage ≤ vec_capacity p.history) ×
        FlyAsTold p.present.scan.flight p.history.items };
}

/// Room for an event, and for the two that end a sync in progress.
const ROOM: usize = 3;

/// Adds an event to a history that has room for it.
fn note(history: &mut Vec<Event>, event: Event)
    requires { vec_len history.old < vec_capacity history.old }
    ensures items { history.new.items ≡ history.old.items ++ event ∷ [] }
    ensures len { vec_len history.new ≡ vec_len history.old + 1 }
    ensures capacity { vec_capacity history.new ≡ vec_capacity history.old }
{
    history.push_reserved(event);
}

/// The pieces of some items, in a list without pieces that has room for them.
fn filled(pieces: Vec<Piece>, items: &[Item]) -> Vec<Piece>
    requires empty { pieces.items ≡ [] }
    requires len { vec_len pieces ≡ 0 }
    requires room { length items.now ≤ vec_capacity pieces }
    ensures { result.items ≡ pieces_in items.now }
{
    let mut pieces = pieces;
    for item in items {
        pieces.push_reserved(item.piece);
    }
    pieces
}

/// The pieces of some entries, in a list without pieces that has room for them.
fn pieces_judged(pieces: Vec<Piece>, entries: &[Entry]) -> Vec<Piece>
    requires empty { pieces.items ≡ [] }
    requires len { vec_len pieces ≡ 0 }
    requires room { length entries.now ≤ vec_capacity pieces }
    ensures { result.items ≡ map (λ e. e.piece) entries.now }
{
    let mut pieces = pieces;
    for entry in entries {
        pieces.push_reserved(entry.piece);
    }
    pieces
}

/// Adds the event of a pool that was suspended, in whose sync memory was wanting, to a history that has room for it. Takes no
/// memory.
fn note_halted(history: &mut Vec<Event>, online: u32)
    requires room { vec_len history.old < vec_capacity history.old }
    ensures items { history.new.items
        ≡ history.old.items ++ record { by = 0; step = Step.Suspend online CommitFault.Memory; reply = Reply.Nothing } ∷ [] }
    ensures len { vec_len history.new ≡ vec_len history.old + 1 }
    ensures capacity { vec_capacity history.new ≡ vec_capacity history.old }
{
    let event = Event {
        by: 0,
        step: Step::Suspend {
            online,
            why: CommitFault::Memory,
        },
        reply: Reply::Nothing,
    };
    note(history, event);
}

/// Adds the event of a command with its reply to a history that has room for it.
fn note_command(history: &mut Vec<Event>, by: u8, c: Boxed<Command>, reply: Reply)
    requires { vec_len history.old < vec_capacity history.old }
    ensures event { history.new.items ≡ history.old.items ++ record { by = by; step = Step.Command c; reply = reply } ∷ [] }
    ensures len { vec_len history.new ≡ vec_len history.old + 1 }
    ensures capacity { vec_capacity history.new ≡ vec_capacity history.old }
{
    let step = Step::Command(c);
    note(history, Event { by, step, reply });
}

/// Adds the event of a command to a history that has room for it, and gives the reply back. The reply is one that
/// stands alone.
fn record(history: &mut Vec<Event>, by: u8, c: Boxed<Command>, reply: Reply) -> Reply
    requires room { vec_len history.old < vec_capacity history.old }
    requires plain { IsPlain reply }
    ensures event { history.new.items ≡ history.old.items ++ record { by = by; step = Step.Command c; reply = reply } ∷ [] }
    ensures len { vec_len history.new ≡ vec_len history.old + 1 }
    ensures capacity { vec_capacity history.new ≡ vec_capacity history.old }
    ensures same { result ≡ reply }
{
    let copy = copied(&reply);
    note_command(history, by, c, copy);
    reply
}

/// Queues a task of a client, and adds the event of its command to a history that has room for it. After want of memory nothing
/// has changed.
fn note_task(
    present: &mut Present,
    history: &mut Vec<Event>,
    by: u8,
    c: Boxed<Command>,
    task: Task,
) -> Result<Reply, AllocError>
    requires room { vec_len history.old < vec_capacity history.old }
    ensures step { IfOk result (λ answer. TaskStep present.old.state by task answer present.new.state) }
    ensures kept { KeepsCourse present.old.state present.new.state }
    ensures rest { OnOk result (present.new ≡ record present.old { state = present.new.state }) }
    ensures event { IfOk result (λ answer. history.new.items ≡ history.old.items ++ record { by = by; step = Step.Command c; reply = answer } ∷ []) }
    ensures len { OnOk result (vec_len history.new ≡ vec_len history.old + 1) }
    ensures capacity { vec_capacity history.new ≡ vec_capacity history.old }
    ensures err { OnErr result ((present.new ≡ present.old) × (history.new ≡ history.old)) }
{
    let reply = present.queue(by, task)?;
    Ok(record(history, by, c, reply))
}

#[tactic(auto, using(zs_machine::proofs::Histories::history_on, crate::proofs::Flying::fly_still))]
impl Pool {
    /// Makes a pool: a sync of transaction group 1, in which nothing is staged, is in progress.
    pub fn blank(alloc: Global, shape: Shape) -> Result<Pool, AllocError>
        requires { IsShape shape }
        ensures made { IfOk result
            (λ p. AddsEvent 0 (Step.Made (Command.Pool shape.pool shape.width shape.limit shape.every shape.blocks))
            (Reply.Made shape.pool 1) [] p.history) }
        ensures state { IfOk result (λ p. p.core.state ≡ blank_state shape.width shape.devices) }
        ensures scan { IfOk result (λ p. p.core.scan ≡ blank_scan shape.devices shape.width shape.limit shape.every p.core.scan.room) }
        ensures shape { IfOk result (λ p. p.core.shape ≡ shape) }
        ensures pointers { IfOk result (λ p. p.core.pointers ≡ []) }
        ensures space { IfOk result (λ p. p.core.next_sector ≡ data_start shape.blocks) }
        ensures end { IfOk result (λ p. IsLeast p.core.end_sector shape.sectors) }
    {
        let mut history = Vec::new(alloc);
        history.reserve(ROOM)?;
        let line = Command::Pool {
            pool: shape.pool,
            width: shape.width,
            limit: shape.limit,
            every: shape.every,
            blocks: shape.blocks,
        };
        let line = Boxed::new(alloc, line)?;
        let event = Event {
            by: 0,
            step: Step::Made(line),
            reply: Reply::Made {
                pool: shape.pool,
                mirrors: 1,
            },
        };
        let present = Present::blank(alloc, shape)?;
        note(&mut history, event);
        Ok(Pool {
            alloc,
            present,
            history,
        })
    }

    /// What is true of each pool, also of one that is suspended: its history is a run of the machine, and its scan misses
    /// nothing: each live piece in the scope of a scan that was not canceled is checked, waits, flies or is ahead of the walk.
    pub fn facts(&self)
        ensures run { IsHistory self.now.history self.now.core.state }
        ensures safe { IsSafe self.now.core }
        ensures flight { FlyAsTold self.now.core.scan.flight self.now.history }
    {
        self.present.facts();
    }

    /// The numbers that the pool was made with.
    pub fn shape(&self) -> &Shape
        ensures { result.now ≡ self.now.core.shape }
    {
        self.present.shape()
    }

    /// The scan.
    pub fn scan(&self) -> &Scan
        ensures { result.now ≡ self.now.core.scan }
    {
        self.present.scan()
    }

    /// Whether a scan is paused.
    pub fn is_paused(&self) -> bool
        ensures machine { result ≡ self.now.core.state.scan.paused }
        ensures scan { result ≡ self.now.core.scan.run.paused }
    {
        self.present.is_paused()
    }

    /// How far the sync in progress has come.
    pub fn stage(&self) -> Stage
        ensures { result ≡ self.now.core.state.stage }
    {
        self.present.stage()
    }

    /// Whether the pool is suspended.
    pub fn is_suspended(&self) -> bool
        ensures { result ≡ self.now.core.state.suspended }
    {
        self.present.is_suspended()
    }

    /// Whether a scan is running.
    pub fn is_scanning(&self) -> bool
        ensures machine { result ≡ is_running self.now.core.state.scan }
        ensures scan { result ≡ runs self.now.core.scan.run.status }
    {
        self.present.is_scanning()
    }

    /// The history.
    pub fn history(&self) -> &[Event]
        ensures { result.now ≡ self.now.history }
    {
        self.history.as_slice()
    }

    /// Stages a record, queues a task, or tells the status or the damaged pieces, for a client. Refusals are replies.
    pub fn command(&mut self, by: u8, c: &Command) -> Result<Reply, AllocError>
        requires command { IsPoolCommand c.now }
        requires open { IsStaging c.now → self.old.core.state.stage ≢ Stage.Writing }
        ensures adds { IfOk result (λ answer. self.new.history ≡ self.old.history ++ record { by = by; step = Step.Command c.now; reply = answer } ∷ []) }
        ensures step { IfOk result (λ answer. CommandStep self.old.core.state by c.now answer self.new.core.state) }
        ensures rest { OnOk result (self.new.core ≡ record self.old.core { state = self.new.core.state; next_sector = self.new.core.next_sector }) }
        ensures space { IfOk result (IsFullFor self.old.core c.now) }
        ensures next { IfOk result (λ answer. self.new.core.next_sector ≡ next_after self.old.core c.now answer) }
        ensures kept { OnOk result (KeepsCourse self.old.core.state self.new.core.state) }
        ensures status { c.now ≡ Command.Status → IfOk result (λ answer. answer ≡ status_reply self.old.core.state self.old.core.scan) }
        ensures err { OnErr result (self.new ≡ self.old) }
    {
        self.history.reserve(ROOM)?;
        let line = Boxed::new(self.alloc, *c)?;
        match c {
            Command::Fs { name } => {
                note_task(
                    &mut self.present,
                    &mut self.history,
                    by,
                    line,
                    Task::Fs { name: *name },
                )
            }
            Command::Snap { head, label } => {
                let task = Task::Snap {
                    head: *head,
                    label: *label,
                };
                note_task(&mut self.present, &mut self.history, by, line, task)
            }
            Command::Clone { ds, name } => {
                let task = Task::Clone {
                    ds: *ds,
                    name: *name,
                };
                note_task(&mut self.present, &mut self.history, by, line, task)
            }
            Command::Destroy { ds } => {
                note_task(
                    &mut self.present,
                    &mut self.history,
                    by,
                    line,
                    Task::Destroy { ds: *ds },
                )
            }
            Command::Swap { first, second } => {
                let task = Task::Swap {
                    first: *first,
                    second: *second,
                };
                note_task(&mut self.present, &mut self.history, by, line, task)
            }
            Command::Scrub => {
                note_task(&mut self.present, &mut self.history, by, line, Task::Scrub)
            }
            Command::Pause => {
                note_task(&mut self.present, &mut self.history, by, line, Task::Pause)
            }
            Command::Resume => {
                note_task(&mut self.present, &mut self.history, by, line, Task::Resume)
            }
            Command::Stop => {
                note_task(&mut self.present, &mut self.history, by, line, Task::Stop)
            }
            Command::Make {
                ds,
                object,
                size,
                fill,
                ..
            } => {
                let reply = self.present.make(ds, *object, *size, *fill)?;
                Ok(record(&mut self.history, by, line, reply))
            }
            Command::Write {
                ds,
                object,
                leaf,
                fill,
            } => {
                let reply = self.present.write(ds, *object, *leaf, *fill)?;
                Ok(record(&mut self.history, by, line, reply))
            }
            Command::Status => {
                let told = self.present.status()?;
                let reply = self.present.status()?;
                note_command(&mut self.history, by, line, told);
                Ok(reply)
            }
            Command::Errors => {
                let (reply, told) = self.present.errors()?;
                note_command(&mut self.history, by, line, told);
                Ok(reply)
            }
            Command::List => {
                let (reply, told) = self.present.list()?;
                note_command(&mut self.history, by, line, told);
                Ok(reply)
            }
            _ => unreachable!(),
        }
    }

    /// Closes the open transaction group and answers the blocks that are to be written. Refused where no transaction
    /// group is left.
    pub fn begin_sync(&mut self) -> Result<Staged, PoolFault>
        requires between { self.old.core.state.stage ≡ Stage.Between }
        requires up { self.old.core.state.suspended ≡ false }
        ensures event { OnOk result (AddsEvent 0 Step.BeginSync Reply.Nothing self.old.history self.new.history) }
        ensures begun { OnOk result (self.new.core.state ≡ begun_sync self.old.core.state) }
        ensures left { OnOk result (self.old.core.state.open_txg.txg < TXG_END) }
        ensures group { IfOk result (λ staged. staged.txg ≡ self.old.core.state.open_txg.txg) }
        ensures online { IfOk result (λ staged. staged.online ≡ self.old.core.state.online) }
        ensures blocks { IfOk result (λ staged. AreStagedBlocks self.old.core.state.graph self.old.core.state.open_txg staged.blocks) }
        ensures within { IfOk result (λ staged. AreInRoom (room_in self.old.core.shape self.old.core.end_sector 0) staged.blocks) }
        ensures apart { IfOk result (λ staged. AreApart staged.blocks) }
        ensures pointers { IfOk result (λ staged. self.new.core.pointers ≡ pointers_of staged.blocks) }
        ensures rest { self.new.core ≡ record self.old.core { state = self.new.core.state; pointers = self.new.core.pointers } }
        ensures told { (why : Refusal) → IsErrOf result (PoolFault.Refused why) →
            (why ≡ Refusal.TxgEnd) ×
            AddsEvent 0 Step.BeginSync (Reply.RefusedSync TXG_END Refusal.TxgEnd) self.old.history self.new.history }
        ensures end { (why : Refusal) → IsErrOf result (PoolFault.Refused why) → self.old.core.state.open_txg.txg ≡ TXG_END }
        ensures refused { (why : Refusal) → IsErrOf result (PoolFault.Refused why) → self.new.core ≡ self.old.core }
        ensures memory { IsErrOf result PoolFault.Memory → self.new ≡ self.old }
    {
        self.history.reserve(ROOM)?;
        let txg = self.present.open_txg();
        if txg == TXG_END {
            let event = Event {
                by: 0,
                step: Step::BeginSync,
                reply: Reply::RefusedSync {
                    txg,
                    refusal: Refusal::TxgEnd,
                },
            };
            note(&mut self.history, event);
            return Err(PoolFault::Refused(Refusal::TxgEnd));
        }
        let blocks = self.present.begin()?;
        let event = Event {
            by: 0,
            step: Step::BeginSync,
            reply: Reply::Nothing,
        };
        note(&mut self.history, event);
        Ok(Staged {
            txg,
            online: self.present.online(),
            blocks: Seq::from_vec(blocks),
        })
    }

    /// Applies the closed transaction group: its blocks, then its tasks, and the scan may come to its end or make a checkpoint.
    /// The pieces that are not live any more are freed, a scan may start, be paused, resumed or stopped, and all else of the
    /// scan stays as it was. The marks
    /// tell where the blocks' writes stand in the journals; no device failed. After want of memory the pool is suspended, and
    /// may have some of the group.
    pub fn end_data(&mut self, marks: &Marks) -> Result<(), AllocError>
        requires writing { self.old.core.state.stage ≡ Stage.Writing }
        requires up { self.old.core.state.suspended ≡ false }
        requires failed { marks.now.failed ≡ 0 }
        ensures step { OnOk result (AppliesGroup marks.now self.old self.new) }
        ensures ends { OnOk result (IsComplete self.old.core.scan → tasks_in self.old.core.state.closed ≡ []
            → is_at_work self.new.core.state.scan ≡ false) }
        ensures saved { OnOk result (IsDrained self.old.core.scan → runs self.new.core.scan.run.status ≡ true
            → self.new.core.scan.saved ≡ self.new.core.state.applied) }
        ensures rest { OnOk result (self.new.core ≡ record self.old.core { state = self.new.core.state; scan = self.new.core.scan; pointers = [] }) }
        ensures scan { OnOk result (IsSynced self.old.core.state self.old.core.scan self.new.core.scan) }
        ensures stage { OnOk result (self.new.core.state.stage ≡ Stage.Labelling) }
        ensures flight { OnOk result (self.new.core.scan.flight ≡ self.old.core.scan.flight) }
        ensures kept { OnOk result (KeepsReads self.old.core.state self.new.core.state) }
        ensures err { OnErr result
            (AddsEvent 0
            (Step.Suspend self.old.core.state.online CommitFault.Memory) Reply.Nothing self.old.history self.new.history ×
            IsHaltedCore self.old.core self.new.core) }
    {
        let online = self.present.online();
        let Ok(marks) = Boxed::new(self.alloc, *marks) else {
            self.present.suspend();
            note_halted(&mut self.history, online);
            return Err(AllocError);
        };
        let Ok(items) = self.present.apply() else {
            note_halted(&mut self.history, online);
            return Err(AllocError);
        };
        let event = Event {
            by: 0,
            step: Step::EndData {
                online,
                marks,
                items,
            },
            reply: Reply::Nothing,
        };
        note(&mut self.history, event);
        Ok(())
    }

    /// Records that a line ended whose events stand before this one. Its reply is the one that these events and the pool
    /// give; what a `sync` and a `finish` did is told by the replies of those events.
    pub fn line(&mut self, by: u8, c: &Command, reply: Reply) -> Result<(), AllocError>
        requires { IsLineReply self.old c.now reply }
        ensures adds { OnOk result (self.new.history ≡ self.old.history ++ record { by = by; step = Step.Line c.now; reply = reply } ∷ []) }
        ensures core { OnOk result (self.new.core ≡ self.old.core) }
        ensures err { OnErr result (self.new ≡ self.old) }
    {
        self.history.reserve(ROOM)?;
        let line = Boxed::new(self.alloc, *c)?;
        let event = Event {
            by,
            step: Step::Line(line),
            reply,
        };
        note(&mut self.history, event);
        Ok(())
    }

    /// Commits what was applied, and answers its reply. After want of memory the pool is suspended.
    pub fn committed(&mut self) -> Result<Reply, AllocError>
        requires labelling { self.old.core.state.stage ≡ Stage.Labelling }
        requires up { self.old.core.state.suspended ≡ false }
        ensures event { OnOk result
            (AddsEvent 0 (Step.Committed self.old.core.state.online)
            (committed_reply self.old.core.state) self.old.history self.new.history) }
        ensures answer { IfOk result (λ answer. answer ≡ committed_reply self.old.core.state) }
        ensures core { OnOk result (self.new.core ≡ record self.old.core { state = record self.old.core.state { stage = Stage.Between } }) }
        ensures err { OnErr result
            (AddsEvent 0
            (Step.Suspend self.old.core.state.online CommitFault.Memory) Reply.Nothing self.old.history self.new.history ×
            IsHaltedCore self.old.core self.new.core) }
    {
        let online = self.present.online();
        let (Ok(reply), Ok(answer)) = (
            self.present.committed_reply(),
            self.present.committed_reply(),
        ) else {
            self.present.suspend();
            note_halted(&mut self.history, online);
            return Err(AllocError);
        };
        self.present.commit();
        let event = Event {
            by: 0,
            step: Step::Committed { online },
            reply,
        };
        note(&mut self.history, event);
        Ok(answer)
    }

    /// Makes one turn of the walk. Refused as `Draining` exactly where a checkpoint is due and there is a turn to make, else as
    /// `Full` where the turn would put a piece and as many wait as may; then there is no event. Where memory is wanting for
    /// the event, that is answered instead.
    pub fn walk(&mut self, by: u8) -> Result<Turn, ScanFault>
        requires up { self.old.core.state.suspended ≡ false }
        ensures event { IfOk result (λ turn. AddsEvent by (Step.Walk turn) Reply.Nothing self.old.history self.new.history) }
        ensures turn { IfOk result (λ turn. Walked self.old.core.state.graph self.old.core.scan turn self.new.core.scan) }
        ensures left { IfOk result
            (λ turn. turn ≢ Turn.Nothing →
            turns_left self.old.core.state.graph self.new.core.scan.run < turns_left self.old.core.state.graph self.old.core.scan.run) }
        ensures core { self.new.core ≡ record self.old.core { scan = self.new.core.scan } }
        ensures draining { IsErrOf result ScanFault.Draining → IsDraining self.old.core.state.graph self.old.core.state.applied self.old.core.scan }
        ensures drains { IsDraining self.old.core.state.graph self.old.core.state.applied self.old.core.scan
            → (result ≡ Err ScanFault.Draining) ⊎ (result ≡ Err ScanFault.Memory) }
        ensures full { IsErrOf result ScanFault.Full → IsFull self.old.core.state.graph self.old.core.state.applied self.old.core.scan }
        ensures why { OnErr result ((result ≡ Err ScanFault.Full) ⊎ ((result ≡ Err ScanFault.Draining) ⊎ (result ≡ Err ScanFault.Memory))) }
        ensures err { OnErr result (self.new ≡ self.old) }
    {
        self.history.reserve(ROOM)?;
        let turn = self.present.walk()?;
        let event = Event {
            by,
            step: Step::Walk(turn),
            reply: Reply::Nothing,
        };
        note(&mut self.history, event);
        Ok(turn)
    }

    /// Takes a batch of the lowest `n` pieces of a mirror that wait, at least 1. The batch is empty, and not in flight,
    /// exactly where none waits.
    pub fn hold(&mut self, by: u8, vdev: u8, n: u32) -> Result<Batch, AllocError>
        requires some { 1 ≤ n }
        requires up { self.old.core.state.suspended ≡ false }
        ensures event { IfOk result
            (λ b. AddsEvent by (Step.Hold b.number vdev b.online (pieces_in b.items)) Reply.Nothing self.old.history self.new.history) }
        ensures batch { IfOk result
            (λ b. b
            ≡ record {
              number = self.old.core.scan.batches;
              vdev = vdev;
              online = self.old.core.state.online;
              items = lowest self.old.core.scan.waiting vdev n;
            }) }
        ensures taken { IfOk result (λ b. 1 ≤ length b.items → Taken self.old.core.scan b self.new.core.scan) }
        ensures none { IfOk result (λ b. length b.items ≡ 0 → self.new.core.scan ≡ record self.old.core.scan { room = self.new.core.scan.room }) }
        ensures core { self.new.core ≡ record self.old.core { scan = self.new.core.scan } }
        ensures err { OnErr result
            ((self.new.history ≡ self.old.history) ×
            (self.new.core.scan ≡ record self.old.core.scan { room = self.new.core.scan.room })) }
    {
        self.history.reserve(ROOM)?;
        let mut taken = Boxed::new(self.alloc, Seq::new(self.alloc))?;
        let mut pieces = Vec::new(self.alloc);
        let most = n.min(self.present.scan().waiting_of(vdev));
        pieces.reserve(most as usize)?;
        let Ok(batch) = self.present.take(vdev, n) else {
            return Err(AllocError);
        };
        taken.set(Seq::from_vec(filled(pieces, batch.items.as_slice())));
        let event = Event {
            by,
            step: Step::Hold {
                number: batch.number,
                vdev,
                online: batch.online,
                pieces: taken,
            },
            reply: Reply::Nothing,
        };
        note(&mut self.history, event);
        Ok(batch)
    }

    /// Takes what the checks of a batch found, and answers how many entries were made: one for each of its pieces that was
    /// not freed and whose scan still runs; 0 where no such batch is in flight.
    pub fn verdict(&mut self, by: u8, v: &Verdicts) -> Result<usize, AllocError>
        requires copies { HaveCopies self.old.core.scan.scope.width v.now.entries }
        ensures judged { IfOk result (λ n. HasVerdict by self.old v.now n self.new) }
        ensures core { self.new.core
            ≡ record self.old.core {
              state = record self.old.core.state { scan = self.new.core.state.scan };
              scan = self.new.core.scan;
            } }
        ensures err { OnErr result (self.new ≡ self.old) }
    {
        self.history.reserve(ROOM)?;
        let mut judged = Boxed::new(self.alloc, Seq::new(self.alloc))?;
        let mut entries = Boxed::new(self.alloc, Seq::new(self.alloc))?;
        let mut pieces = Vec::new(self.alloc);
        pieces.reserve(v.entries.len())?;
        let Some(made) = self.present.verdict(v.number, v.entries.as_slice())? else {
            let event = Event {
                by,
                step: Step::Verdict {
                    number: v.number,
                    pieces: judged,
                    entries,
                },
                reply: Reply::Nothing,
            };
            note(&mut self.history, event);
            return Ok(0);
        };
        let many = made.len();
        judged.set(Seq::from_vec(pieces_judged(pieces, v.entries.as_slice())));
        entries.set(Seq::from_vec(made));
        let event = Event {
            by,
            step: Step::Verdict {
                number: v.number,
                pieces: judged,
                entries,
            },
            reply: Reply::Nothing,
        };
        note(&mut self.history, event);
        Ok(many)
    }

    /// Begins a read, and answers its plan. Where it is refused, the event has the reply.
    pub fn read_begin(
        &mut self,
        by: u8,
        ds: &DsName,
        object: u16,
        leaf: u32,
    ) -> Result<ReadPlan, PoolFault>
        ensures event { IfOk result
            (λ plan. AddsEvent by
            (Step.ReadBegin (Command.Read ds.now object leaf)
            (Some plan)) Reply.Nothing self.old.history self.new.history) }
        ensures step { IfOk result (λ plan. ReadBeginStep self.old.core.state by ds.now object leaf (Some plan) Reply.Nothing self.new.core.state) }
        ensures begun { IfOk result
            (λ plan. self.new.core
            ≡ with_read self.old.core (record { by = by; ds = ds.now; object = object; leaf = leaf; plan = plan })) }
        ensures within { IfOk result (IsPlanInRoom (room_in self.old.core.shape self.old.core.end_sector 0)) }
        ensures told { (why : Refusal) → IsErrOf result (PoolFault.Refused why) →
            (read_refusal self.old.core.state ds.now object leaf ≡ Some why) ×
            AddsEvent by (Step.ReadBegin (Command.Read ds.now object leaf) None)
            (Reply.Refused why) self.old.history self.new.history }
        ensures refused { (why : Refusal) → IsErrOf result (PoolFault.Refused why) → self.new.core ≡ self.old.core }
        ensures memory { IsErrOf result PoolFault.Memory → self.new ≡ self.old }
    {
        self.history.reserve(ROOM)?;
        let line = Command::Read {
            ds: *ds,
            object,
            leaf,
        };
        let line = Boxed::new(self.alloc, line)?;
        let mut planned = Boxed::new(self.alloc, ReadPlan::Hole)?;
        let begun = self.present.read_begin(by, ds, object, leaf)?;
        match begun {
            Begun::Planned(plan) => {
                planned.set(plan);
                let event = Event {
                    by,
                    step: Step::ReadBegin(line, Some(planned)),
                    reply: Reply::Nothing,
                };
                note(&mut self.history, event);
                Ok(plan)
            }
            Begun::Refused(refusal) => {
                let event = Event {
                    by,
                    step: Step::ReadBegin(line, None),
                    reply: Reply::Refused(refusal),
                };
                note(&mut self.history, event);
                Err(PoolFault::Refused(refusal))
            }
        }
    }

    /// Ends the first open read of the client with this plan, and answers its reply: it has the staged fill, is `hole`, or
    /// has the first eight bytes of those that were got, and where none were got the piece is lost. Answers none, and
    /// nothing changes, exactly where the client has no open read with this plan. The places are those of the reads of the
    /// piece's copies in the journals of their devices; `u64::MAX` for a copy that was not read.
    pub fn read_end(
        &mut self,
        by: u8,
        plan: ReadPlan,
        got: Option<&[u8]>,
        places: &[u64; 12],
    ) -> Result<Option<Reply>, AllocError>
        ghost bytes: { Option (List ℕ) }
        requires got { option_copied got ≡ bytes }
        requires fits { IsGotFor plan bytes }
        ensures event { IfOk result (λ ended. IfSome ended (λ reply. AddsEvent by (Step.ReadEnd plan places.now) reply self.old.history self.new.history)) }
        ensures step { IfOk result (λ ended. IfSome ended (λ reply. ReadEndStep self.old.core.state by plan reply self.new.core.state)) }
        ensures ended { IfOk result (EndsIfRead by plan bytes self.old.core.state.reads self.new.core.state.reads) }
        ensures rest { self.new.core ≡ record self.old.core { state = record self.old.core.state { reads = self.new.core.state.reads } } }
        ensures absent { IfOk result (λ ended. IfNone ended (self.new ≡ self.old)) }
        ensures err { OnErr result (self.new ≡ self.old) }
    {
        self.history.reserve(ROOM)?;
        let ended = Boxed::new(self.alloc, plan)?;
        let places = Boxed::new(self.alloc, *places)?;
        let Some(reply) = self.present.read_end(by, &plan, got) else {
            return Ok(None);
        };
        let copy = read_copied(&reply);
        let event = Event {
            by,
            step: Step::ReadEnd(ended, places),
            reply: copy,
        };
        note(&mut self.history, event);
        Ok(Some(reply))
    }
}

//! The turns of the walk, with what they put into the queue.

ghost use Rattle.std.specs.Prelude.{◌≡◌, ◌≢◌, ◌<◌, ◌≤◌, ◌⊎◌, ◌↔◌, ℕ, true, false, length, Err, OnOk, OnErr, IfOk, IsErrOf, IsTrue, IfSome, is_some};
ghost use Rattle.zs_ids.specs.GraphValid.{HasOnePlace, Room};
ghost use Rattle.zs_phys.specs.Turn.{Comes};
ghost use Rattle.zs_queue.specs.Waiting.{waits, with_item};
ghost use Rattle.zs_walk.specs.Left.{turns_left};
ghost use Rattle.zs_walk.specs.Walking.{MayWalk};
ghost use Rattle.zs_scan.specs.Covered.{IsScanOf};
ghost use Rattle.zs_scan.specs.Walks.{Walked, IsWanted, Put, PutIf, IsDraining, IsFull, WouldPut, HasPlace, is_due, turn_of, item_of, item_put};

use crate::batch::{ScanFault, Turn};
use crate::scan::Scan;
use crate::scope::in_scope;
use zs_ids::{Bp, Item, Piece};
use zs_phys::Step;
use zs_queue::{PlainQueue, Waiting};
use zs_walk::{Datasets, advance, visit};

/// The item at the first place of a block, which has one.
pub fn item_of(bp: &Bp) -> Item
    ensures item { result ≡ item_of bp.now }
    ensures place { 0 < length bp.now.places }
{
    Item {
        piece: Piece {
            place: bp.places[0],
            birth: bp.birth,
        },
        sectors: bp.sectors,
        sum: bp.sum,
    }
}

/// What a turn is called.
fn turn_of(step: &Step) -> Turn
    ensures { result ≡ turn_of step.now }
{
    match step {
        Step::Nothing => Turn::Nothing,
        Step::Skip => Turn::Skip,
        Step::Enter(_, _) => Turn::Enter,
        Step::At(_, _) => Turn::At,
        Step::End(_) => Turn::End,
    }
}

impl Scan {
    /// Makes the next turn of the walk over the datasets, and answers what it was, where the transaction group `synced` is the
    /// last that was synced. Refused as `Draining` exactly where a checkpoint is due and there is a turn to make; else as
    /// `Full` exactly where the turn would put a piece and as many wait as the limit allows; and then whatever memory there
    /// is. Nothing has changed where it was refused, nor after want of memory. A scan that covers the datasets, and whose
    /// pieces they have, is such a scan after the turn, where each block has one place and the scope ends by the group whose
    /// tasks come next. Each turn but the empty one leaves fewer turns, so that the walk comes to its end.
    pub fn walk_step<G: Datasets>(&mut self, graph: &G, synced: u64) -> Result<Turn, ScanFault>
        requires { MayWalk (G.datasets graph.now) self.old.scope self.old.run }
        ensures turn { IfOk result (λ turn. Walked (G.datasets graph.now) self.old turn self.new) }
        ensures goes_on { IfOk result (λ turn. MayWalk (G.datasets graph.now) self.new.scope self.new.run) }
        ensures left { IfOk result (λ turn. turn ≢ Turn.Nothing
            → turns_left (G.datasets graph.now) self.new.run < turns_left (G.datasets graph.now) self.old.run) }
        ensures draining { (result ≡ Err ScanFault.Draining) ↔ IsDraining (G.datasets graph.now) synced self.old }
        ensures full { IsErrOf result ScanFault.Full → IsFull (G.datasets graph.now) synced self.old }
        ensures refuses { IsFull (G.datasets graph.now) synced self.old → result ≡ Err ScanFault.Full }
        ensures why { OnErr result ((result ≡ Err ScanFault.Full) ⊎ ((result ≡ Err ScanFault.Draining) ⊎ (result ≡ Err ScanFault.Memory))) }
        ensures keeps { OnOk result ((room : Room) (n h : ℕ) → HasOnePlace (G.datasets graph.now) → self.old.scope.max ≤ h
            → IsScanOf room (G.datasets graph.now) n h self.old → IsScanOf room (G.datasets graph.now) n h self.new) }
        ensures err { OnErr result (self.new ≡ self.old) }
    {
        let step = visit(graph, &self.scope, &self.run);
        if self.drains(synced, &step) {
            return Err(ScanFault::Draining);
        }
        self.make_turn(graph, &step)
    }

    /// Makes the turn that comes. Refused as `Full` exactly where it would put a piece and as many wait as the limit allows.
    fn make_turn<G: Datasets>(&mut self, graph: &G, step: &Step) -> Result<Turn, ScanFault>
        requires may { MayWalk (G.datasets graph.now) self.old.scope self.old.run }
        requires comes { Comes (G.datasets graph.now) self.old.scope self.old.run step.now }
        ensures turn { IfOk result (λ turn. Walked (G.datasets graph.now) self.old turn self.new) }
        ensures goes_on { IfOk result (λ turn. MayWalk (G.datasets graph.now) self.new.scope self.new.run) }
        ensures left { IfOk result (λ turn. turn ≢ Turn.Nothing
            → turns_left (G.datasets graph.now) self.new.run < turns_left (G.datasets graph.now) self.old.run) }
        ensures full { IsErrOf result ScanFault.Full → WouldPut self.old step.now × (length self.old.waiting ≡ self.old.limit) }
        ensures refuses { WouldPut self.old step.now → length self.old.waiting ≡ self.old.limit → result ≡ Err ScanFault.Full }
        ensures why { OnErr result ((result ≡ Err ScanFault.Full) ⊎ (result ≡ Err ScanFault.Memory)) }
        ensures keeps { OnOk result ((room : Room) (n h : ℕ) → HasOnePlace (G.datasets graph.now) → self.old.scope.max ≤ h
            → IsScanOf room (G.datasets graph.now) n h self.old → IsScanOf room (G.datasets graph.now) n h self.new) }
        ensures err { OnErr result (self.new ≡ self.old) }
    {
        let item = self.item_put(step);
        self.put_if(item)?;
        advance(graph, &self.scope, &mut self.run, step);
        Ok(turn_of(step))
    }

    /// Whether a turn is not made because a checkpoint is due: any turn but the one that does nothing.
    fn drains(&self, synced: u64, step: &Step) -> bool
        ensures { IsTrue result ↔ ((is_due synced self.now ≡ true) × (turn_of step.now ≢ Turn.Nothing)) }
    {
        match turn_of(step) {
            Turn::Nothing => false,
            Turn::Skip | Turn::Enter | Turn::At | Turn::End => self.is_due(synced),
        }
    }

    /// Whether a checkpoint is due, where the transaction group `synced` is the last that was synced.
    pub fn is_due(&self, synced: u64) -> bool
        ensures { result ≡ is_due synced self.now }
    {
        self.is_running() && u64::from(self.every) <= synced.saturating_sub(self.saved)
    }

    /// The item that a turn puts into the queue. A block that it meets has a first place.
    fn item_put(&self, step: &Step) -> Option<Item>
        ensures item { result ≡ item_put self.now step.now }
        ensures place { HasPlace step.now }
    {
        let Step::At(_, bp) = step else {
            return None;
        };
        let item = item_of(bp);
        if bp.birth <= self.run.curmax
            && in_scope(&self.scope, &item.piece)
            && !self.is_done(item.piece)
        {
            return Some(item);
        }
        None
    }

    /// Puts an item into the queue, if there is one; its piece is in scope and not done, and a scan runs.
    fn put_if(&mut self, item: Option<Item>) -> Result<(), ScanFault>
        requires { IfSome item (IsWanted self.old) }
        ensures ok { OnOk result (PutIf self.old item self.new) }
        ensures full { IsErrOf result ScanFault.Full → (is_some item ≡ true) × (length self.old.waiting ≡ self.old.limit) }
        ensures refuses { is_some item ≡ true → length self.old.waiting ≡ self.old.limit → result ≡ Err ScanFault.Full }
        ensures why { OnErr result ((result ≡ Err ScanFault.Full) ⊎ (result ≡ Err ScanFault.Memory)) }
        ensures err { OnErr result (self.new ≡ self.old) }
    {
        match item {
            Some(item) => self.put(item),
            None => Ok(()),
        }
    }

    /// Puts an item into the queue whose piece is in scope and not done. A scan runs.
    fn put(&mut self, item: Item) -> Result<(), ScanFault>
        requires { IsWanted self.old item }
        ensures ok { OnOk result (Put self.old item self.new) }
        ensures full { IsErrOf result ScanFault.Full → length self.old.waiting ≡ self.old.limit }
        ensures refuses { length self.old.waiting ≡ self.old.limit → result ≡ Err ScanFault.Full }
        ensures why { OnErr result ((result ≡ Err ScanFault.Full) ⊎ (result ≡ Err ScanFault.Memory)) }
        ensures err { OnErr result (self.new ≡ self.old) }
    {
        put_waiting(&mut self.queue, item)?;
        match self.marks.wait(item.piece) {
            Ok(()) => Ok(()),
            Err(_) => {
                self.queue.drop_piece(item.piece);
                Err(ScanFault::Memory)
            }
        }
    }
}

/// Puts an item whose piece does not wait into the queue.
fn put_waiting(queue: &mut PlainQueue, item: Item) -> Result<(), ScanFault>
    requires { waits (⟦<PlainQueue as Waiting>⟧.items queue.old) item.piece ≡ false }
    ensures ok { OnOk result (⟦<PlainQueue as Waiting>⟧.items queue.new ≡ with_item (⟦<PlainQueue as Waiting>⟧.items queue.old) item) }
    ensures room { OnOk result (length (⟦<PlainQueue as Waiting>⟧.items queue.old) < ⟦<PlainQueue as Waiting>⟧.limit_of queue.old) }
    ensures full { IsErrOf result ScanFault.Full
        → ⟦<PlainQueue as Waiting>⟧.limit_of queue.old ≤ length (⟦<PlainQueue as Waiting>⟧.items queue.old) }
    ensures refuses { ⟦<PlainQueue as Waiting>⟧.limit_of queue.old ≤ length (⟦<PlainQueue as Waiting>⟧.items queue.old)
        → result ≡ Err ScanFault.Full }
    ensures why { OnErr result ((result ≡ Err ScanFault.Full) ⊎ (result ≡ Err ScanFault.Memory)) }
    ensures limit { ⟦<PlainQueue as Waiting>⟧.limit_of queue.new ≡ ⟦<PlainQueue as Waiting>⟧.limit_of queue.old }
    ensures err { OnErr result (⟦<PlainQueue as Waiting>⟧.items queue.new ≡ ⟦<PlainQueue as Waiting>⟧.items queue.old) }
{
    if queue.count() >= queue.limit() {
        return Err(ScanFault::Full);
    }
    match queue.put(item) {
        Ok(()) => Ok(()),
        Err(_) => Err(ScanFault::Memory),
    }
}

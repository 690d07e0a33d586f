//! The turns of the walk, the batches that are taken, and their verdicts.

ghost use Rattle.std.specs.Prelude.{◌≡◌, ◌≢◌, ◌≤◌, ◌<◌, ◌++◌, ◌⊎◌, ◌↔◌, Err, IfOk, OnOk, OnErr, IsErrOf, IfSome, false, map, length, filter, Some, None, Ok, option_map};
ghost use Rattle.zs_queue.specs.Waiting.{lowest};
ghost use Rattle.zs_scan.specs.View.{pieces_in};
ghost use Rattle.zs_scan.specs.Steps.{Taken};
ghost use Rattle.zs_core.specs.Judging.{entries_in, IsJudged};
ghost use Rattle.zs_scan.specs.Walks.{Walked, IsDraining, IsFull};
ghost use Rattle.zs_walk.specs.Left.{turns_left};
ghost use Rattle.zs_machine.specs.Steps.{VerdictStep};
ghost use Rattle.zs_ledger.specs.Entry.{HaveCopies};
ghost use Rattle.zs_scan.specs.Steps.{IsVerdict, Judged, still_flying};

use crate::present::Present;
use std::alloc::AllocError;
use zs_ledger::Entry;
use zs_scan::{Batch, ScanFault, Turn};

impl Present {
    /// Makes one turn of the walk.
    pub(crate) fn walk(&mut self) -> Result<Turn, ScanFault>
        requires up { self.old.state.suspended ≡ false }
        ensures turn { IfOk result (λ turn. Walked self.old.state.graph self.old.scan turn self.new.scan) }
        ensures left { IfOk result
            (λ turn. turn ≢ Turn.Nothing →
            turns_left self.old.state.graph self.new.scan.run < turns_left self.old.state.graph self.old.scan.run) }
        ensures state { self.new.state ≡ self.old.state }
        ensures draining { (result ≡ Err ScanFault.Draining) ↔ IsDraining self.old.state.graph self.old.state.applied self.old.scan }
        ensures full { IsErrOf result ScanFault.Full → IsFull self.old.state.graph self.old.state.applied self.old.scan }
        ensures why { OnErr result ((result ≡ Err ScanFault.Full) ⊎ ((result ≡ Err ScanFault.Draining) ⊎ (result ≡ Err ScanFault.Memory))) }
        ensures rest { self.new ≡ record self.old { scan = self.new.scan } }
        ensures err { OnErr result (self.new ≡ self.old) }
    {
        let turn = self.scan.walk_step(&self.graph, self.applied)?;
        Ok(turn)
    }

    /// Takes a batch of the lowest `n` pieces of a mirror that wait.
    pub(crate) fn take(&mut self, vdev: u8, n: u32) -> Result<Batch, ScanFault>
        requires up { self.old.state.suspended ≡ false }
        requires some { 1 ≤ n }
        ensures batch { IfOk result
            (λ b. b
            ≡ record {
              number = self.old.scan.batches;
              vdev = vdev;
              online = self.old.state.online;
              items = lowest self.old.scan.waiting vdev n;
            }) }
        ensures taken { IfOk result (λ b. 1 ≤ length b.items → Taken self.old.scan b self.new.scan) }
        ensures none { IfOk result (λ b. length b.items ≡ 0 → self.new.scan ≡ record self.old.scan { room = self.new.scan.room }) }
        ensures state { self.new.state ≡ self.old.state }
        ensures rest { self.new ≡ record self.old { scan = self.new.scan } }
        ensures err { OnErr result (self.new.scan ≡ record self.old.scan { room = self.new.scan.room }) }
    {
        let batch = self.scan.take(vdev, n, self.online)?;
        Ok(batch)
    }

    /// Takes the entries of a batch in flight, one for each of its items, and answers those that were made: one for each
    /// piece that still flew. Answers none, and nothing changes, where no such batch is in flight. After want of memory
    /// nothing has changed.
    pub(crate) fn verdict(
        &mut self,
        number: u64,
        entries: &[Entry],
    ) -> Result<Option<Vec<Entry>>, AllocError>
        requires copies { HaveCopies self.old.scan.scope.width entries.now }
        ensures step { IfOk result (λ made. VerdictStep self.old.state (entries_in (option_map (λ v. v.items) made)) self.new.state) }
        ensures judged { IfOk result (λ made. IsJudged self.old.scan number entries.now (option_map (λ v. v.items) made) self.new.scan) }
        ensures none { result ≡ Ok None → self.new ≡ self.old }
        ensures stage { self.new.state.stage ≡ self.old.state.stage }
        ensures rest { self.new ≡ record self.old { state = record self.old.state { scan = self.new.state.scan }; scan = self.new.scan } }
        ensures err { OnErr result (self.new ≡ self.old) }
    {
        if !self.scan.is_verdict(number, entries) {
            return Ok(None);
        }
        self.scan.facts();
        let made = self.scan.entries_made(self.alloc, number, entries)?;
        self.scan.verdict(number, entries);
        Ok(Some(made))
    }
}

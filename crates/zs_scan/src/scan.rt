//! The scan.

ghost use Rattle.std.specs.Prelude.{◌≡◌, ◌≤◌, ◌<◌, ◌+◌, ◌==◌, ◌↔◌, ◌≢◌, ◌∷◌, [], ℕ, true, false, None, Some, Err, length, filter, OnOk, OnErr, IfOk, is_some, not, IsTrue, if◌then◌else◌};
ghost use Rattle.zs_ids.specs.Graph.{Graph, IsLive};
ghost use Rattle.zs_ids.specs.GraphValid.{Room, Valid};
ghost use Rattle.zs_ids.specs.declared.block.Piece.{Piece};
ghost use Rattle.zs_cover.specs.Laws.{IsCovered};
ghost use Rattle.zs_ledger.specs.Entry.{HaveCopies};
ghost use Rattle.zs_ledger.specs.Kept.{has_piece};
ghost use Rattle.zs_phys.specs.Handlers.{idle};
ghost use Rattle.zs_phys.specs.declared.scope.Kind.TheVariants.{Idle};
ghost use Rattle.zs_phys.specs.declared.phys.Status.TheVariants.{Scanning};
ghost use Rattle.zs_queue.specs.Waiting.{lowest, is_of};
ghost use Rattle.zs_walk.specs.Walking.{runs};
ghost use Rattle.zs_scan.specs.View.{ScanView, mark_of, is_flying, is_done};
ghost use Rattle.zs_scan.specs.Covered.{AllAreChecked, AreLive, IsScanOf, Keeps, MayAllBeChecked};
ghost use Rattle.zs_scan.specs.Kept.{AreOnce, IsOrderly};
ghost use Rattle.zs_scan.specs.Steps.{blank_scan, opened_scan, is_busy, after_start, scrub_started, with_paused, Taken, IsVerdict, Judged, Freed, IsComplete, IsDrained, finished, checkpointed, still_flying};

use crate::batch::{Batch, ScanFault};
use crate::landing::{land_all, remove_batch};
use crate::marks::Marks;
use crate::pausing::begin_walk;
use crate::scope::{become_scrub, empty_sets};
use crate::taking::{filled, fly_all, push_batch};
use std::alloc::{AllocError, Global};
use std::collections::VecDeque;
use std::marker::Model;
use zs_ids::{Item, Piece, Seq};
use zs_ledger::{Entry, Ledger};
use zs_phys::{At, Kind, Phys, Scope, Status};
use zs_queue::{PlainQueue, Waiting};

/// A scan.
#[derive(Drop)]
pub struct Scan {
    pub(crate) alloc: Global,
    pub(crate) scope: Scope,
    pub(crate) run: Phys,
    pub(crate) kept: Phys,
    pub(crate) stored: usize,
    pub(crate) saved: u64,
    pub(crate) every: u32,
    pub(crate) ledger: Ledger,
    pub(crate) queue: PlainQueue,
    pub(crate) marks: Marks,
    pub(crate) flight: VecDeque<Batch>,
    pub(crate) batches: u64,
}

impl Model for Scan {
    ghost use Rattle.zs_walk.specs.Walking.{runs};
    ghost use Rattle.zs_scan.specs.View.{ScanView};
    ghost use Rattle.zs_scan.specs.Kept.{IsOrderly};

    ghost Value = { ScanView };

    ghost view = { λ s. record {
      scope = s.scope;
      run = s.run;
      kept = s.kept;
      stored = s.stored;
      saved = s.saved;
      every = s.every;
      checked = s.ledger.entries;
      room = s.ledger.room;
      waiting = s.queue.map.entries;
      limit = s.queue.limit;
      marks = s.marks;
      flight = s.flight.items;
      batches = s.batches;
    } };

    ghost invariant = { λ s. IsOrderly (record {
      scope = s.scope;
      run = s.run;
      kept = s.kept;
      stored = s.stored;
      saved = s.saved;
      every = s.every;
      checked = s.ledger.entries;
      room = s.ledger.room;
      waiting = s.queue.map.entries;
      limit = s.queue.limit;
      marks = s.marks;
      flight = s.flight.items;
      batches = s.batches;
    }) };
}

impl Scan {
    /// A scan that never ran, of a pool on so many devices, in mirrors of that width (1 to 4), for at most `limit` waiting
    /// pieces, with a checkpoint due after `every` transaction groups. It may be that of any datasets.
    pub fn blank(
        alloc: Global,
        devices: u8,
        width: u8,
        limit: u32,
        every: u32,
    ) -> Result<Scan, AllocError>
        ensures blank { IfOk result (λ s. s ≡ blank_scan devices width limit every s.room) }
        ensures fresh { IfOk result (λ s. (room : Room) (g : Graph) (n h : ℕ) → n ≤ h → Valid room g n → IsScanOf room g n h s) }
    {
        let dirty0 = empty_sets(alloc, devices)?;
        let kept = Phys::idle(alloc)?;
        let scope = Scope {
            kind: Kind::Idle,
            min: 0,
            max: 0,
            width,
            dirty0,
        };
        let queue = PlainQueue::new(alloc, limit);
        Scan::opened(alloc, scope, kept, Ledger::new(alloc), queue, 0, every)
    }

    /// A scan as it was kept, with its entries, each of another piece and with the copies of a mirror of the scope's
    /// width: it walks on from the kept state, all its entries are stored, the last checkpoint was made in the transaction
    /// group `saved`, and the next one is due after `every` more. Nothing waits or flies. It is that of the datasets which
    /// the kept state covers with these entries.
    pub fn opened(
        alloc: Global,
        scope: Scope,
        kept: Phys,
        ledger: Ledger,
        queue: PlainQueue,
        saved: u64,
        every: u32,
    ) -> Result<Scan, AllocError>
        requires empty { ⟦<PlainQueue as Waiting>⟧.items queue ≡ [] }
        requires once { AreOnce ledger.entries }
        requires copies { HaveCopies scope.width ledger.entries }
        ensures opened { IfOk result (λ s. s ≡ opened_scan scope kept ledger.entries (⟦<PlainQueue as Waiting>⟧.limit_of queue) saved every ledger.room) }
        ensures keeps { IfOk result (λ s. (room : Room) (g : Graph) (n h : ℕ)
            → IsCovered room g n h scope kept (λ p. has_piece ledger.entries p) → IsScanOf room g n h s) }
    {
        let mut run = Phys::idle(alloc)?;
        run.copy_from(&kept);
        let stored = ledger.len();
        Ok(Scan {
            alloc,
            scope,
            run,
            kept,
            stored,
            saved,
            every,
            ledger,
            queue,
            marks: Marks::new(alloc),
            flight: VecDeque::new(alloc),
            batches: 0,
        })
    }

    /// What is true of each scan.
    pub fn facts(&self)
        ensures { IsOrderly self.now }
    {
        let _alloc = self.alloc;
    }

    /// What the scan examines.
    pub fn scope(&self) -> &Scope
        ensures { result.now ≡ self.now.scope }
    {
        &self.scope
    }

    /// Where its walk stands.
    pub fn run(&self) -> &Phys
        ensures { result.now ≡ self.now.run }
    {
        &self.run
    }

    /// The walk's state as a crash would leave it.
    pub fn kept(&self) -> &Phys
        ensures { result.now ≡ self.now.kept }
    {
        &self.kept
    }

    /// How many of the checked entries are stored with it.
    pub fn stored(&self) -> usize
        ensures { result ≡ self.now.stored }
    {
        self.stored
    }

    /// What it has checked.
    pub fn ledger(&self) -> &Ledger
        ensures { result.now ≡ record { entries = self.now.checked; room = self.now.room } }
    {
        &self.ledger
    }

    /// How many pieces wait.
    pub fn waiting(&self) -> u32
        ensures { result ≡ length self.now.waiting }
    {
        self.queue.count()
    }

    /// How many pieces of a mirror wait.
    pub fn waiting_of(&self, vdev: u8) -> u32
        ensures { result ≡ length (filter (is_of vdev) self.now.waiting) }
    {
        self.queue.count_of(vdev)
    }

    /// How many pieces fly: those in flight that were not freed, and whose scan still runs.
    pub fn flying(&self) -> usize
        ensures { result ≡ length (filter is_flying self.now.marks) }
    {
        self.marks.flying()
    }

    /// Whether a batch is in flight.
    pub fn is_in_flight(&self) -> bool
        ensures { result ≡ not (length self.now.flight == 0) }
    {
        self.flight.len() != 0
    }

    /// Whether a piece is done: it is checked, waits or flies.
    pub fn is_done(&self, piece: Piece) -> bool
        ensures { result ≡ is_done self.now piece }
    {
        self.ledger.has(piece) || self.marks.get(piece).is_some()
    }

    /// Starts a scrub of what is born before the transaction group `t`, while these devices are offline, or resumes a
    /// paused one. Nothing is checked then, nothing waits and nothing flies; batches that are in flight stay there.
    /// Refused as `ScanBusy` exactly where a scan is running that is not a paused scrub. The scan stays that of the
    /// datasets, where `t` is not above the group whose tasks come next. Takes no memory.
    pub fn start_scrub(&mut self, t: u64, away: u32) -> Result<(), ScanFault>
        ensures busy { result ≡ Err ScanFault.ScanBusy ↔ IsTrue (is_busy self.old) }
        ensures why { OnErr result (result ≡ Err ScanFault.ScanBusy) }
        ensures ok { OnOk result (self.new ≡ record (after_start t away self.old) { room = self.new.room }) }
        ensures err { OnErr result (self.new ≡ self.old) }
        ensures keeps { OnOk result ((room : Room) (g : Graph) (n h : ℕ) → t ≤ h → IsScanOf room g n h self.old → IsScanOf room g n h self.new) }
    {
        if self.is_running() {
            return self.go_on();
        }
        self.begin_scrub(t, away);
        Ok(())
    }

    /// Whether a scan is running, paused or not.
    pub fn is_running(&self) -> bool
        ensures { result ≡ runs self.now.run.status }
    {
        match self.run.status {
            Status::Scanning => true,
            Status::Never | Status::Finished | Status::Canceled => false,
        }
    }

    /// Starts a scrub.
    fn begin_scrub(&mut self, t: u64, away: u32)
        ensures { self.new ≡ record (scrub_started t away self.old) { room = self.new.room } }
    {
        become_scrub(self.alloc, &mut self.scope, t);
        begin_walk(&mut self.run, away);
        self.kept.copy_from(&self.run);
        self.ledger.clear();
        self.stored = 0;
        self.saved = t;
        self.queue.clear();
        self.marks.clear();
    }

    /// A scan that is running goes on, where it is a paused scrub.
    fn go_on(&mut self) -> Result<(), ScanFault>
        requires { runs self.old.run.status ≡ true }
        ensures busy { result ≡ Err ScanFault.ScanBusy ↔ IsTrue (is_busy self.old) }
        ensures why { OnErr result (result ≡ Err ScanFault.ScanBusy) }
        ensures ok { OnOk result (self.new ≡ with_paused false self.old) }
        ensures err { OnErr result (self.new ≡ self.old) }
        ensures keeps { OnOk result (Keeps self.old self.new) }
    {
        if !self.run.paused || self.scope.kind != Kind::Scrub {
            return Err(ScanFault::ScanBusy);
        }
        self.set_paused(false);
        Ok(())
    }

    /// Takes the lowest pieces of a mirror that wait, at most `n` of them, at least 1, into a batch. The batch is empty,
    /// and not in flight, exactly where none waits. Reserves the room of its entries. After want of memory all is as it
    /// was. A scan that covers datasets, and whose pieces they have, is such a scan with the batch in flight.
    pub fn take(&mut self, vdev: u8, n: u32, online: u32) -> Result<Batch, ScanFault>
        requires { 1 ≤ n }
        ensures batch { IfOk result (λ b. b ≡ record { number = self.old.batches; vdev = vdev; online = online; items = lowest self.old.waiting vdev n }) }
        ensures taken { IfOk result (λ b. 1 ≤ length b.items → Taken self.old b self.new) }
        ensures none { IfOk result (λ b. length b.items ≡ 0 → self.new ≡ record self.old { room = self.new.room }) }
        ensures keeps { OnOk result (Keeps self.old self.new) }
        ensures memory { OnErr result (result ≡ Err ScanFault.Memory) }
        ensures err { OnErr result (self.new ≡ record self.old { room = self.new.room }) }
    {
        let number = self.batches;
        if number == u64::MAX {
            return Err(ScanFault::Memory);
        }
        if self.queue.count_of(vdev) == 0 {
            return Ok(Batch {
                number,
                vdev,
                online,
                items: Seq::new(self.alloc),
            });
        }
        let most = n.min(self.queue.count()) as usize;
        let mut copy = Vec::new(self.alloc);
        copy.reserve(most)?;
        self.flight.reserve(1)?;
        let flying = self.marks.flying();
        if flying > usize::MAX - most {
            return Err(ScanFault::Memory);
        }
        self.ledger.reserve(flying + most)?;
        let items = self.queue.take(vdev, n)?;
        fly_all(&mut self.marks, &items, number);
        let copy = filled(copy, &items);
        let kept = Batch {
            number,
            vdev,
            online,
            items: Seq::from_vec(copy),
        };
        push_batch(&mut self.flight, kept);
        self.batches = number + 1;
        Ok(Batch {
            number,
            vdev,
            online,
            items: Seq::from_vec(items),
        })
    }

    /// Takes the verdict of a batch in flight: an entry for each of its items, in order, with the copies of a mirror of
    /// the scope's width. Puts those into the ledger whose piece still flies in it, each of a live block in scope that had
    /// none, and answers how many these are. The batch is no longer in flight; the scan stays that of the datasets. Takes
    /// no memory. Reads no other batch where this one was taken first.
    pub fn verdict(&mut self, number: u64, entries: &[Entry]) -> usize
        requires batch { IsVerdict self.old number entries.now }
        requires copies { HaveCopies self.old.scope.width entries.now }
        ensures made { result ≡ length (still_flying self.old.marks number entries.now) }
        ensures judged { Judged self.old number entries.now self.new }
        ensures keeps { Keeps self.old self.new }
        ensures made_of { (g : Graph) → AreLive g self.old
            → MayAllBeChecked g self.old.scope self.old.checked (still_flying self.old.marks number entries.now) }
    {
        let made = land_all(&mut self.marks, &mut self.ledger, number, entries);
        remove_batch(&mut self.flight, number);
        made
    }

    /// A piece was freed: it no longer waits, or if it flies it gets no entry. Answers whether it waited or flew. The scan
    /// stays that of the datasets, where they no longer have the piece. Takes no memory.
    pub fn freed(&mut self, piece: Piece) -> bool
        ensures was { result ≡ is_some (mark_of self.old.marks piece) }
        ensures freed { Freed self.old piece self.new }
        ensures keeps { (room : Room) (g : Graph) (n h : ℕ) → (IsLive g piece → ⊥) → IsScanOf room g n h self.old → IsScanOf room g n h self.new }
    {
        let mark = self.marks.remove(piece);
        self.queue.drop_piece(piece);
        mark.is_some()
    }

    /// Finishes the scan, and answers whether it did: exactly where it is complete. Each live piece in scope is checked
    /// then, and the scan stays that of the datasets, also after a crash. Takes no memory.
    pub fn finish(&mut self) -> bool
        ensures complete { IsTrue result ↔ IsComplete self.old }
        ensures done { result ≡ true → self.new ≡ finished self.old }
        ensures rest { result ≡ false → self.new ≡ self.old }
        ensures keeps { Keeps self.old self.new }
        ensures all { result ≡ true → (room : Room) (g : Graph) (n h : ℕ) → IsScanOf room g n h self.old
            → AllAreChecked g self.old.scope self.old.checked }
    {
        if self.run.status != Status::Scanning || self.run.paused || self.run.at != At::Nowhere {
            return false;
        }
        if self.run.todo.len() != 0 || self.queue.count() != 0 || self.flight.len() != 0 {
            return false;
        }
        self.run.status = Status::Finished;
        self.kept.copy_from(&self.run);
        self.stored = self.ledger.len();
        true
    }

    /// Makes a checkpoint in the transaction group `t`, and answers whether it did: exactly where nothing waits and no batch
    /// is in flight. A crash leaves the scan as it is then, with all its entries. Takes no memory.
    pub fn checkpoint(&mut self, t: u64) -> bool
        ensures drained { IsTrue result ↔ IsDrained self.old }
        ensures done { result ≡ true → self.new ≡ checkpointed t self.old }
        ensures rest { result ≡ false → self.new ≡ self.old }
        ensures keeps { Keeps self.old self.new }
    {
        if self.queue.count() != 0 || self.flight.len() != 0 {
            return false;
        }
        self.kept.copy_from(&self.run);
        self.stored = self.ledger.len();
        self.saved = t;
        true
    }
}

//! What the changes of the datasets make of a scan.

ghost use Rattle.std.specs.Prelude.{◌≡◌, None, if◌then◌else◌};
ghost use Rattle.zs_ids.specs.declared.block.Piece.{Piece};
ghost use Rattle.zs_phys.specs.Handlers.{Handled, Event as events};
ghost use Rattle.zs_queue.specs.Waiting.{without};
ghost use Rattle.zs_scan.specs.View.{mark_of, pieces_in, has_item};
ghost use Rattle.zs_scan.specs.Changes.{KeepsAtSnapshot, KeepsAtDestroy, KeepsAtSwap, KeepsFreed};

use crate::scan::Scan;
use zs_ids::{DsId, Item};

impl Scan {
    /// A snapshot was taken of a head: bookmark and queue of datasets move from the head to the snapshot, in the walk's state
    /// and in the one that a crash leaves. Takes no memory.
    pub fn snapshotted(&mut self, head: DsId, snap: DsId)
        ensures run { Handled self.old.run (events.snapshot_taken head snap) self.new.run }
        ensures kept { Handled self.old.kept (events.snapshot_taken head snap) self.new.kept }
        ensures rest { self.new ≡ record self.old { run = self.new.run; kept = self.new.kept } }
        ensures keeps { KeepsAtSnapshot head snap self.old self.new }
    {
        self.run.snapshotted(head, snap);
        self.kept.snapshotted(head, snap);
    }

    /// A dataset was destroyed: where it was a snapshot with a child, bookmark and queue of datasets move to the child,
    /// else it leaves both. The scan still has to be told of the pieces that are live no longer (`freed_all`). Takes no
    /// memory.
    pub fn destroyed(&mut self, id: DsId, next: Option<DsId>)
        ensures run { Handled self.old.run (events.destroyed id next) self.new.run }
        ensures kept { Handled self.old.kept (events.destroyed id next) self.new.kept }
        ensures rest { self.new ≡ record self.old { run = self.new.run; kept = self.new.kept } }
        ensures keeps { KeepsAtDestroy id next self.old self.new }
    {
        self.run.destroyed(id, next);
        self.kept.destroyed(id, next);
    }

    /// Two heads were swapped: they change places in bookmark and queue of datasets. Takes no memory.
    pub fn swapped(&mut self, a: DsId, b: DsId)
        ensures run { Handled self.old.run (events.swapped a b) self.new.run }
        ensures kept { Handled self.old.kept (events.swapped a b) self.new.kept }
        ensures rest { self.new ≡ record self.old { run = self.new.run; kept = self.new.kept } }
        ensures keeps { KeepsAtSwap a b self.old self.new }
    {
        self.run.swapped(a, b);
        self.kept.swapped(a, b);
    }

    /// The pieces of these items were freed: none of them waits any longer, and those that fly get no entries. The scan is
    /// then that of the datasets, where these no longer have the pieces. Takes no memory.
    pub fn freed_all(&mut self, items: &[Item])
        ensures rest { self.new ≡ record self.old { waiting = without self.old.waiting (pieces_in items.now); marks = self.new.marks; room = self.new.room } }
        ensures marks { (q : Piece) → mark_of self.new.marks q ≡ (if has_item items.now q then None else mark_of self.old.marks q) }
        ensures keeps { KeepsFreed items.now self.old self.new }
    {
        self.facts();
        for item in items {
            self.freed(item.piece);
        }
    }
}

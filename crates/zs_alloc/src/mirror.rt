//! The space of one mirror.

ghost use Rattle.std.specs.Prelude.{◌≡◌, ◌<◌, ◌≤◌, [], ℕ, List, map, take, IfOk, IfErr, OnOk, OnErr, IsOk, IsSome, Some, filter, nat_lt};
ghost use Rattle.zs_alloc.specs.declared.fault.SpaceFault.TheVariants.{Memory};
ghost use Rattle.zs_alloc.specs.Space.{taken_at, fresh, with_range, without_range, HasNoRun, IsLowestRun, IsFreeRun, NoSpaceWhere, changed, freed_in, pinned, unpinned, still_taken, settled, settled_all, pins_at};
ghost use Rattle.zs_alloc.specs.Kept.{AreKept, IsLaidOut, settled_if, is_due};

use crate::fault::SpaceFault;
use crate::ranges::Ranges;
use crate::taken::{Freed, Taken};
use std::alloc::{AllocError, Global};
use std::marker::Model;

/// A range that was freed in a transaction group.
#[derive(Clone, Copy, Debug)]
pub(crate) struct Freeing {
    /// The transaction group.
    txg: u64,
    /// The range's first sector.
    sector: u32,
}

/// The space of one mirror. Contracts see its ranges.
#[derive(Drop)]
pub(crate) struct Mirror {
    ranges: Ranges,
    /// What was freed and is not settled.
    waiting: Vec<Freeing>,
}

impl Model for Mirror {
    ghost use Rattle.zs_alloc.specs.Space.{MirrorView};
    ghost use Rattle.zs_alloc.specs.Kept.{AreListed};

    ghost Value = { MirrorView };

    ghost view = { λ m. m.ranges };

    ghost invariant = { λ m. AreListed m.waiting.items m.ranges.taken };
}

impl Mirror {
    /// The space from `start` on and below `end`, all of it free.
    pub(crate) fn new(alloc: Global, start: u32, end: u32) -> Result<Self, AllocError>
        ensures { IfOk result (λ m. m ≡ record { start = start; end = end; taken = [] }) }
    {
        let ranges = Ranges::new(alloc, start, end)?;
        Ok(Mirror {
            ranges,
            waiting: Vec::new(alloc),
        })
    }

    /// The taken ranges rise and lie apart in the space, and none is empty or over.
    pub(crate) fn facts(&self)
        ensures { IsLaidOut self.now }
    {
        self.ranges.facts();
    }

    /// The range that is taken from `first` on.
    pub(crate) fn range(&self, first: u32) -> Option<Taken>
        ensures { result ≡ taken_at self.now.taken first }
    {
        self.ranges.range(first)
    }

    /// Takes the first sectors of the lowest free range that has so many, and answers the first of them.
    pub(crate) fn take(&mut self, sectors: u16) -> Result<u32, SpaceFault>
        requires { 0 < sectors }
        ensures lowest { IfOk result (λ first. IsLowestRun self.old sectors first) }
        ensures taken { IfOk result (λ first. self.new ≡ record self.old { taken = with_range self.old.taken first (fresh sectors) }) }
        ensures refused { IfErr result (NoSpaceWhere (HasNoRun self.old sectors)) }
        ensures err { OnErr result (self.new ≡ self.old) }
    {
        let first = self.ranges.take(sectors)?;
        Ok(first)
    }

    /// Takes the sectors from `first` on, which must be free.
    pub(crate) fn claim(&mut self, first: u32, sectors: u16) -> Result<(), SpaceFault>
        requires { 0 < sectors }
        ensures free { OnOk result (IsFreeRun self.old first sectors) }
        ensures taken { OnOk result (self.new ≡ record self.old { taken = with_range self.old.taken first (fresh sectors) }) }
        ensures refused { IfErr result (NoSpaceWhere (IsFreeRun self.old first sectors → ⊥)) }
        ensures err { OnErr result (self.new ≡ self.old) }
    {
        self.ranges.claim(first, sectors)?;
        Ok(())
    }

    /// Gives a range back that was taken and not used.
    pub(crate) fn give(&mut self, first: u32, sectors: u16)
        requires { taken_at self.old.taken first ≡ Some (fresh sectors) }
        ensures { self.new ≡ record self.old { taken = without_range self.old.taken first } }
    {
        self.ranges.give(first, sectors);
    }

    /// Marks a taken range as freed in a transaction group.
    pub(crate) fn free(&mut self, first: u32, t: u64) -> Result<(), AllocError>
        requires { IsSome (taken_at self.old.taken first) }
        ensures ok { OnOk result (self.new ≡ record self.old { taken = changed first (freed_in t) self.old.taken }) }
        ensures err { OnErr result (self.new ≡ self.old) }
    {
        self.waiting.reserve(1)?;
        let Some(range) = self.ranges.range(first) else {
            unreachable!();
        };
        let freed = Taken {
            freed: Freed::In(t),
            ..range
        };
        self.ranges.update(first, freed);
        self.waiting.push_reserved(Freeing {
            txg: t,
            sector: first,
        });
        Ok(())
    }

    /// Puts a pin on a taken range.
    pub(crate) fn pin(&mut self, first: u32) -> Result<(), SpaceFault>
        requires { IsSome (taken_at self.old.taken first) }
        ensures ok { OnOk result (self.new ≡ record self.old { taken = changed first pinned self.old.taken }) }
        ensures err { OnErr result (self.new ≡ self.old) }
        ensures memory { IfErr result (λ fault. fault ≡ Memory) }
        ensures succeeds { pins_at self.old.taken first < 18446744073709551615 → IsOk result }
    {
        let Some(range) = self.ranges.range(first) else {
            unreachable!();
        };
        let Some(pins) = range.pins.checked_add(1) else {
            return Err(SpaceFault::Memory);
        };
        self.ranges.update(first, Taken { pins, ..range });
        Ok(())
    }

    /// Takes a pin off a taken range.
    pub(crate) fn unpin(&mut self, first: u32)
        requires { 1 ≤ pins_at self.old.taken first }
        ensures { self.new ≡ record self.old { taken = still_taken (changed first unpinned self.old.taken) } }
    {
        let Some(range) = self.ranges.range(first) else {
            unreachable!();
        };
        let unpinned = Taken {
            pins: range.pins - 1,
            ..range
        };
        self.ranges.update(first, unpinned);
    }

    /// Settles what was freed in the transaction group or before.
    pub(crate) fn settle(&mut self, t: u64)
        ensures { self.new ≡ record self.old { taken = settled_all t self.old.taken } }
    {
        self.ranges.facts();
        settle_waiting(&mut self.ranges, &self.waiting, t);
        self.waiting.retain(|w| w.txg > t);
    }
}

/// Settles the ranges of the list that were freed in the transaction group or before.
fn settle_waiting(ranges: &mut Ranges, waiting: &[Freeing], t: u64)
    requires { AreKept ranges.old.taken }
    ensures { ranges.new ≡ record ranges.old { taken = settled_if (is_due waiting.now t) t ranges.old.taken } }
{
    for freeing in waiting {
        if freeing.txg <= t {
            settle_range(ranges, freeing.sector, t);
        }
    }
}

/// Settles the range that is taken from `first` on, where it was freed in the transaction group or before.
fn settle_range(ranges: &mut Ranges, first: u32, t: u64)
    ensures { ranges.new ≡ record ranges.old { taken = still_taken (changed first (settled t) ranges.old.taken) } }
{
    ranges.facts();
    let Some(range) = ranges.range(first) else {
        return;
    };
    let settled = Taken {
        freed: range.freed.settled(t),
        ..range
    };
    ranges.update(first, settled);
}

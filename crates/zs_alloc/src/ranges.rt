//! The free and the taken ranges of one mirror.

ghost use Rattle.std.specs.Prelude.{◌≡◌, ◌<◌, ◌≤◌, ◌+◌, [], ℕ, length, IfOk, IfErr, OnOk, OnErr, Some, None};
ghost use Rattle.std.specs.Map.{keys_of};
ghost use Rattle.std.specs.Ordering.{nat_cmp};
ghost use Rattle.std.specs.List.Sorted.{IsStrictlySortedBy};
ghost use Rattle.zs_alloc.specs.declared.taken.Freed.TheVariants.{Not};
ghost use Rattle.zs_alloc.specs.Kept.{IsSplitBy, AreKept, IsUpdate, IsLaidOut};
ghost use Rattle.zs_alloc.specs.Free.{AreFree, AreTaken, IsFirstFit, IsCut, IsPut};
ghost use Rattle.zs_alloc.specs.Runs.{flags_of, IsSummed, HasRun};
ghost use Rattle.std.specs.Bool.{OnTrue, OnFalse};
ghost use Rattle.zs_alloc.specs.Space.{taken_at, fresh, with_range, without_range, HasNoRun, IsLowestRun, IsFreeRun, NoSpaceWhere, still_taken};

use crate::fault::SpaceFault;
use crate::taken::{Freed, Taken};
use crate::tree::{Tree, first_run, is_run, none_free, runs_of, set};
use std::alloc::{AllocError, Global};
use std::collections::BTreeMap;
use std::marker::Model;

/// The ranges of one mirror. Contracts see its ends and its taken ranges; the free ones lie between these.
#[derive(Drop)]
pub(crate) struct Ranges {
    /// The first sector.
    start: u32,
    /// The sector behind the last one.
    end: u32,
    /// Which sectors are free.
    free: Tree,
    /// The taken ranges by their first sectors.
    taken: BTreeMap<u32, Taken>,
}

impl Model for Ranges {
    ghost use Rattle.zs_alloc.specs.Space.{MirrorView};
    ghost use Rattle.zs_alloc.specs.Kept.{IsSplitBy};

    ghost Value = { MirrorView };

    ghost view = { λ m. record { start = m.start; end = m.end; taken = m.taken.entries } };

    ghost invariant = { λ m. IsSplitBy m.start m.end m.free m.taken.entries };
}

impl Ranges {
    /// The space from `start` on and below `end`, all of it free.
    pub(crate) fn new(alloc: Global, start: u32, end: u32) -> Result<Self, AllocError>
        ensures { IfOk result (λ m. m ≡ record { start = start; end = end; taken = [] }) }
    {
        let free = whole(alloc, start, end)?;
        Ok(Ranges {
            start,
            end,
            free,
            taken: BTreeMap::new(alloc),
        })
    }

    /// Takes the first sectors of the lowest free range that has so many, and answers the first of them.
    pub(crate) fn take(&mut self, sectors: u16) -> Result<u32, SpaceFault>
        requires { 0 < sectors }
        ensures lowest { IfOk result (λ first. IsLowestRun self.old sectors first) }
        ensures taken { IfOk result (λ first. self.new ≡ record self.old { taken = with_range self.old.taken first (fresh sectors) }) }
        ensures refused { IfErr result (NoSpaceWhere (HasNoRun self.old sectors)) }
        ensures err { OnErr result (self.new ≡ self.old) }
    {
        let _end = self.end;
        let Some(first) = first_fit(&self.free, sectors) else {
            return Err(SpaceFault::NoSpace);
        };
        let Ok(()) = occupy(&mut self.free, &mut self.taken, first, sectors) else {
            return Err(SpaceFault::Memory);
        };
        Ok(first)
    }

    /// Takes the sectors from `first` on, which must be free.
    pub(crate) fn claim(&mut self, first: u32, sectors: u16) -> Result<(), SpaceFault>
        requires { 0 < sectors }
        ensures free { OnOk result (IsFreeRun self.old first sectors) }
        ensures taken { OnOk result (self.new ≡ record self.old { taken = with_range self.old.taken first (fresh sectors) }) }
        ensures refused { IfErr result (NoSpaceWhere (IsFreeRun self.old first sectors → ⊥)) }
        ensures err { OnErr result (self.new ≡ self.old) }
    {
        if u64::from(self.end) < u64::from(first) + u64::from(sectors) {
            return Err(SpaceFault::NoSpace);
        }
        if !is_free(&self.free, first, sectors) {
            return Err(SpaceFault::NoSpace);
        }
        let Ok(()) = occupy(&mut self.free, &mut self.taken, first, sectors) else {
            return Err(SpaceFault::Memory);
        };
        Ok(())
    }

    /// Gives a range back that was taken and not used.
    pub(crate) fn give(&mut self, first: u32, sectors: u16)
        requires { taken_at self.old.taken first ≡ Some (fresh sectors) }
        ensures { self.new ≡ record self.old { taken = without_range self.old.taken first } }
    {
        let _end = self.end;
        release(&mut self.free, &mut self.taken, first, sectors);
    }

    /// The range that is taken from `first` on.
    pub(crate) fn range(&self, first: u32) -> Option<Taken>
        ensures range { result ≡ taken_at self.now.taken first }
        ensures sorted { IsStrictlySortedBy nat_cmp (keys_of self.now.taken) }
        ensures kept { AreKept self.now.taken }
    {
        self.taken.get(&first).copied()
    }

    /// The taken ranges rise and lie apart in the space, and none is empty or over.
    pub(crate) fn facts(&self)
        ensures { IsLaidOut self.now }
    {
        let _taken = &self.taken;
    }

    /// Puts a range in the place of the taken one from `first` on, which has as many sectors; one that is over goes
    /// to the free ones.
    pub(crate) fn update(&mut self, first: u32, range: Taken)
        requires { IsUpdate self.old.taken first range }
        ensures { self.new ≡ record self.old { taken = still_taken (with_range self.old.taken first range) } }
    {
        let _end = self.end;
        if range.is_over() {
            release(&mut self.free, &mut self.taken, first, range.sectors);
            return;
        }
        let Ok(_) = self.taken.insert(first, range) else {
            unreachable!();
        };
    }
}

/// The free sectors of a space that is all free.
fn whole(alloc: Global, start: u32, end: u32) -> Result<Tree, AllocError>
    ensures { IfOk result (λ free. IsSplitBy start end free []) }
{
    let mut free = none_free(alloc, end as usize)?;
    set(&mut free, start as usize, end as usize, true);
    Ok(free)
}

/// The first of the lowest free sectors of that number that follow each other.
fn first_fit(free: &Tree, sectors: u16) -> Option<u32>
    requires summed { IsSummed free.now }
    requires short { length (flags_of free.now) < 4294967296 }
    requires some { 0 < sectors }
    ensures { IsFirstFit (flags_of free.now) sectors result }
{
    let size = usize::from(sectors);
    if runs_of(free).longest < size {
        return None;
    }
    Some(first_run(free, size) as u32)
}

/// Whether so many sectors from `first` on are free.
fn is_free(free: &Tree, first: u32, sectors: u16) -> bool
    requires summed { IsSummed free.now }
    requires within { first + sectors ≤ length (flags_of free.now) }
    ensures yes { OnTrue result (AreFree (flags_of free.now) first (first + sectors)) }
    ensures no { OnFalse result (AreFree (flags_of free.now) first (first + sectors) → ⊥) }
{
    let first = first as usize;
    is_run(free, first, first + usize::from(sectors))
}

/// Takes so many sectors from `first` on, which are free.
fn occupy(
    free: &mut Tree,
    taken: &mut BTreeMap<u32, Taken>,
    first: u32,
    sectors: u16,
) -> Result<(), AllocError>
    requires summed { IsSummed free.old }
    requires short { length (flags_of free.old) < 4294967296 }
    requires within { first + sectors ≤ length (flags_of free.old) }
    requires covered { AreFree (flags_of free.old) first (first + sectors) }
    ensures free { OnOk result (IsCut (flags_of free.old) first (first + sectors) (flags_of free.new)) }
    ensures summed { IsSummed free.new }
    ensures len { length (flags_of free.new) ≡ length (flags_of free.old) }
    ensures taken { OnOk result (taken.new.entries ≡ with_range taken.old.entries first (fresh sectors)) }
    ensures ordered { IsStrictlySortedBy nat_cmp (keys_of taken.new.entries) }
    ensures err { OnErr result ((flags_of free.new ≡ flags_of free.old) × (taken.new.entries ≡ taken.old.entries)) }
{
    let range = Taken {
        sectors,
        pins: 0,
        freed: Freed::Not,
    };
    taken.insert(first, range)?;
    let first = first as usize;
    set(free, first, first + usize::from(sectors), false);
    Ok(())
}

/// Makes the sectors of a taken range free.
fn release(free: &mut Tree, taken: &mut BTreeMap<u32, Taken>, first: u32, sectors: u16)
    requires summed { IsSummed free.old }
    requires short { length (flags_of free.old) < 4294967296 }
    requires within { first + sectors ≤ length (flags_of free.old) }
    requires covered { AreTaken (flags_of free.old) first (first + sectors) }
    ensures free { IsPut (flags_of free.old) first (first + sectors) (flags_of free.new) }
    ensures summed { IsSummed free.new }
    ensures len { length (flags_of free.new) ≡ length (flags_of free.old) }
    ensures taken { taken.new.entries ≡ without_range taken.old.entries first }
    ensures ordered { IsStrictlySortedBy nat_cmp (keys_of taken.new.entries) }
{
    taken.remove(&first);
    let first = first as usize;
    set(free, first, first + usize::from(sectors), true);
}

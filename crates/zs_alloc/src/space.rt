//! The space of all mirrors.

ghost use Rattle.std.specs.Prelude.{◌≡◌, ◌<◌, ◌≤◌, [], ℕ, length, map, IfOk, IfErr, OnOk, OnErr, IsOk, Some};
ghost use Rattle.zs_alloc.specs.declared.fault.SpaceFault.TheVariants.{Memory};
ghost use Rattle.zs_alloc.specs.Kept.{IsLaidOut};
ghost use Rattle.zs_alloc.specs.Space.{mirror_at, with_taken, with_range, without_range, taken_at, fresh, HasNoRun, IsFreeRun, IsLowestRun, NoSpaceWhere, IsInUse, IsTaken, changed, freed_in, pinned, unpinned, still_taken, settled_mirror, pins_at};

use crate::fault::SpaceFault;
use crate::mirror::Mirror;
use crate::taken::Taken;
use std::alloc::{AllocError, Global};
use std::marker::Model;
use zs_ids::{Item, Piece, Place};

/// The space of all mirrors. Contracts see per mirror its ends and its taken ranges; what none of these has is free.
#[derive(Drop)]
pub struct Space {
    mirrors: Vec<Mirror>,
}

impl Model for Space {
    ghost use Rattle.zs_alloc.specs.Space.{Mirrors};

    ghost Value = { Mirrors };

    ghost view = { λ s. s.mirrors.items };
}

impl Space {
    /// A mirror for each size, with nothing taken: its space goes from the sector `start` to its end.
    pub fn new(alloc: Global, sectors: &[u32], start: u32) -> Result<Self, AllocError>
        ensures { IfOk result (λ s. s ≡ map (λ end. record { start = start; end = end; taken = [] }) sectors.now) }
    {
        let mut mirrors = Vec::new(alloc);
        for end in sectors {
            mirrors.push(Mirror::new(alloc, start, *end)?)?;
        }
        Ok(Space { mirrors })
    }

    /// How many mirrors there are.
    pub fn mirrors(&self) -> usize
        ensures { result ≡ length self.now }
    {
        self.mirrors.len()
    }

    /// The range that is taken from a place on; `None` where none begins there. The mirror is below the number of
    /// mirrors.
    pub fn range(&self, place: Place) -> Option<Taken>
        requires { place.vdev < length self.now }
        ensures { result ≡ taken_at (mirror_at self.now place.vdev).taken place.sector }
    {
        self.mirrors[usize::from(place.vdev)].range(place.sector)
    }

    /// What the taken ranges of a mirror keep to: they rise, lie in the space, and no two have a sector in common;
    /// none is empty, and none is freed, settled and without a pin. The mirror is below the number of mirrors.
    pub fn facts(&self, vdev: u8)
        requires { vdev < length self.now }
        ensures { IsLaidOut (mirror_at self.now vdev) }
    {
        self.mirrors[usize::from(vdev)].facts();
    }

    /// Takes the first sectors of the lowest free range of the mirror that has so many. `NoSpace` where it has none.
    /// After a refusal nothing has changed. The mirror is below the number of mirrors, and `sectors` is not 0.
    pub fn take(&mut self, vdev: u8, sectors: u16) -> Result<Place, SpaceFault>
        requires vdev { vdev < length self.old }
        requires some { 0 < sectors }
        ensures vdev { IfOk result (λ place. place.vdev ≡ vdev) }
        ensures lowest { IfOk result (λ place. IsLowestRun (mirror_at self.old vdev) sectors place.sector) }
        ensures taken { IfOk result (λ place. self.new ≡ with_taken vdev (λ taken. with_range taken place.sector (fresh sectors)) self.old) }
        ensures refused { IfErr result (NoSpaceWhere (HasNoRun (mirror_at self.old vdev) sectors)) }
        ensures err { OnErr result (self.new ≡ self.old) }
    {
        let mirror = &mut self.mirrors[usize::from(vdev)];
        let sector = mirror.take(sectors)?;
        Ok(Place { vdev, sector })
    }

    /// Takes just these sectors, which are known to be in use. `NoSpace` where not all of them are free. After a
    /// refusal nothing has changed. The mirror is below the number of mirrors, and `sectors` is not 0.
    pub fn claim(&mut self, place: Place, sectors: u16) -> Result<(), SpaceFault>
        requires vdev { place.vdev < length self.old }
        requires some { 0 < sectors }
        ensures free { OnOk result (IsFreeRun (mirror_at self.old place.vdev) place.sector sectors) }
        ensures taken { OnOk result (self.new ≡ with_taken place.vdev (λ taken. with_range taken place.sector (fresh sectors)) self.old) }
        ensures refused { IfErr result (NoSpaceWhere (IsFreeRun (mirror_at self.old place.vdev) place.sector sectors → ⊥)) }
        ensures err { OnErr result (self.new ≡ self.old) }
    {
        let mirror = &mut self.mirrors[usize::from(place.vdev)];
        mirror.claim(place.sector, sectors)
    }

    /// Gives a range back that was taken and is not used. Takes no memory. The range was taken whole from this
    /// place on, and was neither freed nor pinned.
    pub fn give(&mut self, place: Place, sectors: u16)
        requires vdev { place.vdev < length self.old }
        requires taken { taken_at (mirror_at self.old place.vdev).taken place.sector ≡ Some (fresh sectors) }
        ensures { self.new ≡ with_taken place.vdev (λ taken. without_range taken place.sector) self.old }
    {
        let mirror = &mut self.mirrors[usize::from(place.vdev)];
        mirror.give(place.sector, sectors);
    }

    /// Frees the range of an item in the transaction group `t`. It stays taken until that group is settled and no
    /// pin is on it. After want of memory nothing has changed. The item's range is in use: it was taken whole, and
    /// was not freed before; it may be pinned.
    pub fn free(&mut self, item: &Item, t: u64) -> Result<(), SpaceFault>
        requires vdev { item.now.piece.place.vdev < length self.old }
        requires used { IsInUse (mirror_at self.old item.now.piece.place.vdev).taken item.now.piece.place.sector item.now.sectors }
        ensures ok { OnOk result (self.new ≡ with_taken item.now.piece.place.vdev (changed item.now.piece.place.sector (freed_in t)) self.old) }
        ensures err { OnErr result (self.new ≡ self.old) }
        ensures memory { IfErr result (λ fault. fault ≡ Memory) }
    {
        let place = item.piece.place;
        let mirror = &mut self.mirrors[usize::from(place.vdev)];
        mirror.free(place.sector, t)?;
        Ok(())
    }

    /// Makes sure that the next `n` calls of `pin` find memory. None of them needs any, since the count of a range's
    /// pins lies beside its size, so this has nothing to do.
    pub fn reserve_pins(&mut self, _n: usize) -> Result<(), SpaceFault>
        ensures same { self.new ≡ self.old }
        ensures succeeds { IsOk result }
    {
        Ok(())
    }

    /// Puts a pin on the range of an item. It takes no memory; `Memory` is answered only where the range has as
    /// many pins as can be counted, which is 18,446,744,073,709,551,615, and then nothing has changed. The item's
    /// range is taken; it may be freed and settled, where another pin is on it.
    pub fn pin(&mut self, item: &Item) -> Result<(), SpaceFault>
        requires vdev { item.now.piece.place.vdev < length self.old }
        requires taken { IsTaken (mirror_at self.old item.now.piece.place.vdev).taken item.now.piece.place.sector item.now.sectors }
        ensures ok { OnOk result (self.new ≡ with_taken item.now.piece.place.vdev (changed item.now.piece.place.sector pinned) self.old) }
        ensures err { OnErr result (self.new ≡ self.old) }
        ensures memory { IfErr result (λ fault. fault ≡ Memory) }
        ensures succeeds { pins_at (mirror_at self.old item.now.piece.place.vdev).taken item.now.piece.place.sector < 18446744073709551615 → IsOk result }
    {
        let place = item.piece.place;
        let mirror = &mut self.mirrors[usize::from(place.vdev)];
        mirror.pin(place.sector)
    }

    /// Takes one pin off the range of a piece. Where that was the last one of a range that was freed and is settled,
    /// the range is free. Takes no memory. The range is pinned.
    pub fn unpin(&mut self, piece: Piece)
        requires vdev { piece.place.vdev < length self.old }
        requires pinned { 1 ≤ pins_at (mirror_at self.old piece.place.vdev).taken piece.place.sector }
        ensures { self.new ≡ with_taken piece.place.vdev (λ taken. still_taken (changed piece.place.sector unpinned taken)) self.old }
    {
        let mirror = &mut self.mirrors[usize::from(piece.place.vdev)];
        mirror.unpin(piece.place.sector);
    }

    /// Settles the transaction group `t`: what was freed in it or in one before is free from now on, or from where
    /// its last pin goes. It takes no memory, and is never refused.
    pub fn settle(&mut self, t: u64) -> Result<(), SpaceFault>
        ensures settled { self.new ≡ map (settled_mirror t) self.old }
        ensures succeeds { IsOk result }
    {
        for index in 0..self.mirrors.len() {
            self.mirrors[index].settle(t);
        }
        Ok(())
    }
}

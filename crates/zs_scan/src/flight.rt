//! The batches in flight, and what a verdict would make of them.

ghost use Rattle.std.specs.Prelude.{◌≡◌, ◌↔◌, IfOk, IsTrue, option_map};
ghost use Rattle.zs_scan.specs.View.{mark_of, flies_in};
ghost use Rattle.zs_scan.specs.Steps.{AreOf, IsVerdict, still_flying};
ghost use Rattle.zs_scan.specs.Flight.{first_of, IsOf};

use crate::batch::Batch;
use crate::scan::Scan;
use std::alloc::{AllocError, Global};
use zs_ids::{Item, Piece};
use zs_ledger::Entry;

impl Scan {
    /// The batch that was taken first of those in flight, if one is in flight.
    pub fn first_in_flight(&self) -> Option<&Batch>
        ensures { option_map (λ b. b.now) result ≡ first_of self.now.flight }
    {
        self.flight.front()
    }

    /// Whether a batch of that number is in flight and the entries are of its items, one for each, in order. Looks from
    /// the batch that was taken first on, and stops at the one that it finds: where that is the first, it reads no other.
    pub fn is_verdict(&self, number: u64, entries: &[Entry]) -> bool
        ensures { IsTrue result ↔ IsVerdict self.now number entries.now }
    {
        for i in 0..self.flight.len() {
            if is_of_batch(&self.flight[i], number, entries) {
                return true;
            }
        }
        false
    }

    /// Whether a piece flies in the batch of that number.
    fn flies_in(&self, number: u64, piece: Piece) -> bool
        ensures { result ≡ flies_in number (mark_of self.now.marks piece) }
    {
        match self.marks.get(piece) {
            Some(Some(here)) => here == number,
            _ => false,
        }
    }

    /// Of the entries of a batch those that its verdict would make: those of pieces that still fly in it.
    pub fn entries_made(
        &self,
        alloc: Global,
        number: u64,
        entries: &[Entry],
    ) -> Result<Vec<Entry>, AllocError>
        ensures { IfOk result (λ made. made.items ≡ still_flying self.now.marks number entries.now) }
    {
        entries
            .iter()
            .filter(|entry| self.flies_in(number, entry.piece))
            .copied()
            .collect(alloc)
    }
}

/// Whether the batch has that number and the entries are of its items.
fn is_of_batch(batch: &Batch, number: u64, entries: &[Entry]) -> bool
    ensures { IsTrue result ↔ (batch.now.number ≡ number) × AreOf batch.now.items entries.now }
{
    batch.number == number && are_of(batch.items.as_slice(), entries)
}

/// Whether the entries are those of the items, one for each, in order.
fn are_of(items: &[Item], entries: &[Entry]) -> bool
    ensures { IsTrue result ↔ AreOf items.now entries.now }
{
    if items.len() != entries.len() {
        return false;
    }
    for i in 0..items.len() {
        if !is_of(&items[i], &entries[i]) {
            return false;
        }
    }
    true
}

/// Whether the entry is of the item.
fn is_of(item: &Item, entry: &Entry) -> bool
    ensures { IsTrue result ↔ IsOf item.now entry.now }
{
    entry.piece == item.piece && entry.sectors == item.sectors && entry.sum == item.sum
}

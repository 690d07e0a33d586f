//! Taking the verdict of a batch.

ghost use Rattle.std.specs.Prelude.{◌≡◌, ◌↔◌, ◌≤◌, ◌<◌, ◌+◌, ◌++◌, ◌∷◌, [], ◌&&◌, ◌==◌, not, ℕ, IsTrue, true, false, Some, None, length, filter, if◌then◌else◌};
ghost use Rattle.zs_ids.specs.declared.block.Piece.{Piece};
ghost use Rattle.zs_scan.specs.View.{is_same, mark_of, flies_in, is_flying};
ghost use Rattle.zs_scan.specs.Kept.{RisesTo};
ghost use Rattle.zs_scan.specs.Flight.{IsFirst};
ghost use Rattle.zs_scan.specs.Steps.{still_flying, AreRising, has_entry};

use crate::batch::Batch;
use crate::marks::Marks;
use std::collections::VecDeque;
use zs_ledger::{Entry, Ledger};

/// Puts the entry of a piece that flies in the batch of that number into the ledger, and takes its mark away. Answers
/// how many entries it put, one or none.
fn land_one(marks: &mut Marks, ledger: &mut Ledger, number: u64, entry: &Entry) -> usize
    requires { length (filter is_flying marks.old) ≤ ledger.old.room }
    ensures made { result ≡ (if flies_in number (mark_of marks.old entry.now.piece) then 1 else 0) }
    ensures few { result ≤ 1 }
    ensures entries { ledger.new.entries ≡ ledger.old.entries ++ still_flying marks.old number (entry.now ∷ []) }
    ensures marks { (q : Piece) → mark_of marks.new q
        ≡ (if is_same entry.now.piece q && flies_in number (mark_of marks.old q) then None else mark_of marks.old q) }
    ensures room { length (filter is_flying marks.new) ≤ ledger.new.room }
{
    let Some(Some(here)) = marks.get(entry.piece) else {
        return 0;
    };
    if here != number {
        return 0;
    }
    marks.remove(entry.piece);
    ledger.push(*entry);
    1
}

/// Puts the entries of the pieces that fly in the batch of that number into the ledger, takes their marks away, and
/// answers how many these are. The entries are of different pieces.
pub(crate) fn land_all(
    marks: &mut Marks,
    ledger: &mut Ledger,
    number: u64,
    entries: &[Entry],
) -> usize
    requires room { length (filter is_flying marks.old) ≤ ledger.old.room }
    requires rising { AreRising entries.now }
    ensures made { result ≡ length (still_flying marks.old number entries.now) }
    ensures entries { ledger.new.entries ≡ ledger.old.entries ++ still_flying marks.old number entries.now }
    ensures marks { (q : Piece) → mark_of marks.new q
        ≡ (if has_entry entries.now q && flies_in number (mark_of marks.old q) then None else mark_of marks.old q) }
    ensures room { length (filter is_flying marks.new) ≤ ledger.new.room }
{
    let mut made = 0;
    for entry in entries {
        made += land_one(marks, ledger, number, entry);
    }
    made
}

/// Takes the batch of that number out of those in flight, whose numbers rise: off the front, in one step, where it was
/// taken first. Else it walks them.
pub(crate) fn remove_batch(flight: &mut VecDeque<Batch>, number: u64)
    requires { (next : ℕ) × RisesTo next flight.old.items }
    ensures { flight.new.items ≡ filter (λ b. not (b.number == number)) flight.old.items }
{
    if is_first(flight, number) {
        flight.pop_front();
        return;
    }
    flight.retain(|batch| batch.number != number);
}

/// Whether the first of the batches has that number.
fn is_first(flight: &VecDeque<Batch>, number: u64) -> bool
    ensures { IsTrue result ↔ IsFirst number flight.now.items }
{
    match flight.front() {
        Some(batch) => batch.number == number,
        None => false,
    }
}

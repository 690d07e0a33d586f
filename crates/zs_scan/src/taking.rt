//! Marking the pieces of a batch.

ghost use Rattle.std.specs.Prelude.{◌≡◌, ◌≤◌, ◌+◌, ◌++◌, ◌∷◌, [], ℕ, vec_len, vec_capacity, true, Some, None, length, filter, if◌then◌else◌};
ghost use Rattle.std.specs.VecDeque.{deque_len, deque_capacity};
ghost use Rattle.std.specs.List.Sorted.{IsStrictlySortedBy};
ghost use Rattle.zs_ids.specs.declared.block.Piece.{Piece};
ghost use Rattle.zs_ids.specs.Piece.{piece_cmp};
ghost use Rattle.zs_scan.specs.View.{mark_of, is_flying, pieces_in, has_item};

use crate::batch::Batch;
use crate::marks::Marks;
use std::collections::VecDeque;
use zs_ids::Item;

/// Marks the pieces of some items, which wait: they fly in the batch of that number.
pub(crate) fn fly_all(marks: &mut Marks, items: &[Item], number: u64)
    requires wait { (q : Piece) → has_item items.now q ≡ true → mark_of marks.old q ≡ Some None }
    requires rising { IsStrictlySortedBy piece_cmp (pieces_in items.now) }
    ensures marks { (q : Piece) → mark_of marks.new q ≡ (if has_item items.now q then Some (Some number) else mark_of marks.old q) }
    ensures flying { length (filter is_flying marks.new) ≡ length (filter is_flying marks.old) + length items.now }
{
    for item in items {
        marks.fly(item.piece, number);
    }
}

/// A list without items, with these items put in; it has room for them.
pub(crate) fn filled(list: Vec<Item>, items: &[Item]) -> Vec<Item>
    requires empty { vec_len list ≡ 0 }
    requires room { length items.now ≤ vec_capacity list }
    ensures { result.items ≡ items.now }
{
    let mut list = list;
    if list.extend_from_slice(items).is_err() {
        unreachable!();
    }
    list
}

/// Puts a batch behind those in flight, where there is room for it.
pub(crate) fn push_batch(flight: &mut VecDeque<Batch>, batch: Batch)
    requires { deque_len flight.old + 1 ≤ deque_capacity flight.old }
    ensures { flight.new.items ≡ flight.old.items ++ batch ∷ [] }
{
    if flight.push_back(batch).is_err() {
        unreachable!();
    }
}

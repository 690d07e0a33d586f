//! What a queue of waiting pieces answers.

ghost use Rattle.std.specs.Prelude.{◌≡◌, ℕ, ◌≤◌, ◌↔◌, List, [], ◌∷◌, false, Err, map, filter, length, OnOk, OnErr, IfOk};
ghost use Rattle.std.specs.BTreeMap.{is_at};
ghost use Rattle.std.specs.Map.{lookup};
ghost use Rattle.zs_ids.specs.Piece.{piece_cmp};
ghost use Rattle.zs_queue.specs.Waiting.{IsBatch, is_of, waits, with_item, without};

use std::alloc::AllocError;
use zs_ids::{Item, Piece};

/// Why a piece was not put into a queue.
#[derive(Clone, Copy, Debug, PartialEq, Eq)]
pub enum PutFault {
    /// As many pieces wait as the limit allows.
    Full,
    /// Want of memory.
    Memory,
}

/// A finite set of items, at most one for each piece, and at most as many as the limit. Contracts see it as the
/// list of its items, each beside its piece, in order of address: mirror, sector, birth.
pub trait Waiting: Drop {
    ghost use Rattle.std.specs.Map.{keys_of};
    ghost use Rattle.std.specs.List.Sorted.{IsStrictlySortedBy};
    ghost use Rattle.zs_ids.specs.declared.block.Item.{Item};
    ghost use Rattle.zs_ids.specs.declared.block.Piece.{Piece};
    ghost use Rattle.zs_ids.specs.Graph.{Has};

    /// The items, each beside its piece, in order of address.
    ghost items: { Self → List (Piece × Item) };

    /// The greatest number of items.
    ghost limit_of: { Self → ℕ };

    /// The batch of at most that many pieces of a mirror that the queue gives next.
    ghost batch: { Self → ℕ → ℕ → List Item };

    /// Puts an item whose piece does not wait. A refusal changes nothing.
    fn put(&mut self, item: Item) -> Result<(), PutFault>
        requires absent { waits (items self.old) item.piece ≡ false }
        ensures ok { OnOk result (items self.new ≡ with_item (items self.old) item) }
        ensures full { result ≡ Err PutFault.Full ↔ limit_of self.old ≤ length (items self.old) }
        ensures err { OnErr result (items self.new ≡ items self.old) }
        ensures limit { limit_of self.new ≡ limit_of self.old };

    /// Whether the piece waits. Takes no memory.
    fn has(&self, piece: Piece) -> bool
        ensures { result ≡ waits (items self.now) piece };

    /// Takes the piece out, and answers whether it waited. Takes no memory.
    fn drop_piece(&mut self, piece: Piece) -> bool
        ensures waited { result ≡ waits (items self.old) piece }
        ensures items { items self.new ≡ without (items self.old) (piece ∷ []) }
        ensures limit { limit_of self.new ≡ limit_of self.old };

    /// Takes a batch of at most `n` pieces of the mirror out and answers it, in order of address. After want of
    /// memory all wait as before.
    fn take(&mut self, vdev: u8, n: u32) -> Result<Vec<Item>, AllocError>
        ensures batch { IfOk result (λ b. b.items ≡ batch self.old vdev n) }
        ensures rest { IfOk result (λ b. items self.new ≡ without (items self.old) (map (λ i. i.piece) b.items)) }
        ensures err { OnErr result (items self.new ≡ items self.old) }
        ensures limit { limit_of self.new ≡ limit_of self.old };

    /// How many items there are.
    fn count(&self) -> u32
        ensures { result ≡ length (items self.now) };

    /// How many items of the mirror there are.
    fn count_of(&self, vdev: u8) -> u32
        ensures { result ≡ length (filter (is_of vdev) (items self.now)) };

    /// The greatest number of items.
    fn limit(&self) -> u32
        ensures { result ≡ limit_of self.now };

    /// Takes all items out. Takes no memory.
    fn clear(&mut self)
        ensures items { items self.new ≡ [] }
        ensures limit { limit_of self.new ≡ limit_of self.old };

    /// The pieces rise.
    ghost in_order: { (queue : Self) → IsStrictlySortedBy piece_cmp (keys_of (items queue)) };

    /// Each item stands beside its own piece.
    ghost named: { (queue : Self) (e : Piece × Item) → Has (items queue) e → e.1.piece ≡ e.0 };

    /// No more items wait than the limit allows.
    ghost within: { (queue : Self) → length (items queue) ≤ limit_of queue };

    /// What a batch keeps to.
    ghost is_batch: { (queue : Self) (vdev n : ℕ) → IsBatch (items queue) vdev n (batch queue vdev n) };
}

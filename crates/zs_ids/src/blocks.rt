//! A dataset's map from keys to block pointers.

ghost use Rattle.std.specs.Prelude.{◌≡◌, ◌<◌, [], List, length, map, OnOk, OnErr, IfOk};
ghost use Rattle.zs_ids.specs.Blocks.{bp_at, entries_with, first_from, replaced, IsInKeyOrder};

use crate::block::Bp;
use crate::key::Key;
use std::alloc::{AllocError, Global};

/// A finite map from keys to block pointers. Contracts see it as the list of its entries in order of key.
pub trait Blocks: Drop {
    ghost use Rattle.zs_ids.specs.declared.block.Bp.{Bp};
    ghost use Rattle.zs_ids.specs.declared.key.Key.{Key};

    /// The entries, in order of key.
    ghost entries: { Self → List (Key × Bp) };

    /// A map without entries. Takes no memory.
    fn empty(alloc: Global) -> Self
        ensures { entries result ≡ [] };

    /// The pointer at the key.
    fn get(&self, key: Key) -> Option<Bp>
        ensures { result ≡ bp_at (entries self.now) key };

    /// The least key at or after `from` whose pointer is born after `above`, and the pointer.
    fn next_from(&self, from: Key, above: u64) -> Option<(Key, Bp)>
        ensures { result ≡ first_from (entries self.now) from above };

    /// Puts a pointer at the key and answers the one that was there. After want of memory the map is
    /// as it was.
    fn replace(&mut self, key: Key, bp: Bp) -> Result<Option<Bp>, AllocError>
        ensures ok { IfOk result (λ old. old ≡ bp_at (entries self.old) key) }
        ensures put { OnOk result (entries self.new ≡ replaced (entries self.old) key bp) }
        ensures err { OnErr result (entries self.new ≡ entries self.old) };

    /// Puts pointers at keys that rise. After want of memory the map is as it was. Costs as many steps as as many calls of
    /// `replace`.
    fn replace_all(&mut self, alloc: Global, changes: &[(Key, Bp)]) -> Result<(), AllocError>
        requires rise { IsInKeyOrder changes.now }
        ensures put { OnOk result (entries self.new ≡ entries_with (entries self.old) changes.now) }
        ensures err { OnErr result (entries self.new ≡ entries self.old) };

    /// An equal map of its own.
    fn copy(&self) -> Result<Self, AllocError>
        ensures { IfOk result (λ copy. entries copy ≡ entries self.now) };

    /// How many entries there are.
    fn len(&self) -> usize
        ensures { result ≡ length (entries self.now) };

    /// The keys rise.
    ghost in_order: { (map : Self) → IsInKeyOrder (entries map) };
}

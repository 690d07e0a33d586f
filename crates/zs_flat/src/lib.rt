//! A dataset's map from keys to block pointers, in a tree of its own.
//!
//! Layer: above `zs_ids`, which has the trait `Blocks` and its meaning. The pool has its head's blocks in such a map,
//! and tests of the crates that are generic in a map use it.
//! Model: the list of the map's entries in order of key.
//! Promise: each call of `Blocks` is that of one finite map; the keys always rise; after want of memory the
//! map is as it was. `get` and `replace` cost O(log n), `replace_all` O(log n) for each change, `next_from` O(log n)
//! and a step for each entry that it passes because of its birth, `copy` O(n).
//!
//! To change what a map must do see `zs_ids::Blocks`. A map whose copies share their entries is a type beside
//! this one, and nothing above has to know which of the two it has.
#![tactic(auto)]

ghost use Rattle.std.specs.Prelude.{◌≡◌, [], map, IfOk};
ghost use Rattle.std.specs.BTreeMap.{IsOrdered};
ghost use Rattle.std.proofs.Props.{props};
ghost use Rattle.zs_ids.specs.Key.{key_cmp};
ghost use Rattle.zs_ids.specs.Blocks.{bp_at};
ghost use Rattle.zs_flat.specs.Restoring.{Restores, TakesBack};

use std::alloc::{AllocError, Global};
use std::collections::BTreeMap;
use zs_ids::{Blocks, Bp, Key};

/// A map of its own from keys to block pointers: no two share memory, and a copy copies every entry.
#[derive(Drop)]
pub struct Flat {
    map: BTreeMap<Key, Bp>,
    ghost ordered: { IsOrdered key_cmp map } by { Prim.hlevel props },
}

impl Flat {
    /// A map without entries. Takes no memory.
    pub fn new(alloc: Global) -> Self
        ensures { result.map.entries ≡ [] }
    {
        Flat {
            map: BTreeMap::new(alloc),
        }
    }

    /// Takes changes back, of which some were put, by what stood at their keys before.
    fn take_back(&mut self, changes: &[(Key, Bp)], before: &[Option<Bp>])
        ensures { TakesBack self.old.map changes.now before.now self.new.map }
    {
        for ((key, _), was) in changes.iter().zip(before) {
            self.restore(*key, *was);
        }
    }

    /// Puts back what stood at the key. Where something did, something stands there now, so no memory is wanting.
    fn restore(&mut self, key: Key, was: Option<Bp>)
        ensures { Restores self.old.map key was self.new.map }
    {
        match was {
            Some(bp) => {
                let _ = self.map.insert(key, bp);
            }
            None => {
                self.map.remove(&key);
            }
        }
    }
}

/// What stands at the keys of some changes.
fn pointers_at(
    alloc: Global,
    blocks: &BTreeMap<Key, Bp>,
    changes: &[(Key, Bp)],
) -> Result<Vec<Option<Bp>>, AllocError>
    ensures { IfOk result (λ old. old.items ≡ map (λ c. bp_at blocks.now.entries c.0) changes.now) }
{
    changes
        .iter()
        .map(|change| blocks.get(&change.0).copied())
        .collect(alloc)
}

impl Blocks for Flat {
    ghost entries = { λ f. f.map.entries };

    fn empty(alloc: Global) -> Self {
        Flat::new(alloc)
    }

    fn get(&self, key: Key) -> Option<Bp> {
        self.map.get(&key).copied()
    }

    fn next_from(&self, from: Key, above: u64) -> Option<(Key, Bp)> {
        for (key, bp) in self.map.range(from..) {
            if bp.birth > above {
                return Some((*key, *bp));
            }
        }
        None
    }

    fn replace(&mut self, key: Key, bp: Bp) -> Result<Option<Bp>, AllocError> {
        let old = self.map.insert(key, bp)?;
        Ok(old)
    }

    fn replace_all(&mut self, alloc: Global, changes: &[(Key, Bp)]) -> Result<(), AllocError> {
        let before = pointers_at(alloc, &self.map, changes)?;
        for (key, bp) in changes {
            match self.map.insert(*key, *bp) {
                Ok(_) => {}
                Err(_) => {
                    self.take_back(changes, &before);
                    return Err(AllocError);
                }
            }
        }
        Ok(())
    }

    fn copy(&self) -> Result<Self, AllocError> {
        Ok(Flat {
            map: self.map.clone()?,
        })
    }

    fn len(&self) -> usize {
        self.map.len()
    }

    ghost in_order = { λ f. f.ordered };
}

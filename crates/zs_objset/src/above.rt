//! The blocks that a write changes.

ghost use Rattle.std.specs.Prelude.{◌≡◌, ◌≤◌, IfOk, OnOk, [], reverse, min};
ghost use Rattle.zs_objset.specs.Needed.{IsLineUp};

use std::alloc::{AllocError, Global};
use zs_ids::Key;

/// The key of a block in an object of that many levels (1 to 4; more are taken as 4) and the keys of all blocks above
/// it, from the root down, which is the order of keys.
pub fn needed(alloc: Global, key: Key, levels: u8) -> Result<Vec<Key>, AllocError>
    ensures { IfOk result (λ v. IsLineUp (min levels 4) key (reverse v.items)) }
{
    let mut keys = Vec::new(alloc);
    climb(&mut keys, key, levels.min(4))?;
    keys.reverse();
    Ok(keys)
}

/// Puts a key and those of all blocks above it, from itself upwards.
#[tactic(auto, using(crate::proofs::Chain::parent_lower))]
fn climb(keys: &mut Vec<Key>, key: Key, levels: u8) -> Result<(), AllocError>
    requires empty { keys.old.items ≡ [] }
    requires few { levels ≤ 4 }
    ensures { OnOk result (IsLineUp levels key keys.new.items) }
{
    keys.push(key)?;
    let mut last = key;
    while let Some(parent) = last.parent(levels) {
        keys.push(parent)?;
        last = parent;
    }
    Ok(())
}

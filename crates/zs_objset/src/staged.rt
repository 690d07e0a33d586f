//! The blocks that a sync writes for one dataset.

ghost use Rattle.std.specs.Prelude.{◌≡◌, ◌++◌, ◌∷◌, [], length, OnOk, IfOk, Some};
ghost use Rattle.std.specs.BTreeMap.{insert_entry};
ghost use Rattle.zs_ids.specs.Blocks.{bp_at};
ghost use Rattle.zs_ids.specs.Key.{key_cmp};
ghost use Rattle.zs_txg.specs.Txg.{entries_for};
ghost use Rattle.zs_objset.specs.Staged.{level_of, pointer_of, staged_bytes, size_of, block_of, over, AreBlocksOf, IsSized, AreSized};
ghost use Rattle.zs_objset.specs.Done.{AreDone, with_listed};

use crate::block::StagedBlock;
use crate::bytes::{block_over, record_of};
use std::alloc::{AllocError, Global};
use std::collections::BTreeMap;
use zs_ids::{Blocks, Bp, DsId, Key, Place, Seq};
use zs_sum::sum;
use zs_txg::{OpenTxg, StagedEntry};

/// The blocks that a sync writes for a dataset, in order of key: one for each staged entry, whose bytes
/// are those of its fill, or have the pointers of the blocks below it: those staged, and where none is staged those of the
/// map.
pub fn staged_blocks<T: Blocks>(
    alloc: Global,
    map: &T,
    ds: DsId,
    txg: &OpenTxg,
) -> Result<Vec<StagedBlock>, AllocError>
    ensures blocks { IfOk result (λ v. AreBlocksOf (bp_at (T.entries map.now)) txg.now.txg (entries_for txg.now.staged ds) v.items) }
    ensures sized { IfOk result (λ v. AreSized (entries_for txg.now.staged ds) v.items) }
{
    let mut todo = txg.entries_of(alloc, ds)?;
    let mut pointers = BTreeMap::new(alloc);
    let mut blocks = Vec::with_capacity(alloc, todo.len())?;
    while let Some(entry) = todo.pop() {
        add(alloc, map, txg.txg(), &entry, &mut pointers, &mut blocks)?;
    }
    blocks.reverse();
    Ok(blocks)
}

/// Makes the block of one entry, where the blocks below it are made, and puts it behind them.
fn add<T: Blocks>(
    alloc: Global,
    map: &T,
    t: u64,
    entry: &StagedEntry,
    made: &mut BTreeMap<Key, Bp>,
    blocks: &mut Vec<StagedBlock>,
) -> Result<(), AllocError>
    ensures block { OnOk result (blocks.new.items ≡ blocks.old.items ++ block_of (over made.old.entries (bp_at (T.entries map.now))) t entry.now ∷ []) }
    ensures sized { OnOk result (IsSized entry.now (block_of (over made.old.entries (bp_at (T.entries map.now))) t entry.now)) }
    ensures listed { OnOk result (made.new.entries ≡ with_listed made.old.entries (block_of (over made.old.entries (bp_at (T.entries map.now))) t entry.now)) }
{
    let bytes = bytes_of(alloc, map, made, entry.key, entry.sectors, entry.fill)?;
    let bp = pointer(t, entry, &bytes);
    made.insert(entry.key, bp)?;
    blocks.push(StagedBlock {
        ds: entry.ds,
        key: entry.key,
        bp,
        bytes: Seq::from_vec(bytes),
    })?;
    Ok(())
}

/// The bytes of a staged block.
fn bytes_of<T: Blocks>(
    alloc: Global,
    map: &T,
    staged: &BTreeMap<Key, Bp>,
    key: Key,
    sectors: u16,
    fill: Option<u64>,
) -> Result<Vec<u8>, AllocError>
    ensures bytes { IfOk result (λ v. v.items ≡ staged_bytes (over staged.now.entries (bp_at (T.entries map.now))) key sectors fill) }
    ensures sized { IfOk result (λ v. length v.items ≡ size_of sectors fill) }
{
    match fill {
        Some(fill) => record_of(alloc, fill, sectors),
        None => block_over(alloc, map, staged, key),
    }
}

/// The pointer to a staged block with those bytes.
fn pointer(t: u64, entry: &StagedEntry, bytes: &[u8]) -> Bp
    ensures { result ≡ pointer_of t entry.now bytes.now }
{
    let none = Place { vdev: 0, sector: 0 };
    Bp {
        count: 1,
        places: [entry.place, none, none],
        sectors: entry.sectors,
        birth: t,
        level: level(entry.key),
        sum: sum(bytes),
    }
}

/// The level of the block at a key.
fn level(key: Key) -> u8
    ensures { result ≡ level_of key }
{
    if key.rank == 0 {
        1_u8.saturating_sub(key.depth)
    } else {
        3_u8.saturating_sub(key.depth)
    }
}

//! The blocks of two syncs, their sums compared with those of another program.

ghost use Rattle.std.specs.Prelude.{◌<◌};

use std::alloc::{AllocError, Global};
use zs_flat::Flat;
use zs_ids::{Blocks, DsId, Key, Place};
use zs_objset::{StagedBlock, block_bytes, needed, staged_blocks};
use zs_txg::OpenTxg;

const DNODES: Key = Key {
    object: 0,
    rank: 0,
    leaf: 0,
    depth: 1,
};

const TOP: Key = Key {
    object: 0,
    rank: 1,
    leaf: 0,
    depth: 2,
};

fn record(leaf: u32) -> Key {
    Key {
        object: 0,
        rank: 1,
        leaf,
        depth: 3,
    }
}

fn place(vdev: u8, sector: u32) -> Place {
    Place { vdev, sector }
}

/// Stages a record and all above it, from that sector on.
fn stage(txg: &mut OpenTxg, sector: u32, leaf: u32, fill: u64) -> Result<(), AllocError>
    requires { sector < 1000 }
{
    txg.stage(DsId(1), Key::ROOT, place(0, sector), 8, None)?;
    txg.stage(DsId(1), DNODES, place(0, sector + 8), 8, None)?;
    txg.stage(DsId(1), TOP, place(0, sector + 16), 8, None)?;
    txg.stage(DsId(1), record(leaf), place(1, sector + 24), 2, Some(fill))?;
    Ok(())
}

/// The first byte of each block's sum.
fn sums(alloc: Global, blocks: &[StagedBlock]) -> Result<Vec<u8>, AllocError> {
    let mut sums = Vec::new(alloc);
    for block in blocks {
        sums.push(block.bp.sum[0])?;
    }
    Ok(sums)
}

fn apply(map: &mut Flat, blocks: &[StagedBlock]) -> Result<(), AllocError> {
    for block in blocks {
        let _old = map.replace(block.key, block.bp)?;
    }
    Ok(())
}

#[test]
fn makes_the_blocks_of_two_syncs(rt: HostRuntime) -> Result<(), AllocError> {
    let alloc = rt.alloc();
    let mut map = Flat::new(alloc);
    let mut first = OpenTxg::new(alloc, 2);
    stage(&mut first, 296, 0, 0x0102_0304_0506_0708)?;
    let blocks = staged_blocks(alloc, &map, DsId(1), &first)?;
    assert!(rt; sums(alloc, &blocks)?.as_slice() == [176, 180, 150, 144].as_slice());
    apply(&mut map, &blocks)?;

    let mut second = OpenTxg::new(alloc, 3);
    stage(&mut second, 330, 1, 9)?;
    let blocks = staged_blocks(alloc, &map, DsId(1), &second)?;
    assert!(rt; sums(alloc, &blocks)?.as_slice() == [118, 184, 4, 29].as_slice());
    apply(&mut map, &blocks)?;

    let dnodes = block_bytes(alloc, &map, DNODES)?;
    assert!(rt; dnodes.len() == 4096);
    assert!(rt; zs_sum::sum(&dnodes)[0] == 184);
    Ok(())
}

#[test]
fn needs_all_blocks_above(rt: HostRuntime) -> Result<(), AllocError> {
    let keys = needed(rt.alloc(), record(70), 2)?;
    assert!(rt;
        keys.as_slice() == [Key::ROOT, DNODES, Key { leaf: 64, ..TOP }, record(70)].as_slice()
    );
    Ok(())
}

//! Graphs that are valid, and graphs that are not.

use super::fits;
use super::graphs::{
    beside, doubled, head_on_head, one_filesystem, one_record, rewritten, unshared, without_dnodes,
    young_record,
};
use std::alloc::{AllocError, Global};
use zs_plain::blocks::{has_blocks_in_order, shares};
use zs_plain::dataset::PlainDataset;
use zs_plain::valid::{are_apart, is_tree};

/// Whether the blocks of each dataset are in order, where h is the transaction group whose tasks come next.
fn is_ordered(g: &[PlainDataset], h: u64) -> bool {
    g.iter().all(|d| has_blocks_in_order(d, h))
}

/// Whether the second dataset shares with the third what it has from before it; none where there are not three.
fn head_shares(g: &[PlainDataset]) -> Option<bool> {
    match g {
        [_, head, snapshot] => Some(shares(head, snapshot)),
        _ => None,
    }
}

/// Two filesystems side by side, whose blocks touch and do not meet.
#[test]
fn blocks_that_touch_lie_apart(rt: HostRuntime) -> Result<(), AllocError> {
    let g = beside(rt.alloc(), &one_record(313, 321, 329, 3))?;
    assert!(rt; are_apart(&g));
    assert!(rt; fits(rt.alloc(), &g, 6, 3)?);
    Ok(())
}

#[test]
fn blocks_that_meet_do_not(rt: HostRuntime) -> Result<(), AllocError> {
    let g = beside(rt.alloc(), &one_record(311, 321, 329, 3))?;
    assert!(rt; !are_apart(&g));
    assert!(rt; !fits(rt.alloc(), &g, 6, 3)?);
    Ok(())
}

/// A block at two places, each of which is a piece of its own; they may touch and may not meet.
#[test]
fn a_block_may_have_two_places(rt: HostRuntime) -> Result<(), AllocError> {
    let alloc = rt.alloc();
    let beside = doubled(alloc, 313)?;
    assert!(rt; fits(alloc, &beside, 4, 3)?);
    assert!(rt; !fits(alloc, &beside, 3, 3)?);
    assert!(rt; is_ordered(&doubled(alloc, 288)?, 3));
    Ok(())
}

/// The places of one block share no sector.
#[test]
fn the_places_of_a_block_lie_apart(rt: HostRuntime) -> Result<(), AllocError> {
    let met = doubled(rt.alloc(), 289)?;
    assert!(rt; are_apart(&met) && !is_ordered(&met, 3));
    let twice = doubled(rt.alloc(), 296)?;
    assert!(rt; are_apart(&twice) && !fits(rt.alloc(), &twice, 4, 3)?);
    Ok(())
}

/// A pool has at most its number of blocks, however many datasets hold one of them.
#[test]
fn a_shared_block_counts_once(rt: HostRuntime) -> Result<(), AllocError> {
    let g = rewritten(rt.alloc())?;
    for (blocks, h, wanted) in [(10, 5, true), (9, 5, false), (10, 4, false)] {
        assert_eq!(rt; fits(rt.alloc(), &g, blocks, h)?, wanted, "at {blocks} {h}");
    }
    Ok(())
}

/// A block past the end of its mirror is in no room.
#[test]
fn a_block_lies_in_the_room(rt: HostRuntime) -> Result<(), AllocError> {
    for (record, wanted) in [(511, true), (512, false)] {
        let g = beside(rt.alloc(), &one_record(320, 328, record, 3))?;
        assert_eq!(rt; fits(rt.alloc(), &g, 6, 3)?, wanted, "at {record}");
    }
    Ok(())
}

/// Each block stands below its parent block, which is not younger.
#[test]
fn a_block_stands_below_its_parent(rt: HostRuntime) -> Result<(), AllocError> {
    let alloc = rt.alloc();
    assert!(rt; is_ordered(&one_filesystem(alloc)?, 3));
    assert!(rt; !is_ordered(&without_dnodes(alloc)?, 3));
    assert!(rt; !is_ordered(&young_record(alloc)?, 4));
    Ok(())
}

/// What a head has from before its snapshot stands in the snapshot.
#[test]
fn a_head_shares_with_its_snapshot(rt: HostRuntime) -> Result<(), AllocError> {
    let alloc = rt.alloc();
    assert_eq!(rt; head_shares(&rewritten(alloc)?), Some(true));
    assert_eq!(rt; head_shares(&unshared(alloc)?), Some(false));
    assert!(rt; !fits(alloc, &unshared(alloc)?, 6, 5)?);
    Ok(())
}

/// Datasets stand on snapshots.
#[test]
fn no_head_stands_on_a_head(rt: HostRuntime) -> Result<(), AllocError> {
    assert!(rt; is_tree(&one_filesystem(rt.alloc())?, 3));
    assert!(rt; !is_tree(&head_on_head(rt.alloc())?, 3));
    Ok(())
}

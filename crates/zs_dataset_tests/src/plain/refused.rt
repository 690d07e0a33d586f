//! Graphs that are refused for one thing, beside the same without it.

use super::graphs::{first_record, last_rewritten, three_records};
use super::{block, dataset, graph, head, key, snapshot};
use std::alloc::{AllocError, Global};
use zs_ids::{Bp, Key};
use zs_plain::blocks::{has_blocks_in_order, shares};
use zs_plain::dataset::PlainDataset;
use zs_plain::valid::is_tree;

/// One filesystem and a second one, empty, with this owner.
fn with_second(alloc: Global, owner: u8) -> Result<Vec<PlainDataset>, AllocError> {
    let first = first_record();
    graph(alloc, &[head(1, b'a', 0, &first), head(2, owner, 0, &[])])
}

/// One filesystem and an empty head without a parent.
fn with_orphan(alloc: Global) -> Result<Vec<PlainDataset>, AllocError> {
    let mut g = graph(alloc, &[head(1, b'a', 0, &first_record())])?;
    let mut orphan = dataset(alloc, &head(2, b'b', 0, &[]))?;
    orphan.parent = None;
    g.push(orphan)?;
    Ok(g)
}

/// Two heads have two names, and the origin alone has no parent.
#[test]
fn two_heads_have_two_names_and_a_parent(rt: HostRuntime) -> Result<(), AllocError> {
    let alloc = rt.alloc();
    assert!(rt; is_tree(&with_second(alloc, b'b')?, 3));
    assert!(rt; !is_tree(&with_second(alloc, b'a')?, 3));
    assert!(rt; !is_tree(&with_orphan(alloc)?, 3));
    Ok(())
}

/// Whether the blocks of a filesystem are in order, where h is the transaction group whose tasks come next.
fn is_ordered(alloc: Global, blocks: &[(Key, Bp)], h: u64) -> Result<bool, AllocError> {
    let d = dataset(alloc, &head(1, b'a', 0, blocks))?;
    Ok(has_blocks_in_order(&d, h))
}

/// Whether a head with these blocks shares with a snapshot of three records what it has from before it.
fn is_shared(alloc: Global, blocks: &[(Key, Bp)]) -> Result<bool, AllocError> {
    let before = dataset(alloc, &snapshot(2, 0, (4, b's'), &three_records()))?;
    let d = dataset(alloc, &head(1, b'a', 2, blocks))?;
    Ok(shares(&d, &before))
}

#[test]
fn a_child_has_each_of_its_parent_s_keys(rt: HostRuntime) -> Result<(), AllocError> {
    let whole = last_rewritten();
    assert!(rt; is_shared(rt.alloc(), &whole)?);
    let [root, dnodes, top, first, second, _] = whole;
    let lacks = [root, dnodes, top, first, second];
    assert!(rt; is_ordered(rt.alloc(), &lacks, 5)?);
    assert!(rt; !is_shared(rt.alloc(), &lacks)?);
    Ok(())
}

#[test]
fn a_record_has_a_power_of_two_of_sectors(rt: HostRuntime) -> Result<(), AllocError> {
    for (sectors, wanted) in [(2, true), (3, false)] {
        let [root, dnodes, mut record] = first_record();
        record.1.sectors = sectors;
        let given = is_ordered(rt.alloc(), &[root, dnodes, record], 3)?;
        assert_eq!(rt; given, wanted, "at {sectors}");
    }
    Ok(())
}

#[test]
fn a_block_of_records_begins_at_a_multiple_of_64(rt: HostRuntime) -> Result<(), AllocError> {
    for (leaf, wanted) in [(64, true), (65, false)] {
        let [root, dnodes, _] = first_record();
        let top = block(key(1, 1, 0, 1), 312, 3);
        let below = block(key(1, 1, leaf, 2), 320, 3);
        let given = is_ordered(rt.alloc(), &[root, dnodes, top, below], 3)?;
        assert_eq!(rt; given, wanted, "at {leaf}");
    }
    Ok(())
}

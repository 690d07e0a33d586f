//! States that lose blocks: each is shown not to belong to its graph, or not to cover it.

use super::graphs::{BEHIND_ROOT, BEHIND_TOP, rewritten_alone, third_snapshot, with_snapshot};
use super::{block, key, pieces, scan, scrub};
use std::alloc::{AllocError, Global};
use zs_ids::{DsId, Key};
use zs_phys::At;
use zs_plain::ahead::{covers, is_ahead};
use zs_plain::dataset::PlainDataset;
use zs_plain::sound::is_sound;

const A: DsId = DsId(1);

/// A pass over nothing.
const NO_PASS: (u64, u64, bool) = (0, 0, false);

/// Whether a scrub up to a group that is there belongs to the graph, where h is the transaction group whose tasks come next.
fn belongs(
    alloc: Global,
    g: &[PlainDataset],
    groups: (u64, u64),
    at: At,
    pass: (u64, u64, bool),
    todo: &[(u32, u64)],
) -> Result<bool, AllocError> {
    let s = scan(alloc, at, pass, todo)?;
    is_sound(alloc, g, groups.1, &scrub(alloc, groups.0), &s)
}

/// Whether it covers the graph where the pieces at these sectors are done.
fn covered(
    alloc: Global,
    g: &[PlainDataset],
    max: u64,
    at: At,
    pass: (u64, u64, bool),
    todo: &[(u32, u64)],
    done: &[u32],
) -> Result<bool, AllocError> {
    let s = scan(alloc, at, pass, todo)?;
    let done = pieces(alloc, g, done)?;
    covers(alloc, g, &scrub(alloc, max), &s, &done)
}

/// The head that took the place of a destroyed snapshot is not walked again.
#[test]
fn a_head_that_is_not_walked_again_is_lost(rt: HostRuntime) -> Result<(), AllocError> {
    let g = rewritten_alone(rt.alloc())?;
    let at = At::Dataset(A, BEHIND_TOP);
    for again in [true, false] {
        let pass = (1, 4, again);
        let sound = belongs(rt.alloc(), &g, (6, 8), at, pass, &[])?;
        assert_eq!(rt; sound, again);
        let covers = covered(rt.alloc(), &g, 6, at, pass, &[], &[])?;
        assert_eq!(rt; covers, again);
    }
    Ok(())
}

/// The bookmark stays on the head of which a snapshot was taken.
#[test]
fn a_bookmark_left_on_the_head_loses_its_snapshot(rt: HostRuntime) -> Result<(), AllocError> {
    let g = with_snapshot(rt.alloc())?;
    let pass = (1, 4, false);
    let right = At::Dataset(DsId(2), BEHIND_ROOT);
    assert!(rt; belongs(rt.alloc(), &g, (4, 6), right, pass, &[])?);
    assert!(rt; covered(rt.alloc(), &g, 4, right, pass, &[], &[296])?);
    let wrong = At::Dataset(A, BEHIND_ROOT);
    assert!(rt; !covered(rt.alloc(), &g, 4, wrong, pass, &[], &[296])?);
    Ok(())
}

/// The end of a pass that was cut short queues the dataset again, and not its children: neither from its creation on nor
/// from the pass's end.
#[test]
fn children_queued_after_a_pass_cut_short_lose_their_parent(
    rt: HostRuntime,
) -> Result<(), AllocError> {
    let g = third_snapshot(rt.alloc())?;
    assert!(rt; belongs(rt.alloc(), &g, (6, 8), At::Nowhere, NO_PASS, &[(4, 3)])?);
    for (queued, wanted) in [((4, 3), true), ((1, 7), false), ((1, 3), false)] {
        let covers = covered(rt.alloc(), &g, 6, At::Nowhere, NO_PASS, &[queued], &[])?;
        assert_eq!(rt; covers, wanted, "at {queued:?}");
    }
    Ok(())
}

/// Nor is nothing queued.
#[test]
fn nothing_queued_after_a_pass_cut_short_loses_what_is_not_done(
    rt: HostRuntime,
) -> Result<(), AllocError> {
    let g = rewritten_alone(rt.alloc())?;
    assert!(rt; !covered(rt.alloc(), &g, 6, At::Nowhere, NO_PASS, &[], &[320, 321])?);
    Ok(())
}

/// Below a block that is born after the pass's end stand blocks that are not: the walk goes on below it, and neither with the
/// next object nor with the next leaf.
#[test]
fn a_walk_that_skips_what_is_below_a_young_block_loses_it(
    rt: HostRuntime,
) -> Result<(), AllocError> {
    let g = rewritten_alone(rt.alloc())?;
    let places = [
        (key(0, 0, 0, 2), true),
        (key(32, 0, 0, 1), false),
        (key(1, 1, 1, 2), false),
    ];
    for (k, wanted) in places {
        let at = At::Dataset(A, k);
        let covers = covered(rt.alloc(), &g, 6, at, (1, 4, true), &[], &[])?;
        assert_eq!(rt; covers, wanted, "at {k:?}");
    }
    Ok(())
}

/// A block born in the last transaction group of a pass is the pass's, one born in its first is not.
#[test]
fn a_pass_has_its_last_group_and_not_its_first(rt: HostRuntime) -> Result<(), AllocError> {
    let g = rewritten_alone(rt.alloc())?;
    let pass = scan(rt.alloc(), At::Dataset(A, BEHIND_TOP), (3, 5, false), &[])?;
    for (sector, birth, wanted) in [(320, 3, false), (347, 5, true)] {
        let entry = block(BEHIND_TOP, sector, birth);
        assert_eq!(rt;
            is_ahead(rt.alloc(), &g, &pass, A, &entry)?,
            wanted,
            "at {birth}"
        );
    }
    Ok(())
}

//! Scans with events between their turns: at each step the state belongs to the graph and covers it.

use super::graphs::{
    BEHIND_ROOT, BEHIND_TOP, clones, one_filesystem, rewritten, rewritten_alone, third_snapshot,
    two_filesystems, two_snapshots, with_snapshot, written_after_snapshot,
};
use super::run::Run;
use super::{key, pieces};
use std::alloc::{AllocError, Global};
use zs_ids::{DsId, Key, Piece};
use zs_phys::At;
use zs_plain::dataset::PlainDataset;

const A: DsId = DsId(1);

/// What stands below a destroyed snapshot is walked, and what is above the pass's end in a second pass.
#[test]
fn walks_a_head_again_in_place_of_its_destroyed_snapshot(
    rt: HostRuntime,
) -> Result<(), AllocError> {
    let alloc = rt.alloc();
    let mut run = Run::new(alloc, 6)?;
    assert!(rt; run.goes(alloc, &rewritten(alloc)?, 7, (6, 6), &[296, 304, 312])?);
    assert!(rt; run.is_at(At::Dataset(DsId(2), BEHIND_TOP), (1, 4, false), &[]));
    run.state.destroyed(DsId(2), Some(A));
    assert!(rt; run.is_at(At::Dataset(A, BEHIND_TOP), (1, 4, true), &[]));
    run.done.clear();
    let done = [320, 321, 323, 331, 339, 347];
    assert!(rt; run.goes(alloc, &rewritten_alone(alloc)?, 8, (100, 10), &done)?);
    Ok(())
}

/// Two snapshots are destroyed and one is taken while the walk is in the first of them.
#[test]
fn follows_its_dataset_over_several_events(rt: HostRuntime) -> Result<(), AllocError> {
    let alloc = rt.alloc();
    let mut run = Run::new(alloc, 6)?;
    assert!(rt; run.goes(alloc, &two_snapshots(alloc)?, 7, (4, 4), &[296])?);
    run.state.destroyed(DsId(2), Some(DsId(3)));
    run.state.destroyed(DsId(3), Some(A));
    run.state.snapshotted(A, DsId(4));
    assert!(rt; run.is_at(At::Dataset(DsId(4), BEHIND_ROOT), (1, 3, true), &[]));
    run.done.clear();
    assert!(rt;
        run.goes(
            alloc,
            &third_snapshot(alloc)?,
            8,
            (100, 9),
            &[330, 338, 346]
        )?
    );
    Ok(())
}

/// A snapshot is taken of the head that is being walked, and the head is written after it.
#[test]
fn walks_on_in_a_snapshot_of_its_head(rt: HostRuntime) -> Result<(), AllocError> {
    let alloc = rt.alloc();
    let mut run = Run::new(alloc, 4)?;
    assert!(rt; run.goes(alloc, &one_filesystem(alloc)?, 5, (4, 4), &[296])?);
    run.state.snapshotted(A, DsId(2));
    assert!(rt; run.holds(alloc, &with_snapshot(alloc)?, 6)?);
    let g = written_after_snapshot(alloc)?;
    assert!(rt; run.goes(alloc, &g, 7, (100, 4), &[296, 304, 312])?);
    Ok(())
}

/// Two heads are swapped while the walk is in the one and the other is queued.
#[test]
fn walks_both_of_two_swapped_heads(rt: HostRuntime) -> Result<(), AllocError> {
    let alloc = rt.alloc();
    let mut run = Run::new(alloc, 5)?;
    assert!(rt;
        run.goes(
            alloc,
            &clones(alloc, false)?,
            6,
            (9, 9),
            &[296, 304, 312, 313]
        )?
    );
    assert!(rt; run.is_at(At::Dataset(A, BEHIND_ROOT), (3, 5, false), &[(3, 3)]));
    run.state.swapped(A, DsId(3));
    assert!(rt; run.is_at(At::Dataset(DsId(3), BEHIND_ROOT), (3, 5, false), &[(1, 3)]));
    let done = [296, 304, 312, 313, 321, 329, 330, 338, 346];
    assert!(rt; run.goes(alloc, &clones(alloc, true)?, 7, (100, 8), &done)?);
    Ok(())
}

/// The filesystem that is being walked is destroyed.
#[test]
fn leaves_a_destroyed_filesystem_for_the_next_one(rt: HostRuntime) -> Result<(), AllocError> {
    let alloc = rt.alloc();
    let mut run = Run::new(alloc, 4)?;
    assert!(rt; run.goes(alloc, &two_filesystems(alloc, true)?, 5, (4, 4), &[296])?);
    run.state.destroyed(A, None);
    assert!(rt; run.is_at(At::Destroyed, (0, 0, false), &[(2, 1)]));
    run.done.clear();
    let g = two_filesystems(alloc, false)?;
    assert!(rt; run.goes(alloc, &g, 6, (100, 6), &[313, 321, 329])?);
    Ok(())
}

/// A state that is stored where the walk is in a snapshot that is destroyed later.
fn stored(alloc: Global) -> Result<(Run, bool), AllocError> {
    let mut run = Run::new(alloc, 6)?;
    let gone = run.goes(alloc, &rewritten(alloc)?, 7, (6, 6), &[296, 304, 312])?;
    Ok((run, gone))
}

/// The walk goes on for a turn before the snapshot is destroyed, and still holds then.
#[test]
fn holds_behind_a_stored_state_after_its_snapshot_was_destroyed(
    rt: HostRuntime,
) -> Result<(), AllocError> {
    let alloc = rt.alloc();
    let (mut run, gone) = stored(alloc)?;
    assert!(rt; gone);
    assert!(rt; run.goes(alloc, &rewritten(alloc)?, 8, (1, 1), &[296, 304, 312, 320])?);
    assert!(rt; run.is_at(At::Dataset(DsId(2), key(1, 1, 0, 4)), (1, 4, false), &[]));
    run.state.destroyed(DsId(2), Some(A));
    assert!(rt; run.holds(alloc, &rewritten_alone(alloc)?, 9)?);
    Ok(())
}

/// The state that was stored before goes on from where it was stored.
#[test]
fn goes_on_from_a_stored_state_after_its_snapshot_was_destroyed(
    rt: HostRuntime,
) -> Result<(), AllocError> {
    let alloc = rt.alloc();
    let (mut run, gone) = stored(alloc)?;
    assert!(rt; gone);
    run.state.destroyed(DsId(2), Some(A));
    assert!(rt; run.is_at(At::Dataset(A, BEHIND_TOP), (1, 4, true), &[]));
    let done = [296, 304, 312, 320, 321, 323, 331, 339, 347];
    assert!(rt; run.goes(alloc, &rewritten_alone(alloc)?, 9, (100, 10), &done)?);
    Ok(())
}

/// Where a piece is at home.
fn home_of(g: &[PlainDataset], piece: Piece) -> Option<(DsId, Key)> {
    match zs_plain::graph::home(g, piece) {
        None => None,
        Some((id, (k, _))) => Some((id, k)),
    }
}

/// How many live pieces of a graph lie at a sector, where each has this home in the other graph.
fn with_home(
    alloc: Global,
    g: &[PlainDataset],
    sector: u32,
    other: &[PlainDataset],
    home: Option<(DsId, Key)>,
) -> Result<Option<usize>, AllocError> {
    let found = pieces(alloc, g, &[sector])?;
    let same = found.iter().all(|piece| home_of(other, *piece) == home);
    Ok(if same { Some(found.len()) } else { None })
}

/// The live pieces of two datasets that share some, and a piece that is live no more.
#[test]
fn finds_live_pieces_and_their_homes(rt: HostRuntime) -> Result<(), AllocError> {
    let alloc = rt.alloc();
    let g = rewritten(alloc)?;
    assert_eq!(rt; zs_plain::graph::live(alloc, &g)?.len(), 12);
    let top = Some((DsId(2), BEHIND_TOP));
    assert_eq!(rt; with_home(alloc, &g, 320, &g, top)?, Some(2));
    let alone = rewritten_alone(alloc)?;
    assert_eq!(rt; with_home(alloc, &g, 322, &alone, None)?, Some(1));
    Ok(())
}

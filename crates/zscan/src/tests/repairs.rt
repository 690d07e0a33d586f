//! Images that lose writes, and what a scrub and a read make of it.

use crate::tests::devices::{Shaky, ShakyBay};
use crate::tests::world::{BASE, BASE_REPLIES, source, words};
use std::alloc::{AllocError, Global};
use std::test::Fail;
use zs_io::MemSink;
use zs_session::{Ended, Session, run_step};

/// Runs these lines behind a base over a bay, and answers how the run ended, and what it put.
fn run_shaky(
    alloc: Global,
    bay: &mut ShakyBay,
    lines: &str,
) -> Result<(Ended<Shaky>, Vec<u8>), AllocError> {
    let script = format!(in alloc; "{BASE}{lines}")?;
    let words = words(alloc, 2)?;
    let mut source = source(alloc, script.as_str(), &[])?;
    let mut sink = MemSink::new(alloc, Vec::new(alloc));
    let ended = run_step(alloc, words.as_slice(), bay, &mut source, &mut sink);
    Ok((ended, Vec::from_slice(alloc, sink.bytes())?))
}

/// Whether both images hold the same bytes, the first after four writes, and the second after
/// three.
fn are_repaired(session: Option<Session<Shaky>>) -> bool {
    let Some(session) = session else {
        return false;
    };
    let mut lanes = session.lanes;
    let (Some(second), Some(first)) = (lanes.pop(), lanes.pop()) else {
        return false;
    };
    let (second, first) = (second.into_device(), first.into_device());
    first.writes() == 4 && second.writes() == 3 && first.into_bytes() == second.into_bytes()
}

#[test]
fn a_bad_copy_is_rewritten_from_the_good_one_which_is_left_alone(
    rt: HostRuntime,
) -> Result<(), Fail> {
    let alloc = rt.alloc();

    // The first image loses its third write, which is that of the record.
    let mut bay = ShakyBay::new(alloc, Vec::from_array(alloc, [(2, 3), (0, 0)])?);
    let lines = "scrub\nsync\nfinish\nscrub\nsync\nfinish\n";
    let (ended, put) = run_shaky(alloc, &mut bay, lines)?;
    let first = "queued 4 1\nsync 4\ntask 1 ok\nsync 5\nfinished scrub 3 0\n";
    let second = "queued 6 1\nsync 6\ntask 1 ok\nsync 7\nfinished scrub 3 0\n";
    let want = format!(in alloc; "{BASE_REPLIES}{first}{second}")?;
    assert_eq!(rt; put.as_slice(), want.as_bytes());
    assert_eq!(rt; ended.status, 0);
    assert!(rt; are_repaired(ended.session));
    Ok(())
}

#[test]
fn a_record_without_a_good_copy_is_lost(rt: HostRuntime) -> Result<(), Fail> {
    let alloc = rt.alloc();

    // Both images lose every write.
    let losses = Vec::from_array(alloc, [(0, u64::MAX), (0, u64::MAX)])?;
    let mut bay = ShakyBay::new(alloc, losses);
    let (ended, put) = run_shaky(alloc, &mut bay, "read a 1 0\nscrub\nsync\nfinish\n")?;
    let rest = "refused ReadLost\nqueued 4 1\nsync 4\ntask 1 ok\nsync 5\nfinished scrub 3 3\n";
    let want = format!(in alloc; "{BASE_REPLIES}{rest}")?;
    assert_eq!(rt; put.as_slice(), want.as_bytes());
    assert_eq!(rt; ended.status, 0);
    Ok(())
}

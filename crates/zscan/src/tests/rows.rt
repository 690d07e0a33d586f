//! A whole script with its replies, and scripts with a fault.

use crate::tests::world::{BASE, BASE_REPLIES, image, run};
use std::alloc::{AllocError, Global};
use std::test::Fail;
use zs_io::{Bay, Device, MemBay};

#[test]
fn one_record_is_written_scrubbed_and_read(rt: HostRuntime) -> Result<(), Fail> {
    let alloc = rt.alloc();
    let script = format!(in alloc; "{BASE}scrub\nsync\nfinish\nread a 1 0\n")?;
    let first = image(alloc, &[], u64::MAX)?;
    let second = image(alloc, &[], u64::MAX)?;
    let mut bay = MemBay::new(Vec::from_array(alloc, [first, second])?);
    let ran = run(alloc, 2, &mut bay, script.as_str(), &[], &[])?;
    let rest =
        "queued 4 1\nsync 4\ntask 1 ok\nsync 5\nfinished scrub 3 0\nread a 1 0 0000000000000005\n";
    let want = format!(in alloc; "{BASE_REPLIES}{rest}")?;
    assert_eq!(rt; ran.replies.as_slice(), want.as_bytes());
    assert_eq!(rt; ran.status, 0);
    Ok(())
}

/// Runs a script that has a fault over two images of which the first call fails, and says with
/// which status it ended, what it put, and whether both images still stand in the bay, blank, with
/// no call made.
fn faulty(alloc: Global, script: &str) -> Result<(u8, Vec<u8>, bool), AllocError> {
    let first = image(alloc, &[], 0)?;
    let second = image(alloc, &[], 0)?;
    let mut bay = MemBay::new(Vec::from_array(alloc, [first, second])?);
    let ran = run(alloc, 2, &mut bay, script, &[], &[])?;
    let whole = is_untouched(&mut bay) && is_untouched(&mut bay);
    Ok((ran.status, ran.replies, whole))
}

/// Whether the next image of the bay is blank and was given no call: its first call is the one that
/// fails.
fn is_untouched(bay: &mut MemBay) -> bool {
    let Ok(mut image) = bay.fetch("image") else {
        return false;
    };
    let fails = image.sync().is_err();
    let bytes = image.into_bytes();
    fails && bytes.len() == 262_144 && bytes.iter().all(|byte| *byte == 0)
}

/// Scripts with a fault, the last six with a number out of its range, and what is put of each.
#[test]
fn a_faulty_script_is_told_and_touches_no_image(rt: HostRuntime) -> Result<(), Fail> {
    let cases = [
        ("pool 7 2 8 4 64\nwri a\n", "script 2 Word\n"),
        ("pool 7 5 8 4 64\n", "script 1 Number\n"),
        ("fs a\n", "script 1 Order\n"),
        ("pool 7 2 8 4 64\nwalk 0\n", "script 2 Number\n"),
        ("pool 7 2 8 4 64\nwalk 1000001\n", "script 2 Number\n"),
        ("pool 7 2 8 4 64\nhold 0 0\n", "script 2 Number\n"),
        ("pool 7 2 8 4 64\nhold 0 1025\n", "script 2 Number\n"),
        ("pool 7 2 8 4 64\nissue 256 1\n", "script 2 Number\n"),
        ("pool 7 2 8 4 64\nissue 0 0\n", "script 2 Number\n"),
    ];
    for (script, want) in cases {
        let (status, put, whole) = faulty(rt.alloc(), script)?;
        assert_eq!(rt; put.as_slice(), want.as_bytes(), "at {script}");
        assert_eq!(rt; status, 2, "at {script}");
        assert!(rt; whole, "at {script}");
    }
    Ok(())
}

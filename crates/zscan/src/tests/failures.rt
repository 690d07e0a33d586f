//! Runs in which a part of the outside fails: a device at its calls, the source, the sink, or the
//! bay.

ghost use Rattle.std.specs.Prelude.{◌≡◌, IfOk};

use crate::tests::world::{BASE, BASE_REPLIES, Ran, image, run};
use std::alloc::{AllocError, Global};
use std::test::Fail;
use zs_io::{Device, MemBay, MemDevice};

/// What is replied before the second sync of a base.
const MADE: &str = "pool 7 mirrors 1 txg 1\nqueued 2 1\nsync 2\ntask 1 ok\nwrote a 1 0 3\n";

/// What the start of a scrub is replied.
const START_REPLIES: &str = "queued 4 1\nsync 4\ntask 1 ok\n";

/// Which of two images fails, the first or else the second, and at which call, or from it on.
#[derive(Clone, Copy)]
struct Failing {
    first: bool,
    call: u64,
    onward: bool,
}

/// A blank image of 512 sectors, which fails so or not at all.
fn image_that(alloc: Global, fails: bool, failing: Failing) -> Result<MemDevice, AllocError>
    ensures { IfOk result (λ device. ⟦<MemDevice as Device>⟧.faults device ≡ 0) }
{
    if !fails {
        return image(alloc, &[], u64::MAX);
    }
    if failing.onward {
        return image(alloc, &[], failing.call);
    }
    image(alloc, &[failing.call], u64::MAX)
}

/// Runs these lines behind a base over two images of which one fails.
fn run_failing(alloc: Global, failing: Failing, lines: &str) -> Result<Ran, AllocError> {
    let script = format!(in alloc; "{BASE}{lines}")?;
    let first = image_that(alloc, failing.first, failing)?;
    let second = image_that(alloc, !failing.first, failing)?;
    let mut bay = MemBay::new(Vec::from_array(alloc, [first, second])?);
    run(alloc, 2, &mut bay, script.as_str(), &[], &[])
}

/// A head that cannot be read is not blank; a device that fails in a sync ends the run behind what
/// was put; one that fails in a check makes each of its copies an error.
#[test]
fn a_device_that_fails_from_a_call_on_has_its_ending(rt: HostRuntime) -> Result<(), Fail> {
    // Its calls are a read of its head, three writes and a sync, and then those of the checks.
    let scrub = "queued 4 1\nsync 4\ntask 1 ok\nsync 5\nfinished scrub 3 3\n";
    let cases = [
        (false, 0, 4, "refused NotBlank\n", "", ""),
        (false, 1, 4, MADE, "", ""),
        (true, 5, 0, BASE_REPLIES, "scrub\nsync\nfinish\n", scrub),
    ];
    for (first, call, status, made, lines, rest) in cases {
        let failing = Failing {
            first,
            call,
            onward: true,
        };
        let want = format!(in rt.alloc(); "{made}{rest}")?;
        let ran = run_failing(rt.alloc(), failing, lines)?;
        assert_eq!(rt; ran.replies.as_slice(), want.as_bytes(), "at {call}");
        assert_eq!(rt; ran.status, status, "at {call}");
    }
    Ok(())
}

/// A read goes on to the next copy; a rot is refused, whichever of its three calls fails; a rewrite
/// leaves an error.
#[test]
fn a_run_goes_on_behind_a_call_that_fails(rt: HostRuntime) -> Result<(), Fail> {
    // Its calls are a read of its head, three writes and a sync, the three of the rot, three reads,
    // and then the rewrite.
    let refused = "refused DeviceFault\nread a 1 0 0000000000000005\n";
    let found =
        "rot 1 312 1\nqueued 4 1\nsync 4\ntask 1 ok\nsync 5\nfinished scrub 3 1\nerrors 1\nerror 0 312 3 GF\n";
    let cases = [
        (true, 5, "read a 1 0\n", "read a 1 0 0000000000000005\n"),
        (false, 5, "rot 1 312 1\nread a 1 0\n", refused),
        (false, 6, "rot 1 312 1\nread a 1 0\n", refused),
        (false, 7, "rot 1 312 1\nread a 1 0\n", refused),
        (
            false,
            11,
            "rot 1 312 1\nscrub\nsync\nfinish\nerrors\n",
            found,
        ),
    ];
    for (first, call, lines, rest) in cases {
        let failing = Failing {
            first,
            call,
            onward: false,
        };
        let want = format!(in rt.alloc(); "{BASE_REPLIES}{rest}")?;
        let ran = run_failing(rt.alloc(), failing, lines)?;
        assert_eq!(rt; ran.replies.as_slice(), want.as_bytes(), "at {call}");
        assert_eq!(rt; ran.status, 0, "at {call}");
    }
    Ok(())
}

/// The status of a base, a scrub and `errors`, and what is put, where one image fails at one call:
/// its calls are a read of its head, three writes and a sync, and a read of each of the three
/// pieces.
fn replies_at(alloc: Global, first: bool, call: u64) -> Result<(u8, String), AllocError> {
    let letters = if first { "FG" } else { "GF" };
    let scrub = format!(in alloc; "{BASE_REPLIES}{START_REPLIES}sync 5\nfinished scrub 3")?;
    let sector = match call {
        0 => return Ok((4, String::from_str(alloc, "refused NotBlank\n")?)),
        1 | 2 | 3 | 4 => return Ok((4, String::from_str(alloc, MADE)?)),
        5 => "296",
        6 => "304",
        7 => "312",
        _ => return Ok((0, format!(in alloc; "{scrub} 0\nerrors 0\n")?)),
    };
    let errors = format!(in alloc; "{scrub} 1\nerrors 1\nerror 0 {sector} 3 {letters}\n")?;
    Ok((0, errors))
}

#[test]
fn a_device_may_fail_at_each_of_its_calls(rt: HostRuntime) -> Result<(), Fail> {
    for call in 0..10 {
        for first in [true, false] {
            let failing = Failing {
                first,
                call,
                onward: false,
            };
            let (status, want) = replies_at(rt.alloc(), first, call)?;
            let lines = "scrub\nsync\nfinish\nerrors\n";
            let ran = run_failing(rt.alloc(), failing, lines)?;
            assert_eq!(rt; ran.replies.as_slice(), want.as_bytes(), "at {call}");
            assert_eq!(rt; ran.status, status, "at {call}");
        }
    }
    Ok(())
}

/// A bay of three whole images, or of one.
fn bay_of(alloc: Global, three: bool) -> Result<MemBay, AllocError> {
    let first = image(alloc, &[], u64::MAX)?;
    if !three {
        return Ok(MemBay::new(Vec::from_array(alloc, [first])?));
    }
    let second = image(alloc, &[], u64::MAX)?;
    let third = image(alloc, &[], u64::MAX)?;
    Ok(MemBay::new(Vec::from_array(alloc, [first, second, third])?))
}

/// A source that fails ends the run without a word; a sink that fails ends it behind what was put,
/// and decides the status also where it takes no last line: the usage, a fault, or a refusal.
#[test]
fn a_failing_source_or_sink_ends_the_run(rt: HostRuntime) -> Result<(), Fail> {
    let none = [].as_slice();
    let cases = [
        (2, BASE, [0].as_slice(), none, 5, ""),
        (2, BASE, [1].as_slice(), none, 5, ""),
        (
            2,
            BASE,
            none,
            [2].as_slice(),
            6,
            "pool 7 mirrors 1 txg 1\nqueued 2 1\n",
        ),
        (0, BASE, none, [0].as_slice(), 6, ""),
        (2, "wri a\n", none, [0].as_slice(), 6, ""),
        (2, "pool 7 1 8 4 64\n", none, [0].as_slice(), 6, ""),
    ];
    for (names, script, reads, puts, status, want) in cases {
        let mut bay = bay_of(rt.alloc(), true)?;
        let ran = run(rt.alloc(), names, &mut bay, script, reads, puts)?;
        assert_eq!(rt; ran.replies.as_slice(), want.as_bytes(), "at {script}");
        assert_eq!(rt; ran.status, status, "at {script}");
    }
    Ok(())
}

/// The names for which a bay was asked, each with a comma behind it.
fn names_asked(alloc: Global, bay: &MemBay) -> Result<String, AllocError> {
    let mut asked = String::new(alloc);
    for name in bay.asked() {
        asked.push_str(name.as_str())?;
        asked.push(',')?;
    }
    Ok(asked)
}

/// A bay is asked for the images in order, whether or not they are refused, for none behind one
/// that it does not have, which ends the run without a word, and for none where the script has a
/// fault.
#[test]
fn the_images_are_asked_for_in_order(rt: HostRuntime) -> Result<(), Fail> {
    let made = "pool 7 mirrors 1 txg 1\n";
    let cases = [
        (3, true, "pool 7 3 8 4 64", 0, made, "first,second,third,"),
        (
            3,
            true,
            "pool 7 2 8 4 64",
            3,
            "refused Shape\n",
            "first,second,third,",
        ),
        (3, true, "pool", 2, "script 1 Count\n", ""),
        (3, false, "pool 7 3 8 4 64", 4, "", "first,second,"),
        (2, false, BASE, 4, "", "first,second,"),
    ];
    for (names, three, script, status, want, asked) in cases {
        let mut bay = bay_of(rt.alloc(), three)?;
        let ran = run(rt.alloc(), names, &mut bay, script, &[], &[])?;
        let names = names_asked(rt.alloc(), &bay)?;
        assert_eq!(rt; ran.replies.as_slice(), want.as_bytes(), "at {script}");
        assert_eq!(rt; names.as_str(), asked, "at {script}");
        assert_eq!(rt; ran.status, status, "at {script}");
    }
    Ok(())
}

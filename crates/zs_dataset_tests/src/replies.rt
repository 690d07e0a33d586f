//! Replies that no script gets from the program yet. The others are compared word for word where whole scripts run: in the
//! tests of `zscan` and in `outside/`.

use crate::script::SNAPSHOT;
use std::alloc::{AllocError, Global};
use std::test::Fail;
use zs_ids::{Boxed, Seq};
use zs_script::{
    Finished, IssuedPiece, Letter, Refusal, Reply, ScanKind, ScanState, ScanStatus, WalkEnd,
    WalkPlace, Walking, text,
};

/// Whether the reply to a client has the text.
fn prints(alloc: Global, by: u8, reply: Reply, wanted: &str) -> Result<bool, AllocError> {
    let given = text(alloc, by, &reply)?;
    Ok(given.as_slice() == wanted.as_bytes())
}

#[test]
fn replies_to_clients(rt: HostRuntime) -> Result<(), Fail> {
    let alloc = rt.alloc();
    let queued = Reply::Queued { txg: 2, task: 1 };
    assert!(rt; prints(alloc, 8, queued, "8 queued 2 1\n")?);
    let read = Reply::Read {
        ds: SNAPSHOT,
        object: 2047,
        leaf: 262_143,
        value: 0xfedc_ba98_7654_3210,
    };
    assert!(rt; prints(alloc, 1, read, "1 read a@s3 2047 262143 fedcba9876543210\n")?);
    assert!(rt; prints(alloc, 3, Reply::Nothing, "")?);
    Ok(())
}

#[test]
fn a_hole_and_a_sync_without_a_label(rt: HostRuntime) -> Result<(), Fail> {
    let hole = Reply::ReadHole {
        ds: SNAPSHOT,
        object: 1,
        leaf: 9,
    };
    assert!(rt; prints(rt.alloc(), 0, hole, "read a@s3 1 9 hole\n")?);
    let sync = Reply::RefusedSync {
        txg: 2,
        refusal: Refusal::NoLabelWritten,
    };
    assert!(rt; prints(rt.alloc(), 0, sync, "sync 2 refused NoLabelWritten\n")?);
    Ok(())
}

/// Whether a walk has the text.
fn walk_prints(
    alloc: Global,
    turns: u32,
    why: WalkEnd,
    waiting: &[u32],
    wanted: &str,
) -> Result<bool, AllocError> {
    let waiting = Seq::from_slice(alloc, waiting)?;
    let reply = Reply::Walked {
        turns,
        why,
        waiting,
    };
    prints(alloc, 0, reply, wanted)
}

/// Whether a batch of the second mirror has the text, in which two pieces were found like this.
fn batch_prints(
    alloc: Global,
    first: [Option<Letter>; 4],
    second: [Option<Letter>; 4],
    wanted: &str,
) -> Result<bool, AllocError> {
    let first = IssuedPiece {
        sector: 296,
        letters: first,
    };
    let second = IssuedPiece {
        sector: 312,
        letters: second,
    };
    let pieces = Seq::from_slice(alloc, &[first, second])?;
    prints(alloc, 0, Reply::Issued { vdev: 1, pieces }, wanted)
}

#[test]
fn a_second_mirror_and_a_third_device(rt: HostRuntime) -> Result<(), Fail> {
    let alloc = rt.alloc();
    let full = "walk 515 full waiting 252 260\n";
    assert!(rt; walk_prints(alloc, 515, WalkEnd::Full, &[252, 260], full)?);
    let draining = "walk 0 draining waiting 1\n";
    assert!(rt; walk_prints(alloc, 0, WalkEnd::Draining, &[1], draining)?);
    let good = [Some(Letter::Good), Some(Letter::Rewritten), None, None];
    let bad = [
        Some(Letter::Bad),
        Some(Letter::Fault),
        Some(Letter::Absent),
        None,
    ];
    assert!(rt; batch_prints(alloc, good, bad, "issue 1 2 296:GR 312:BFA\n")?);
    Ok(())
}

/// Whether a scan of this kind that stands like this has the text.
fn scan_prints(
    alloc: Global,
    kind: ScanKind,
    state: ScanState,
    walking: Option<Walking>,
    wanted: &str,
) -> Result<bool, AllocError> {
    let scan = ScanStatus {
        kind,
        state,
        checked: 5,
        errors: 1,
        waiting: 0,
        flight: 2,
        walking,
    };
    let scan = Some(Boxed::new(alloc, scan)?);
    prints(alloc, 0, Reply::Status { txg: 9, scan }, wanted)
}

/// Whether a resilver that came to its end has the text.
fn end_prints(alloc: Global, wanted: &str) -> Result<bool, AllocError> {
    let finished = Some(Finished {
        kind: ScanKind::Resilver,
        checked: 3,
        errors: 0,
    });
    let reply = Reply::Committed {
        txg: 5,
        tasks: Seq::new(alloc),
        finished,
    };
    prints(alloc, 0, reply, wanted)
}

#[test]
fn scans_that_rest(rt: HostRuntime) -> Result<(), Fail> {
    let alloc = rt.alloc();
    let walking = Walking {
        min: 4,
        max: 8,
        place: WalkPlace::Nowhere,
        todo: Seq::new(alloc),
    };
    let paused =
        "txg 9\nscan scrub paused checked 5 errors 1 waiting 0 flight 2\nrange 4 8\nat none\ntodo\n";
    assert!(rt;
        scan_prints(
            alloc,
            ScanKind::Scrub,
            ScanState::Paused,
            Some(walking),
            paused
        )?
    );
    let canceled = "txg 9\nscan resilver canceled checked 5 errors 1 waiting 0 flight 2\n";
    assert!(rt;
        scan_prints(
            alloc,
            ScanKind::Resilver,
            ScanState::Canceled,
            None,
            canceled
        )?
    );
    assert!(rt; end_prints(alloc, "sync 5\nfinished resilver 3 0\n")?);
    Ok(())
}

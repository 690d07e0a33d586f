//! What a ledger keeps of the pieces that were checked, and which errors and failed births it then lists.

use std::test::Fail;
use zs_ids::{Piece, Place};
use zs_ledger::{CopyResult, Entry, Ledger};

/// A piece of a mirror.
fn piece(vdev: u8, sector: u32, birth: u64) -> Piece {
    Piece {
        place: Place { vdev, sector },
        birth,
    }
}

/// An entry of a piece of one sector in a pool of mirrors of two devices.
fn entry(of: Piece, first: CopyResult, second: CopyResult) -> Entry {
    Entry {
        piece: of,
        sectors: 1,
        sum: [0; 32],
        copies: [first, second, CopyResult::Missing, CopyResult::Missing],
        marks: [u64::MAX; 4],
    }
}

/// Five entries: one good, one rewritten, and three with an error, of which one is on mirror 1.
fn checked() -> [Entry; 5] {
    [
        entry(piece(1, 300, 4), CopyResult::Bad, CopyResult::Bad),
        entry(piece(0, 312, 3), CopyResult::Good, CopyResult::Good),
        entry(piece(0, 320, 9), CopyResult::Good, CopyResult::Absent),
        entry(piece(0, 304, 3), CopyResult::Rewritten, CopyResult::Good),
        entry(piece(0, 320, 5), CopyResult::Good, CopyResult::Fault),
    ]
}

#[test]
fn keeps_what_was_checked(rt: HostRuntime) -> Result<(), Fail> {
    let mut ledger = Ledger::new(rt.alloc());
    assert_eq!(rt; ledger.len(), 0);
    assert!(rt; !ledger.has(piece(0, 312, 3)));
    for one in checked() {
        ledger.reserve(1)?;
        ledger.push(one);
    }
    assert_eq!(rt; ledger.len(), 5);
    assert_eq!(rt; *ledger.get(1), checked()[1]);
    assert_eq!(rt; ledger.as_slice(), checked().as_slice());
    assert!(rt; ledger.has(piece(0, 312, 3)));
    assert!(rt; !ledger.has(piece(0, 312, 4)));
    assert!(rt; !ledger.has(piece(1, 312, 3)));
    assert!(rt; !ledger.has(piece(0, 313, 3)));
    ledger.clear();
    assert_eq!(rt; ledger.len(), 0);
    assert_eq!(rt; ledger.error_count(), 0);
    assert!(rt; !ledger.has(piece(0, 312, 3)));
    Ok(())
}

#[test]
fn lists_the_errors(rt: HostRuntime) -> Result<(), Fail> {
    let mut ledger = Ledger::new(rt.alloc());
    for one in checked() {
        ledger.reserve(1)?;
        ledger.push(one);
    }
    let [bad, _, absent, _, fault] = checked();
    assert_eq!(rt; ledger.error_count(), 3);
    assert_eq!(rt;
        ledger.errors()?.as_slice(),
        [fault, absent, bad].as_slice()
    );
    assert!(rt; bad.has_error());
    assert!(rt; CopyResult::Absent.is_error());
    assert!(rt; !CopyResult::Rewritten.is_error());
    Ok(())
}

#[test]
fn finds_the_births_that_failed(rt: HostRuntime) -> Result<(), Fail> {
    let mut ledger = Ledger::new(rt.alloc());
    for one in checked() {
        ledger.reserve(1)?;
        ledger.push(one);
    }
    let second = ledger.failed_births(1, 2)?;
    assert_eq!(rt; second.count(), 2);
    assert!(rt; second.has(5));
    assert!(rt; second.has(9));
    assert_eq!(rt; ledger.failed_births(0, 2)?.count(), 0);
    let third = ledger.failed_births(2, 2)?;
    assert_eq!(rt; third.count(), 1);
    assert!(rt; third.has(4));
    assert!(rt; checked()[4].failed_on(1, 2));
    Ok(())
}

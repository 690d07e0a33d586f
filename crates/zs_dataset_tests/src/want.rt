//! What is in scope, and what is read next.

use std::alloc::{AllocError, Global};
use zs_ids::{Piece, Place, Seq};
use zs_phys::{Kind, Scope};
use zs_ranges::TxgSet;
use zs_want::{Order, Pick, Span, Want, in_scope, pick_of};

/// A span of one sector's length in which so many sectors wait.
fn span(first: u32, sectors: u64) -> Span {
    Span {
        first,
        last: first,
        sectors,
    }
}

/// A piece on a mirror, born in a transaction group.
fn piece(vdev: u8, birth: u64) -> Piece {
    Piece {
        place: Place { vdev, sector: 296 },
        birth,
    }
}

/// The scope of a scan of mirrors of two devices, from group 1 to group 9.
fn scope(kind: Kind, dirty0: Vec<TxgSet>) -> Scope {
    Scope {
        kind,
        min: 1,
        max: 9,
        width: 2,
        dirty0: Seq::from_vec(dirty0),
    }
}

/// A log that has one transaction group.
fn log(alloc: Global, txg: u64) -> Result<TxgSet, AllocError> {
    let mut log = TxgSet::new(alloc);
    log.add(txg, txg)?;
    Ok(log)
}

#[test]
fn a_scrub_has_what_is_born_within_its_ends(rt: HostRuntime) {
    let want = Want::new(in_scope);
    let scrub = scope(Kind::Scrub, Vec::new(rt.alloc()));
    assert!(rt; !want.ask(&scrub, &piece(0, 1)));
    assert!(rt; want.ask(&scrub, &piece(0, 2)));
    assert!(rt; want.ask(&scrub, &piece(0, 8)));
    assert!(rt; !want.ask(&scrub, &piece(0, 9)));
}

#[test]
fn no_scan_has_nothing(rt: HostRuntime) {
    let want = Want::new(in_scope);
    let idle = scope(Kind::Idle, Vec::new(rt.alloc()));
    assert!(rt; !want.ask(&idle, &piece(0, 2)));
}

#[test]
fn a_resilver_has_what_the_piece_s_own_mirror_lacks(rt: HostRuntime) -> Result<(), AllocError> {
    let alloc = rt.alloc();
    let want = Want::new(in_scope);
    let none = TxgSet::new(alloc);
    let logs = [none, log(alloc, 3)?, log(alloc, 4)?, TxgSet::new(alloc)];
    let resilver = scope(Kind::Resilver, Vec::from_array(alloc, logs)?);
    assert!(rt; want.ask(&resilver, &piece(0, 3)) && !want.ask(&resilver, &piece(0, 4)));
    assert!(rt; want.ask(&resilver, &piece(1, 4)) && !want.ask(&resilver, &piece(1, 3)));
    Ok(())
}

#[test]
fn by_address_the_first_span_is_read(rt: HostRuntime) {
    let pick = Pick::new(pick_of);
    assert!(rt; pick.ask(&[span(8, 1), span(9000, 5)], Order::Address) == 0);
}

#[test]
fn by_score_the_first_of_the_fullest_is_read(rt: HostRuntime) {
    let pick = Pick::new(pick_of);
    let spans = [span(8, 1), span(9000, 5), span(18_000, 4), span(27_000, 5)];
    assert!(rt; pick.ask(&spans, Order::Score) == 1);
    assert!(rt; pick.ask(&spans[2..], Order::Score) == 1);
    assert!(rt; pick_of(&[], Order::Score) == 0);
}

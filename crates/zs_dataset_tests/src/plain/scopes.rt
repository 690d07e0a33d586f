//! What a resilver has in scope.

use std::alloc::{AllocError, Global};
use zs_ids::{Piece, Place, Seq};
use zs_phys::{Kind, Scope};
use zs_ranges::TxgSet;
use zs_want::in_scope;

/// A log that has one transaction group.
fn log(alloc: Global, txg: u64) -> Result<TxgSet, AllocError> {
    let mut log = TxgSet::new(alloc);
    log.add(txg, txg)?;
    Ok(log)
}

/// A piece on a mirror, born in a transaction group.
fn piece(vdev: u8, birth: u64) -> Piece {
    Piece {
        place: Place { vdev, sector: 296 },
        birth,
    }
}

/// Of two mirrors of two devices, the second device lacks group 3 and the third group 4.
#[test]
fn a_resilver_reads_the_logs_of_the_piece_s_own_mirror(rt: HostRuntime) -> Result<(), AllocError> {
    let alloc = rt.alloc();
    let none = TxgSet::new(alloc);
    let logs = [none, log(alloc, 3)?, log(alloc, 4)?, TxgSet::new(alloc)];
    let scope = Scope {
        kind: Kind::Resilver,
        min: 0,
        max: 9,
        width: 2,
        dirty0: Seq::from_vec(Vec::from_array(alloc, logs)?),
    };
    assert!(rt; in_scope(&scope, &piece(0, 3)) && !in_scope(&scope, &piece(0, 4)));
    assert!(rt; in_scope(&scope, &piece(1, 4)) && !in_scope(&scope, &piece(1, 3)));
    Ok(())
}

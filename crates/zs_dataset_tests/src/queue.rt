//! Which pieces a queue gives first, and what it answers at its limit.

use std::test::Fail;
use zs_ids::{Item, Piece, Place};
use zs_queue::{PlainQueue, PutFault, Waiting};

/// A piece of a mirror.
fn piece(vdev: u8, sector: u32, birth: u64) -> Piece {
    Piece {
        place: Place { vdev, sector },
        birth,
    }
}

/// The item of one sector with that piece.
fn item(of: Piece) -> Item {
    Item {
        piece: of,
        sectors: 1,
        sum: [0; 32],
    }
}

/// Puts the item of a piece, through the bound; a piece that waits already is passed.
fn put<Q: Waiting>(queue: &mut Q, of: Piece) -> Result<(), PutFault> {
    if queue.has(of) {
        return Ok(());
    }
    queue.put(Item {
        piece: of,
        sectors: 1,
        sum: [0; 32],
    })?;
    Ok(())
}

#[test]
fn gives_the_lowest_of_a_mirror(rt: HostRuntime) -> Result<(), Fail> {
    let mut queue = PlainQueue::new(rt.alloc(), 8);
    for (vdev, sector, birth) in [
        (1, 320, 3),
        (0, 400, 9),
        (1, 296, 7),
        (2, 8, 1),
        (1, 304, 3),
    ] {
        assert_eq!(rt; put(&mut queue, piece(vdev, sector, birth)), Ok(()));
    }
    assert_eq!(rt; queue.count(), 5);
    assert_eq!(rt; queue.count_of(1), 3);
    let batch = queue.take(1, 2)?;
    let lowest = [item(piece(1, 296, 7)), item(piece(1, 304, 3))];
    assert_eq!(rt; batch.as_slice(), lowest.as_slice());
    assert_eq!(rt; queue.count(), 3);
    assert_eq!(rt; queue.count_of(1), 1);
    assert!(rt; !queue.has(piece(1, 296, 7)));
    assert!(rt; queue.has(piece(1, 320, 3)));
    assert_eq!(rt; queue.take(1, 9)?.len(), 1);
    assert_eq!(rt; queue.take(3, 9)?.len(), 0);
    assert_eq!(rt; queue.count(), 2);
    Ok(())
}

#[test]
fn holds_no_more_than_the_limit(rt: HostRuntime) -> Result<(), Fail> {
    let mut queue = PlainQueue::new(rt.alloc(), 2);
    assert_eq!(rt; queue.limit(), 2);
    assert_eq!(rt; put(&mut queue, piece(0, 296, 3)), Ok(()));
    assert_eq!(rt; put(&mut queue, piece(0, 304, 3)), Ok(()));
    let third = piece(0, 312, 3);
    assert_eq!(rt; put(&mut queue, third), Err(PutFault::Full));
    assert_eq!(rt; queue.count(), 2);
    assert!(rt; queue.drop_piece(piece(0, 296, 3)));
    assert!(rt; !queue.drop_piece(piece(0, 296, 3)));
    assert_eq!(rt; queue.count_of(0), 1);
    assert_eq!(rt; put(&mut queue, third), Ok(()));
    assert!(rt; queue.has(third));
    queue.clear();
    assert_eq!(rt; queue.count(), 0);
    assert_eq!(rt; queue.count_of(0), 0);
    assert!(rt; !queue.has(third));
    Ok(())
}

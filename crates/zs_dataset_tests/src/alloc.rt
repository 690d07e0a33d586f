//! Each call with ample memory, with values worked out by hand.

use std::test::Fail;
use zs_alloc::{Freed, Space, SpaceFault, Taken};
use zs_ids::{Item, Piece, Place};

/// Takes the lowest range of a mirror, and answers its first sector.
fn take(space: &mut Space, vdev: u8, sectors: u16) -> Result<u32, SpaceFault> {
    if usize::from(vdev) >= space.mirrors() || sectors == 0 {
        return Err(SpaceFault::Memory);
    }
    let place = space.take(vdev, sectors)?;
    Ok(place.sector)
}

/// Takes a range of the first mirror.
fn claim(space: &mut Space, sector: u32, sectors: u16) -> Result<(), SpaceFault> {
    if space.mirrors() == 0 || sectors == 0 {
        return Err(SpaceFault::Memory);
    }
    space.claim(Place { vdev: 0, sector }, sectors)
}

/// Gives a range of the first mirror back, where it was just taken.
fn give(space: &mut Space, sector: u32, sectors: u16) -> bool {
    if space.mirrors() == 0 {
        return false;
    }
    let place = Place { vdev: 0, sector };
    let Some(
        Taken {
            sectors: size,
            pins: 0,
            freed: Freed::Not,
        },
    ) = space.range(place)
    else {
        return false;
    };
    if size != sectors {
        return false;
    }
    space.give(place, sectors);
    true
}

/// An item on the first mirror, born in group 3.
fn item(sector: u32, sectors: u16) -> Item {
    Item {
        piece: Piece {
            place: Place { vdev: 0, sector },
            birth: 3,
        },
        sectors,
        sum: [0; 32],
    }
}

/// Frees an item's range, where it is in use.
fn free(space: &mut Space, item: &Item, t: u64) -> Result<(), SpaceFault> {
    if usize::from(item.piece.place.vdev) >= space.mirrors() {
        return Err(SpaceFault::NoSpace);
    }
    let Some(
        Taken {
            sectors,
            freed: Freed::Not,
            ..
        },
    ) = space.range(item.piece.place)
    else {
        return Err(SpaceFault::NoSpace);
    };
    if sectors != item.sectors {
        return Err(SpaceFault::NoSpace);
    }
    space.free(item, t)
}

/// Pins an item's range, where it is taken.
fn pin(space: &mut Space, item: &Item) -> Result<(), SpaceFault> {
    if usize::from(item.piece.place.vdev) >= space.mirrors() {
        return Err(SpaceFault::NoSpace);
    }
    let Some(range) = space.range(item.piece.place) else {
        return Err(SpaceFault::NoSpace);
    };
    if range.sectors != item.sectors {
        return Err(SpaceFault::NoSpace);
    }
    space.pin(item)
}

/// Takes a pin off a piece's range, where it has one.
fn unpin(space: &mut Space, piece: Piece) -> bool {
    if usize::from(piece.place.vdev) >= space.mirrors() {
        return false;
    }
    let Some(range) = space.range(piece.place) else {
        return false;
    };
    if range.pins == 0 {
        return false;
    }
    space.unpin(piece);
    true
}

#[test]
fn takes_the_lowest_range_that_fits(rt: HostRuntime) -> Result<(), Fail> {
    let mut space = Space::new(rt.alloc(), &[330, 304], 296)?;
    assert_eq!(rt; take(&mut space, 0, 8), Ok(296));
    assert_eq!(rt; take(&mut space, 0, 2), Ok(304));
    assert_eq!(rt; take(&mut space, 0, 8), Ok(306));
    assert!(rt; give(&mut space, 304, 2));
    assert_eq!(rt; take(&mut space, 0, 3), Ok(314));
    assert_eq!(rt; take(&mut space, 0, 1), Ok(304));
    assert_eq!(rt; take(&mut space, 0, 14), Err(SpaceFault::NoSpace));
    assert_eq!(rt; take(&mut space, 1, 9), Err(SpaceFault::NoSpace));
    assert_eq!(rt; take(&mut space, 1, 8), Ok(296));
    Ok(())
}

#[test]
fn takes_a_range_that_lies_over_two_parts_of_the_tree(rt: HostRuntime) -> Result<(), Fail> {
    let mut space = Space::new(rt.alloc(), &[200], 10)?;
    assert_eq!(rt; claim(&mut space, 10, 80), Ok(()));
    assert_eq!(rt; claim(&mut space, 110, 1), Ok(()));
    assert_eq!(rt; take(&mut space, 0, 21), Ok(111));
    assert_eq!(rt; take(&mut space, 0, 20), Ok(90));
    assert_eq!(rt; take(&mut space, 0, 68), Ok(132));
    assert_eq!(rt; take(&mut space, 0, 1), Err(SpaceFault::NoSpace));
    Ok(())
}

#[test]
fn claims_just_the_sectors_that_are_free(rt: HostRuntime) -> Result<(), Fail> {
    let mut space = Space::new(rt.alloc(), &[330], 296)?;
    assert_eq!(rt; claim(&mut space, 300, 4), Ok(()));
    assert_eq!(rt; claim(&mut space, 303, 1), Err(SpaceFault::NoSpace));
    assert_eq!(rt; claim(&mut space, 298, 3), Err(SpaceFault::NoSpace));
    assert_eq!(rt; claim(&mut space, 329, 2), Err(SpaceFault::NoSpace));
    assert_eq!(rt; claim(&mut space, 296, 4), Ok(()));
    assert_eq!(rt; take(&mut space, 0, 1), Ok(304));
    Ok(())
}

#[test]
fn frees_a_range_once_its_group_is_settled(rt: HostRuntime) -> Result<(), Fail> {
    let mut space = Space::new(rt.alloc(), &[304], 296)?;
    assert_eq!(rt; claim(&mut space, 296, 8), Ok(()));
    assert_eq!(rt; free(&mut space, &item(296, 8), 5), Ok(()));
    assert_eq!(rt; space.settle(4), Ok(()));
    assert_eq!(rt; take(&mut space, 0, 8), Err(SpaceFault::NoSpace));
    assert_eq!(rt; space.settle(5), Ok(()));
    assert_eq!(rt; claim(&mut space, 296, 8), Ok(()));
    Ok(())
}

#[test]
fn frees_a_pinned_range_with_its_last_pin(rt: HostRuntime) -> Result<(), Fail> {
    let mut space = Space::new(rt.alloc(), &[304], 296)?;
    let block = item(296, 8);
    assert_eq!(rt; claim(&mut space, 296, 8), Ok(()));
    assert_eq!(rt; space.reserve_pins(2), Ok(()));
    assert_eq!(rt; pin(&mut space, &block), Ok(()));
    assert_eq!(rt; free(&mut space, &block, 5), Ok(()));
    assert_eq!(rt; pin(&mut space, &block), Ok(()));
    assert_eq!(rt; space.settle(7), Ok(()));
    assert!(rt; unpin(&mut space, block.piece));
    assert_eq!(rt; claim(&mut space, 296, 8), Err(SpaceFault::NoSpace));
    assert!(rt; unpin(&mut space, block.piece));
    assert_eq!(rt; claim(&mut space, 296, 8), Ok(()));
    Ok(())
}

//! Pointers read from bytes: each fault in its order, and one that is whole.

use zs_ids::{Bp, Place};
use zs_sum::{BpFault, bp_read, bp_write, sum};

/// 64 bytes with a count, a level, a size and a birth, and all else zero.
fn bytes_with(count: u8, level: u8, sectors: u8, birth: u8) -> [u8; 64] {
    let mut bytes = [0; 64];
    bytes[0] = count;
    bytes[1] = level;
    bytes[3] = sectors;
    bytes[15] = birth;
    bytes
}

#[test]
fn no_pointer_has_no_count(rt: HostRuntime) {
    assert!(rt; bp_read(&[0; 64]) == Err(BpFault::Count));
    assert!(rt; bp_read(&bytes_with(4, 9, 0, 0)) == Err(BpFault::Count));
}

#[test]
fn level_comes_before_size(rt: HostRuntime) {
    assert!(rt; bp_read(&bytes_with(1, 4, 0, 0)) == Err(BpFault::Level));
    assert!(rt; bp_read(&bytes_with(1, 3, 0, 0)) == Err(BpFault::Size));
}

#[test]
fn size_is_at_most_256_sectors(rt: HostRuntime) {
    let mut bytes = bytes_with(1, 0, 0, 7);
    bytes[2] = 1;
    assert!(rt; bp_read(&bytes).is_ok());
    bytes[3] = 1;
    assert!(rt; bp_read(&bytes) == Err(BpFault::Size));
}

#[test]
fn pads_come_before_birth(rt: HostRuntime) {
    let mut bytes = bytes_with(1, 2, 8, 0);
    bytes[31] = 1;
    assert!(rt; bp_read(&bytes) == Err(BpFault::Pad));
    bytes[31] = 0;
    bytes[4] = 1;
    assert!(rt; bp_read(&bytes) == Err(BpFault::Pad));
    bytes[4] = 0;
    assert!(rt; bp_read(&bytes) == Err(BpFault::Birth));
}

#[test]
fn places_come_last(rt: HostRuntime) {
    let mut bytes = bytes_with(1, 2, 8, 7);
    bytes[16] = 8;
    assert!(rt; bp_read(&bytes) == Err(BpFault::Place));
    bytes[16] = 7;
    assert!(rt; bp_read(&bytes).is_ok());
    bytes[18] = 0x20;
    assert!(rt; bp_read(&bytes) == Err(BpFault::Place));
    bytes[18] = 0x1f;
    assert!(rt; bp_read(&bytes).is_ok());
    bytes[30] = 1;
    assert!(rt; bp_read(&bytes) == Err(BpFault::Place));
}

#[test]
fn three_places_are_read_as_they_were_written(rt: HostRuntime) {
    let bp = Bp {
        count: 3,
        places: [
            Place { vdev: 0, sector: 8 },
            Place {
                vdev: 7,
                sector: 2_097_151,
            },
            Place {
                vdev: 3,
                sector: 513,
            },
        ],
        sectors: 256,
        birth: 4_294_967_295,
        level: 3,
        sum: [0xcd; 32],
    };
    assert!(rt; bp_read(&bp_write(&bp)) == Ok(bp));
}

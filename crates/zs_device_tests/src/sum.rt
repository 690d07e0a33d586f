//! Sums and pointers compared with another program's answers.

use zs_ids::{Bp, Place};
use zs_sum::{bp_write, sum};

#[test]
fn sums_the_example_of_the_standard(rt: HostRuntime) {
    let want = [
        0xba, 0x78, 0x16, 0xbf, 0x8f, 0x01, 0xcf, 0xea, 0x41, 0x41, 0x40, 0xde, 0x5d, 0xae, 0x22,
        0x23, 0xb0, 0x03, 0x61, 0xa3, 0x96, 0x17, 0x7a, 0x9c, 0xb4, 0x10, 0xff, 0x61, 0xf2, 0x00,
        0x15, 0xad,
    ];
    assert!(rt; sum(b"abc".as_slice()) == want);
}

#[test]
fn writes_a_pointer(rt: HostRuntime) {
    let none = Place { vdev: 0, sector: 0 };
    let place = Place {
        vdev: 1,
        sector: 1_000_000,
    };
    let bp = Bp {
        count: 1,
        places: [place, none, none],
        sectors: 8,
        birth: 7,
        level: 2,
        sum: [0xab; 32],
    };
    let bytes = bp_write(&bp);
    let head = [
        1, 2, 0, 8, 0, 0, 0, 0, 0, 0, 0, 0, 0, 0, 0, 7, 1, 0, 0x0f, 0x42, 0x40,
    ];
    assert!(rt; bytes[..21] == head[..]);
    assert!(rt; bytes[21..32] == [0; 11][..]);
    assert!(rt; bytes[32..] == [0xab; 32][..]);
}

//! Lanes over devices in memory, with sums that another program gave.

ghost use Rattle.std.specs.Prelude.{◌≡◌, IfOk};

use std::alloc::{AllocError, Global};
use std::test::Fail;
use zs_io::{Device, MemDevice};
use zs_lane::{Children, Lane, LaneFault, Mark};

/// The SHA-256 of `abc`, as FIPS 180-4 gives it.
fn sum_of_abc() -> [u8; 32] {
    [
        0xba, 0x78, 0x16, 0xbf, 0x8f, 0x01, 0xcf, 0xea, 0x41, 0x41, 0x40, 0xde, 0x5d, 0xae, 0x22,
        0x23, 0xb0, 0x03, 0x61, 0xa3, 0x96, 0x17, 0x7a, 0x9c, 0xb4, 0x10, 0xff, 0x61, 0xf2, 0x00,
        0x15, 0xad,
    ]
}

/// A device of five bytes, whose call of this number fails.
fn device(alloc: Global, fails: u64) -> Result<MemDevice, AllocError>
    ensures { IfOk result (λ d. ⟦<MemDevice as Device>⟧.size d ≡ 5) }
{
    let bytes = Vec::from_slice(alloc, b"xabcx")?;
    let fails = Vec::from_slice(alloc, &[fails])?;
    Ok(MemDevice::new(alloc, bytes, fails, u64::MAX, false))
}

#[test]
fn each_call_adds_one_mark_and_names_its_place(rt: HostRuntime) -> Result<(), Fail> {
    let alloc = rt.alloc();
    let mut lane = Lane::new(alloc, device(alloc, 9)?);
    let mut buf = [0; 3];
    assert_eq!(rt; lane.bytes(), 5);
    assert_eq!(rt; lane.read(1, &mut buf), Ok(0));
    assert_eq!(rt; lane.write(2, &buf), Ok(1));
    assert_eq!(rt; lane.sync(), Ok(2));
    let marks = [
        Mark::Read(1, 3, sum_of_abc()),
        Mark::Wrote(2, 3, sum_of_abc()),
        Mark::Synced,
    ];
    assert_eq!(rt; lane.journal(), marks.as_slice());
    assert_eq!(rt;
        lane.into_device().into_bytes().as_slice(),
        b"xaabc".as_slice()
    );
    Ok(())
}

#[test]
fn a_failed_call_leaves_a_mark_and_names_it(rt: HostRuntime) -> Result<(), Fail> {
    let alloc = rt.alloc();
    let mut lane = Lane::new(alloc, device(alloc, 1)?);
    assert_eq!(rt; lane.sync(), Ok(0));
    assert_eq!(rt; lane.write(2, b"abc"), Err(LaneFault::Failed(1)));
    assert_eq!(rt; lane.journal(), [Mark::Synced, Mark::Failed].as_slice());
    assert_eq!(rt;
        lane.into_device().into_bytes().as_slice(),
        b"xabcx".as_slice()
    );
    Ok(())
}

#[test]
fn a_sum_is_given_and_taken_beside_the_bytes(rt: HostRuntime) -> Result<(), Fail> {
    let alloc = rt.alloc();
    let mut lane = Lane::new(alloc, device(alloc, 9)?);
    let mut buf = [0; 3];
    match lane.read_summed(1, &mut buf) {
        Ok(read) => {
            assert_eq!(rt; read.place, 0);
            assert!(rt; read.sum == sum_of_abc());
            assert_eq!(rt; lane.write_summed(2, &buf, &read.sum), Ok(1));
        }
        Err(_) => assert!(rt; false),
    }
    let marks = [
        Mark::Read(1, 3, sum_of_abc()),
        Mark::Wrote(2, 3, sum_of_abc()),
    ];
    assert_eq!(rt; lane.journal(), marks.as_slice());
    Ok(())
}

#[test]
fn a_call_on_one_device_of_a_set_is_marked_there_alone(rt: HostRuntime) -> Result<(), Fail> {
    let alloc = rt.alloc();
    let first = Lane::new(alloc, device(alloc, 9)?);
    let second = Lane::new(alloc, device(alloc, 1)?);
    let mut set = Vec::from_array(alloc, [first, second])?;
    let mut buf = [0; 3];
    assert_eq!(rt; Children::read(&mut set, 1, 1, &mut buf), Ok(0));
    assert_eq!(rt; buf, *b"abc");
    assert_eq!(rt;
        Children::write(&mut set, 1, 2, &buf),
        Err(LaneFault::Failed(1))
    );
    assert_eq!(rt; Children::sync(&mut set, 1), Ok(2));
    assert_eq!(rt; Children::sync(&mut set, 0), Ok(0));
    let marks = [Mark::Read(1, 3, sum_of_abc()), Mark::Failed, Mark::Synced];
    assert_eq!(rt; set[1].journal(), marks.as_slice());
    assert_eq!(rt; set[0].journal(), [Mark::Synced].as_slice());
    Ok(())
}

//! Mirrors of three devices in memory, of one sector each, with sums that another program gave.

ghost use Rattle.std.specs.Prelude.{◌≡◌, ◌≤◌, length, vec_len, IfOk};
ghost use Rattle.zs_mirror.specs.Mirror.{IsMirror};

use std::alloc::{AllocError, Global};
use std::test::Fail;
use zs_ids::{Item, Piece, Place};
use zs_io::{Device, MemDevice};
use zs_lane::{Children, Lane, Mark};
use zs_ledger::{CopyResult, Entry};
use zs_mirror::{Buffers, ReadFault, check, read_any, write_all};

/// The SHA-256 of 512 zeros.
fn sum_of_zeros() -> [u8; 32] {
    [
        0x07, 0x6a, 0x27, 0xc7, 0x9e, 0x5a, 0xce, 0x2a, 0x3d, 0x47, 0xf9, 0xdd, 0x2e, 0x83, 0xe4,
        0xff, 0x6e, 0xa8, 0x87, 0x2b, 0x3c, 0x22, 0x18, 0xf6, 0x6c, 0x92, 0xb8, 0x9b, 0x55, 0xf3,
        0x65, 0x60,
    ]
}

/// The SHA-256 of 512 sevens.
fn sum_of_sevens() -> [u8; 32] {
    [
        0x15, 0x93, 0x30, 0x44, 0x96, 0x0f, 0xd2, 0x3a, 0x7d, 0xaa, 0xac, 0x9c, 0xe5, 0x13, 0x55,
        0xf1, 0xf3, 0x98, 0x94, 0xd1, 0xc3, 0xfe, 0x6d, 0xe2, 0x1b, 0x59, 0xb2, 0x8c, 0xe2, 0xc7,
        0x7e, 0x77,
    ]
}

/// A block of 512 zeros.
fn item() -> Item
    ensures vdev { result.piece.place.vdev ≡ 0 }
    ensures sector { result.piece.place.sector ≡ 0 }
    ensures sectors { result.sectors ≡ 1 }
{
    let place = Place { vdev: 0, sector: 0 };
    Item {
        piece: Piece { place, birth: 1 },
        sectors: 1,
        sum: sum_of_zeros(),
    }
}

/// A device of one sector that holds this byte alone, and whose call of this number fails.
fn device(alloc: Global, byte: u8, fails: u64) -> Result<Lane<MemDevice>, AllocError>
    ensures { IfOk result (λ l. ⟦<MemDevice as Device>⟧.size l.device ≡ 512) }
{
    let bytes = vec![in alloc; byte; 512]?;
    let fails = Vec::from_slice(alloc, &[fails])?;
    Ok(Lane::new(alloc, MemDevice::new(alloc, bytes, fails, u64::MAX, false)))
}

/// A mirror of three such devices.
fn mirror(
    alloc: Global,
    bytes: [u8; 3],
    fails: [u64; 3],
) -> Result<Vec<Lane<MemDevice>>, AllocError>
    ensures three { IfOk result (λ set. vec_len set ≡ 3) }
    ensures mirror { IfOk result (λ set. IsMirror (⟦<Vec<Lane<MemDevice>> as Children>⟧.count set) 3 (record { vdev = 0; sector = 0 }) 512
        (⟦<Vec<Lane<MemDevice>> as Children>⟧.device set)) }
{
    let first = device(alloc, bytes[0], fails[0])?;
    let second = device(alloc, bytes[1], fails[1])?;
    let third = device(alloc, bytes[2], fails[2])?;
    let set = Vec::from_array(alloc, [first, second, third])?;
    Ok(set)
}

/// The mirror and the answer, after a check.
fn checked(
    alloc: Global,
    bytes: [u8; 3],
    fails: [u64; 3],
    online: u32,
) -> Result<(Vec<Lane<MemDevice>>, Entry), AllocError>
    ensures { IfOk result (λ r. vec_len r.0 ≡ 3) }
{
    let mut set = mirror(alloc, bytes, fails)?;
    let mut buffers = Buffers::new(alloc)?;
    let entry = check(&mut set, 3, online, &item(), &mut buffers)?;
    Ok((set, entry))
}

#[test]
fn a_bad_copy_is_rewritten_and_a_good_one_is_not(rt: HostRuntime) -> Result<(), Fail> {
    let (set, entry) = checked(rt.alloc(), [0, 7, 0], [9, 9, 9], 7)?;
    let letters = [
        CopyResult::Good,
        CopyResult::Rewritten,
        CopyResult::Good,
        CopyResult::Missing,
    ];
    assert_eq!(rt; entry.copies, letters);
    assert_eq!(rt; entry.marks, [0, 2, 0, u64::MAX]);
    let read = Mark::Read(0, 512, sum_of_zeros());
    let other = Mark::Read(0, 512, sum_of_sevens());
    let wrote = Mark::Wrote(0, 512, sum_of_zeros());
    assert_eq!(rt; set[0].journal(), [read].as_slice());
    assert_eq!(rt; set[1].journal(), [other, wrote, Mark::Synced].as_slice());
    assert_eq!(rt; set[2].journal(), [read].as_slice());
    Ok(())
}

#[test]
fn a_read_that_fails_is_a_fault_and_the_others_are_checked(rt: HostRuntime) -> Result<(), Fail> {
    let (set, entry) = checked(rt.alloc(), [0, 7, 0], [0, 9, 9], 7)?;
    let letters = [
        CopyResult::Fault,
        CopyResult::Rewritten,
        CopyResult::Good,
        CopyResult::Missing,
    ];
    assert_eq!(rt; entry.copies, letters);
    assert_eq!(rt; entry.marks, [0, 2, 0, u64::MAX]);
    assert_eq!(rt; set[0].journal(), [Mark::Failed].as_slice());
    Ok(())
}

#[test]
fn a_write_that_fails_is_a_fault(rt: HostRuntime) -> Result<(), Fail> {
    let (set, entry) = checked(rt.alloc(), [0, 7, 7], [9, 1, 9], 7)?;
    let letters = [
        CopyResult::Good,
        CopyResult::Fault,
        CopyResult::Rewritten,
        CopyResult::Missing,
    ];
    assert_eq!(rt; entry.copies, letters);
    assert_eq!(rt; entry.marks, [0, 1, 2, u64::MAX]);
    let other = Mark::Read(0, 512, sum_of_sevens());
    assert_eq!(rt; set[1].journal(), [other, Mark::Failed].as_slice());
    Ok(())
}

#[test]
fn a_sync_that_fails_is_a_fault(rt: HostRuntime) -> Result<(), Fail> {
    let (set, entry) = checked(rt.alloc(), [0, 7, 0], [9, 2, 9], 7)?;
    let letters = [
        CopyResult::Good,
        CopyResult::Fault,
        CopyResult::Good,
        CopyResult::Missing,
    ];
    assert_eq!(rt; entry.copies, letters);
    assert_eq!(rt; entry.marks, [0, 2, 0, u64::MAX]);
    let other = Mark::Read(0, 512, sum_of_sevens());
    let wrote = Mark::Wrote(0, 512, sum_of_zeros());
    assert_eq!(rt; set[1].journal(), [other, wrote, Mark::Failed].as_slice());
    Ok(())
}

#[test]
fn an_offline_copy_is_absent_and_not_called(rt: HostRuntime) -> Result<(), Fail> {
    let (set, entry) = checked(rt.alloc(), [0, 7, 0], [9, 9, 9], 5)?;
    let letters = [
        CopyResult::Good,
        CopyResult::Absent,
        CopyResult::Good,
        CopyResult::Missing,
    ];
    assert_eq!(rt; entry.copies, letters);
    assert_eq!(rt; entry.marks, [0, u64::MAX, 0, u64::MAX]);
    assert_eq!(rt; set[1].journal().len(), 0);
    Ok(())
}

#[test]
fn copies_are_bad_where_none_is_good(rt: HostRuntime) -> Result<(), Fail> {
    let (set, entry) = checked(rt.alloc(), [7, 7, 7], [9, 9, 9], 7)?;
    let letters = [
        CopyResult::Bad,
        CopyResult::Bad,
        CopyResult::Bad,
        CopyResult::Missing,
    ];
    assert_eq!(rt; entry.copies, letters);
    assert_eq!(rt; entry.marks, [0, 0, 0, u64::MAX]);
    let other = Mark::Read(0, 512, sum_of_sevens());
    assert_eq!(rt; set[1].journal(), [other].as_slice());
    Ok(())
}

/// The bytes in the buffer that are not zero, and the answer, after a read.
fn read(
    alloc: Global,
    bytes: [u8; 3],
    fails: [u64; 3],
    online: u32,
) -> Result<(usize, Result<[u64; 12], ReadFault>), AllocError> {
    let mut set = mirror(alloc, bytes, fails)?;
    let mut buf = [1; 512];
    let answer = read_any(&mut set, 3, online, &item(), &mut buf);
    let others = buf.iter().filter(|byte| **byte != 0).count();
    Ok((others, answer))
}

/// The places of the first three copies, and none.
fn places(first: u64, second: u64, third: u64) -> [u64; 12] {
    let mut places = [u64::MAX; 12];
    places[0] = first;
    places[1] = second;
    places[2] = third;
    places
}

#[test]
fn a_read_goes_on_to_a_copy_that_is_good(rt: HostRuntime) -> Result<(), Fail> {
    let (others, answer) = read(rt.alloc(), [7, 0, 0], [9, 9, 9], 7)?;
    assert_eq!(rt; others, 0);
    assert_eq!(rt; answer, Ok(places(0, 0, u64::MAX)));
    let (others, answer) = read(rt.alloc(), [0, 0, 0], [0, 9, 9], 5)?;
    assert_eq!(rt; others, 0);
    assert_eq!(rt; answer, Ok(places(0, u64::MAX, 0)));
    Ok(())
}

#[test]
fn a_block_is_lost_where_no_copy_is_good(rt: HostRuntime) -> Result<(), Fail> {
    let (_, answer) = read(rt.alloc(), [7, 0, 0], [9, 0, 9], 3)?;
    assert_eq!(rt; answer, Err(ReadFault::Lost(places(0, 0, u64::MAX))));
    Ok(())
}

#[test]
fn a_write_tells_which_devices_have_it_not(rt: HostRuntime) -> Result<(), Fail> {
    let alloc = rt.alloc();
    let mut set = mirror(alloc, [7, 7, 7], [9, 0, 9])?;
    let place = Place { vdev: 0, sector: 0 };
    let marks = write_all(&mut set, 3, 3, place, &[0; 512])?;
    assert_eq!(rt; marks.failed, 6);
    assert_eq!(rt; marks.places[0], 0);
    assert_eq!(rt; marks.places[1], 0);
    assert_eq!(rt; marks.places[2], u64::MAX);
    assert_eq!(rt; marks.places[15], u64::MAX);
    Ok(())
}

//! A small record, whole, cut, with each byte changed, and with what stands in it put out of order.

use crate::fault::RecordFault;
use crate::mirrors::Mirrors;
use crate::stored::{Stored, stored_of};
use std::alloc::{AllocError, Global};
use zs_phys::{At, Kind, Status};

/// One mirror of two devices.
const MIRRORS: Mirrors = Mirrors { count: 1, width: 2 };

/// Where the second dataset begins.
const SECOND_SET: usize = 84;

/// Where its first entry begins.
const FIRST_ENTRY: usize = 132;

/// Where the place of the scan stands.
const PASS: usize = 340;

/// Where the first of the checked pieces begins.
const FIRST_PIECE: usize = 416;

/// What is read when each byte in turn is 255: a letter for each fault, a dot for a record.
const FAULTS: [&[u8]; 9] = [
    b"MMMMMMMMVVVVFFFF........FFFOFFFFFFFFFFFFFFFFFFFFFFFFFFFFFFFFFFFF",
    b"FFFF............FFFF....FFFFFFFFFFFFFFFFFFFFFFFFFFFF....FFFFFFFF",
    b"FFFFFFFFFFFFFFFFFFFF........FFF..FFFFFFFFFFF....................",
    b"............FFFFFFFFFFFFFFFF........FFF..FFFFFFFFFFF............",
    b"....................FFFFFFFFFFFFFFFFFFFFFFFFFFFFFFFFFFFFFFFFFFFF",
    b"................FFFFFFFF.......F....................OOOO........",
    b"....FFFFFFFFFFFFFFFFFFFFFFFFSSSSFFFFFF......FFFFFFFFFFFF........",
    b"........................FFFFFF......FFFFFFFFFFFF................",
    b"................",
];

/// The head: group 9, next id 3, two datasets, two devices of which the second is offline.
fn put_start(out: &mut Vec<u8>) -> Result<(), AllocError> {
    out.extend_from_slice(b"ZSCANREC\x00\x00\x00\x01\x00\x00\x00\x00\x00\x00\x00\x09")?;
    out.extend_from_slice(b"\x00\x00\x00\x03\x00\x00\x00\x02\x00\x00\x00\x02\x00\x00\x00\x02")?;
    Ok(())
}

/// The origin, with no names, no parent, creation 1 and no entries.
fn put_origin(out: &mut Vec<u8>) -> Result<(), AllocError> {
    out.extend_from_slice(&[0; 32])?;
    out.extend_from_slice(b"\xff\xff\xff\xff\x00\x00\x00\x00\x00\x00\x00\x01\x00\x00\x00\x00")?;
    Ok(())
}

/// The fields of a head with id 2 and the name a7, on the origin, with two entries.
fn put_second(out: &mut Vec<u8>) -> Result<(), AllocError> {
    out.extend_from_slice(b"\x00\x00\x00\x02\x01\x02a7")?;
    out.extend_from_slice(&[0; 39])?;
    out.push(2)?;
    Ok(())
}

/// The pointers of its root, at sector 40, and of its first block of dnodes, at sector 48.
fn put_blocks(out: &mut Vec<u8>) -> Result<(), AllocError> {
    out.extend_from_slice(b"\x00\x00\x00\x00\x00\x00\x00\x00\x01\x01\x00\x08\x00\x00\x00\x00")?;
    out.extend_from_slice(b"\x00\x00\x00\x00\x00\x00\x00\x05\x00\x00\x00\x00(")?;
    out.extend_from_slice(&[0; 11])?;
    out.extend_from_slice(&[0x11; 32])?;
    out.extend_from_slice(b"\x00\x00\x00\x01\x00\x00\x00\x00\x01\x00\x00\x08\x00\x00\x00\x00")?;
    out.extend_from_slice(b"\x00\x00\x00\x00\x00\x00\x00\x05\x00\x00\x00\x000")?;
    out.extend_from_slice(&[0; 11])?;
    out.extend_from_slice(&[0x22; 32])?;
    Ok(())
}

/// The first device missed nothing, the second the groups 3, 4 and 6 to 9.
fn put_missed(out: &mut Vec<u8>) -> Result<(), AllocError> {
    out.extend_from_slice(b"\x00\x00\x00\x00\x00\x00\x00\x02")?;
    out.extend_from_slice(b"\x00\x00\x00\x00\x00\x00\x00\x03\x00\x00\x00\x00\x00\x00\x00\x04")?;
    out.extend_from_slice(b"\x00\x00\x00\x00\x00\x00\x00\x06\x00\x00\x00\x00\x00\x00\x00\x09")?;
    Ok(())
}

/// A resilver that scans, from group 2 to 8, with both devices away: at dataset 2, which is to come again, before its
/// first block of dnodes, in a pass from group 3 to 8, with the origin still to be passed.
fn put_resilver(out: &mut Vec<u8>) -> Result<(), AllocError> {
    out.extend_from_slice(b"\x02\x01\x00\x01\x00\x00\x00\x00\x00\x00\x00\x02")?;
    out.extend_from_slice(b"\x00\x00\x00\x00\x00\x00\x00\x08\x00\x00\x00\x03")?;
    out.extend_from_slice(b"\x02\x00\x00\x00\x00\x00\x00\x02\x00\x00\x00\x01\x00\x00\x00\x00")?;
    out.extend_from_slice(b"\x00\x00\x00\x00\x00\x00\x00\x03\x00\x00\x00\x00\x00\x00\x00\x08")?;
    out.extend_from_slice(b"\x00\x00\x00\x01\x00\x00\x00\x00\x00\x00\x00\x00\x00\x00\x00\x00")?;
    out.extend_from_slice(b"\x00\x00\x00\x00\x00\x00\x00\x01")?;
    out.extend_from_slice(b"\x00\x00\x00\x00\x00\x00\x00\x03\x00\x00\x00\x00\x00\x00\x00\x04")?;
    Ok(())
}

/// Two pieces that it checked: one with a good and a rewritten copy, one with a good and an absent one.
fn put_pieces(out: &mut Vec<u8>) -> Result<(), AllocError> {
    out.extend_from_slice(b"\x00\x00\x00\x02")?;
    out.extend_from_slice(b"\x00\x01\x02\x00\x00\x00\x00\x08\x00\x00\x00(\x00\x00\x00\x00")?;
    out.extend_from_slice(b"\x00\x00\x00\x00\x00\x00\x00\x05")?;
    out.extend_from_slice(&[0x11; 32])?;
    out.extend_from_slice(b"\x00\x01\x05\x00\x00\x00\x00\x08\x00\x00\x000\x00\x00\x00\x00")?;
    out.extend_from_slice(b"\x00\x00\x00\x00\x00\x00\x00\x05")?;
    out.extend_from_slice(&[0x22; 32])?;
    Ok(())
}

/// The whole record.
fn record(alloc: Global) -> Result<Vec<u8>, AllocError> {
    let mut out = Vec::new(alloc);
    put_start(&mut out)?;
    put_origin(&mut out)?;
    put_second(&mut out)?;
    put_blocks(&mut out)?;
    put_missed(&mut out)?;
    put_resilver(&mut out)?;
    put_pieces(&mut out)?;
    Ok(out)
}

/// What reading the bytes gives, as a letter.
fn letter(alloc: Global, bytes: &[u8]) -> u8 {
    match stored_of(alloc, bytes, MIRRORS) {
        Ok(_) => b'.',
        Err(RecordFault::Short) => b'S',
        Err(RecordFault::Magic) => b'M',
        Err(RecordFault::BadVersion) => b'V',
        Err(RecordFault::Field) => b'F',
        Err(RecordFault::Order) => b'O',
        Err(RecordFault::Trailing) => b'T',
        Err(RecordFault::Graph) => b'G',
        Err(RecordFault::Memory) => b'X',
    }
}

/// The record with these bytes from a place on.
fn with_bytes(alloc: Global, at: usize, bytes: &[u8]) -> Result<Vec<u8>, AllocError> {
    let mut out = record(alloc)?;
    for (i, byte) in bytes.iter().enumerate() {
        if let Some(old) = out.get_mut(at.saturating_add(i)) {
            *old = *byte;
        }
    }
    Ok(out)
}

/// What is read with these bytes from a place on, as a letter.
fn letter_with(alloc: Global, at: usize, bytes: &[u8]) -> Result<u8, AllocError> {
    let changed = with_bytes(alloc, at, bytes)?;
    Ok(letter(alloc, &changed))
}

/// Whether these letters are read as each byte in turn from `at` on is 255.
fn are_faults(alloc: Global, at: usize, letters: &[u8]) -> Result<bool, AllocError> {
    for (i, wanted) in letters.iter().enumerate() {
        if letter_with(alloc, at.saturating_add(i), &[255])? != *wanted {
            return Ok(false);
        }
    }
    Ok(true)
}

/// Whether what was read is the small record's head, datasets and devices' sets.
fn has_datasets(stored: &Stored) -> bool {
    stored.head.txg == 9
        && stored.head.next_id == 3
        && stored.head.offline == 2
        && stored.sets.len() == 2
        && stored.logs.len() == 2
        && stored.dirty0.len() == 2
}

/// Whether what was read is the small record's scan.
fn has_scan(stored: &Stored) -> bool {
    stored.running.kind == Kind::Resilver
        && stored.running.status == Status::Scanning
        && !stored.running.paused
        && stored.running.again
        && (stored.running.min, stored.running.max, stored.running.away) == (2, 8, 3)
        && matches!(stored.pass.at, At::Dataset(id, key) if id.0 == 2 && key.depth == 1)
        && (stored.pass.curmin, stored.pass.curmax) == (3, 8)
        && stored.todo.len() == 1
        && stored.ledger.len() == 2
}

#[test]
fn a_record_is_read_field_by_field(rt: HostRuntime) -> Result<(), AllocError> {
    let bytes = record(rt.alloc())?;
    match stored_of(rt.alloc(), &bytes, MIRRORS) {
        Ok(stored) => assert!(rt; has_datasets(&stored) && has_scan(&stored)),
        Err(_) => assert!(rt; false),
    }
    Ok(())
}

#[test]
fn a_record_that_is_cut_is_short_and_a_longer_one_trails(
    rt: HostRuntime,
) -> Result<(), AllocError> {
    let mut bytes = record(rt.alloc())?;
    assert!(rt; letter(rt.alloc(), &bytes) == b'.');
    bytes.push(0)?;
    assert!(rt; letter(rt.alloc(), &bytes) == b'T');
    let _trailing = bytes.pop();
    let _last = bytes.pop();
    assert!(rt; letter(rt.alloc(), &bytes) == b'S');
    bytes.clear();
    assert!(rt; letter(rt.alloc(), &bytes) == b'S');
    Ok(())
}

#[test]
fn each_byte_has_its_fault(rt: HostRuntime) -> Result<(), AllocError> {
    for (row, letters) in FAULTS.iter().enumerate() {
        assert!(rt; are_faults(rt.alloc(), 64 * row, letters)?);
    }
    Ok(())
}

#[test]
fn what_does_not_rise_is_out_of_order(rt: HostRuntime) -> Result<(), AllocError> {
    let bytes = record(rt.alloc())?;
    let mut exchanged = [0; 144];
    if let Some(entries) = bytes.get(FIRST_ENTRY..FIRST_ENTRY + 144) {
        let (first, second) = entries.split_at(72);
        exchanged[..72].copy_from_slice(second);
        exchanged[72..].copy_from_slice(first);
    }
    assert!(rt; letter_with(rt.alloc(), FIRST_ENTRY, &exchanged)? == b'O');
    assert!(rt; letter_with(rt.alloc(), SECOND_SET, &[0, 0, 0, 0])? == b'O');
    assert!(rt; letter_with(rt.alloc(), FIRST_PIECE + 56 + 8, &[0, 0, 0, 40])? == b'O');
    Ok(())
}

#[test]
fn a_dataset_that_comes_again_is_one_that_the_scan_is_at(
    rt: HostRuntime,
) -> Result<(), AllocError> {
    assert!(rt; letter_with(rt.alloc(), PASS, &[0, 0, 0, 0, 0, 0, 0, 0])? == b'F');
    assert!(rt; letter_with(rt.alloc(), PASS + 12, &[0, 0, 0, 1])? == b'.');
    Ok(())
}

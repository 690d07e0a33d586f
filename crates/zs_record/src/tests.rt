//! Parts of records, whole and with each fault.

use crate::blocks::entries_of;
use crate::fault::RecordFault;
use crate::head::{Head, head_of};
use crate::logs::logs_of;
use crate::mirrors::Mirrors;
use crate::names::name_of;
use crate::numbers::{behind_zeros, u16_of};
use crate::scan::{pass_of, running_of};
use crate::writing::put_head;
use std::alloc::AllocError;
use zs_phys::At;

/// One mirror of two devices.
const MIRRORS: Mirrors = Mirrors { count: 1, width: 2 };

#[test]
fn a_number_has_its_first_byte_first(rt: HostRuntime) {
    let bytes = [1, 2, 3];
    match u16_of(&bytes) {
        Ok((n, rest)) => assert!(rt; n == 258 && rest.len() == 1),
        Err(_) => assert!(rt; false),
    }
    assert!(rt; u16_of(&bytes[2..]).is_err());
}

#[test]
fn zeros_that_end_are_short(rt: HostRuntime) {
    assert!(rt; matches!(behind_zeros(&[1, 0], 3), Err(RecordFault::Short)));
    assert!(rt; matches!(behind_zeros(&[0, 0, 1], 3), Err(RecordFault::Field)));
    assert!(rt; behind_zeros(&[0, 0, 0, 9], 3).is_ok());
}

#[test]
fn names_are_filled_with_zeros(rt: HostRuntime) {
    let mut bytes = [0; 13];
    assert!(rt; matches!(name_of(&bytes, 1, 12), Err(RecordFault::Field)));
    assert!(rt; name_of(&bytes, 0, 12).is_ok());
    bytes[0] = 2;
    bytes[1] = b'a';
    bytes[2] = b'7';
    assert!(rt; name_of(&bytes, 1, 12).is_ok());
    assert!(rt; matches!(name_of(&bytes[..9], 1, 12), Err(RecordFault::Short)));
    bytes[2] = b'A';
    assert!(rt; matches!(name_of(&bytes, 1, 12), Err(RecordFault::Field)));
    bytes[2] = b'b';
    bytes[3] = b'c';
    assert!(rt; matches!(name_of(&bytes, 1, 12), Err(RecordFault::Field)));
    bytes[0] = 13;
    assert!(rt; matches!(name_of(&bytes[..2], 1, 12), Err(RecordFault::Field)));
}

#[test]
fn a_head_is_read_as_it_was_written(rt: HostRuntime) -> Result<(), AllocError> {
    let head = Head {
        txg: 7,
        next_id: 3,
        datasets: 2,
        offline: 2,
    };
    let mut out = Vec::new(rt.alloc());
    put_head(&mut out, MIRRORS, &head)?;
    assert!(rt; out.len() == 36);
    match head_of(&out, MIRRORS) {
        Ok((read, rest)) => assert!(rt; read == head && rest.is_empty()),
        Err(_) => assert!(rt; false),
    }
    let wider = Mirrors { count: 2, width: 2 };
    assert!(rt; matches!(head_of(&out, wider), Err(RecordFault::Field)));
    let _last = out.pop();
    assert!(rt; matches!(head_of(&out, MIRRORS), Err(RecordFault::Short)));
    Ok(())
}

#[test]
fn eight_wrong_bytes_are_no_magic(rt: HostRuntime) {
    assert!(rt; matches!(head_of(b"ZSCANREX", MIRRORS), Err(RecordFault::Magic)));
    assert!(rt; matches!(head_of(b"ZSCANRE", MIRRORS), Err(RecordFault::Short)));
    assert!(rt;
        matches!(
            head_of(b"ZSCANREC\x00\x00\x00\x02", MIRRORS),
            Err(RecordFault::BadVersion)
        )
    );
}

#[test]
fn a_mirror_keeps_a_device(rt: HostRuntime) -> Result<(), AllocError> {
    let head = Head {
        txg: 7,
        next_id: 3,
        datasets: 2,
        offline: 3,
    };
    let mut out = Vec::new(rt.alloc());
    put_head(&mut out, MIRRORS, &head)?;
    assert!(rt; matches!(head_of(&out, MIRRORS), Err(RecordFault::Field)));
    Ok(())
}

#[test]
fn keys_that_do_not_rise_come_before_their_pointers(rt: HostRuntime) {
    let root = [0; 8];
    assert!(rt; matches!(entries_of(rt.alloc(), &root, 1), Err(RecordFault::Short)));
    let mut no_key = [0; 8];
    no_key[7] = 1;
    assert!(rt; matches!(entries_of(rt.alloc(), &no_key, 1), Err(RecordFault::Field)));
    let mut pointer = [0; 72];
    assert!(rt; matches!(entries_of(rt.alloc(), &pointer, 1), Err(RecordFault::Field)));
    pointer[8] = 1;
    pointer[9] = 1;
    pointer[11] = 8;
    pointer[23] = 3;
    match entries_of(rt.alloc(), &pointer, 1) {
        Ok((entries, rest)) => assert!(rt; entries.len() == 1 && rest.is_empty()),
        Err(_) => assert!(rt; false),
    }
    let mut twice = [0; 80];
    twice[..72].copy_from_slice(&pointer);
    assert!(rt; matches!(entries_of(rt.alloc(), &twice, 2), Err(RecordFault::Order)));
}

#[test]
fn intervals_rise_with_a_gap(rt: HostRuntime) {
    let mut bytes = [0; 36];
    bytes[3] = 2;
    bytes[11] = 1;
    bytes[19] = 2;
    bytes[27] = 4;
    bytes[35] = 4;
    assert!(rt; logs_of(rt.alloc(), &bytes, 64, 9, 1).is_ok());
    assert!(rt;
        matches!(
            logs_of(rt.alloc(), &bytes, 64, 3, 1),
            Err(RecordFault::Field)
        )
    );
    assert!(rt;
        matches!(
            logs_of(rt.alloc(), &bytes, 1, 9, 1),
            Err(RecordFault::Field)
        )
    );
    bytes[27] = 3;
    assert!(rt;
        matches!(
            logs_of(rt.alloc(), &bytes, 64, 9, 1),
            Err(RecordFault::Order)
        )
    );
    bytes[27] = 5;
    assert!(rt;
        matches!(
            logs_of(rt.alloc(), &bytes, 64, 9, 1),
            Err(RecordFault::Order)
        )
    );
    bytes[3] = 3;
    bytes[27] = 4;
    assert!(rt;
        matches!(
            logs_of(rt.alloc(), &bytes, 64, 9, 1),
            Err(RecordFault::Short)
        )
    );
}

#[test]
fn a_scan_that_is_none_uses_no_field_but_away(rt: HostRuntime) {
    let mut bytes = [0; 24];
    bytes[23] = 2;
    assert!(rt; running_of(&bytes, MIRRORS, 2).is_ok());
    assert!(rt; matches!(running_of(&bytes, MIRRORS, 1), Err(RecordFault::Field)));
    bytes[11] = 1;
    assert!(rt; matches!(running_of(&bytes, MIRRORS, 2), Err(RecordFault::Field)));
    bytes[11] = 0;
    bytes[1] = 1;
    assert!(rt; matches!(running_of(&bytes[..2], MIRRORS, 2), Err(RecordFault::Field)));
}

#[test]
fn a_dataset_that_comes_again_is_one_that_the_walk_is_at(rt: HostRuntime) {
    let mut bytes = [0; 32];
    match pass_of(&bytes, true, false) {
        Ok((pass, rest)) => assert!(rt; pass.at == At::Nowhere && rest.is_empty()),
        Err(_) => assert!(rt; false),
    }
    assert!(rt; matches!(pass_of(&bytes, true, true), Err(RecordFault::Field)));
    bytes[0] = 2;
    bytes[11] = 5;
    assert!(rt; matches!(pass_of(&bytes, true, true), Err(RecordFault::Field)));
    bytes[11] = 4;
    assert!(rt; pass_of(&bytes, true, true).is_ok());
    assert!(rt; matches!(pass_of(&bytes, false, false), Err(RecordFault::Field)));
}

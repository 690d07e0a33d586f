//! The block pointer that stands in 64 bytes.

ghost use Rattle.std.specs.Prelude.{◌≡◌, ◌≤◌, ◌+◌, length};
ghost use Rattle.std.specs.Int.{w16, w32, w64};
ghost use Rattle.zs_sum.specs.Pointer.{number_at, place_at, fields_of, are_zeros, has_pads, is_place, are_places, fault_of, bp_of};

use crate::fault::BpFault;
use zs_ids::limits::{BLOCK_SECTORS, DEVICE_SECTORS};
use zs_ids::{Bp, Place};

/// The mirrors that a place may name.
const MIRRORS: u8 = 8;

/// The pointer that stands in 64 bytes, or the first fault in the order Count, Level, Size, Pad, Birth, Place. Takes
/// no memory.
#[tactic(auto, unfolding(crate::specs::Pointer::bp_of))]
pub fn bp_read(bytes: &[u8; 64]) -> Result<Bp, BpFault>
    ensures { result ≡ bp_of bytes.now }
{
    let bp = fields(bytes);
    match fault(&bp, has_pads(bytes)) {
        Some(fault) => Err(fault),
        None => Ok(bp),
    }
}

/// The fields as they stand, in range or not.
#[tactic(auto, unfolding(crate::specs::Pointer::fields_of))]
fn fields(bytes: &[u8; 64]) -> Bp
    ensures { result ≡ fields_of bytes.now }
{
    let mut sum = [0; 32];
    sum.copy_from_slice(&bytes[32..64]);
    Bp {
        count: bytes[0],
        level: bytes[1],
        sectors: u16_at(bytes, 2),
        birth: u64_at(bytes, 8),
        places: [place(bytes, 16), place(bytes, 21), place(bytes, 26)],
        sum,
    }
}

/// The place that stands in the five bytes from `at` on.
#[tactic(auto, unfolding(crate::specs::Pointer::place_at))]
fn place(bytes: &[u8], at: usize) -> Place
    requires { at + 5 ≤ length bytes.now }
    ensures { result ≡ place_at at bytes.now }
{
    Place {
        vdev: bytes[at],
        sector: u32_at(bytes, at + 1),
    }
}

/// The number that stands in the two bytes from `at` on.
fn u16_at(bytes: &[u8], at: usize) -> u16
    requires { at + 2 ≤ length bytes.now }
    ensures { result ≡ number_at w16 at bytes.now }
{
    let bytes = &bytes[at..at + 2];
    u16::from_be_bytes([bytes[0], bytes[1]])
}

/// The number that stands in the four bytes from `at` on.
fn u32_at(bytes: &[u8], at: usize) -> u32
    requires { at + 4 ≤ length bytes.now }
    ensures { result ≡ number_at w32 at bytes.now }
{
    let bytes = &bytes[at..at + 4];
    u32::from_be_bytes([bytes[0], bytes[1], bytes[2], bytes[3]])
}

/// The number that stands in the eight bytes from `at` on.
fn u64_at(bytes: &[u8], at: usize) -> u64
    requires { at + 8 ≤ length bytes.now }
    ensures { result ≡ number_at w64 at bytes.now }
{
    let bytes = &bytes[at..at + 8];
    u64::from_be_bytes([
        bytes[0], bytes[1], bytes[2], bytes[3], bytes[4], bytes[5], bytes[6], bytes[7],
    ])
}

/// Whether the bytes are zero in which a pointer has nothing.
#[tactic(auto, unfolding(crate::specs::Pointer::has_pads))]
fn has_pads(bytes: &[u8; 64]) -> bool
    ensures { result ≡ has_pads bytes.now }
{
    are_zeros(&bytes[4..8]) && bytes[31] == 0
}

fn are_zeros(bytes: &[u8]) -> bool
    ensures { result ≡ are_zeros bytes.now }
{
    bytes.iter().all(|b| *b == 0)
}

/// The first fault of a pointer with these fields, whose zeros are zero or not.
#[tactic(auto, unfolding(crate::specs::Pointer::fault_of))]
fn fault(bp: &Bp, padded: bool) -> Option<BpFault>
    ensures { result ≡ fault_of padded bp.now }
{
    if bp.count < 1 || 3 < bp.count {
        return Some(BpFault::Count);
    }
    if 3 < bp.level {
        return Some(BpFault::Level);
    }
    if bp.sectors < 1 || BLOCK_SECTORS < bp.sectors {
        return Some(BpFault::Size);
    }
    if !padded {
        return Some(BpFault::Pad);
    }
    if bp.birth == 0 {
        return Some(BpFault::Birth);
    }
    if !are_places(bp.count, bp.places) {
        return Some(BpFault::Place);
    }
    None
}

/// Whether the first places are used, as many as the count says, and the others are not.
fn are_places(count: u8, places: [Place; 3]) -> bool
    ensures { result ≡ are_places count places }
{
    let [first, second, third] = places;
    is_place(0 < count, first) && (is_place(1 < count, second) && is_place(2 < count, third))
}

/// Whether the place may be that of a block, where it is used, or is zero, where it is not.
fn is_place(used: bool, place: Place) -> bool
    ensures { result ≡ is_place used place }
{
    if used {
        place.vdev < MIRRORS && place.sector < DEVICE_SECTORS
    } else {
        place.vdev == 0 && place.sector == 0
    }
}

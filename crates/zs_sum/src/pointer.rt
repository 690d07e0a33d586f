//! The bytes of a block pointer.

ghost use Rattle.std.specs.Prelude.{◌≡◌, ◌≤◌, ◌++◌, ◌∷◌, length, drop, flat_map};
ghost use Rattle.zs_sum.specs.Pointer.{bp_bytes, place_bytes, head_bytes};

use byteorder::{BigEndian, ByteOrder};
use zs_ids::{Bp, Place};

/// The 64 bytes of a pointer.
#[tactic(auto, unfolding(crate::specs::Pointer::bp_bytes))]
pub fn bp_write(bp: &Bp) -> [u8; 64]
    ensures { result ≡ bp_bytes bp.now }
{
    let mut out = [0; 64];
    let (head, rest) = out.split_at_mut(16);
    let (places, sum) = rest.split_at_mut(16);
    head.copy_from_slice(&head_of(bp));
    places[..15].copy_from_slice(&places_of(&bp.places));
    sum.copy_from_slice(&bp.sum);
    out
}

/// The first 16 bytes.
#[tactic(auto, unfolding(crate::specs::Pointer::head_bytes))]
fn head_of(bp: &Bp) -> [u8; 16]
    ensures { result ≡ head_bytes bp.now }
{
    let mut out = [0; 16];
    out[0] = bp.count;
    out[1] = bp.level;
    BigEndian::write_u16(&mut out[2..], bp.sectors);
    BigEndian::write_u64(&mut out[8..], bp.birth);
    out
}

/// The 15 bytes of the places.
fn places_of(places: &[Place; 3]) -> [u8; 15]
    ensures { result ≡ flat_map place_bytes places.now }
{
    let mut out = [0; 15];
    let (first, rest) = out.split_at_mut(5);
    let (second, third) = rest.split_at_mut(5);
    first.copy_from_slice(&place_of(&places[0]));
    second.copy_from_slice(&place_of(&places[1]));
    third.copy_from_slice(&place_of(&places[2]));
    out
}

/// The five bytes of a place.
#[tactic(auto, unfolding(crate::specs::Pointer::place_bytes))]
fn place_of(place: &Place) -> [u8; 5]
    ensures { result ≡ place_bytes place.now }
{
    let mut out = [0; 5];
    out[0] = place.vdev;
    BigEndian::write_u32(&mut out[1..], place.sector);
    out
}

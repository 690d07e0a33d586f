// Writing a block to every device of its mirror.
ghost use Rattle.std.specs.Prelude.{◌≡◌, ◌≢◌, ◌≤◌, ◌<◌, ◌+◌, ℕ, false, length, IfOk, OnOk, OnErr};
ghost use Rattle.zs_sum.specs.Sum.{sha256};
ghost use Rattle.zs_lane.specs.Children.{Stays, OnlyOn, GoesOn};
ghost use Rattle.zs_mirror.specs.Mirror.{IsMirror, Leaves, Touched, first_of, start_of, has_bit};
ghost use Rattle.zs_mirror.specs.Calls.{WasWritten, AreWritten};

use crate::place::{first_of, has_bit, start_of};
use std::alloc::AllocError;
use zs_ids::limits::DEVICES;
use zs_ids::{Marks, Place};
use zs_lane::{Children, LaneFault};
use zs_sum::sum;

/// How the write of a copy ended.
#[derive(Clone, Copy)]
struct Put {
    /// It failed, or the device was offline.
    failed: bool,
    /// The place of the call in the device's journal; `u64::MAX` for none.
    place: u64,
}

/// Writes the bytes to a device of the set, if it is online.
#[tactic(auto, using(crate::proofs::Devices::crashes_of))]
fn write_copy<C: Children>(
    set: &mut C,
    dev: u8,
    online: u32,
    at: u64,
    bytes: &[u8],
    sum: &[u8; 32],
) -> Result<Put, AllocError>
    requires dev { dev < C.count set.old }
    requires few { dev < DEVICES }
    requires range { at + length bytes.now ≤ (C.device set.old dev).size }
    requires sum { sum.now ≡ sha256 bytes.now }
    ensures done { IfOk result (λ put. WasWritten (has_bit online dev) put.failed at bytes.now put.place (C.device set.old dev) (C.device set.new dev)) }
    ensures memory { OnErr result (Stays (C.device set.old dev) (C.device set.new dev)) }
    ensures goes_on { GoesOn (C.device set.old dev) (C.device set.new dev) }
    ensures only { OnlyOn dev (C.count set.old) (C.count set.new) (C.device set.old) (C.device set.new) }
{
    if !has_bit(online, dev) {
        return Ok(Put {
            failed: true,
            place: u64::MAX,
        });
    }
    match set.write_summed(dev, at, bytes, sum) {
        Ok(place) => Ok(Put {
            failed: false,
            place,
        }),
        Err(LaneFault::Failed(place)) => Ok(Put {
            failed: true,
            place,
        }),
        Err(LaneFault::Memory) => Err(AllocError),
    }
}

/// The mask with a device's bit set, or as it is.
fn with_bit(mask: u32, set: bool, dev: u8) -> u32
    requires few { dev < DEVICES }
    requires clear { has_bit mask dev ≡ false }
    ensures same { has_bit result dev ≡ set }
    ensures other { (e : ℕ) → e ≢ dev → has_bit result e ≡ has_bit mask e }
{
    if set {
        return mask | (1 << dev);
    }
    mask
}

/// Writes the bytes, whose sum is handed in, to each online device of the block's mirror, in order. It does not sync. Of the
/// answer, `failed` has just those devices of the mirror that were offline or whose write failed. Fails where memory is
/// wanting; some copies may then be written, or left open.
pub fn write_block<C: Children>(
    set: &mut C,
    width: u8,
    online: u32,
    place: Place,
    bytes: &[u8],
    sum: &[u8; 32],
) -> Result<Marks, AllocError>
    requires mirror { IsMirror (C.count set.old) width place (length bytes.now) (C.device set.old) }
    requires sum { sum.now ≡ sha256 bytes.now }
    ensures written { IfOk result (λ marks. AreWritten online (first_of place.vdev width) width (start_of place) bytes.now marks.failed marks.places
        (C.device set.old) (C.device set.new)) }
    ensures memory { OnErr result ((k : ℕ) → k < width → Touched (start_of place) bytes.now (C.device set.old (first_of place.vdev width + k))
        (C.device set.new (first_of place.vdev width + k))) }
    ensures leaves { Leaves (first_of place.vdev width) width (C.count set.old) (C.count set.new) (C.device set.old) (C.device set.new) }
{
    let first = first_of(place.vdev, width);
    let at = start_of(place);
    let mut failed = 0;
    let mut places = [u64::MAX; DEVICES];
    for i in 0..width {
        let put = write_copy(set, first + i, online, at, bytes, sum)?;
        failed = with_bit(failed, put.failed, first + i);
        places[usize::from(first + i)] = put.place;
    }
    Ok(Marks { failed, places })
}

/// The same where the sum is not known.
pub fn write_all<C: Children>(
    set: &mut C,
    width: u8,
    online: u32,
    place: Place,
    bytes: &[u8],
) -> Result<Marks, AllocError>
    requires { IsMirror (C.count set.old) width place (length bytes.now) (C.device set.old) }
    ensures written { IfOk result (λ marks. AreWritten online (first_of place.vdev width) width (start_of place) bytes.now marks.failed marks.places
        (C.device set.old) (C.device set.new)) }
    ensures memory { OnErr result ((k : ℕ) → k < width → Touched (start_of place) bytes.now (C.device set.old (first_of place.vdev width + k))
        (C.device set.new (first_of place.vdev width + k))) }
    ensures leaves { Leaves (first_of place.vdev width) width (C.count set.old) (C.count set.new) (C.device set.old) (C.device set.new) }
{
    let sum = sum(bytes);
    write_block(set, width, online, place, bytes, &sum)
}

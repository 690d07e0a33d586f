// Reading a copy of a block, and reading one that is good.
ghost use Rattle.std.specs.Prelude.{◌≡◌, ◌≢◌, ◌≤◌, ◌<◌, ◌+◌, ◌*◌, ℕ, true, false, length, IfOk, OnOk, IfErr, OnErr};
ghost use Rattle.zs_ids.specs.declared.limits.TheConstants.{DEVICES};
ghost use Rattle.zs_sum.specs.Sum.{sha256};
ghost use Rattle.zs_ledger.specs.declared.entry.CopyResult.TheVariants.{Good};
ghost use Rattle.zs_lane.specs.Children.{Stays, OnlyOn, GoesOn};
ghost use Rattle.zs_mirror.specs.Mirror.{Untouched, IsMirror, Leaves, first_of, start_of, size_of, has_bit};
ghost use Rattle.zs_mirror.specs.Calls.{WasRead, IsFound};
ghost use Rattle.zs_mirror.specs.Refusals.{SaysLost};

use crate::fault::ReadFault;
use crate::place::{first_of, has_bit, start_of};
use std::alloc::AllocError;
use zs_ids::Item;
use zs_lane::{Children, LaneFault};
use zs_ledger::CopyResult;

/// What became of a copy.
#[derive(Clone, Copy)]
pub(crate) struct Seen {
    /// What it is.
    pub(crate) copy: CopyResult,
    /// The place of the last call on it in the device's journal; `u64::MAX` for none.
    pub(crate) place: u64,
}

/// Whether the copy is good.
pub(crate) fn is_good(copy: CopyResult) -> bool
    ensures good { result ≡ true → copy ≡ Good }
    ensures other { result ≡ false → copy ≢ Good }
{
    matches!(copy, CopyResult::Good)
}

/// Reads the whole buffer from a device of the set, if it is online, and says whether the bytes have the sum.
#[tactic(auto, using(crate::proofs::Devices::crashes_of, crate::proofs::Devices::untouched_of, crate::proofs::Devices::unwritten_stays))]
pub(crate) fn read_copy<C: Children>(
    set: &mut C,
    dev: u8,
    online: u32,
    at: u64,
    sum: &[u8; 32],
    buf: &mut [u8],
) -> Result<Seen, AllocError>
    requires dev { dev < C.count set.old }
    requires few { dev < DEVICES }
    requires range { at + length buf.old ≤ (C.device set.old dev).size }
    ensures read { IfOk result (λ seen. WasRead (has_bit online dev) seen.copy at (length buf.old) sum.now seen.place
        (C.device set.old dev) (C.device set.new dev)) }
    ensures good { IfOk result (λ seen. seen.copy ≡ Good → sha256 buf.new ≡ sum.now) }
    ensures memory { OnErr result (Stays (C.device set.old dev) (C.device set.new dev)) }
    ensures unwritten { Untouched (C.device set.old dev) (C.device set.new dev) }
    ensures goes_on { GoesOn (C.device set.old dev) (C.device set.new dev) }
    ensures only { OnlyOn dev (C.count set.old) (C.count set.new) (C.device set.old) (C.device set.new) }
{
    if !has_bit(online, dev) {
        return Ok(Seen {
            copy: CopyResult::Absent,
            place: u64::MAX,
        });
    }
    match set.read_summed(dev, at, buf) {
        Ok(read) => {
            if read.sum == *sum {
                return Ok(Seen {
                    copy: CopyResult::Good,
                    place: read.place,
                });
            }
            Ok(Seen {
                copy: CopyResult::Bad,
                place: read.place,
            })
        }
        Err(LaneFault::Failed(place)) => Ok(Seen {
            copy: CopyResult::Fault,
            place,
        }),
        Err(LaneFault::Memory) => Err(AllocError),
    }
}

/// Reads the online copies of an item, in order, until the bytes of one have the item's sum; the buffer, which has just
/// the item's size, then holds them. The answer has for each copy the place of its call in the device's journal;
/// `u64::MAX` for none. Nothing is written. Fails with `Lost` where no copy is found, and with `Memory` where memory is
/// wanting.
pub fn read_any<C: Children>(
    set: &mut C,
    width: u8,
    online: u32,
    item: &Item,
    buf: &mut [u8],
) -> Result<[u64; 12], ReadFault>
    requires mirror { IsMirror (C.count set.old) width item.now.piece.place (length buf.old) (C.device set.old) }
    requires size { length buf.old ≡ size_of item.now }
    ensures good { OnOk result (sha256 buf.new ≡ item.now.sum) }
    ensures found { IfOk result (λ places. IsFound online (first_of item.now.piece.place.vdev width) width (start_of item.now.piece.place)
        (length buf.old) item.now.sum places (C.device set.old) (C.device set.new)) }
    ensures lost { IfErr result (λ fault. SaysLost fault online (first_of item.now.piece.place.vdev width) width (start_of item.now.piece.place)
        (length buf.old) item.now.sum (C.device set.old) (C.device set.new)) }
    ensures unwritten { (e : ℕ) → Untouched (C.device set.old e) (C.device set.new e) }
    ensures leaves { Leaves (first_of item.now.piece.place.vdev width) width (C.count set.old) (C.count set.new) (C.device set.old) (C.device set.new) }
{
    let first = first_of(item.piece.place.vdev, width);
    let at = start_of(item.piece.place);
    let mut places = [u64::MAX; 12];
    for i in 0..width {
        let seen = read_copy(set, first + i, online, at, &item.sum, buf)?;
        places[usize::from(i)] = seen.place;
        if is_good(seen.copy) {
            return Ok(places);
        }
    }
    Err(ReadFault::Lost(places))
}

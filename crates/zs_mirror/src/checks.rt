// Checking the copies of a block, and repairing those that are bad.
ghost use Rattle.std.specs.Prelude.{◌≡◌, ◌≢◌, ◌≤◌, ◌<◌, ◌+◌, ◌*◌, ◌∷◌, [], ℕ, true, false, length, IfOk, OnOk, IfErr, OnErr, slice_index_or, vec_len};
ghost use Rattle.std.specs.List.{list_any};
ghost use Rattle.zs_ids.specs.declared.limits.TheConstants.{DEVICES, WIDTH};
ghost use Rattle.zs_sum.specs.Sum.{sha256};
ghost use Rattle.zs_ledger.specs.declared.entry.CopyResult.TheVariants.{Missing, Good, Rewritten, Bad, Fault};
ghost use Rattle.zs_lane.specs.declared.mark.Mark.TheVariants.{Wrote, Synced, Failed};
ghost use Rattle.zs_lane.specs.Children.{Stays, OnlyOn, GoesOn};
ghost use Rattle.zs_mirror.specs.Mirror.{Untouched, IsMirror, Leaves, Touched, first_of, start_of, size_of, has_bit};
ghost use Rattle.zs_mirror.specs.Calls.{WasRead, AreChecked, IsChecked, MayBeRewritten, IsEntryOf};
ghost use Rattle.zs_mirror.specs.Steps.{AreRead, WasSynced, WasRewritten, WasRepaired, AreRepaired, is_good};

use crate::buffers::Buffers;
use crate::place::{first_of, start_of};
use crate::read::{Seen, is_good, read_copy};
use std::alloc::AllocError;
use zs_ids::Item;
use zs_ids::limits::SECTOR;
use zs_lane::{Children, LaneFault};
use zs_ledger::{CopyResult, Entry};

/// What became of the copies of a block.
#[derive(Clone, Copy)]
struct Copies {
    letters: [CopyResult; 4],
    marks: [u64; 4],
}

/// Reads a copy, and keeps its bytes where they have the sum.
fn keep_copy<C: Children>(
    set: &mut C,
    dev: u8,
    online: u32,
    at: u64,
    sum: &[u8; 32],
    good: &mut [u8],
    buf: &mut [u8],
) -> Result<Seen, AllocError>
    requires dev { dev < C.count set.old }
    requires few { dev < DEVICES }
    requires range { at + length buf.old ≤ (C.device set.old dev).size }
    requires size { length good.old ≡ length buf.old }
    ensures read { IfOk result (λ seen. WasRead (has_bit online dev) seen.copy at (length buf.old) sum.now seen.place
        (C.device set.old dev) (C.device set.new dev)) }
    ensures good { IfOk result (λ seen. seen.copy ≡ Good → sha256 good.new ≡ sum.now) }
    ensures kept { IfOk result (λ seen. seen.copy ≢ Good → good.new ≡ good.old) }
    ensures memory { OnErr result (Stays (C.device set.old dev) (C.device set.new dev)) }
    ensures unwritten { Untouched (C.device set.old dev) (C.device set.new dev) }
    ensures goes_on { GoesOn (C.device set.old dev) (C.device set.new dev) }
    ensures only { OnlyOn dev (C.count set.old) (C.count set.new) (C.device set.old) (C.device set.new) }
{
    let seen = read_copy(set, dev, online, at, sum, buf)?;
    if is_good(seen.copy) {
        good.copy_from_slice(buf);
    }
    Ok(seen)
}

/// Reads the copies of a mirror, in order.
fn read_copies<C: Children>(
    set: &mut C,
    first: u8,
    width: u8,
    online: u32,
    at: u64,
    sum: &[u8; 32],
    good: &mut [u8],
    buf: &mut [u8],
) -> Result<Copies, AllocError>
    requires few { (width ≤ WIDTH) × (C.count set.old ≤ DEVICES) }
    requires within { first + width ≤ C.count set.old }
    requires fits { (k : ℕ) → k < width → at + length buf.old ≤ (C.device set.old (first + k)).size }
    requires size { length good.old ≡ length buf.old }
    ensures read { IfOk result (λ copies. AreRead online first width at (length buf.old) sum.now good.new copies.letters copies.marks
        (C.device set.old) (C.device set.new)) }
    ensures four { IfOk result (λ copies. (length copies.letters ≡ 4) × (length copies.marks ≡ 4)) }
    ensures unwritten { (e : ℕ) → Untouched (C.device set.old e) (C.device set.new e) }
    ensures leaves { Leaves first width (C.count set.old) (C.count set.new) (C.device set.old) (C.device set.new) }
{
    let mut letters = [CopyResult::Missing; 4];
    let mut marks = [u64::MAX; 4];
    for i in 0..width {
        let seen = keep_copy(set, first + i, online, at, sum, good, buf)?;
        letters[usize::from(i)] = seen.copy;
        marks[usize::from(i)] = seen.place;
    }
    Ok(Copies { letters, marks })
}

/// Whether a copy is good.
fn has_good(letters: &[CopyResult; 4]) -> bool
    ensures { result ≡ list_any is_good letters.now }
{
    letters.iter().any(|copy| matches!(copy, CopyResult::Good))
}

/// Syncs a device after a write, and says what became of the copy.
#[tactic(auto, using(crate::proofs::Devices::crashes_of))]
fn sync_copy<C: Children>(set: &mut C, dev: u8) -> Result<Seen, AllocError>
    requires { dev < C.count set.old }
    ensures synced { IfOk result (λ seen. WasSynced seen.copy seen.place (C.device set.old dev) (C.device set.new dev)) }
    ensures memory { OnErr result (Stays (C.device set.old dev) (C.device set.new dev)) }
    ensures goes_on { GoesOn (C.device set.old dev) (C.device set.new dev) }
    ensures only { OnlyOn dev (C.count set.old) (C.count set.new) (C.device set.old) (C.device set.new) }
{
    match set.sync(dev) {
        Ok(place) => Ok(Seen {
            copy: CopyResult::Rewritten,
            place,
        }),
        Err(LaneFault::Failed(place)) => Ok(Seen {
            copy: CopyResult::Fault,
            place,
        }),
        Err(LaneFault::Memory) => Err(AllocError),
    }
}

/// Writes bytes that have the sum over a copy, and syncs it.
#[tactic(auto, using(crate::proofs::Devices::crashes_of))]
fn rewrite_copy<C: Children>(
    set: &mut C,
    dev: u8,
    at: u64,
    sum: &[u8; 32],
    good: &[u8],
) -> Result<Seen, AllocError>
    requires dev { dev < C.count set.old }
    requires range { at + length good.now ≤ (C.device set.old dev).size }
    requires sum { sum.now ≡ sha256 good.now }
    ensures rewritten { IfOk result (λ seen. WasRewritten seen.copy seen.place at (length good.now) sum.now good.now
        (C.device set.old dev) (C.device set.new dev)) }
    ensures memory { OnErr result (Touched at good.now (C.device set.old dev) (C.device set.new dev)) }
    ensures goes_on { GoesOn (C.device set.old dev) (C.device set.new dev) }
    ensures only { OnlyOn dev (C.count set.old) (C.count set.new) (C.device set.old) (C.device set.new) }
{
    match set.write_summed(dev, at, good, sum) {
        Ok(_) => {
            let seen = sync_copy(set, dev)?;
            Ok(seen)
        }
        Err(LaneFault::Failed(place)) => Ok(Seen {
            copy: CopyResult::Fault,
            place,
        }),
        Err(LaneFault::Memory) => Err(AllocError),
    }
}

/// Rewrites a copy that is bad, and leaves every other copy alone.
fn repair_copy<C: Children>(
    set: &mut C,
    dev: u8,
    at: u64,
    sum: &[u8; 32],
    good: &[u8],
    seen: Seen,
) -> Result<Seen, AllocError>
    requires dev { dev < C.count set.old }
    requires range { at + length good.now ≤ (C.device set.old dev).size }
    requires sum { sum.now ≡ sha256 good.now }
    ensures repaired { IfOk result (λ now. WasRepaired seen.copy seen.place now.copy now.place at (length good.now) sum.now good.now
        (C.device set.old dev) (C.device set.new dev)) }
    ensures memory { OnErr result (Touched at good.now (C.device set.old dev) (C.device set.new dev)) }
    ensures goes_on { GoesOn (C.device set.old dev) (C.device set.new dev) }
    ensures only { OnlyOn dev (C.count set.old) (C.count set.new) (C.device set.old) (C.device set.new) }
{
    match seen.copy {
        CopyResult::Bad => {
            let now = rewrite_copy(set, dev, at, sum, good)?;
            Ok(now)
        }
        CopyResult::Missing
        | CopyResult::Good
        | CopyResult::Rewritten
        | CopyResult::Fault
        | CopyResult::Absent => Ok(seen),
    }
}

/// Rewrites the copies that are bad, in order, with bytes that have the sum.
fn repair_copies<C: Children>(
    set: &mut C,
    first: u8,
    width: u8,
    at: u64,
    sum: &[u8; 32],
    good: &[u8],
    copies: Copies,
) -> Result<Copies, AllocError>
    requires few { (width ≤ WIDTH) × (C.count set.old ≤ DEVICES) }
    requires within { first + width ≤ C.count set.old }
    requires fits { (k : ℕ) → k < width → at + length good.now ≤ (C.device set.old (first + k)).size }
    requires sum { sum.now ≡ sha256 good.now }
    requires four { length copies.marks ≡ 4 }
    ensures repaired { IfOk result (λ now. AreRepaired first width at (length good.now) sum.now good.now copies.letters copies.marks now.letters now.marks
        (C.device set.old) (C.device set.new)) }
    ensures four { IfOk result (λ now. (length now.letters ≡ 4) × (length now.marks ≡ 4)) }
    ensures memory { OnErr result ((k : ℕ) → k < width → Touched at good.now (C.device set.old (first + k)) (C.device set.new (first + k))) }
    ensures leaves { Leaves first width (C.count set.old) (C.count set.new) (C.device set.old) (C.device set.new) }
{
    let mut letters = copies.letters;
    let mut marks = copies.marks;
    for i in 0..width {
        let index = usize::from(i);
        let seen = Seen {
            copy: copies.letters[index],
            place: copies.marks[index],
        };
        let now = repair_copy(set, first + i, at, sum, good, seen)?;
        letters[index] = now.copy;
        marks[index] = now.place;
    }
    Ok(Copies { letters, marks })
}

/// Reads all copies, and then rewrites those that are bad where one is good.
fn check_copies<C: Children>(
    set: &mut C,
    first: u8,
    width: u8,
    online: u32,
    at: u64,
    sum: &[u8; 32],
    good: &mut [u8],
    buf: &mut [u8],
) -> Result<Copies, AllocError>
    requires few { (width ≤ WIDTH) × (C.count set.old ≤ DEVICES) }
    requires within { first + width ≤ C.count set.old }
    requires fits { (k : ℕ) → k < width → at + length buf.old ≤ (C.device set.old (first + k)).size }
    requires size { length good.old ≡ length buf.old }
    ensures checked { IfOk result (λ copies. AreChecked online first width at (length buf.old) sum.now copies.letters copies.marks
        (C.device set.old) (C.device set.new)) }
    ensures memory { OnErr result ((k : ℕ) → k < width → MayBeRewritten at (length buf.old) sum.now
        (C.device set.old (first + k)) (C.device set.new (first + k))) }
    ensures leaves { Leaves first width (C.count set.old) (C.count set.new) (C.device set.old) (C.device set.new) }
{
    let copies = read_copies(set, first, width, online, at, sum, good, buf)?;
    if !has_good(&copies.letters) {
        return Ok(copies);
    }
    let repaired = repair_copies(set, first, width, at, sum, good, copies)?;
    Ok(repaired)
}

/// The same, in the first bytes of the buffers.
fn check_within<C: Children>(
    set: &mut C,
    first: u8,
    width: u8,
    online: u32,
    at: u64,
    size: usize,
    sum: &[u8; 32],
    good: &mut Vec<u8>,
    buf: &mut Vec<u8>,
) -> Result<Copies, AllocError>
    requires few { (width ≤ WIDTH) × (C.count set.old ≤ DEVICES) }
    requires within { first + width ≤ C.count set.old }
    requires fits { (k : ℕ) → k < width → at + size ≤ (C.device set.old (first + k)).size }
    requires size { (size ≤ vec_len good.old) × (size ≤ vec_len buf.old) }
    ensures checked { IfOk result (λ copies. AreChecked online first width at size sum.now copies.letters copies.marks
        (C.device set.old) (C.device set.new)) }
    ensures memory { OnErr result ((k : ℕ) → k < width → MayBeRewritten at size sum.now (C.device set.old (first + k)) (C.device set.new (first + k))) }
    ensures leaves { Leaves first width (C.count set.old) (C.count set.new) (C.device set.old) (C.device set.new) }
    ensures lengths { (vec_len good.new ≡ vec_len good.old) × (vec_len buf.new ≡ vec_len buf.old) }
{
    let good = &mut good[..size];
    let buf = &mut buf[..size];
    let copies = check_copies(set, first, width, online, at, sum, good, buf)?;
    Ok(copies)
}

/// Checks the copies of an item on the devices of its mirror: each is read, in order; then, where the bytes of one have
/// the item's sum, these are written over each copy whose bytes have not, and synced, in order. A good copy is not
/// written. Fails where memory is wanting; bad copies may then be rewritten, or left open.
pub fn check<C: Children>(
    set: &mut C,
    width: u8,
    online: u32,
    item: &Item,
    buffers: &mut Buffers,
) -> Result<Entry, AllocError>
    requires { IsMirror (C.count set.old) width item.now.piece.place (size_of item.now) (C.device set.old) }
    ensures entry { IfOk result (λ entry. IsEntryOf item.now entry) }
    ensures checked { IfOk result (λ entry. IsChecked online width item.now entry (C.device set.old) (C.device set.new)) }
    ensures memory { OnErr result ((k : ℕ) → k < width → MayBeRewritten (start_of item.now.piece.place) (size_of item.now) item.now.sum
        (C.device set.old (first_of item.now.piece.place.vdev width + k)) (C.device set.new (first_of item.now.piece.place.vdev width + k))) }
    ensures leaves { Leaves (first_of item.now.piece.place.vdev width) width (C.count set.old) (C.count set.new) (C.device set.old) (C.device set.new) }
{
    let first = first_of(item.piece.place.vdev, width);
    let at = start_of(item.piece.place);
    let size = SECTOR as usize * usize::from(item.sectors);
    let copies = check_within(
        set,
        first,
        width,
        online,
        at,
        size,
        &item.sum,
        &mut buffers.good,
        &mut buffers.read,
    )?;
    let letters = copies.letters;
    let marks = copies.marks;
    let sum = item.sum;
    Ok(Entry {
        piece: item.piece,
        sectors: item.sectors,
        sum,
        copies: letters,
        marks,
    })
}

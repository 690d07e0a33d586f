//! The entries of the ledger: what a scan has checked.

ghost use Rattle.std.specs.Prelude.{◌≡◌, ◌≤◌, ◌<◌, []};
ghost use Rattle.zs_record.specs.Checked.{copy_with, copy_of, copies_of, front_of, checked_of, all_checked, ledger_of};
ghost use Rattle.zs_record.specs.Reading.{Gives, GivesOrWants};

use crate::fault::RecordFault;
use crate::mirrors::Mirrors;
use crate::numbers::{sum_of, u8_within, u16_of, u32_of, u32_within, u64_within};
use std::alloc::Global;
use zs_ids::{Piece, Place};
use zs_ledger::{CopyResult, Entry, Ledger};

/// The bytes of an entry.
const ENTRY_BYTES: usize = 56;

/// What a byte says of a copy.
fn copy_with(n: u8) -> CopyResult
    ensures { result ≡ copy_with n }
{
    match n {
        0 => CopyResult::Missing,
        1 => CopyResult::Good,
        2 => CopyResult::Rewritten,
        3 => CopyResult::Bad,
        4 => CopyResult::Fault,
        _ => CopyResult::Absent,
    }
}

/// The result of a copy that the mirror has, or of one that it has not.
#[tactic(auto, unfolding(crate::specs::Checked::copy_of))]
fn copy_of(bytes: &[u8], there: bool) -> Result<(CopyResult, &[u8]), RecordFault>
    ensures { Gives (λ x. (x.0, x.1.now)) result (copy_of there bytes.now) }
{
    let least = if there { 1 } else { 0 };
    let most = if there { 5 } else { 0 };
    let (n, rest) = u8_within(bytes, least, most)?;
    Ok((copy_with(n), rest))
}

/// The results of four copies, of which a mirror of that width has the first.
#[tactic(auto, unfolding(crate::specs::Checked::copies_of))]
fn copies_of(bytes: &[u8], width: u8) -> Result<([CopyResult; 4], &[u8]), RecordFault>
    ensures { Gives (λ x. (x.0, x.1.now)) result (copies_of width bytes.now) }
{
    let (a, rest) = copy_of(bytes, 0 < width)?;
    let (b, rest) = copy_of(rest, 1 < width)?;
    let (c, rest) = copy_of(rest, 2 < width)?;
    let (d, rest) = copy_of(rest, 3 < width)?;
    Ok(([a, b, c, d], rest))
}

/// The fields before the sum, which stays zero, of a piece of one of the mirrors that was born by `last`.
#[tactic(auto, unfolding(crate::specs::Checked::front_of))]
fn front_of(bytes: &[u8], mirrors: Mirrors, last: u64) -> Result<(Entry, &[u8]), RecordFault>
    ensures { Gives (λ x. (x.0, x.1.now)) result (front_of mirrors last bytes.now) }
{
    let (vdev, rest) = u8_within(bytes, 0, mirrors.count.saturating_sub(1))?;
    let (copies, rest) = copies_of(rest, mirrors.width)?;
    let (_, rest) = u8_within(rest, 0, 0)?;
    let (sectors, rest) = u16_of(rest)?;
    let (sector, rest) = u32_of(rest)?;
    let (_, rest) = u32_within(rest, 0, 0)?;
    let (birth, rest) = u64_within(rest, 1, last)?;
    let entry = Entry {
        piece: Piece {
            place: Place { vdev, sector },
            birth,
        },
        sectors,
        sum: [0; 32],
        copies,
        marks: [u64::MAX; 4],
    };
    Ok((entry, rest))
}

/// An entry of a piece of which none in the ledger is.
#[tactic(auto, unfolding(crate::specs::Checked::checked_of))]
fn checked_of<'a>(
    bytes: &'a [u8],
    mirrors: Mirrors,
    last: u64,
    ledger: &Ledger,
) -> Result<(Entry, &'a [u8]), RecordFault>
    ensures { Gives (λ x. (x.0, x.1.now)) result (checked_of mirrors last ledger.now.entries bytes.now) }
{
    let (front, rest) = front_of(bytes, mirrors, last)?;
    if ledger.has(front.piece) {
        return Err(RecordFault::Order);
    }
    let (sum, rest) = sum_of(rest)?;
    Ok((Entry { sum, ..front }, rest))
}

/// So many entries, each of another piece. The room that is reserved is no more than the bytes can fill.
fn all_checked(
    alloc: Global,
    bytes: &[u8],
    mirrors: Mirrors,
    last: u64,
    count: u32,
) -> Result<(Ledger, &[u8]), RecordFault>
    ensures { GivesOrWants (λ x. (x.0.entries, x.1.now)) result (all_checked mirrors last count [] bytes.now) }
{
    let mut ledger = Ledger::new(alloc);
    ledger.reserve((count as usize).min(bytes.len() / ENTRY_BYTES))?;
    let mut rest = bytes;
    for _ in 0..count {
        let (entry, after) = checked_of(rest, mirrors, last, &ledger)?;
        ledger.reserve(1)?;
        ledger.push(entry);
        rest = after;
    }
    Ok((ledger, rest))
}

/// The ledger: how many entries, and they.
#[tactic(auto, unfolding(crate::specs::Checked::ledger_of))]
pub(crate) fn ledger_of(
    alloc: Global,
    bytes: &[u8],
    mirrors: Mirrors,
    last: u64,
) -> Result<(Ledger, &[u8]), RecordFault>
    ensures { GivesOrWants (λ x. (x.0.entries, x.1.now)) result (ledger_of mirrors last bytes.now) }
{
    let (count, rest) = u32_of(bytes)?;
    let (ledger, rest) = all_checked(alloc, rest, mirrors, last, count)?;
    Ok((ledger, rest))
}

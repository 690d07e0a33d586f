//! The head of a record.

ghost use Rattle.std.specs.Prelude.{◌≡◌, ◌≤◌, IfOk};
ghost use Rattle.zs_ids.specs.declared.limits.TheConstants.{MIRRORS, WIDTH, TXG_END};
ghost use Rattle.zs_record.specs.Head.{behind_magic, behind_version, offline_of, head_of};
ghost use Rattle.zs_record.specs.Reading.{Gives};

use crate::fault::RecordFault;
use crate::mirrors::{Mirrors, devices_of, is_offline};
use crate::numbers::{u32_of, u32_within, u64_within};
use zs_ids::limits::{DATASETS, TXG_END};

/// The head of a record.
#[derive(Clone, Copy, Debug, PartialEq, Eq)]
pub struct Head {
    /// The transaction group that wrote it.
    pub txg: u64,
    /// The id that the next dataset gets.
    pub next_id: u32,
    /// How many datasets follow.
    pub datasets: u32,
    /// The devices that are offline, a bit for each.
    pub offline: u32,
}

/// What follows the magic.
#[tactic(auto, unfolding(crate::specs::Head::behind_magic, crate::specs::Head::magic, crate::specs::Numbers::bytes_of))]
fn behind_magic(bytes: &[u8]) -> Result<&[u8], RecordFault>
    ensures { Gives (λ x. x.now) result (behind_magic bytes.now) }
{
    if bytes.len() < 8 {
        return Err(RecordFault::Short);
    }
    let (front, rest) = bytes.split_at(8);
    if front != b"ZSCANREC".as_slice() {
        return Err(RecordFault::Magic);
    }
    Ok(rest)
}

/// What follows the version.
#[tactic(auto, unfolding(crate::specs::Head::behind_version))]
fn behind_version(bytes: &[u8]) -> Result<&[u8], RecordFault>
    ensures { Gives (λ x. x.now) result (behind_version bytes.now) }
{
    let (version, rest) = u32_of(bytes)?;
    if version != 1 {
        return Err(RecordFault::BadVersion);
    }
    Ok(rest)
}

/// The devices that are offline.
#[tactic(auto, unfolding(crate::specs::Head::offline_of))]
fn offline_of(bytes: &[u8], mirrors: Mirrors) -> Result<(u32, &[u8]), RecordFault>
    requires few { mirrors.count ≤ MIRRORS }
    requires narrow { mirrors.width ≤ WIDTH }
    ensures { Gives (λ x. (x.0, x.1.now)) result (offline_of mirrors bytes.now) }
{
    let (mask, rest) = u32_of(bytes)?;
    if !is_offline(mirrors, mask) {
        return Err(RecordFault::Field);
    }
    Ok((mask, rest))
}

/// The head of a record of a pool with these mirrors.
#[tactic(auto, unfolding(crate::specs::Head::head_of))]
pub(crate) fn head_of(bytes: &[u8], mirrors: Mirrors) -> Result<(Head, &[u8]), RecordFault>
    requires few { mirrors.count ≤ MIRRORS }
    requires narrow { mirrors.width ≤ WIDTH }
    ensures exact { Gives (λ x. (x.0, x.1.now)) result (head_of mirrors bytes.now) }
    ensures within { IfOk result (λ x. x.0.txg ≤ TXG_END) }
{
    let devices = devices_of(mirrors);
    let rest = behind_magic(bytes)?;
    let rest = behind_version(rest)?;
    let (txg, rest) = u64_within(rest, 1, TXG_END - 1)?;
    let (next_id, rest) = u32_of(rest)?;
    let (datasets, rest) = u32_within(rest, 1, DATASETS as u32)?;
    let (_, rest) = u32_within(rest, devices, devices)?;
    let (offline, rest) = offline_of(rest, mirrors)?;
    let head = Head {
        txg,
        next_id,
        datasets,
        offline,
    };
    Ok((head, rest))
}

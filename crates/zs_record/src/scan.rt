//! The state of the scan.

ghost use Rattle.std.specs.Prelude.{◌≡◌, ◌≤◌, ◌==◌};
ghost use Rattle.zs_ids.specs.declared.limits.TheConstants.{MIRRORS, WIDTH};
ghost use Rattle.zs_record.specs.Scan.{if_used, kind_with, status_with, is_away, away_of, running_of, is_place_key, place_key_of, at_with, pass_of};
ghost use Rattle.zs_record.specs.Reading.{Gives};

use crate::blocks::key_of;
use crate::fault::RecordFault;
use crate::mirrors::{Mirrors, devices_of, is_below};
use crate::numbers::{behind_zeros, u8_within, u32_of, u32_within, u64_within};
use zs_ids::{DsId, Key};
use zs_phys::{At, Kind, Status};

/// What a record has of every scan.
#[derive(Clone, Copy, Debug, PartialEq, Eq)]
pub struct Running {
    /// Which blocks it examines.
    pub kind: Kind,
    /// Whether it runs.
    pub status: Status,
    /// Whether it is paused.
    pub paused: bool,
    /// Whether the dataset that it is at is to be passed once more.
    pub again: bool,
    /// Blocks born up to this transaction group are out of scope.
    pub min: u64,
    /// Blocks born from this transaction group on are out of scope.
    pub max: u64,
    /// The devices that were offline at some moment since it started, a bit for each.
    pub away: u32,
}

/// Where a scan is, and the pass over the dataset that it is at.
#[derive(Clone, Copy, Debug, PartialEq, Eq)]
pub struct Pass {
    /// Where it is.
    pub at: At,
    /// It visits the blocks of the dataset that are born after this transaction group.
    pub curmin: u64,
    /// It examines the blocks of the dataset that are born up to this transaction group.
    pub curmax: u64,
}

/// The greatest number of a field, or 0 where it is not used.
fn if_used(used: bool, most: u64) -> u64
    ensures { result ≡ if_used used most }
{
    if used { most } else { 0 }
}

/// The same for a field of one byte.
fn byte_if_used(used: bool, most: u8) -> u8
    ensures { result ≡ if_used used most }
{
    if used { most } else { 0 }
}

/// The kind of scan with this number.
fn kind_with(n: u8) -> Kind
    ensures { result ≡ kind_with n }
{
    if n == 0 {
        Kind::Idle
    } else if n == 1 {
        Kind::Scrub
    } else {
        Kind::Resilver
    }
}

/// The status with this number.
fn status_with(n: u8) -> Status
    ensures { result ≡ status_with n }
{
    if n == 0 {
        Status::Never
    } else if n == 1 {
        Status::Scanning
    } else if n == 2 {
        Status::Finished
    } else {
        Status::Canceled
    }
}

/// The devices that were away: some of the pool's, and all that are offline.
#[tactic(auto, unfolding(crate::specs::Scan::away_of))]
fn away_of(bytes: &[u8], mirrors: Mirrors, offline: u32) -> Result<(u32, &[u8]), RecordFault>
    requires few { mirrors.count ≤ MIRRORS }
    requires narrow { mirrors.width ≤ WIDTH }
    ensures { Gives (λ x. (x.0, x.1.now)) result (away_of mirrors offline bytes.now) }
{
    let (away, rest) = u32_of(bytes)?;
    if !is_away(mirrors, offline, away) {
        return Err(RecordFault::Field);
    }
    Ok((away, rest))
}

/// Whether the mask has some of the pool's devices, and all that are offline.
fn is_away(mirrors: Mirrors, offline: u32, away: u32) -> bool
    requires few { mirrors.count ≤ MIRRORS }
    requires narrow { mirrors.width ≤ WIDTH }
    ensures { result ≡ is_away mirrors offline away }
{
    is_below(away, devices_of(mirrors)) && offline & away == offline
}

/// What a record has of every scan.
#[tactic(auto, unfolding(crate::specs::Scan::running_of))]
pub(crate) fn running_of(
    bytes: &[u8],
    mirrors: Mirrors,
    offline: u32,
) -> Result<(Running, &[u8]), RecordFault>
    requires few { mirrors.count ≤ MIRRORS }
    requires narrow { mirrors.width ≤ WIDTH }
    ensures { Gives (λ x. (x.0, x.1.now)) result (running_of mirrors offline bytes.now) }
{
    let (kind, rest) = u8_within(bytes, 0, 2)?;
    let (status, rest) = u8_within(rest, byte_if_used(0 < kind, 1), byte_if_used(0 < kind, 3))?;
    let (paused, rest) = u8_within(rest, 0, byte_if_used(kind == 1 && status == 1, 1))?;
    let (again, rest) = u8_within(rest, 0, byte_if_used(status == 1, 1))?;
    let (min, rest) = u64_within(rest, 0, if_used(0 < kind, u64::MAX))?;
    let (max, rest) = u64_within(rest, 0, if_used(0 < kind, u64::MAX))?;
    let (away, rest) = away_of(rest, mirrors, offline)?;
    let running = Running {
        kind: kind_with(kind),
        status: status_with(status),
        paused: paused == 1,
        again: again == 1,
        min,
        max,
        away,
    };
    Ok((running, rest))
}

/// Whether a walk may be at the key, where it is in a dataset; whether it is all zero, where it is in none.
fn is_place_key(used: bool, key: Key) -> bool
    ensures { result ≡ is_place_key used key }
{
    if used {
        key.depth <= 4
    } else {
        key.object == 0 && (key.rank == 0 && (key.leaf == 0 && key.depth == 0))
    }
}

/// The key at which a walk is in a dataset; all zero where it is in none.
#[tactic(auto, unfolding(crate::specs::Scan::place_key_of))]
fn place_key_of(bytes: &[u8], used: bool) -> Result<(Key, &[u8]), RecordFault>
    ensures { Gives (λ x. (x.0, x.1.now)) result (place_key_of used bytes.now) }
{
    let (key, rest) = key_of(bytes)?;
    if !is_place_key(used, key) {
        return Err(RecordFault::Field);
    }
    Ok((key, rest))
}

/// Where the walk is.
fn at_with(n: u8, id: DsId, key: Key) -> At
    ensures { result ≡ at_with n id key }
{
    if n == 0 {
        At::Nowhere
    } else if n == 1 {
        At::Destroyed
    } else {
        At::Dataset(id, key)
    }
}

/// Where the walk of a scan is that runs or not, and its pass.
#[tactic(auto, unfolding(crate::specs::Scan::pass_of))]
pub(crate) fn pass_of(
    bytes: &[u8],
    scanning: bool,
    again: bool,
) -> Result<(Pass, &[u8]), RecordFault>
    ensures { Gives (λ x. (x.0, x.1.now)) result (pass_of scanning again bytes.now) }
{
    let (place, rest) = u8_within(bytes, byte_if_used(again, 2), byte_if_used(scanning, 2))?;
    let inside = place == 2;
    let rest = behind_zeros(rest, 3)?;
    let latest = if inside { u32::MAX } else { 0 };
    let (id, rest) = u32_within(rest, 0, latest)?;
    let (key, rest) = place_key_of(rest, inside)?;
    let (curmin, rest) = u64_within(rest, 0, if_used(inside, u64::MAX))?;
    let (curmax, rest) = u64_within(rest, 0, if_used(inside, u64::MAX))?;
    let pass = Pass {
        at: at_with(place, DsId(id), key),
        curmin,
        curmax,
    };
    Ok((pass, rest))
}

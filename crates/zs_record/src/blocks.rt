//! Keys and pointers: the entries of a dataset.

ghost use Rattle.std.specs.Prelude.{◌≡◌, ◌≤◌, ◌<◌, ◌-◌, ◌^◌};
ghost use Rattle.zs_record.specs.Blocks.{key_of, is_key, is_top, is_leaf, level_at, is_size_at, is_behind, key_behind, pointer_of, pointer_at, entry_of, entries_of};
ghost use Rattle.zs_record.specs.Reading.{Gives, GivesOrWants};

use crate::fault::RecordFault;
use crate::numbers::{u8_of, u16_of, u32_of};
use std::alloc::Global;
use zs_ids::limits::OBJECTS;
use zs_ids::{Bp, Key};
use zs_sum::bp_read;

/// The leaves that an object may have.
const LEAVES: u32 = 262_144;

/// The bytes of an entry.
const ENTRY_BYTES: usize = 72;

/// A key, of a block or not.
#[tactic(auto, unfolding(crate::specs::Blocks::key_of))]
pub(crate) fn key_of(bytes: &[u8]) -> Result<(Key, &[u8]), RecordFault>
    ensures { Gives (λ x. (x.0, x.1.now)) result (key_of bytes.now) }
{
    let (object, rest) = u16_of(bytes)?;
    let (rank, rest) = u8_of(rest)?;
    let (depth, rest) = u8_of(rest)?;
    let (leaf, rest) = u32_of(rest)?;
    let key = Key {
        object,
        rank,
        leaf,
        depth,
    };
    Ok((key, rest))
}

/// Whether some block has the key.
#[tactic(auto, unfolding(crate::specs::Blocks::is_key))]
fn is_key(key: Key) -> bool
    ensures { result ≡ is_key key }
{
    if key.rank == 0 {
        return key.leaf == 0 && is_top(key);
    }
    key.rank == 1
        && (key.object != 0
            && (key.object <= OBJECTS && (key.depth <= 3 && is_leaf(key.leaf, key.depth))))
}

/// Whether a root or a block of dnodes has the key, whose rank and leaf are 0.
fn is_top(key: Key) -> bool
    ensures { result ≡ is_top key }
{
    if key.depth == 0 {
        key.object == 0
    } else {
        key.depth == 1 && (key.object % 32 == 0 && key.object <= OBJECTS)
    }
}

/// Whether a block at that depth, at most 3, may begin at the leaf.
#[tactic(auto, unfolding(crate::specs::Blocks::is_leaf))]
fn is_leaf(leaf: u32, depth: u8) -> bool
    requires { depth ≤ 3 }
    ensures { result ≡ is_leaf leaf depth }
{
    leaf < LEAVES && leaf % span_of(depth) == 0
}

/// How many leaves a block at that depth covers.
fn span_of(depth: u8) -> u32
    requires { depth ≤ 3 }
    ensures span { result ≡ 64 ^ (3 - depth) }
    ensures positive { 0 < result }
{
    match depth {
        0 => 262_144,
        1 => 4096,
        2 => 64,
        _ => 1,
    }
}

/// The level of the block at the key.
fn level_at(key: Key) -> u8
    ensures { result ≡ level_at key }
{
    if key.rank == 0 {
        1u8.saturating_sub(key.depth)
    } else {
        3u8.saturating_sub(key.depth)
    }
}

/// Whether the block at the key may have so many sectors.
fn is_size_at(key: Key, sectors: u16) -> bool
    ensures { result ≡ is_size_at key sectors }
{
    if key.rank == 1 && key.depth == 3 {
        sectors.is_power_of_two()
    } else {
        sectors == 8
    }
}

/// Whether the key stands behind the last one.
fn is_behind(last: Option<Key>, key: Key) -> bool
    ensures { result ≡ is_behind last key }
{
    match last {
        None => true,
        Some(last) => last < key,
    }
}

/// A key of some block, behind the last one.
#[tactic(auto, unfolding(crate::specs::Blocks::key_behind))]
fn key_behind(bytes: &[u8], last: Option<Key>) -> Result<(Key, &[u8]), RecordFault>
    ensures { Gives (λ x. (x.0, x.1.now)) result (key_behind last bytes.now) }
{
    let (key, rest) = key_of(bytes)?;
    if !is_key(key) {
        return Err(RecordFault::Field);
    }
    if !is_behind(last, key) {
        return Err(RecordFault::Order);
    }
    Ok((key, rest))
}

/// A pointer with one place.
#[tactic(auto, unfolding(crate::specs::Blocks::pointer_of, crate::specs::Numbers::bytes_of))]
fn pointer_of(bytes: &[u8]) -> Result<(Bp, &[u8]), RecordFault>
    ensures { Gives (λ x. (x.0, x.1.now)) result (pointer_of bytes.now) }
{
    if bytes.len() < 64 {
        return Err(RecordFault::Short);
    }
    let (front, rest) = bytes.split_at(64);
    let mut text = [0; 64];
    text.copy_from_slice(front);
    match bp_read(&text) {
        Ok(bp) if bp.count == 1 => Ok((bp, rest)),
        _ => Err(RecordFault::Field),
    }
}

/// The pointer of the block at the key.
#[tactic(auto, unfolding(crate::specs::Blocks::pointer_at))]
fn pointer_at(bytes: &[u8], key: Key) -> Result<(Bp, &[u8]), RecordFault>
    ensures { Gives (λ x. (x.0, x.1.now)) result (pointer_at key bytes.now) }
{
    let (bp, rest) = pointer_of(bytes)?;
    if bp.level != level_at(key) || !is_size_at(key, bp.sectors) {
        return Err(RecordFault::Field);
    }
    Ok((bp, rest))
}

/// An entry behind the last key.
#[tactic(auto, unfolding(crate::specs::Blocks::entry_of))]
fn entry_of(bytes: &[u8], last: Option<Key>) -> Result<((Key, Bp), &[u8]), RecordFault>
    ensures { Gives (λ x. (x.0, x.1.now)) result (entry_of last bytes.now) }
{
    let (key, rest) = key_behind(bytes, last)?;
    let (bp, rest) = pointer_at(rest, key)?;
    Ok(((key, bp), rest))
}

/// So many entries, their keys rising. The room that is reserved is no more than the bytes can fill.
pub(crate) fn entries_of(
    alloc: Global,
    bytes: &[u8],
    count: u32,
) -> Result<(Vec<(Key, Bp)>, &[u8]), RecordFault>
    ensures { GivesOrWants (λ x. (x.0.items, x.1.now)) result (entries_of count None bytes.now) }
{
    let room = (count as usize).min(bytes.len() / ENTRY_BYTES);
    let mut entries = Vec::with_capacity(alloc, room)?;
    let mut last = None;
    let mut rest = bytes;
    for _ in 0..count {
        let (entry, after) = entry_of(rest, last)?;
        entries.push(entry)?;
        last = Some(entry.0);
        rest = after;
    }
    Ok((entries, rest))
}

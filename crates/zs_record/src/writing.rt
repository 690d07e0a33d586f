//! Writing the parts of a record behind what is written already.

ghost use Rattle.std.specs.Prelude.{◌≡◌, ◌<◌, ◌≤◌, ◌^◌, ◌++◌, length, flat_map, OnOk};
ghost use Rattle.std.specs.Int.{w8, w16, w32, w64};
ghost use Rattle.zs_record.specs.Checked.{number_of_copy};
ghost use Rattle.zs_record.specs.Head.{magic};
ghost use Rattle.zs_record.specs.Numbers.{number_bytes};
ghost use Rattle.zs_record.specs.Spelling.{name_bytes, key_bytes, entry_bytes, interval_bytes, set_bytes, copy_bytes, checked_bytes, ledger_bytes, head_bytes, number_of_parent, set_head_bytes, stored_set_bytes};

use crate::head::Head;
use crate::mirrors::{Mirrors, devices_of};
use crate::sets::{SetHead, StoredSet};
use std::alloc::AllocError;
use zs_ids::{Bp, DsId, Key, Name};
use zs_ledger::{CopyResult, Entry};
use zs_ranges::Interval;
use zs_sum::bp_write;

/// Writes a number of one byte.
#[tactic(auto, unfolding(crate::specs::Numbers::number_bytes))]
pub(crate) fn put_u8(out: &mut Vec<u8>, n: u8) -> Result<(), AllocError>
    ensures { OnOk result (out.new.items ≡ out.old.items ++ number_bytes w8 n) }
{
    out.extend_from_slice(&n.to_be_bytes())?;
    Ok(())
}

/// Writes a number of two bytes.
#[tactic(auto, unfolding(crate::specs::Numbers::number_bytes))]
pub(crate) fn put_u16(out: &mut Vec<u8>, n: u16) -> Result<(), AllocError>
    ensures { OnOk result (out.new.items ≡ out.old.items ++ number_bytes w16 n) }
{
    out.extend_from_slice(&n.to_be_bytes())?;
    Ok(())
}

/// Writes a number of four bytes.
#[tactic(auto, unfolding(crate::specs::Numbers::number_bytes))]
pub(crate) fn put_u32(out: &mut Vec<u8>, n: u32) -> Result<(), AllocError>
    ensures { OnOk result (out.new.items ≡ out.old.items ++ number_bytes w32 n) }
{
    out.extend_from_slice(&n.to_be_bytes())?;
    Ok(())
}

/// Writes a number of eight bytes.
#[tactic(auto, unfolding(crate::specs::Numbers::number_bytes))]
pub(crate) fn put_u64(out: &mut Vec<u8>, n: u64) -> Result<(), AllocError>
    ensures { OnOk result (out.new.items ≡ out.old.items ++ number_bytes w64 n) }
{
    out.extend_from_slice(&n.to_be_bytes())?;
    Ok(())
}

/// Writes a name.
#[tactic(auto, unfolding(crate::specs::Spelling::name_bytes))]
fn put_name(out: &mut Vec<u8>, name: Name) -> Result<(), AllocError>
    ensures { OnOk result (out.new.items ≡ out.old.items ++ name_bytes name) }
{
    put_u8(out, name.len)?;
    out.extend_from_slice(&name.bytes)?;
    Ok(())
}

/// Writes a key.
#[tactic(auto, unfolding(crate::specs::Spelling::key_bytes))]
pub(crate) fn put_key(out: &mut Vec<u8>, key: Key) -> Result<(), AllocError>
    ensures { OnOk result (out.new.items ≡ out.old.items ++ key_bytes key) }
{
    put_u16(out, key.object)?;
    put_u8(out, key.rank)?;
    put_u8(out, key.depth)?;
    put_u32(out, key.leaf)?;
    Ok(())
}

/// Writes an entry.
#[tactic(auto, unfolding(crate::specs::Spelling::entry_bytes))]
fn put_entry(out: &mut Vec<u8>, key: Key, bp: &Bp) -> Result<(), AllocError>
    ensures { OnOk result (out.new.items ≡ out.old.items ++ entry_bytes (key, bp.now)) }
{
    put_key(out, key)?;
    out.extend_from_slice(&bp_write(bp))?;
    Ok(())
}

/// Writes entries.
fn put_entries(out: &mut Vec<u8>, entries: &[(Key, Bp)]) -> Result<(), AllocError>
    ensures { OnOk result (out.new.items ≡ out.old.items ++ flat_map entry_bytes entries.now) }
{
    for entry in entries {
        put_entry(out, entry.0, &entry.1)?;
    }
    Ok(())
}

/// Writes an interval.
#[tactic(auto, unfolding(crate::specs::Spelling::interval_bytes))]
fn put_interval(out: &mut Vec<u8>, span: Interval) -> Result<(), AllocError>
    ensures { OnOk result (out.new.items ≡ out.old.items ++ interval_bytes span) }
{
    put_u64(out, span.first)?;
    put_u64(out, span.last)?;
    Ok(())
}

/// Writes intervals.
fn put_intervals(out: &mut Vec<u8>, spans: &[Interval]) -> Result<(), AllocError>
    ensures { OnOk result (out.new.items ≡ out.old.items ++ flat_map interval_bytes spans.now) }
{
    for span in spans {
        put_interval(out, *span)?;
    }
    Ok(())
}

/// Writes a set.
#[tactic(auto, unfolding(crate::specs::Spelling::set_bytes))]
pub(crate) fn put_set(out: &mut Vec<u8>, spans: &[Interval]) -> Result<(), AllocError>
    requires { length spans.now < 2 ^ 32 }
    ensures { OnOk result (out.new.items ≡ out.old.items ++ set_bytes spans.now) }
{
    put_u32(out, spans.len() as u32)?;
    put_intervals(out, spans)?;
    Ok(())
}

/// The byte of a copy's result.
fn number_of_copy(copy: CopyResult) -> u8
    ensures { result ≡ number_of_copy copy }
{
    match copy {
        CopyResult::Missing => 0,
        CopyResult::Good => 1,
        CopyResult::Rewritten => 2,
        CopyResult::Bad => 3,
        CopyResult::Fault => 4,
        CopyResult::Absent => 5,
    }
}

/// Writes the result of a copy.
#[tactic(auto, unfolding(crate::specs::Spelling::copy_bytes))]
fn put_copy(out: &mut Vec<u8>, copy: CopyResult) -> Result<(), AllocError>
    ensures { OnOk result (out.new.items ≡ out.old.items ++ copy_bytes copy) }
{
    put_u8(out, number_of_copy(copy))?;
    Ok(())
}

/// Writes the results of copies.
fn put_copies(out: &mut Vec<u8>, copies: &[CopyResult]) -> Result<(), AllocError>
    ensures { OnOk result (out.new.items ≡ out.old.items ++ flat_map copy_bytes copies.now) }
{
    for copy in copies {
        put_copy(out, *copy)?;
    }
    Ok(())
}

/// Writes an entry of the ledger.
#[tactic(auto, unfolding(crate::specs::Spelling::checked_bytes))]
fn put_checked(out: &mut Vec<u8>, entry: &Entry) -> Result<(), AllocError>
    ensures { OnOk result (out.new.items ≡ out.old.items ++ checked_bytes entry.now) }
{
    put_u8(out, entry.piece.place.vdev)?;
    put_copies(out, &entry.copies)?;
    put_u8(out, 0)?;
    put_u16(out, entry.sectors)?;
    put_u32(out, entry.piece.place.sector)?;
    put_u32(out, 0)?;
    put_u64(out, entry.piece.birth)?;
    out.extend_from_slice(&entry.sum)?;
    Ok(())
}

/// Writes entries of the ledger.
fn put_all_checked(out: &mut Vec<u8>, entries: &[Entry]) -> Result<(), AllocError>
    ensures { OnOk result (out.new.items ≡ out.old.items ++ flat_map checked_bytes entries.now) }
{
    for entry in entries {
        put_checked(out, entry)?;
    }
    Ok(())
}

/// Writes the ledger.
#[tactic(auto, unfolding(crate::specs::Spelling::ledger_bytes))]
pub(crate) fn put_ledger(out: &mut Vec<u8>, entries: &[Entry]) -> Result<(), AllocError>
    requires { length entries.now < 2 ^ 32 }
    ensures { OnOk result (out.new.items ≡ out.old.items ++ ledger_bytes entries.now) }
{
    put_u32(out, entries.len() as u32)?;
    put_all_checked(out, entries)?;
    Ok(())
}

/// Writes the bytes with which a record begins.
#[tactic(auto, unfolding(crate::specs::Head::magic))]
fn put_magic(out: &mut Vec<u8>) -> Result<(), AllocError>
    ensures { OnOk result (out.new.items ≡ out.old.items ++ magic) }
{
    out.extend_from_slice(b"ZSCANREC")?;
    Ok(())
}

/// Writes the head.
#[tactic(auto, unfolding(crate::specs::Spelling::head_bytes))]
pub(crate) fn put_head(out: &mut Vec<u8>, mirrors: Mirrors, head: &Head) -> Result<(), AllocError>
    ensures { OnOk result (out.new.items ≡ out.old.items ++ head_bytes mirrors head.now) }
{
    put_magic(out)?;
    put_u32(out, 1)?;
    put_u64(out, head.txg)?;
    put_u32(out, head.next_id)?;
    put_u32(out, head.datasets)?;
    put_u32(out, devices_of(mirrors))?;
    put_u32(out, head.offline)?;
    Ok(())
}

/// The number of a parent; that of none is the greatest.
fn number_of_parent(parent: Option<DsId>) -> u32
    ensures { result ≡ number_of_parent parent }
{
    match parent {
        None => u32::MAX,
        Some(parent) => parent.0,
    }
}

/// Writes the fields of a dataset before its entries.
#[tactic(auto, unfolding(crate::specs::Spelling::set_head_bytes))]
fn put_set_head(out: &mut Vec<u8>, head: &SetHead) -> Result<(), AllocError>
    ensures { OnOk result (out.new.items ≡ out.old.items ++ set_head_bytes head.now) }
{
    let kind = if head.head { 1 } else { 0 };
    put_u32(out, head.id.0)?;
    put_u8(out, kind)?;
    put_name(out, head.owner)?;
    put_name(out, head.label)?;
    put_u8(out, 0)?;
    put_u32(out, number_of_parent(head.parent))?;
    put_u64(out, head.creation)?;
    Ok(())
}

/// Writes a dataset.
#[tactic(auto, unfolding(crate::specs::Spelling::stored_set_bytes))]
pub(crate) fn put_stored_set(out: &mut Vec<u8>, set: &StoredSet) -> Result<(), AllocError>
    requires { length set.now.entries < 2 ^ 32 }
    ensures { OnOk result (out.new.items ≡ out.old.items ++ stored_set_bytes set.now) }
{
    put_set_head(out, &set.head)?;
    put_u32(out, set.entries.len() as u32)?;
    put_entries(out, set.entries.as_slice())?;
    Ok(())
}

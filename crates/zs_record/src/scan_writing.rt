//! Writing the state of a scan behind what is written already.

ghost use Rattle.std.specs.Prelude.{◌≡◌, ◌++◌, replicate, OnOk};
ghost use Rattle.zs_record.specs.ScanSpelling.{number_of_kind, number_of_status, flag, running_bytes, place_bytes, at_bytes, pass_bytes};

use crate::scan::{Pass, Running};
use crate::writing::{put_key, put_u8, put_u32, put_u64};
use std::alloc::AllocError;
use zs_ids::{DsId, Key};
use zs_phys::{At, Kind, Status};

/// The number of a kind of scan.
fn number_of_kind(kind: Kind) -> u8
    ensures { result ≡ number_of_kind kind }
{
    match kind {
        Kind::Idle => 0,
        Kind::Scrub => 1,
        Kind::Resilver => 2,
    }
}

/// The number of a status.
fn number_of_status(status: Status) -> u8
    ensures { result ≡ number_of_status status }
{
    match status {
        Status::Never => 0,
        Status::Scanning => 1,
        Status::Finished => 2,
        Status::Canceled => 3,
    }
}

/// The byte of what holds or does not.
fn flag(holds: bool) -> u8
    ensures { result ≡ flag holds }
{
    if holds { 1 } else { 0 }
}

/// Writes what a record has of every scan.
#[tactic(auto, unfolding(crate::specs::ScanSpelling::running_bytes))]
pub(crate) fn put_running(out: &mut Vec<u8>, running: &Running) -> Result<(), AllocError>
    ensures { OnOk result (out.new.items ≡ out.old.items ++ running_bytes running.now) }
{
    put_u8(out, number_of_kind(running.kind))?;
    put_u8(out, number_of_status(running.status))?;
    put_u8(out, flag(running.paused))?;
    put_u8(out, flag(running.again))?;
    put_u64(out, running.min)?;
    put_u64(out, running.max)?;
    put_u32(out, running.away)?;
    Ok(())
}

/// Writes three zeros.
fn put_zeros(out: &mut Vec<u8>) -> Result<(), AllocError>
    ensures { OnOk result (out.new.items ≡ out.old.items ++ replicate 3 0) }
{
    out.extend_from_slice(&[0; 3])?;
    Ok(())
}

/// Writes the number of a place, a dataset and a key.
#[tactic(auto, unfolding(crate::specs::ScanSpelling::place_bytes))]
fn put_place(out: &mut Vec<u8>, place: u8, id: DsId, key: Key) -> Result<(), AllocError>
    ensures { OnOk result (out.new.items ≡ out.old.items ++ place_bytes place id key) }
{
    put_u8(out, place)?;
    put_zeros(out)?;
    put_u32(out, id.0)?;
    put_key(out, key)?;
    Ok(())
}

/// Writes where a walk is.
#[tactic(auto, unfolding(crate::specs::ScanSpelling::at_bytes))]
fn put_at(out: &mut Vec<u8>, at: At) -> Result<(), AllocError>
    ensures { OnOk result (out.new.items ≡ out.old.items ++ at_bytes at) }
{
    match at {
        At::Nowhere => {
            put_place(out, 0, DsId(0), Key::ROOT)?;
            Ok(())
        }
        At::Destroyed => {
            put_place(out, 1, DsId(0), Key::ROOT)?;
            Ok(())
        }
        At::Dataset(id, key) => {
            put_place(out, 2, id, key)?;
            Ok(())
        }
    }
}

/// Writes where a walk is, and its pass.
#[tactic(auto, unfolding(crate::specs::ScanSpelling::pass_bytes))]
pub(crate) fn put_pass(out: &mut Vec<u8>, pass: &Pass) -> Result<(), AllocError>
    ensures { OnOk result (out.new.items ≡ out.old.items ++ pass_bytes pass.now) }
{
    put_at(out, pass.at)?;
    put_u64(out, pass.curmin)?;
    put_u64(out, pass.curmax)?;
    Ok(())
}

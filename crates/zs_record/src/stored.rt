//! A record, all of its bytes.

ghost use Rattle.std.specs.Prelude.{◌≡◌, ◌≤◌};
ghost use Rattle.zs_ids.specs.declared.limits.TheConstants.{MIRRORS, WIDTH};
ghost use Rattle.zs_record.specs.Reading.{GivesOrWants};
ghost use Rattle.zs_record.specs.Stored.{parts_of, is_scanning, most_dirty, stored_of};

use crate::checked::ledger_of;
use crate::fault::RecordFault;
use crate::head::{Head, head_of};
use crate::logs::logs_of;
use crate::mirrors::{Mirrors, devices_of};
use crate::scan::{Pass, Running, pass_of, running_of};
use crate::sets::{StoredSet, sets_of};
use crate::todo::queue_of;
use std::alloc::Global;
use zs_ids::Seq;
use zs_ids::limits::LOG_SPANS;
use zs_ledger::Ledger;
use zs_phys::{Kind, Status, Todo};
use zs_ranges::Interval;

/// What a record has, part by part. Whether its datasets, its scan and its ledger go together is not known yet.
#[derive(Drop)]
pub struct Stored {
    /// The head.
    pub head: Head,
    /// The datasets, their ids rising.
    pub sets: Seq<StoredSet>,
    /// For each device the transaction groups that it has missed.
    pub logs: Seq<Seq<Interval>>,
    /// What every scan has.
    pub running: Running,
    /// Where the scan is, and its pass.
    pub pass: Pass,
    /// The datasets that it has still to pass, none twice.
    pub todo: Seq<Todo>,
    /// For each device the transaction groups that it may have lacked when a resilver started.
    pub dirty0: Seq<Seq<Interval>>,
    /// What the scan has checked.
    pub ledger: Ledger,
}

/// Whether the scan is running, paused or not.
fn is_scanning(status: Status) -> bool
    ensures { result ≡ is_scanning status }
{
    match status {
        Status::Scanning => true,
        Status::Never | Status::Finished | Status::Canceled => false,
    }
}

/// How many intervals a device's set may have at the start of such a scan.
fn most_dirty(kind: Kind) -> u32
    ensures { result ≡ most_dirty kind }
{
    match kind {
        Kind::Resilver => LOG_SPANS as u32,
        Kind::Idle | Kind::Scrub => 0,
    }
}

/// The parts of a record of a pool with these mirrors, or its first fault.
#[tactic(auto, unfolding(crate::specs::Stored::stored_of))]
pub fn stored_of(alloc: Global, bytes: &[u8], mirrors: Mirrors) -> Result<Stored, RecordFault>
    requires few { mirrors.count ≤ MIRRORS }
    requires narrow { mirrors.width ≤ WIDTH }
    ensures { GivesOrWants parts_of result (stored_of mirrors bytes.now) }
{
    let devices = devices_of(mirrors);
    let (head, rest) = head_of(bytes, mirrors)?;
    let (sets, rest) = sets_of(alloc, rest, head.datasets)?;
    let (logs, rest) = logs_of(alloc, rest, LOG_SPANS as u32, head.txg, devices)?;
    let (running, rest) = running_of(rest, mirrors, head.offline)?;
    let (pass, rest) = pass_of(rest, is_scanning(running.status), running.again)?;
    let (todo, rest) = queue_of(alloc, rest, is_scanning(running.status))?;
    let (dirty0, rest) = logs_of(alloc, rest, most_dirty(running.kind), head.txg, devices)?;
    let (ledger, rest) = ledger_of(alloc, rest, mirrors, head.txg)?;
    if !rest.is_empty() {
        return Err(RecordFault::Trailing);
    }
    Ok(Stored {
        head,
        sets: Seq::from_vec(sets),
        logs: Seq::from_vec(logs),
        running,
        pass,
        todo: Seq::from_vec(todo),
        dirty0: Seq::from_vec(dirty0),
        ledger,
    })
}

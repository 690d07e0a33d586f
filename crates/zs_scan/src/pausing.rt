//! A scan that begins, is paused, goes on, or is stopped: in the walk's state, and in the one that a crash leaves.

ghost use Rattle.std.specs.Prelude.{◌≡◌, ◌↔◌, ◌&&◌, ◌⊎◌, true, false, Err, OnOk, OnErr, IsTrue, not};
ghost use Rattle.zs_cover.specs.Laws.{started};
ghost use Rattle.zs_phys.specs.declared.phys.Status.TheVariants.{Scanning};
ghost use Rattle.zs_walk.specs.Walking.{runs};
ghost use Rattle.zs_scan.specs.Covered.{Keeps};
ghost use Rattle.zs_scan.specs.Steps.{is_scrubbing, with_paused, canceled, stopped};

use crate::batch::ScanFault;
use crate::scan::Scan;
use zs_ids::DsId;
use zs_phys::{At, Kind, Phys, Status, Todo};
use zs_queue::Waiting;

impl Scan {
    /// Pauses the scrub: its walk makes no turns, and it does not finish; what waits may still be checked. Refused as
    /// `NoScan` exactly where no scrub is running, and as `Paused` exactly where it is paused. The scan stays that of the
    /// datasets. Takes no memory.
    pub fn pause(&mut self) -> Result<(), ScanFault>
        ensures no_scan { result ≡ Err ScanFault.NoScan ↔ IsTrue (not (is_scrubbing self.old)) }
        ensures paused { result ≡ Err ScanFault.Paused ↔ IsTrue (is_scrubbing self.old && self.old.run.paused) }
        ensures why { OnErr result ((result ≡ Err ScanFault.NoScan) ⊎ (result ≡ Err ScanFault.Paused)) }
        ensures ok { OnOk result (self.new ≡ with_paused true self.old) }
        ensures err { OnErr result (self.new ≡ self.old) }
        ensures keeps { OnOk result (Keeps self.old self.new) }
    {
        if !self.is_scrubbing() {
            return Err(ScanFault::NoScan);
        }
        if self.run.paused {
            return Err(ScanFault::Paused);
        }
        self.set_paused(true);
        Ok(())
    }

    /// Lets a paused scrub go on. Refused as `NotPaused` exactly where no scrub is paused. The scan stays that of the
    /// datasets. Takes no memory.
    pub fn resume(&mut self) -> Result<(), ScanFault>
        ensures not_paused { result ≡ Err ScanFault.NotPaused ↔ IsTrue (not (is_scrubbing self.old && self.old.run.paused)) }
        ensures why { OnErr result (result ≡ Err ScanFault.NotPaused) }
        ensures ok { OnOk result (self.new ≡ with_paused false self.old) }
        ensures err { OnErr result (self.new ≡ self.old) }
        ensures keeps { OnOk result (Keeps self.old self.new) }
    {
        if !self.is_scrubbing() || !self.run.paused {
            return Err(ScanFault::NotPaused);
        }
        self.set_paused(false);
        Ok(())
    }

    /// Stops the scan, paused or not: what waits and what flies is given up, and what was checked stays, all of it stored.
    /// Batches that are in flight stay there, and get no entries. Refused as `NoScan` exactly where no scan is running. The
    /// scan stays that of the datasets. Takes no memory.
    pub fn stop(&mut self) -> Result<(), ScanFault>
        ensures no_scan { result ≡ Err ScanFault.NoScan ↔ IsTrue (not (runs self.old.run.status)) }
        ensures why { OnErr result (result ≡ Err ScanFault.NoScan) }
        ensures ok { OnOk result (self.new ≡ stopped self.old) }
        ensures err { OnErr result (self.new ≡ self.old) }
        ensures keeps { OnOk result (Keeps self.old self.new) }
    {
        if !self.is_running() {
            return Err(ScanFault::NoScan);
        }
        cancel_walk(&mut self.run);
        self.kept.copy_from(&self.run);
        self.stored = self.ledger.len();
        self.queue.clear();
        self.marks.clear();
        Ok(())
    }

    /// Whether a scrub is running, paused or not.
    pub fn is_scrubbing(&self) -> bool
        ensures { result ≡ is_scrubbing self.now }
    {
        self.is_running() && self.scope.kind == Kind::Scrub
    }

    /// Pauses a scrub that is running, or lets it go on.
    pub(crate) fn set_paused(&mut self, paused: bool)
        requires { IsTrue (is_scrubbing self.old) }
        ensures is { self.new ≡ with_paused paused self.old }
        ensures keeps { Keeps self.old self.new }
    {
        self.run.paused = paused;
        self.kept.paused = paused;
    }
}

/// Puts the walk at its beginning, while these devices are offline.
pub(crate) fn begin_walk(run: &mut Phys, away: u32)
    ensures { run.new ≡ started away }
{
    run.status = Status::Scanning;
    run.paused = false;
    run.away = away;
    run.at = At::Nowhere;
    run.curmin = 0;
    run.curmax = 0;
    run.again = false;
    run.todo.clear();
    run.todo.push(Todo {
        id: DsId::ORIGIN,
        min: 0,
    });
}

/// Takes the walk to no dataset, with none left to walk.
fn cancel_walk(run: &mut Phys)
    ensures { run.new ≡ canceled run.old }
{
    run.status = Status::Canceled;
    run.paused = false;
    run.at = At::Nowhere;
    run.curmin = 0;
    run.curmax = 0;
    run.again = false;
    run.todo.clear();
}

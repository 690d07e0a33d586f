//! What is measured of one kind of call.

ghost use Rattle.std.specs.Prelude.{◌≡◌, ◌/◌, max};

use std::alloc::{AllocError, AllocFailed};
use std::io;
use std::time::Instant;
use zs_alloc::SpaceFault;
use zs_lane::LaneFault;
use zs_queue::PutFault;

/// Why the calls were not timed.
#[derive(Clone, Copy, Debug, PartialEq, Eq)]
pub enum Fault {
    /// Memory was wanting.
    Memory,
    /// The clock, or standard output, failed.
    Outside,
}

impl From<AllocError> for Fault {
    fn from(_: AllocError) -> Self {
        Fault::Memory
    }
}

impl<T: Drop> From<AllocFailed<T>> for Fault {
    fn from(_: AllocFailed<T>) -> Self {
        Fault::Memory
    }
}

impl From<io::Error> for Fault {
    fn from(_: io::Error) -> Self {
        Fault::Outside
    }
}

impl From<PutFault> for Fault {
    fn from(_: PutFault) -> Self {
        Fault::Memory
    }
}

impl From<SpaceFault> for Fault {
    fn from(_: SpaceFault) -> Self {
        Fault::Memory
    }
}

impl From<LaneFault> for Fault {
    fn from(_: LaneFault) -> Self {
        Fault::Outside
    }
}

/// How long the calls of one kind took.
#[derive(Clone, Copy, Debug)]
pub struct Row {
    /// The crate and the call.
    pub name: &'static str,
    /// How many calls were made.
    pub calls: u64,
    /// How long they took in all, in nanoseconds.
    pub nanos: u64,
}

impl Row {
    /// How long one call took; all of the time where none was made.
    pub fn nanos_per_call(&self) -> u64
        ensures { result ≡ self.now.nanos / max self.now.calls 1 }
    {
        self.nanos / self.calls.max(1)
    }
}

/// Puts a row for calls that began at `start` and end now.
pub fn put(
    rt: &HostRuntime,
    rows: &mut Vec<Row>,
    name: &'static str,
    calls: u64,
    start: Instant,
) -> Result<(), Fault> {
    let taken = start.elapsed(rt)?;
    let nanos = u64::try_from(taken.as_nanos()).unwrap_or(u64::MAX);
    rows.push(Row { name, calls, nanos })?;
    Ok(())
}

// How a call of a lane fails.
ghost use Rattle.std.specs.Prelude.{◌≡◌};
ghost use Rattle.zs_lane.specs.declared.fault.LaneFault.TheVariants.{Memory};

use std::alloc::{AllocError, AllocFailed};

/// How a call of a lane fails.
#[derive(Clone, Copy, Debug, PartialEq, Eq)]
pub enum LaneFault {
    /// The device failed; its count of faults rose. The number is the place of the mark in the journal.
    Failed(u64),
    /// Memory was wanting. Journal and device are as they were.
    Memory,
}

impl From<AllocError> for LaneFault {
    ghost from_gives = { λ _ e. e ≡ Memory };

    fn from(_: AllocError) -> Self {
        LaneFault::Memory
    }
}

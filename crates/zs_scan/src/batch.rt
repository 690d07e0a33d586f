//! Batches, turns, and why a call is refused.

ghost use Rattle.std.specs.Prelude.{◌≡◌};

use std::alloc::AllocError;
use zs_ids::{Item, Seq};

/// Pieces that were taken to be checked.
#[derive(Debug, Drop)]
pub struct Batch {
    /// The batch's number, which no other batch in flight has.
    pub number: u64,
    /// Its mirror.
    pub vdev: u8,
    /// The devices that were online when it was taken, a bit for each.
    pub online: u32,
    /// The pieces, in strictly rising order of address.
    pub items: Seq<Item>,
}

/// What a turn of the walk was.
#[derive(Clone, Copy, Debug, PartialEq, Eq)]
pub enum Turn {
    /// There was nothing to walk.
    Nothing,
    /// The walk left a dataset that was destroyed, or passed over one that has no block in scope.
    Skip,
    /// It entered a dataset.
    Enter,
    /// It met a block.
    At,
    /// It came to the end of a dataset.
    End,
}

/// Why a call of a scan is refused.
#[derive(Clone, Copy, Debug, PartialEq, Eq)]
pub enum ScanFault {
    /// A scan is running that is not a paused scrub.
    ScanBusy,
    /// No scan is running, or for a pause no scrub.
    NoScan,
    /// The scrub is paused.
    Paused,
    /// No scrub is paused.
    NotPaused,
    /// As many pieces wait as the limit allows.
    Full,
    /// A checkpoint is due.
    Draining,
    /// Memory was wanting.
    Memory,
}

impl From<AllocError> for ScanFault {
    ghost use Rattle.zs_scan.specs.declared.batch.ScanFault.TheVariants.{Memory};

    ghost from_gives = { λ _ e. e ≡ Memory };

    fn from(_error: AllocError) -> Self {
        ScanFault::Memory
    }
}

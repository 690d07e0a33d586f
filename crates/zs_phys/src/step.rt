//! The turns of the walk.

use zs_ids::{Bp, DsId, Key};

/// One turn of the walk.
#[derive(Clone, Copy, Debug, PartialEq, Eq)]
pub enum Step {
    /// There is nothing to walk: no scan is running, it is paused, or no dataset is left.
    Nothing,
    /// The walk leaves a dataset that was destroyed, or passes over the first one of the queue, which has no
    /// block in scope.
    Skip,
    /// The walk enters the first dataset of the queue, which stands there with this `min`.
    Enter(DsId, u64),
    /// The walk meets this block.
    At(Key, Bp),
    /// The walk is at the end of this dataset.
    End(DsId),
}

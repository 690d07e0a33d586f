//! What is staged at one key of one dataset.

use zs_ids::{DsId, Key, Place};

/// Where a staged block will lie, and what it will hold.
#[derive(Clone, Copy, Debug, PartialEq, Eq)]
pub struct Staging {
    /// The place that was taken for it.
    pub place: Place,
    /// Its size in sectors, 1 to 256.
    pub sectors: u16,
    /// What a record is filled with; `None` for a block of pointers, whose bytes are made at the sync.
    pub fill: Option<u64>,
}

/// A staged block with its dataset and key.
#[derive(Clone, Copy, Debug, PartialEq, Eq)]
pub struct StagedEntry {
    /// The dataset that will hold it.
    pub ds: DsId,
    /// Its key there.
    pub key: Key,
    /// The place that was taken for it.
    pub place: Place,
    /// Its size in sectors, 1 to 256.
    pub sectors: u16,
    /// What a record is filled with; `None` for a block of pointers.
    pub fill: Option<u64>,
}

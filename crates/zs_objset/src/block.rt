//! A block that a sync writes, and why a sync may fail.

use zs_ids::{Bp, DsId, Key, Seq};

/// A block that a sync writes, with the pointer that the map will have to it.
#[derive(Drop)]
pub struct StagedBlock {
    /// The dataset that holds it.
    pub ds: DsId,
    /// Its key there.
    pub key: Key,
    /// The pointer to it.
    pub bp: Bp,
    /// Its bytes, 512 for each of `bp.sectors` sectors of a record, and 4,096 for a block of pointers.
    pub bytes: Seq<u8>,
}

/// What a sync writes as data, and the devices that were online when it began.
#[derive(Drop)]
pub struct Staged {
    /// The transaction group.
    pub txg: u64,
    /// The online devices, a bit for each.
    pub online: u32,
    /// The blocks.
    pub blocks: Seq<StagedBlock>,
}

/// Why a commit failed.
#[derive(Clone, Copy, Debug, PartialEq, Eq)]
pub enum CommitFault {
    /// Memory was wanting.
    Memory,
}

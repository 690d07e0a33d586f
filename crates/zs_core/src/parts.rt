//! The parts of a pool's present state.

use zs_ids::{Bp, DsId, Key};
use zs_txg::OpenTxg;

/// The pointers to the blocks that are staged for a dataset, in order of key.
#[derive(Drop)]
pub(crate) struct Changes {
    pub(crate) ds: DsId,
    pub(crate) blocks: Vec<(Key, Bp)>,
}

/// A transaction group that a sync has closed and not yet applied, with the pointers to its blocks, for each dataset in order.
#[derive(Drop)]
pub(crate) struct Closed {
    pub(crate) txg: OpenTxg,
    pub(crate) changes: Vec<Changes>,
}

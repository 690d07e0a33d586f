//! The blocks of a dataset: which blocks a write needs, their bytes, and the blocks that a sync writes.
//!
//! Model: plain data. The bytes of a block are a function of the pointers of the blocks below it
//! (`specs/Bytes`); the blocks of a sync are each staged entry's block over the map with all staged pointers
//! put over it (`specs/Staged`), as `dbuf_sync_list` of OpenZFS leaves them when a txg is synced.
//! Promise: `needed` answers the key and all above it in order. `block_bytes` answers exactly the bytes of
//! the block at a key. `staged_blocks` answers one block for each staged entry, whose pointer has the sum of its bytes,
//! and whose bytes have the pointers of all the staged blocks below it: 512 a sector for a record, 4,096 for another.
//!
//! `zs_core` stages by `needed` and syncs with `staged_blocks`, `zscan` writes the blocks. To change what a
//! block's bytes are see `specs/Bytes` and `bytes`; to change what a sync writes see `specs/Staged` and `staged`.
#![tactic(auto)]

pub mod above;
pub mod block;
pub mod bytes;
pub mod staged;

pub use above::needed;
pub use block::{CommitFault, Staged, StagedBlock};
pub use bytes::block_bytes;
pub use staged::staged_blocks;

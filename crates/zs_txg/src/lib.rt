//! The open transaction group: what is staged and queued until its sync, after `dp_dirty_datasets` and the sync tasks
//! of OpenZFS's dsl_pool.c.
//!
//! Model: `Open` of `specs/Txg`: the number, the staged blocks in order of dataset and key, the tasks in
//! order of queuing, and the room that is reserved. The blocks lie in a B-tree, and one that finds no memory
//! there in a list whose room is reserved.
//! Promise: the last staging of a key stands, `get` and `entry_after` answer what stands, `sectors` is the sum over
//! what stands, and where room was reserved `stage` is not refused. After a refusal nothing has changed.
//! Work: `entries_of` begins at its dataset's first entry and ends at the next dataset's, so a walk over all datasets looks
//! at each staged entry once.
//!
//! `zs_core` stages into it and queues, `zs_objset` makes its blocks' bytes at the sync. To change what is
//! staged of a block see `staged`, to add a task see `task`, to change how it is kept see `txg`.
#![tactic(auto)]

pub mod staged;
pub mod task;
pub mod txg;

pub use staged::{StagedEntry, Staging};
pub use task::Task;
pub use txg::OpenTxg;

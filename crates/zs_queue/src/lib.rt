//! The pieces that a scan found and that wait to be checked.
//!
//! Layer: above `zs_ids`. The scan holds a queue and speaks to it by `Waiting` alone, so that the order in which
//! pieces are read can change without it. After the queues of `dsl_scan.c`, where each top-level device has a tree
//! of extents sorted by address; here the limit is a count of pieces.
//! Model: the list of the waiting items, each beside its piece, in order of address (`specs/Waiting`); the limit.
//! Promise: `put` adds one piece or changes nothing, `drop_piece` takes out just its piece and says whether it
//! waited, `take` takes out just the batch that it answers, which is of one mirror and rises in address. `PlainQueue`
//! gives the lowest pieces of the mirror.
//! Cost: with n pieces `put`, `has` and `drop_piece` O(log n), `take` O(log n) for each piece of the batch and no
//! look at other mirrors, `count` and `count_of` O(1).
//!
//! To change what a queue answers see `waiting`; to change which pieces a batch has, write another `Waiting`.
#![tactic(auto)]

pub mod plain;
pub mod waiting;

pub use plain::PlainQueue;
pub use waiting::{PutFault, Waiting};

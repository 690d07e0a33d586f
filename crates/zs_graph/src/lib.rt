//! The datasets of a pool: filesystems, snapshots and clones, over any map of blocks.
//!
//! Layer: above `zs_ids`, which has the list of datasets, when it is valid, and its changes. The pool has such a graph; the walk
//! of a scan and the laws of coverage stand on it.
//! Model: the list of datasets in order of id, each with the entries of its map, and the id that the next one gets
//! (`specs/View`).
//! Promise: the datasets are always valid; each call makes the one change that its name says, or refuses it for the first of the
//! reasons that hold (`specs/Refusals`, `specs/Made`) and changes nothing. A filesystem, a clone, a snapshot and a swap free
//! nothing. `destroy` and `apply` answer the pieces that are live no longer, in order of place, each with its size and sum, and
//! no other (`AreFreed` of `zs_ids`). What a change frees is found before it is made (`specs/Frees`).
//! A look-up by id is a binary search, one by name a walk of the datasets. `destroy` is one pass over the blocks that are born
//! after the dataset's parent, with a look-up of each in the child; `apply` two look-ups for each change; both sort what they free.
//!
//! To change what a dataset is see `zs_ids/specs/Graph`; a new kind of change begins in `zs_ids/specs/GraphChange` with its law.
#![tactic(auto)]

pub mod changes;
pub mod fault;
pub mod freed;
mod freeing;
pub mod graph;
pub mod lookups;
mod refusals;

pub use fault::GraphFault;
pub use freed::Freed;
pub use graph::Graph;

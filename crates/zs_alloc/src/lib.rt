//! The free space of the mirrors.
//!
//! Layer: above `zs_ids`. One `Space` is for a whole pool: the places of new blocks, the frees of a sync and the pins
//! of batches and reads. The pool does not keep one yet; `zs_leaves` times the calls.
//! Model: per mirror the sectors that its space has, and the ranges that are taken, each with its size, its pins and
//! whether it was freed (`specs/Space`). A sector of the space is free where no taken range has it.
//! Promise: `take` gives the first sectors of the lowest free range that fits, and is refused with `NoSpace` only
//! where none fits; `claim` takes just what it is asked for, where that is free. A range that was freed in a
//! transaction group is free once that group is settled and no pin is on it, whichever comes last. Each contract
//! gives the one list of taken ranges that comes out; after a refusal nothing has changed.
//! Cost: the free sectors of a mirror stand in a tree that knows the runs in each of its parts. `take` goes down the tree once,
//! however the free sectors lie; `claim`, `give` and a last `unpin` go down to the parts that a range has; `settle` looks up
//! what is freed and not settled. None walks the free or the taken ranges.
//! Memory: the tree is made with the space, some two bytes for each sector, so that `give`, `unpin` and `settle` take none.
//!
//! To change where a block goes see `tree`; what a taken range carries, `taken`; when it becomes free, `mirror`;
//! how free sectors and taken ranges fit together, `ranges` and `specs/Kept`.
#![tactic(auto)]

mod chunk;
pub mod fault;
mod mirror;
mod ranges;
pub mod space;
pub mod taken;
mod tree;

pub use fault::SpaceFault;
pub use space::Space;
pub use taken::{Freed, Taken};

//! The state of a scan: its scope, where it is, which datasets it still has to pass, and how dataset events
//! change that.
//!
//! Model: `Scope` and `Phys` are seen by contracts as the records of their fields, the queue of datasets as the
//! list of its entries, in order. `specs/Scope` says which pieces are in scope, `specs/Ahead` which entries are
//! ahead of a state and when a state covers a graph, `specs/Sound` which states belong to a graph,
//! `specs/Handlers` what an event does to a state, and `specs/Turn` what one turn of the walk does.
//! Promise: each handler makes exactly its change of the state, and takes no memory.
//!
//! Why nothing is lost, after the statement that opens OpenZFS's `dsl_scan.c`. A dataset shares with its parent each
//! block that was born up to the parent's creation. So each live block is at home in one dataset, the oldest that holds
//! it, and one pass over that dataset meets it, whatever stands on it.
//!
//! *Children are queued only after a whole pass* of their parent, with its creation as their least birth. Until then the
//! parent, which is queued or being walked, stands for all that is at home below it: what it will meet and what its
//! children will. After it, what a child shares with it has been met, and the child owes its own blocks alone.
//!
//! *The bookmark may move to a snapshot.* A snapshot that is taken of the head being walked holds just what the head
//! held. What lay before the bookmark was met, and what lies behind it will be, at the same keys of a dataset that does
//! not change any more. The head has become its child, and comes after its pass.
//!
//! *A dataset may be walked again.* Where a snapshot is destroyed, its child takes its place and becomes the home of what
//! both held. The pass goes on in the child, with the births that it had. The blocks that were born since the
//! snapshot was taken are the child's own, and some of them may lie before the bookmark: they are not in this pass, and
//! the dataset comes once more for them, from the end of this pass on.
//!
//! *A swap follows the blocks.* Two heads that exchange what they hold exchange their places in walk and queue, since
//! bookmark and least birth speak of blocks, not of names.
//!
//! The walk, the scan and the laws of coverage stand on this crate. To change what an event does see the handlers of
//! `Phys` and `specs/Handlers`, to change what is walked see `specs/Turn`, to change what a scan examines see
//! `specs/Scope`.
#![tactic(auto)]

pub mod phys;
pub mod scope;
pub mod step;
pub mod todos;

pub use phys::{At, Phys, Status};
pub use scope::{Kind, Scope};
pub use step::Step;
pub use todos::{Todo, Todos};

//! The list of what a scan has checked, in order of checking, with what became of each copy.
//!
//! Layer: above `zs_ids` and `zs_ranges`. The scan puts an entry for each piece of a verdict and asks `has` of each
//! piece that it visits. No list is stored on an image yet, and `failed_births` is for the dirty logs. OpenZFS keeps
//! no such list: its error log (`spa_log_error`) has only the blocks without a good copy.
//! Model: `Kept`, the list of the entries and for how many more there is room (`specs/Kept`).
//! Promise: a push is exact and takes no memory, the room for it being reserved; `has` is whether an entry is of the
//! piece; the error list is the entries with a bad, faulty or absent copy, in order of mirror, sector and birth.
//! Cost: `push`, `has` and `error_count` do not depend on the length (a hash set of pieces and a count stand beside
//! the list); `errors` and `failed_births` sort what they answer.
//!
//! To change what counts as an error see `CopyResult::is_error` and `specs/Entry`; to change the calls see `ledger`.
#![tactic(auto)]

pub mod entry;
pub mod ledger;

pub use entry::{CopyResult, Entry};
pub use ledger::Ledger;

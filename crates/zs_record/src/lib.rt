//! The record of a pool: what a commit writes of its datasets, its scan and what that checked, and how it is read.
//!
//! Layer: above the pointers of `zs_sum`, the sets of `zs_ranges`, the states of `zs_phys` and the entries of `zs_ledger`.
//! `stored_of` and `bytes_of_stored` go between bytes and the parts of a record; whether its datasets, its scan and its ledger
//! go together is for the crate above to tell.
//! Model: bytes are lists of numbers below 256, and a reader is a function from a list to a value and the rest of the list,
//! or to a fault (`specs/Reading`). A part is read by one such function, of the same name in `specs/` and in the code:
//! `Numbers`, `Names`, `Blocks` (keys, pointers, entries), `Logs` (sets), `Head`, `Sets` (datasets), `Scan`, `Todo`,
//! `Checked` (the ledger), and `Stored` for all of them. How they are written stands in `Spelling`, `ScanSpelling` and
//! `StoredSpelling`.
//! Promise: each reader answers exactly what its function gives, or that memory was wanting where it takes memory. So the
//! fault at the earliest place is told, and at one place Short before Field before Order. Each writer puts just its part's
//! bytes. A record has one spelling: what is written of it is read back field by field, but for the places of its entries'
//! calls in the journals, and what is read has no other bytes (`stored_law`). So has each part of it (`parts_law`,
//! `stored_parts_law`, over `IsPart` of `specs/Laws`); what a part may have stands in `specs/Laws` and `specs/StoredLaws`.
//! Cost: one pass. No list is reserved for more items than the bytes that are left can fill, and whether a piece or an id was
//! there already does not go through those before it.
//!
//! To change what a part has see its file in `specs/` and the one of the same name here; then `writing`, `scan_writing` and
//! `record_writing`.
#![tactic(auto)]

mod blocks;
mod checked;
pub mod fault;
pub mod head;
pub mod laws;
mod logs;
pub mod mirrors;
mod names;
mod numbers;
pub mod record_writing;
pub mod scan;
mod scan_writing;
pub mod sets;
pub mod stored;
mod todo;
mod writing;

pub use fault::RecordFault;
pub use head::Head;
pub use laws::{parts_law, stored_law, stored_parts_law};
pub use mirrors::Mirrors;
pub use record_writing::bytes_of_stored;
pub use scan::{Pass, Running};
pub use sets::{SetHead, StoredSet};
pub use stored::{Stored, stored_of};

#[cfg(test)]
mod record_tests;
#[cfg(test)]
mod tests;

//! The copies of a block on the devices of its mirror: writing all, reading one that is good, and checking and
//! repairing them.
//!
//! Layer: above `zs_lane`, whose trait `Children` it calls, and `zs_ledger`, whose entries and letters it answers.
//! Model: none of its own. Copy k of a block on mirror v lies on device v * width + k, from byte 512 * sector on; what a
//! call left of that device is said by its marks, its bytes, its crash images and its count of faults (`Went`, in
//! specs/Mirror). What each call answers, by which letters and places, is in specs/Calls.
//! Promise: a copy is good just where its bytes were read in this call and have the sum. Only bytes that have the sum
//! are written in a repair, and only over a copy whose bytes were read and have it not; a good copy is never written. A
//! copy counts as rewritten only where the write and a sync after it succeeded. A block is lost only where every online
//! copy was tried. Each failed call is told, and a count of faults rose with it. Devices that are no copy's stay, and
//! lawful journals stay lawful.
//!
//! Each answer has the places of its calls in the devices' journals, so that a history can be held against them; so no
//! letter is a claim that nothing bears out. Each byte that is read or written is hashed once. The program does not go
//! through this crate yet.
//! To change when a copy is read or what its letter is see `read`; the order of a check and its repairs `checks`; a block
//! of more than one place will want `read_any` to go over its places.
#![tactic(auto)]

mod buffers;
mod checks;
mod fault;
mod place;
mod read;
mod write;

pub use buffers::Buffers;
pub use checks::check;
pub use fault::ReadFault;
pub use read::read_any;
pub use write::{write_all, write_block};

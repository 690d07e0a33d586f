//! SHA-256 sums of blocks, and the bytes of the pointers that hold them.
//!
//! Layer: above the names of `zs_ids` alone.
//! Model: none of its own; bytes are lists of numbers below 256.
//! Promise: `sum` is the digest that FIPS 180-4 calls SHA-256, as the crate `sha2` states it. `bp_write` writes a
//! pointer's 64 bytes as `specs/Pointer` says. `bp_read` gives the pointer of 64 bytes, or the first fault in the order
//! that stands there. A pointer in range has one spelling, and no other bytes are read as it (`pointer_law`).
//!
//! The blocks' bytes and a pool's record are made with it, and every check of a block compares with its sum. To change
//! how a pointer is spelled see `specs/Pointer` with `pointer` and `reading`; to change what is in range see `fault_of`
//! there.
#![tactic(auto)]

pub mod digest;
pub mod fault;
pub mod laws;
pub mod pointer;
pub mod reading;

pub use digest::sum;
pub use fault::BpFault;
pub use laws::pointer_law;
pub use pointer::bp_write;
pub use reading::bp_read;

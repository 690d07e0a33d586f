//! The outside of the scan engine: where a script comes from, where replies go, the devices of a pool and the bay
//! from which they are fetched; and the same in memory, for tests and for sessions that need no file.
//!
//! Layer: the lowest; it stands on std alone.
//! Model: content is optional. A source, sink, bay or device *tells* what it holds as an `Option`: what is in memory tells
//! it, a file or a stream tells `None`, and a clause on content holds where it is told. A device also has the
//! images that a crash may leave on it (`may_leave`) and those that it might have left since a moment (`left_since`).
//! A bay tells in the same way which names it was asked for.
//! Each object has a count of its faults: a call fails only where the count rises, and else leaves it.
//! Promise: what each call does to the content, to the crash images and to the count, as the traits' clauses say.
//!
//! Every crate that reads, writes or syncs goes through these traits. To change what a disk may do at a crash see
//! `device` and specs/Crash; to change what a memory device keeps of its calls see `disk` and specs/Calls.
#![tactic(auto)]

mod device;
mod disk;
mod fault;
mod gate;
mod memory_bay;
mod memory_device;
mod memory_stream;
mod stream;
mod sure_device;

pub use device::{Bay, Device};
pub use fault::{BayFault, Failed};
pub use gate::{Gate, NoGate, Point};
pub use memory_bay::MemBay;
pub use memory_device::MemDevice;
pub use memory_stream::{MemSink, MemSource};
pub use stream::{Sink, Source};
pub use sure_device::SureDevice;

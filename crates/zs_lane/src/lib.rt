//! Lanes: devices with a journal of what was read, written and synced, and sets of them.
//!
//! Layer: above `zs_io` and `zs_sum`.
//! Model: a lane is seen as its device and its list of marks (`LaneView`). A set of lanes (`Children`) is seen as the
//! number of its devices and, by a device's number, what it tells of that device: size, count of faults, crash images and,
//! where it tells them, journal and bytes (`DeviceView`, in specs/Children, with what a call on one device leaves of the set).
//! Promise: a call that does not want memory adds just one mark, and answers its place; after want of memory lane and
//! device are as before. `Failed` comes only where the device's count of faults rose. The journal is lawful: the sum of a
//! read is that of the last write of its range, or of the bytes at the opening where nothing touched the range
//! (specs/Journal). What the device does to its bytes and to what a crash may leave is passed on.
//!
//! The program does not go through `Children` yet. `read_summed` and `write_summed` are for callers that want the sum
//! themselves, so that each byte is hashed once. To change what a mark has see `mark`; to change what makes a journal
//! lawful see specs/Journal.
#![tactic(auto)]

mod children;
mod fault;
mod lane;
mod mark;

pub use children::Children;
pub use fault::LaneFault;
pub use lane::Lane;
pub use mark::{Mark, Summed};

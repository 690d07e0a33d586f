//! The dirty logs: which transaction groups each device has missed.
//!
//! Model: a list with one set of groups per device, each in the list form of `zs_ranges` and of at most 64
//! intervals. A log that would have more has its two lowest intervals joined, gap included, so a log may say
//! too much but never too little.
//! Promise: `dirty` adds one group, `excise` is the line of a finished scan (`vdev_dtl_excise` of OpenZFS): the
//! log loses the groups strictly between the scan's two ends, then gains those that failed on the device, then
//! is joined. Each contract gives the one log that comes out and leaves the others; want of memory changes none.
//! `bounds` is what a resilver takes its range from.
//!
//! The pool does not keep a `Dirt` yet. To change the logs see `dirt`, to change what a mask means
//! or which groups are excised see `specs/Logs`.
#![tactic(auto)]

pub mod dirt;
mod steps;

pub use dirt::Dirt;

//! Sets of transaction groups: what a scan has in scope, what a device has missed.
//!
//! Model: a set is seen as the list of its intervals, rising, none empty, and with a group missing between each
//! two, after the range trees in which OpenZFS keeps its dirty time logs (`vdev_dtl` in vdev.c). `has_txg` of
//! `specs/Set` says which groups such a list has, and every contract says by it, for each group, whether the new
//! set has it.
//! Promise: `add`, `cut` and `join` give the set with, without and united, and leave it as it was after want of
//! memory. Equal sets have equal lists (`same_set_law`), so what a contract says of the groups fixes the list.
//! `join_lowest` bounds a log: it joins the two lowest intervals, gap included, until few enough are left. So it loses
//! no group, and gains those gaps and nothing else (`joined_law`).
//!
//! The dirty logs of devices, the scope of a resilver and the births of failed copies are such sets. To change
//! what a set does see `set`; how lists are merged and cut stands in `merge`. Each call costs time in the number
//! of intervals; `add` at the high end costs none.
#![tactic(auto)]

pub mod laws;
mod merge;
pub mod set;

pub use laws::{joined_law, same_set_law};
pub use set::{Interval, TxgSet};

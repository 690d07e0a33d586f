//! The names that every crate of the scan engine speaks: datasets, places on the devices, pieces,
//! block pointers and the keys under which a dataset holds them.
//!
//! Model: each type is seen by contracts as the record of its fields. A map from keys to pointers is seen
//! as the list of its entries in order of key (`Blocks`), a list in a public type as that list (`Seq`), and a value
//! behind a pointer as the value (`Boxed`).
//! Promise: `Key` is ordered as (object, rank, leaf, depth); a parent's key is below its children's keys.
//! The specs of this crate hold what several crates cite: the map words (`specs/Blocks`), and the plain list of
//! datasets with what is valid, live and at home in it (`specs/Graph`).
//!
//! Every crate above stands on this one. To change a limit see `limits`; to change what a pointer has see
//! `block`; to change the order of keys see `key`.
#![tactic(auto)]

pub mod block;
pub mod blocks;
pub mod boxed;
pub mod dataset;
pub mod key;
pub mod limits;
pub mod seq;

pub use block::{Bp, Item, Marks, Piece, Place};
pub use blocks::Blocks;
pub use boxed::Boxed;
pub use dataset::{DsId, DsName, Name};
pub use key::Key;
pub use seq::Seq;

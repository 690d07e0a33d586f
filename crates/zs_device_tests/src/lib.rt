//! Tests of the crates of bytes, sums, devices and copies: each public call once with ample memory and at a concrete type,
//! and what no clause says, as answers that another program gave.
//!
//! Layer: beside the others; nothing stands on it. The tests stand here and not in their crates, since a crate with tests
//! is proved twice. A test of what is private to a crate stands in that crate.
//!
//! Where to change what: the tests of a crate are in the module of its name.
#![tactic(auto)]

#[cfg(test)]
mod io;
#[cfg(test)]
mod label;
#[cfg(test)]
mod lane;
#[cfg(test)]
mod ledger;
#[cfg(test)]
mod mirror;
#[cfg(test)]
mod reading;
#[cfg(test)]
mod sum;

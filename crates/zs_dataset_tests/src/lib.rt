//! Tests of the crates of names, maps, datasets, scans and lines: each public call once with ample memory and at a concrete
//! type, and what no clause says, as answers that another program gave.
//!
//! Layer: beside the others; nothing stands on it. The tests stand here and not in their crates, since a crate with tests
//! is proved twice. A test of what is private to a crate stands in that crate.
//!
//! Where to change what: the tests of a crate are in the module of its name.
#![tactic(auto)]

#[cfg(test)]
mod alloc;
#[cfg(test)]
mod dtl;
#[cfg(test)]
mod flat;
#[cfg(test)]
mod frees;
#[cfg(test)]
mod graph;
#[cfg(test)]
mod ids;
#[cfg(test)]
mod objset;
#[cfg(test)]
mod phys;
#[cfg(test)]
mod plain;
#[cfg(test)]
mod queue;
#[cfg(test)]
mod ranges;
#[cfg(test)]
mod replies;
#[cfg(test)]
mod scan;
#[cfg(test)]
mod script;
#[cfg(test)]
mod txg;
#[cfg(test)]
mod walk;
#[cfg(test)]
mod want;

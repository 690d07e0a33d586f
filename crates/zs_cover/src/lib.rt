//! The laws of coverage: whatever happens to the datasets of a pool under a scan, and however the walk goes on,
//! no live block in the scan's scope is lost.
//!
//! Model: a graph is the plain list of its datasets (`zs_ids`), a scan state the record of its fields
//! (`zs_phys`), and what was examined, waits or is being read is a test on pieces. `specs/Laws` states the laws.
//! Promise: each event, with its change of the graph and of the state, and each turn of the walk, keeps three
//! facts: the graph is valid, the state is sound, and each live piece in scope is done or ahead of the state. A scan
//! that starts has all three, and one with nothing left to walk has done each live piece in scope.
//!
//! A law is a function that does nothing, and whose contract is the law. `zs_scan` cites them for its running state, and
//! `zs_walk` and `zs_plain` for single turns. The laws' proofs stand in `proofs/`, a file for each.
#![tactic(auto)]

pub mod laws;

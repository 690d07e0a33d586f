//! A plain program beside the definitions: each public function decides, or computes, one of the definitions of
//! datasets, scan states, coverage and turns, on a short list of datasets.
//!
//! Layer: above the definitions (`zs_ids`, `zs_phys`) and the rule of `zs_want`, with lemmas of `zs_cover`. Tests alone stand
//! on it: it is for examples only, its loops are plain, and some of them nested. The pool has its own data and calls none of
//! this.
//! Model: a `PlainDataset` is seen as the dataset of the definitions, and a slice of them as a graph.
//! Promise: a test answers true exactly where the definition holds, and what is computed is what the definition has,
//! all of it and nothing else. The tests in `zs_dataset_tests` run worked examples through it, with events between the
//! turns of a walk, states that lose blocks, and graphs and states that are refused for one thing, so that a definition
//! that says something else than it should shows.
//!
//! Where a definition changes, its test in `specs/` and the proof in `proofs/` that the test decides it change too:
//! `graph` and `tree` for what is live and at home, `ahead` for coverage, `sound` for states, `turn` for the walk,
//! `valid` and `blocks` for graphs.
#![tactic(auto)]

pub mod ahead;
pub mod blocks;
pub mod dataset;
pub mod graph;
pub mod sound;
pub mod tree;
pub mod turn;
pub mod valid;

pub use dataset::{PlainDataset, PlainRoom};
pub use turn::PlainTurn;

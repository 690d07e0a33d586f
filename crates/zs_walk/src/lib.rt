//! The walk of a scan over the datasets of a pool.
//!
//! Layer: above the scan state (`zs_phys`) and the laws of coverage (`zs_cover`), below the scan. After the passes of
//! `dsl_scan_visit` and `dsl_scan_visitds` of OpenZFS.
//! Model: the datasets are the plain list that contracts speak of, in whatever form they are kept (`Datasets`), as the graph
//! of `zs_graph`; the state of the scan is the record of its fields.
//! Promise: in a valid graph, and a state that belongs to it, `visit` answers the one turn that comes, and `advance`
//! makes of the state exactly what that turn makes of it. Neither takes memory. Each turn but the empty one leaves fewer
//! turns (`specs/Left`), so that a walk comes to its end.
//! Cost: `visit` asks for at most one block; `advance` asks for each child of a dataset whose pass ends, and else takes a
//! few steps, but that it moves the queue up by one where its first dataset is taken out.
//!
//! To change which turn comes, or what it does, see `zs_phys`'s `specs/Turn`, and the laws of `zs_cover`; to walk over
//! another form of graph write a `Datasets`.
#![tactic(auto)]

pub mod datasets;
pub mod laws;
pub mod turns;

pub use datasets::Datasets;
pub use turns::{advance, visit};

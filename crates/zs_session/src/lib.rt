//! Sessions: a script that is run over the images of a bay, line by line.
//!
//! Layer: above the pool (`zs_core`) and the outside as traits (`zs_io`); below the program, which hands in the real
//! outside.
//! Model: a run is a history of events, which is a run of the abstract machine of `zs_machine`. What was put into the sink is
//! the text of that history.
//! Promise: the clauses of `run_step`, each a record of `specs/Runs`.
//!
//! Why lines and not calls are the unit. A caller of the program sees lines and replies, so what a line does is said of the
//! whole line: which events it adds (`Told` of the machine), what these make of the devices (`specs/Plays`), and what is put.
//! A line that left out a step of its own, or made one more, would have no such history.
//!
//! Where to change what: a new form of the command line in `step`; what a line does in `lines`, and of those of a scan in
//! `turns`, `batches`, `landing` and `finishing`; how the images of a pool are tested in `images`; how a sync's blocks are
//! written in `write`. What is read, checked and repaired on the devices is `zs_mirror`'s. The runs of whole scripts that test all this stand in `zscan`.
#![tactic(auto)]

mod batches;
mod end;
mod finishing;
mod images;
mod landing;
mod lines;
mod rig;
mod rot;
mod session;
mod step;
mod stop;
mod turns;
mod write;

pub use session::{Ended, Session};
pub use step::run_step;

//! The abstract machine: what a pool promises, in words that know neither bookmark nor queue.
//!
//! Who wants to know what zscan promises reads this crate and no other.
//!
//! Layer: above the definitions of datasets, scans and scripts; below the pool (`zs_core`), which refines it.
//! Model: a state (`specs/Machine`), the step that each event makes of it (`specs/Steps`), and histories, which are runs of
//! such steps (`specs/History`). `specs/Replies` says what each command is answered with and what each task does,
//! `specs/Status` what `status` tells, `specs/Told` what the reply to a line tells of the events before it, `specs/Finishing`
//! which steps a `finish` makes, `specs/Flight` what is in flight, `specs/Writes` which blocks a sync writes, `specs/Errors`
//! what `errors` tells, `specs/Matches` when the claims of a history are borne out by the journals of its devices,
//! `specs/Shapes` the numbers that a pool is made with, and `specs/Commands` the commands of a history.
//! Promise, as laws: a run with one more step is a run; the text of a history is that of its events, one after another;
//! and a history that reports a scan as finished has had, when it came to its end, an entry for each live piece in
//! its scope (`laws`). The machine lets a scan finish nowhere else. One that is stopped is canceled, and no history reports it
//! as finished.
//!
//! Why a machine beside the pool. It has of a scan its range and the list of what was checked. How the walk goes, what
//! waits and in which order pieces are checked is left open, so nothing in it can be wrong by a slip of the engine's,
//! and the engine may change without a change of what is promised.
//!
//! The pool adds one event per call, and its type holds that they are such a history. To change what an event does see
//! `specs/Steps`; what a reply says of a line `specs/Told`; what an event carries `event`.
#![tactic(auto)]

pub mod event;
pub mod laws;
pub mod letters;
pub mod shape;

pub use event::{Event, OpenRead, ReadPlan, Stage, Step};
pub use letters::{letter_of, letters_of};
pub use shape::{Shape, data_start};

//! The pool: its present state, and the history of what happened to it.
//!
//! Model: `PoolView`. A view has the state of the abstract machine (`specs/Machine`), the scan with its bookmark, its queue
//! and what is in flight (`ScanView` of `zs_scan`), and the list of events. The machine has no bookmark, no queue and no
//! order of checking: its scan finishes only where every live piece in scope is checked.
//! Promise, kept in the type. The history is a run of the machine that leads to the present state, and each line's reply
//! tells of the events before it (`specs/History`, `specs/Told`). The pool's datasets are valid, also where it is suspended,
//! and the scan is theirs: each live piece in the scope of a scan that was not canceled is checked, waits, flies or is ahead
//! of the walk; what waits or flies is live, with its pointer's size and sum; each stands once (`specs/Kept`, `specs/Safe`).
//! After want of memory a pool is as it was, but that in the middle of a sync it is suspended.
//!
//! Why two accounts of one pool. The history says what happened in words that know neither bookmark nor queue, so it can be
//! read without the engine: a scan that it reports as finished has an entry for each live piece in scope. The present state
//! is what the engine works with. The type ties them, so no call can do the one without the other.
//!
//! Why a sync that memory was wanting in ends the pool. What a sync applies, it applies in place: a copy of each dataset would
//! cost more than the blocks that were written. So where memory is wanting in the middle of it, some of the transaction group
//! is in the datasets and some is not. No promise about single pieces is lost then, since each step keeps what the type says;
//! but the pool is of no transaction group any more, and takes no further command.
//!
//! The sessions of `zscan` call it. Two layers: `present` makes the steps and keeps what is true of the state; `pool` adds
//! one event per call. To change what a command does see `staging` and `specs/Replies`, `specs/Steps`; the end of a sync
//! `apply` and `tasks`; the scan `scanning`, and under it `zs_scan`; what `status` tells `status`, `specs/Status`; what
//! `errors` tells `errors`; which reply a line may have `specs/Line`.
#![tactic(auto)]

mod apply;
mod born;
mod errors;
mod listing;
mod parts;
pub mod pool;
mod present;
mod read;
mod replies;
mod scanning;
mod staging;
mod status;
mod tasks;

pub use pool::{Pool, PoolFault, Verdicts};
pub use zs_machine::{Event, OpenRead, ReadPlan, Shape, Stage, Step, data_start};

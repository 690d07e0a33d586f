//! Labels: where a device says whose it is and which record stands beside it, and which label of a set of devices is the best.
//!
//! Layer: above `zs_lane`, whose trait `Children` it calls, and `zs_sum`.
//! Model: none of its own; a label is the record of its fields. A device has two slots, each with a body, a gate and a record
//! (specs/Layout). A slot is open where its gate is 1, and an open slot whose body is spelled as a label's is a label
//! (`label_of`, in specs/Label). What calls leave of a device is said by the steps that they make (specs/Steps) and by the
//! images that a crash may leave at each of their moments (specs/Leaving, specs/Slots).
//! Promise: a label has one spelling, so what was written is read and what is read spells back to the same bytes
//! (specs/Laws). `put_label` makes its seven calls in order and stops at the first that fails; at every moment a crash leaves
//! the slot as it was, without a label, or with the new label and its record, and the other slot with its record and the
//! space stay (specs/Rest). This holds where the device tells its bytes. `best_label` answers as specs/Best says, by the
//! slots that could be read.
//!
//! The gate is a byte by itself, since a disk keeps the old value or the new one of a byte that is written alone: so writing 0
//! to a closed gate never opens it. A commit writes labels, and an opening reads them; the program does neither yet.
//! To change what a label has see `label` and specs/Label; the order of the calls `put`; which fault comes first `choosing`
//! and specs/Best.
#![tactic(auto)]

mod choosing;
mod fault;
mod images;
mod label;
mod laws;
mod put;
mod slot;

pub use fault::LabelFault;
pub use images::best_label;
pub use label::{Label, label_write};
pub use laws::{rest_law, spelling_law};
pub use put::{close_slot, fill_slot, open_slot, put_label};
pub use slot::{has_other_version, read_slot};

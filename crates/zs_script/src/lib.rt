//! What goes in and out of a session as text: the lines of its script, and the replies of the pool.
//!
//! Layer: above the names of `zs_ids` alone. The pool speaks `Command`, `Reply` and `Refusal`, and never a text; a
//! session calls `parse` once, before any device is touched, and `text` for each reply.
//!
//! Model: a script is its list of bytes, a reply the record of the values that it prints, and a text a list of bytes. Two
//! functions of lists say all: `parsed_script` (`specs/Script`) is the lines of a script or its first fault, and
//! `reply_text` (`specs/Texts`) is the text of a reply.
//! Promise: `parse` gives exactly `parsed_script`, and so the first fault and no other; what it gives is a
//! `pool` line and then lines of other commands, each with numbers in range (`IsScript` of `specs/Lines`). A word is read as
//! a number exactly where it is the number's decimal (`laws`). `text` gives exactly `reply_text`.
//! Work: one pass over the script, and no line is copied.
//!
//! To add a command that is built: a variant of `Verb` with its word (`verb`, `specs/Verbs`), its row of words
//! (`rows`, `specs/Rows`), its ranges (`specs/Lines`, `proofs/RangeLemmas`). To change what a number or a name may be see
//! `fields`; to change where a command may stand see `allows` of `script`; to change what a line is see `next_line`
//! there. A reply's text is one function in `texts` or `scan_texts` and one equation in `specs/Texts`.
//!
//! Narrow in this version, each in one place: an object has one level (`LEVELS` of `rows`, `levels_of`), and commands that are
//! not built yet are no words (`Verb`).
#![tactic(auto)]

pub mod command;
mod fields;
pub mod laws;
pub mod refusal;
pub mod reply;
mod rows;
mod scan_texts;
mod script;
mod texts;
mod verb;

pub use command::{Command, Line, ScriptFault, Why};
pub use refusal::Refusal;
pub use reply::{
    ErrorPiece, Finished, IssuedPiece, LandedPiece, Letter, Listed, Reply, ScanKind, ScanState,
    ScanStatus, TodoEntry, WalkEnd, WalkPlace, Walking,
};
pub use script::parse;
pub use texts::text;

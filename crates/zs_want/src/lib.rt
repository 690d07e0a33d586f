//! What a scan asks of its owner: which pieces it examines, and what it reads next.
//!
//! Layer: above `zs_phys`. A scan and a queue of extents take such a closure as a type parameter, so that the rule is
//! named once, at the top, and each call of it is a direct one.
//! Model: a closure is seen by what it answers. That the closures of a type answer by the rule is a condition on the type
//! (`AreFilters F.Fn` and `ArePicks P.Fn` of `specs/Closures`), which every function has that may ask: a type can't carry
//! such a fact of a type parameter.
//! Promise: `Want::ask` answers whether a piece is in scope (`in_scope` of `zs_phys/specs/Scope`), `Pick::ask` the number
//! of the span that is read next (`picked` of `specs/Picking`). The functions `in_scope` and `pick_of` answer so, and meet
//! the conditions.
//!
//! To change what a scan examines see `filter`, with `specs/Scope` of `zs_phys`; to change what it reads next see `picking`
//! and `specs/Picking`.
#![tactic(auto)]

pub mod filter;
pub mod picking;

pub use filter::{Want, in_scope};
pub use picking::{Order, Pick, Span, pick_of};

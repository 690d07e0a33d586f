//! What a change of the datasets frees.

use zs_ids::{DsId, Item, Seq};

/// What a change freed: the pieces that are live no longer, in order of place. Where a snapshot was destroyed that had a
/// child, that child.
#[derive(Debug, Drop)]
pub struct Freed {
    /// The pieces, each with its size and sum.
    pub items: Seq<Item>,
    /// The one child of a destroyed snapshot.
    pub next: Option<DsId>,
}

//! What a scan examines.

use zs_ids::Seq;
use zs_ranges::TxgSet;

/// Which blocks a scan examines.
#[derive(Clone, Copy, Debug, PartialEq, Eq)]
pub enum Kind {
    /// None: there was no scan yet.
    Idle,
    /// All blocks.
    Scrub,
    /// The blocks of which a device may lack its copy.
    Resilver,
}

/// The scope of a scan. A piece is in scope where its birth is strictly between `min` and `max` and, for a
/// resilver, one of the devices of its mirror has the birth in its log.
#[derive(Debug, Drop)]
pub struct Scope {
    /// Which blocks.
    pub kind: Kind,
    /// Blocks born up to this transaction group are out of scope.
    pub min: u64,
    /// Blocks born from this transaction group on are out of scope.
    pub max: u64,
    /// The number of devices of each mirror, 1 to 4.
    pub width: u8,
    /// For each device of the pool the transaction groups of which it may have lacked copies when the scan
    /// started; empty sets for a scrub, and where there was no scan yet.
    pub dirty0: Seq<TxgSet>,
}

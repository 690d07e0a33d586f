//! Places, pieces and block pointers.

use crate::limits::DEVICES;

/// A block's first sector on each device of a mirror.
#[derive(Clone, Copy, Debug, PartialEq, Eq, PartialOrd, Ord)]
pub struct Place {
    /// The mirror, below 8.
    pub vdev: u8,
    /// The first sector, below 2,097,152.
    pub sector: u32,
}

/// One place of a block, with the transaction group that wrote it. No two live pieces are equal.
#[derive(Clone, Copy, Debug, PartialEq, Eq, PartialOrd, Ord)]
pub struct Piece {
    /// Where it lies.
    pub place: Place,
    /// The transaction group that wrote it.
    pub birth: u64,
}

/// A block pointer, after `blkptr_t` of OpenZFS.
#[derive(Clone, Copy, Debug, PartialEq, Eq)]
pub struct Bp {
    /// How many of `places` are used: 1 in this version, at most 3.
    pub count: u8,
    /// Where the block's pieces lie; those from `count` on are zero.
    pub places: [Place; 3],
    /// The block's size in sectors, 1 to 256.
    pub sectors: u16,
    /// The transaction group that wrote the block, not 0.
    pub birth: u64,
    /// 0 for a record or a block of dnodes, above that the height over the records.
    pub level: u8,
    /// The SHA-256 sum of the block's bytes.
    pub sum: [u8; 32],
}

/// A piece with what it takes to read and check it.
#[derive(Clone, Copy, Debug, PartialEq, Eq)]
pub struct Item {
    /// The piece.
    pub piece: Piece,
    /// Its size in sectors, 1 to 256.
    pub sectors: u16,
    /// The SHA-256 sum of its bytes.
    pub sum: [u8; 32],
}

/// What a call over several devices did on each of them.
#[derive(Clone, Copy, Debug, PartialEq, Eq)]
pub struct Marks {
    /// The devices that failed or were offline, a bit for each.
    pub failed: u32,
    /// Per device the journal place of its failed call, else of its last call; `u64::MAX` for none.
    pub places: [u64; DEVICES],
}

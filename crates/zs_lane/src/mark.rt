// The marks of a journal.

/// What a journal says of one device call. A range is its first byte and its length in bytes; the sum is the
/// SHA-256 of the bytes that were read or written.
#[derive(Clone, Copy, Debug, PartialEq, Eq)]
pub enum Mark {
    /// This range was read, and had this sum.
    Read(u64, u64, [u8; 32]),
    /// Bytes of this sum were written to this range.
    Wrote(u64, u64, [u8; 32]),
    /// A sync succeeded.
    Synced,
    /// A read, a write or a sync failed.
    Failed,
}

/// Where in the journal the mark of a read stands, and the sum of the bytes that were read.
#[derive(Clone, Copy, Debug, PartialEq, Eq)]
pub struct Summed {
    /// The place of the mark in the journal, from 0 on.
    pub place: u64,
    /// The SHA-256 of the bytes.
    pub sum: [u8; 32],
}

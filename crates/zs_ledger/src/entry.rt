//! What became of each copy of a checked piece.

ghost use Rattle.std.specs.Prelude.{◌≡◌, ◌<◌, ◌≤◌};
ghost use Rattle.std.specs.List.{list_any};
ghost use Rattle.zs_ledger.specs.Entry.{failed_on, has_error, is_bad};

use zs_ids::Piece;

/// What one copy of a piece turned out to be when it was checked.
#[derive(Clone, Copy, Debug, PartialEq, Eq)]
pub enum CopyResult {
    /// The mirror has no such copy.
    Missing,
    /// Its bytes had the sum.
    Good,
    /// Its bytes had not the sum, and those of a good copy were written in their place and synced.
    Rewritten,
    /// Its bytes had not the sum, and those of no other copy had it.
    Bad,
    /// Its read, or the write or the sync of its repair, failed.
    Fault,
    /// Its device was offline.
    Absent,
}

impl CopyResult {
    /// Whether the copy was left without good bytes, or was not seen to have them: bad, a fault or absent.
    pub fn is_error(self) -> bool
        ensures { result ≡ is_bad self }
    {
        matches!(
            self,
            CopyResult::Bad | CopyResult::Fault | CopyResult::Absent
        )
    }
}

/// A piece that was checked, with what became of its copies.
#[derive(Clone, Copy, Debug, PartialEq, Eq)]
pub struct Entry {
    /// The piece.
    pub piece: Piece,
    /// Its size in sectors.
    pub sectors: u16,
    /// The SHA-256 sum that its bytes were checked against.
    pub sum: [u8; 32],
    /// What each copy was, in order of the mirror's devices; `Missing` from the mirror's width on.
    pub copies: [CopyResult; 4],
    /// For each copy the place in its device's journal of the last call on it; `u64::MAX` for none,
    /// or one before this opening.
    pub marks: [u64; 4],
}

impl Entry {
    /// Whether a copy is an error.
    pub fn has_error(&self) -> bool
        ensures { result ≡ has_error self.now }
    {
        self.copies.iter().any(|copy| copy.is_error())
    }

    /// Whether the copy on the device is an error, in a pool of mirrors of that width (1 to 4).
    pub fn failed_on(&self, dev: u8, width: u8) -> bool
        requires some { 0 < width }
        requires few { width ≤ 4 }
        ensures { result ≡ failed_on dev width self.now }
    {
        self.piece.place.vdev == dev / width && self.copies[(dev % width) as usize].is_error()
    }
}

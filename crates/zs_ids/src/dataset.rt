//! Datasets' ids and names.

ghost use Rattle.std.specs.Prelude.{◌≡◌, ◌<◌, ◌≤◌, length};

/// A dataset's number. Ids are given in rising order and never again; the origin is 0.
#[derive(Clone, Copy, Debug, PartialEq, Eq, PartialOrd, Ord)]
pub struct DsId(pub u32);

impl DsId {
    /// The origin: the empty snapshot on which every filesystem stands that is no clone of another snapshot.
    pub const ORIGIN: DsId = DsId(0);
}

/// A name of 1 to 12 bytes, each a lower-case letter or a digit. No bytes stand for no name: the
/// origin's owner, and the label of a head.
#[derive(Clone, Copy, Debug, PartialEq, Eq, PartialOrd, Ord)]
pub struct Name {
    /// How many of `bytes` are used, at most 12.
    pub len: u8,
    /// The bytes; those from `len` on are zero.
    pub bytes: [u8; 12],
}

impl Name {
    /// The name of no bytes.
    pub const EMPTY: Name = Name {
        len: 0,
        bytes: [0; 12],
    };
}

/// The name by which a command names a dataset: a head's owner, or a snapshot's owner and label.
#[derive(Clone, Copy, Debug, PartialEq, Eq, PartialOrd, Ord)]
pub struct DsName {
    /// The head's name, or the name of the head of which the snapshot was taken.
    pub owner: Name,
    /// The snapshot's label, empty for a head.
    pub label: Name,
}

//! Why bytes are no record.

ghost use Rattle.std.specs.Prelude.{◌≡◌};

use std::alloc::{AllocError, AllocFailed};

/// Why bytes are no record. A record is read from the front, and the fault at the earliest place is told; at one place
/// Short comes before Field, and Field before Order. Trailing and Graph come last.
#[derive(Clone, Copy, Debug, PartialEq, Eq)]
pub enum RecordFault {
    /// The bytes end inside a field.
    Short,
    /// They do not begin as a record does.
    Magic,
    /// The version is not 1.
    BadVersion,
    /// A number is out of its range, or a zero is not zero.
    Field,
    /// Ids, keys or intervals do not rise, or what may stand once stands twice.
    Order,
    /// Bytes follow behind the record.
    Trailing,
    /// The datasets, the scan and what it checked do not go together.
    Graph,
    /// Memory was wanting.
    Memory,
}

impl From<AllocError> for RecordFault {
    ghost use Rattle.zs_record.specs.declared.fault.RecordFault.TheVariants.{Memory};

    ghost from_gives = { λ _ e. e ≡ Memory };

    fn from(_error: AllocError) -> Self {
        RecordFault::Memory
    }
}

impl<T: Drop> From<AllocFailed<T>> for RecordFault {
    ghost use Rattle.zs_record.specs.declared.fault.RecordFault.TheVariants.{Memory};

    ghost from_gives = { λ _ e. e ≡ Memory };

    fn from(_error: AllocFailed<T>) -> Self {
        RecordFault::Memory
    }
}

//! Why the images have no best label.
ghost use Rattle.std.specs.Prelude.{◌≡◌};
ghost use Rattle.zs_label.specs.declared.fault.LabelFault.TheVariants.{Memory};

use std::alloc::{AllocError, AllocFailed};

/// Why the images have no best label. Where more than one is so, the first of this list is told.
#[derive(Clone, Copy, Debug, PartialEq, Eq)]
pub enum LabelFault {
    /// An open slot with the magic of a label has another version than 1.
    Version,
    /// No image has a label.
    NoLabel,
    /// A label was made for another pool than the best one, or for another image of its pool.
    OtherPool,
    /// There are more or fewer images than the best label says.
    ImageCount,
    /// Two labels of the best transaction group are of different records.
    Split,
    /// A mirror has no image with a label, of any transaction group.
    VdevMissing,
    /// Memory was wanting.
    Memory,
}

impl From<AllocError> for LabelFault {
    ghost from_gives = { λ _ e. e ≡ Memory };

    fn from(_: AllocError) -> Self {
        LabelFault::Memory
    }
}

impl<T: Drop> From<AllocFailed<T>> for LabelFault {
    ghost from_gives = { λ _ e. e ≡ Memory };

    fn from(_: AllocFailed<T>) -> Self {
        LabelFault::Memory
    }
}

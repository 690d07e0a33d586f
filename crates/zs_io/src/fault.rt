// How a call of the outside fails.
ghost use Rattle.std.specs.Prelude.{◌≡◌};
ghost use Rattle.zs_io.specs.declared.fault.BayFault.TheVariants.{Memory};

use std::alloc::{AllocError, AllocFailed};

/// A read of a source or a put into a sink failed. The object's count of faults rose.
#[derive(Clone, Copy, Debug, PartialEq, Eq)]
pub struct Failed;

/// How a call of a device or of a bay fails.
#[derive(Clone, Copy, Debug, PartialEq, Eq)]
pub enum BayFault {
    /// The device or the bay failed. Its count of faults rose.
    Failed,
    /// Memory was wanting. The object is as it was.
    Memory,
}

impl From<AllocError> for BayFault {
    ghost from_gives = { λ _ e. e ≡ Memory };

    fn from(_: AllocError) -> Self {
        BayFault::Memory
    }
}

impl<T: Drop> From<AllocFailed<T>> for BayFault {
    ghost from_gives = { λ _ e. e ≡ Memory };

    fn from(_: AllocFailed<T>) -> Self {
        BayFault::Memory
    }
}

//! Why a call of the space is refused.

use std::alloc::{AllocError, AllocFailed};

/// Why a call of the space is refused.
#[derive(Clone, Copy, Debug, PartialEq, Eq)]
pub enum SpaceFault {
    /// There is no free range of that size, or the range is not free.
    NoSpace,
    /// Want of memory.
    Memory,
}

impl From<AllocError> for SpaceFault {
    ghost use Rattle.std.specs.Prelude.{◌≡◌};
    ghost use Rattle.zs_alloc.specs.declared.fault.SpaceFault.TheVariants.{Memory};

    ghost from_gives = { λ _ e. e ≡ Memory };

    fn from(_: AllocError) -> SpaceFault {
        SpaceFault::Memory
    }
}

impl<T: Drop> From<AllocFailed<T>> for SpaceFault {
    ghost use Rattle.std.specs.Prelude.{◌≡◌};
    ghost use Rattle.zs_alloc.specs.declared.fault.SpaceFault.TheVariants.{Memory};

    ghost from_gives = { λ _ e. e ≡ Memory };

    fn from(_: AllocFailed<T>) -> SpaceFault {
        SpaceFault::Memory
    }
}

// How a read of a mirror fails.
ghost use Rattle.std.specs.Prelude.{◌≡◌};
ghost use Rattle.zs_mirror.specs.declared.fault.ReadFault.TheVariants.{Memory};

use std::alloc::AllocError;

/// How a read of a block fails.
#[derive(Clone, Copy, Debug, PartialEq, Eq)]
pub enum ReadFault {
    /// Of each online copy the read failed, or its bytes had another sum. For each copy the place of its call in the
    /// device's journal; `u64::MAX` for none.
    Lost([u64; 12]),
    /// Memory was wanting.
    Memory,
}

impl From<AllocError> for ReadFault {
    ghost from_gives = { λ _ e. e ≡ Memory };

    fn from(_: AllocError) -> Self {
        ReadFault::Memory
    }
}

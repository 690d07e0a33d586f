//! Why a change of the datasets is refused.

ghost use Rattle.std.specs.Prelude.{◌≡◌};

use std::alloc::{AllocError, AllocFailed};

/// Why a change of the datasets is refused; nothing has changed then. Of the reasons that hold, the one that stands first here
/// is answered.
#[derive(Clone, Copy, Debug, PartialEq, Eq)]
pub enum GraphFault {
    /// No dataset has the id.
    NoDataset,
    /// A head has the name, or a snapshot of that owner has the label.
    Exists,
    /// A head was needed.
    NotHead,
    /// A snapshot was needed.
    NotSnapshot,
    /// The snapshot has more than one child, or is the origin.
    HasClones,
    /// The head's parent snapshot has the same owner.
    HasSnapshots,
    /// The heads are one, or have different parents.
    NotSiblings,
    /// The head's parent was created in this transaction group.
    SameTxg,
    /// There are 255 datasets, or the next id is 4,294,967,295.
    TooMany,
    /// Memory was wanting.
    Memory,
}

impl From<AllocError> for GraphFault {
    ghost use Rattle.zs_graph.specs.declared.fault.GraphFault.TheVariants.{Memory};

    ghost from_gives = { λ _ e. e ≡ Memory };

    fn from(_error: AllocError) -> Self {
        GraphFault::Memory
    }
}

impl<T: Drop> From<AllocFailed<T>> for GraphFault {
    ghost use Rattle.zs_graph.specs.declared.fault.GraphFault.TheVariants.{Memory};

    ghost from_gives = { λ _ e. e ≡ Memory };

    fn from(_error: AllocFailed<T>) -> Self {
        GraphFault::Memory
    }
}

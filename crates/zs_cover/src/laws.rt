//! One law for each event, one for the turns of the walk, and those of a scan's start and end.

ghost use Rattle.zs_cover.specs.Laws.{ApplyLaw, AwayLaw, CloneLaw, DestroyLaw, EndLaw, FsLaw, HomeLaw, LaterLaw, RestLaw, SnapshotLaw, StartLaw, SwapLaw, TurnLaw};

/// A turn of the walk, in a scan whose scope ends by the transaction group whose tasks come next, keeps a state
/// sound and covering, where what it puts is done.
pub fn turn_law()
    ensures { TurnLaw }
{}

/// A snapshot that is taken of a head, with the bookmark and the queue moved from the head to the snapshot, keeps the
/// graph valid and the state sound and covering.
pub fn snapshot_law()
    ensures { SnapshotLaw }
{}

/// Blocks that are applied to a head keep the graph valid and the state sound and covering.
pub fn apply_law()
    ensures { ApplyLaw }
{}

/// A filesystem that is made keeps the graph valid and the state sound and covering.
pub fn fs_law()
    ensures { FsLaw }
{}

/// A clone that is made of a snapshot keeps the graph valid and the state sound and covering.
pub fn clone_law()
    ensures { CloneLaw }
{}

/// A device that goes offline keeps the state sound and covering.
pub fn away_law()
    ensures { AwayLaw }
{}

/// A dataset that is destroyed, a head or a snapshot with at most one child, with the bookmark and the queue moved to the
/// child, or the dataset dropped from them where it has none, keeps the graph valid and the state sound and covering.
pub fn destroy_law()
    ensures { DestroyLaw }
{}

/// Two heads that are swapped, with their places in the state exchanged, keep the graph valid and the state sound and
/// covering.
pub fn swap_law()
    ensures { SwapLaw }
{}

/// Each live piece of a valid graph is in one entry at home, of one dataset, which is found by climbing from any dataset
/// that holds the piece: up to it, each dataset holds this entry.
pub fn home_law()
    ensures { HomeLaw }
{}

/// A scan that starts, in a valid graph, with the origin alone in its queue, is sound and covers, whatever was done.
pub fn start_law()
    ensures { StartLaw }
{}

/// A scan that is between two datasets with an empty queue has done each live piece in scope, where it runs or has
/// finished.
pub fn rest_law()
    ensures { RestLaw }
{}

/// A state that is sound and covers stays so for later transaction groups, and where more is done.
pub fn later_law()
    ensures { LaterLaw }
{}

/// A scan that is at rest stays sound and covering where it finishes.
pub fn end_law()
    ensures { EndLaw }
{}

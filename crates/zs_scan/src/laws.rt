//! What is true of the items of live blocks, and how a scan stays the datasets' own where it is told nothing.

ghost use Rattle.zs_scan.specs.Changes.{ApplyLaw, CloneLaw, LaterLaw, NoneFreedLaw};
ghost use Rattle.zs_scan.specs.Covered.{RoomLaw};

/// The item of a block that some dataset has lies in the room of the pool, and has the size of a block.
pub fn room_law()
    ensures { RoomLaw }
{}

/// A clone that is made, or a filesystem, which is a clone of the origin, leaves a scan the datasets' own.
pub fn clone_law()
    ensures { CloneLaw }
{}

/// Blocks that are applied to a head leave a scan the datasets' own, but for the pieces that this frees.
pub fn apply_law()
    ensures { ApplyLaw }
{}

/// A scan stays the datasets' own while later transaction groups come.
pub fn later_law()
    ensures { LaterLaw }
{}

/// A scan is the datasets' own but for no piece exactly where it is theirs.
pub fn none_freed_law()
    ensures { NoneFreedLaw }
{}

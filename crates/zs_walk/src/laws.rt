//! The laws of the walk. A law is a function that does nothing, and whose contract is the law.

ghost use Rattle.zs_walk.specs.Laws.{LeftLaw, OneStepLaw, RisesLaw};

/// In a state that belongs to a valid graph one turn comes at most, so that `visit` answers the one that comes.
pub fn one_step_law()
    ensures { OneStepLaw }
{}

/// At a dataset the key rises strictly at each block that is met, so that no pass meets a block twice.
pub fn rises_law()
    ensures { RisesLaw }
{}

/// Each turn but the empty one leaves fewer turns, whatever datasets are walked, so that a walk comes to its end.
pub fn left_law()
    ensures { LeftLaw }
{}

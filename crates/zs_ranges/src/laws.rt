//! Laws of the lists of intervals.

ghost use Rattle.zs_ranges.specs.Joining.{JoinedLaw};
ghost use Rattle.zs_ranges.specs.Set.{SameSetLaw};

/// Two lists of intervals in form that have the same groups are equal.
#[tactic(auto, using(crate::proofs::Unique::same_set_law))]
pub fn same_set_law()
    ensures { SameSetLaw }
{}

/// Intervals of which the lowest are joined keep every group, the least and the greatest, and gain just the gaps
/// between those that were joined.
#[tactic(auto, using(crate::proofs::Gaps::joined_law))]
pub fn joined_law()
    ensures { JoinedLaw }
{}

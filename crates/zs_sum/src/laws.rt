//! Laws of the pointers' bytes.

ghost use Rattle.zs_sum.specs.Laws.{PointerLaw};

/// A pointer in range is read back from what `bp_write` writes, and a pointer that is read has just the bytes from
/// which it was read.
#[tactic(auto, using(crate::proofs::Pointers::pointer_law))]
pub fn pointer_law()
    ensures { PointerLaw }
{}

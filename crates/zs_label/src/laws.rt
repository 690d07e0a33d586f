//! Laws of labels. They take and answer nothing: what they say is their contract.

ghost use Rattle.zs_label.specs.Laws.{ReadsWritten, FindsOpen, SpellsRead};
ghost use Rattle.zs_label.specs.Rest.{RestStays};

/// A label has one spelling: what was written is read where its slot is open, and what is read spells back to the same bytes.
pub fn spelling_law()
    ensures written { ReadsWritten }
    ensures open { FindsOpen }
    ensures read { SpellsRead }
{}

/// What is the same outside of a slot, its gate and its record has the same other slot with its record, and the same space.
pub fn rest_law()
    ensures { RestStays }
{}

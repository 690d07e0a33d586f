//! Laws of the definitions that the contracts of this crate cite.

ghost use Rattle.zs_script.specs.Laws.{NumbersRead, NumbersReadAgain};

/// A word is read as a number exactly where it is the number's decimal and the number is in range.
pub fn numbers_law()
    ensures read { NumbersRead }
    ensures again { NumbersReadAgain }
{}

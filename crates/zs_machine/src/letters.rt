//! The letters of checked copies, as replies tell them.

ghost use Rattle.std.specs.Prelude.{◌≡◌, map};
ghost use Rattle.zs_machine.specs.Told.{letter_of};

use zs_ledger::{CopyResult, Entry};
use zs_script::Letter;

/// The letters of an entry's copies.
pub fn letters_of(entry: &Entry) -> [Option<Letter>; 4]
    ensures { result ≡ map letter_of entry.now.copies }
{
    let [first, second, third, fourth] = entry.copies;
    [
        letter_of(first),
        letter_of(second),
        letter_of(third),
        letter_of(fourth),
    ]
}

/// The letter of a copy; none where the mirror has no such copy.
pub fn letter_of(copy: CopyResult) -> Option<Letter>
    ensures { result ≡ letter_of copy }
{
    match copy {
        CopyResult::Missing => None,
        CopyResult::Good => Some(Letter::Good),
        CopyResult::Rewritten => Some(Letter::Rewritten),
        CopyResult::Bad => Some(Letter::Bad),
        CopyResult::Fault => Some(Letter::Fault),
        CopyResult::Absent => Some(Letter::Absent),
    }
}

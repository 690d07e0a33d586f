//! Names.

ghost use Rattle.std.specs.Prelude.{◌≡◌, ◌≤◌};
ghost use Rattle.std.specs.List.{list_all};
ghost use Rattle.zs_record.specs.Names.{is_name, is_name_byte, name_of};
ghost use Rattle.zs_record.specs.Reading.{Gives};

use crate::fault::RecordFault;
use crate::numbers::{are_zeros, text_of, u8_within};
use zs_ids::Name;

/// A name of a length from `least` to `most`, at most 12.
#[tactic(auto, unfolding(crate::specs::Names::name_of))]
pub(crate) fn name_of(bytes: &[u8], least: u8, most: u8) -> Result<(Name, &[u8]), RecordFault>
    requires { most ≤ 12 }
    ensures { Gives (λ x. (x.0, x.1.now)) result (name_of least most bytes.now) }
{
    let (len, rest) = u8_within(bytes, least, most)?;
    let (text, rest) = text_of(rest)?;
    if !is_name(len, text) {
        return Err(RecordFault::Field);
    }
    Ok((Name { len, bytes: text }, rest))
}

/// Whether the first `len` bytes are letters or digits, and the others zero.
fn is_name(len: u8, text: [u8; 12]) -> bool
    ensures { result ≡ is_name len text }
{
    let (used, unused) = text.split_at(usize::from(len).min(12));
    are_in_names(used) && are_zeros(unused)
}

/// Whether names may have each of the bytes.
fn are_in_names(bytes: &[u8]) -> bool
    ensures { result ≡ list_all is_name_byte bytes.now }
{
    bytes.iter().all(|b| is_in_names(*b))
}

/// Whether names may have the byte.
fn is_in_names(b: u8) -> bool
    ensures { result ≡ is_name_byte b }
{
    matches!(b, b'a'..=b'z' | b'0'..=b'9')
}

//! The words behind a command word: numbers and names.

ghost use Rattle.std.specs.Prelude.{◌≡◌, ◌≤◌, ◌<◌, ◌-◌, ◌==◌, ◌++◌, length, replicate, position, IfOk, IfSome};
ghost use Rattle.std.specs.List.{list_all};
ghost use Rattle.zs_script.specs.Fields.{digits_from, number_of, size_of, blocks_of, is_name_byte, is_name_word, name_of, head_of, snapshot_of, ds_of};

use crate::command::Why;
use zs_ids::limits::{BLOCK_BYTES, BLOCKS, LEAST_BLOCKS, SECTOR};
use zs_ids::{DsName, Name};

/// A number from `low` to `high`: decimal digits without a leading zero.
#[tactic(auto, unfolding(crate::specs::Fields::number_of))]
pub(crate) fn number(word: &[u8], low: u64, high: u64) -> Result<u64, Why>
    ensures exact { result ≡ number_of low high word.now }
    ensures within { IfOk result (λ n. n ≤ high) }
{
    if word.is_empty() || word.len() > 1 && word[0] == b'0' {
        return Err(Why::Number);
    }
    let n = digits(word)?;
    if n < low || high < n {
        return Err(Why::Number);
    }
    Ok(n)
}

/// The value of decimal digits, below 2 to the 64.
fn digits(word: &[u8]) -> Result<u64, Why>
    ensures { result ≡ digits_from 0 word.now }
{
    let mut n: u64 = 0;
    for b in word {
        if !b.is_ascii_digit() {
            return Err(Why::Number);
        }
        let digit = u64::from(*b - b'0');
        if n > (u64::MAX - digit) / 10 {
            return Err(Why::Number);
        }
        n = n * 10 + digit;
    }
    Ok(n)
}

/// The bytes of a record: a power of two from 512 to 131,072.
#[tactic(auto, unfolding(crate::specs::Fields::size_of))]
pub(crate) fn size(word: &[u8]) -> Result<u32, Why>
    ensures { result ≡ size_of word.now }
{
    let n = number(word, SECTOR, BLOCK_BYTES as u64)? as u32;
    if n.is_power_of_two() {
        Ok(n)
    } else {
        Err(Why::Number)
    }
}

/// How many blocks a pool may have: a multiple of 4 from 64 to 65,536.
#[tactic(auto, unfolding(crate::specs::Fields::blocks_of))]
pub(crate) fn blocks(word: &[u8]) -> Result<u32, Why>
    ensures { result ≡ blocks_of word.now }
{
    let n = number(word, u64::from(LEAST_BLOCKS), u64::from(BLOCKS))? as u32;
    if n % 4 == 0 { Ok(n) } else { Err(Why::Number) }
}

/// A name of 1 to 12 lower-case letters and digits.
#[tactic(auto, unfolding(crate::specs::Fields::name_of))]
pub(crate) fn name(word: &[u8]) -> Result<Name, Why>
    ensures { result ≡ name_of word.now }
{
    if !is_name(word) {
        return Err(Why::Name);
    }
    Ok(Name {
        len: word.len() as u8,
        bytes: padded(word),
    })
}

/// Whether the word is a name.
fn is_name(word: &[u8]) -> bool
    ensures { result ≡ is_name_word word.now }
{
    if word.is_empty() || word.len() > 12 {
        return false;
    }
    is_all_in_name(word)
}

/// Whether names may have each of the bytes.
fn is_all_in_name(bytes: &[u8]) -> bool
    ensures { result ≡ list_all is_name_byte bytes.now }
{
    bytes.iter().all(|b| is_in_name(*b))
}

/// Whether names may have the byte.
fn is_in_name(b: u8) -> bool
    ensures { result ≡ is_name_byte b }
{
    matches!(b, b'a'..=b'z' | b'0'..=b'9')
}

/// The bytes of a name, with zeros behind them.
fn padded(word: &[u8]) -> [u8; 12]
    requires { length word.now ≤ 12 }
    ensures { result ≡ word.now ++ replicate (12 - length word.now) 0 }
{
    let mut bytes = [0; 12];
    bytes[..word.len()].copy_from_slice(word);
    bytes
}

/// A dataset's name: a head's name, or `OWNER@LABEL` for a snapshot.
#[tactic(auto, unfolding(crate::specs::Fields::ds_of))]
pub(crate) fn ds_name(word: &[u8]) -> Result<DsName, Why>
    ensures { result ≡ ds_of word.now }
{
    match first_at(word) {
        None => head_name(word),
        Some(at) => snapshot_name(&word[..at], &word[at + 1..]),
    }
}

/// The place of the first `@`.
fn first_at(word: &[u8]) -> Option<usize>
    ensures first { result ≡ position (λ b. b == 64) word.now }
    ensures within { IfSome result (λ at. at < length word.now) }
{
    word.iter().position(|b| *b == b'@')
}

/// A head's name.
fn head_name(word: &[u8]) -> Result<DsName, Why>
    ensures { result ≡ head_of word.now }
{
    let owner = name(word)?;
    Ok(DsName {
        owner,
        label: Name::EMPTY,
    })
}

/// A snapshot's name.
fn snapshot_name(owner: &[u8], label: &[u8]) -> Result<DsName, Why>
    ensures { result ≡ snapshot_of owner.now label.now }
{
    let owner = name(owner)?;
    let label = name(label)?;
    Ok(DsName { owner, label })
}

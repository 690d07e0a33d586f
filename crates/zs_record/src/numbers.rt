//! Numbers, zeros and sums.

ghost use Rattle.std.specs.Prelude.{◌≡◌, ◌≤◌, ◌==◌, IfOk};
ghost use Rattle.std.specs.Int.{w8, w16, w32, w64};
ghost use Rattle.std.specs.List.{list_all};
ghost use Rattle.zs_record.specs.Numbers.{number_of, number_within, bytes_of, zeros_of};
ghost use Rattle.zs_record.specs.Reading.{Gives};

use crate::fault::RecordFault;

/// A number of one byte.
#[tactic(auto, unfolding(crate::specs::Numbers::number_of))]
pub(crate) fn u8_of(bytes: &[u8]) -> Result<(u8, &[u8]), RecordFault>
    ensures { Gives (λ x. (x.0, x.1.now)) result (number_of w8 bytes.now) }
{
    if bytes.is_empty() {
        return Err(RecordFault::Short);
    }
    let (front, rest) = bytes.split_at(1);
    Ok((front[0], rest))
}

/// A number of two bytes.
#[tactic(auto, unfolding(crate::specs::Numbers::number_of))]
pub(crate) fn u16_of(bytes: &[u8]) -> Result<(u16, &[u8]), RecordFault>
    ensures { Gives (λ x. (x.0, x.1.now)) result (number_of w16 bytes.now) }
{
    if bytes.len() < 2 {
        return Err(RecordFault::Short);
    }
    let (front, rest) = bytes.split_at(2);
    Ok((u16::from_be_bytes([front[0], front[1]]), rest))
}

/// A number of four bytes.
#[tactic(auto, unfolding(crate::specs::Numbers::number_of))]
pub(crate) fn u32_of(bytes: &[u8]) -> Result<(u32, &[u8]), RecordFault>
    ensures { Gives (λ x. (x.0, x.1.now)) result (number_of w32 bytes.now) }
{
    if bytes.len() < 4 {
        return Err(RecordFault::Short);
    }
    let (front, rest) = bytes.split_at(4);
    let number = u32::from_be_bytes([front[0], front[1], front[2], front[3]]);
    Ok((number, rest))
}

/// A number of eight bytes.
#[tactic(auto, unfolding(crate::specs::Numbers::number_of))]
pub(crate) fn u64_of(bytes: &[u8]) -> Result<(u64, &[u8]), RecordFault>
    ensures { Gives (λ x. (x.0, x.1.now)) result (number_of w64 bytes.now) }
{
    if bytes.len() < 8 {
        return Err(RecordFault::Short);
    }
    let (front, rest) = bytes.split_at(8);
    let number = u64::from_be_bytes([
        front[0], front[1], front[2], front[3], front[4], front[5], front[6], front[7],
    ]);
    Ok((number, rest))
}

/// A number of one byte, from `least` to `most`.
#[tactic(auto, unfolding(crate::specs::Numbers::number_within))]
pub(crate) fn u8_within(bytes: &[u8], least: u8, most: u8) -> Result<(u8, &[u8]), RecordFault>
    ensures { Gives (λ x. (x.0, x.1.now)) result (number_within w8 least most bytes.now) }
{
    let (n, rest) = u8_of(bytes)?;
    if n < least || most < n {
        return Err(RecordFault::Field);
    }
    Ok((n, rest))
}

/// A number of four bytes, from `least` to `most`.
#[tactic(auto, unfolding(crate::specs::Numbers::number_within))]
pub(crate) fn u32_within(bytes: &[u8], least: u32, most: u32) -> Result<(u32, &[u8]), RecordFault>
    ensures { Gives (λ x. (x.0, x.1.now)) result (number_within w32 least most bytes.now) }
{
    let (n, rest) = u32_of(bytes)?;
    if n < least || most < n {
        return Err(RecordFault::Field);
    }
    Ok((n, rest))
}

/// A number of eight bytes, from `least` to `most`.
#[tactic(auto, unfolding(crate::specs::Numbers::number_within))]
pub(crate) fn u64_within(bytes: &[u8], least: u64, most: u64) -> Result<(u64, &[u8]), RecordFault>
    ensures exact { Gives (λ x. (x.0, x.1.now)) result (number_within w64 least most bytes.now) }
    ensures within { IfOk result (λ x. x.0 ≤ most) }
{
    let (n, rest) = u64_of(bytes)?;
    if n < least || most < n {
        return Err(RecordFault::Field);
    }
    Ok((n, rest))
}

/// The 12 bytes of a name, whatever they are.
#[tactic(auto, unfolding(crate::specs::Numbers::bytes_of))]
pub(crate) fn text_of(bytes: &[u8]) -> Result<([u8; 12], &[u8]), RecordFault>
    ensures { Gives (λ x. (x.0, x.1.now)) result (bytes_of 12 bytes.now) }
{
    if bytes.len() < 12 {
        return Err(RecordFault::Short);
    }
    let (front, rest) = bytes.split_at(12);
    let mut text = [0; 12];
    text.copy_from_slice(front);
    Ok((text, rest))
}

/// The 32 bytes of a sum.
#[tactic(auto, unfolding(crate::specs::Numbers::bytes_of))]
pub(crate) fn sum_of(bytes: &[u8]) -> Result<([u8; 32], &[u8]), RecordFault>
    ensures { Gives (λ x. (x.0, x.1.now)) result (bytes_of 32 bytes.now) }
{
    if bytes.len() < 32 {
        return Err(RecordFault::Short);
    }
    let (front, rest) = bytes.split_at(32);
    let mut sum = [0; 32];
    sum.copy_from_slice(front);
    Ok((sum, rest))
}

/// The bytes behind `n` zeros.
#[tactic(auto, unfolding(crate::specs::Numbers::zeros_of, crate::specs::Numbers::bytes_of))]
pub(crate) fn behind_zeros(bytes: &[u8], n: usize) -> Result<&[u8], RecordFault>
    ensures { Gives (λ x. x.now) result (zeros_of n bytes.now) }
{
    if bytes.len() < n {
        return Err(RecordFault::Short);
    }
    let (front, rest) = bytes.split_at(n);
    if !are_zeros(front) {
        return Err(RecordFault::Field);
    }
    Ok(rest)
}

/// Whether all of the bytes are zero.
pub(crate) fn are_zeros(bytes: &[u8]) -> bool
    ensures { result ≡ list_all (λ b. b == 0) bytes.now }
{
    bytes.iter().all(|b| *b == 0)
}

//! Sets of transaction groups.

ghost use Rattle.std.specs.Prelude.{◌≡◌, ◌≤◌, IfOk};
ghost use Rattle.zs_ids.specs.declared.limits.TheConstants.{TXG_END};
ghost use Rattle.zs_record.specs.Logs.{txg_from, interval_of, intervals_of, set_of, logs_of};
ghost use Rattle.zs_record.specs.Reading.{Gives, GivesOrWants};

use crate::fault::RecordFault;
use crate::numbers::{u32_within, u64_within};
use std::alloc::Global;
use zs_ids::Seq;
use zs_ranges::Interval;

/// A transaction group from 1 to `last`, not below `from`.
#[tactic(auto, unfolding(crate::specs::Logs::txg_from))]
fn txg_from(bytes: &[u8], last: u64, from: u64) -> Result<(u64, &[u8]), RecordFault>
    ensures exact { Gives (λ x. (x.0, x.1.now)) result (txg_from last from bytes.now) }
    ensures within { IfOk result (λ x. x.0 ≤ last) }
{
    let (txg, rest) = u64_within(bytes, 1, last)?;
    if txg < from {
        return Err(RecordFault::Order);
    }
    Ok((txg, rest))
}

/// An interval that begins at `from` or later and ends by `last`.
#[tactic(auto, unfolding(crate::specs::Logs::interval_of))]
fn interval_of(bytes: &[u8], last: u64, from: u64) -> Result<(Interval, &[u8]), RecordFault>
    ensures exact { Gives (λ x. (x.0, x.1.now)) result (interval_of last from bytes.now) }
    ensures within { IfOk result (λ x. x.0.last ≤ last) }
{
    let (lower, rest) = txg_from(bytes, last, from)?;
    let (upper, rest) = txg_from(rest, last, lower)?;
    let span = Interval {
        first: lower,
        last: upper,
    };
    Ok((span, rest))
}

/// So many intervals, rising with a gap, of groups up to `last`.
fn intervals_of(
    alloc: Global,
    bytes: &[u8],
    last: u64,
    count: u32,
) -> Result<(Vec<Interval>, &[u8]), RecordFault>
    requires { last ≤ TXG_END }
    ensures { GivesOrWants (λ x. (x.0.items, x.1.now)) result (intervals_of last count 0 bytes.now) }
{
    let mut spans = Vec::new(alloc);
    let mut from = 0;
    let mut rest = bytes;
    for _ in 0..count {
        let (span, after) = interval_of(rest, last, from)?;
        spans.push(span)?;
        from = span.last + 2;
        rest = after;
    }
    Ok((spans, rest))
}

/// A set of at most so many intervals, of groups from 1 to `last`.
#[tactic(auto, unfolding(crate::specs::Logs::set_of))]
fn set_of(
    alloc: Global,
    bytes: &[u8],
    most: u32,
    last: u64,
) -> Result<(Vec<Interval>, &[u8]), RecordFault>
    requires { last ≤ TXG_END }
    ensures { GivesOrWants (λ x. (x.0.items, x.1.now)) result (set_of most last bytes.now) }
{
    let (count, rest) = u32_within(bytes, 0, most)?;
    let (spans, rest) = intervals_of(alloc, rest, last, count)?;
    Ok((spans, rest))
}

/// The sets of so many devices.
pub(crate) fn logs_of(
    alloc: Global,
    bytes: &[u8],
    most: u32,
    last: u64,
    count: u32,
) -> Result<(Vec<Seq<Interval>>, &[u8]), RecordFault>
    requires { last ≤ TXG_END }
    ensures { GivesOrWants (λ x. (x.0.items, x.1.now)) result (logs_of most last count bytes.now) }
{
    let mut logs = Vec::new(alloc);
    let mut rest = bytes;
    for _ in 0..count {
        let (spans, after) = set_of(alloc, rest, most, last)?;
        logs.push(Seq::from_vec(spans))?;
        rest = after;
    }
    Ok((logs, rest))
}

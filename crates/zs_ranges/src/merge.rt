//! Lists of intervals built in rising order.

ghost use Rattle.std.specs.Prelude.{◌≡◌, ◌≤◌, ℕ, nat_lt, OnOk, OnErr, IfOk};
ghost use Rattle.std.specs.Bool.{OnTrue};
ghost use Rattle.zs_ranges.specs.Set.{has_txg, IsCanonical, IsWithout, is_between};
ghost use Rattle.zs_ranges.specs.Build.{BeginBy, IsPutBehind, IsPutPart, IsUnion, StartsBelow};

use crate::set::Interval;
use std::alloc::{AllocError, Global};

/// Puts an interval behind the others, none of which begins above it; one that touches the last one widens it.
#[tactic(auto, using(crate::proofs::Rises::put_first))]
pub(crate) fn put_behind(spans: &mut Vec<Interval>, s: Interval) -> Result<(), AllocError>
    requires canonical { IsCanonical spans.old.items }
    requires filled { s.first ≤ s.last }
    requires behind { BeginBy s.first spans.old.items }
    ensures ok { OnOk result (IsPutBehind spans.old.items s spans.new.items) }
    ensures err { OnErr result (spans.new.items ≡ spans.old.items) }
{
    let n = spans.len();
    if n == 0 {
        spans.push(s)?;
        return Ok(());
    }
    let before = spans[n - 1];
    if before.last.saturating_add(1) < s.first {
        spans.push(s)?;
        return Ok(());
    }
    spans[n - 1] = Interval {
        first: before.first,
        last: before.last.max(s.last),
    };
    Ok(())
}

/// Whether an interval that begins at the group may be put behind the others.
pub(crate) fn begin_by(spans: &[Interval], first: u64) -> bool
    requires { IsCanonical spans.now }
    ensures { OnTrue result (BeginBy first spans.now) }
{
    match spans.last() {
        Some(s) => s.first <= first,
        None => true,
    }
}

/// Puts all of the intervals behind the others, none of which begins above them.
fn put_all(out: &mut Vec<Interval>, spans: &[Interval]) -> Result<(), AllocError>
    requires before { StartsBelow out.old.items spans.now }
    ensures ok { OnOk result (IsUnion out.old.items spans.now out.new.items) }
{
    for s in spans {
        put_behind(out, *s)?;
    }
    Ok(())
}

/// The intervals of both sets in one.
pub(crate) fn merged(
    alloc: Global,
    a: &[Interval],
    b: &[Interval],
) -> Result<Vec<Interval>, AllocError>
    requires a { IsCanonical a.now }
    requires b { IsCanonical b.now }
    ensures { IfOk result (λ v. IsUnion a.now b.now v.items) }
{
    let mut out = Vec::with_capacity(alloc, a.len())?;
    let mut i = 0;
    let mut j = 0;
    while i < a.len() && j < b.len() {
        if a[i].first <= b[j].first {
            put_behind(&mut out, a[i])?;
            i += 1;
        } else {
            put_behind(&mut out, b[j])?;
            j += 1;
        }
    }
    if i < a.len() {
        put_all(&mut out, &a[i..])?;
        return Ok(out);
    }
    put_all(&mut out, &b[j..])?;
    Ok(out)
}

/// Puts the part of an interval below the group `first` behind the others.
fn put_below(out: &mut Vec<Interval>, s: Interval, first: u64) -> Result<(), AllocError>
    requires canonical { IsCanonical out.old.items }
    requires filled { s.first ≤ s.last }
    requires behind { BeginBy s.first out.old.items }
    ensures { OnOk result (IsPutPart out.old.items s (λ t. nat_lt t first) s.first out.new.items) }
{
    if s.first >= first {
        return Ok(());
    }
    let part = Interval {
        first: s.first,
        last: s.last.min(first - 1),
    };
    put_behind(out, part)?;
    Ok(())
}

/// Puts the part of an interval above the group `last` behind the others.
fn put_above(out: &mut Vec<Interval>, s: Interval, last: u64) -> Result<(), AllocError>
    requires canonical { IsCanonical out.old.items }
    requires filled { s.first ≤ s.last }
    requires behind { BeginBy s.first out.old.items }
    ensures { OnOk result (IsPutPart out.old.items s (λ t. nat_lt last t) s.last out.new.items) }
{
    if s.last <= last {
        return Ok(());
    }
    let part = Interval {
        first: s.first.max(last + 1),
        last: s.last,
    };
    put_behind(out, part)?;
    Ok(())
}

/// The intervals without the groups from `first` to `last`.
pub(crate) fn without(
    alloc: Global,
    spans: &[Interval],
    first: u64,
    last: u64,
) -> Result<Vec<Interval>, AllocError>
    requires canonical { IsCanonical spans.now }
    requires range { first ≤ last }
    ensures canonical { IfOk result (λ v. IsCanonical v.items) }
    ensures without { IfOk result (λ v. IsWithout spans.now (is_between first last) v.items) }
{
    let mut out = Vec::with_capacity(alloc, spans.len())?;
    for s in spans {
        put_below(&mut out, *s, first)?;
        put_above(&mut out, *s, last)?;
    }
    Ok(out)
}

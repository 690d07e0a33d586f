//! Single steps of the calls of `Dirt`.

ghost use Rattle.std.specs.Prelude.{◌≡◌, ◌&&◌, true, OnOk};
ghost use Rattle.std.specs.Option.{option_copied};
ghost use Rattle.zs_ranges.specs.Set.{IsWithout, has_txg, is_between};
ghost use Rattle.zs_dtl.specs.Logs.{AreBounds, bounds_united, is_online, is_excised};

use std::alloc::AllocError;
use zs_ranges::TxgSet;

/// Whether the mask has the device's bit.
pub(crate) fn is_online(mask: u32, dev: usize) -> bool
    ensures { result ≡ is_online mask dev }
{
    dev < 32 && (mask >> dev) % 2 == 1
}

/// The least and the greatest group of a log.
fn bounds_of(log: &TxgSet) -> Option<(u64, u64)>
    ensures { AreBounds (λ t. has_txg log.now t ≡ true) result }
{
    let least = log.least()?;
    let greatest = log.greatest()?;
    Some((least, greatest))
}

/// The least and the greatest group of a device's log, where the mask has its bit.
pub(crate) fn online_bounds(mask: u32, dev: usize, log: &TxgSet) -> Option<(u64, u64)>
    ensures { AreBounds (λ t. (is_online mask dev ≡ true) × (has_txg log.now t ≡ true)) result }
{
    if !is_online(mask, dev) {
        return None;
    }
    bounds_of(log)
}

/// The bounds of two sets together.
pub(crate) fn united(a: Option<(u64, u64)>, b: Option<(u64, u64)>) -> Option<(u64, u64)>
    ensures { result ≡ bounds_united a b }
{
    match (a, b) {
        (None, b) => b,
        (a, None) => a,
        (Some(a), Some(b)) => Some((a.0.min(b.0), a.1.max(b.1))),
    }
}

/// Cuts out what a finished scan from `min` to `max` excises.
pub(crate) fn cut_excised(
    log: &mut TxgSet,
    min: u64,
    max: u64,
    only: Option<&TxgSet>,
) -> Result<(), AllocError>
    ensures { OnOk result (IsWithout log.old (is_excised min max (option_copied only.entry)) log.new) }
{
    if max <= min.saturating_add(1) {
        return Ok(());
    }
    let first = min + 1;
    let last = max - 1;
    match only {
        None => {
            log.cut(first, last)?;
            Ok(())
        }
        Some(only) => {
            cut_common(log, first, last, only)?;
            Ok(())
        }
    }
}

/// Cuts the groups from `first` to `last` that are in the other set out.
fn cut_common(log: &mut TxgSet, first: u64, last: u64, only: &TxgSet) -> Result<(), AllocError>
    ensures { OnOk result (IsWithout log.old (λ t. is_between first last t && has_txg only.now t) log.new) }
{
    for i in 0..only.count() {
        let span = only.span(i);
        log.cut(span.0.max(first), span.1.min(last))?;
    }
    Ok(())
}

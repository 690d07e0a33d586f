//! The runs of free sectors in a few sectors.

ghost use Rattle.std.specs.Prelude.{◌≡◌, ◌<◌, ◌≤◌, ◌+◌, ◌-◌, false, length};
ghost use Rattle.std.specs.Bool.{OnTrue, OnFalse};
ghost use Rattle.zs_alloc.specs.Runs.{IsRuns, IsFirstRun, HasRun, HasSomeRun, IsSet, IsRunUpTo, is_set};

use crate::tree::Runs;

/// The first of `n` free sectors that follow each other, the lowest such, where there is one.
pub(crate) fn first_in(flags: &[bool], n: usize) -> usize
    requires some { 0 < n }
    ensures first { HasSomeRun flags.now n → IsFirstRun flags.now n result }
    ensures bound { result ≤ length flags.now }
{
    let mut run = 0;
    for index in 0..flags.len() {
        run = next_run(flags, index, run);
        if run == n {
            return index + 1 - n;
        }
    }
    0
}

/// The length of the run that ends behind a sector, where that of the one that ends before it is `run`.
fn next_run(flags: &[bool], index: usize, run: usize) -> usize
    requires index { index < length flags.now }
    requires run { IsRunUpTo flags.now index run }
    ensures run { IsRunUpTo flags.now (index + 1) result }
    ensures more { result ≤ run + 1 }
{
    if flags[index] { run + 1 } else { 0 }
}

/// Whether the sectors from `first` on and below `end` are free.
pub(crate) fn is_run_in(flags: &[bool], first: usize, end: usize) -> bool
    requires within { end ≤ length flags.now }
    ensures yes { OnTrue result (HasRun flags.now first (end - first)) }
    ensures no { OnFalse result (HasRun flags.now first (end - first) → ⊥) }
{
    for index in first..end {
        if !flags[index] {
            return false;
        }
    }
    true
}

/// Makes the sectors from `first` on and below `end` free, or takes them.
pub(crate) fn fill(flags: &mut Vec<bool>, first: usize, end: usize, free: bool)
    requires some { first ≤ end }
    requires within { end ≤ length flags.old.items }
    ensures { IsSet flags.old.items first end free flags.new.items }
{
    for index in first..end {
        flags[index] = free;
    }
}

/// The runs of free sectors.
pub(crate) fn runs_in(flags: &[bool]) -> Runs
    ensures { IsRuns flags.now result }
{
    let mut behind = 0;
    let mut longest = 0;
    for index in 0..flags.len() {
        behind = next_run(flags, index, behind);
        longest = longest.max(behind);
    }
    Runs {
        len: flags.len(),
        before: leading(flags),
        behind,
        longest,
    }
}

/// The length of the run at the beginning.
fn leading(flags: &[bool]) -> usize
    ensures bound { result ≤ length flags.now }
    ensures free { HasRun flags.now 0 result }
    ensures ends { result < length flags.now → is_set flags.now result ≡ false }
{
    for index in 0..flags.len() {
        if !flags[index] {
            return index;
        }
    }
    flags.len()
}

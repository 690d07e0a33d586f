//! Which sectors of a mirror are free: a tree that knows the runs of free sectors in each of its parts.
//!
//! A part of at most `CHUNK` sectors says of each whether it is free; a greater one has two halves. Each part knows its
//! longest run, and those at its two ends, so that the lowest run of some length is found by going down, and a change is carried
//! up. All memory is taken when the tree is made.

ghost use Rattle.std.specs.Prelude.{◌≡◌, ◌<◌, ◌≤◌, ◌+◌, ◌-◌, false, length, replicate, IfOk};
ghost use Rattle.std.specs.Bool.{OnTrue, OnFalse};
ghost use Rattle.zs_alloc.specs.Runs.{flags_of, IsSummed, IsRuns, IsFirstRun, HasRun, HasSomeRun, IsSet, joined};

use crate::chunk::{fill, first_in, is_run_in, runs_in};
use std::alloc::{AllocError, Global};

/// The most sectors of a part that is not halved.
const CHUNK: usize = 64;

/// The runs of free sectors in a part.
#[derive(Clone, Copy, Debug, PartialEq, Eq)]
pub(crate) struct Runs {
    /// How many sectors the part has.
    pub(crate) len: usize,
    /// The length of the run at its beginning.
    pub(crate) before: usize,
    /// The length of the run at its end.
    pub(crate) behind: usize,
    /// The length of its longest run.
    pub(crate) longest: usize,
}

/// A part of the space.
#[derive(Drop)]
pub(crate) enum Tree {
    /// Of each of a few sectors whether it is free.
    Chunk(Runs, Vec<bool>),
    /// Two halves.
    Both(Runs, Box<Tree>, Box<Tree>),
}

/// A part of so many sectors, none of them free.
pub(crate) fn none_free(alloc: Global, len: usize) -> Result<Tree, AllocError>
    ensures flags { IfOk result (λ t. flags_of t ≡ replicate len false) }
    ensures summed { IfOk result IsSummed }
{
    let runs = Runs {
        len,
        before: 0,
        behind: 0,
        longest: 0,
    };
    if len <= CHUNK {
        let flags = vec![in alloc; false; len]?;
        return Ok(Tree::Chunk(runs, flags));
    }
    let half = len / 2;
    let left = none_free(alloc, half)?;
    let left = Box::new(alloc, left)?;
    let right = none_free(alloc, len - half)?;
    let right = Box::new(alloc, right)?;
    Ok(Tree::Both(runs, left, right))
}

/// The runs of a part.
pub(crate) fn runs_of(tree: &Tree) -> Runs
    requires { IsSummed tree.now }
    ensures { IsRuns (flags_of tree.now) result }
{
    match tree {
        Tree::Chunk(runs, _) => *runs,
        Tree::Both(runs, _, _) => *runs,
    }
}

/// The first sector of the lowest run of `n` free sectors, where the part has one.
pub(crate) fn first_run(tree: &Tree, n: usize) -> usize
    requires summed { IsSummed tree.now }
    requires short { length (flags_of tree.now) < 4294967296 }
    requires some { 0 < n }
    ensures first { HasSomeRun (flags_of tree.now) n → IsFirstRun (flags_of tree.now) n result }
    ensures bound { result ≤ length (flags_of tree.now) }
{
    match tree {
        Tree::Chunk(_, flags) => first_in(flags.as_slice(), n),
        Tree::Both(_, left, right) => {
            let near = runs_of(left);
            let far = runs_of(right);
            if n <= near.longest {
                return first_run(left, n);
            }
            if n <= near.behind + far.before {
                return near.len - near.behind;
            }
            near.len + first_run(right, n)
        }
    }
}

/// Whether the sectors from `first` on and below `end` are free.
pub(crate) fn is_run(tree: &Tree, first: usize, end: usize) -> bool
    requires summed { IsSummed tree.now }
    requires within { end ≤ length (flags_of tree.now) }
    ensures yes { OnTrue result (HasRun (flags_of tree.now) first (end - first)) }
    ensures no { OnFalse result (HasRun (flags_of tree.now) first (end - first) → ⊥) }
{
    match tree {
        Tree::Chunk(_, flags) => is_run_in(flags.as_slice(), first, end),
        Tree::Both(_, left, right) => {
            let half = runs_of(left).len;
            if end <= half {
                return is_run(left, first, end);
            }
            if half <= first {
                return is_run(right, first - half, end - half);
            }
            is_run(left, first, half) && is_run(right, 0, end - half)
        }
    }
}

/// Makes the sectors from `first` on and below `end` free, or takes them.
pub(crate) fn set(tree: &mut Tree, first: usize, end: usize, free: bool)
    requires summed { IsSummed tree.old }
    requires short { length (flags_of tree.old) < 4294967296 }
    requires within { end ≤ length (flags_of tree.old) }
    ensures set { IsSet (flags_of tree.old) first end free (flags_of tree.new) }
    ensures summed { IsSummed tree.new }
{
    if end <= first {
        return;
    }
    match tree {
        Tree::Chunk(runs, flags) => {
            fill(flags, first, end, free);
            *runs = runs_in(flags.as_slice());
        }
        Tree::Both(runs, left, right) => {
            let half = runs_of(left).len;
            set(left, first.min(half), end.min(half), free);
            set(right, first.max(half) - half, end.max(half) - half, free);
            *runs = joined(runs_of(left), runs_of(right));
        }
    }
}

/// The runs of two halves together.
fn joined(near: Runs, far: Runs) -> Runs
    requires fits { near.len + far.len < 18446744073709551616 }
    requires before { far.before ≤ far.len }
    requires behind { near.behind ≤ near.len }
    ensures { result ≡ joined near far }
{
    Runs {
        len: near.len + far.len,
        before: if near.before == near.len {
            near.len + far.before
        } else {
            near.before
        },
        behind: if far.behind == far.len {
            far.len + near.behind
        } else {
            far.behind
        },
        longest: near.longest.max(far.longest).max(near.behind + far.before),
    }
}

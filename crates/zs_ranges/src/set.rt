//! A set of transaction groups as its intervals.

ghost use Rattle.std.specs.Prelude.{◌≡◌, ◌<◌, ◌≤◌, ◌++◌, ◌∷◌, [], ℕ, true, false, length, slice_get, Some, OnOk, OnErr, IfOk, IfSome, IfNone};
ghost use Rattle.zs_ranges.specs.Set.{has_txg, IsCanonical, IsWith, IsWithout, is_between, joined_to};

use crate::merge::{begin_by, merged, put_behind, without};
use std::alloc::{AllocError, Global};
use std::marker::Model;

/// The transaction groups from `first` to `last`, both included.
#[derive(Clone, Copy, Debug, PartialEq, Eq)]
pub struct Interval {
    /// The least group.
    pub first: u64,
    /// The greatest group, not below `first`.
    pub last: u64,
}

/// A set of transaction groups, which contracts see as the list of its intervals: rising, none empty, and with a
/// group missing between each two, so that equal sets have equal lists.
#[derive(Debug, Drop)]
pub struct TxgSet {
    spans: Vec<Interval>,
    alloc: Global,
}

impl Model for TxgSet {
    ghost use Rattle.std.specs.Prelude.{List};
    ghost use Rattle.zs_ranges.specs.declared.set.Interval.{Interval};

    ghost Value = { List Interval };

    ghost use Rattle.zs_ranges.specs.Set.{IsCanonical};

    ghost view = { λ s. s.spans.items };

    ghost invariant = { λ s. IsCanonical s.spans.items };
}

impl TxgSet {
    /// The empty set.
    pub fn new(alloc: Global) -> Self
        ensures { result ≡ [] }
    {
        TxgSet {
            spans: Vec::new(alloc),
            alloc,
        }
    }

    /// An equal set.
    pub fn copy(&self) -> Result<Self, AllocError>
        ensures { IfOk result (λ s. s ≡ self.now) }
    {
        let spans = Vec::from_slice(self.alloc, &self.spans)?;
        Ok(TxgSet {
            spans,
            alloc: self.alloc,
        })
    }

    /// The form that every set has: rising intervals, none empty, with a group missing between each two.
    pub fn facts(&self)
        ensures { IsCanonical self.now }
    {
        let _spans = &self.spans;
    }

    /// Adds the groups from `first` to `last`, both included; none where `first` is above `last`. After want of
    /// memory the set is as it was. At the high end it costs no walk of the intervals.
    pub fn add(&mut self, first: u64, last: u64) -> Result<(), AllocError>
        ensures ok { OnOk result (IsWith self.old (is_between first last) self.new) }
        ensures canonical { IsCanonical self.new }
        ensures none { last < first → self.new ≡ self.old }
        ensures err { OnErr result (self.new ≡ self.old) }
    {
        let alloc = self.alloc;
        if first > last {
            return Ok(());
        }
        let span = Interval { first, last };
        if begin_by(&self.spans, first) {
            put_behind(&mut self.spans, span)?;
            return Ok(());
        }
        self.spans = merged(alloc, &self.spans, &[span])?;
        Ok(())
    }

    /// Takes the groups from `first` to `last` out, both included; none where `first` is above `last`. After want
    /// of memory the set is as it was.
    pub fn cut(&mut self, first: u64, last: u64) -> Result<(), AllocError>
        ensures ok { OnOk result (IsWithout self.old (is_between first last) self.new) }
        ensures canonical { IsCanonical self.new }
        ensures none { last < first → self.new ≡ self.old }
        ensures err { OnErr result (self.new ≡ self.old) }
    {
        let alloc = self.alloc;
        if first > last {
            return Ok(());
        }
        self.spans = without(alloc, &self.spans, first, last)?;
        Ok(())
    }

    /// Adds the groups of the other set. After want of memory the set is as it was.
    pub fn join(&mut self, other: &TxgSet) -> Result<(), AllocError>
        ensures ok { OnOk result (IsWith self.old (has_txg other.now) self.new) }
        ensures canonical { IsCanonical self.new }
        ensures err { OnErr result (self.new ≡ self.old) }
    {
        self.spans = merged(self.alloc, &self.spans, &other.spans)?;
        Ok(())
    }

    /// Whether the group is in the set.
    pub fn has(&self, t: u64) -> bool
        ensures { result ≡ has_txg self.now t }
    {
        self.spans.iter().any(|s| s.first <= t && t <= s.last)
    }

    /// The least group of the set; `None` where it is empty.
    pub fn least(&self) -> Option<u64>
        ensures none { IfNone result (self.now ≡ []) }
        ensures member { IfSome result (λ m. has_txg self.now m ≡ true) }
        ensures least { IfSome result (λ m. (t : ℕ) → has_txg self.now t ≡ true → m ≤ t) }
    {
        let lowest = self.spans.first()?;
        Some(lowest.first)
    }

    /// The greatest group of the set; `None` where it is empty.
    pub fn greatest(&self) -> Option<u64>
        ensures none { IfNone result (self.now ≡ []) }
        ensures member { IfSome result (λ m. has_txg self.now m ≡ true) }
        ensures greatest { IfSome result (λ m. (t : ℕ) → has_txg self.now t ≡ true → t ≤ m) }
    {
        let highest = self.spans.last()?;
        Some(highest.last)
    }

    /// How many intervals the set has.
    pub fn count(&self) -> usize
        ensures { result ≡ length self.now }
    {
        self.spans.len()
    }

    /// The first and the last group of the i-th interval from below, counted from 0.
    pub fn span(&self, i: usize) -> (u64, u64)
        requires { i < length self.now }
        ensures { slice_get self.now i ≡ Some (record { first = result.0; last = result.1 }) }
    {
        let span = self.spans[i];
        (span.first, span.last)
    }

    /// Joins the two lowest intervals, the gap between them included, until there are at most `most`, which is
    /// not 0.
    pub fn join_lowest(&mut self, most: usize)
        requires { 0 < most }
        ensures joined { self.new ≡ joined_to most self.old }
        ensures canonical { IsCanonical self.new }
        ensures few { length self.new ≤ most }
    {
        if self.spans.len() <= most {
            return;
        }
        let more = self.spans.len() - most;
        self.spans[more] = Interval {
            first: self.spans[0].first,
            last: self.spans[more].last,
        };
        self.spans.drain(..more);
    }

    /// Takes all groups out. Takes no memory.
    pub fn clear(&mut self)
        ensures { self.new ≡ [] }
    {
        self.spans.clear();
    }
}

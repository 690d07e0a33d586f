//! The ledger.

ghost use Rattle.std.specs.Prelude.{◌≡◌, ℕ, ◌==◌, ◌+◌, ◌-◌, ◌<◌, ◌≤◌, ◌++◌, ◌∷◌, ◌↔◌, [], length, min, map, filter, count_by, slice_get, Some, IsTrue, OnOk, OnErr, IfOk};
ghost use Rattle.std.specs.List.Sorted.{IsPermutation, IsSortedByKey, IsStableByKey};
ghost use Rattle.zs_ids.specs.Graph.{Has};
ghost use Rattle.zs_ledger.specs.Entry.{failed_on, has_error, has_failed_birth};
ghost use Rattle.zs_ranges.specs.Set.{has_txg};
ghost use Rattle.std.specs.List.{list_any};
ghost use Rattle.zs_ids.specs.Piece.{piece_cmp};
ghost use Rattle.zs_ledger.specs.Kept.{has_piece};

use crate::entry::Entry;
use std::alloc::{AllocError, Global};
use std::collections::HashSet;
use std::marker::Model;
use zs_ids::Piece;
use zs_ranges::TxgSet;

/// A piece as the set of checked pieces has it.
#[derive(Clone, Copy, PartialEq, Eq, Hash)]
struct Spot {
    vdev: u8,
    sector: u32,
    birth: u64,
}

impl Spot {
    fn of(piece: Piece) -> Self
        ensures { result ≡ record { vdev = piece.place.vdev; sector = piece.place.sector; birth = piece.birth } }
    {
        Spot {
            vdev: piece.place.vdev,
            sector: piece.place.sector,
            birth: piece.birth,
        }
    }
}

/// The entries with an error, in their order.
fn with_errors(alloc: Global, entries: &[Entry]) -> Result<Vec<Entry>, AllocError>
    ensures { IfOk result (λ v. v.items ≡ filter has_error entries.now) }
{
    entries
        .iter()
        .filter(|entry| entry.has_error())
        .copied()
        .collect(alloc)
}

/// The births of the entries whose copy on the device is an error, in their order.
fn births_of_failed(
    alloc: Global,
    entries: &[Entry],
    dev: u8,
    width: u8,
) -> Result<Vec<u64>, AllocError>
    requires some { 0 < width }
    requires few { width ≤ 4 }
    ensures { IfOk result (λ v. v.items ≡ map (λ e. e.piece.birth) (filter (failed_on dev width) entries.now)) }
{
    entries
        .iter()
        .filter(|entry| entry.failed_on(dev, width))
        .map(|entry| entry.piece.birth)
        .collect(alloc)
}

/// The set of these groups, which is made fastest where they rise.
fn set_of(alloc: Global, txgs: &[u64]) -> Result<TxgSet, AllocError>
    ensures { IfOk result (λ set. (t : ℕ) → has_txg set t ≡ list_any (λ txg. txg == t) txgs.now) }
{
    let mut set = TxgSet::new(alloc);
    for txg in txgs {
        set.add(*txg, *txg)?;
    }
    Ok(set)
}

/// The pieces that a scan has checked.
#[derive(Drop)]
pub struct Ledger {
    entries: Vec<Entry>,
    pieces: HashSet<Spot>,
    errors: usize,
    alloc: Global,
}

impl Model for Ledger {
    ghost use Rattle.std.specs.Prelude.{◌-◌, min, vec_capacity, vec_len};
    ghost use Rattle.std.specs.HashSet.{spare};
    ghost use Rattle.zs_ledger.specs.Kept.{Kept, AgreesWith};

    ghost Value = { Kept };

    ghost view = { λ l. record { entries = l.entries.items; room = min (vec_capacity l.entries - vec_len l.entries) (spare l.pieces) } };

    ghost invariant = { λ l. AgreesWith l.entries.items l.pieces.keys l.errors };
}

impl Ledger {
    /// A ledger without entries. Takes no memory.
    pub fn new(alloc: Global) -> Self
        ensures { result.entries ≡ [] }
    {
        Ledger {
            entries: Vec::new(alloc),
            pieces: HashSet::new(alloc),
            errors: 0,
            alloc,
        }
    }

    /// Makes room for `n` more entries. After want of memory the entries are as they were.
    pub fn reserve(&mut self, n: usize) -> Result<(), AllocError>
        ensures entries { self.new.entries ≡ self.old.entries }
        ensures ok { OnOk result (n ≤ self.new.room) }
        ensures room { self.old.room ≤ self.new.room }
    {
        self.entries.reserve(n)?;
        self.pieces.reserve(n)?;
        Ok(())
    }

    /// Puts an entry at the end. Takes no memory: there must be room for it.
    pub fn push(&mut self, entry: Entry)
        requires { 1 ≤ self.old.room }
        ensures entries { self.new.entries ≡ self.old.entries ++ entry ∷ [] }
        ensures room { self.old.room ≤ self.new.room + 1 }
    {
        if self.pieces.insert(Spot::of(entry.piece)).is_err() {
            unreachable!();
        }
        if self.entries.push(entry).is_err() {
            unreachable!();
        }
        if entry.has_error() {
            self.errors += 1;
        }
    }

    /// Whether an entry is of the piece. Takes no memory and does not go through the entries.
    pub fn has(&self, piece: Piece) -> bool
        ensures test { result ≡ has_piece self.now.entries piece }
        ensures member { IsTrue result ↔ Has (map (λ e. e.piece) self.now.entries) piece }
    {
        self.pieces.contains(&Spot::of(piece))
    }

    /// How many entries there are.
    pub fn len(&self) -> usize
        ensures { result ≡ length self.now.entries }
    {
        self.entries.len()
    }

    /// The `i`-th entry, from 0, in order of checking.
    pub fn get(&self, i: usize) -> &Entry
        requires { i < length self.now.entries }
        ensures { slice_get self.now.entries i ≡ Some result.now }
    {
        &self.entries[i]
    }

    /// The entries, in order of checking.
    pub fn as_slice(&self) -> &[Entry]
        ensures { result.now ≡ self.now.entries }
    {
        self.entries.as_slice()
    }

    /// How many entries have an error. Does not go through the entries.
    pub fn error_count(&self) -> usize
        ensures { result ≡ length (filter has_error self.now.entries) }
    {
        self.errors
    }

    /// The entries with an error, in order of mirror, sector and birth; of one piece in order of checking.
    pub fn errors(&self) -> Result<Vec<Entry>, AllocError>
        ensures all { IfOk result (λ v. IsPermutation (filter has_error self.now.entries) v.items) }
        ensures sorted { IfOk result (λ v. IsSortedByKey (λ e. e.piece) piece_cmp v.items) }
        ensures stable { IfOk result (λ v. IsStableByKey (λ e. e.piece) piece_cmp (filter has_error self.now.entries) v.items) }
    {
        let mut errors = with_errors(self.alloc, &self.entries)?;
        errors.sort_by_key(|entry| entry.piece)?;
        Ok(errors)
    }

    /// The births of the entries whose copy on the device is an error, in a pool of mirrors of that width (1 to 4).
    pub fn failed_births(&self, dev: u8, width: u8) -> Result<TxgSet, AllocError>
        requires some { 0 < width }
        requires few { width ≤ 4 }
        ensures { IfOk result (λ births. (t : ℕ) → has_txg births t ≡ has_failed_birth self.now.entries dev width t) }
    {
        let mut births = births_of_failed(self.alloc, &self.entries, dev, width)?;
        births.sort_unstable();
        set_of(self.alloc, &births)
    }

    /// Takes all entries out. The room stays. Takes no memory.
    pub fn clear(&mut self)
        ensures entries { self.new.entries ≡ [] }
        ensures room { self.old.room ≤ self.new.room }
    {
        self.entries.clear();
        self.pieces.clear();
        self.errors = 0;
    }
}

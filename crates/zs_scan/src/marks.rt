//! The marks of the pieces that wait or fly.

ghost use Rattle.std.specs.Prelude.{◌≡◌, ◌+◌, ◌≤◌, [], length, filter, Some, None, OnOk, OnErr, if◌then◌else◌};
ghost use Rattle.zs_scan.specs.View.{mark_of, flies, is_flying, MarksAs};

use std::alloc::{AllocError, Global};
use std::collections::BTreeMap;
use std::marker::Model;
use zs_ids::Piece;

/// A mark for each piece that waits or flies: none where it waits, and where it flies the number of its batch.
#[derive(Drop)]
pub(crate) struct Marks {
    map: BTreeMap<Piece, Option<u64>>,
    flying: usize,
}

impl Model for Marks {
    ghost use Rattle.std.specs.Prelude.{◌≡◌, List, length, filter};
    ghost use Rattle.std.specs.Map.{keys_of};
    ghost use Rattle.std.specs.List.Sorted.{IsStrictlySortedBy};
    ghost use Rattle.zs_ids.specs.declared.block.Piece.{Piece};
    ghost use Rattle.zs_ids.specs.Piece.{piece_cmp};
    ghost use Rattle.zs_scan.specs.View.{Mark, is_flying};

    ghost Value = { List (Piece × Mark) };

    ghost view = { λ m. m.map.entries };

    ghost invariant = { λ m. (m.flying ≡ length (filter is_flying m.map.entries)) × IsStrictlySortedBy piece_cmp (keys_of m.map.entries) };
}

impl Marks {
    /// No marks. Takes no memory.
    pub(crate) fn new(alloc: Global) -> Self
        ensures { result ≡ [] }
    {
        Marks {
            map: BTreeMap::new(alloc),
            flying: 0,
        }
    }

    /// The mark of a piece, if it waits or flies.
    pub(crate) fn get(&self, piece: Piece) -> Option<Option<u64>>
        ensures { result ≡ mark_of self.now piece }
    {
        self.map.get(&piece).copied()
    }

    /// How many pieces fly.
    pub(crate) fn flying(&self) -> usize
        ensures { result ≡ length (filter is_flying self.now) }
    {
        self.flying
    }

    /// Marks a piece that has no mark: it waits. After want of memory the marks are as they were.
    pub(crate) fn wait(&mut self, piece: Piece) -> Result<(), AllocError>
        requires { mark_of self.old piece ≡ None }
        ensures ok { OnOk result (MarksAs self.old self.new piece (Some None)) }
        ensures flying { OnOk result (length (filter is_flying self.new) ≡ length (filter is_flying self.old)) }
        ensures err { OnErr result (self.new ≡ self.old) }
    {
        self.map.insert(piece, None)?;
        Ok(())
    }

    /// Marks a piece that waits: it flies in the batch of that number. Takes no memory.
    pub(crate) fn fly(&mut self, piece: Piece, number: u64)
        requires { mark_of self.old piece ≡ Some None }
        ensures mark { MarksAs self.old self.new piece (Some (Some number)) }
        ensures flying { length (filter is_flying self.new) ≡ length (filter is_flying self.old) + 1 }
    {
        let Ok(_) = self.map.insert(piece, Some(number)) else {
            unreachable!();
        };
        let _marked = self.map.len();
        self.flying += 1;
    }

    /// Takes the mark of a piece away, and answers it. Takes no memory.
    pub(crate) fn remove(&mut self, piece: Piece) -> Option<Option<u64>>
        ensures was { result ≡ mark_of self.old piece }
        ensures mark { MarksAs self.old self.new piece None }
        ensures flying { length (filter is_flying self.new) + (if flies result then 1 else 0) ≡ length (filter is_flying self.old) }
    {
        let mark = self.map.remove(&piece);
        self.flying -= how_many_fly(mark);
        mark
    }

    /// Takes all marks away. Takes no memory.
    pub(crate) fn clear(&mut self)
        ensures { self.new ≡ [] }
    {
        self.map.clear();
        self.flying = 0;
    }
}

/// One for the mark of a piece that flies, and else none.
fn how_many_fly(mark: Option<Option<u64>>) -> usize
    ensures { result ≡ (if flies mark then 1 else 0) }
{
    match mark {
        Some(Some(_)) => 1,
        _ => 0,
    }
}

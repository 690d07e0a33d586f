//! What a change frees, found before the change is made: so that it is made where memory did not want, and not else.

ghost use Rattle.std.specs.Prelude.{◌≡◌, ◌<◌, ◌++◌, IfOk, OnOk, Some, length, option_map, slice_get};
ghost use Rattle.std.specs.List.Sorted.{IsPermutation, IsSortedByKey};
ghost use Rattle.zs_ids.specs.Blocks.{bp_at};
ghost use Rattle.zs_ids.specs.Graph.{Dataset};
ghost use Rattle.zs_ids.specs.GraphChange.{AreFreed, MayDestroy, MayPut, destroyed};
ghost use Rattle.zs_ids.specs.Key.{root_key};
ghost use Rattle.zs_ids.specs.Piece.{piece_cmp};
ghost use Rattle.zs_graph.specs.ByIndex.{applied_at};
ghost use Rattle.zs_graph.specs.Frees.{held_by};
ghost use Rattle.zs_graph.specs.Freeing.{AreShallow, held_in, is_born, items_after, items_at, item_of, items_from, items_of, items_unheld};

use crate::graph::Graph;
use std::alloc::{AllocError, Global};
use zs_ids::{Blocks, Bp, DsId, Item, Key, Piece, Place};

impl<T: Blocks> Graph<T> {
    /// What is freed where these blocks are put over those of the head at this index: the pieces at home there at the keys of
    /// the changes. The changes have none of them, since they are younger.
    pub(crate) fn freed_by_put(
        &self,
        at: usize,
        changes: &[(Key, Bp)],
        t: u64,
    ) -> Result<Vec<Item>, AllocError>
        requires within { at < length self.now.sets }
        requires may { (d : Dataset) → slice_get self.now.sets at ≡ Some d → MayPut self.now.sets d changes.now t }
        ensures { IfOk result (λ items. AreFreed self.now.sets (applied_at self.now.sets at changes.now) items.items) }
    {
        let head = &self.sets[at];
        let start = self.start(head.parent);
        let items = items_at(self.alloc, &head.map, start, changes)?;
        Ok(in_order(items))
    }

    /// What is freed where the dataset at this index is taken out, which has at most this one child: the pieces at home there but
    /// those that the child holds.
    pub(crate) fn freed_by_removal(
        &self,
        at: usize,
        next: Option<DsId>,
    ) -> Result<Vec<Item>, AllocError>
        requires within { at < length self.now.sets }
        requires only { (d : Dataset) → slice_get self.now.sets at ≡ Some d → MayDestroy self.now.sets d next }
        ensures { IfOk result (λ items. (d : Dataset) → slice_get self.now.sets at ≡ Some d
            → AreFreed self.now.sets (destroyed self.now.sets d) items.items) }
    {
        let gone = &self.sets[at];
        let start = self.start(gone.parent);
        let items = items_not_held(self.alloc, &gone.map, start, self.held(next))?;
        Ok(in_order(items))
    }

    /// The blocks of the dataset with this id, where an id is given.
    fn held(&self, next: Option<DsId>) -> Option<&T>
        ensures { held_in (option_map (λ b. T.entries b.now) result) ≡ held_by self.now.sets next }
    {
        match next {
            None => None,
            Some(id) => self.blocks(id),
        }
    }
}

/// The items of the blocks at the keys of the changes that are born after `start`.
fn items_at<T: Blocks>(
    alloc: Global,
    blocks: &T,
    start: u64,
    changes: &[(Key, Bp)],
) -> Result<Vec<Item>, AllocError>
    ensures { IfOk result (λ items. items.items ≡ items_at (T.entries blocks.now) start changes.now) }
{
    let mut items = Vec::new(alloc);
    for change in changes {
        add_at(&mut items, blocks, change.0, start)?;
    }
    Ok(items)
}

/// Adds the items of the block at a key, where it is born after `start`.
fn add_at<T: Blocks>(
    items: &mut Vec<Item>,
    blocks: &T,
    key: Key,
    start: u64,
) -> Result<(), AllocError>
    ensures { OnOk result (items.new.items ≡ items.old.items ++ items_after start (bp_at (T.entries blocks.now) key)) }
{
    match blocks.get(key) {
        Some(bp) if start < bp.birth => add_items(items, &bp),
        _ => Ok(()),
    }
}

/// The items of the blocks that are born after `start`, but of those that are held too.
fn items_not_held<T: Blocks>(
    alloc: Global,
    blocks: &T,
    start: u64,
    held: Option<&T>,
) -> Result<Vec<Item>, AllocError>
    requires { AreShallow (T.entries blocks.now) }
    ensures { IfOk result (λ items. items.items
        ≡ items_from (T.entries blocks.now) root_key start (held_in (option_map (λ b. T.entries b.now) held.entry))) }
{
    let mut items = Vec::new(alloc);
    let mut from = Key::ROOT;
    while let Some((key, bp)) = blocks.next_from(from, start) {
        add_unheld(&mut items, key, &bp, held)?;
        from = key.after();
    }
    Ok(items)
}

/// Adds the items of the block at a key, where no block that is born with it is held there.
fn add_unheld<T: Blocks>(
    items: &mut Vec<Item>,
    key: Key,
    bp: &Bp,
    held: Option<&T>,
) -> Result<(), AllocError>
    ensures { OnOk result
        (items.new.items ≡ items.old.items ++ items_unheld (held_in (option_map (λ b. T.entries b.now) held.entry)) (key, bp.now)) }
{
    if is_held(held, key, bp.birth) {
        return Ok(());
    }
    add_items(items, bp)
}

/// Whether a block that is born in this transaction group is held at the key.
fn is_held<T: Blocks>(held: Option<&T>, key: Key, birth: u64) -> bool
    ensures { result ≡ is_born (bp_at (held_in (option_map (λ b. T.entries b.now) held.entry)) key) birth }
{
    match held {
        None => false,
        Some(blocks) => match blocks.get(key) {
            None => false,
            Some(bp) => bp.birth == birth,
        },
    }
}

/// Adds the items of a block.
fn add_items(items: &mut Vec<Item>, bp: &Bp) -> Result<(), AllocError>
    ensures { OnOk result (items.new.items ≡ items.old.items ++ items_of bp.now) }
{
    for place in bp.places.iter().take(usize::from(bp.count)) {
        items.push(item_of(bp, *place))?;
    }
    Ok(())
}

/// The item of a block at one of its places.
fn item_of(bp: &Bp, place: Place) -> Item
    ensures { result ≡ item_of bp.now place }
{
    Item {
        piece: Piece {
            place,
            birth: bp.birth,
        },
        sectors: bp.sectors,
        sum: bp.sum,
    }
}

/// The items in order of piece. Takes no memory.
fn in_order(mut items: Vec<Item>) -> Vec<Item>
    ensures all { IsPermutation items.items result.items }
    ensures sorted { IsSortedByKey (λ i. i.piece) piece_cmp result.items }
{
    items.sort_unstable_by_key(|item| item.piece);
    items
}

//! The items of what a sync brings forth.

ghost use Rattle.std.specs.Prelude.{◌≡◌, ◌++◌, IfOk, OnOk, filter, map, not};
ghost use Rattle.std.specs.List.Sorted.{IsSortedByKey, IsStrictlySortedBy, IsPermutation};
ghost use Rattle.zs_ids.specs.Piece.{piece_cmp};
ghost use Rattle.zs_scan.specs.View.{has_item, pieces_in};
ghost use Rattle.zs_scan.specs.Walks.{item_of};
ghost use Rattle.zs_core.specs.View.{pointers_of_all};

use crate::parts::Changes;
use std::alloc::{AllocError, Global};
use zs_ids::{Bp, Item, Key};
use zs_scan::item_of;

/// Puts the items of some blocks behind those of a list.
fn add_items(items: &mut Vec<Item>, blocks: &[(Key, Bp)]) -> Result<(), AllocError>
    ensures { OnOk result (items.new.items ≡ items.old.items ++ map (λ c. item_of c.1) blocks.now) }
{
    for block in blocks {
        items.push(item_of(&block.1))?;
    }
    Ok(())
}

/// The items of the blocks that are staged for all datasets, in order of place.
pub(crate) fn items_of(alloc: Global, changes: &[Changes]) -> Result<Vec<Item>, AllocError>
    ensures all { IfOk result (λ v. IsPermutation (map (λ c. item_of c.1) (pointers_of_all changes.now)) v.items) }
    ensures sorted { IfOk result (λ v. IsSortedByKey (λ i. i.piece) piece_cmp v.items) }
{
    let mut items = Vec::new(alloc);
    for own in changes {
        add_items(&mut items, &own.blocks)?;
    }
    items.sort_unstable_by_key(|item| item.piece);
    Ok(items)
}

/// Whether the piece of an item is one of those that were freed, which stand in order of place.
fn is_freed(freed: &[Item], item: &Item) -> bool
    requires sorted { IsStrictlySortedBy piece_cmp (pieces_in freed.now) }
    ensures { result ≡ has_item freed.now item.now.piece }
{
    match freed.binary_search_by_key(&item.piece, |gone| gone.piece) {
        Ok(_) => true,
        Err(_) => false,
    }
}

/// Drops the items of pieces that were freed; these stand in order of place. Takes no memory.
pub(crate) fn drop_freed(items: &mut Vec<Item>, freed: &[Item])
    requires sorted { IsStrictlySortedBy piece_cmp (pieces_in freed.now) }
    ensures { items.new.items ≡ filter (λ i. not (has_item freed.now i.piece)) items.old.items }
{
    items.retain(|item| !is_freed(freed, item));
}

//! How the datasets stand on each other.

ghost use Rattle.std.specs.Prelude.{◌≡◌, ◌↔◌, List, find, option_map, IfOk, IsTrue};
ghost use Rattle.zs_ids.specs.Graph.{Has};
ghost use Rattle.zs_ids.specs.GraphTree.{children_of, created, dataset_at, stands_on, start_of};
ghost use Rattle.zs_ids.specs.declared.dataset.DsId.{DsId};
ghost use Rattle.zs_plain.specs.Tests.{has_id, is_next, stands_on_one};
ghost use Rattle.zs_phys.specs.Sound.{pass_end};
ghost use Rattle.zs_phys.specs.Turn.{end_of_pass};
ghost use Rattle.zs_plain.specs.Below.{IsBelow};

use crate::dataset::PlainDataset;
use std::alloc::{AllocError, Global};
use zs_ids::DsId;

/// The transaction group after which a block of a dataset with this parent is the dataset's own: the creation of
/// the parent, 0 where there is none.
pub fn start_of(g: &[PlainDataset], parent: Option<DsId>) -> u64
    ensures { result ≡ start_of g.now parent }
{
    match parent {
        None => 0,
        Some(parent) => creation_of(g, parent).unwrap_or(0),
    }
}

/// When the dataset with this id was created; `None` where there is none.
fn creation_of(g: &[PlainDataset], id: DsId) -> Option<u64>
    ensures { result ≡ option_map (λ d. d.creation) (dataset_at g.now id) }
{
    g.iter().find(|d| d.id == id).map(|d| d.creation)
}

/// Whether the id is in the list.
pub(crate) fn has_id(ids: &[DsId], id: DsId) -> bool
    ensures { result ≡ has_id ids.now id }
{
    ids.iter().any(|x| *x == id)
}

/// Whether the parent is in the list.
fn stands_on_one(ids: &[DsId], parent: Option<DsId>) -> bool
    ensures { result ≡ stands_on_one ids.now parent }
{
    match parent {
        None => false,
        Some(parent) => has_id(ids, parent),
    }
}

/// A dataset that is not found yet, and stands on one of the roots or on one that is found.
fn next_below(g: &[PlainDataset], roots: &[DsId], found: &[DsId]) -> Option<DsId>
    ensures { result ≡ option_map (λ d. d.id) (find (is_next roots.now found.now) g.now) }
{
    g.iter()
        .find(|d| {
            !has_id(found, d.id)
                && (stands_on_one(roots, d.parent) || stands_on_one(found, d.parent))
        })
        .map(|d| d.id)
}

/// The ids of the datasets of which a strict ancestor is one of the roots.
pub fn below(alloc: Global, g: &[PlainDataset], roots: &[DsId]) -> Result<Vec<DsId>, AllocError>
    ensures { IfOk result (λ v. (id : DsId) → Has v.items id ↔ IsBelow g.now roots.now id) }
{
    let mut found: Vec<DsId> = Vec::new(alloc);
    while let Some(id) = next_below(g, roots, &found) {
        found.push(id)?;
    }
    Ok(found)
}

/// When the dataset with this id was created; 0 for a head, and where there is none.
pub fn created(g: &[PlainDataset], id: DsId) -> u64
    ensures { result ≡ created (dataset_at g.now id) }
{
    creation_of(g, id).unwrap_or(0)
}

/// The ids of the datasets that stand on this one, in order.
pub fn children_of(alloc: Global, g: &[PlainDataset], id: DsId) -> Result<Vec<DsId>, AllocError>
    ensures { IfOk result (λ v. v.items ≡ children_of g.now id) }
{
    g.iter()
        .filter(|d| stands_on(id, d.parent))
        .map(|d| d.id)
        .collect(alloc)
}

/// Whether the parent is this dataset.
pub(crate) fn stands_on(id: DsId, parent: Option<DsId>) -> bool
    ensures { result ≡ stands_on id parent }
{
    match parent {
        None => false,
        Some(below) => id == below,
    }
}

/// The last transaction group of a whole pass over a dataset, in a scan with this max.
pub(crate) fn pass_end(dataset: &PlainDataset, last: u64) -> u64
    ensures { result ≡ pass_end dataset.now last }
{
    if dataset.head {
        last
    } else {
        last.min(dataset.creation)
    }
}

/// The last transaction group of the pass over the dataset with this id, in a scan with this max.
pub fn end_of_pass(g: &[PlainDataset], id: DsId, last: u64) -> u64
    ensures { result ≡ end_of_pass (dataset_at g.now id) last }
{
    pass_end_of(g, id, last).unwrap_or(last)
}

/// The same; `None` where there is no such dataset.
fn pass_end_of(g: &[PlainDataset], id: DsId, last: u64) -> Option<u64>
    ensures { result ≡ option_map (λ d. pass_end d last) (dataset_at g.now id) }
{
    g.iter().find(|d| d.id == id).map(|d| pass_end(d, last))
}

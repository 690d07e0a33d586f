//! What a scan state has ahead of it, and whether it covers a graph.

ghost use Rattle.std.specs.Prelude.{◌≡◌, ◌↔◌, map, IfOk, IsTrue};
ghost use Rattle.zs_ids.specs.Graph.{Has};
ghost use Rattle.zs_ids.specs.GraphTree.{start_of};
ghost use Rattle.zs_ids.specs.declared.dataset.DsId.{DsId};
ghost use Rattle.std.specs.List.{list_any, list_all};
ghost use Rattle.zs_phys.specs.Ahead.{Ahead, Covers, IsLater, claims, ids_at, pending};
ghost use Rattle.zs_plain.specs.Tests.{has_piece};
ghost use Rattle.zs_plain.specs.AheadTests.{is_again, is_ahead, is_passing, is_queued, is_covered_entry, is_covered_dataset, is_covering};

use crate::dataset::PlainDataset;
use crate::graph::has_piece;
use crate::tree::{below, has_id, start_of};
use std::alloc::{AllocError, Global};
use zs_ids::{Bp, DsId, Key, Piece};
use zs_phys::{At, Phys, Scope, Status, Todo};
use zs_want::in_scope;

/// The dataset that the state is at, if it is at one.
fn ids_at(alloc: Global, at: At) -> Result<Vec<DsId>, AllocError>
    ensures { IfOk result (λ v. v.items ≡ ids_at at) }
{
    let mut ids = Vec::new(alloc);
    match at {
        At::Nowhere | At::Destroyed => {}
        At::Dataset(id, _) => ids.push(id)?,
    }
    Ok(ids)
}

/// The datasets of a queue, in order.
fn queued_ids(alloc: Global, todo: &[Todo]) -> Result<Vec<DsId>, AllocError>
    ensures { IfOk result (λ v. v.items ≡ map (λ q. q.id) todo.now) }
{
    todo.iter().map(|q| q.id).collect(alloc)
}

/// The pending datasets: the one that the state is at, and those of its queue.
pub fn pending(alloc: Global, s: &Phys) -> Result<Vec<DsId>, AllocError>
    ensures { IfOk result (λ v. v.items ≡ pending s.now) }
{
    let queued = queued_ids(alloc, s.todo.as_slice())?;
    let mut ids = ids_at(alloc, s.at)?;
    ids.extend_from_slice(&queued)?;
    Ok(ids)
}

/// The datasets that are later: those of which a strict ancestor is pending.
pub fn later(alloc: Global, g: &[PlainDataset], s: &Phys) -> Result<Vec<DsId>, AllocError>
    ensures { IfOk result (λ v. (id : DsId) → Has v.items id ↔ IsLater g.now s.now id) }
{
    let roots = pending(alloc, s)?;
    let found = below(alloc, g, &roots)?;
    Ok(found)
}

/// Whether the pass that is at `at`, over what is born after `least` up to `most`, has the entry before it.
fn is_passing(at: At, least: u64, most: u64, id: DsId, entry: &(Key, Bp)) -> bool
    ensures { result ≡ is_passing at least most id entry.now }
{
    match at {
        At::Nowhere | At::Destroyed => false,
        At::Dataset(here, key) => {
            here == id
                && (key.cmp(&entry.0).is_le() && (least < entry.1.birth && entry.1.birth <= most))
        }
    }
}

/// Whether the dataset is queued with a min below the birth.
fn is_queued(todo: &[Todo], id: DsId, birth: u64) -> bool
    ensures { result ≡ list_any (is_queued id birth) todo.now }
{
    todo.iter().any(|q| q.id == id && q.min < birth)
}

/// Whether the state is at the dataset, will pass it again, and the birth is above the pass's end.
fn is_again(s: &Phys, id: DsId, birth: u64) -> bool
    ensures { result ≡ is_again s.now id birth }
{
    s.at.is_on(id) && (s.again && s.curmax < birth)
}

/// Whether the entry is ahead, where `later` has the ids of the later datasets.
fn is_ahead_of(later: &[DsId], s: &Phys, id: DsId, entry: &(Key, Bp)) -> bool
    ensures { result ≡ is_ahead later.now s.now id entry.now }
{
    let birth = entry.1.birth;
    let later = has_id(later, id);
    let queued = is_queued(s.todo.as_slice(), id, birth);
    let passing = is_passing(s.at, s.curmin, s.curmax, id, entry);
    let again = is_again(s, id, birth);
    (later || queued) || (passing || again)
}

/// Whether an entry at home in the dataset with this id is ahead of the state.
pub fn is_ahead(
    alloc: Global,
    g: &[PlainDataset],
    s: &Phys,
    id: DsId,
    entry: &(Key, Bp),
) -> Result<bool, AllocError>
    ensures { IfOk result (λ b. IsTrue b ↔ Ahead g.now s.now id entry.now) }
{
    let later = later(alloc, g, s)?;
    let ahead = is_ahead_of(&later, s, id, entry);
    Ok(ahead)
}

/// Whether the entry is ahead, or each piece of it that is in scope is done.
fn is_covered_entry(
    later: &[DsId],
    scope: &Scope,
    s: &Phys,
    done: &[Piece],
    id: DsId,
    entry: &(Key, Bp),
) -> bool
    ensures { result ≡ is_covered_entry later.now scope.now s.now done.now id entry.now }
{
    let ahead = is_ahead_of(later, s, id, entry);
    entry
        .1
        .places
        .iter()
        .take(usize::from(entry.1.count))
        .map(|p| Piece {
            place: *p,
            birth: entry.1.birth,
        })
        .all(|p| !in_scope(scope, &p) || (has_piece(done, p) || ahead))
}

/// Whether all entries that are born after a transaction group are covered so.
fn is_covered_dataset(
    later: &[DsId],
    scope: &Scope,
    s: &Phys,
    done: &[Piece],
    start: u64,
    dataset: &PlainDataset,
) -> bool
    ensures { result ≡ is_covered_dataset later.now scope.now s.now done.now start dataset.now }
{
    let id = dataset.id;
    dataset.entries.as_slice().iter().all(|e| !(start < e.1.birth)
        || is_covered_entry(later, scope, s, done, id, e))
}

/// Whether all datasets are.
fn are_covered(later: &[DsId], g: &[PlainDataset], scope: &Scope, s: &Phys, done: &[Piece]) -> bool
    ensures { result ≡ list_all (λ d. is_covered_dataset later.now scope.now s.now done.now (start_of g.now d.parent) d) g.now }
{
    g.iter().all(|d| is_covered_dataset(later, scope, s, done, start_of(g, d.parent), d))
}

/// Whether all datasets are, where the state claims to miss nothing.
fn is_covering(later: &[DsId], g: &[PlainDataset], scope: &Scope, s: &Phys, done: &[Piece]) -> bool
    ensures { result ≡ is_covering later.now g.now scope.now s.now done.now }
{
    let claims = claims(s.status);
    let covered = are_covered(later, g, scope, s, done);
    !claims || covered
}

/// Whether a scan with this status claims to miss nothing.
fn claims(status: Status) -> bool
    ensures { result ≡ claims status }
{
    match status {
        Status::Never | Status::Canceled => false,
        Status::Scanning | Status::Finished => true,
    }
}

/// Whether the state covers the graph, where the pieces of `done` were examined.
pub fn covers(
    alloc: Global,
    g: &[PlainDataset],
    scope: &Scope,
    s: &Phys,
    done: &[Piece],
) -> Result<bool, AllocError>
    ensures { IfOk result (λ b. IsTrue b ↔ Covers g.now scope.now s.now (λ p. has_piece done.now p)) }
{
    let later = later(alloc, g, s)?;
    let covers = is_covering(&later, g, scope, s, done);
    Ok(covers)
}

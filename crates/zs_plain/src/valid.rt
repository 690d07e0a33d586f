//! Whether datasets are a valid graph of a pool.

ghost use Rattle.std.specs.Prelude.{◌≡◌, ◌↔◌, ◌≤◌, ◌||◌, not, nat_lt, length, slice_index, IfOk, IsTrue};
ghost use Rattle.std.specs.List.{list_any, list_all};
ghost use Rattle.zs_ids.specs.GraphTree.{start_of, stands_on};
ghost use Rattle.zs_ids.specs.GraphValid.{AreApart, IsTree, Valid};
ghost use Rattle.zs_ids.specs.Graph.{pieces_of};
ghost use Rattle.zs_plain.specs.TreeTests.{are_apart, are_named_apart, do_lie_in, do_meet, do_overlap, each_once, has_no_parent, is_apart, is_apart_from, is_name, is_origin, is_placed, is_same, is_tree, is_under, lies_apart, lies_in, rise};
ghost use Rattle.zs_plain.specs.BlockTests.{does_share, has_blocks};
ghost use Rattle.zs_plain.specs.ValidTests.{do_share, is_valid};

use crate::blocks::{does_share, has_blocks};
use crate::dataset::{PlainDataset, PlainRoom};
use crate::graph::{has_piece, live};
use crate::tree::{stands_on, start_of};
use std::alloc::{AllocError, Global};
use zs_ids::limits::DATASETS;
use zs_ids::{Bp, DsId, Key, Name, Piece};

/// Whether the names are one.
fn is_name(a: Name, b: Name) -> bool
    ensures { result ≡ is_name a b }
{
    a == b
}

/// Whether both hold, or neither.
fn is_same(a: bool, b: bool) -> bool
    ensures { result ≡ is_same a b }
{
    if a { b } else { !b }
}

/// Whether there is no parent.
fn has_no_parent(parent: Option<DsId>) -> bool
    ensures { result ≡ has_no_parent parent }
{
    match parent {
        None => true,
        Some(_) => false,
    }
}

/// Whether the dataset is the origin.
fn is_origin(d: &PlainDataset) -> bool
    ensures { result ≡ is_origin d.now }
{
    let first = d.id == DsId::ORIGIN;
    let snapshot = !d.head;
    let owner = is_name(d.owner, Name::EMPTY);
    let label = is_name(d.label, Name::EMPTY);
    let alone = has_no_parent(d.parent);
    let created = d.creation == 1;
    let empty = d.entries.len() == 0;
    (first && (snapshot && (owner && label))) && (alone && (created && empty))
}

/// Whether the dataset stands on this one, a snapshot and older.
fn is_under(d: &PlainDataset, below: &PlainDataset) -> bool
    ensures { result ≡ is_under d.now below.now }
{
    let stands = stands_on(below.id, d.parent);
    let snapshot = !below.head;
    let head = d.head;
    let older = below.creation < d.creation;
    stands && (snapshot && (head || older))
}

/// Whether it stands on one of the graph.
fn stands_in(g: &[PlainDataset], d: &PlainDataset) -> bool
    ensures { result ≡ list_any (λ below. is_under d.now below) g.now }
{
    g.iter().any(|below| is_under(d, below))
}

/// Whether each id of the graph is above this one.
fn are_above(g: &[PlainDataset], id: DsId) -> bool
    ensures { result ≡ list_all (λ x. nat_lt id.0 x.id.0) g.now }
{
    g.iter().all(|x| id.0 < x.id.0)
}

/// Whether each id is below those after it.
fn rise(g: &[PlainDataset]) -> bool
    ensures { result ≡ rise g.now }
{
    match g {
        [] => true,
        [first, rest @ ..] => are_above(rest, first.id) && rise(rest),
    }
}

/// Whether two datasets of one kind, one owner and one label are one.
fn are_named_apart(a: &PlainDataset, b: &PlainDataset) -> bool
    ensures { result ≡ are_named_apart a.now b.now }
{
    let kind = is_same(a.head, b.head);
    let owner = is_name(a.owner, b.owner);
    let label = is_name(a.label, b.label);
    let id = a.id == b.id;
    !kind || (!owner || (!label || id))
}

/// Whether the dataset is named apart from all of the graph.
fn is_named_apart(g: &[PlainDataset], a: &PlainDataset) -> bool
    ensures { result ≡ list_all (λ b. are_named_apart a.now b) g.now }
{
    g.iter().all(|b| are_named_apart(a, b))
}

/// Whether all datasets are named apart.
fn all_named_apart(g: &[PlainDataset]) -> bool
    ensures { result ≡ list_all (λ a. list_all (λ b. are_named_apart a b) g.now) g.now }
{
    g.iter().all(|a| is_named_apart(g, a))
}

/// Whether the dataset has its place, up to the transaction group n.
fn is_placed(g: &[PlainDataset], n: u64, d: &PlainDataset) -> bool
    ensures { result ≡ is_placed g.now n d.now }
{
    let origin = is_origin(d);
    let stands = stands_in(g, d);
    let created = d.creation <= n;
    let head = d.head;
    let never = d.creation == 0;
    let label = is_name(d.label, Name::EMPTY);
    (origin || stands) && (created && (!head || (never && label)))
}

/// Whether all datasets have.
fn are_placed(g: &[PlainDataset], n: u64) -> bool
    ensures { result ≡ list_all (λ d. is_placed g.now n d) g.now }
{
    g.iter().all(|d| is_placed(g, n, d))
}

/// Whether one of them is the origin.
fn has_origin(g: &[PlainDataset]) -> bool
    ensures { result ≡ list_any (λ d. is_origin d) g.now }
{
    g.iter().any(|d| is_origin(d))
}

/// The test of a tree.
fn is_rooted(g: &[PlainDataset], n: u64) -> bool
    ensures { result ≡ is_tree g.now n }
{
    let origin = has_origin(g);
    let placed = are_placed(g, n);
    let rising = rise(g);
    let few = g.len() <= DATASETS;
    let named = all_named_apart(g);
    (origin && placed) && (rising && (few && named))
}

/// Whether the datasets are a tree with the origin as its root, up to the transaction group n.
pub fn is_tree(g: &[PlainDataset], n: u64) -> bool
    ensures { IsTrue result ↔ IsTree g.now n }
{
    is_rooted(g, n)
}

/// Whether two pieces of blocks of these sizes meet.
fn do_meet(a: u16, b: u16, p: Piece, q: Piece) -> bool
    ensures { result ≡ do_meet a b p q }
{
    let first = u64::from(p.place.sector);
    let second = u64::from(q.place.sector);
    let mirror = p.place.vdev == q.place.vdev;
    let before = first < second + u64::from(b);
    let behind = second < first + u64::from(a);
    mirror && (before && behind)
}

/// Whether a piece of a block meets the other block.
fn meets(a: u16, p: Piece, b: &Bp) -> bool
    ensures { result ≡ list_any (λ q. do_meet a b.now.sectors p q) (pieces_of b.now) }
{
    let sectors = b.sectors;
    b.places
        .iter()
        .take(usize::from(b.count))
        .map(|q| Piece {
            place: *q,
            birth: b.birth,
        })
        .any(|q| do_meet(a, sectors, p, q))
}

/// Whether two blocks meet.
fn do_overlap(a: &Bp, b: &Bp) -> bool
    ensures { result ≡ do_overlap a.now b.now }
{
    let sectors = a.sectors;
    a.places
        .iter()
        .take(usize::from(a.count))
        .map(|p| Piece {
            place: *p,
            birth: a.birth,
        })
        .any(|p| meets(sectors, p, b))
}

/// Whether two entries of datasets with these ids are one, or lie apart.
fn is_apart(c: DsId, e: &(Key, Bp), d: DsId, f: &(Key, Bp)) -> bool
    ensures { result ≡ is_apart c e.now d f.now }
{
    let overlap = do_overlap(&e.1, &f.1);
    let dataset = c == d;
    let key = e.0 == f.0;
    !overlap || (dataset && key)
}

/// Whether the entry lies apart from each that is at home in the dataset, or is it.
fn is_apart_from(c: DsId, e: &(Key, Bp), start: u64, d: &PlainDataset) -> bool
    ensures { result ≡ is_apart_from c e.now start d.now }
{
    let id = d.id;
    d.entries
        .as_slice()
        .iter()
        .all(|f| !(start < f.1.birth) || is_apart(c, e, id, f))
}

/// Whether it does from those of all datasets.
fn is_apart_in(g: &[PlainDataset], c: DsId, e: &(Key, Bp)) -> bool
    ensures { result ≡ list_all (λ d. is_apart_from c e.now (start_of g.now d.parent) d) g.now }
{
    g.iter()
        .all(|d| is_apart_from(c, e, start_of(g, d.parent), d))
}

/// Whether each entry at home in the dataset does.
fn lies_apart(g: &[PlainDataset], start: u64, c: &PlainDataset) -> bool
    ensures { result ≡ lies_apart g.now start c.now }
{
    let id = c.id;
    c.entries
        .as_slice()
        .iter()
        .all(|e| !(start < e.1.birth) || is_apart_in(g, id, e))
}

/// The test of blocks that lie apart.
fn all_lie_apart(g: &[PlainDataset]) -> bool
    ensures { result ≡ are_apart g.now }
{
    g.iter().all(|c| lies_apart(g, start_of(g, c.parent), c))
}

/// Whether no two entries at home overlap.
pub fn are_apart(g: &[PlainDataset]) -> bool
    ensures { IsTrue result ↔ AreApart g.now }
{
    all_lie_apart(g)
}

/// The sector at which the space of a mirror ends; 0 where there is no such mirror.
fn end_of(room: &PlainRoom, vdev: u8) -> u64
    ensures { result ≡ slice_index room.now.ends vdev }
{
    let ends = room.ends.as_slice();
    let vdev = usize::from(vdev);
    if vdev < ends.len() { ends[vdev] } else { 0 }
}

/// Whether the piece lies in the space of its mirror.
fn lies_in(room: &PlainRoom, sectors: u16, p: Piece) -> bool
    ensures { result ≡ lies_in room.now sectors p }
{
    let sector = u64::from(p.place.sector);
    let mirror = usize::from(p.place.vdev) < room.ends.len();
    let from = room.start <= sector;
    let to = sector + u64::from(sectors) <= end_of(room, p.place.vdev);
    mirror && (from && to)
}

/// Whether the pieces of a block do.
fn block_lies_in(room: &PlainRoom, bp: &Bp) -> bool
    ensures { result ≡ list_all (λ p. lies_in room.now bp.now.sectors p) (pieces_of bp.now) }
{
    let sectors = bp.sectors;
    bp.places
        .iter()
        .take(usize::from(bp.count))
        .map(|p| Piece {
            place: *p,
            birth: bp.birth,
        })
        .all(|p| lies_in(room, sectors, p))
}

/// Whether the blocks of all entries do.
fn do_lie_in(room: &PlainRoom, entries: &[(Key, Bp)]) -> bool
    ensures { result ≡ do_lie_in room.now entries.now }
{
    entries.iter().all(|e| block_lies_in(room, &e.1))
}

/// Whether those of all datasets do.
fn all_lie_in(room: &PlainRoom, g: &[PlainDataset]) -> bool
    ensures { result ≡ list_all (λ d. do_lie_in room.now d.entries) g.now }
{
    g.iter().all(|d| do_lie_in(room, d.entries.as_slice()))
}

/// How many different pieces there are.
fn count_once(pieces: &[Piece]) -> usize
    ensures count { result ≡ length (each_once pieces.now) }
    ensures most { result ≤ length pieces.now }
{
    match pieces {
        [] => 0,
        [first, rest @ ..] => {
            let others = count_once(rest);
            if has_piece(rest, *first) {
                others
            } else {
                1 + others
            }
        }
    }
}

/// Whether the dataset shares what it should with each one on which it stands.
fn shares_in(g: &[PlainDataset], d: &PlainDataset) -> bool
    ensures { result ≡ list_all (λ p. not (stands_on p.id d.now.parent) || does_share d.now p) g.now }
{
    let parent = d.parent;
    g.iter()
        .all(|p| !stands_on(p.id, parent) || does_share(d, p))
}

/// Whether all datasets do.
fn do_share(g: &[PlainDataset]) -> bool
    ensures { result ≡ do_share g.now }
{
    g.iter().all(|d| shares_in(g, d))
}

/// Whether the blocks of all datasets are in order.
fn all_have_blocks(g: &[PlainDataset], n: u64) -> bool
    ensures { result ≡ list_all (λ d. has_blocks d n) g.now }
{
    g.iter().all(|d| has_blocks(d, n))
}

/// The test of a valid graph, of which these are the live pieces.
fn is_whole(live: &[Piece], room: &PlainRoom, g: &[PlainDataset], n: u64) -> bool
    ensures { result ≡ is_valid live.now room.now g.now n }
{
    let tree = is_rooted(g, n);
    let blocks = all_have_blocks(g, n);
    let share = do_share(g);
    let apart = all_lie_apart(g);
    let within = all_lie_in(room, g);
    let count = count_once(live) as u64;
    let few = count <= room.blocks;
    (tree && (blocks && (share && apart))) && (within && few)
}

/// Whether the datasets are a graph of a pool with this room that is whole up to the transaction group n.
pub fn is_valid(
    alloc: Global,
    room: &PlainRoom,
    g: &[PlainDataset],
    n: u64,
) -> Result<bool, AllocError>
    ensures { IfOk result (λ b. IsTrue b ↔ Valid room.now g.now n) }
{
    let pieces = live(alloc, g)?;
    let valid = is_whole(&pieces, room, g, n);
    Ok(valid)
}

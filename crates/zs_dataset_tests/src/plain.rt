//! Worked examples, run through the definitions: graphs by hand, the turns of a walk, and the events between them.
//!
//! An example is rows of plain values, of which helpers make graphs and scans and what these are judged by: so the proof of
//! each test stays small.

mod ends;
mod examples;
mod graphs;
mod refused;
mod run;
mod scopes;
mod valid;
mod wrong;

use std::alloc::{AllocError, Global};
use zs_ids::{Bp, DsId, Key, Name, Piece, Place, Seq};
use zs_phys::{At, Kind, Phys, Scope, Status, Todo};
use zs_plain::dataset::{PlainDataset, PlainRoom};
use zs_plain::valid::is_valid;

/// A name of one letter.
pub fn name(letter: u8) -> Name {
    Name {
        len: 1,
        bytes: [letter, 0, 0, 0, 0, 0, 0, 0, 0, 0, 0, 0],
    }
}

/// A key.
pub fn key(object: u16, rank: u8, leaf: u32, depth: u8) -> Key {
    Key {
        object,
        rank,
        leaf,
        depth,
    }
}

/// The height of the block at a key over the records.
fn level_of(key: Key) -> u8 {
    match (key.rank, key.depth) {
        (0, 0) => 1,
        (0, _) => 0,
        (_, depth) => 3_u8.saturating_sub(depth),
    }
}

/// A block at a sector of the first mirror: a record of one sector, or another block of eight.
pub fn block(key: Key, sector: u32, birth: u64) -> (Key, Bp) {
    let none = Place { vdev: 0, sector: 0 };
    let sectors = if key.depth == 3 { 1 } else { 8 };
    let bp = Bp {
        count: 1,
        places: [Place { vdev: 0, sector }, none, none],
        sectors,
        birth,
        level: level_of(key),
        sum: [0; 32],
    };
    (key, bp)
}

/// A dataset of an example.
#[derive(Clone, Copy)]
pub struct Row<'a> {
    /// Its number.
    pub id: u32,
    /// The letter of its owner.
    pub owner: u8,
    /// On which one it stands.
    pub parent: u32,
    /// Creation and label of a snapshot; none for a head.
    pub snapshot: Option<(u64, u8)>,
    /// What it holds.
    pub blocks: &'a [(Key, Bp)],
}

/// A head.
pub fn head(id: u32, owner: u8, parent: u32, blocks: &[(Key, Bp)]) -> Row<'_> {
    Row {
        id,
        owner,
        parent,
        snapshot: None,
        blocks,
    }
}

/// A snapshot of the head `a`, with its creation and its label.
pub fn snapshot(id: u32, parent: u32, taken: (u64, u8), blocks: &[(Key, Bp)]) -> Row<'_> {
    Row {
        id,
        owner: b'a',
        parent,
        snapshot: Some(taken),
        blocks,
    }
}

/// The label of a snapshot, and the group in which it was taken.
fn taken(snapshot: Option<(u64, u8)>) -> (u64, Name) {
    match snapshot {
        None => (0, Name::EMPTY),
        Some((creation, label)) => (creation, name(label)),
    }
}

/// The dataset of a row.
pub fn dataset(alloc: Global, row: &Row<'_>) -> Result<PlainDataset, AllocError> {
    let entries = Seq::from_slice(alloc, row.blocks)?;
    let (creation, label) = taken(row.snapshot);
    Ok(PlainDataset {
        id: DsId(row.id),
        head: row.snapshot.is_none(),
        owner: name(row.owner),
        label,
        parent: Some(DsId(row.parent)),
        creation,
        entries,
    })
}

/// The empty snapshot at the root of the tree.
fn origin(alloc: Global) -> PlainDataset {
    PlainDataset {
        id: DsId::ORIGIN,
        head: false,
        owner: Name::EMPTY,
        label: Name::EMPTY,
        parent: None,
        creation: 1,
        entries: Seq::new(alloc),
    }
}

/// The origin, and the datasets of the rows.
pub fn graph(alloc: Global, rows: &[Row<'_>]) -> Result<Vec<PlainDataset>, AllocError> {
    let mut g = Vec::new(alloc);
    g.push(origin(alloc))?;
    for row in rows {
        g.push(dataset(alloc, row)?)?;
    }
    Ok(g)
}

/// Whether the graph is valid in the room of one mirror of 512 sectors with at most so many blocks, where h is the transaction
/// group whose tasks come next.
pub fn fits(alloc: Global, g: &[PlainDataset], blocks: u64, h: u64) -> Result<bool, AllocError> {
    let ends = Seq::from_slice(alloc, &[512])?;
    let room = PlainRoom {
        start: 296,
        ends,
        blocks,
    };
    is_valid(alloc, &room, g, h)
}

/// The scope of a scrub that was started in a transaction group.
pub fn scrub(alloc: Global, max: u64) -> Scope {
    Scope {
        kind: Kind::Scrub,
        min: 0,
        max,
        width: 2,
        dirty0: Seq::new(alloc),
    }
}

/// A scan at a place, with others in its queue.
pub fn scan(
    alloc: Global,
    at: At,
    pass: (u64, u64, bool),
    todo: &[(u32, u64)],
) -> Result<Phys, AllocError> {
    let mut s = Phys::idle(alloc)?;
    s.status = Status::Scanning;
    s.at = at;
    s.curmin = pass.0;
    s.curmax = pass.1;
    s.again = pass.2;
    for (id, min) in todo {
        if s.todo.len() < 255 {
            s.todo.push(Todo {
                id: DsId(*id),
                min: *min,
            });
        }
    }
    Ok(s)
}

/// Whether the state is this one.
pub fn is_scan(s: &Phys, at: At, pass: (u64, u64, bool), todo: &[(u32, u64)]) -> bool {
    let here = s.at == at && s.curmin == pass.0 && s.curmax == pass.1 && s.again == pass.2;
    let queued = s
        .todo
        .as_slice()
        .iter()
        .zip(todo.iter())
        .all(|(q, (id, min))| q.id.0 == *id && q.min == *min);
    here && queued && s.todo.len() == todo.len()
}

/// Whether the pieces are those at these sectors, in order.
pub fn are_at(pieces: &[Piece], sectors: &[u32]) -> bool {
    let same = pieces
        .iter()
        .zip(sectors.iter())
        .all(|(p, sector)| p.place.sector == *sector);
    same && pieces.len() == sectors.len()
}

/// The live pieces that are at these sectors.
pub fn pieces(
    alloc: Global,
    g: &[PlainDataset],
    sectors: &[u32],
) -> Result<Vec<Piece>, AllocError> {
    let live = zs_plain::graph::live(alloc, g)?;
    live.iter()
        .copied()
        .filter(|p| sectors.contains(&p.place.sector))
        .collect(alloc)
}

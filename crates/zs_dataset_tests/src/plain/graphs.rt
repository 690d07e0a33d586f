//! The graphs of the examples.

use super::{block, graph, head, key, snapshot};
use std::alloc::{AllocError, Global};
use zs_ids::{Bp, Key};
use zs_plain::dataset::PlainDataset;

/// Behind the root.
pub const BEHIND_ROOT: Key = Key {
    object: 0,
    rank: 0,
    leaf: 0,
    depth: 1,
};

/// Behind the top block of the object of two levels.
pub const BEHIND_TOP: Key = Key {
    object: 1,
    rank: 1,
    leaf: 0,
    depth: 3,
};

/// An object of one level with one record: the root, the dnodes and the record, at these sectors.
pub fn one_record(root: u32, dnodes: u32, record: u32, birth: u64) -> [(Key, Bp); 3] {
    [
        block(key(0, 0, 0, 0), root, birth),
        block(key(0, 0, 0, 1), dnodes, birth),
        block(key(1, 1, 0, 3), record, birth),
    ]
}

/// The one at 296, 304 and 312, written in transaction group 3.
pub fn first_record() -> [(Key, Bp); 3] {
    one_record(296, 304, 312, 3)
}

/// An object of two levels with three records, written in transaction group 3.
pub fn three_records() -> [(Key, Bp); 6] {
    [
        block(key(0, 0, 0, 0), 296, 3),
        block(key(0, 0, 0, 1), 304, 3),
        block(key(1, 1, 0, 2), 312, 3),
        block(key(1, 1, 0, 3), 320, 3),
        block(key(1, 1, 1, 3), 321, 3),
        block(key(1, 1, 2, 3), 322, 3),
    ]
}

/// The same, with its last record written once more in transaction group 5.
pub fn last_rewritten() -> [(Key, Bp); 6] {
    [
        block(key(0, 0, 0, 0), 323, 5),
        block(key(0, 0, 0, 1), 331, 5),
        block(key(1, 1, 0, 2), 339, 5),
        block(key(1, 1, 0, 3), 320, 3),
        block(key(1, 1, 1, 3), 321, 3),
        block(key(1, 1, 2, 3), 347, 5),
    ]
}

/// The filesystem `a` with these blocks.
pub fn filesystem(alloc: Global, blocks: &[(Key, Bp)]) -> Result<Vec<PlainDataset>, AllocError> {
    graph(alloc, &[head(1, b'a', 0, blocks)])
}

/// The filesystem `a` on a snapshot, each with its blocks.
fn on_snapshot(
    alloc: Global,
    blocks: &[(Key, Bp)],
    id: u32,
    taken: (u64, u8),
    before: &[(Key, Bp)],
) -> Result<Vec<PlainDataset>, AllocError> {
    graph(
        alloc,
        &[head(1, b'a', id, blocks), snapshot(id, 0, taken, before)],
    )
}

/// A filesystem whose last record was written once more after its snapshot.
pub fn rewritten(alloc: Global) -> Result<Vec<PlainDataset>, AllocError> {
    on_snapshot(alloc, &last_rewritten(), 2, (4, b's'), &three_records())
}

/// The same, with its snapshot destroyed.
pub fn rewritten_alone(alloc: Global) -> Result<Vec<PlainDataset>, AllocError> {
    filesystem(alloc, &last_rewritten())
}

/// A filesystem that was written in transaction groups 3, 4 and 5, with a snapshot after each of the first two.
pub fn two_snapshots(alloc: Global) -> Result<Vec<PlainDataset>, AllocError> {
    let first = first_record();
    let second = one_record(313, 321, 329, 4);
    let third = one_record(330, 338, 346, 5);
    graph(
        alloc,
        &[
            head(1, b'a', 3, &third),
            snapshot(2, 0, (3, b'1'), &first),
            snapshot(3, 2, (4, b'2'), &second),
        ],
    )
}

/// The same with both snapshots destroyed, and a third one taken in transaction group 7.
pub fn third_snapshot(alloc: Global) -> Result<Vec<PlainDataset>, AllocError> {
    let blocks = one_record(330, 338, 346, 5);
    on_snapshot(alloc, &blocks, 4, (7, b'3'), &blocks)
}

/// A filesystem of one record.
pub fn one_filesystem(alloc: Global) -> Result<Vec<PlainDataset>, AllocError> {
    filesystem(alloc, &first_record())
}

/// The same with a snapshot of transaction group 5.
pub fn with_snapshot(alloc: Global) -> Result<Vec<PlainDataset>, AllocError> {
    let blocks = first_record();
    on_snapshot(alloc, &blocks, 2, (5, b's'), &blocks)
}

/// The same with the record written once more in transaction group 6.
pub fn written_after_snapshot(alloc: Global) -> Result<Vec<PlainDataset>, AllocError> {
    let blocks = one_record(313, 321, 329, 6);
    on_snapshot(alloc, &blocks, 2, (5, b's'), &first_record())
}

/// A head on a snapshot that was taken in transaction group 5, with a block of group 3 that the snapshot lacks.
pub fn unshared(alloc: Global) -> Result<Vec<PlainDataset>, AllocError> {
    let blocks = one_record(313, 321, 329, 3);
    on_snapshot(alloc, &blocks, 2, (5, b's'), &first_record())
}

/// A filesystem and a clone of its snapshot, each written after it, with these blocks.
fn with_clone(
    alloc: Global,
    a: &[(Key, Bp)],
    b: &[(Key, Bp)],
) -> Result<Vec<PlainDataset>, AllocError> {
    let first = first_record();
    graph(
        alloc,
        &[
            head(1, b'a', 2, a),
            snapshot(2, 0, (3, b's'), &first),
            head(3, b'b', 2, b),
        ],
    )
}

/// A filesystem and a clone of its snapshot, each written after it; swapped or not.
pub fn clones(alloc: Global, swapped: bool) -> Result<Vec<PlainDataset>, AllocError> {
    let first = one_record(313, 321, 329, 4);
    let second = one_record(330, 338, 346, 4);
    if swapped {
        with_clone(alloc, &second, &first)
    } else {
        with_clone(alloc, &first, &second)
    }
}

/// A filesystem of one record at 296, 304 and 312, beside one with these blocks.
pub fn beside(alloc: Global, blocks: &[(Key, Bp)]) -> Result<Vec<PlainDataset>, AllocError> {
    let first = first_record();
    graph(alloc, &[head(1, b'a', 0, &first), head(2, b'b', 0, blocks)])
}

/// Two filesystems of one record each; the first destroyed or not.
pub fn two_filesystems(alloc: Global, first: bool) -> Result<Vec<PlainDataset>, AllocError> {
    let second = one_record(313, 321, 329, 3);
    if first {
        beside(alloc, &second)
    } else {
        graph(alloc, &[head(2, b'b', 0, &second)])
    }
}

/// A filesystem of one record whose root lies at two places: at 296 and at this sector.
pub fn doubled(alloc: Global, second: u32) -> Result<Vec<PlainDataset>, AllocError> {
    let [(k, mut root), dnodes, record] = first_record();
    root.count = 2;
    root.places[1].sector = second;
    filesystem(alloc, &[(k, root), dnodes, record])
}

/// A filesystem that lacks the block of dnodes above its record.
pub fn without_dnodes(alloc: Global) -> Result<Vec<PlainDataset>, AllocError> {
    let [root, _, record] = first_record();
    filesystem(alloc, &[root, record])
}

/// A filesystem whose record is born after the blocks above it.
pub fn young_record(alloc: Global) -> Result<Vec<PlainDataset>, AllocError> {
    let [root, dnodes, mut record] = first_record();
    record.1.birth = 4;
    filesystem(alloc, &[root, dnodes, record])
}

/// A head on a head.
pub fn head_on_head(alloc: Global) -> Result<Vec<PlainDataset>, AllocError> {
    let first = first_record();
    graph(alloc, &[head(1, b'a', 0, &first), head(2, b'b', 1, &[])])
}

//! The calls of maps, queues, ledgers and transaction groups.

use crate::row::{Fault, Row, put};
use crate::spread::{HEAD, entry, item, key, mixed, piece, pointer};
use std::time::Instant;
use zs_flat::Flat;
use zs_ids::{Blocks, Key, Place};
use zs_ledger::Ledger;
use zs_queue::{PlainQueue, Waiting};
use zs_txg::OpenTxg;

/// How many pieces a batch has.
const BATCH: u32 = 32;

/// A map of n entries: it is filled in a mixed order, looked up, and walked.
pub fn map_rows(rt: &HostRuntime, n: u64, rows: &mut Vec<Row>) -> Result<(), Fault> {
    let mut map = Flat::new(rt.alloc());
    let start = Instant::now(rt)?;
    for i in 0..n {
        map.replace(key(mixed(i, n)), pointer())?;
    }
    put(rt, rows, "zs_flat replace", n, start)?;
    let start = Instant::now(rt)?;
    let mut found: u64 = 0;
    for i in 0..n {
        if map.get(key(mixed(i, n))).is_some() {
            found = found.saturating_add(1);
        }
    }
    put(rt, rows, "zs_flat get", found, start)?;
    let start = Instant::now(rt)?;
    let mut from = Key::ROOT;
    for _ in 0..n {
        let Some((found, _)) = map.next_from(from, 1) else {
            break;
        };
        from = Key {
            depth: found.depth.saturating_add(1),
            ..found
        };
    }
    put(rt, rows, "zs_flat next_from", n, start)
}

/// A queue of n pieces: it is filled, asked, emptied of every second piece, and taken in batches.
pub fn queue_rows(rt: &HostRuntime, n: u64, rows: &mut Vec<Row>) -> Result<(), Fault> {
    let mut queue = PlainQueue::new(rt.alloc(), u32::MAX);
    let start = Instant::now(rt)?;
    for i in 0..n {
        let next = item(mixed(i, n));
        if !queue.has(next.piece) {
            queue.put(next)?;
        }
    }
    put(rt, rows, "zs_queue has, put", n, start)?;
    let start = Instant::now(rt)?;
    for i in 0..n {
        if i % 2 == 0 {
            queue.drop_piece(piece(mixed(i, n)));
        }
    }
    put(rt, rows, "zs_queue drop_piece", n / 2, start)?;
    let start = Instant::now(rt)?;
    let batches = n / 64;
    for _ in 0..batches {
        let _batch = queue.take(0, BATCH)?;
    }
    put(rt, rows, "zs_queue take 32", batches, start)
}

/// A ledger of n entries: it is filled, asked, and its errors are listed.
pub fn ledger_rows(rt: &HostRuntime, n: u64, rows: &mut Vec<Row>) -> Result<(), Fault> {
    let mut ledger = Ledger::new(rt.alloc());
    let start = Instant::now(rt)?;
    for i in 0..n {
        ledger.reserve(1)?;
        ledger.push(entry(mixed(i, n)));
    }
    put(rt, rows, "zs_ledger push", n, start)?;
    let start = Instant::now(rt)?;
    let mut found: u64 = 0;
    for i in 0..n {
        if ledger.has(piece(mixed(i, n))) {
            found = found.saturating_add(1);
        }
    }
    put(rt, rows, "zs_ledger has", found, start)?;
    let start = Instant::now(rt)?;
    let errors = ledger.errors()?;
    put(
        rt,
        rows,
        "zs_ledger errors, each",
        errors.len() as u64,
        start,
    )?;
    let start = Instant::now(rt)?;
    let births = ledger.failed_births(0, 2)?;
    put(
        rt,
        rows,
        "zs_ledger failed_births",
        births.count() as u64,
        start,
    )
}

/// A transaction group of n staged blocks: it is filled, asked, and walked.
pub fn group_rows(rt: &HostRuntime, n: u64, rows: &mut Vec<Row>) -> Result<(), Fault> {
    let mut group = OpenTxg::new(rt.alloc(), 2);
    let place = Place { vdev: 0, sector: 0 };
    let start = Instant::now(rt)?;
    for i in 0..n {
        group.stage(HEAD, key(mixed(i, n)), place, 1, Some(i))?;
    }
    put(rt, rows, "zs_txg stage", n, start)?;
    let start = Instant::now(rt)?;
    for i in 0..n {
        let _place = group.staged(HEAD, key(mixed(i, n)));
    }
    put(rt, rows, "zs_txg staged", n, start)?;
    let start = Instant::now(rt)?;
    let mut after = None;
    for _ in 0..n {
        let Some(next) = group.entry_after(after) else {
            break;
        };
        after = Some((next.ds, next.key));
    }
    put(rt, rows, "zs_txg entry_after", n, start)
}

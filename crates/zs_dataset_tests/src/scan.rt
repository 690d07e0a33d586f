//! A scrub of a head with one record, with ample memory.

ghost use Rattle.std.specs.Prelude.{◌≡◌, ◌∷◌, [], IfOk};
ghost use Rattle.zs_cover.specs.Laws.{started};
ghost use Rattle.zs_ledger.specs.declared.entry.CopyResult.TheVariants.{Good, Missing};
ghost use Rattle.zs_dataset_tests.specs.Examples.{block, one_head, one_record, scrub_up_to};
ghost use Rattle.zs_walk.specs.Walking.{MayWalk};

use std::alloc::{AllocError, Global};
use std::test::Fail;
use zs_flat::Flat;
use zs_ids::{Blocks, Bp, DsId, Item, Key, Piece, Place};
use zs_ledger::{CopyResult, Entry};
use zs_phys::{At, Kind, Status};
use zs_scan::{Scan, ScanFault, Turn, item_of};
use zs_walk::Datasets;

const HEAD: DsId = DsId(1);

const SNAPSHOT: DsId = DsId(2);

const OTHER: DsId = DsId(3);

const DNODES: Key = Key {
    object: 0,
    rank: 0,
    leaf: 0,
    depth: 1,
};

const RECORD: Key = Key {
    object: 1,
    rank: 1,
    leaf: 0,
    depth: 3,
};

/// A piece.
const PIECE: Piece = Piece {
    place: Place {
        vdev: 0,
        sector: 296,
    },
    birth: 3,
};

/// The origin, and a head on it.
#[derive(Drop)]
struct OneHead {
    head: Flat,
}

impl Datasets for OneHead {
    ghost use Rattle.zs_dataset_tests.specs.Examples.{one_head};

    ghost datasets = { λ g. one_head (⟦<Flat as Blocks>⟧.entries g.head) };

    fn next_block(&self, id: DsId, from: Key, above: u64) -> Option<(Key, Bp)> {
        if id.0 == 1 {
            self.head.next_from(from, above)
        } else {
            None
        }
    }

    fn creation(&self, id: DsId) -> Option<u64> {
        if id.0 == 0 { Some(1) } else { None }
    }

    fn child_after(&self, id: DsId, after: Option<DsId>) -> Option<DsId> {
        if id.0 != 0 {
            return None;
        }
        match after {
            None => Some(HEAD),
            Some(last) => if last.0 < 1 { Some(HEAD) } else { None },
        }
    }
}

/// A block at a sector, of that many sectors, born in 3.
fn block(sector: u32, sectors: u16, level: u8) -> Bp
    ensures { result ≡ block sector sectors level }
{
    let unused = Place { vdev: 0, sector: 0 };
    Bp {
        count: 1,
        places: [Place { vdev: 0, sector }, unused, unused],
        sectors,
        birth: 3,
        level,
        sum: [0; 32],
    }
}

/// The blocks of a dataset with one record: the root at sector 296, the dnodes at 304, the record at 312.
fn blocks(alloc: Global) -> Result<Flat, AllocError>
    ensures { IfOk result (λ m. ⟦<Flat as Blocks>⟧.entries m ≡ one_record) }
{
    let mut map = Flat::empty(alloc);
    map.replace(Key::ROOT, block(296, 8, 1))?;
    map.replace(DNODES, block(304, 8, 0))?;
    map.replace(RECORD, block(312, 1, 0))?;
    Ok(map)
}

#[test]
fn a_blank_scan_rests(rt: HostRuntime) -> Result<(), Fail> {
    let mut scan = Scan::blank(rt.alloc(), 2, 2, 8, 4)?;
    scan.facts();
    assert!(rt; !scan.is_running() && !scan.is_in_flight() && !scan.is_done(PIECE));
    assert_eq!(rt;
        (scan.waiting(), scan.waiting_of(0), scan.flying()),
        (0, 0, 0)
    );
    assert!(rt; scan.scope().kind == Kind::Idle && scan.run().status == Status::Never);
    assert_eq!(rt; scan.ledger().len(), 0);
    assert!(rt; !scan.finish());
    assert!(rt; !scan.freed(PIECE));
    Ok(())
}

#[test]
fn a_scrub_starts_at_the_origin(rt: HostRuntime) -> Result<(), Fail> {
    let mut scan = Scan::blank(rt.alloc(), 2, 2, 8, 4)?;
    assert!(rt; scan.start_scrub(4, 2).is_ok());
    assert!(rt; scan.is_running() && scan.scope().kind == Kind::Scrub && scan.scope().max == 4);
    assert!(rt; scan.scope().dirty0.len() == 2);
    assert!(rt; scan.run().at == At::Nowhere && scan.run().todo.len() == 1 && scan.run().away == 2);
    assert!(rt; scan.start_scrub(5, 0) == Err(ScanFault::ScanBusy));
    assert!(rt; scan.scope().max == 4);
    assert!(rt; !scan.finish());
    Ok(())
}

#[test]
fn a_batch_of_nothing_is_not_in_flight(rt: HostRuntime) -> Result<(), Fail> {
    let mut scan = Scan::blank(rt.alloc(), 2, 2, 8, 4)?;
    match scan.take(0, 10, 3) {
        Ok(batch) => {
            assert!(rt; batch.items.len() == 0 && batch.vdev == 0 && batch.online == 3);
        }
        Err(_) => assert!(rt; false),
    }
    assert!(rt; !scan.is_in_flight());
    Ok(())
}

/// Makes one turn behind the other, and answers whether they were just these.
fn is_walk<G: Datasets>(scan: &mut Scan, graph: &G, want: &[Turn]) -> bool
    requires { MayWalk (G.datasets graph.now) scan.old.scope scan.old.run }
{
    for turn in want {
        match scan.walk_step(graph, 4) {
            Ok(made) => if made != *turn {
                return false;
            },
            Err(_) => return false,
        }
    }
    true
}

/// What was found of an item whose two copies are good.
fn entry_of(item: &Item) -> Entry
    ensures piece { result.piece ≡ item.now.piece }
    ensures sectors { result.sectors ≡ item.now.sectors }
    ensures sum { result.sum ≡ item.now.sum }
    ensures copies { result.copies ≡ Good ∷ Good ∷ Missing ∷ Missing ∷ [] }
{
    Entry {
        piece: item.piece,
        sectors: item.sectors,
        sum: item.sum,
        copies: [
            CopyResult::Good,
            CopyResult::Good,
            CopyResult::Missing,
            CopyResult::Missing,
        ],
        marks: [u64::MAX; 4],
    }
}

/// A scrub of what is born before 4.
fn scrub(alloc: Global) -> Result<Scan, ScanFault>
    ensures scope { IfOk result (λ s. s.scope ≡ scrub_up_to 4) }
    ensures run { IfOk result (λ s. s.run ≡ started 0) }
{
    let mut scan = Scan::blank(alloc, 2, 2, 8, 4)?;
    scan.start_scrub(4, 0)?;
    Ok(scan)
}

/// Checks the lowest piece that waits, and answers it with the number of entries that were made.
fn check_one(scan: &mut Scan) -> Option<(Piece, usize)> {
    let Ok(batch) = scan.take(0, 1, 3) else {
        return None;
    };
    let [item] = batch.items.as_slice() else {
        return None;
    };
    if scan.scope().width != 2 {
        return None;
    }
    let made = scan.verdict(batch.number, &[entry_of(item)]);
    Some((item.piece, made))
}

/// Checks what waits, piece by piece, and answers whether all went as it must for three pieces.
fn has_checked(scan: &mut Scan) -> bool {
    if scan.waiting() != 3 || scan.waiting_of(0) != 3 || scan.finish() {
        return false;
    }
    match check_one(scan) {
        Some((piece, 1)) => piece.place.sector == 296
            && scan.waiting() == 2
            && scan.is_done(piece)
            && scan.ledger().len() == 1,
        _ => false,
    }
}

#[test]
#[tactic(auto, using(crate::proofs::Examples::head_walks))]
fn walks_over_what_it_puts(rt: HostRuntime) -> Result<(), Fail> {
    let graph = OneHead {
        head: blocks(rt.alloc())?,
    };
    match scrub(rt.alloc()) {
        Ok(scan) => {
            let mut scan = scan;
            let turns = [
                Turn::Enter,
                Turn::End,
                Turn::Enter,
                Turn::At,
                Turn::At,
                Turn::At,
                Turn::End,
                Turn::Nothing,
            ];
            assert!(rt; is_walk(&mut scan, &graph, &turns));
            assert!(rt; has_checked(&mut scan));
        }
        Err(_) => assert!(rt; false),
    }
    Ok(())
}

/// A scrub of a head with one record, of which two pieces wait.
#[tactic(auto, using(crate::proofs::Examples::head_walks))]
fn two_wait(alloc: Global) -> Option<Scan> {
    let Ok(head) = blocks(alloc) else {
        return None;
    };
    let graph = OneHead { head };
    let Ok(scan) = scrub(alloc) else {
        return None;
    };
    let mut scan = scan;
    let turns = [Turn::Enter, Turn::End, Turn::Enter, Turn::At, Turn::At];
    if is_walk(&mut scan, &graph, &turns) {
        Some(scan)
    } else {
        None
    }
}

/// Takes the lowest piece that waits, and answers its item and the number of its batch.
fn take_one(scan: &mut Scan) -> Option<(Item, u64)> {
    let Ok(batch) = scan.take(0, 1, 3) else {
        return None;
    };
    let [item] = batch.items.as_slice() else {
        return None;
    };
    Some((*item, batch.number))
}

/// Takes two batches, and answers whether the one taken first is the first in flight, and none was before.
fn has_first(scan: &mut Scan) -> bool {
    if scan.first_in_flight().is_some() {
        return false;
    }
    let Some((_, first)) = take_one(scan) else {
        return false;
    };
    let Some((_, second)) = take_one(scan) else {
        return false;
    };
    match scan.first_in_flight() {
        Some(batch) => batch.number == first && first != second,
        None => false,
    }
}

#[test]
fn the_batch_taken_first_is_the_first_in_flight(rt: HostRuntime) -> Result<(), Fail> {
    match two_wait(rt.alloc()) {
        Some(scan) => {
            let mut scan = scan;
            assert!(rt; has_first(&mut scan));
        }
        None => assert!(rt; false),
    }
    Ok(())
}

/// Takes a batch, and answers whether just the entry of its item, with its number, is a verdict.
fn knows_verdict(scan: &mut Scan) -> bool {
    let Some((item, number)) = take_one(scan) else {
        return false;
    };
    let entry = entry_of(&item);
    let mut other = entry;
    other.sectors = 3;
    scan.is_verdict(number, &[entry])
        && !scan.is_verdict(u64::MAX, &[entry])
        && !scan.is_verdict(number, &[other])
        && !scan.is_verdict(number, &[])
        && !scan.is_verdict(number, &[entry, entry])
}

#[test]
fn a_verdict_has_the_number_and_the_items_of_a_batch(rt: HostRuntime) -> Result<(), Fail> {
    match two_wait(rt.alloc()) {
        Some(scan) => {
            let mut scan = scan;
            assert!(rt; knows_verdict(&mut scan));
        }
        None => assert!(rt; false),
    }
    Ok(())
}

/// How many entries a verdict would make.
fn count_made(scan: &Scan, alloc: Global, number: u64, entries: &[Entry]) -> Option<usize> {
    match scan.entries_made(alloc, number, entries) {
        Ok(made) => Some(made.len()),
        Err(_) => None,
    }
}

/// Takes a batch, frees its piece, and answers whether it made an entry just until then.
fn makes_until_freed(scan: &mut Scan, alloc: Global) -> bool {
    let Some((item, number)) = take_one(scan) else {
        return false;
    };
    let entries = [entry_of(&item)];
    if count_made(scan, alloc, number, &entries) != Some(1)
        || count_made(scan, alloc, u64::MAX, &entries) != Some(0)
    {
        return false;
    }
    scan.freed(item.piece) && count_made(scan, alloc, number, &entries) == Some(0)
}

#[test]
fn a_freed_piece_has_no_entry_made(rt: HostRuntime) -> Result<(), Fail> {
    match two_wait(rt.alloc()) {
        Some(scan) => {
            let mut scan = scan;
            assert!(rt; makes_until_freed(&mut scan, rt.alloc()));
        }
        None => assert!(rt; false),
    }
    Ok(())
}

#[test]
fn the_walk_moves_to_the_snapshot_of_its_head_and_back(rt: HostRuntime) -> Result<(), Fail> {
    match two_wait(rt.alloc()) {
        Some(scan) => {
            let mut scan = scan;
            assert!(rt; scan.run().at.is_on(HEAD));
            scan.snapshotted(HEAD, SNAPSHOT);
            assert!(rt; scan.run().at.is_on(SNAPSHOT) && !scan.run().again);
            scan.destroyed(SNAPSHOT, Some(HEAD));
            assert!(rt; scan.run().at.is_on(HEAD) && scan.run().again);
            assert_eq!(rt; scan.waiting(), 2);
        }
        None => assert!(rt; false),
    }
    Ok(())
}

#[test]
fn the_walk_leaves_a_head_that_was_swapped_and_destroyed(rt: HostRuntime) -> Result<(), Fail> {
    match two_wait(rt.alloc()) {
        Some(scan) => {
            let mut scan = scan;
            scan.swapped(HEAD, OTHER);
            assert!(rt; scan.run().at.is_on(OTHER));
            scan.destroyed(OTHER, None);
            assert!(rt; scan.run().at == At::Destroyed);
            assert_eq!(rt; scan.waiting(), 2);
        }
        None => assert!(rt; false),
    }
    Ok(())
}

/// Takes a batch, frees its piece and the one that waits, and answers whether none of them waits or flies then.
fn frees_both(scan: &mut Scan) -> bool {
    let Some((first, _)) = take_one(scan) else {
        return false;
    };
    let second = item_of(&block(304, 8, 0));
    if scan.waiting() != 1 || scan.flying() != 1 || !scan.is_done(second.piece) {
        return false;
    }
    scan.freed_all(&[first, second]);
    scan.waiting() == 0
        && scan.flying() == 0
        && scan.is_in_flight()
        && !scan.is_done(first.piece)
        && !scan.is_done(second.piece)
}

#[test]
fn freed_pieces_neither_wait_nor_fly(rt: HostRuntime) -> Result<(), Fail> {
    match two_wait(rt.alloc()) {
        Some(scan) => {
            let mut scan = scan;
            assert!(rt; frees_both(&mut scan));
        }
        None => assert!(rt; false),
    }
    Ok(())
}

#[test]
fn a_paused_scrub_goes_on(rt: HostRuntime) -> Result<(), Fail> {
    let mut scan = Scan::blank(rt.alloc(), 2, 2, 8, 4)?;
    assert!(rt; scan.pause() == Err(ScanFault::NoScan));
    assert!(rt; scan.resume() == Err(ScanFault::NotPaused));
    assert!(rt; scan.start_scrub(4, 0).is_ok() && scan.is_scrubbing());
    assert!(rt; scan.resume() == Err(ScanFault::NotPaused));
    assert!(rt; scan.pause().is_ok() && scan.run().paused && scan.kept().paused);
    assert!(rt; scan.pause() == Err(ScanFault::Paused));
    assert!(rt; scan.resume().is_ok() && !scan.run().paused && !scan.kept().paused);
    assert!(rt; scan.pause().is_ok() && scan.start_scrub(9, 0).is_ok());
    assert!(rt; !scan.run().paused && scan.scope().max == 4);
    Ok(())
}

#[test]
fn a_scan_is_stopped_once(rt: HostRuntime) -> Result<(), Fail> {
    let mut scan = Scan::blank(rt.alloc(), 2, 2, 8, 4)?;
    assert!(rt; scan.stop() == Err(ScanFault::NoScan));
    assert!(rt; scan.start_scrub(4, 0).is_ok() && scan.pause().is_ok());
    assert!(rt; scan.stop().is_ok() && scan.run().status == Status::Canceled);
    assert!(rt; scan.kept().status == Status::Canceled && !scan.run().paused);
    assert!(rt; scan.run().todo.len() == 0 && scan.stop() == Err(ScanFault::NoScan));
    assert!(rt; scan.pause() == Err(ScanFault::NoScan));
    Ok(())
}

/// Checks all that waits, and answers whether a checkpoint was made just when nothing waited or flew.
fn saves_when_drained(scan: &mut Scan) -> bool {
    if scan.checkpoint(5) || scan.kept().todo.len() != 1 {
        return false;
    }
    let Some((_, 1)) = check_one(scan) else {
        return false;
    };
    let Some((_, 1)) = check_one(scan) else {
        return false;
    };
    scan.stored() == 0
        && scan.checkpoint(5)
        && scan.stored() == 2
        && scan.kept().todo.len() == 0
        && scan.kept().at.is_on(HEAD)
}

#[test]
fn a_checkpoint_is_made_when_nothing_waits_or_flies(rt: HostRuntime) -> Result<(), Fail> {
    match two_wait(rt.alloc()) {
        Some(scan) => {
            let mut scan = scan;
            assert!(rt; saves_when_drained(&mut scan));
        }
        None => assert!(rt; false),
    }
    Ok(())
}

#[test]
fn no_checkpoint_is_made_with_a_batch_in_flight(rt: HostRuntime) -> Result<(), Fail> {
    match two_wait(rt.alloc()) {
        Some(scan) => {
            let mut scan = scan;
            let two = scan.take(0, 2, 3).is_ok();
            assert!(rt; two && scan.waiting() == 0 && scan.is_in_flight());
            assert!(rt; !scan.checkpoint(5));
            scan.snapshotted(HEAD, SNAPSHOT);
            assert!(rt; scan.run().at.is_on(SNAPSHOT) && !scan.kept().at.is_on(SNAPSHOT));
        }
        None => assert!(rt; false),
    }
    Ok(())
}

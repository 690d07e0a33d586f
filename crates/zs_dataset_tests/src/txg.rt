//! What is staged and queued, with ample memory.

use std::alloc::{AllocError, Global};
use zs_ids::{DsId, DsName, Key, Name, Place};
use zs_txg::{OpenTxg, Task};

fn key(object: u16, leaf: u32) -> Key {
    Key {
        object,
        rank: 1,
        leaf,
        depth: 3,
    }
}

fn place(sector: u32) -> Place {
    Place { vdev: 0, sector }
}

#[test]
fn answers_what_was_staged_last_in_order(rt: HostRuntime) -> Result<(), AllocError> {
    let mut txg = OpenTxg::new(rt.alloc(), 7);
    assert_eq!(rt; txg.txg(), 7);
    txg.reserve(5)?;
    txg.stage(DsId(2), key(1, 0), place(40), 2, Some(5))?;
    txg.stage(DsId(1), key(0, 9), place(30), 256, Some(6))?;
    txg.stage(DsId(2), key(0, 3), place(20), 8, None)?;
    txg.stage(DsId(2), key(1, 0), place(40), 4, Some(8))?;
    txg.stage(DsId(3), Key::ROOT, place(10), 8, None)?;
    assert_eq!(rt; txg.sectors(), 276);
    assert_eq!(rt; txg.staged(DsId(2), key(1, 0)), Some(place(40)));
    assert_eq!(rt; txg.staged(DsId(2), key(0, 9)), None);
    assert_eq!(rt; txg.get(DsId(2), key(1, 0)).and_then(|s| s.fill), Some(8));

    let mut after = None;
    let wants = [(1, 30), (2, 20), (2, 40), (3, 10)];
    for (ds, sector) in wants {
        let Some(entry) = txg.entry_after(after) else {
            assert!(rt; false, "an entry of {ds} is missing");
            return Ok(());
        };
        assert_eq!(rt; entry.ds, DsId(ds));
        assert_eq!(rt; entry.place, place(sector));
        after = Some((entry.ds, entry.key));
    }
    assert_eq!(rt; txg.entry_after(after), None);

    let second = txg.entries_of(rt.alloc(), DsId(2))?;
    assert_eq!(rt; second.len(), 2);
    assert_eq!(rt; second.first().map(|e| e.fill), Some(None));
    assert_eq!(rt; second.last().map(|e| e.fill), Some(Some(8)));
    Ok(())
}

/// Whether this is staged for a dataset: so many blocks, the first and the last in these sectors.
fn has_staged(
    alloc: Global,
    txg: &OpenTxg,
    ds: u32,
    count: usize,
    ends: Option<(u32, u32)>,
) -> Result<bool, AllocError> {
    let entries = txg.entries_of(alloc, DsId(ds))?;
    let first = entries.first().map(|e| e.place.sector);
    let last = entries.last().map(|e| e.place.sector);
    Ok(entries.len() == count && first == ends.map(|e| e.0) && last == ends.map(|e| e.1))
}

#[test]
fn tells_datasets_apart(rt: HostRuntime) -> Result<(), AllocError> {
    let alloc = rt.alloc();
    let mut txg = OpenTxg::new(alloc, 7);
    let greatest = Key {
        object: u16::MAX,
        rank: u8::MAX,
        leaf: u32::MAX,
        depth: u8::MAX,
    };
    txg.stage(DsId(9), key(1, 0), place(60), 1, Some(3))?;
    txg.stage(DsId(0), Key::ROOT, place(10), 8, None)?;
    txg.stage(DsId(3), greatest, place(30), 8, None)?;
    txg.stage(DsId(4), Key::ROOT, place(40), 8, None)?;
    txg.stage(DsId(4), key(1, 0), place(50), 1, Some(5))?;
    assert!(rt; has_staged(alloc, &txg, 0, 1, Some((10, 10)))?);
    assert!(rt; has_staged(alloc, &txg, 1, 0, None)?);
    assert!(rt; has_staged(alloc, &txg, 3, 1, Some((30, 30)))?);
    assert!(rt; has_staged(alloc, &txg, 4, 2, Some((40, 50)))?);
    assert!(rt; has_staged(alloc, &txg, 9, 1, Some((60, 60)))?);
    assert!(rt; has_staged(alloc, &txg, 10, 0, None)?);
    Ok(())
}

#[test]
fn numbers_tasks_from_one(rt: HostRuntime) -> Result<(), AllocError> {
    let mut txg = OpenTxg::new(rt.alloc(), 1);
    let mut name = Name::EMPTY;
    name.len = 1;
    name.bytes[0] = b'a';
    assert_eq!(rt; txg.queue(3, Task::Fs { name })?, 1);
    assert_eq!(rt; txg.queue(4, Task::Scrub)?, 2);
    let ds = DsName {
        owner: name,
        label: Name::EMPTY,
    };
    assert_eq!(rt; txg.queue(4, Task::Destroy { ds })?, 3);
    assert_eq!(rt; txg.tasks(), 3);
    assert_eq!(rt; txg.task(1), Some((3, Task::Fs { name })));
    assert_eq!(rt; txg.task(2), Some((4, Task::Scrub)));
    assert_eq!(rt; txg.task(3), Some((4, Task::Destroy { ds })));
    assert_eq!(rt; txg.task(0), None);
    assert_eq!(rt; txg.task(4), None);
    Ok(())
}

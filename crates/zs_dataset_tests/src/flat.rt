//! A map of four blocks: what it gives back, its order, many changes at once, and a copy of it.

ghost use Rattle.std.specs.Prelude.{◌≡◌};
ghost use Rattle.zs_ids.specs.Key.{record_key};

use std::alloc::AllocError;
use std::test::Fail;
use zs_flat::Flat;
use zs_ids::{Blocks, Bp, Key, Place};

/// The key of record `leaf` of object `object`.
fn record(object: u16, leaf: u32) -> Key
    ensures { result ≡ record_key object leaf }
{
    Key {
        object,
        rank: 1,
        leaf,
        depth: 3,
    }
}

/// A pointer to a block of one sector.
fn pointer(sector: u32, birth: u64) -> Bp {
    let unused = Place { vdev: 0, sector: 0 };
    Bp {
        count: 1,
        places: [Place { vdev: 0, sector }, unused, unused],
        sectors: 1,
        birth,
        level: 0,
        sum: [0; 32],
    }
}

/// The root, the dnode block of objects 0 to 31, and two records: in order of key the sectors are 8, 16, 24, 32.
fn tree<T: Blocks>(map: &mut T) -> Result<(), AllocError> {
    map.replace(record(1, 2), pointer(32, 5))?;
    map.replace(Key::ROOT, pointer(8, 5))?;
    map.replace(record(1, 1), pointer(24, 3))?;
    let dnodes = Key {
        object: 0,
        rank: 0,
        leaf: 0,
        depth: 1,
    };
    map.replace(dnodes, pointer(16, 4))?;
    Ok(())
}

#[test]
fn gives_what_was_put(rt: HostRuntime) -> Result<(), Fail> {
    let mut map = Flat::empty(rt.alloc());
    assert_eq!(rt; map.len(), 0);
    assert_eq!(rt; map.get(Key::ROOT), None);
    tree(&mut map)?;
    assert_eq!(rt; map.len(), 4);
    assert_eq!(rt; map.get(record(1, 1)), Some(pointer(24, 3)));
    assert_eq!(rt; map.get(record(2, 1)), None);
    assert_eq!(rt;
        map.replace(record(1, 1), pointer(40, 6))?,
        Some(pointer(24, 3))
    );
    assert_eq!(rt; map.replace(record(2, 1), pointer(48, 6))?, None);
    assert_eq!(rt; map.get(record(1, 1)), Some(pointer(40, 6)));
    assert_eq!(rt; map.get(record(1, 2)), Some(pointer(32, 5)));
    assert_eq!(rt; map.len(), 5);
    Ok(())
}

#[test]
fn goes_on_in_order_of_key(rt: HostRuntime) -> Result<(), Fail> {
    let mut map = Flat::new(rt.alloc());
    tree(&mut map)?;
    assert_eq!(rt;
        map.next_from(Key::ROOT, 0),
        Some((Key::ROOT, pointer(8, 5)))
    );
    assert_eq!(rt;
        map.next_from(Key::ROOT.after(), 4),
        Some((record(1, 2), pointer(32, 5)))
    );
    assert_eq!(rt;
        map.next_from(record(1, 1), 0),
        Some((record(1, 1), pointer(24, 3)))
    );
    assert_eq!(rt; map.next_from(record(1, 3), 0), None);
    assert_eq!(rt; map.next_from(Key::ROOT, 5), None);
    Ok(())
}

#[test]
fn takes_many_changes_at_once(rt: HostRuntime) -> Result<(), Fail> {
    let mut map = Flat::new(rt.alloc());
    tree(&mut map)?;
    let changes = [
        (Key::ROOT, pointer(56, 7)),
        (record(1, 2), pointer(64, 7)),
        (record(2, 0), pointer(72, 7)),
    ];
    map.replace_all(rt.alloc(), &changes)?;
    assert_eq!(rt; map.len(), 5);
    assert_eq!(rt; map.get(Key::ROOT), Some(pointer(56, 7)));
    assert_eq!(rt; map.get(record(1, 1)), Some(pointer(24, 3)));
    assert_eq!(rt; map.get(record(1, 2)), Some(pointer(64, 7)));
    assert_eq!(rt; map.get(record(2, 0)), Some(pointer(72, 7)));
    map.replace_all(rt.alloc(), &[])?;
    assert_eq!(rt; map.len(), 5);
    Ok(())
}

#[test]
fn a_copy_stands_alone(rt: HostRuntime) -> Result<(), Fail> {
    let mut map = Flat::new(rt.alloc());
    tree(&mut map)?;
    let copy = map.copy()?;
    map.replace(Key::ROOT, pointer(56, 7))?;
    assert_eq!(rt; copy.len(), 4);
    assert_eq!(rt; copy.get(Key::ROOT), Some(pointer(8, 5)));
    assert_eq!(rt; map.get(Key::ROOT), Some(pointer(56, 7)));
    Ok(())
}

//! Tests of the scan state, with ample memory.

use std::alloc::AllocError;
use zs_ids::{DsId, Key, Seq};
use zs_phys::{At, Kind, Phys, Scope, Status, Step, Todo, Todos};

const A: DsId = DsId(1);

const B: DsId = DsId(2);

const S: DsId = DsId(3);

const KEY: Key = Key {
    object: 1,
    rank: 1,
    leaf: 0,
    depth: 3,
};

/// A scan that is at a dataset and has others in its queue.
fn scanning(rt: &HostRuntime, at: At, todo: &[(DsId, u64)]) -> Result<Phys, AllocError> {
    let mut s = Phys::idle(rt.alloc())?;
    s.status = Status::Scanning;
    s.at = at;
    s.curmin = 1;
    s.curmax = 4;
    for (id, min) in todo {
        if s.todo.len() < 255 {
            s.todo.push(Todo { id: *id, min: *min });
        }
    }
    Ok(s)
}

/// Whether the queue has just these entries, in order.
fn is_queue(todo: &Todos, want: &[(DsId, u64)]) -> bool {
    todo.len() == want.len()
        && todo
            .as_slice()
            .iter()
            .zip(want.iter())
            .all(|(t, (id, min))| t.id == *id && t.min == *min)
}

#[test]
fn a_queue_is_made_of_a_list_and_gives_it_back(rt: HostRuntime) -> Result<(), AllocError> {
    let mut entries = Vec::with_capacity(rt.alloc(), 255)?;
    entries.push_reserved(Todo { id: A, min: 3 });
    entries.push_reserved(Todo { id: B, min: 0 });
    let mut todo = Todos::from_vec(entries);
    assert!(rt; is_queue(&todo, &[(A, 3), (B, 0)]));
    todo.push(Todo { id: S, min: 7 });
    let entries = todo.into_vec();
    assert!(rt; entries.len() == 3 && entries[0] == Todo { id: A, min: 3 });
    assert!(rt; is_queue(&Todos::from_vec(entries), &[(A, 3), (B, 0), (S, 7)]));
    Ok(())
}

#[test]
fn begins_idle(rt: HostRuntime) -> Result<(), AllocError> {
    let s = Phys::idle(rt.alloc())?;
    assert!(rt; s.status == Status::Never && !s.paused && s.at == At::Nowhere && !s.again);
    assert!(rt; s.away == 0 && s.curmin == 0 && s.curmax == 0 && s.todo.len() == 0);
    let scope = Scope {
        kind: Kind::Idle,
        min: 0,
        max: 0,
        width: 2,
        dirty0: Seq::new(rt.alloc()),
    };
    assert!(rt; scope.kind != Kind::Scrub && scope.dirty0.len() == 0);
    assert!(rt; Step::Enter(A, 3) != Step::End(A));
    Ok(())
}

#[test]
fn moves_from_a_head_to_its_snapshot(rt: HostRuntime) -> Result<(), AllocError> {
    let mut s = scanning(&rt, At::Dataset(A, KEY), &[(B, 2)])?;
    s.snapshotted(A, S);
    assert!(rt; s.at == At::Dataset(S, KEY) && s.curmin == 1 && s.curmax == 4 && !s.again);
    assert!(rt; is_queue(&s.todo, &[(B, 2)]));
    let mut s = scanning(&rt, At::Nowhere, &[(B, 2), (A, 3)])?;
    s.snapshotted(A, S);
    assert!(rt; s.at == At::Nowhere && is_queue(&s.todo, &[(B, 2), (S, 3)]));
    Ok(())
}

#[test]
fn moves_from_a_snapshot_to_its_child(rt: HostRuntime) -> Result<(), AllocError> {
    let mut s = scanning(&rt, At::Dataset(S, KEY), &[(B, 2)])?;
    s.destroyed(S, Some(A));
    assert!(rt; s.at == At::Dataset(A, KEY) && s.curmin == 1 && s.curmax == 4 && s.again);
    assert!(rt; is_queue(&s.todo, &[(B, 2)]));
    let mut s = scanning(&rt, At::Dataset(B, KEY), &[(S, 3)])?;
    s.destroyed(S, Some(A));
    assert!(rt; s.at == At::Dataset(B, KEY) && !s.again && is_queue(&s.todo, &[(A, 3)]));
    Ok(())
}

#[test]
fn leaves_a_destroyed_dataset(rt: HostRuntime) -> Result<(), AllocError> {
    let mut s = scanning(&rt, At::Dataset(A, KEY), &[(B, 1)])?;
    s.again = true;
    s.destroyed(A, None);
    assert!(rt; s.at == At::Destroyed && s.curmin == 0 && s.curmax == 0 && !s.again);
    assert!(rt; is_queue(&s.todo, &[(B, 1)]));
    s.destroyed(B, None);
    assert!(rt; s.at == At::Destroyed && s.todo.len() == 0);
    Ok(())
}

#[test]
fn exchanges_swapped_heads(rt: HostRuntime) -> Result<(), AllocError> {
    let mut s = scanning(&rt, At::Dataset(A, KEY), &[(B, 3)])?;
    s.swapped(A, B);
    assert!(rt; s.at == At::Dataset(B, KEY) && is_queue(&s.todo, &[(A, 3)]));
    let mut s = scanning(&rt, At::Nowhere, &[(A, 1), (S, 2), (B, 3)])?;
    s.swapped(A, B);
    assert!(rt; is_queue(&s.todo, &[(B, 1), (S, 2), (A, 3)]));
    Ok(())
}

#[test]
fn remembers_devices_that_went_away(rt: HostRuntime) -> Result<(), AllocError> {
    let mut s = Phys::idle(rt.alloc())?;
    s.went_away(0);
    s.went_away(15);
    s.went_away(0);
    assert!(rt; s.away == 32_769);
    Ok(())
}

#[test]
fn copies_a_state(rt: HostRuntime) -> Result<(), AllocError> {
    let s = scanning(&rt, At::Dataset(A, KEY), &[(B, 3), (S, 9)])?;
    let mut t = scanning(&rt, At::Destroyed, &[(A, 1)])?;
    t.copy_from(&s);
    assert!(rt; t.status == Status::Scanning && t.at == At::Dataset(A, KEY) && t.curmax == 4);
    assert!(rt; is_queue(&t.todo, &[(B, 3), (S, 9)]));
    t.todo.remove_first();
    assert!(rt; is_queue(&t.todo, &[(S, 9)]));
    t.todo.clear();
    t.todo.remove_first();
    assert!(rt; t.todo.len() == 0);
    Ok(())
}

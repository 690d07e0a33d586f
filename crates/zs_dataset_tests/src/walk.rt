//! Walks over small graphs, with ample memory.

ghost use Rattle.std.specs.Prelude.{◌≡◌, [], IfOk};
ghost use Rattle.zs_cover.specs.Laws.{started};
ghost use Rattle.zs_dataset_tests.specs.Examples.{block, head_and_clone, head_and_snapshot, one_head, one_record, scrub_up_to};
ghost use Rattle.zs_walk.specs.Left.{turns_left};
ghost use Rattle.zs_walk.specs.Walking.{MayWalk};

use std::alloc::{AllocError, Global};
use zs_flat::Flat;
use zs_graph::{Graph, GraphFault};
use zs_ids::{Blocks, Bp, DsId, Key, Name, Place, Seq};
use zs_phys::{At, Kind, Phys, Scope, Status, Step, Todo};
use zs_ranges::TxgSet;
use zs_walk::laws::{left_law, one_step_law, rises_law};
use zs_walk::{Datasets, advance, visit};

const HEAD: DsId = DsId(1);

const SNAPSHOT: DsId = DsId(2);

const CLONE: DsId = DsId(3);

const DNODES: Key = Key {
    object: 0,
    rank: 0,
    leaf: 0,
    depth: 1,
};

const RECORD: Key = Key {
    object: 1,
    rank: 1,
    leaf: 0,
    depth: 3,
};

/// The origin, and a head on it.
#[derive(Drop)]
struct OneHead {
    head: Flat,
}

impl Datasets for OneHead {
    ghost use Rattle.zs_dataset_tests.specs.Examples.{one_head};

    ghost datasets = { λ g. one_head (⟦<Flat as Blocks>⟧.entries g.head) };

    fn next_block(&self, id: DsId, from: Key, above: u64) -> Option<(Key, Bp)> {
        if id.0 == 1 {
            self.head.next_from(from, above)
        } else {
            None
        }
    }

    fn creation(&self, id: DsId) -> Option<u64> {
        if id.0 == 0 { Some(1) } else { None }
    }

    fn child_after(&self, id: DsId, after: Option<DsId>) -> Option<DsId> {
        if id.0 != 0 {
            return None;
        }
        match after {
            None => Some(HEAD),
            Some(last) => if last.0 < 1 { Some(HEAD) } else { None },
        }
    }
}

/// The origin, a snapshot on it, taken in 4, and a head on that.
#[derive(Drop)]
struct HeadAndSnapshot {
    head: Flat,
    snapshot: Flat,
}

impl Datasets for HeadAndSnapshot {
    ghost use Rattle.zs_dataset_tests.specs.Examples.{head_and_snapshot};

    ghost datasets = { λ g. head_and_snapshot (⟦<Flat as Blocks>⟧.entries g.head) (⟦<Flat as Blocks>⟧.entries g.snapshot) };

    fn next_block(&self, id: DsId, from: Key, above: u64) -> Option<(Key, Bp)> {
        if id.0 == 1 {
            self.head.next_from(from, above)
        } else if id.0 == 2 {
            self.snapshot.next_from(from, above)
        } else {
            None
        }
    }

    fn creation(&self, id: DsId) -> Option<u64> {
        if id.0 == 0 {
            Some(1)
        } else if id.0 == 2 {
            Some(4)
        } else {
            None
        }
    }

    fn child_after(&self, id: DsId, after: Option<DsId>) -> Option<DsId> {
        let child = if id.0 == 0 {
            SNAPSHOT
        } else if id.0 == 2 {
            HEAD
        } else {
            return None;
        };
        match after {
            None => Some(child),
            Some(last) => if last.0 < child.0 { Some(child) } else { None },
        }
    }
}

/// The origin, a snapshot on it, taken in 4, and two heads on that.
#[derive(Drop)]
struct HeadAndClone {
    head: Flat,
    snapshot: Flat,
    clone: Flat,
}

impl Datasets for HeadAndClone {
    ghost use Rattle.zs_dataset_tests.specs.Examples.{head_and_clone};

    ghost datasets = { λ g. head_and_clone (⟦<Flat as Blocks>⟧.entries g.head) (⟦<Flat as Blocks>⟧.entries g.snapshot)
        (⟦<Flat as Blocks>⟧.entries g.clone) };

    fn next_block(&self, id: DsId, from: Key, above: u64) -> Option<(Key, Bp)> {
        match id.0 {
            1 => self.head.next_from(from, above),
            2 => self.snapshot.next_from(from, above),
            3 => self.clone.next_from(from, above),
            _ => None,
        }
    }

    fn creation(&self, id: DsId) -> Option<u64> {
        match id.0 {
            0 => Some(1),
            2 => Some(4),
            _ => None,
        }
    }

    fn child_after(&self, id: DsId, after: Option<DsId>) -> Option<DsId> {
        let last = after.unwrap_or(DsId::ORIGIN);
        if id.0 == 0 && last.0 < 2 {
            Some(SNAPSHOT)
        } else if id.0 == 2 && last.0 < 1 {
            Some(HEAD)
        } else if id.0 == 2 && last.0 < 3 {
            Some(CLONE)
        } else {
            None
        }
    }
}

/// A block at a sector, of that many sectors, born in 3.
fn block(sector: u32, sectors: u16, level: u8) -> Bp
    ensures { result ≡ block sector sectors level }
{
    let unused = Place { vdev: 0, sector: 0 };
    Bp {
        count: 1,
        places: [Place { vdev: 0, sector }, unused, unused],
        sectors,
        birth: 3,
        level,
        sum: [0; 32],
    }
}

/// The blocks of a dataset with one record: the root at sector 296, the dnodes at 304, the record at 312.
fn blocks(alloc: Global) -> Result<Flat, AllocError>
    ensures { IfOk result (λ m. ⟦<Flat as Blocks>⟧.entries m ≡ one_record) }
{
    let mut map = Flat::empty(alloc);
    map.replace(Key::ROOT, block(296, 8, 1))?;
    map.replace(DNODES, block(304, 8, 0))?;
    map.replace(RECORD, block(312, 1, 0))?;
    Ok(map)
}

/// A scrub of what is born before that transaction group.
fn scrub(alloc: Global, max: u64) -> Result<Scope, AllocError>
    ensures { IfOk result (λ s. s ≡ scrub_up_to max) }
{
    let mut dirty0 = Seq::new(alloc);
    dirty0.push(TxgSet::new(alloc))?;
    dirty0.push(TxgSet::new(alloc))?;
    Ok(Scope {
        kind: Kind::Scrub,
        min: 0,
        max,
        width: 2,
        dirty0,
    })
}

/// A scan that has just started, with no device offline.
fn start(alloc: Global) -> Result<Phys, AllocError>
    ensures { IfOk result (λ s. s ≡ started 0) }
{
    let mut phys = Phys::idle(alloc)?;
    phys.status = Status::Scanning;
    phys.todo.push(Todo {
        id: DsId::ORIGIN,
        min: 0,
    });
    Ok(phys)
}

/// The origin, and a head without blocks on it.
#[tactic(auto, using(crate::proofs::Examples::empty_head_made))]
fn empty_head(alloc: Global) -> Result<Graph<Flat>, GraphFault>
    ensures { IfOk result (λ g. g.sets ≡ one_head []) }
{
    let mut graph: Graph<Flat> = Graph::new(alloc)?;
    let name = Name {
        len: 1,
        bytes: [0; 12],
    };
    graph.make_fs(&name)?;
    Ok(graph)
}

/// Makes one turn behind the other, and answers whether they were just these.
fn is_walk<G: Datasets>(graph: &G, scope: &Scope, phys: &mut Phys, want: &[Step]) -> bool
    requires { MayWalk (G.datasets graph.now) scope.now phys.old }
{
    for step in want {
        let next = visit(graph, scope, phys);
        if next != *step {
            return false;
        }
        advance(graph, scope, phys, &next);
    }
    true
}

/// How many turns are left at the start, over a head, its snapshot and a clone, of three blocks each.
fn turns_at_start() -> u64
    ensures { result ≡ turns_left (head_and_clone one_record one_record one_record) (started 0) }
{
    17
}

#[test]
#[tactic(auto, using(crate::proofs::Examples::head_walks))]
fn walks_a_head_in_seven_turns(rt: HostRuntime) -> Result<(), AllocError> {
    let graph = OneHead {
        head: blocks(rt.alloc())?,
    };
    let scope = scrub(rt.alloc(), 4)?;
    let mut phys = start(rt.alloc())?;
    let turns = [
        Step::Enter(DsId::ORIGIN, 0),
        Step::End(DsId::ORIGIN),
        Step::Enter(HEAD, 1),
        Step::At(Key::ROOT, block(296, 8, 1)),
        Step::At(DNODES, block(304, 8, 0)),
        Step::At(RECORD, block(312, 1, 0)),
        Step::End(HEAD),
        Step::Nothing,
        Step::Nothing,
    ];
    assert!(rt; is_walk(&graph, &scope, &mut phys, &turns));
    assert!(rt; phys.at == At::Nowhere && phys.todo.len() == 0);
    Ok(())
}

#[test]
#[tactic(auto, using(crate::proofs::Examples::empty_head_walks))]
fn walks_a_graph_of_datasets(rt: HostRuntime) -> Result<(), AllocError> {
    let Ok(graph) = empty_head(rt.alloc()) else {
        return Ok(());
    };
    let scope = scrub(rt.alloc(), 4)?;
    let mut phys = start(rt.alloc())?;
    let turns = [
        Step::Enter(DsId::ORIGIN, 0),
        Step::End(DsId::ORIGIN),
        Step::Enter(HEAD, 1),
        Step::End(HEAD),
        Step::Nothing,
    ];
    assert!(rt; is_walk(&graph, &scope, &mut phys, &turns));
    Ok(())
}

#[test]
#[tactic(auto, using(crate::proofs::Examples::snapshot_walks))]
fn walks_shared_blocks_once(rt: HostRuntime) -> Result<(), AllocError> {
    let graph = HeadAndSnapshot {
        head: blocks(rt.alloc())?,
        snapshot: blocks(rt.alloc())?,
    };
    let scope = scrub(rt.alloc(), 6)?;
    let mut phys = start(rt.alloc())?;
    let turns = [
        Step::Enter(DsId::ORIGIN, 0),
        Step::End(DsId::ORIGIN),
        Step::Enter(SNAPSHOT, 1),
        Step::At(Key::ROOT, block(296, 8, 1)),
        Step::At(DNODES, block(304, 8, 0)),
        Step::At(RECORD, block(312, 1, 0)),
        Step::End(SNAPSHOT),
        Step::Enter(HEAD, 4),
        Step::End(HEAD),
        Step::Nothing,
    ];
    assert!(rt; is_walk(&graph, &scope, &mut phys, &turns));
    Ok(())
}

#[test]
#[tactic(auto, using(crate::proofs::Examples::clone_walks))]
fn walks_a_clone_in_fewer_turns_than_are_left(rt: HostRuntime) -> Result<(), AllocError> {
    let graph = HeadAndClone {
        head: blocks(rt.alloc())?,
        snapshot: blocks(rt.alloc())?,
        clone: blocks(rt.alloc())?,
    };
    let scope = scrub(rt.alloc(), 6)?;
    let mut phys = start(rt.alloc())?;
    let turns = [
        Step::Enter(DsId::ORIGIN, 0),
        Step::End(DsId::ORIGIN),
        Step::Enter(SNAPSHOT, 1),
        Step::At(Key::ROOT, block(296, 8, 1)),
        Step::At(DNODES, block(304, 8, 0)),
        Step::At(RECORD, block(312, 1, 0)),
        Step::End(SNAPSHOT),
        Step::Enter(HEAD, 4),
        Step::End(HEAD),
        Step::Enter(CLONE, 4),
        Step::End(CLONE),
        Step::Nothing,
    ];
    assert!(rt; is_walk(&graph, &scope, &mut phys, &turns));
    assert!(rt; turns_at_start() >= 11);
    Ok(())
}

#[test]
fn has_laws_to_call() {
    one_step_law();
    rises_law();
    left_law();
}

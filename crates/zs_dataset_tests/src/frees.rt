//! What destroyed datasets and blocks that are put over others free. The datasets hold no block but a root.

ghost use Rattle.std.specs.Prelude.{◌+◌, IfOk, OnOk};
ghost use Rattle.zs_dataset_tests.specs.Roots.{HoldRoots, IsRootAt};

use std::alloc::Global;
use std::test::Fail;
use zs_flat::Flat;
use zs_graph::{Freed, Graph, GraphFault};
use zs_ids::{Blocks, Bp, DsId, Item, Key, Name, Piece, Place};

/// The name of one byte.
fn name(byte: u8) -> Name {
    let mut bytes = [0; 12];
    bytes[0] = byte;
    Name { len: 1, bytes }
}

/// A pointer to a root at the sector that is written in the transaction group t.
fn root(sector: u32, t: u64) -> Bp
    ensures { IsRootAt result sector t }
{
    let unused = Place { vdev: 0, sector: 0 };
    Bp {
        count: 1,
        places: [Place { vdev: 0, sector }, unused, unused],
        sectors: 8,
        birth: t,
        level: 1,
        sum: [7; 32],
    }
}

/// The item of that root.
fn item(sector: u32, t: u64) -> Item {
    Item {
        piece: Piece {
            place: Place { vdev: 0, sector },
            birth: t,
        },
        sectors: 8,
        sum: [7; 32],
    }
}

/// The head 1 on the origin.
#[tactic(auto, using(crate::proofs::Roots::roots_begin))]
fn with_head(alloc: Global) -> Result<Graph<Flat>, GraphFault>
    ensures { IfOk result (λ g. HoldRoots g.sets 8 2) }
{
    let mut graph: Graph<Flat> = Graph::new(alloc)?;
    graph.make_fs(&name(97))?;
    Ok(graph)
}

/// Puts a root at the sector over that of the head 1, in the transaction group t.
fn put(graph: &mut Graph<Flat>, sector: u32, t: u64) -> Result<Freed, GraphFault>
    requires { HoldRoots graph.old.sets sector t }
    ensures { OnOk result (HoldRoots graph.new.sets (sector + 8) (t + 1)) }
{
    graph.facts();
    let freed = graph.apply(DsId(1), &[(Key::ROOT, root(sector, t))], t)?;
    Ok(freed)
}

/// Puts a root, and takes a snapshot of the head 1 with that label.
fn put_and_take(graph: &mut Graph<Flat>, label: u8, sector: u32, t: u64) -> Result<DsId, GraphFault>
    requires { HoldRoots graph.old.sets sector t }
    ensures { OnOk result (HoldRoots graph.new.sets (sector + 8) (t + 1)) }
{
    put(graph, sector, t)?;
    let id = graph.snapshot(DsId(1), &name(label), t)?;
    Ok(id)
}

/// The head 1 with a root of its own on the snapshot 2, which holds another root.
fn with_snapshot(alloc: Global) -> Result<Graph<Flat>, GraphFault>
    ensures { IfOk result (λ g. HoldRoots g.sets 24 4) }
{
    let mut graph = with_head(alloc)?;
    put_and_take(&mut graph, 115, 8, 2)?;
    put(&mut graph, 16, 3)?;
    Ok(graph)
}

#[test]
fn frees_a_block_that_no_snapshot_holds(rt: HostRuntime) -> Result<(), Fail> {
    let Ok(mut graph) = with_snapshot(rt.alloc()) else {
        assert!(rt; false);
        return Ok(());
    };
    let Ok(freed) = put(&mut graph, 24, 4) else {
        assert!(rt; false);
        return Ok(());
    };
    assert_eq!(rt; freed.items.as_slice(), [item(16, 3)].as_slice());
    assert_eq!(rt; freed.next, None);
    let Some(blocks) = graph.blocks(DsId(1)) else {
        assert!(rt; false);
        return Ok(());
    };
    assert_eq!(rt; blocks.get(Key::ROOT), Some(root(24, 4)));
    Ok(())
}

#[test]
fn frees_no_block_that_a_snapshot_holds(rt: HostRuntime) -> Result<(), Fail> {
    let Ok(mut graph) = with_head(rt.alloc()) else {
        assert!(rt; false);
        return Ok(());
    };
    let Ok(snap) = put_and_take(&mut graph, 115, 8, 2) else {
        assert!(rt; false);
        return Ok(());
    };
    assert_eq!(rt; snap, DsId(2));
    let Ok(freed) = put(&mut graph, 16, 3) else {
        assert!(rt; false);
        return Ok(());
    };
    assert_eq!(rt; freed.items.len(), 0);
    assert_eq!(rt; freed.next, None);
    Ok(())
}

#[test]
fn frees_what_a_snapshot_alone_holds(rt: HostRuntime) -> Result<(), Fail> {
    let Ok(mut graph) = with_snapshot(rt.alloc()) else {
        assert!(rt; false);
        return Ok(());
    };
    let Ok(freed) = graph.destroy(DsId(2)) else {
        assert!(rt; false);
        return Ok(());
    };
    assert_eq!(rt; freed.items.as_slice(), [item(8, 2)].as_slice());
    assert_eq!(rt; freed.next, Some(DsId(1)));
    assert_eq!(rt; graph.parent(DsId(1)), Some(DsId::ORIGIN));
    let Ok(freed) = graph.destroy(DsId(1)) else {
        assert!(rt; false);
        return Ok(());
    };
    assert_eq!(rt; freed.items.as_slice(), [item(16, 3)].as_slice());
    assert_eq!(rt; freed.next, None);
    assert_eq!(rt; graph.id_after(Some(DsId::ORIGIN)), None);
    Ok(())
}

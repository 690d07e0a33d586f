//! Each change of the datasets once, with ample memory, and each refusal.

ghost use Rattle.std.specs.Prelude.{IfOk};
ghost use Rattle.zs_graph.specs.Made.{IsUpTo};

use std::alloc::Global;
use std::test::Fail;
use zs_flat::Flat;
use zs_graph::{Graph, GraphFault};
use zs_ids::{DsId, DsName, Name};

/// The name of one byte.
fn name(byte: u8) -> Name {
    let mut bytes = [0; 12];
    bytes[0] = byte;
    Name { len: 1, bytes }
}

/// The name of a head.
fn head(byte: u8) -> DsName {
    DsName {
        owner: name(byte),
        label: Name::EMPTY,
    }
}

#[test]
fn begins_with_the_origin(rt: HostRuntime) -> Result<(), Fail> {
    let graph: Graph<Flat> = Graph::new(rt.alloc())?;
    assert_eq!(rt; graph.id_after(None), Some(DsId::ORIGIN));
    assert_eq!(rt; graph.id_after(Some(DsId::ORIGIN)), None);
    assert_eq!(rt; graph.creation(DsId::ORIGIN), Some(1));
    assert_eq!(rt; graph.next_id(), 1);
    Ok(())
}

#[test]
fn makes_a_filesystem(rt: HostRuntime) -> Result<(), Fail> {
    let mut graph: Graph<Flat> = Graph::new(rt.alloc())?;
    assert_eq!(rt; graph.make_fs(&name(97)), Ok(DsId(1)));
    assert_eq!(rt; graph.find(&head(97)), Some(DsId(1)));
    assert_eq!(rt; graph.parent(DsId(1)), Some(DsId::ORIGIN));
    assert_eq!(rt; graph.creation(DsId(1)), None);
    assert_eq!(rt; graph.make_fs(&name(97)), Err(GraphFault::Exists));
    assert_eq!(rt; graph.child_after(DsId::ORIGIN, None), Some(DsId(1)));
    Ok(())
}

/// The head 1 on the origin.
#[tactic(auto, using(crate::proofs::OneHead::one_head_made))]
fn with_head(alloc: Global) -> Result<Graph<Flat>, GraphFault>
    ensures { IfOk result (λ g. IsUpTo g.sets 2) }
{
    let mut graph: Graph<Flat> = Graph::new(alloc)?;
    graph.make_fs(&name(97))?;
    Ok(graph)
}

#[test]
fn puts_a_snapshot_below_the_head(rt: HostRuntime) -> Result<(), Fail> {
    let Ok(mut graph) = with_head(rt.alloc()) else {
        return Ok(());
    };
    assert_eq!(rt; graph.snapshot(DsId(1), &name(115), 2), Ok(DsId(2)));
    assert_eq!(rt; graph.parent(DsId(1)), Some(DsId(2)));
    assert_eq!(rt; graph.parent(DsId(2)), Some(DsId::ORIGIN));
    assert_eq!(rt; graph.creation(DsId(2)), Some(2));
    Ok(())
}

#[test]
fn clones_a_snapshot(rt: HostRuntime) -> Result<(), Fail> {
    let Ok(mut graph) = with_head(rt.alloc()) else {
        return Ok(());
    };
    assert_eq!(rt; graph.snapshot(DsId(1), &name(115), 2), Ok(DsId(2)));
    assert_eq!(rt; graph.clone_of(DsId(2), &name(98)), Ok(DsId(3)));
    assert_eq!(rt; graph.parent(DsId(3)), Some(DsId(2)));
    assert_eq!(rt;
        graph.clone_of(DsId(1), &name(99)),
        Err(GraphFault::NotSnapshot)
    );
    assert_eq!(rt;
        graph.clone_of(DsId(9), &name(99)),
        Err(GraphFault::NoDataset)
    );
    assert_eq!(rt; graph.clone_of(DsId(2), &name(98)), Err(GraphFault::Exists));
    assert_eq!(rt; graph.swap(DsId(1), DsId(3)), Ok(()));
    assert_eq!(rt; graph.swap(DsId(1), DsId(1)), Err(GraphFault::NotSiblings));
    assert_eq!(rt; graph.swap(DsId(1), DsId(2)), Err(GraphFault::NotHead));
    assert_eq!(rt; graph.swap(DsId(1), DsId(9)), Err(GraphFault::NoDataset));
    Ok(())
}

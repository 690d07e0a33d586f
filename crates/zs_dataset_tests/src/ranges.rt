//! Each call once, with values worked out by hand.

use std::test::Fail;
use zs_ranges::{TxgSet, joined_law, same_set_law};

fn set_of(rt: &HostRuntime, spans: &[(u64, u64)]) -> Result<TxgSet, Fail> {
    let mut set = TxgSet::new(rt.alloc());
    for (first, last) in spans {
        set.add(*first, *last)?;
    }
    Ok(set)
}

fn has_spans(set: &TxgSet, spans: &[(u64, u64)]) -> bool {
    set.count() == spans.len()
        && spans
            .iter()
            .enumerate()
            .all(|(i, s)| i < set.count() && set.span(i) == *s)
}

#[test]
fn adds_groups_and_joins_what_touches(rt: HostRuntime) -> Result<(), Fail> {
    let mut set = set_of(&rt, &[(5, 6), (9, 9), (1, 2)])?;
    assert!(rt; has_spans(&set, &[(1, 2), (5, 6), (9, 9)]));
    set.add(7, 7)?;
    assert!(rt; has_spans(&set, &[(1, 2), (5, 7), (9, 9)]));
    set.add(8, 3)?;
    assert!(rt; has_spans(&set, &[(1, 2), (5, 7), (9, 9)]));
    set.add(2, 8)?;
    assert!(rt; has_spans(&set, &[(1, 9)]));
    set.add(u64::MAX, u64::MAX)?;
    set.add(0, 0)?;
    assert!(rt; has_spans(&set, &[(0, 9), (u64::MAX, u64::MAX)]));
    Ok(())
}

#[test]
fn cuts_groups_out(rt: HostRuntime) -> Result<(), Fail> {
    let mut set = set_of(&rt, &[(1, 9), (12, 15)])?;
    set.cut(4, 5)?;
    assert!(rt; has_spans(&set, &[(1, 3), (6, 9), (12, 15)]));
    set.cut(9, 12)?;
    assert!(rt; has_spans(&set, &[(1, 3), (6, 8), (13, 15)]));
    set.cut(7, 2)?;
    assert!(rt; has_spans(&set, &[(1, 3), (6, 8), (13, 15)]));
    set.cut(0, u64::MAX)?;
    assert!(rt; set.count() == 0);
    Ok(())
}

#[test]
fn unites_sets(rt: HostRuntime) -> Result<(), Fail> {
    let mut set = set_of(&rt, &[(1, 3), (10, 11), (20, 20)])?;
    let other = set_of(&rt, &[(4, 5), (9, 9), (12, 30), (40, 41)])?;
    set.join(&other)?;
    assert!(rt; has_spans(&set, &[(1, 5), (9, 30), (40, 41)]));
    assert!(rt; has_spans(&other, &[(4, 5), (9, 9), (12, 30), (40, 41)]));
    Ok(())
}

#[test]
fn tells_what_it_has(rt: HostRuntime) -> Result<(), Fail> {
    let empty = TxgSet::new(rt.alloc());
    assert!(rt; empty.least() == None && empty.greatest() == None && empty.count() == 0);
    let set = set_of(&rt, &[(3, 4), (8, 9)])?;
    set.facts();
    same_set_law();
    joined_law();
    assert!(rt; set.least() == Some(3) && set.greatest() == Some(9));
    for (t, want) in [
        (2, false),
        (3, true),
        (4, true),
        (5, false),
        (8, true),
        (9, true),
        (10, false),
    ] {
        assert_eq!(rt; set.has(t), want, "at {t}");
    }
    let copy = set.copy()?;
    assert!(rt; has_spans(&copy, &[(3, 4), (8, 9)]));
    Ok(())
}

#[test]
fn joins_the_lowest_intervals(rt: HostRuntime) -> Result<(), Fail> {
    let mut set = set_of(&rt, &[(1, 1), (3, 3), (6, 6), (9, 9)])?;
    set.join_lowest(4);
    assert!(rt; has_spans(&set, &[(1, 1), (3, 3), (6, 6), (9, 9)]));
    set.join_lowest(2);
    assert!(rt; has_spans(&set, &[(1, 6), (9, 9)]));
    set.join_lowest(1);
    assert!(rt; has_spans(&set, &[(1, 9)]));
    Ok(())
}

//! Each call once, with values worked out by hand.

use std::test::Fail;
use zs_dtl::Dirt;
use zs_ids::limits::LOG_SPANS;
use zs_ranges::TxgSet;

/// A set of these intervals.
fn set_of(rt: &HostRuntime, spans: &[(u64, u64)]) -> Result<TxgSet, Fail> {
    let mut set = TxgSet::new(rt.alloc());
    for (first, last) in spans {
        set.add(*first, *last)?;
    }
    Ok(set)
}

/// Logs of two devices, of which the second has these intervals.
fn second_misses(rt: &HostRuntime, spans: &[(u64, u64)]) -> Result<Dirt, Fail> {
    let mut dirt = Dirt::new(rt.alloc(), 2)?;
    let log = set_of(rt, spans)?;
    if dirt.devices() == 2 && log.count() <= LOG_SPANS {
        dirt.set(1, log);
    }
    Ok(dirt)
}

/// Whether the set has just these intervals.
fn has_spans(set: &TxgSet, spans: &[(u64, u64)]) -> bool {
    set.count() == spans.len()
        && spans
            .iter()
            .enumerate()
            .all(|(i, s)| i < set.count() && set.span(i) == *s)
}

/// Whether the first device's log is empty, and the second one's has just these intervals.
fn just_second(dirt: &Dirt, spans: &[(u64, u64)]) -> bool {
    dirt.devices() == 2 && dirt.log(0).count() == 0 && has_spans(dirt.log(1), spans)
}

/// Excises from the second device's log.
fn excise_second(
    dirt: &mut Dirt,
    min: u64,
    max: u64,
    only: Option<&TxgSet>,
    failed: &TxgSet,
) -> Result<(), Fail> {
    if dirt.devices() == 2 {
        dirt.excise(1, min, max, only, failed)?;
    }
    Ok(())
}

/// Adds a group that the second device has missed.
fn miss(dirt: &mut Dirt, t: u64) -> Result<(), Fail> {
    if dirt.devices() == 2 {
        dirt.dirty(1, t)?;
    }
    Ok(())
}

#[test]
fn keeps_what_a_device_missed(rt: HostRuntime) -> Result<(), Fail> {
    let mut dirt = Dirt::new(rt.alloc(), 2)?;
    dirt.facts();
    assert!(rt; just_second(&dirt, &[]));
    for t in [5, 9, 7, 6] {
        miss(&mut dirt, t)?;
    }
    assert!(rt; just_second(&dirt, &[(5, 7), (9, 9)]));
    Ok(())
}

#[test]
fn joins_the_two_lowest_intervals_of_a_long_log(rt: HostRuntime) -> Result<(), Fail> {
    let mut dirt = Dirt::new(rt.alloc(), 2)?;
    for i in 1..66_u64 {
        miss(&mut dirt, 10 * i)?;
    }
    assert!(rt; dirt.devices() == 2);
    assert_eq!(rt; dirt.log(1).count(), 64);
    assert!(rt; dirt.log(1).has(15));
    assert!(rt; !dirt.log(1).has(25));
    assert!(rt; !dirt.log(1).has(645));
    assert_eq!(rt; dirt.log(1).greatest(), Some(650));
    Ok(())
}

#[test]
fn bounds_what_the_online_devices_missed(rt: HostRuntime) -> Result<(), Fail> {
    let mut dirt = second_misses(&rt, &[(5, 7)])?;
    assert_eq!(rt; dirt.bounds(1), None);
    let first = set_of(&rt, &[(3, 3), (9, 12)])?;
    assert!(rt; dirt.devices() == 2 && first.count() <= LOG_SPANS);
    dirt.set(0, first);
    assert_eq!(rt; dirt.bounds(2), Some((5, 7)));
    assert_eq!(rt; dirt.bounds(1), Some((3, 12)));
    assert_eq!(rt; dirt.bounds(3), Some((3, 12)));
    assert_eq!(rt; dirt.bounds(0), None);
    Ok(())
}

#[test]
fn excises_between_the_ends_of_a_scan(rt: HostRuntime) -> Result<(), Fail> {
    let none = set_of(&rt, &[])?;
    let mut dirt = second_misses(&rt, &[(2, 9)])?;
    excise_second(&mut dirt, 4, 8, None, &none)?;
    assert!(rt; just_second(&dirt, &[(2, 4), (8, 9)]));
    excise_second(&mut dirt, 4, 5, None, &none)?;
    assert!(rt; just_second(&dirt, &[(2, 4), (8, 9)]));
    Ok(())
}

#[test]
fn excises_what_a_resilver_set_out_for(rt: HostRuntime) -> Result<(), Fail> {
    let mut dirt = second_misses(&rt, &[(5, 7)])?;
    let only = set_of(&rt, &[(1, 5), (7, 7)])?;
    let failed = set_of(&rt, &[(5, 5), (10, 10)])?;
    excise_second(&mut dirt, 4, 8, Some(&only), &failed)?;
    assert!(rt; just_second(&dirt, &[(5, 6), (10, 10)]));
    Ok(())
}

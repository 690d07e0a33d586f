//! How far a scan's scope may reach: by the transaction group whose tasks come next, or by the one after it in a scan
//! that has not begun to walk or was canceled.

use super::graphs::{BEHIND_ROOT, one_filesystem};
use super::{scan, scrub};
use std::alloc::{AllocError, Global};
use zs_ids::DsId;
use zs_phys::{At, Status};
use zs_plain::sound::is_sound;

/// A pass over nothing.
const NO_PASS: (u64, u64, bool) = (0, 0, false);

/// Whether a scan whose scope ends in group 6 belongs to a filesystem of one record where the next tasks' group is the one,
/// and not where it is the other.
fn belongs(
    alloc: Global,
    groups: (u64, u64),
    status: Status,
    at: At,
    pass: (u64, u64, bool),
    todo: &[(u32, u64)],
) -> Result<bool, AllocError> {
    let g = one_filesystem(alloc)?;
    let scope = scrub(alloc, 6);
    let mut s = scan(alloc, at, pass, todo)?;
    s.status = status;
    let one = is_sound(alloc, &g, groups.0, &scope, &s)?;
    let other = is_sound(alloc, &g, groups.1, &scope, &s)?;
    Ok(one && !other)
}

/// A walk whose scope ends by the next tasks' group belongs to its graph, and not one that ends a group later. A scan that has
/// just started may end a group later, but not two.
#[test]
fn a_walk_ends_by_the_next_tasks_and_a_start_a_group_later(
    rt: HostRuntime,
) -> Result<(), AllocError> {
    let alloc = rt.alloc();
    let head = At::Dataset(DsId(1), BEHIND_ROOT);
    assert!(rt; belongs(alloc, (6, 5), Status::Scanning, head, (1, 6, false), &[])?);
    assert!(rt;
        belongs(
            alloc,
            (5, 4),
            Status::Scanning,
            At::Nowhere,
            NO_PASS,
            &[(0, 0)]
        )?
    );
    Ok(())
}

/// So may none that has anything but the origin in its queue, or the origin from a later group on.
#[test]
fn a_scan_starts_with_the_origin_alone(rt: HostRuntime) -> Result<(), AllocError> {
    let alloc = rt.alloc();
    assert!(rt;
        belongs(
            alloc,
            (6, 5),
            Status::Scanning,
            At::Nowhere,
            NO_PASS,
            &[(1, 0)]
        )?
    );
    assert!(rt;
        belongs(
            alloc,
            (6, 5),
            Status::Scanning,
            At::Nowhere,
            NO_PASS,
            &[(0, 1)]
        )?
    );
    Ok(())
}

/// A scan that was canceled may end a group later; one that has finished may not.
#[test]
fn a_canceled_scan_may_end_with_the_next_group(rt: HostRuntime) -> Result<(), AllocError> {
    let alloc = rt.alloc();
    assert!(rt; belongs(alloc, (5, 4), Status::Canceled, At::Nowhere, NO_PASS, &[])?);
    assert!(rt; belongs(alloc, (6, 5), Status::Finished, At::Nowhere, NO_PASS, &[])?);
    Ok(())
}

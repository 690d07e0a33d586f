//! The calls of free space.

ghost use Rattle.std.specs.Prelude.{◌≡◌, ◌<◌, length, IfOk};

use crate::row::{Fault, Row, put};
use std::time::Instant;
use zs_alloc::Space;
use zs_ids::Place;

/// The first sector of the space.
const START: u32 = 296;

/// A mirror whose space has `sectors` sectors.
fn mirror(rt: &HostRuntime, sectors: u32) -> Result<Space, Fault>
    ensures { IfOk result (λ s. 0 < length s) }
{
    let space = Space::new(rt.alloc(), &[START.saturating_add(sectors)], START)?;
    Ok(space)
}

/// Takes so many sectors of the first mirror.
fn take(space: &mut Space, sectors: u16) -> Result<(), Fault>
    requires mirrors { 0 < length space.old }
    requires some { 0 < sectors }
    ensures { length space.new ≡ length space.old }
{
    let _place = space.take(0, sectors)?;
    Ok(())
}

/// Takes just this sector of the first mirror.
fn claim(space: &mut Space, sector: u32) -> Result<(), Fault>
    requires { 0 < length space.old }
    ensures { length space.new ≡ length space.old }
{
    let place = Place { vdev: 0, sector };
    space.claim(place, 1)?;
    Ok(())
}

/// A mirror of n sectors, each of which is taken, the lowest first; and one of which each second sector is claimed at its
/// beginning, so that n holes of one sector stand before the first place for a block of eight.
pub fn space_rows(rt: &HostRuntime, n: u32, rows: &mut Vec<Row>) -> Result<(), Fault> {
    let mut space = mirror(rt, n)?;
    let start = Instant::now(rt)?;
    for _ in 0..n {
        take(&mut space, 1)?;
    }
    put(rt, rows, "zs_alloc take", u64::from(n), start)?;
    let mut space = mirror(rt, n.saturating_mul(10))?;
    let start = Instant::now(rt)?;
    for i in 0..n {
        claim(&mut space, i.saturating_mul(2).saturating_add(START))?;
    }
    put(
        rt,
        rows,
        "zs_alloc claim, many free ranges",
        u64::from(n),
        start,
    )?;
    let start = Instant::now(rt)?;
    for _ in 0..n {
        take(&mut space, 8)?;
    }
    put(
        rt,
        rows,
        "zs_alloc take, behind many holes",
        u64::from(n),
        start,
    )?;
    let start = Instant::now(rt)?;
    for i in 0..n {
        space.settle(u64::from(i))?;
    }
    put(
        rt,
        rows,
        "zs_alloc settle, nothing freed",
        u64::from(n),
        start,
    )
}

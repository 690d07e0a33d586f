//! The calls of dirty logs, of sums and of devices with a journal.

ghost use Rattle.std.specs.Prelude.{◌≡◌, ◌≤◌, ◌*◌};

use crate::row::{Fault, Row, put};
use crate::spread::mixed;
use std::time::Instant;
use zs_dtl::Dirt;
use zs_io::SureDevice;
use zs_lane::Lane;
use zs_ranges::TxgSet;
use zs_sum::sum;

/// Logs to which n groups are added, each second one, so that the two lowest intervals are joined again and again;
/// and n excisions of one group.
pub fn log_rows(rt: &HostRuntime, n: u64, rows: &mut Vec<Row>) -> Result<(), Fault> {
    let mut dirt = Dirt::new(rt.alloc(), 2)?;
    let none = TxgSet::new(rt.alloc());
    let start = Instant::now(rt)?;
    for i in 0..n {
        if dirt.devices() == 2 {
            dirt.dirty(1, i.saturating_mul(2).saturating_add(1))?;
        }
    }
    put(rt, rows, "zs_dtl dirty", n, start)?;
    let start = Instant::now(rt)?;
    for i in 0..n {
        if dirt.devices() == 2 {
            dirt.excise(1, mixed(i, n), mixed(i, n).saturating_add(2), None, &none)?;
        }
    }
    put(rt, rows, "zs_dtl excise", n, start)?;
    let start = Instant::now(rt)?;
    for _ in 0..n {
        let _bounds = dirt.bounds(3);
    }
    put(rt, rows, "zs_dtl bounds", n, start)
}

/// A device to which n sectors are written and from which they are read. Each byte is hashed once, so a call costs the
/// digest of 512 bytes.
pub fn lane_rows(rt: &HostRuntime, n: u64, rows: &mut Vec<Row>) -> Result<(), Fault> {
    let bytes = vec![in rt.alloc(); 0; 512]?;
    let mut lane = Lane::new(rt.alloc(), SureDevice::new(rt.alloc(), bytes));
    let mut sector = [7; 512];
    let start = Instant::now(rt)?;
    for _ in 0..n {
        if lane.bytes() == 512 {
            lane.write(0, &sector)?;
        }
    }
    put(rt, rows, "zs_lane write 512", n, start)?;
    let start = Instant::now(rt)?;
    for _ in 0..n {
        if lane.bytes() == 512 {
            lane.read(0, &mut sector)?;
        }
    }
    put(rt, rows, "zs_lane read 512", n, start)
}

/// Sums of the greatest blocks, one for each 64 of n: the yardstick of a scrub, which costs little more than a sum of each
/// copy.
pub fn sum_rows(rt: &HostRuntime, n: u64, rows: &mut Vec<Row>) -> Result<(), Fault> {
    let mut bytes = vec![in rt.alloc(); 0; 131_072]?;
    let blocks = n / 64;
    let start = Instant::now(rt)?;
    for _ in 0..blocks {
        let digest = sum(&bytes);
        // the next sum depends on this one, so that none is left out
        if let Some(first) = bytes.first_mut() {
            *first = digest[0];
        }
    }
    put(rt, rows, "zs_sum sum 131072", blocks, start)
}

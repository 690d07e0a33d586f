//! The program `zs_leaves`: times the main calls of the crates at the bottom at three sizes, so that a call that is
//! quadratic in the entries shows.
//!
//! Layer: beside the others; `bench/leaves` runs it, and nothing stands on it. It proves nothing but that it is safe.
//! With the word `time` it prints, for each call, the nanoseconds per call at 1,024, 8,192 and 65,536 entries, and how
//! many times as long a call takes at the last size as at the first. Without it, it makes the calls at 1,024 entries
//! and prints how many it made.
//!
//! Where to change what: the calls of each crate in `calls`; what is printed here.
#![tactic(auto)]

mod calls;
mod devices;
mod row;
mod space;
mod spread;

use row::{Fault, Row};
use std::env;
use std::process::ExitCode;

/// The sizes at which calls are timed.
const SIZES: [u32; 3] = [1024, 8192, 65_536];

fn main(rt: HostRuntime) -> ExitCode {
    let shown = if is_timed(&rt) {
        show_times(&rt)
    } else {
        show_calls(&rt)
    };
    match shown {
        Ok(()) => ExitCode::SUCCESS,
        Err(_) => ExitCode::FAILURE,
    }
}

/// Whether the program's one word is `time`.
fn is_timed(rt: &HostRuntime) -> bool {
    match env::args(rt) {
        Ok(args) => args
            .skip(1)
            .any(|word| word.as_bytes() == b"time".as_slice()),
        Err(_) => false,
    }
}

/// The rows of all crates at a size.
fn rows_at(rt: &HostRuntime, entries: u32) -> Result<Vec<Row>, Fault> {
    let n = u64::from(entries);
    let mut rows = Vec::new(rt.alloc());
    calls::map_rows(rt, n, &mut rows)?;
    calls::queue_rows(rt, n, &mut rows)?;
    calls::ledger_rows(rt, n, &mut rows)?;
    calls::group_rows(rt, n, &mut rows)?;
    space::space_rows(rt, entries, &mut rows)?;
    devices::log_rows(rt, n, &mut rows)?;
    devices::lane_rows(rt, n, &mut rows)?;
    devices::sum_rows(rt, n, &mut rows)?;
    Ok(rows)
}

/// Prints how many calls of each kind were made.
fn show_calls(rt: &HostRuntime) -> Result<(), Fault> {
    for row in &rows_at(rt, 1024)? {
        println!(rt; "{} {}", row.name, row.calls)?;
    }
    Ok(())
}

/// Prints how long a call of each kind takes at each size.
fn show_times(rt: &HostRuntime) -> Result<(), Fault> {
    let least = rows_at(rt, SIZES[0])?;
    let middle = rows_at(rt, SIZES[1])?;
    let most = rows_at(rt, SIZES[2])?;
    println!(rt;
        "nanoseconds per call at {}, {} and {} entries, and the last over the first",
        SIZES[0], SIZES[1], SIZES[2]
    )?;
    for ((a, b), c) in least.iter().zip(middle.iter()).zip(most.iter()) {
        let first = a.nanos_per_call();
        let last = c.nanos_per_call();
        let tenths = last.saturating_mul(10) / first.max(1);
        println!(rt;
            "{} {} {} {} {}.{}",
            a.name,
            first,
            b.nanos_per_call(),
            last,
            tenths / 10,
            tenths % 10
        )?;
    }
    Ok(())
}

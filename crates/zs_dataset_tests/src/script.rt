//! Worked scripts. `outside/run` gives the program one script with each fault of each kind of line (`outside/faults`), and
//! scripts of the most bytes and of one more.

use std::alloc::Global;
use zs_ids::{DsName, Name};
use zs_script::{Command, Line, ScriptFault, Why, parse};

/// The name `a`.
const A: Name = Name {
    len: 1,
    bytes: [97, 0, 0, 0, 0, 0, 0, 0, 0, 0, 0, 0],
};

/// The name `b2`.
const B2: Name = Name {
    len: 2,
    bytes: [98, 50, 0, 0, 0, 0, 0, 0, 0, 0, 0, 0],
};

/// The name `s3`.
const S3: Name = Name {
    len: 2,
    bytes: [115, 51, 0, 0, 0, 0, 0, 0, 0, 0, 0, 0],
};

/// The head `a`.
const HEAD: DsName = DsName {
    owner: A,
    label: Name::EMPTY,
};

/// The snapshot `a@s3`.
pub(crate) const SNAPSHOT: DsName = DsName {
    owner: A,
    label: S3,
};

/// The first fault of a script; `None` where it has none.
fn fault_of(alloc: Global, script: &[u8]) -> Option<(u32, Why)> {
    match parse(alloc, script) {
        Err(ScriptFault::Bad { line, why }) => Some((line, why)),
        _ => None,
    }
}

#[test]
fn the_first_fault_is_told(rt: HostRuntime) {
    let script = b"pool 7 2 8 4 64\n# walk\nland\nwalk 0\nwrit\n";
    assert_eq!(rt; fault_of(rt.alloc(), script), Some((4, Why::Number)));
}

/// A script with lines of each kind, some of them with more spaces, and others that are passed over.
const SCRIPT: &[u8] =
    b"# base\r\npool 7 2 8 4 64\r\n\r\n  fs   a  \nfs b2\nmake a 1 1 512 5\nwrite a 1 2 6\nread a@s3 1 9\n#\tend\n\
    snap a s3\nclone a@s3 b2\nclone a b2\ndestroy a\ndestroy a@s3\nswap a b2\r\n list \n\
    scrub\nwalk 100\nissue 3 10\nhold 0 11\nland\nfinish\nrot 1 312 8\nerrors\nstatus\nfs a\nsync";

/// What its line of this number commands, where that speaks of datasets.
fn on_datasets(number: u32) -> Option<Command> {
    Some(match number {
        4 | 26 => Command::Fs { name: A },
        5 => Command::Fs { name: B2 },
        10 => Command::Snap { head: A, label: S3 },
        11 => Command::Clone {
            ds: SNAPSHOT,
            name: B2,
        },
        12 => Command::Clone { ds: HEAD, name: B2 },
        13 => Command::Destroy { ds: HEAD },
        14 => Command::Destroy { ds: SNAPSHOT },
        15 => Command::Swap {
            first: A,
            second: B2,
        },
        16 => Command::List,
        _ => return None,
    })
}

/// The same, where that speaks of a pool or of records.
fn on_records(number: u32) -> Option<Command> {
    Some(match number {
        2 => Command::Pool {
            pool: 7,
            width: 2,
            limit: 8,
            every: 4,
            blocks: 64,
        },
        6 => Command::Make {
            ds: HEAD,
            object: 1,
            levels: 1,
            size: 512,
            fill: 5,
        },
        7 => Command::Write {
            ds: HEAD,
            object: 1,
            leaf: 2,
            fill: 6,
        },
        8 => Command::Read {
            ds: SNAPSHOT,
            object: 1,
            leaf: 9,
        },
        27 => Command::Sync,
        _ => return None,
    })
}

/// The same, where that speaks of a scan or of damage.
fn on_scans(number: u32) -> Option<Command> {
    Some(match number {
        17 => Command::Scrub,
        18 => Command::Walk { turns: 100 },
        19 => Command::Issue {
            vdev: 3,
            pieces: 10,
        },
        20 => Command::Hold {
            vdev: 0,
            pieces: 11,
        },
        21 => Command::Land,
        22 => Command::Finish,
        23 => Command::Rot {
            dev: 1,
            sector: 312,
            count: 8,
        },
        24 => Command::Errors,
        25 => Command::Status,
        _ => return None,
    })
}

/// Whether a line is the one of its number.
fn is_wanted(line: &Line) -> bool {
    let datasets = on_datasets(line.number);
    let records = on_records(line.number);
    let scans = on_scans(line.number);
    line.by == 0 && datasets.or(records).or(scans) == Some(line.command)
}

#[test]
fn lines_of_each_kind_are_read(rt: HostRuntime) {
    let lines = match parse(rt.alloc(), SCRIPT) {
        Ok(lines) => lines,
        Err(_) => Vec::new(rt.alloc()),
    };
    assert_eq!(rt; lines.len(), 24);
    for line in lines.iter() {
        assert!(rt; is_wanted(line), "at {line:?}");
    }
}

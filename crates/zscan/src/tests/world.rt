//! What the tests run the program on: words, a script, and images in memory, and which of their
//! calls fail.

ghost use Rattle.std.specs.Prelude.{◌≡◌, IfOk};

use std::alloc::{AllocError, Global};
use zs_io::{Device, MemBay, MemDevice, MemSink, MemSource};
use zs_session::run_step;

/// A pool with one record in its one head.
pub const BASE: &str = "pool 7 2 8 4 64\nfs a\nsync\nmake a 1 1 512 5\nsync\n";

/// What `BASE` is replied.
pub const BASE_REPLIES: &str =
    "pool 7 mirrors 1 txg 1\nqueued 2 1\nsync 2\ntask 1 ok\nwrote a 1 0 3\nsync 3\n";

/// How a run ended: its status, and what it put.
#[derive(Drop)]
pub struct Ran {
    pub status: u8,
    pub replies: Vec<u8>,
}

/// The word `step` and as many names of images, at most three.
pub fn words(alloc: Global, names: usize) -> Result<Vec<String>, AllocError> {
    let mut words = Vec::new(alloc);
    for word in ["step", "first", "second", "third"] {
        if words.len() <= names {
            words.push(String::from_str(alloc, word)?)?;
        }
    }
    Ok(words)
}

/// A source of a script, of which the reads with these numbers fail.
pub fn source(alloc: Global, script: &str, reads: &[u64]) -> Result<MemSource, AllocError> {
    let bytes = Vec::from_slice(alloc, script.as_bytes())?;
    Ok(MemSource::new(bytes, Vec::from_slice(alloc, reads)?))
}

/// A blank image of 512 sectors of which the calls with these numbers fail, and all from that one
/// on.
pub fn image(alloc: Global, calls: &[u64], from: u64) -> Result<MemDevice, AllocError>
    ensures { IfOk result (λ device. ⟦<MemDevice as Device>⟧.faults device ≡ 0) }
{
    let bytes = vec![in alloc; 0; 262_144]?;
    let calls = Vec::from_slice(alloc, calls)?;
    Ok(MemDevice::new(alloc, bytes, calls, from, false))
}

/// Runs a script over the first images of a bay, as many as names, with a source and a sink of
/// which the calls with these numbers fail.
pub fn run(
    alloc: Global,
    names: usize,
    bay: &mut MemBay,
    script: &str,
    reads: &[u64],
    puts: &[u64],
) -> Result<Ran, AllocError> {
    let words = words(alloc, names)?;
    let mut source = source(alloc, script, reads)?;
    let mut sink = MemSink::new(alloc, Vec::from_slice(alloc, puts)?);
    let ended = run_step(alloc, words.as_slice(), bay, &mut source, &mut sink);
    Ok(Ran {
        status: ended.status,
        replies: Vec::from_slice(alloc, sink.bytes())?,
    })
}

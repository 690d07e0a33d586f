//! The program `zscan`: a pool of mirrored devices in image files, and scrubs of what it holds.
//!
//! Layer: the top; it stands on all others. What it does with a script is `zs_session`.
//! Promise: `main` gives `run_step` the real outside, standard input and output and image files, which tell nothing of what
//! they hold (`files`), and ends with its status. Every clause of `run_step` that speaks of statuses, counts and the
//! history holds of them.
//!
//! The tests run whole scripts over devices in memory. To change how files and streams are opened and read see `files`.
#![tactic(auto)]

mod files;
#[cfg(test)]
mod tests;

use files::{ImageFiles, Input, Output, StandIns};
use std::alloc::AllocError;
use std::env;
use std::io::ErrorKind;
use std::process::ExitCode;
use zs_session::run_step;

fn main(rt: HostRuntime) -> ExitCode {
    let Ok(_stand_ins) = StandIns::take_closed(&rt) else {
        return ExitCode::from(4);
    };
    let Ok(words) = words(&rt) else {
        return ExitCode::from(7);
    };
    let mut src = Input::new(rt.stdin());
    let mut out = Output::new(rt.stdout());
    let mut bay = ImageFiles::new(rt);
    let ended = run_step(rt.alloc(), words.as_slice(), &mut bay, &mut src, &mut out);
    ExitCode::from(ended.status)
}

/// The words of the command line behind the program's name; none where one of them is not UTF-8, since no form of the
/// command line has such a word.
fn words(rt: &HostRuntime) -> Result<Vec<String>, AllocError> {
    let mut words = Vec::new(rt.alloc());
    match env::args(rt) {
        Ok(args) => {
            for word in args.skip(1) {
                words.push(word)?;
            }
        }
        Err(error) if error.kind() == ErrorKind::OutOfMemory => return Err(AllocError),
        Err(_) => {}
    }
    Ok(words)
}

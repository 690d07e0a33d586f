//! The standard streams of the process: each that is closed is taken before an image could get its number.

use std::fs::{File, OpenOptions};
use std::io;
use std::os::fd::AsFd;

/// What stands in for the standard streams that were closed, until it is let go. What each is for fails: a read of
/// standard input, a write of the other two.
#[derive(Drop)]
pub struct StandIns {
    input: Option<File>,
    output: Option<File>,
    error: Option<File>,
}

impl StandIns {
    /// Takes the streams that are closed. The system gives a file the lowest number that is free, so the number of a
    /// closed stream would else be an image's, and what is written to the stream would be written into the image.
    pub fn take_closed(rt: &HostRuntime) -> io::Result<Self> {
        Ok(StandIns {
            input: stand_in(rt, &rt.stdin(), OpenOptions::new().write(true))?,
            output: stand_in(rt, &rt.stdout(), OpenOptions::new().read(true))?,
            error: stand_in(rt, &rt.stderr(), OpenOptions::new().read(true))?,
        })
    }
}

/// The null device, opened the wrong way for a stream that is closed; none for one that is open. A stream is closed just
/// where its number names nothing that could be cloned.
fn stand_in<S: AsFd>(rt: &HostRuntime, stream: &S, how: &OpenOptions) -> io::Result<Option<File>> {
    match stream.as_fd().try_clone_to_owned() {
        Ok(_) => Ok(None),
        Err(_) => Ok(Some(how.open(rt, "/dev/null")?)),
    }
}

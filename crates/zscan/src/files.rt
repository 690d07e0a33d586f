// The real outside: standard input and output, image files and their opener. They tell nothing of what they hold, and
// each raises its count at each failure. What the system does with these calls is trusted.
ghost use Rattle.std.specs.Prelude.{◌≡◌, None, IfOk};
ghost use Rattle.std.proofs.Common.{rules};
ghost use Rattle.std.specs.Io.{ReadsAtMost};
ghost use Rattle.zs_io.specs.Faults.{HasCause};

mod standard;

pub use standard::StandIns;
use std::fs::{File, Files, OpenOptions};
use std::io;
use std::io::{ErrorKind, Read, Write};
use std::os::unix::fs::FileExt;
use zs_io::{Bay, BayFault, Device, Failed, Sink, Source};

/// A source over anything that is read, as standard input.
#[derive(Drop)]
pub struct Input<R> {
    from: R,
    faults: u64,
}

impl<R: Read> Input<R> {
    /// A source that reads from it, with no fault counted yet.
    pub fn new(from: R) -> Self {
        Input { from, faults: 0 }
    }
}

impl<R: Read> Source for Input<R> {
    ghost left = { λ _. None };

    ghost faults = { λ s. s.faults };

    fn read(&mut self, buf: &mut [u8]) -> Result<usize, Failed> {
        match read_on(&mut self.from, buf) {
            Ok(n) => Ok(n),
            Err(_) => {
                self.faults = self.faults.saturating_add(1);
                Err(Failed)
            }
        }
    }
}

// Reads, and again where a signal broke in. A read that no try finishes has failed.
fn read_on<R: Read>(from: &mut R, buf: &mut [u8]) -> io::Result<usize>
    ensures bound { ReadsAtMost result buf.new }
{
    for _ in 0..u64::MAX {
        match from.read(buf) {
            Err(error) if error.kind() == ErrorKind::Interrupted => {}
            outcome => return outcome,
        }
    }
    Err(io::Error::from(ErrorKind::Interrupted))
}

/// A sink over anything that is written, as standard output.
#[derive(Drop)]
pub struct Output<W> {
    to: W,
    faults: u64,
}

impl<W: Write> Output<W> {
    /// A sink that writes to it, with no fault counted yet.
    pub fn new(to: W) -> Self {
        Output { to, faults: 0 }
    }
}

impl<W: Write> Sink for Output<W> {
    ghost told = { λ _. None };

    ghost faults = { λ s. s.faults };

    fn put(&mut self, bytes: &[u8]) -> Result<(), Failed> {
        match self.to.write_all(bytes) {
            Ok(()) => Ok(()),
            Err(_) => {
                self.faults = self.faults.saturating_add(1);
                Err(Failed)
            }
        }
    }
}

/// A device over an image file, of the size that the file had when it was opened.
#[derive(Drop)]
pub struct ImageFile {
    file: File,
    bytes: u64,
    faults: u64,
}

// The outcome of a call of the system, which raises the count where it failed.
fn counted<T: Drop>(faults: &mut u64, outcome: io::Result<T>) -> Result<T, BayFault>
    ensures cause { HasCause faults.old faults.new result }
    ensures same { IfOk result (λ value. outcome ≡ Ok value) }
{
    match outcome {
        Ok(value) => Ok(value),
        Err(_) => {
            *faults = faults.saturating_add(1);
            Err(BayFault::Failed)
        }
    }
}

impl Device for ImageFile {
    ghost size = { λ d. d.bytes };

    ghost told = { λ _. None };

    ghost may_leave = { λ _ _. ⊥ };

    ghost moment = { λ _. 0 };

    ghost left_since = { λ _ _ _. ⊥ };

    ghost faults = { λ d. d.faults };

    fn bytes(&self) -> u64 {
        self.bytes
    }

    fn read_at(&mut self, at: u64, buf: &mut [u8]) -> Result<(), BayFault> {
        counted(&mut self.faults, self.file.read_exact_at(buf, at))
    }

    fn write_at(&mut self, at: u64, bytes: &[u8]) -> Result<(), BayFault> {
        counted(&mut self.faults, self.file.write_all_at(bytes, at))
    }

    fn sync(&mut self) -> Result<(), BayFault> {
        counted(&mut self.faults, self.file.sync_data())
    }

    ghost told_is = { Prim.search rules };

    ghost images_fit = { λ device c left. absurd left };

    ghost images_are_bytes = { λ device c left. absurd left };

    ghost past_is_bytes = { λ device t c left. absurd left };

    ghost counts_now = { λ device t c later left. left };

    ghost only_now = { λ device c left. left };
}

/// A bay of image files, each of which must exist, is opened to be read and written, and is locked as long as it is
/// open.
#[derive(Drop)]
pub struct ImageFiles<R> {
    files: R,
    faults: u64,
}

impl<R: Files<File = File>> ImageFiles<R> {
    /// A bay over the file system, with no fault counted yet.
    pub fn new(files: R) -> Self {
        ImageFiles { files, faults: 0 }
    }
}

impl<R: Files<File = File>> Bay for ImageFiles<R> {
    type Dev = ImageFile;

    ghost left = { λ _. None };

    ghost asked = { λ _. None };

    ghost faults = { λ b. b.faults };

    fn fetch(&mut self, name: &str) -> Result<ImageFile, BayFault> {
        counted(&mut self.faults, opened(&self.files, name))
    }
}

fn opened<R: Files<File = File>>(files: &R, name: &str) -> io::Result<ImageFile>
    ensures { IfOk result (λ d. d.faults ≡ 0) }
{
    let file = OpenOptions::new().read(true).write(true).open(files, name)?;
    // Two devices over one file would be copies of nothing: the lock refuses it under a second name, and to another run.
    file.try_lock()?;
    let bytes = file.metadata()?.len();
    Ok(ImageFile {
        file,
        bytes,
        faults: 0,
    })
}

#[cfg(test)]
mod tests;

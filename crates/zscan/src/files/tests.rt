//! The adapters to the real outside, once each.

use crate::files::{ImageFiles, Input, Output};
use std::io::{Error, ErrorKind, Read};
use std::test::Fail;
use std::{env, fs, io, process};
use zs_io::{Bay, BayFault, Device, Failed, Sink, Source};

/// A reader that has failed.
#[derive(Drop)]
struct Broken;

impl Read for Broken {
    fn read(&mut self, _buf: &mut [u8]) -> io::Result<usize> {
        Err(Error::from(ErrorKind::Other))
    }
}

/// A reader into whose first reads a signal breaks.
#[derive(Drop)]
struct Interrupted {
    left: u8,
}

impl Read for Interrupted {
    fn read(&mut self, buf: &mut [u8]) -> io::Result<usize> {
        if self.left == 0 {
            return b"abc".as_slice().read(buf);
        }
        self.left -= 1;
        Err(Error::from(ErrorKind::Interrupted))
    }
}

#[test]
fn an_input_reads_again_where_a_signal_breaks_in(rt: HostRuntime) {
    let mut buf = [0; 4];
    let mut input = Input::new(Interrupted { left: 2 });
    assert_eq!(rt; input.read(&mut buf), Ok(3));
    assert_eq!(rt; buf, *b"abc\0");
    assert_eq!(rt; input.faults, 0);
}

#[test]
fn an_input_gives_what_is_read_and_counts_a_failure(rt: HostRuntime) {
    let mut buf = [0; 4];
    let mut input = Input::new(b"abc".as_slice());
    assert_eq!(rt; input.read(&mut buf), Ok(3));
    assert_eq!(rt; buf, *b"abc\0");
    assert_eq!(rt; input.read(&mut buf), Ok(0));
    assert_eq!(rt; input.faults, 0);
    let mut broken = Input::new(Broken);
    assert_eq!(rt; broken.read(&mut buf), Err(Failed));
    assert_eq!(rt; broken.faults, 1);
}

#[test]
fn an_output_writes_what_is_put_and_counts_a_failure(rt: HostRuntime) -> Result<(), Fail> {
    let mut output = Output::new(Vec::new(rt.alloc()));
    assert_eq!(rt; output.put(b"ab"), Ok(()));
    assert_eq!(rt; output.put(b"c"), Ok(()));
    assert_eq!(rt; output.to.as_slice(), b"abc".as_slice());
    assert_eq!(rt; output.faults, 0);
    let mut room = [0; 2];
    let mut full = Output::new(room.as_mut_slice());
    assert_eq!(rt; full.put(b"abc"), Err(Failed));
    assert_eq!(rt; full.faults, 1);
    Ok(())
}

#[test]
fn an_image_file_is_read_and_written_in_place_and_counts_a_failure(
    rt: HostRuntime,
) -> Result<(), Fail> {
    let alloc = rt.alloc();
    let name = format!(in alloc; "zscan-test-image-{}", process::id(rt.process()))?;
    let path = env::temp_dir(&rt)?.join(alloc, name.as_str())?;
    fs::write(&rt, path.as_path(), b"abcdef")?;
    let mut files = ImageFiles::new(rt);
    let Ok(mut image) = files.fetch(path.as_path().to_str().unwrap_or("")) else {
        return Err(Fail::new("the file is not opened"));
    };
    assert!(rt; image.bytes() == 6);
    let mut buf = [0; 2];
    assert_eq!(rt; image.read_at(3, &mut buf), Ok(()));
    assert_eq!(rt; buf, *b"de");
    assert_eq!(rt; image.write_at(1, b"xy"), Ok(()));
    assert_eq!(rt; image.sync(), Ok(()));
    assert_eq!(rt;
        fs::read(&rt, path.as_path())?.as_slice(),
        b"axydef".as_slice()
    );
    assert_eq!(rt; image.faults, 0);
    fs::write(&rt, path.as_path(), b"abc")?;
    assert_eq!(rt; image.read_at(3, &mut buf), Err(BayFault::Failed));
    assert_eq!(rt; image.faults, 1);
    fs::remove_file(&rt, path.as_path())?;
    Ok(())
}

#[test]
fn a_file_is_one_image_at_a_time(rt: HostRuntime) -> Result<(), Fail> {
    let alloc = rt.alloc();
    let name = format!(in alloc; "zscan-test-twice-{}", process::id(rt.process()))?;
    let path = env::temp_dir(&rt)?.join(alloc, name.as_str())?;
    fs::write(&rt, path.as_path(), b"abc")?;
    let mut files = ImageFiles::new(rt);
    let name = path.as_path().to_str().unwrap_or("");
    let Ok(image) = files.fetch(name) else {
        return Err(Fail::new("the file is not opened"));
    };
    assert!(rt; files.fetch(name).is_err());
    assert_eq!(rt; files.faults, 1);
    drop(image);
    assert!(rt; files.fetch(name).is_ok());
    fs::remove_file(&rt, path.as_path())?;
    Ok(())
}

#[test]
fn files_open_what_exists_and_count_a_failure(rt: HostRuntime) -> Result<(), Fail> {
    let alloc = rt.alloc();
    let name = format!(in alloc; "zscan-test-none-{}", process::id(rt.process()))?;
    let path = env::temp_dir(&rt)?.join(alloc, name.as_str())?;
    let mut files = ImageFiles::new(rt);
    let missing = path.as_path().to_str().unwrap_or("");
    assert!(rt; files.fetch(missing).is_err());
    assert_eq!(rt; files.faults, 1);
    assert!(rt; fs::read(&rt, path.as_path()).is_err());
    Ok(())
}

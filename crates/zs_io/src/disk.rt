// What both memory devices have: bytes, and a list of the calls that were made.
ghost use Rattle.std.specs.Prelude.{◌≡◌, ◌≤◌, ◌+◌, ◌∷◌, ◌++◌, [], List, ℕ, length, take, slice_range, OnOk, OnErr};
ghost use Rattle.zs_io.specs.Told.{Torn, over};
ghost use Rattle.zs_io.specs.Crash.{Follows, NoMore, Only, Elapses};
ghost use Rattle.zs_io.specs.Calls.{bytes_of, images_of, images_since, with_call, HaveBytes};

use std::alloc::{AllocError, Global};
use std::marker::Model;
use std::snapshot::Snapshot;

/// Bytes, seen as their list.
#[derive(Debug, Drop)]
pub struct Bytes {
    items: Vec<u8>,
}

impl Model for Bytes {
    ghost use Rattle.std.specs.Prelude.{List, ℕ};

    ghost Value = { List ℕ };

    ghost view = { λ b. b.items.items };
}

/// A call that a memory device was given, as its list of calls keeps it.
#[derive(Debug, Drop)]
pub enum Call {
    /// A read, or a sync that failed.
    Looked,
    /// A write of bytes from an offset on, and how many of them reached the device: all, if it did not fail.
    Wrote { at: u64, bytes: Bytes, kept: usize },
    /// A sync that succeeded.
    Synced,
}

/// Bytes in memory, seen as what they were at first and the list of calls since.
#[derive(Drop)]
pub struct Disk {
    alloc: Global,
    first: Snapshot<Vec<u8>>,
    bytes: Vec<u8>,
    calls: Vec<Call>,
}

impl Model for Disk {
    ghost use Rattle.std.specs.Prelude.{◌≡◌};
    ghost use Rattle.zs_io.specs.Calls.{Kept, after_calls};

    ghost Value = { Kept };

    ghost view = { λ d. record { first = d.first.value.items; calls = d.calls.items } };

    ghost invariant = { λ d. d.bytes.items ≡ after_calls d.calls.items d.first.value.items };
}

impl Disk {
    /// A disk with these bytes on it.
    pub fn new(alloc: Global, bytes: Vec<u8>) -> Self
        ensures first { result.first ≡ bytes.items }
        ensures calls { result.calls ≡ [] }
        ensures now { bytes_of result ≡ bytes.items }
        ensures durable { Only bytes.items (images_of result) }
        ensures bytes { HaveBytes result }
    {
        Disk {
            alloc,
            first: Snapshot::of(&bytes),
            bytes,
            calls: Vec::new(alloc),
        }
    }
}

impl Disk {
    /// The size in bytes.
    pub fn size(&self) -> u64
        ensures { result ≡ length self.now.first }
    {
        self.bytes.len() as u64
    }

    /// The number of the next call.
    pub fn number(&self) -> u64
        ensures { result ≡ length self.now.calls }
    {
        self.calls.len() as u64
    }

    /// The bytes as they read.
    pub fn bytes(&self) -> &[u8]
        ensures now { result.now ≡ bytes_of self.now }
        ensures size { length result.now ≡ length self.now.first }
    {
        &self.bytes
    }

    /// Copies the bytes from `at` on into the whole buffer.
    pub fn read(&self, at: u64, buf: &mut [u8])
        requires { at + length buf.old ≤ length self.now.first }
        ensures { buf.new ≡ slice_range (bytes_of self.now) at (at + length buf.old) }
    {
        let bytes = self.bytes();
        buf.copy_from_slice(&bytes[at as usize..][..buf.len()]);
    }

    /// The bytes as they read.
    pub fn into_bytes(self) -> Vec<u8>
        ensures { result.items ≡ bytes_of self }
    {
        self.bytes
    }

    /// Keeps a call that changes nothing: a read, or a sync that failed.
    pub fn look(&mut self) -> Result<(), AllocError>
        ensures ok { OnOk result (self.new ≡ with_call self.old Call.Looked) }
        ensures err { OnErr result (self.new ≡ self.old) }
        ensures first { self.new.first ≡ self.old.first }
        ensures bytes { HaveBytes self.old → HaveBytes self.new }
        ensures now { bytes_of self.new ≡ bytes_of self.old }
        ensures crash { NoMore (images_of self.old) (images_of self.new) }
        ensures time { Elapses (length self.old.calls) (length self.new.calls) (images_since self.old) (images_since self.new) (images_of self.new) }
    {
        self.calls.push(Call::Looked)?;
        Ok(())
    }

    /// Keeps a write of which the first `kept` bytes reach the device, and puts these there.
    pub fn write(&mut self, at: u64, bytes: &[u8], kept: usize) -> Result<(), AllocError>
        requires fits { at + length bytes.now ≤ length self.old.first }
        requires kept { kept ≤ length bytes.now }
        ensures ok { OnOk result (self.new ≡ with_call self.old (Call.Wrote at bytes.now kept)) }
        ensures err { OnErr result (self.new ≡ self.old) }
        ensures first { self.new.first ≡ self.old.first }
        ensures bytes { HaveBytes self.old → HaveBytes self.new }
        ensures torn { Torn at bytes.now (bytes_of self.old) (bytes_of self.new) }
        ensures whole { OnOk result (kept ≡ length bytes.now → bytes_of self.new ≡ over at bytes.now (bytes_of self.old)) }
        ensures part { OnOk result (bytes_of self.new ≡ over at (take kept bytes.now) (bytes_of self.old)) }
        ensures crash { Follows (Torn at bytes.now) (images_of self.old) (images_of self.new) }
        ensures time { Elapses (length self.old.calls) (length self.new.calls) (images_since self.old) (images_since self.new) (images_of self.new) }
    {
        let copy = Vec::from_slice(self.alloc, bytes)?;
        self.calls.push(Call::Wrote {
            at,
            bytes: Bytes { items: copy },
            kept,
        })?;
        put(&mut self.bytes, at as usize, &bytes[..kept]);
        Ok(())
    }

    /// Keeps a sync that succeeds.
    pub fn sync(&mut self) -> Result<(), AllocError>
        ensures ok { OnOk result (self.new ≡ with_call self.old Call.Synced) }
        ensures err { OnErr result (self.new ≡ self.old) }
        ensures first { self.new.first ≡ self.old.first }
        ensures bytes { HaveBytes self.old → HaveBytes self.new }
        ensures now { bytes_of self.new ≡ bytes_of self.old }
        ensures durable { OnOk result (Only (bytes_of self.old) (images_of self.new)) }
        ensures crash { NoMore (images_of self.old) (images_of self.new) }
        ensures time { Elapses (length self.old.calls) (length self.new.calls) (images_since self.old) (images_since self.new) (images_of self.new) }
    {
        self.calls.push(Call::Synced)?;
        Ok(())
    }
}

// Puts bytes over those that stand from an offset on.
fn put(old: &mut Vec<u8>, at: usize, bytes: &[u8])
    requires { at + length bytes.now ≤ length old.old.items }
    ensures { old.new.items ≡ over at bytes.now old.old.items }
{
    put_slice(old, at, bytes);
}

fn put_slice(old: &mut [u8], at: usize, bytes: &[u8])
    requires { at + length bytes.now ≤ length old.old }
    ensures { old.new ≡ over at bytes.now old.old }
{
    old[at..at + bytes.len()].copy_from_slice(bytes);
}

// A source and a sink in memory, of which chosen calls fail.
ghost use Rattle.std.specs.Prelude.{◌≡◌, ◌≤◌, ◌<◌, ◌+◌, ◌-◌, ◌^◌, ◌==◌, ◌++◌, [], List, ℕ, Option, Some, false, length, take, drop, min, option_map, IfOk, OnOk, OnErr, is_err};
ghost use Rattle.std.specs.List.{list_any};
ghost use Rattle.zs_io.specs.Told.{Told};
ghost use Rattle.zs_io.specs.Faults.{HasCount};

use crate::{Failed, Sink, Source};
use std::alloc::Global;

/// Bytes in memory that are read as a source. The calls whose numbers are listed, from 0 on, fail.
#[derive(Debug, Drop)]
pub struct MemSource {
    bytes: Vec<u8>,
    taken: usize,
    fails: Vec<u64>,
    calls: u64,
    faults: u64,
    ghost within: { taken ≤ length bytes.items },
}

impl MemSource {
    /// A source of these bytes.
    pub fn new(bytes: Vec<u8>, fails: Vec<u64>) -> Self
        ensures left { ⟦<MemSource as Source>⟧.left result ≡ Some bytes.items }
        ensures fails { result.fails.items ≡ fails.items }
        ensures fresh { (result.calls ≡ 0) × (result.faults ≡ 0) }
    {
        MemSource {
            bytes,
            taken: 0,
            fails,
            calls: 0,
            faults: 0,
        }
    }
}

impl Source for MemSource {
    ghost left = { λ s. Some (drop s.taken s.bytes.items) };

    ghost faults = { λ s. s.faults };

    fn read(&mut self, buf: &mut [u8]) -> Result<usize, Failed>
        ensures bound { IfOk result (λ n. n ≤ length buf.old) }
        ensures next { IfOk result
            (λ n. Some (drop self.old.taken self.old.bytes.items)
            ≡ option_map (λ rest. take n buf.new ++ rest) (Some (drop self.new.taken self.new.bytes.items))) }
        ensures end { IfOk result (λ n. n ≡ 0 → 0 < length buf.old → Told (Some (drop self.old.taken self.old.bytes.items)) (λ rest. rest ≡ [])) }
        ensures err { OnErr result (drop self.new.taken self.new.bytes.items ≡ drop self.old.taken self.old.bytes.items) }
        ensures count { HasCount self.old.faults self.new.faults result }

        // It reads as many as there are and fit, and just the listed calls fail.
        ensures many { IfOk result (λ n. n ≡ min (length self.old.bytes.items - self.old.taken) (length buf.old)) }
        ensures fails { is_err result ≡ list_any (λ n. n == self.old.calls) self.old.fails.items }
        ensures number { self.new.calls ≡ min (self.old.calls + 1) (2 ^ 64 - 1) }
        ensures list { self.new.fails ≡ self.old.fails }
    {
        let number = self.calls;
        self.calls = self.calls.saturating_add(1);
        if self.fails.contains(&number) {
            self.faults = self.faults.saturating_add(1);
            return Err(Failed);
        }
        let rest = &self.bytes[self.taken..];
        let n = rest.len().min(buf.len());
        buf[..n].copy_from_slice(&rest[..n]);
        self.taken += n;
        Ok(n)
    }
}

/// A sink that keeps in memory what is put. The calls whose numbers are listed, from 0 on, fail and append nothing.
#[derive(Debug, Drop)]
pub struct MemSink {
    bytes: Vec<u8>,
    fails: Vec<u64>,
    calls: u64,
    faults: u64,
}

impl MemSink {
    /// An empty sink.
    pub fn new(alloc: Global, fails: Vec<u64>) -> Self
        ensures empty { ⟦<MemSink as Sink>⟧.told result ≡ Some [] }
        ensures fails { result.fails.items ≡ fails.items }
        ensures fresh { (result.calls ≡ 0) × (result.faults ≡ 0) }
    {
        MemSink {
            bytes: Vec::new(alloc),
            fails,
            calls: 0,
            faults: 0,
        }
    }

    /// The bytes that were put.
    pub fn bytes(&self) -> &[u8]
        ensures { ⟦<MemSink as Sink>⟧.told self.now ≡ Some result.now }
    {
        &self.bytes
    }
}

impl Sink for MemSink {
    ghost told = { λ s. Some s.bytes.items };

    ghost faults = { λ s. s.faults };

    fn put(&mut self, bytes: &[u8]) -> Result<(), Failed>
        ensures ok { OnOk result (Some self.new.bytes.items ≡ option_map (λ b. b ++ bytes.now) (Some self.old.bytes.items)) }
        ensures err { OnErr result ((k : ℕ) × (Some self.new.bytes.items ≡ option_map (λ b. b ++ take k bytes.now) (Some self.old.bytes.items))) }
        ensures count { HasCount self.old.faults self.new.faults result }

        // The listed calls fail, and a call that fails appends nothing.
        ensures fails { OnOk result (list_any (λ n. n == self.old.calls) self.old.fails.items ≡ false) }
        ensures nothing { OnErr result (self.new.bytes.items ≡ self.old.bytes.items) }
        ensures number { self.new.calls ≡ min (self.old.calls + 1) (2 ^ 64 - 1) }
        ensures list { self.new.fails ≡ self.old.fails }
    {
        let number = self.calls;
        self.calls = self.calls.saturating_add(1);
        if self.fails.contains(&number) || self.bytes.extend_from_slice(bytes).is_err() {
            self.faults = self.faults.saturating_add(1);
            return Err(Failed);
        }
        Ok(())
    }
}

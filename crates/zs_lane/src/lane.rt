// A device with a journal of its calls.
ghost use Rattle.std.specs.Prelude.{◌≡◌, ◌≤◌, ◌+◌, ◌∷◌, ◌++◌, [], List, ℕ, Option, length, option_map};
ghost use Rattle.std.specs.Prelude.{slice_range, vec_len, vec_capacity, IfOk, OnOk, IfErr, OnErr, IsErrOf};
ghost use Rattle.zs_io.specs.Told.{Told, BothTold, Torn, over};
ghost use Rattle.zs_io.specs.Crash.{Follows, NoMore, Only, Elapses};
ghost use Rattle.zs_sum.specs.Sum.{sha256};
ghost use Rattle.zs_lane.specs.Journal.{Keeps};
ghost use Rattle.zs_lane.specs.Lane.{Refused, HasLaneCause};

use crate::{LaneFault, Mark, Summed};
use std::alloc::{AllocError, Global};
use std::marker::Model;
use zs_io::{BayFault, Device};
use zs_sum::sum;

/// A device with a journal: one mark for each call that it was given.
#[derive(Drop)]
pub struct Lane<D: Device> {
    device: D,
    journal: Vec<Mark>,
}

impl<D: Device> Model for Lane<D> {
    ghost use Rattle.zs_lane.specs.Lane.{LaneView};

    ghost Value = { LaneView D };

    ghost view = { λ l. record { device = l.device; journal = l.journal.items } };
}

impl<D: Device> Lane<D> {
    /// A lane whose journal is empty.
    pub fn new(alloc: Global, dev: D) -> Self
        ensures device { result.device ≡ dev }
        ensures journal { result.journal ≡ [] }
        ensures keeps { Keeps (D.told dev) result.journal (D.told result.device) }
    {
        Lane {
            device: dev,
            journal: Vec::new(alloc),
        }
    }

    /// The marks of all calls, in order.
    pub fn journal(&self) -> &[Mark]
        ensures { result.now ≡ self.now.journal }
    {
        &self.journal
    }

    /// The device's size in bytes.
    pub fn bytes(&self) -> u64
        ensures { result ≡ D.size self.now.device }
    {
        self.device.bytes()
    }

    /// The device alone.
    pub fn into_device(self) -> D
        ensures { result ≡ self.device }
    {
        self.device
    }
}

impl<D: Device> Lane<D> {
    /// Reads the bytes from `at` on into the whole buffer, and gives their sum beside the place of the mark.
    /// Use it where the sum is wanted, so that each byte is hashed once.
    pub fn read_summed(&mut self, at: u64, buf: &mut [u8]) -> Result<Summed, LaneFault>
        requires { at + length buf.old ≤ D.size self.old.device }
        ensures sum { IfOk result (λ s. s.sum ≡ sha256 buf.new) }
        ensures place { IfOk result (λ s. s.place ≡ length self.old.journal) }
        ensures mark { OnOk result (self.new.journal ≡ self.old.journal ++ Mark.Read at (length buf.old) (sha256 buf.new) ∷ []) }
        ensures bytes { OnOk result (Told (D.told self.old.device) (λ b. buf.new ≡ slice_range b at (at + length buf.old))) }
        ensures err { IfErr result (λ e. Refused e self.old.journal self.new.journal) }
        ensures cause { HasLaneCause (D.faults self.old.device) (D.faults self.new.device) result }
        ensures memory { IsErrOf result LaneFault.Memory → self.new ≡ self.old }
        ensures size { D.size self.new.device ≡ D.size self.old.device }
        ensures told { D.told self.new.device ≡ D.told self.old.device }
        ensures crash { NoMore (D.may_leave self.old.device) (D.may_leave self.new.device) }
        ensures time { Elapses (D.moment self.old.device) (D.moment self.new.device) (D.left_since self.old.device)
            (D.left_since self.new.device) (D.may_leave self.new.device) }
        ensures keeps { (o : Option (List ℕ)) → Keeps o self.old.journal (D.told self.old.device) → Keeps o self.new.journal (D.told self.new.device) }
    {
        let place = room(&mut self.journal)?;
        match self.device.read_at(at, buf) {
            Ok(()) => {
                let sum = sum(buf);
                add(&mut self.journal, Mark::Read(at, buf.len() as u64, sum));
                Ok(Summed { place, sum })
            }
            Err(BayFault::Failed) => {
                add(&mut self.journal, Mark::Failed);
                Err(LaneFault::Failed(place))
            }
            Err(BayFault::Memory) => Err(LaneFault::Memory),
        }
    }

    /// Reads the bytes from `at` on into the whole buffer, and gives the place of the mark.
    pub fn read(&mut self, at: u64, buf: &mut [u8]) -> Result<u64, LaneFault>
        requires { at + length buf.old ≤ D.size self.old.device }
        ensures place { IfOk result (λ p. p ≡ length self.old.journal) }
        ensures mark { OnOk result (self.new.journal ≡ self.old.journal ++ Mark.Read at (length buf.old) (sha256 buf.new) ∷ []) }
        ensures bytes { OnOk result (Told (D.told self.old.device) (λ b. buf.new ≡ slice_range b at (at + length buf.old))) }
        ensures err { IfErr result (λ e. Refused e self.old.journal self.new.journal) }
        ensures cause { HasLaneCause (D.faults self.old.device) (D.faults self.new.device) result }
        ensures memory { IsErrOf result LaneFault.Memory → self.new ≡ self.old }
        ensures size { D.size self.new.device ≡ D.size self.old.device }
        ensures told { D.told self.new.device ≡ D.told self.old.device }
        ensures crash { NoMore (D.may_leave self.old.device) (D.may_leave self.new.device) }
        ensures time { Elapses (D.moment self.old.device) (D.moment self.new.device) (D.left_since self.old.device)
            (D.left_since self.new.device) (D.may_leave self.new.device) }
        ensures keeps { (o : Option (List ℕ)) → Keeps o self.old.journal (D.told self.old.device) → Keeps o self.new.journal (D.told self.new.device) }
    {
        let summed = self.read_summed(at, buf)?;
        Ok(summed.place)
    }

    /// Writes the bytes from `at` on, whose sum is handed in, and gives the place of the mark.
    /// Use it where the sum is known, so that each byte is hashed once.
    pub fn write_summed(&mut self, at: u64, bytes: &[u8], sum: &[u8; 32]) -> Result<u64, LaneFault>
        requires range { at + length bytes.now ≤ D.size self.old.device }
        requires sum { sum.now ≡ sha256 bytes.now }
        ensures place { IfOk result (λ p. p ≡ length self.old.journal) }
        ensures mark { OnOk result (self.new.journal ≡ self.old.journal ++ Mark.Wrote at (length bytes.now) (sha256 bytes.now) ∷ []) }
        ensures written { OnOk result (D.told self.new.device ≡ option_map (over at bytes.now) (D.told self.old.device)) }
        ensures torn { OnErr result (BothTold (Torn at bytes.now) (D.told self.old.device) (D.told self.new.device)) }
        ensures err { IfErr result (λ e. Refused e self.old.journal self.new.journal) }
        ensures cause { HasLaneCause (D.faults self.old.device) (D.faults self.new.device) result }
        ensures memory { IsErrOf result LaneFault.Memory → self.new ≡ self.old }
        ensures size { D.size self.new.device ≡ D.size self.old.device }
        ensures crash { Follows (Torn at bytes.now) (D.may_leave self.old.device) (D.may_leave self.new.device) }
        ensures time { Elapses (D.moment self.old.device) (D.moment self.new.device) (D.left_since self.old.device)
            (D.left_since self.new.device) (D.may_leave self.new.device) }
        ensures keeps { (o : Option (List ℕ)) → Keeps o self.old.journal (D.told self.old.device) → Keeps o self.new.journal (D.told self.new.device) }
    {
        let place = room(&mut self.journal)?;
        match self.device.write_at(at, bytes) {
            Ok(()) => {
                add(&mut self.journal, Mark::Wrote(at, bytes.len() as u64, *sum));
                Ok(place)
            }
            Err(BayFault::Failed) => {
                add(&mut self.journal, Mark::Failed);
                Err(LaneFault::Failed(place))
            }
            Err(BayFault::Memory) => Err(LaneFault::Memory),
        }
    }

    /// Writes the bytes from `at` on, and gives the place of the mark.
    pub fn write(&mut self, at: u64, bytes: &[u8]) -> Result<u64, LaneFault>
        requires { at + length bytes.now ≤ D.size self.old.device }
        ensures place { IfOk result (λ p. p ≡ length self.old.journal) }
        ensures mark { OnOk result (self.new.journal ≡ self.old.journal ++ Mark.Wrote at (length bytes.now) (sha256 bytes.now) ∷ []) }
        ensures written { OnOk result (D.told self.new.device ≡ option_map (over at bytes.now) (D.told self.old.device)) }
        ensures torn { OnErr result (BothTold (Torn at bytes.now) (D.told self.old.device) (D.told self.new.device)) }
        ensures err { IfErr result (λ e. Refused e self.old.journal self.new.journal) }
        ensures cause { HasLaneCause (D.faults self.old.device) (D.faults self.new.device) result }
        ensures memory { IsErrOf result LaneFault.Memory → self.new ≡ self.old }
        ensures size { D.size self.new.device ≡ D.size self.old.device }
        ensures crash { Follows (Torn at bytes.now) (D.may_leave self.old.device) (D.may_leave self.new.device) }
        ensures time { Elapses (D.moment self.old.device) (D.moment self.new.device) (D.left_since self.old.device)
            (D.left_since self.new.device) (D.may_leave self.new.device) }
        ensures keeps { (o : Option (List ℕ)) → Keeps o self.old.journal (D.told self.old.device) → Keeps o self.new.journal (D.told self.new.device) }
    {
        let sum = sum(bytes);
        let place = self.write_summed(at, bytes, &sum)?;
        Ok(place)
    }

    /// Syncs the device, and gives the place of the mark. After it, a crash leaves what a read gives.
    pub fn sync(&mut self) -> Result<u64, LaneFault>
        ensures place { IfOk result (λ p. p ≡ length self.old.journal) }
        ensures mark { OnOk result (self.new.journal ≡ self.old.journal ++ Mark.Synced ∷ []) }
        ensures durable { OnOk result (Told (D.told self.old.device) (λ b. Only b (D.may_leave self.new.device))) }
        ensures err { IfErr result (λ e. Refused e self.old.journal self.new.journal) }
        ensures cause { HasLaneCause (D.faults self.old.device) (D.faults self.new.device) result }
        ensures memory { IsErrOf result LaneFault.Memory → self.new ≡ self.old }
        ensures size { D.size self.new.device ≡ D.size self.old.device }
        ensures told { D.told self.new.device ≡ D.told self.old.device }
        ensures crash { NoMore (D.may_leave self.old.device) (D.may_leave self.new.device) }
        ensures time { Elapses (D.moment self.old.device) (D.moment self.new.device) (D.left_since self.old.device)
            (D.left_since self.new.device) (D.may_leave self.new.device) }
        ensures keeps { (o : Option (List ℕ)) → Keeps o self.old.journal (D.told self.old.device) → Keeps o self.new.journal (D.told self.new.device) }
    {
        let place = room(&mut self.journal)?;
        match self.device.sync() {
            Ok(()) => {
                add(&mut self.journal, Mark::Synced);
                Ok(place)
            }
            Err(BayFault::Failed) => {
                add(&mut self.journal, Mark::Failed);
                Err(LaneFault::Failed(place))
            }
            Err(BayFault::Memory) => Err(LaneFault::Memory),
        }
    }
}

// Makes room for one mark, and says at which place it will stand.
fn room(journal: &mut Vec<Mark>) -> Result<u64, AllocError>
    ensures items { journal.new.items ≡ journal.old.items }
    ensures place { IfOk result (λ place. place ≡ length journal.old.items) }
    ensures room { OnOk result (vec_len journal.new + 1 ≤ vec_capacity journal.new) }
{
    journal.reserve(1)?;
    Ok(journal.len() as u64)
}

// Adds a mark, for which there is room.
fn add(journal: &mut Vec<Mark>, mark: Mark)
    requires { vec_len journal.old + 1 ≤ vec_capacity journal.old }
    ensures { journal.new.items ≡ journal.old.items ++ mark ∷ [] }
{
    if journal.push(mark).is_err() {
        unreachable!();
    }
}

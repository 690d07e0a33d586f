// A device in memory of which chosen calls fail.
ghost use Rattle.std.specs.Prelude.{◌≡◌, ◌≤◌, ◌+◌, ◌<◌, ◌/◌, [], List, ℕ, Some, false, true, length, take, option_map, slice_range, if◌then◌else◌, OnOk, OnErr, IsErrOf};
ghost use Rattle.zs_io.specs.Told.{Told, BothTold, Torn, over};
ghost use Rattle.zs_io.specs.Crash.{Follows, NoMore, Only, Elapses};
ghost use Rattle.zs_io.specs.Faults.{HasCause};
ghost use Rattle.zs_io.specs.Calls.{bytes_of, images_of, images_since, with_call, HaveBytes, fails_at};
ghost use Rattle.zs_io.specs.CallLaws.{told_is_kept, images_of_fit, images_count_now, images_only_now};
ghost use Rattle.zs_io.specs.ByteLaws.{images_of_bytes, images_since_bytes};

use crate::disk::{Call, Disk};
use crate::{BayFault, Device};
use std::alloc::Global;

/// A device in memory. Its calls are numbered from 0 on; those whose numbers are listed, and all from one number on,
/// fail. A write that fails leaves the first half of its range written where `torn` is set, and else nothing. A call
/// for which memory is wanting has no number.
#[derive(Drop)]
pub struct MemDevice {
    disk: Disk,
    fails: Vec<u64>,
    from: u64,
    torn: bool,
    faults: u64,
    ghost bytes: { HaveBytes disk },
}

impl MemDevice {
    /// A device that holds these bytes, all of them on the disk. Pass `u64::MAX` as `from` where no call fails
    /// but the listed ones.
    pub fn new(alloc: Global, bytes: Vec<u8>, fails: Vec<u64>, from: u64, torn: bool) -> Self
        ensures told { ⟦<MemDevice as Device>⟧.told result ≡ Some bytes.items }
        ensures size { ⟦<MemDevice as Device>⟧.size result ≡ length bytes.items }
        ensures durable { Only bytes.items (⟦<MemDevice as Device>⟧.may_leave result) }
        ensures faults { ⟦<MemDevice as Device>⟧.faults result ≡ 0 }
        ensures calls { result.disk.calls ≡ [] }
        ensures list { (result.fails ≡ fails) × (result.from ≡ from) × (result.torn ≡ torn) }
    {
        MemDevice {
            disk: Disk::new(alloc, bytes),
            fails,
            from,
            torn,
            faults: 0,
        }
    }

    /// The bytes as they read.
    pub fn into_bytes(self) -> Vec<u8>
        ensures { ⟦<MemDevice as Device>⟧.told self ≡ Some result.items }
    {
        self.disk.into_bytes()
    }

    // Whether the next call is one of those that fail.
    #[tactic(auto, unfolding(crate::specs::Calls::fails_at))]
    fn fails_next(&self) -> bool
        ensures { result ≡ fails_at self.now.fails.items self.now.from (length self.now.disk.calls) }
    {
        let number = self.disk.number();
        number >= self.from || self.fails.contains(&number)
    }
}

impl Device for MemDevice {
    ghost size = { λ m. length m.disk.first };

    ghost told = { λ m. Some (bytes_of m.disk) };

    ghost may_leave = { λ m c. images_of m.disk c };

    ghost moment = { λ m. length m.disk.calls };

    ghost left_since = { λ m t c. images_since m.disk t c };

    ghost faults = { λ m. m.faults };

    fn bytes(&self) -> u64 {
        self.disk.size()
    }

    fn read_at(&mut self, at: u64, buf: &mut [u8]) -> Result<(), BayFault>
        requires { at + length buf.old ≤ length self.old.disk.first }
        ensures size { length self.new.disk.first ≡ length self.old.disk.first }
        ensures bytes { OnOk result (Told (Some (bytes_of self.old.disk)) (λ b. buf.new ≡ slice_range b at (at + length buf.old))) }
        ensures told { Some (bytes_of self.new.disk) ≡ Some (bytes_of self.old.disk) }
        ensures crash { NoMore (images_of self.old.disk) (images_of self.new.disk) }
        ensures time { Elapses (length self.old.disk.calls) (length self.new.disk.calls) (images_since self.old.disk)
            (images_since self.new.disk) (images_of self.new.disk) }
        ensures cause { HasCause self.old.faults self.new.faults result }
        ensures memory { IsErrOf result BayFault.Memory → self.new ≡ self.old }

        // Just the calls of these numbers fail, and each call is kept, and so has a number, but one for which memory is wanting.
        ensures succeeds { OnOk result (fails_at self.old.fails.items self.old.from (length self.old.disk.calls) ≡ false) }
        ensures fails { IsErrOf result BayFault.Failed → fails_at self.old.fails.items self.old.from (length self.old.disk.calls) ≡ true }
        ensures call { OnOk result (self.new.disk ≡ with_call self.old.disk Call.Looked) }
        ensures failed_call { IsErrOf result BayFault.Failed → self.new.disk ≡ with_call self.old.disk Call.Looked }
        ensures list { (self.new.fails ≡ self.old.fails) × (self.new.from ≡ self.old.from) × (self.new.torn ≡ self.old.torn) }
    {
        if self.fails_next() {
            self.disk.look()?;
            self.faults = self.faults.saturating_add(1);
            return Err(BayFault::Failed);
        }
        self.disk.look()?;
        self.disk.read(at, buf);
        Ok(())
    }

    fn write_at(&mut self, at: u64, bytes: &[u8]) -> Result<(), BayFault>
        requires { at + length bytes.now ≤ length self.old.disk.first }
        ensures size { length self.new.disk.first ≡ length self.old.disk.first }
        ensures written { OnOk result (Some (bytes_of self.new.disk) ≡ option_map (over at bytes.now) (Some (bytes_of self.old.disk))) }
        ensures torn { OnErr result (Torn at bytes.now (bytes_of self.old.disk) (bytes_of self.new.disk)) }
        ensures half { IsErrOf result BayFault.Failed →
            bytes_of self.new.disk
            ≡ over at (take (if self.old.torn then length bytes.now / 2 else 0) bytes.now) (bytes_of self.old.disk) }
        ensures crash { Follows (Torn at bytes.now) (images_of self.old.disk) (images_of self.new.disk) }
        ensures time { Elapses (length self.old.disk.calls) (length self.new.disk.calls) (images_since self.old.disk)
            (images_since self.new.disk) (images_of self.new.disk) }
        ensures cause { HasCause self.old.faults self.new.faults result }
        ensures memory { IsErrOf result BayFault.Memory → self.new ≡ self.old }

        // Just the calls of these numbers fail, and each call is kept, and so has a number, but one for which memory is wanting.
        ensures succeeds { OnOk result (fails_at self.old.fails.items self.old.from (length self.old.disk.calls) ≡ false) }
        ensures fails { IsErrOf result BayFault.Failed → fails_at self.old.fails.items self.old.from (length self.old.disk.calls) ≡ true }
        ensures call { OnOk result (self.new.disk ≡ with_call self.old.disk (Call.Wrote at bytes.now (length bytes.now))) }
        ensures failed_call { IsErrOf result BayFault.Failed →
            self.new.disk
            ≡ with_call self.old.disk (Call.Wrote at bytes.now (if self.old.torn then length bytes.now / 2 else 0)) }
        ensures list { (self.new.fails ≡ self.old.fails) × (self.new.from ≡ self.old.from) × (self.new.torn ≡ self.old.torn) }
    {
        if self.fails_next() {
            let kept = if self.torn { bytes.len() / 2 } else { 0 };
            self.disk.write(at, bytes, kept)?;
            self.faults = self.faults.saturating_add(1);
            return Err(BayFault::Failed);
        }
        self.disk.write(at, bytes, bytes.len())?;
        Ok(())
    }

    fn sync(&mut self) -> Result<(), BayFault>
        ensures size { length self.new.disk.first ≡ length self.old.disk.first }
        ensures durable { OnOk result (Told (Some (bytes_of self.old.disk)) (λ b. Only b (images_of self.new.disk))) }
        ensures told { Some (bytes_of self.new.disk) ≡ Some (bytes_of self.old.disk) }
        ensures crash { NoMore (images_of self.old.disk) (images_of self.new.disk) }
        ensures time { Elapses (length self.old.disk.calls) (length self.new.disk.calls) (images_since self.old.disk)
            (images_since self.new.disk) (images_of self.new.disk) }
        ensures cause { HasCause self.old.faults self.new.faults result }
        ensures memory { IsErrOf result BayFault.Memory → self.new ≡ self.old }

        // Just the calls of these numbers fail, and each call is kept, and so has a number, but one for which memory is wanting.
        ensures succeeds { OnOk result (fails_at self.old.fails.items self.old.from (length self.old.disk.calls) ≡ false) }
        ensures fails { IsErrOf result BayFault.Failed → fails_at self.old.fails.items self.old.from (length self.old.disk.calls) ≡ true }
        ensures call { OnOk result (self.new.disk ≡ with_call self.old.disk Call.Synced) }
        ensures failed_call { IsErrOf result BayFault.Failed → self.new.disk ≡ with_call self.old.disk Call.Looked }
        ensures list { (self.new.fails ≡ self.old.fails) × (self.new.from ≡ self.old.from) × (self.new.torn ≡ self.old.torn) }
    {
        if self.fails_next() {
            self.disk.look()?;
            self.faults = self.faults.saturating_add(1);
            return Err(BayFault::Failed);
        }
        self.disk.sync()?;
        Ok(())
    }

    ghost told_is = { λ m. told_is_kept m.disk };

    ghost images_fit = { λ m c left. images_of_fit m.disk c left };

    ghost images_are_bytes = { λ m c left. images_of_bytes m.disk m.bytes c left };

    ghost past_is_bytes = { λ m t c left. images_since_bytes m.disk m.bytes t c left };

    ghost counts_now = { λ m t c le left. images_count_now m.disk t c le left };

    ghost only_now = { λ m c since. images_only_now m.disk c since };
}

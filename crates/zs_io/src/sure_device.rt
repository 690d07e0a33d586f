// A device in memory that never fails.
ghost use Rattle.std.specs.Prelude.{◌≡◌, ◌≢◌, ◌≤◌, ◌+◌, [], List, ℕ, Some, length, option_map, slice_range, OnOk, OnErr, IsErrOf};
ghost use Rattle.zs_io.specs.Told.{Told, Torn, over};
ghost use Rattle.zs_io.specs.Crash.{Follows, NoMore, Only, Elapses};
ghost use Rattle.zs_io.specs.Faults.{HasCause};
ghost use Rattle.zs_io.specs.Calls.{bytes_of, images_of, images_since, with_call, HaveBytes};
ghost use Rattle.zs_io.specs.CallLaws.{told_is_kept, images_of_fit, images_count_now, images_only_now};
ghost use Rattle.zs_io.specs.ByteLaws.{images_of_bytes, images_since_bytes};

use crate::disk::{Call, Disk};
use crate::{BayFault, Device};
use std::alloc::Global;

/// A device in memory that never fails: its count of faults is 0 for ever.
#[derive(Drop)]
pub struct SureDevice {
    disk: Disk,
    ghost bytes: { HaveBytes disk },
}

impl SureDevice {
    /// A device that holds these bytes, all of them on the disk.
    pub fn new(alloc: Global, bytes: Vec<u8>) -> Self
        ensures told { ⟦<SureDevice as Device>⟧.told result ≡ Some bytes.items }
        ensures size { ⟦<SureDevice as Device>⟧.size result ≡ length bytes.items }
        ensures durable { Only bytes.items (⟦<SureDevice as Device>⟧.may_leave result) }
        ensures calls { result.disk.calls ≡ [] }
    {
        SureDevice {
            disk: Disk::new(alloc, bytes),
        }
    }

    /// The bytes as they read.
    pub fn into_bytes(self) -> Vec<u8>
        ensures { ⟦<SureDevice as Device>⟧.told self ≡ Some result.items }
    {
        self.disk.into_bytes()
    }
}

impl Device for SureDevice {
    ghost size = { λ m. length m.disk.first };

    ghost told = { λ m. Some (bytes_of m.disk) };

    ghost may_leave = { λ m c. images_of m.disk c };

    ghost moment = { λ m. length m.disk.calls };

    ghost left_since = { λ m t c. images_since m.disk t c };

    ghost faults = { λ _. 0 };

    fn bytes(&self) -> u64 {
        self.disk.size()
    }

    fn read_at(&mut self, at: u64, buf: &mut [u8]) -> Result<(), BayFault>
        requires { at + length buf.old ≤ length self.old.disk.first }
        ensures size { length self.new.disk.first ≡ length self.old.disk.first }
        ensures bytes { OnOk result (Told (Some (bytes_of self.old.disk)) (λ b. buf.new ≡ slice_range b at (at + length buf.old))) }
        ensures told { Some (bytes_of self.new.disk) ≡ Some (bytes_of self.old.disk) }
        ensures crash { NoMore (images_of self.old.disk) (images_of self.new.disk) }
        ensures time { Elapses (length self.old.disk.calls) (length self.new.disk.calls) (images_since self.old.disk)
            (images_since self.new.disk) (images_of self.new.disk) }
        ensures cause { HasCause 0 0 result }
        ensures memory { IsErrOf result BayFault.Memory → self.new ≡ self.old }

        // It never fails, and each call is kept but one for which memory is wanting.
        ensures sure { result ≢ Err BayFault.Failed }
        ensures call { OnOk result (self.new.disk ≡ with_call self.old.disk Call.Looked) }
    {
        self.disk.look()?;
        self.disk.read(at, buf);
        Ok(())
    }

    fn write_at(&mut self, at: u64, bytes: &[u8]) -> Result<(), BayFault>
        requires { at + length bytes.now ≤ length self.old.disk.first }
        ensures size { length self.new.disk.first ≡ length self.old.disk.first }
        ensures written { OnOk result (Some (bytes_of self.new.disk) ≡ option_map (over at bytes.now) (Some (bytes_of self.old.disk))) }
        ensures torn { OnErr result (Torn at bytes.now (bytes_of self.old.disk) (bytes_of self.new.disk)) }
        ensures crash { Follows (Torn at bytes.now) (images_of self.old.disk) (images_of self.new.disk) }
        ensures time { Elapses (length self.old.disk.calls) (length self.new.disk.calls) (images_since self.old.disk)
            (images_since self.new.disk) (images_of self.new.disk) }
        ensures cause { HasCause 0 0 result }
        ensures memory { IsErrOf result BayFault.Memory → self.new ≡ self.old }

        // It never fails, and each call is kept but one for which memory is wanting.
        ensures sure { result ≢ Err BayFault.Failed }
        ensures call { OnOk result (self.new.disk ≡ with_call self.old.disk (Call.Wrote at bytes.now (length bytes.now))) }
    {
        self.disk.write(at, bytes, bytes.len())?;
        Ok(())
    }

    fn sync(&mut self) -> Result<(), BayFault>
        ensures size { length self.new.disk.first ≡ length self.old.disk.first }
        ensures durable { OnOk result (Told (Some (bytes_of self.old.disk)) (λ b. Only b (images_of self.new.disk))) }
        ensures told { Some (bytes_of self.new.disk) ≡ Some (bytes_of self.old.disk) }
        ensures crash { NoMore (images_of self.old.disk) (images_of self.new.disk) }
        ensures time { Elapses (length self.old.disk.calls) (length self.new.disk.calls) (images_since self.old.disk)
            (images_since self.new.disk) (images_of self.new.disk) }
        ensures cause { HasCause 0 0 result }
        ensures memory { IsErrOf result BayFault.Memory → self.new ≡ self.old }

        // It never fails, and each call is kept but one for which memory is wanting.
        ensures sure { result ≢ Err BayFault.Failed }
        ensures call { OnOk result (self.new.disk ≡ with_call self.old.disk Call.Synced) }
    {
        self.disk.sync()?;
        Ok(())
    }

    ghost told_is = { λ m. told_is_kept m.disk };

    ghost images_fit = { λ m c left. images_of_fit m.disk c left };

    ghost images_are_bytes = { λ m c left. images_of_bytes m.disk m.bytes c left };

    ghost past_is_bytes = { λ m t c left. images_since_bytes m.disk m.bytes t c left };

    ghost counts_now = { λ m t c le left. images_count_now m.disk t c le left };

    ghost only_now = { λ m c since. images_only_now m.disk c since };
}

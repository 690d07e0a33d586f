//! The line `rot`: the bytes of a range of one device become their complement.

ghost use Rattle.std.specs.Prelude.{◌≡◌, ◌≤◌, ◌<◌, ◌+◌, ◌∷◌, [], ℕ, length, map, OnOk, OnErr, IsErrOf, Err};
ghost use Rattle.zs_io.specs.Faults.{Rose};
ghost use Rattle.zs_session.specs.Devices.{Calls, AreDevicesOf, SetGoesOn, journals};
ghost use Rattle.zs_session.specs.Plays.{Went, complement};
ghost use Rattle.zs_session.specs.Rotting.{RotsOn, StopsOn, TellsFault};
ghost use Rattle.zs_session.specs.Session.{IsReady, StopsLine};

use crate::lines::end_marked;
use crate::rig::Rig;
use std::alloc::Global;
use zs_core::Pool;
use zs_io::BayFault;
use zs_lane::{Children, LaneFault};
use zs_script::{Command, Refusal, Reply};

/// Makes each byte its complement.
fn complement(bytes: &mut [u8])
    ensures { bytes.new ≡ map complement bytes.old }
{
    for at in 0..bytes.len() {
        bytes[at] = 255 - bytes[at];
    }
}

/// Reads the range of a device that has the buffer's length, writes the complement of its bytes over it, and syncs the
/// device. Fails where a call does; none comes after it.
fn rot_range<C: Children>(set: &mut C, dev: u8, at: u64, bytes: &mut [u8]) -> Result<(), LaneFault>
    requires dev { dev < C.count set.old }
    requires range { at + length bytes.old ≤ (C.device set.old dev).size }
    ensures rots { OnOk result (RotsOn dev at (length bytes.old) (journals (C.device set.old)) (journals (C.device set.new))) }
    ensures stops { (place : ℕ) → IsErrOf result (LaneFault.Failed place) → StopsOn dev (journals (C.device set.old)) (journals (C.device set.new)) }
    ensures rose { (place : ℕ) → IsErrOf result (LaneFault.Failed place) → Rose (C.device set.old dev).faults (C.device set.new dev).faults }
    ensures set { SetGoesOn (C.count set.old) (C.count set.new) (C.device set.old) (C.device set.new) }
{
    set.read(dev, at, bytes)?;
    complement(bytes);
    set.write(dev, at, bytes)?;
    set.sync(dev)?;
    Ok(())
}

/// Complements the bytes of a range of a device, as a line. It is refused where the pool has no such device, where the range
/// is not in the space, and where the device fails. Fails only for want of memory.
pub fn rot<C: Children>(
    alloc: Global,
    pool: &mut Pool,
    rig: &mut Rig<C>,
    by: u8,
    dev: u8,
    sector: u32,
    count: u32,
) -> Result<(), BayFault>
    requires ready { IsReady pool.old }
    requires devices { AreDevicesOf pool.old.core.shape (C.count rig.old.set) (C.device rig.old.set) }
    ensures ready { OnOk result (IsReady pool.new) }
    ensures goes_on { OnOk result
        (Went pool.old pool.new (journals (C.device rig.old.set)) (journals (C.device rig.new.set)) (Command.Rot dev sector count ∷ [])) }
    ensures rose { OnOk result (TellsFault pool.old.history pool.new.history (C.device rig.old.set dev).faults (C.device rig.new.set dev).faults) }
    ensures stops { StopsLine pool.old pool.new (journals (C.device rig.old.set)) (journals (C.device rig.new.set)) result }
    ensures memory { OnErr result (result ≡ Err BayFault.Memory) }
    ensures calls { Calls (C.count rig.old.set) (C.count rig.new.set) (C.device rig.old.set) (C.device rig.new.set) result }
{
    let line = Command::Rot { dev, sector, count };
    pool.facts();
    let shape = pool.shape();
    if dev >= shape.devices {
        return end_marked(pool, by, &line, Reply::Refused(Refusal::NoDevice));
    }
    if !shape.is_in_space(sector, count) {
        return end_marked(pool, by, &line, Reply::Refused(Refusal::OutOfRange));
    }
    let mut bytes = vec![in alloc; 0; 512 * count as usize]?;
    match rot_range(&mut rig.set, dev, 512 * u64::from(sector), &mut bytes) {
        Ok(()) => end_marked(pool, by, &line, Reply::Rotted { dev, sector, count }),
        Err(LaneFault::Failed(_)) => {
            end_marked(pool, by, &line, Reply::Refused(Refusal::DeviceFault))
        }
        Err(LaneFault::Memory) => Err(BayFault::Memory),
    }
}

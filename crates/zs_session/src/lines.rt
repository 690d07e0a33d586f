//! What each line of a script does to the pool and its devices.

ghost use Rattle.std.specs.Prelude.{◌≡◌, ◌≤◌, ◌+◌, ◌*◌, ◌∷◌, [], ℕ, false, length, map, OnOk, OnErr, Err};
ghost use Rattle.std.specs.Option.{option_copied};
ghost use Rattle.zs_core.specs.Line.{IsLineReply};
ghost use Rattle.zs_core.specs.Reading.{IsGotFor};
ghost use Rattle.zs_core.specs.Calls.{IsPoolCommand};
ghost use Rattle.zs_script.specs.Lines.{IsLater};
ghost use Rattle.zs_machine.specs.declared.event.Step.{Step};
ghost use Rattle.zs_machine.specs.History.{AddsEvent};
ghost use Rattle.zs_session.specs.Devices.{Calls, AreDevicesOf, journals};
ghost use Rattle.zs_session.specs.OpenReads.{AwaitsRead, EndsOpenRead};
ghost use Rattle.zs_session.specs.Session.{IsUp, IsReady, StopsLine, StopsIn, WantsMemory};
ghost use Rattle.zs_session.specs.Plays.{EndsAlone, Went, WentAlone};

use crate::batches::{hold, issue};
use crate::finishing::{finish, sync};
use crate::landing::land;
use crate::rig::Rig;
use crate::rot::rot;
use crate::turns::walk;
use std::alloc::Global;
use zs_core::{Pool, PoolFault, ReadPlan};
use zs_ids::DsName;
use zs_io::BayFault;
use zs_lane::Children;
use zs_mirror::{ReadFault, read_any};
use zs_script::{Command, Line, Reply};

/// Records that a line ended that marked nothing by itself, with its reply: each but a `rot`, for which `end_marked` is.
/// Fails only for want of memory.
pub fn end_line(pool: &mut Pool, by: u8, command: &Command, reply: Reply) -> Result<(), BayFault>
    requires reply { IsLineReply pool.old command.now reply }
    requires up { IsUp pool.old }
    ensures ready { OnOk result (IsReady pool.new) }
    ensures goes_on { OnOk result (EndsAlone command.now pool.old pool.new) }
    ensures stops { WantsMemory pool.old pool.new result }
{
    end_marked(pool, by, command, reply)
}

/// Records that a line ended, with its reply, whatever it marked by itself. Fails only for want of memory.
pub fn end_marked(pool: &mut Pool, by: u8, command: &Command, reply: Reply) -> Result<(), BayFault>
    requires reply { IsLineReply pool.old command.now reply }
    requires up { IsUp pool.old }
    ensures ready { OnOk result (IsReady pool.new) }
    ensures adds { OnOk result (AddsEvent by (Step.Line command.now) reply pool.old.history pool.new.history) }
    ensures shape { OnOk result (pool.new.core.shape ≡ pool.old.core.shape) }
    ensures stops { WantsMemory pool.old pool.new result }
{
    Ok(pool.line(by, command, reply)?)
}

/// Reads a record. A read that is not refused ends in the same line, by the bytes that were read. Fails only for want of
/// memory.
fn read<C: Children>(
    alloc: Global,
    pool: &mut Pool,
    rig: &mut Rig<C>,
    by: u8,
    ds: &DsName,
    object: u16,
    leaf: u32,
) -> Result<(), BayFault>
    requires ready { IsReady pool.old }
    requires devices { AreDevicesOf pool.old.core.shape (C.count rig.old.set) (C.device rig.old.set) }
    ensures ready { OnOk result (IsReady pool.new) }
    ensures goes_on { OnOk result
        (Went pool.old pool.new (journals (C.device rig.old.set)) (journals (C.device rig.new.set)) (Command.Read ds.now object leaf ∷ [])) }
    ensures stops { StopsIn pool.old pool.new (journals (C.device rig.old.set)) (journals (C.device rig.new.set))
        (Command.Read ds.now object leaf ∷ []) result }
    ensures memory { OnErr result (result ≡ Err BayFault.Memory) }
    ensures calls { Calls (C.count rig.old.set) (C.count rig.new.set) (C.device rig.old.set) (C.device rig.new.set) result }
{
    pool.facts();
    let plan = match pool.read_begin(by, ds, object, leaf) {
        Ok(plan) => plan,
        Err(PoolFault::Refused(_)) => return Ok(()),
        Err(PoolFault::Memory) => return Err(BayFault::Memory),
    };
    match plan {
        ReadPlan::Staged(_) | ReadPlan::Hole => end_read(pool, by, plan, None, &NOWHERE),
        ReadPlan::Pinned(item, online) => {
            let width = pool.shape().width;
            let mut copy = vec![in alloc; 0; 512 * usize::from(item.sectors)]?;
            match read_any(&mut rig.set, width, online, &item, &mut copy) {
                Ok(places) => end_read(pool, by, plan, Some(copy.as_slice()), &places),
                Err(ReadFault::Lost(places)) => end_read(pool, by, plan, None, &places),
                Err(ReadFault::Memory) => Err(BayFault::Memory),
            }
        }
    }
}

/// The places of a read that made no call.
const NOWHERE: [u64; 12] = [u64::MAX; 12];

/// Ends a read that was begun just now, with the places of its calls. Fails only for want of memory.
fn end_read(
    pool: &mut Pool,
    by: u8,
    plan: ReadPlan,
    got: Option<&[u8]>,
    places: &[u64; 12],
) -> Result<(), BayFault>
    requires got { IsGotFor plan (option_copied got) }
    requires begun { AwaitsRead by plan pool.old }
    ensures ready { OnOk result (IsReady pool.new) }
    ensures ended { OnOk result (EndsOpenRead by plan (option_copied got.entry) places.now pool.old pool.new) }
    ensures memory { OnErr result (result ≡ Err BayFault.Memory) }
    ensures err { OnErr result (pool.new ≡ pool.old) }
{
    pool.read_end(by, plan, got, places)?;
    Ok(())
}

/// Runs a line.
pub fn run_line<C: Children>(
    alloc: Global,
    pool: &mut Pool,
    rig: &mut Rig<C>,
    line: &Line,
) -> Result<(), BayFault>
    requires later { IsLater line.now.command }
    requires ready { IsReady pool.old }
    requires devices { AreDevicesOf pool.old.core.shape (C.count rig.old.set) (C.device rig.old.set) }
    ensures ready { OnOk result (IsReady pool.new) }
    ensures goes_on { OnOk result (Went pool.old pool.new (journals (C.device rig.old.set)) (journals (C.device rig.new.set)) (line.now.command ∷ [])) }
    ensures stops { StopsIn pool.old pool.new (journals (C.device rig.old.set)) (journals (C.device rig.new.set)) (line.now.command ∷ []) result }
    ensures calls { Calls (C.count rig.old.set) (C.count rig.new.set) (C.device rig.old.set) (C.device rig.new.set) result }
{
    let by = line.by;
    match &line.command {
        Command::Fs { .. }
        | Command::Snap { .. }
        | Command::Clone { .. }
        | Command::Destroy { .. }
        | Command::Swap { .. }
        | Command::Scrub
        | Command::Pause
        | Command::Resume
        | Command::Stop
        | Command::Make { .. }
        | Command::Write { .. }
        | Command::Errors
        | Command::List
        | Command::Status => command(pool, line),
        Command::Sync => end_sync(pool, rig, by),
        Command::Walk { turns } => walk(alloc, pool, by, *turns),
        Command::Hold { vdev, pieces } => hold(alloc, pool, by, *vdev, *pieces),
        Command::Issue { vdev, pieces } => { issue(alloc, pool, rig, by, *vdev, *pieces) }
        Command::Land => land(alloc, pool, rig, by),
        Command::Finish => finish(alloc, pool, rig, by),
        Command::Read { ds, object, leaf } => read(alloc, pool, rig, by, ds, *object, *leaf),
        Command::Rot { dev, sector, count } => rot(alloc, pool, rig, by, *dev, *sector, *count),
        _ => unreachable!(),
    }
}

/// Gives a command to the pool. Fails only for want of memory.
fn command(pool: &mut Pool, line: &Line) -> Result<(), BayFault>
    requires command { IsPoolCommand line.now.command }
    requires ready { IsReady pool.old }
    ensures ready { OnOk result (IsReady pool.new) }
    ensures goes_on { OnOk result (WentAlone pool.old pool.new (line.now.command ∷ [])) }
    ensures stops { WantsMemory pool.old pool.new result }
{
    pool.command(line.by, &line.command)?;
    Ok(())
}

/// Commits what is staged, as a line.
fn end_sync<C: Children>(pool: &mut Pool, rig: &mut Rig<C>, by: u8) -> Result<(), BayFault>
    requires ready { IsReady pool.old }
    requires devices { AreDevicesOf pool.old.core.shape (C.count rig.old.set) (C.device rig.old.set) }
    ensures ready { OnOk result (IsReady pool.new) }
    ensures goes_on { OnOk result (Went pool.old pool.new (journals (C.device rig.old.set)) (journals (C.device rig.new.set)) (Command.Sync ∷ [])) }
    ensures stops { StopsLine pool.old pool.new (journals (C.device rig.old.set)) (journals (C.device rig.new.set)) result }
    ensures calls { Calls (C.count rig.old.set) (C.count rig.new.set) (C.device rig.old.set) (C.device rig.new.set) result }
{
    sync(pool, rig)?;
    end_line(pool, by, &Command::Sync, Reply::Nothing)
}

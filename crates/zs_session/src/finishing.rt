//! Committing what is staged, and the line that brings a scan to its end.

ghost use Rattle.std.specs.Prelude.{◌≡◌, ◌<◌, ◌⊎◌, ◌∷◌, [], None, Bool, false, true, not, length, map, OnOk, OnErr, IfOk, IfSome, Err};
ghost use Rattle.zs_ids.specs.declared.limits.TheConstants.{TXG_END};
ghost use Rattle.zs_phys.specs.Turn.{IsWalking};
ghost use Rattle.zs_phys.specs.declared.phys.At.TheVariants.{Nowhere};
ghost use Rattle.zs_scan.specs.Steps.{IsComplete, IsDrained};
ghost use Rattle.zs_scan.specs.Walks.{is_due};
ghost use Rattle.zs_core.specs.View.{tasks_in};
ghost use Rattle.zs_machine.specs.Machine.{is_at_work};
ghost use Rattle.zs_machine.specs.Steps.{LineStep};
ghost use Rattle.zs_machine.specs.Told.{line_steps};
ghost use Rattle.zs_machine.specs.Finishing.{is_through};
ghost use Rattle.zs_machine.specs.Finishing.Phase.{landing, drained};
ghost use Rattle.zs_session.specs.Devices.{Calls, AreDevicesOf, journals};
ghost use Rattle.zs_session.specs.Session.{IsUp, IsReady, Passes, PassesAlone, Stops, StopsLine};
ghost use Rattle.zs_session.specs.Plays.{Went, WentAlone};
ghost use Rattle.zs_session.specs.Batches.{IsTimedAs, StandsStill};
ghost use Rattle.zs_session.specs.Finish.{walk_left, finish_left, phase_at, Round, in_round, MayGo, MayHold, MayFinish, is_over, checked_to, EndsRound, AddsSync, EndsSync, Commits, StopsCommit};
ghost use Rattle.zs_session.specs.Turns.{WalksAlone};

use crate::batches::judge;
use crate::landing::land_next;
use crate::lines::end_line;
use crate::rig::Rig;
use crate::turns::{Stop, Turned, turn};
use crate::write::put_blocks;
use std::alloc::Global;
use zs_core::{Pool, PoolFault, Stage};
use zs_ids::Marks;
use zs_io::BayFault;
use zs_lane::Children;
use zs_script::{Command, Refusal, Reply};

/// How many pieces `finish` takes at once.
const BATCH: u32 = 32;

/// Commits what is staged: writes its blocks, and applies it; whether it was committed, and not refused because no
/// transaction group is left. A scan that is complete is at its end then, where no task was queued; one of which nothing
/// waited or flew, and that is at work then, may be brought to its end without another checkpoint. Fails where a device
/// does, or for want of memory.
pub fn sync<C: Children>(pool: &mut Pool, rig: &mut Rig<C>) -> Result<bool, BayFault>
    requires up { IsUp pool.old }
    requires devices { AreDevicesOf pool.old.core.shape (C.count rig.old.set) (C.device rig.old.set) }
    ensures up { OnOk result (IsUp pool.new) }
    ensures ends { IfOk result (λ made. made ≡ true → IsComplete pool.old.core.scan → pool.old.core.state.open_txg.tasks ≡ []
        → is_at_work pool.new.core.state.scan ≡ false) }
    ensures refused { IfOk result (λ made. made ≡ false → pool.new.core.state.open_txg.txg ≡ TXG_END) }
    ensures again { IfOk result (λ made. made ≡ true → IsDrained pool.old.core.scan → is_at_work pool.new.core.state.scan ≡ true
        → MayFinish pool.new.core) }
    ensures round { IfOk result (λ made. made ≡ true → EndsRound pool.old.history pool.new.history) }
    ensures told { OnOk result (AddsSync (line_steps pool.old.history) (line_steps pool.new.history)) }
    ensures goes_on { OnOk result (Went pool.old pool.new (journals (C.device rig.old.set)) (journals (C.device rig.new.set)) []) }
    ensures stops { Stops pool.old pool.new (journals (C.device rig.old.set)) (journals (C.device rig.new.set)) result }
    ensures calls { Calls (C.count rig.old.set) (C.count rig.new.set) (C.device rig.old.set) (C.device rig.new.set) result }
{
    pool.facts();
    let width = pool.shape().width;
    let staged = match pool.begin_sync() {
        Ok(staged) => staged,
        Err(PoolFault::Refused(_)) => return Ok(false),
        Err(PoolFault::Memory) => return Err(BayFault::Memory),
    };
    let marks = put_blocks(&mut rig.set, width, staged.online, staged.blocks.as_slice())?;
    commit(pool, &marks)?;
    Ok(true)
}

/// Applies what a sync has written, and commits it. Fails only for want of memory.
pub fn commit(pool: &mut Pool, marks: &Marks) -> Result<(), BayFault>
    requires writing { pool.old.core.state.stage ≡ Stage.Writing }
    requires up { pool.old.core.state.suspended ≡ false }
    requires unread { pool.old.core.state.reads ≡ [] }
    requires failed { marks.now.failed ≡ 0 }
    ensures up { OnOk result (IsUp pool.new) }
    ensures ends { OnOk result (IsComplete pool.old.core.scan → tasks_in pool.old.core.state.closed ≡ [] → is_at_work pool.new.core.state.scan ≡ false) }
    ensures again { OnOk result (IsDrained pool.old.core.scan → is_at_work pool.new.core.state.scan ≡ true → pool.old.core.state.open_txg.tasks ≡ []
        → MayFinish pool.new.core) }
    ensures told { OnOk result (EndsSync (line_steps pool.old.history) (line_steps pool.new.history)) }
    ensures goes_on { OnOk result (Commits marks.now pool.old pool.new) }
    ensures memory { OnErr result (result ≡ Err BayFault.Memory) }
    ensures stops { StopsCommit marks.now pool.old pool.new result }
{
    pool.end_data(marks)?;
    pool.committed()?;
    pool.facts();
    Ok(())
}

/// Why a scan can't be brought to its end, if it can't: none runs, or it is paused.
fn refusal(pool: &Pool) -> Option<Refusal>
    requires up { IsUp pool.now }
    ensures refused { IfSome result (λ why. LineStep pool.now.core.state Command.Finish (Reply.Refused why)) }
    ensures runs { result ≡ None → IsWalking pool.now.core.scan.run }
{
    if !pool.is_scanning() {
        return Some(Refusal::NoScan);
    }
    if pool.is_paused() {
        return Some(Refusal::Paused);
    }
    None
}

/// Checks all batches in flight.
fn land_flights<C: Children>(
    alloc: Global,
    pool: &mut Pool,
    rig: &mut Rig<C>,
    by: u8,
) -> Result<(), BayFault>
    requires up { IsUp pool.old }
    requires landing { phase_at pool.old.history ≡ landing }
    requires devices { AreDevicesOf pool.old.core.shape (C.count rig.old.set) (C.device rig.old.set) }
    ensures all { OnOk result (pool.new.core.scan.flight ≡ []) }
    ensures runs { OnOk result (IsWalking pool.old.core.scan.run → IsWalking pool.new.core.scan.run) }
    ensures up { OnOk result (IsUp pool.new) }
    ensures phase { OnOk result (phase_at pool.new.history ≡ landing) }
    ensures goes_on { OnOk result (Went pool.old pool.new (journals (C.device rig.old.set)) (journals (C.device rig.new.set)) []) }
    ensures passes { Passes pool.old pool.new (journals (C.device rig.old.set)) (journals (C.device rig.new.set)) result }
    ensures calls { Calls (C.count rig.old.set) (C.count rig.new.set) (C.device rig.old.set) (C.device rig.new.set) result }
{
    while land_next(alloc, pool, rig, by)?.is_some() {}
    Ok(())
}

/// Makes turns of the walk until none is left, or the next one is refused; why it stopped. One that was refused as full at
/// once has pieces that wait. Fails only for want of memory.
fn walk_on(pool: &mut Pool, by: u8) -> Result<Stop, BayFault>
    requires up { IsUp pool.old }
    requires runs { IsWalking pool.old.core.scan.run }
    requires landed { pool.old.core.scan.flight ≡ [] }
    ensures walks { OnOk result (WalksAlone pool.new.core) }
    ensures walked { IfOk result (λ stop. stop ≡ Stop.Over → (pool.new.core.scan.run.at ≡ Nowhere) × (pool.new.core.scan.run.todo ≡ [])) }
    ensures fewer { IfOk result (λ stop. stop ≡ Stop.Full → walk_left pool.new.core < finish_left pool.old.core) }
    ensures due { IfOk result (λ stop. stop ≡ Stop.Due → is_due pool.new.core.state.applied pool.new.core.scan ≡ true) }
    ensures time { OnOk result (IsTimedAs pool.old.core pool.new.core) }
    ensures up { OnOk result (IsUp pool.new) }
    ensures phase { IfOk result (λ stop. (r : Round) → MayGo r (phase_at pool.old.history) → MayHold r (is_over stop) (phase_at pool.new.history)) }
    ensures goes_on { OnOk result (WentAlone pool.old pool.new []) }
    ensures memory { OnErr result (result ≡ Err BayFault.Memory) }
    ensures passes { PassesAlone pool.old pool.new result }
{
    pool.facts();
    loop {
        match turn(pool, by)? {
            Turned::Made => {}
            Turned::Nothing => return Ok(Stop::Over),
            Turned::Full => return Ok(Stop::Full),
            Turned::Due => return Ok(Stop::Due),
        }
    }
}

/// Takes a batch of what waits and checks it; whether any waited.
fn check_next<C: Children>(
    alloc: Global,
    pool: &mut Pool,
    rig: &mut Rig<C>,
    by: u8,
) -> Result<bool, BayFault>
    requires up { IsUp pool.old }
    requires devices { AreDevicesOf pool.old.core.shape (C.count rig.old.set) (C.device rig.old.set) }
    ensures fewer { IfOk result (λ some. some ≡ true → length pool.new.core.scan.waiting < length pool.old.core.scan.waiting) }
    ensures none { IfOk result (λ some. some ≡ false → pool.new.core.scan.waiting ≡ []) }
    ensures still { OnOk result (StandsStill pool.old.core pool.new.core) }
    ensures up { OnOk result (IsUp pool.new) }
    ensures phase { IfOk result (λ some. (r : Round) (over : Bool) → MayHold r over (phase_at pool.old.history)
        → phase_at pool.new.history ≡ checked_to r over some) }
    ensures goes_on { OnOk result (Went pool.old pool.new (journals (C.device rig.old.set)) (journals (C.device rig.new.set)) []) }
    ensures passes { Passes pool.old pool.new (journals (C.device rig.old.set)) (journals (C.device rig.new.set)) result }
    ensures calls { Calls (C.count rig.old.set) (C.count rig.new.set) (C.device rig.old.set) (C.device rig.new.set) result }
{
    pool.facts();
    let batch = pool.hold(by, 0, BATCH)?;
    if batch.items.len() == 0 {
        return Ok(false);
    }
    judge(alloc, pool, rig, by, &batch)?;
    Ok(true)
}

/// Checks all that waits, a batch at a time.
fn check_waiting<C: Children>(
    alloc: Global,
    pool: &mut Pool,
    rig: &mut Rig<C>,
    by: u8,
) -> Result<(), BayFault>
    requires up { IsUp pool.old }
    requires devices { AreDevicesOf pool.old.core.shape (C.count rig.old.set) (C.device rig.old.set) }
    ensures all { OnOk result (pool.new.core.scan.waiting ≡ []) }
    ensures still { OnOk result (StandsStill pool.old.core pool.new.core) }
    ensures up { OnOk result (IsUp pool.new) }
    ensures phase { OnOk result ((r : Round) (over : Bool) → MayHold r over (phase_at pool.old.history)
        → phase_at pool.new.history ≡ in_round r (drained over 1)) }
    ensures goes_on { OnOk result (Went pool.old pool.new (journals (C.device rig.old.set)) (journals (C.device rig.new.set)) []) }
    ensures passes { Passes pool.old pool.new (journals (C.device rig.old.set)) (journals (C.device rig.new.set)) result }
    ensures calls { Calls (C.count rig.old.set) (C.count rig.new.set) (C.device rig.old.set) (C.device rig.new.set) result }
{
    while check_next(alloc, pool, rig, by)? {}
    Ok(())
}

/// Walks on as far as it goes, and then checks all that waits; why the walk stopped.
fn walk_and_check<C: Children>(
    alloc: Global,
    pool: &mut Pool,
    rig: &mut Rig<C>,
    by: u8,
) -> Result<Stop, BayFault>
    requires up { IsUp pool.old }
    requires runs { IsWalking pool.old.core.scan.run }
    requires landed { pool.old.core.scan.flight ≡ [] }
    requires devices { AreDevicesOf pool.old.core.shape (C.count rig.old.set) (C.device rig.old.set) }
    ensures walks { OnOk result (WalksAlone pool.new.core) }
    ensures complete { IfOk result (λ stop. stop ≡ Stop.Over → IsComplete pool.new.core.scan) }
    ensures drained { OnOk result (IsDrained pool.new.core.scan) }
    ensures fewer { IfOk result (λ stop. stop ≡ Stop.Full → finish_left pool.new.core < finish_left pool.old.core) }
    ensures due { IfOk result (λ stop. stop ≡ Stop.Due → is_due pool.new.core.state.applied pool.new.core.scan ≡ true) }
    ensures time { OnOk result (IsTimedAs pool.old.core pool.new.core) }
    ensures up { OnOk result (IsUp pool.new) }
    ensures phase { IfOk result (λ stop. (r : Round) → MayGo r (phase_at pool.old.history)
        → phase_at pool.new.history ≡ in_round r (drained (is_over stop) 1)) }
    ensures goes_on { OnOk result (Went pool.old pool.new (journals (C.device rig.old.set)) (journals (C.device rig.new.set)) []) }
    ensures passes { Passes pool.old pool.new (journals (C.device rig.old.set)) (journals (C.device rig.new.set)) result }
    ensures calls { Calls (C.count rig.old.set) (C.count rig.new.set) (C.device rig.old.set) (C.device rig.new.set) result }
{
    let stop = walk_on(pool, by)?;
    check_waiting(alloc, pool, rig, by)?;
    Ok(stop)
}

/// Walks and checks until the scan is complete, or a checkpoint is due; whether it is complete.
fn complete<C: Children>(
    alloc: Global,
    pool: &mut Pool,
    rig: &mut Rig<C>,
    by: u8,
) -> Result<bool, BayFault>
    requires up { IsUp pool.old }
    requires runs { IsWalking pool.old.core.scan.run }
    requires landed { pool.old.core.scan.flight ≡ [] }
    requires devices { AreDevicesOf pool.old.core.shape (C.count rig.old.set) (C.device rig.old.set) }
    ensures complete { IfOk result (λ over. over ≡ true → IsComplete pool.new.core.scan) }
    ensures drained { OnOk result (IsDrained pool.new.core.scan) }
    ensures due { IfOk result (λ over. over ≡ false → is_due pool.new.core.state.applied pool.new.core.scan ≡ true) }
    ensures runs { OnOk result (IsWalking pool.new.core.scan.run) }
    ensures time { OnOk result (IsTimedAs pool.old.core pool.new.core) }
    ensures up { OnOk result (IsUp pool.new) }
    ensures phase { IfOk result (λ over. (r : Round) → MayGo r (phase_at pool.old.history)
        → phase_at pool.new.history ≡ in_round r (drained over 1)) }
    ensures goes_on { OnOk result (Went pool.old pool.new (journals (C.device rig.old.set)) (journals (C.device rig.new.set)) []) }
    ensures passes { Passes pool.old pool.new (journals (C.device rig.old.set)) (journals (C.device rig.new.set)) result }
    ensures calls { Calls (C.count rig.old.set) (C.count rig.new.set) (C.device rig.old.set) (C.device rig.new.set) result }
{
    loop {
        match walk_and_check(alloc, pool, rig, by)? {
            Stop::Over => return Ok(true),
            Stop::Due => return Ok(false),
            Stop::Full => {}
        }
    }
}

/// Whether a scan is at work: it is running and not paused.
fn is_at_work(pool: &Pool) -> bool
    requires up { IsUp pool.now }
    ensures { result ≡ is_at_work pool.now.core.state.scan }
{
    pool.is_scanning() && !pool.is_paused()
}

/// Brings the scan to its end: checks all that it is to check, and commits. Where a checkpoint was due on the way, or a task
/// started another scan, it does so once more, and no checkpoint is due on that way.
fn end_scan<C: Children>(
    alloc: Global,
    pool: &mut Pool,
    rig: &mut Rig<C>,
    by: u8,
) -> Result<(), BayFault>
    requires ready { IsReady pool.old }
    requires runs { IsWalking pool.old.core.scan.run }
    requires devices { AreDevicesOf pool.old.core.shape (C.count rig.old.set) (C.device rig.old.set) }
    ensures ends { OnOk result ((is_at_work pool.new.core.state.scan ≡ false) ⊎ (pool.new.core.state.open_txg.txg ≡ TXG_END)) }
    ensures up { OnOk result (IsUp pool.new) }
    ensures through { OnOk result (is_through (phase_at pool.new.history) ≡ true) }
    ensures goes_on { OnOk result (Went pool.old pool.new (journals (C.device rig.old.set)) (journals (C.device rig.new.set)) []) }
    ensures stops { StopsLine pool.old pool.new (journals (C.device rig.old.set)) (journals (C.device rig.new.set)) result }
    ensures calls { Calls (C.count rig.old.set) (C.count rig.new.set) (C.device rig.old.set) (C.device rig.new.set) result }
{
    land_flights(alloc, pool, rig, by)?;
    complete(alloc, pool, rig, by)?;
    let made = sync(pool, rig)?;
    if !made {
        return Ok(());
    }
    if !is_at_work(pool) {
        return Ok(());
    }
    complete(alloc, pool, rig, by)?;
    sync(pool, rig)?;
    Ok(())
}

/// Brings the scan to its end, as a line.
pub fn finish<C: Children>(
    alloc: Global,
    pool: &mut Pool,
    rig: &mut Rig<C>,
    by: u8,
) -> Result<(), BayFault>
    requires ready { IsReady pool.old }
    requires devices { AreDevicesOf pool.old.core.shape (C.count rig.old.set) (C.device rig.old.set) }
    ensures ready { OnOk result (IsReady pool.new) }
    ensures goes_on { OnOk result (Went pool.old pool.new (journals (C.device rig.old.set)) (journals (C.device rig.new.set)) (Command.Finish ∷ [])) }
    ensures stops { StopsLine pool.old pool.new (journals (C.device rig.old.set)) (journals (C.device rig.new.set)) result }
    ensures calls { Calls (C.count rig.old.set) (C.count rig.new.set) (C.device rig.old.set) (C.device rig.new.set) result }
{
    if let Some(why) = refusal(pool) {
        return end_line(pool, by, &Command::Finish, Reply::Refused(why));
    }
    end_scan(alloc, pool, rig, by)?;
    end_line(pool, by, &Command::Finish, Reply::Nothing)
}

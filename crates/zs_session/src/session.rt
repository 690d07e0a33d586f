//! Sessions: the lines of a script over the images that were fetched, one after another, with each reply put before
//! the next line is run.

ghost use Rattle.std.specs.Prelude.{◌≡◌, ◌≢◌, ◌≤◌, ◌++◌, ◌∷◌, [], ◌⊎◌, ℕ, List, Option, None, Some, false, All, length, map, option_map, OnOk, OnErr, IfOk, IsErrOf, Err};
ghost use Rattle.zs_machine.specs.History.{text_of};
ghost use Rattle.zs_script.specs.Texts.{reply_text};
ghost use Rattle.zs_script.specs.Lines.{IsFirst, IsLater, IsScript};
ghost use Rattle.zs_session.specs.Devices.{AreDevicesOf, journals};
ghost use Rattle.zs_session.specs.Ending.{code, IsSessionStatus, CountFaults, KeepsLanes, KeepsPool, RunsOn, RunsAll, UsesImages, RefusesImages, CountsCalls, CountsSink};
ghost use Rattle.zs_session.specs.Images.{AreNew, TestCalls, of_each, views_of};
ghost use Rattle.zs_session.specs.Plays.{Went, IsMade};
ghost use Rattle.zs_session.specs.Making.{MakesPool};
ghost use Rattle.zs_session.specs.Puts.{Puts, PutsPart, PutsLine, PutsLines, PutsLast, refused_line};
ghost use Rattle.zs_session.specs.Runs.{EndsInSession, PutsHistory};
ghost use Rattle.zs_session.specs.Session.{IsReady, HaltsPart, commands_in, LineCalls, HasSinkReason, IsFitFor, IsUnfitFor};

use crate::end::End;
use crate::finishing::commit;
use crate::images::{ImageFault, test_images};
use crate::lines::run_line;
use crate::rig::Rig;
use crate::stop::Stop;
use crate::write::NO_CALLS;
use std::alloc::{AllocError, Global};
use zs_core::{Event, Pool, Shape, Stage};
use zs_ids::Seq;
use zs_io::{BayFault, Device, Sink};
use zs_lane::{Children, Lane};
use zs_mirror::Buffers;
use zs_script::{Command, Line, Refusal, Reply, text};

/// A pool and its devices.
#[derive(Drop)]
pub struct Session<D: Device + Drop> {
    /// The pool.
    pub pool: Pool,
    /// Its devices, each in a lane with a journal of its calls.
    pub lanes: Vec<Lane<D>>,
}

/// How a session ended.
#[derive(Drop)]
pub struct Ended<D: Device + Drop> {
    /// The status with which the program ends, 0 to 7.
    pub status: u8,
    /// The session; none where no pool was made.
    pub session: Option<Session<D>>,
    /// Where there is no session, the lanes of the images that were had; else none.
    pub lanes: Vec<Lane<D>>,
}

/// Puts the text of an event's reply, if it has one.
fn put_event<K: Sink>(alloc: Global, event: &Event, out: &mut K) -> Result<(), Stop>
    ensures told { OnOk result (K.told out.new ≡ option_map (λ bytes. bytes ++ reply_text event.now.by event.now.reply) (K.told out.old)) }
    ensures part { OnErr result (PutsPart (reply_text event.now.by event.now.reply) (K.told out.old) (K.told out.new)) }
    ensures cause { HasSinkReason (K.faults out.old) (K.faults out.new) result }
{
    let Ok(bytes) = text(alloc, event.by, &event.reply) else {
        return Err(Stop::Memory);
    };
    if bytes.is_empty() {
        return Ok(());
    }
    match out.put(bytes.as_slice()) {
        Ok(()) => Ok(()),
        Err(_) => Err(Stop::Sink),
    }
}

/// Puts the texts of some events' replies.
fn put_events<K: Sink>(alloc: Global, events: &[Event], out: &mut K) -> Result<(), Stop>
    ensures told { OnOk result (K.told out.new ≡ option_map (λ bytes. bytes ++ text_of events.now) (K.told out.old)) }
    ensures part { OnErr result (PutsPart (text_of events.now) (K.told out.old) (K.told out.new)) }
    ensures cause { HasSinkReason (K.faults out.old) (K.faults out.new) result }
{
    for event in events {
        match put_event(alloc, event, out) {
            Ok(()) => {}
            Err(stop) => return Err(stop),
        }
    }
    Ok(())
}

/// Runs a line and puts its reply; where a device stops it, what it replied before.
fn take_line<C: Children, K: Sink>(
    alloc: Global,
    pool: &mut Pool,
    rig: &mut Rig<C>,
    line: &Line,
    out: &mut K,
) -> Result<(), Stop>
    requires later { IsLater line.now.command }
    requires ready { IsReady pool.old }
    requires devices { AreDevicesOf pool.old.core.shape (C.count rig.old.set) (C.device rig.old.set) }
    ensures ready { OnOk result (IsReady pool.new) }
    ensures goes_on { OnOk result (Went pool.old pool.new (journals (C.device rig.old.set)) (journals (C.device rig.new.set)) (line.now.command ∷ [])) }
    ensures went_on { OnErr result
        (HaltsPart pool.old pool.new (journals (C.device rig.old.set)) (journals (C.device rig.new.set)) (line.now.command ∷ [])) }
    ensures text { PutsLine (text_of pool.old.history) (text_of pool.new.history) (K.told out.old) (K.told out.new) result }
    ensures calls { LineCalls (C.count rig.old.set) (C.count rig.new.set) (C.device rig.old.set) (C.device rig.new.set)
        (K.faults out.old) (K.faults out.new) result }
{
    pool.facts();
    let before = pool.history().len();
    match run_line(alloc, pool, rig, line) {
        Ok(()) => {}
        Err(BayFault::Failed) => {
            pool.facts();
            return match put_events(alloc, &pool.history()[before..], out) {
                Ok(()) => Err(Stop::Device),
                Err(stop) => Err(stop),
            };
        }
        Err(BayFault::Memory) => return Err(Stop::Memory),
    }
    pool.facts();
    match put_events(alloc, &pool.history()[before..], out) {
        Ok(()) => Ok(()),
        Err(stop) => Err(stop),
    }
}

/// Puts what a pool has replied so far, and runs lines with it.
fn run_lines<C: Children, K: Sink>(
    alloc: Global,
    pool: &mut Pool,
    rig: &mut Rig<C>,
    lines: &[Line],
    out: &mut K,
) -> Result<(), Stop>
    requires later { All (λ line. IsLater line.command) lines.now }
    requires ready { IsReady pool.old }
    requires devices { AreDevicesOf pool.old.core.shape (C.count rig.old.set) (C.device rig.old.set) }
    ensures ready { OnOk result (IsReady pool.new) }
    ensures goes_on { OnOk result (Went pool.old pool.new (journals (C.device rig.old.set)) (journals (C.device rig.new.set)) (commands_in lines.now)) }
    ensures went_on { OnErr result
        (HaltsPart pool.old pool.new (journals (C.device rig.old.set)) (journals (C.device rig.new.set)) (commands_in lines.now)) }
    ensures text { PutsLines (text_of pool.new.history) (K.told out.old) (K.told out.new) result }
    ensures calls { LineCalls (C.count rig.old.set) (C.count rig.new.set) (C.device rig.old.set) (C.device rig.new.set)
        (K.faults out.old) (K.faults out.new) result }
{
    pool.facts();
    match put_events(alloc, pool.history(), out) {
        Ok(()) => {}
        Err(stop) => return Err(stop),
    }
    for line in lines {
        match take_line(alloc, pool, rig, line, out) {
            Ok(()) => {}
            Err(stop) => return Err(stop),
        }
    }
    Ok(())
}

/// Commits a pool that was made, and runs lines with it.
fn run_pool<C: Children, K: Sink>(
    alloc: Global,
    pool: &mut Pool,
    rig: &mut Rig<C>,
    lines: &[Line],
    out: &mut K,
) -> Result<(), Stop>
    requires later { All (λ line. IsLater line.command) lines.now }
    requires made { IsMade pool.old }
    requires devices { AreDevicesOf pool.old.core.shape (C.count rig.old.set) (C.device rig.old.set) }
    ensures ready { OnOk result (IsReady pool.new) }
    ensures goes_on { OnOk result (Went pool.old pool.new (journals (C.device rig.old.set)) (journals (C.device rig.new.set)) (commands_in lines.now)) }
    ensures went_on { OnErr result
        (HaltsPart pool.old pool.new (journals (C.device rig.old.set)) (journals (C.device rig.new.set)) (commands_in lines.now)) }
    ensures text { PutsLines (text_of pool.new.history) (K.told out.old) (K.told out.new) result }
    ensures calls { LineCalls (C.count rig.old.set) (C.count rig.new.set) (C.device rig.old.set) (C.device rig.new.set)
        (K.faults out.old) (K.faults out.new) result }
{
    pool.facts();
    let Ok(()) = commit(pool, &NO_CALLS) else {
        return Err(Stop::Memory);
    };
    match run_lines(alloc, pool, rig, lines, out) {
        Ok(()) => Ok(()),
        Err(stop) => Err(stop),
    }
}

/// Makes the pool of a `pool` line, if the images fit it.
fn make_pool<D: Device>(
    alloc: Global,
    command: &Command,
    lanes: &mut Vec<Lane<D>>,
) -> Result<Pool, ImageFault>
    requires first { IsFirst command.now }
    ensures pool { IfOk result (λ pool. MakesPool D.Device command.now lanes.new.items pool) }
    ensures fit { OnOk result (IsFitFor command.now (of_each D.size lanes.old.items) (of_each D.told lanes.old.items)) }
    ensures unfit { (fault : Refusal) → IsErrOf result (ImageFault.Unfit fault) →
        IsUnfitFor command.now (of_each D.size lanes.old.items) (of_each D.told lanes.old.items) fault }
    ensures calls { TestCalls D.Device lanes.old.items lanes.new.items result }
{
    let Command::Pool {
        pool,
        width,
        limit,
        every,
        blocks,
    } = command
    else {
        unreachable!()
    };
    let sectors = match test_images(alloc, lanes, *width, *blocks) {
        Ok(sectors) => Seq::from_vec(sectors),
        Err(fault) => return Err(fault),
    };
    let shape = Shape {
        pool: *pool,
        devices: *width,
        width: *width,
        blocks: *blocks,
        limit: *limit,
        every: *every,
        sectors,
    };
    let Ok(pool) = Pool::blank(alloc, shape) else {
        return Err(ImageFault::Memory);
    };
    Ok(pool)
}

impl<D: Device + Drop> Ended<D> {
    /// With a session.
    fn with(end: End, session: Session<D>, alloc: Global) -> Self
        ensures status { result.status ≡ code end }
        ensures session { result.session ≡ Some session }
    {
        Ended {
            status: end.code(),
            session: Some(session),
            lanes: Vec::new(alloc),
        }
    }

    /// Without a session.
    pub fn without(end: End, lanes: Vec<Lane<D>>) -> Self
        ensures status { result.status ≡ code end }
        ensures session { result.session ≡ None }
        ensures lanes { result.lanes.items ≡ lanes.items }
    {
        Ended {
            status: end.code(),
            session: None,
            lanes,
        }
    }
}

/// Puts the one line with which a program ends that made no pool. Where it can't be put, the status is 6.
#[tactic(auto, using(crate::proofs::Texts::part_all))]
pub fn end_with<D: Device + Drop, K: Sink>(
    end: End,
    line: &[u8],
    lanes: Vec<Lane<D>>,
    out: &mut K,
) -> Ended<D>
    requires { end ≢ End.Sink }
    ensures status { (result.status ≡ code end) ⊎ (result.status ≡ 6) }
    ensures session { result.session ≡ None }
    ensures lanes { result.lanes.items ≡ lanes.items }
    ensures whole { result.status ≢ 6 → Puts line.now (K.told out.old) (K.told out.new) }
    ensures part { PutsPart line.now (K.told out.old) (K.told out.new) }
    ensures sink { CountsSink result.status (K.faults out.old) (K.faults out.new) }
{
    match out.put(line) {
        Ok(()) => Ended::without(end, lanes),
        Err(_) => Ended::without(End::Sink, lanes),
    }
}

/// Runs the lines of a script over the lanes of images that were fetched: the first makes the pool.
pub fn step_session<D: Device + Drop, K: Sink>(
    alloc: Global,
    lines: &[Line],
    lanes: Vec<Lane<D>>,
    out: &mut K,
) -> Ended<D>
    requires script { IsScript lines.now }
    requires new { AreNew D.faults lanes.items }
    ensures status { IsSessionStatus result.status }
    ensures session { EndsInSession result }
    ensures text { PutsHistory (K.told out.old) (K.told out.new) result }
    ensures lines { RunsAll lines.now result }
    ensures images { UsesImages lines.now D.size D.told lanes.items result }
    ensures refused { RefusesImages lines.now D.size D.told D.faults (K.told out.old) (K.told out.new) result }
    ensures devices { CountsCalls D.faults result }
    ensures sink { CountsSink result.status (K.faults out.old) (K.faults out.new) }
{
    let mut lanes = lanes;
    let Some((first, others)) = lines.split_first() else {
        unreachable!()
    };
    match make_pool(alloc, &first.command, &mut lanes) {
        Ok(pool) => run_session(alloc, Session { pool, lanes }, others, out),
        Err(ImageFault::Unfit(refusal)) => refuse(alloc, refusal, End::Unfit, lanes, out),
        Err(ImageFault::Unread) => refuse(alloc, Refusal::NotBlank, End::Device, lanes, out),
        Err(ImageFault::Memory) => Ended::without(End::Memory, lanes),
    }
}

/// The line that tells why a pool is refused.
#[tactic(auto, using(crate::proofs::Refusals::refused_is))]
fn refusal_text(alloc: Global, refusal: Refusal) -> Result<Vec<u8>, AllocError>
    ensures { IfOk result (λ line. line.items ≡ refused_line refusal) }
{
    text(alloc, 0, &Reply::Refused(refusal))
}

/// Puts why a pool is refused.
fn refuse<D: Device + Drop, K: Sink>(
    alloc: Global,
    refusal: Refusal,
    end: End,
    lanes: Vec<Lane<D>>,
    out: &mut K,
) -> Ended<D>
    requires { (end ≡ End.Unfit) ⊎ (end ≡ End.Device) }
    ensures status { (result.status ≡ code end) ⊎ ((result.status ≡ 6) ⊎ (result.status ≡ 7)) }
    ensures session { result.session ≡ None }
    ensures lanes { result.lanes.items ≡ lanes.items }
    ensures text { PutsLast (refused_line refusal) result.status (K.told out.old) (K.told out.new) }
    ensures sink { CountsSink result.status (K.faults out.old) (K.faults out.new) }
{
    let Ok(line) = refusal_text(alloc, refusal) else {
        return Ended::without(End::Memory, lanes);
    };
    end_with(end, line.as_slice(), lanes, out)
}

/// Runs the lines behind the first with the pool that it made.
fn run_session<D: Device + Drop, K: Sink>(
    alloc: Global,
    session: Session<D>,
    lines: &[Line],
    out: &mut K,
) -> Ended<D>
    requires later { All (λ line. IsLater line.command) lines.now }
    requires made { IsMade session.pool }
    requires devices { AreDevicesOf session.pool.core.shape (length session.lanes.items) (views_of D.Device session.lanes.items) }
    requires counted { CountFaults D.faults session.lanes.items }
    ensures pool { KeepsPool result }
    ensures session { EndsInSession result }
    ensures text { PutsHistory (K.told out.old) (K.told out.new) result }
    ensures lines { RunsOn session lines.now result }
    ensures lanes { KeepsLanes D.size D.told session.lanes.items result }
    ensures devices { CountsCalls D.faults result }
    ensures sink { CountsSink result.status (K.faults out.old) (K.faults out.new) }
{
    let Session { mut pool, lanes } = session;
    pool.facts();
    let Ok(buffers) = Buffers::new(alloc) else {
        return Ended::with(End::Memory, Session { pool, lanes }, alloc);
    };
    let mut rig = Rig {
        set: lanes,
        buffers,
    };
    let outcome = run_pool(alloc, &mut pool, &mut rig, lines, out);
    pool.facts();
    let Rig {
        set: lanes,
        buffers: _buffers,
    } = rig;
    match outcome {
        Ok(()) => Ended::with(End::Done, Session { pool, lanes }, alloc),
        Err(Stop::Device) => Ended::with(End::Device, Session { pool, lanes }, alloc),
        Err(Stop::Sink) => Ended::with(End::Sink, Session { pool, lanes }, alloc),
        Err(Stop::Memory) => Ended::with(End::Memory, Session { pool, lanes }, alloc),
    }
}

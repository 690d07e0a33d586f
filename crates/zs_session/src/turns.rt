//! Turns of the walk, and the line that makes some of them.

ghost use Rattle.std.specs.Prelude.{◌≡◌, ◌≢◌, ◌≤◌, ◌<◌, ◌∷◌, [], OnOk, OnErr, IfOk, Ok, Err};
ghost use Rattle.zs_core.specs.Line.{IsWhy, waiting_counts};
ghost use Rattle.zs_machine.specs.Told.{AreTurns, line_steps};
ghost use Rattle.zs_session.specs.Session.{IsUp, IsReady, PassesAlone, WantsMemory};
ghost use Rattle.zs_session.specs.Plays.{WentAlone};
ghost use Rattle.zs_session.specs.Finish.{TurnsTo};
ghost use Rattle.zs_session.specs.Turns.{CountsTurn, FindsTurn, LeavesFlight};

use crate::lines::end_line;
use std::alloc::{AllocError, Global};
use zs_core::Pool;
use zs_ids::Seq;
use zs_io::BayFault;
use zs_scan::{Scan, ScanFault, Turn};
use zs_script::{Command, Reply, WalkEnd};

/// What came of a turn of the walk.
#[derive(Clone, Copy, Debug, PartialEq, Eq)]
pub enum Turned {
    /// It was made.
    Made,
    /// There was nothing to walk.
    Nothing,
    /// It would put a piece, and as many wait as may.
    Full,
    /// A checkpoint is due.
    Due,
}

/// Why a walk that was to go on stopped.
#[derive(Clone, Copy, Debug, PartialEq, Eq)]
pub enum Stop {
    /// Nothing is left to walk.
    Over,
    /// The next turn would put a piece, and as many wait as may.
    Full,
    /// A checkpoint is due.
    Due,
}

/// Whether a turn found something to walk.
fn outcome_of(turn: Turn) -> Turned
    ensures made { result ≡ Turned.Made → turn ≢ Turn.Nothing }
    ensures none { result ≢ Turned.Made → turn ≡ Turn.Nothing }
    ensures refused { (result ≢ Turned.Full) × (result ≢ Turned.Due) }
{
    match turn {
        Turn::Nothing => Turned::Nothing,
        Turn::Skip | Turn::Enter | Turn::At | Turn::End => Turned::Made,
    }
}

/// Makes a turn of the walk. Fails only for want of memory.
pub fn turn(pool: &mut Pool, by: u8) -> Result<Turned, BayFault>
    requires up { IsUp pool.old }
    ensures up { OnOk result (IsUp pool.new) }
    ensures goes_on { OnOk result (WentAlone pool.old pool.new []) }
    ensures counts { CountsTurn (line_steps pool.old.history) (line_steps pool.new.history) result }
    ensures scan { OnOk result (LeavesFlight pool.old.core pool.new.core) }
    ensures finds { FindsTurn pool.old.core pool.new.core result }
    ensures phase { IfOk result (λ turned. TurnsTo turned pool.old.history pool.new.history) }
    ensures memory { OnErr result (result ≡ Err BayFault.Memory) }
    ensures passes { PassesAlone pool.old pool.new result }
{
    match pool.walk(by) {
        Ok(turn) => Ok(outcome_of(turn)),
        Err(ScanFault::Full) => Ok(Turned::Full),
        Err(ScanFault::Draining) => Ok(Turned::Due),
        Err(
            ScanFault::Memory
            | ScanFault::ScanBusy
            | ScanFault::NoScan
            | ScanFault::Paused
            | ScanFault::NotPaused,
        ) => Err(BayFault::Memory),
    }
}

/// Makes turns of the walk until so many were made, none is left or the next one is refused. Fails only for want
/// of memory.
fn make_turns(pool: &mut Pool, by: u8, most: u32) -> Result<(u32, WalkEnd), BayFault>
    requires ready { IsReady pool.old }
    ensures up { OnOk result (IsUp pool.new) }
    ensures goes_on { OnOk result (WentAlone pool.old pool.new []) }
    ensures made { IfOk result (λ walked. AreTurns (line_steps pool.new.history) walked.0) }
    ensures few { IfOk result (λ walked. walked.0 ≤ most) }
    ensures why { IfOk result (λ walked. IsWhy pool.new.core most walked.0 walked.1) }
    ensures stops { WantsMemory pool.old pool.new result }
{
    for made in 0..most {
        match turn(pool, by)? {
            Turned::Made => {}
            Turned::Nothing => return Ok((made, WalkEnd::Nothing)),
            Turned::Full => return Ok((made, WalkEnd::Full)),
            Turned::Due => return Ok((made, WalkEnd::Draining)),
        }
    }
    Ok((most, WalkEnd::More))
}

/// How many pieces wait, for each mirror: there is one.
fn waiting_counts(alloc: Global, scan: &Scan) -> Result<Seq<u32>, AllocError>
    ensures { IfOk result (λ counts. counts ≡ waiting_counts scan.now) }
{
    let counts = Vec::from_array(alloc, [scan.waiting_of(0)])?;
    Ok(Seq::from_vec(counts))
}

/// Makes at most so many turns of the walk, as a line. Fails only for want of memory.
pub fn walk(alloc: Global, pool: &mut Pool, by: u8, turns: u32) -> Result<(), BayFault>
    requires ready { IsReady pool.old }
    ensures ready { OnOk result (IsReady pool.new) }
    ensures goes_on { OnOk result (WentAlone pool.old pool.new (Command.Walk turns ∷ [])) }
    ensures stops { WantsMemory pool.old pool.new result }
{
    let (made, why) = make_turns(pool, by, turns)?;
    let Ok(waiting) = waiting_counts(alloc, pool.scan()) else {
        return Err(BayFault::Memory);
    };
    let reply = Reply::Walked {
        turns: made,
        why,
        waiting,
    };
    end_line(pool, by, &Command::Walk { turns }, reply)
}

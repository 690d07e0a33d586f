//! Batches in flight, which are checked in the order in which they were taken, and the line that does so.

ghost use Rattle.std.specs.Prelude.{◌≡◌, ◌≤◌, ◌<◌, ◌+◌, ◌++◌, ◌∷◌, [], ℕ, List, None, Some, Ok, true, false, length, map, find, option_map, OnOk, OnErr, IfOk, IfSome, Err};
ghost use Rattle.zs_ids.specs.Graph.{Has};
ghost use Rattle.zs_machine.specs.declared.event.Event.{Event};
ghost use Rattle.zs_scan.specs.Flight.{first_of};
ghost use Rattle.zs_ids.specs.Piece.{is_piece};
ghost use Rattle.zs_machine.specs.History.{text_of};
ghost use Rattle.zs_machine.specs.Told.{letter_of, landed_of, shown_by};
ghost use Rattle.zs_session.specs.Devices.{Calls, AreDevicesOf, journals};
ghost use Rattle.zs_session.specs.Session.{IsUp, IsReady, Passes, StopsLine};
ghost use Rattle.zs_session.specs.Plays.{Went};
ghost use Rattle.zs_session.specs.Batches.{LandsNext, HasLanded, GoesOnScanning};

use crate::batches::{entries_of, judge};
use crate::lines::end_line;
use crate::rig::Rig;
use std::alloc::{AllocError, Global};
use zs_core::{Event, Pool, Step};
use zs_ids::{Piece, Seq};
use zs_io::BayFault;
use zs_lane::Children;
use zs_ledger::Entry;
use zs_machine::letters_of;
use zs_scan::{Batch, Scan};
use zs_script::{Command, LandedPiece, Letter, Reply};

/// The batch that was taken first of those in flight, if one is in flight.
fn first_batch(alloc: Global, scan: &Scan) -> Result<Option<Batch>, AllocError>
    ensures { IfOk result (λ first. first ≡ first_of scan.now.flight) }
{
    let Some(batch) = scan.first_in_flight() else {
        return Ok(None);
    };
    let items = Seq::from_slice(alloc, batch.items.as_slice())?;
    Ok(Some(Batch {
        number: batch.number,
        vdev: batch.vdev,
        online: batch.online,
        items,
    }))
}

/// Checks the batch that was taken first of those in flight, where one is; how many entries were made.
pub fn land_next<C: Children>(
    alloc: Global,
    pool: &mut Pool,
    rig: &mut Rig<C>,
    by: u8,
) -> Result<Option<usize>, BayFault>
    requires up { IsUp pool.old }
    requires devices { AreDevicesOf pool.old.core.shape (C.count rig.old.set) (C.device rig.old.set) }
    ensures next { LandsNext by pool.old pool.new result }
    ensures goes_on { OnOk result (Went pool.old pool.new (journals (C.device rig.old.set)) (journals (C.device rig.new.set)) []) }
    ensures silent { text_of pool.new.history ≡ text_of pool.old.history }
    ensures scan { OnOk result (GoesOnScanning pool.old.core pool.new.core) }
    ensures up { OnOk result (IsUp pool.new) }
    ensures err { OnErr result (pool.new ≡ pool.old) }
    ensures memory { OnErr result (result ≡ Err BayFault.Memory) }
    ensures calls { Calls (C.count rig.old.set) (C.count rig.new.set) (C.device rig.old.set) (C.device rig.new.set) result }
{
    let Some(batch) = first_batch(alloc, pool.scan())? else {
        return Ok(None);
    };
    Ok(Some(judge(alloc, pool, rig, by, &batch)?))
}

/// Checks the batch that was taken first of those in flight, where one is, and puts what became of its pieces to what was
/// landed before; how many entries were made in all.
fn land_more<C: Children>(
    alloc: Global,
    pool: &mut Pool,
    rig: &mut Rig<C>,
    by: u8,
    made: u32,
    landed: &mut Vec<LandedPiece>,
) -> Result<Option<u32>, BayFault>
    requires up { IsUp pool.old }
    requires landed { HasLanded pool.old made landed.old.items }
    requires devices { AreDevicesOf pool.old.core.shape (C.count rig.old.set) (C.device rig.old.set) }
    ensures none { result ≡ Ok None → (pool.old.core.scan.flight ≡ []) × (pool.new ≡ pool.old) × (landed.new ≡ landed.old) }
    ensures landed { IfOk result (λ next. IfSome next (λ made. HasLanded pool.new made landed.new.items)) }
    ensures fewer { (made : ℕ) → result ≡ Ok (Some made) → length pool.new.core.scan.flight < length pool.old.core.scan.flight }
    ensures up { OnOk result (IsUp pool.new) }
    ensures goes_on { OnOk result (Went pool.old pool.new (journals (C.device rig.old.set)) (journals (C.device rig.new.set)) []) }
    ensures passes { Passes pool.old pool.new (journals (C.device rig.old.set)) (journals (C.device rig.new.set)) result }
    ensures memory { OnErr result (result ≡ Err BayFault.Memory) }
    ensures calls { Calls (C.count rig.old.set) (C.count rig.new.set) (C.device rig.old.set) (C.device rig.new.set) result }
{
    pool.facts();
    let Some(many) = land_next(alloc, pool, rig, by)? else {
        return Ok(None);
    };
    show_last(pool.history(), landed)?;
    if many > (u32::MAX - made) as usize {
        return Err(BayFault::Memory);
    }
    Ok(Some(made + many as u32))
}

/// Puts what became of the pieces of which the last event tells to what was landed before.
fn show_last(events: &[Event], landed: &mut Vec<LandedPiece>) -> Result<(), AllocError>
    ensures { OnOk result ((es : List Event) (e : Event) → events.now ≡ es ++ e ∷ [] → landed.new.items ≡ landed.old.items ++ shown_by e.step) }
{
    let Some(event) = events.last() else {
        return Ok(());
    };
    show(&event.step, landed)
}

/// Puts what became of the pieces of a step to what was landed before.
fn show(step: &Step, landed: &mut Vec<LandedPiece>) -> Result<(), AllocError>
    ensures { OnOk result (landed.new.items ≡ landed.old.items ++ shown_by step.now) }
{
    match step {
        Step::Verdict {
            pieces,
            entries,
            ..
        } => show_each(pieces.get().as_slice(), entries.get().as_slice(), landed),
        _ => Ok(()),
    }
}

/// Puts what became of pieces to what was landed before.
fn show_each(
    pieces: &[Piece],
    entries: &[Entry],
    landed: &mut Vec<LandedPiece>,
) -> Result<(), AllocError>
    ensures { OnOk result (landed.new.items ≡ landed.old.items ++ map (landed_of entries.now) pieces.now) }
{
    for piece in pieces {
        landed.push(landed_of(entries, piece))?;
    }
    Ok(())
}

/// A landed piece, as a reply tells it.
fn landed_of(entries: &[Entry], piece: &Piece) -> LandedPiece
    ensures { result ≡ landed_of entries.now piece.now }
{
    LandedPiece {
        vdev: piece.place.vdev,
        sector: piece.place.sector,
        letters: letters_in(entries, piece),
    }
}

/// The letters of the piece's entry, if it has one.
fn letters_in(entries: &[Entry], piece: &Piece) -> Option<[Option<Letter>; 4]>
    ensures { result ≡ option_map (λ e. map letter_of e.copies) (find (λ e. is_piece piece.now e.piece) entries.now) }
{
    for entry in entries {
        if is_piece(piece, &entry.piece) {
            return Some(letters_of(entry));
        }
    }
    None
}

/// Whether the two are one piece.
fn is_piece(piece: &Piece, other: &Piece) -> bool
    ensures { result ≡ is_piece piece.now other.now }
{
    let (here, there) = (&piece.place, &other.place);
    here.vdev == there.vdev && (here.sector == there.sector && piece.birth == other.birth)
}

/// Checks all batches in flight, in the order in which they were taken, and puts what became of their pieces into the list,
/// which is empty; how many entries were made.
fn land_each<C: Children>(
    alloc: Global,
    pool: &mut Pool,
    rig: &mut Rig<C>,
    by: u8,
    landed: &mut Vec<LandedPiece>,
) -> Result<u32, BayFault>
    requires ready { IsReady pool.old }
    requires empty { landed.old.items ≡ [] }
    requires devices { AreDevicesOf pool.old.core.shape (C.count rig.old.set) (C.device rig.old.set) }
    ensures landed { IfOk result (λ made. HasLanded pool.new made landed.new.items) }
    ensures all { OnOk result (pool.new.core.scan.flight ≡ []) }
    ensures up { OnOk result (IsUp pool.new) }
    ensures goes_on { OnOk result (Went pool.old pool.new (journals (C.device rig.old.set)) (journals (C.device rig.new.set)) []) }
    ensures passes { Passes pool.old pool.new (journals (C.device rig.old.set)) (journals (C.device rig.new.set)) result }
    ensures memory { OnErr result (result ≡ Err BayFault.Memory) }
    ensures calls { Calls (C.count rig.old.set) (C.count rig.new.set) (C.device rig.old.set) (C.device rig.new.set) result }
{
    let mut made = 0;
    loop {
        match land_more(alloc, pool, rig, by, made, landed)? {
            Some(more) => made = more,
            None => return Ok(made),
        }
    }
}

/// Checks all batches in flight, as a line.
pub fn land<C: Children>(
    alloc: Global,
    pool: &mut Pool,
    rig: &mut Rig<C>,
    by: u8,
) -> Result<(), BayFault>
    requires ready { IsReady pool.old }
    requires devices { AreDevicesOf pool.old.core.shape (C.count rig.old.set) (C.device rig.old.set) }
    ensures ready { OnOk result (IsReady pool.new) }
    ensures goes_on { OnOk result (Went pool.old pool.new (journals (C.device rig.old.set)) (journals (C.device rig.new.set)) (Command.Land ∷ [])) }
    ensures stops { StopsLine pool.old pool.new (journals (C.device rig.old.set)) (journals (C.device rig.new.set)) result }
    ensures memory { OnErr result (result ≡ Err BayFault.Memory) }
    ensures calls { Calls (C.count rig.old.set) (C.count rig.new.set) (C.device rig.old.set) (C.device rig.new.set) result }
{
    let mut landed = Vec::new(alloc);
    let entries = land_each(alloc, pool, rig, by, &mut landed)?;
    pool.facts();
    let reply = Reply::Landed {
        entries,
        pieces: Seq::from_vec(landed),
    };
    end_line(pool, by, &Command::Land, reply)
}

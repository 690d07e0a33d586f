//! Batches of pieces: taking one, checking it, and the lines that do so.

ghost use Rattle.std.specs.Prelude.{◌≡◌, Err, ◌≤◌, ◌<◌, ◌++◌, ◌∷◌, [], ℕ, List, true, length, map, OnOk, OnErr, IfOk, slice_index_or};
ghost use Rattle.zs_ids.specs.Graph.{Has};
ghost use Rattle.zs_ledger.specs.Entry.{HaveCopies};
ghost use Rattle.zs_machine.specs.declared.event.Event.{Event};
ghost use Rattle.zs_core.specs.Line.{TookAll};
ghost use Rattle.zs_machine.specs.Told.{issued_of, TellsIssue, line_steps};
ghost use Rattle.zs_session.specs.Devices.{Calls, AreDevicesOf, LiesOn, LieOn, journals};
ghost use Rattle.zs_session.specs.Session.{IsUp, IsReady, Passes, StopsLine, WantsMemory};
ghost use Rattle.zs_session.specs.Plays.{Went, WentAlone, AreChecks, ChecksItem};
ghost use Rattle.zs_session.specs.Batches.{IsTimedAs, HadVerdict, TookLowest, entries_of};

use crate::lines::end_line;
use crate::rig::Rig;
use std::alloc::{AllocError, Global};
use zs_core::{Event, Pool, Step, Verdicts};
use zs_ids::{Item, Seq};
use zs_io::BayFault;
use zs_lane::Children;
use zs_ledger::Entry;
use zs_machine::letters_of;
use zs_mirror::check;
use zs_scan::Batch;
use zs_script::{Command, IssuedPiece, Reply};

/// Checks the items in order, on mirrors of that width and with that mask of online devices, and gives one entry for each.
/// Fails only for want of memory.
fn check_items<C: Children>(
    alloc: Global,
    rig: &mut Rig<C>,
    width: u8,
    online: u32,
    items: &[Item],
) -> Result<Vec<Entry>, BayFault>
    requires lie { LieOn (C.count rig.old.set) width items.now (C.device rig.old.set) }
    ensures checks { IfOk result
        (λ entries. AreChecks width online items.now (journals (C.device rig.old.set)) entries.items (journals (C.device rig.new.set))) }
    ensures copies { IfOk result (λ entries. HaveCopies width entries.items) }
    ensures memory { OnErr result (result ≡ Err BayFault.Memory) }
    ensures calls { Calls (C.count rig.old.set) (C.count rig.new.set) (C.device rig.old.set) (C.device rig.new.set) result }
{
    let mut entries = Vec::new(alloc);
    for item in items {
        entries.push(check_item(rig, width, online, item)?)?;
    }
    Ok(entries)
}

/// Checks an item. Fails only for want of memory.
fn check_item<C: Children>(
    rig: &mut Rig<C>,
    width: u8,
    online: u32,
    item: &Item,
) -> Result<Entry, BayFault>
    requires lies { LiesOn (C.count rig.old.set) width item.now (C.device rig.old.set) }
    ensures checked { IfOk result
        (λ entry. ChecksItem width online item.now entry (journals (C.device rig.old.set)) (journals (C.device rig.new.set))) }
    ensures memory { OnErr result (result ≡ Err BayFault.Memory) }
    ensures calls { Calls (C.count rig.old.set) (C.count rig.new.set) (C.device rig.old.set) (C.device rig.new.set) result }
{
    Ok(check(&mut rig.set, width, online, item, &mut rig.buffers)?)
}

/// Checks a batch in flight and gives the pool its verdict; how many entries were made. Where it fails, the pool is as it
/// was.
pub fn judge<C: Children>(
    alloc: Global,
    pool: &mut Pool,
    rig: &mut Rig<C>,
    by: u8,
    batch: &Batch,
) -> Result<usize, BayFault>
    requires up { IsUp pool.old }
    requires flies { Has pool.old.core.scan.flight batch.now }
    requires devices { AreDevicesOf pool.old.core.shape (C.count rig.old.set) (C.device rig.old.set) }
    ensures goes_on { OnOk result (Went pool.old pool.new (journals (C.device rig.old.set)) (journals (C.device rig.new.set)) []) }
    ensures verdict { IfOk result (λ many. HadVerdict by pool.old batch.now many pool.new) }
    ensures graph { OnOk result (pool.new.core.state.graph ≡ pool.old.core.state.graph) }
    ensures time { OnOk result (IsTimedAs pool.old.core pool.new.core) }
    ensures up { OnOk result (IsUp pool.new) }
    ensures err { OnErr result (pool.new ≡ pool.old) }
    ensures memory { OnErr result (result ≡ Err BayFault.Memory) }
    ensures calls { Calls (C.count rig.old.set) (C.count rig.new.set) (C.device rig.old.set) (C.device rig.new.set) result }
{
    pool.facts();
    let width = pool.shape().width;
    let entries = check_items(alloc, rig, width, batch.online, batch.items.as_slice())?;
    let verdicts = Verdicts {
        number: batch.number,
        entries: Seq::from_vec(entries),
    };
    Ok(pool.verdict(by, &verdicts)?)
}

/// Takes a batch of a mirror's lowest waiting pieces and leaves it in flight, as a line. Fails only for want of memory.
pub fn hold(alloc: Global, pool: &mut Pool, by: u8, vdev: u8, pieces: u32) -> Result<(), BayFault>
    requires ready { IsReady pool.old }
    requires some { 1 ≤ pieces }
    ensures ready { OnOk result (IsReady pool.new) }
    ensures goes_on { OnOk result (WentAlone pool.old pool.new (Command.Hold vdev pieces ∷ [])) }
    ensures batch { OnOk result (TookLowest pool.old pool.new vdev pieces) }
    ensures stops { WantsMemory pool.old pool.new result }
{
    pool.facts();
    let batch = pool.hold(by, vdev, pieces)?;
    let sectors = sectors_of(alloc, batch.items.as_slice())?;
    let reply = Reply::Held { vdev, sectors };
    end_line(pool, by, &Command::Hold { vdev, pieces }, reply)
}

/// The first sectors of the items.
fn sectors_of(alloc: Global, items: &[Item]) -> Result<Seq<u32>, AllocError>
    ensures { IfOk result (λ sectors. sectors ≡ map (λ i. i.piece.place.sector) items.now) }
{
    let sectors = items
        .iter()
        .map(|item| item.piece.place.sector)
        .collect(alloc)?;
    Ok(Seq::from_vec(sectors))
}

/// Takes a batch of a mirror's lowest waiting pieces and checks it, as a line.
pub fn issue<C: Children>(
    alloc: Global,
    pool: &mut Pool,
    rig: &mut Rig<C>,
    by: u8,
    vdev: u8,
    pieces: u32,
) -> Result<(), BayFault>
    requires ready { IsReady pool.old }
    requires some { 1 ≤ pieces }
    requires devices { AreDevicesOf pool.old.core.shape (C.count rig.old.set) (C.device rig.old.set) }
    ensures ready { OnOk result (IsReady pool.new) }
    ensures goes_on { OnOk result
        (Went pool.old pool.new (journals (C.device rig.old.set)) (journals (C.device rig.new.set)) (Command.Issue vdev pieces ∷ [])) }
    ensures batch { OnOk result (TookLowest pool.old pool.new vdev pieces) }
    ensures stops { StopsLine pool.old pool.new (journals (C.device rig.old.set)) (journals (C.device rig.new.set)) result }
    ensures memory { OnErr result (result ≡ Err BayFault.Memory) }
    ensures calls { Calls (C.count rig.old.set) (C.count rig.new.set) (C.device rig.old.set) (C.device rig.new.set) result }
{
    let shown = check_some(alloc, pool, rig, by, vdev, pieces)?;
    let reply = Reply::Issued {
        vdev,
        pieces: shown,
    };
    end_line(pool, by, &Command::Issue { vdev, pieces }, reply)
}

/// Takes a batch of a mirror's lowest waiting pieces and checks it, where any waits; what the checks found.
fn check_some<C: Children>(
    alloc: Global,
    pool: &mut Pool,
    rig: &mut Rig<C>,
    by: u8,
    vdev: u8,
    pieces: u32,
) -> Result<Seq<IssuedPiece>, BayFault>
    requires ready { IsReady pool.old }
    requires some { 1 ≤ pieces }
    requires devices { AreDevicesOf pool.old.core.shape (C.count rig.old.set) (C.device rig.old.set) }
    ensures told { IfOk result (λ shown. TellsIssue (line_steps pool.new.history) vdev pieces shown) }
    ensures all { IfOk result (λ shown. TookAll pool.new.core.scan vdev pieces (length shown)) }
    ensures up { OnOk result (IsUp pool.new) }
    ensures goes_on { OnOk result (Went pool.old pool.new (journals (C.device rig.old.set)) (journals (C.device rig.new.set)) []) }
    ensures batch { OnOk result (TookLowest pool.old pool.new vdev pieces) }
    ensures passes { Passes pool.old pool.new (journals (C.device rig.old.set)) (journals (C.device rig.new.set)) result }
    ensures memory { OnErr result (result ≡ Err BayFault.Memory) }
    ensures calls { Calls (C.count rig.old.set) (C.count rig.new.set) (C.device rig.old.set) (C.device rig.new.set) result }
{
    pool.facts();
    let batch = pool.hold(by, vdev, pieces)?;
    if batch.items.len() == 0 {
        return Ok(Seq::new(alloc));
    }
    judge(alloc, pool, rig, by, &batch)?;
    Ok(issued_last(alloc, pool.history())?)
}

/// What the checks found of which the last event tells.
fn issued_last(alloc: Global, events: &[Event]) -> Result<Seq<IssuedPiece>, AllocError>
    ensures { IfOk result (λ shown. (es : List Event) (e : Event) → events.now ≡ es ++ e ∷ [] → shown ≡ map issued_of (entries_of e.step)) }
{
    match events.last() {
        Some(event) => issued(alloc, entries_of(&event.step)),
        None => Ok(Seq::new(alloc)),
    }
}

/// The entries that a step tells.
pub fn entries_of(step: &Step) -> &[Entry]
    ensures { result.now ≡ entries_of step.now }
{
    match step {
        Step::Verdict { entries, .. } => entries.get().as_slice(),
        _ => &[],
    }
}

/// What the checks found that made these entries.
fn issued(alloc: Global, entries: &[Entry]) -> Result<Seq<IssuedPiece>, AllocError>
    ensures { IfOk result (λ shown. shown ≡ map issued_of entries.now) }
{
    let mut shown = Vec::new(alloc);
    for entry in entries {
        shown.push(issued_of(entry))?;
    }
    Ok(Seq::from_vec(shown))
}

/// A checked piece, as a reply tells it.
fn issued_of(entry: &Entry) -> IssuedPiece
    ensures { result ≡ issued_of entry.now }
{
    IssuedPiece {
        sector: entry.piece.place.sector,
        letters: letters_of(entry),
    }
}

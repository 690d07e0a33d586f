//! The texts of replies.

ghost use Rattle.std.specs.Prelude.{◌≡◌, ◌++◌, ◌<◌, None, Some, IfOk, OnOk, codes};
ghost use Rattle.std.specs.List.{flat_map};
ghost use Rattle.std.specs.Fmt.{decimal};
ghost use Rattle.zs_script.specs.Names.{name_text, ds_text};
ghost use Rattle.zs_script.specs.Texts.{finished_line, task_line, task_lines, record_text, hex_digit, hex_text, listed_line, reply_lines, reply_text};
ghost use Rattle.zs_script.specs.Refusals.{refusal_name};

use crate::refusal::Refusal;
use crate::reply::{Finished, Listed, Reply};
use crate::scan_texts;
use std::alloc::{AllocError, Global};
use zs_ids::{DsName, Name};

/// The text of a reply: its lines, each ended by a line feed. The lines for a client begin with the
/// client's number and a space; where `by` is 0 there is none.
#[tactic(auto, unfolding(crate::specs::Texts::reply_text))]
pub fn text(alloc: Global, by: u8, reply: &Reply) -> Result<Vec<u8>, AllocError>
    ensures { IfOk result (λ v. v.items ≡ reply_text by reply.now) }
{
    let lines = lines(alloc, reply)?;
    if by == 0 || lines.is_empty() {
        return Ok(lines);
    }
    let mut out = format!(in alloc; "{by} ")?.into_bytes();
    out.extend_from_slice(&lines)?;
    Ok(out)
}

/// The lines of a reply.
#[tactic(auto, unfolding(crate::specs::Texts::reply_lines))]
fn lines(alloc: Global, reply: &Reply) -> Result<Vec<u8>, AllocError>
    ensures { IfOk result (λ v. v.items ≡ reply_lines reply.now) }
{
    match reply {
        Reply::Made { pool, mirrors } => made(alloc, *pool, *mirrors),
        Reply::Queued { txg, task } => queued(alloc, *txg, *task),
        Reply::Wrote {
            ds,
            object,
            leaf,
            txg,
        } => wrote(alloc, ds, *object, *leaf, *txg),
        Reply::Read {
            ds,
            object,
            leaf,
            value,
        } => read(alloc, ds, *object, *leaf, *value),
        Reply::ReadHole { ds, object, leaf } => read_hole(alloc, ds, *object, *leaf),
        Reply::Committed {
            txg,
            tasks,
            finished,
        } => committed(alloc, *txg, tasks.as_slice(), finished),
        Reply::Walked {
            turns,
            why,
            waiting,
        } => scan_texts::walked(alloc, *turns, *why, waiting.as_slice()),
        Reply::Issued { vdev, pieces } => scan_texts::issued(alloc, *vdev, pieces.as_slice()),
        Reply::Held { vdev, sectors } => scan_texts::held(alloc, *vdev, sectors.as_slice()),
        Reply::Landed { entries, pieces } => scan_texts::landed(alloc, *entries, pieces.as_slice()),
        Reply::Rotted { dev, sector, count } => rotted(alloc, *dev, *sector, *count),
        Reply::Errors { pieces } => scan_texts::errors(alloc, pieces.as_slice()),
        Reply::List { datasets } => listed(alloc, datasets.as_slice()),
        Reply::Status { txg, scan } => scan_texts::status(alloc, *txg, scan),
        Reply::RefusedSync { txg, refusal } => refused_sync(alloc, *txg, *refusal),
        Reply::Refused(refusal) => refused(alloc, *refusal),
        Reply::Nothing => Ok(Vec::new(alloc)),
    }
}

fn made(alloc: Global, pool: u64, mirrors: u8) -> Result<Vec<u8>, AllocError>
    ensures { IfOk result (λ v. v.items ≡ codes "pool " ++ decimal pool ++ codes " mirrors " ++ decimal mirrors ++ codes " txg 1\n") }
{
    Ok(format!(in alloc; "pool {pool} mirrors {mirrors} txg 1\n")?.into_bytes())
}

fn queued(alloc: Global, txg: u64, task: u32) -> Result<Vec<u8>, AllocError>
    ensures { IfOk result (λ v. v.items ≡ codes "queued " ++ decimal txg ++ codes " " ++ decimal task ++ codes "\n") }
{
    Ok(format!(in alloc; "queued {txg} {task}\n")?.into_bytes())
}

fn wrote(
    alloc: Global,
    ds: &DsName,
    object: u16,
    leaf: u32,
    txg: u64,
) -> Result<Vec<u8>, AllocError>
    ensures { IfOk result (λ v. v.items ≡ codes "wrote " ++ record_text ds.now object leaf ++ codes " " ++ decimal txg ++ codes "\n") }
{
    let mut out = Vec::from_slice(alloc, b"wrote ")?;
    push_record(alloc, &mut out, ds, object, leaf)?;
    let end = format!(in alloc; " {txg}\n")?;
    out.extend_from_slice(end.as_bytes())?;
    Ok(out)
}

fn read(
    alloc: Global,
    ds: &DsName,
    object: u16,
    leaf: u32,
    value: u64,
) -> Result<Vec<u8>, AllocError>
    ensures { IfOk result (λ v. v.items ≡ codes "read " ++ record_text ds.now object leaf ++ codes " " ++ hex_text value ++ codes "\n") }
{
    let mut out = Vec::from_slice(alloc, b"read ")?;
    push_record(alloc, &mut out, ds, object, leaf)?;
    out.extend_from_slice(b" ")?;
    push_hex(&mut out, value)?;
    out.extend_from_slice(b"\n")?;
    Ok(out)
}

fn read_hole(alloc: Global, ds: &DsName, object: u16, leaf: u32) -> Result<Vec<u8>, AllocError>
    ensures { IfOk result (λ v. v.items ≡ codes "read " ++ record_text ds.now object leaf ++ codes " hole\n") }
{
    let mut out = Vec::from_slice(alloc, b"read ")?;
    push_record(alloc, &mut out, ds, object, leaf)?;
    out.extend_from_slice(b" hole\n")?;
    Ok(out)
}

fn committed(
    alloc: Global,
    txg: u64,
    tasks: &[Option<Refusal>],
    finished: &Option<Finished>,
) -> Result<Vec<u8>, AllocError>
    ensures { IfOk result (λ v. v.items ≡ codes "sync " ++ decimal txg ++ codes "\n" ++ task_lines 1 tasks.now ++ finished_line finished.now) }
{
    let mut out = format!(in alloc; "sync {txg}\n")?.into_bytes();
    push_tasks(alloc, &mut out, tasks)?;
    push_finished(alloc, &mut out, finished)?;
    Ok(out)
}

fn refused_sync(alloc: Global, txg: u64, refusal: Refusal) -> Result<Vec<u8>, AllocError>
    ensures { IfOk result (λ v. v.items ≡ codes "sync " ++ decimal txg ++ codes " refused " ++ refusal_name refusal ++ codes "\n") }
{
    let name = refusal.name();
    Ok(format!(in alloc; "sync {txg} refused {name}\n")?.into_bytes())
}

fn refused(alloc: Global, refusal: Refusal) -> Result<Vec<u8>, AllocError>
    ensures { IfOk result (λ v. v.items ≡ codes "refused " ++ refusal_name refusal ++ codes "\n") }
{
    let name = refusal.name();
    Ok(format!(in alloc; "refused {name}\n")?.into_bytes())
}

fn rotted(alloc: Global, dev: u8, sector: u32, count: u32) -> Result<Vec<u8>, AllocError>
    ensures { IfOk result
        (λ v. v.items ≡ codes "rot " ++ decimal dev ++ codes " " ++ decimal sector ++ codes " " ++ decimal count ++ codes "\n") }
{
    Ok(format!(in alloc; "rot {dev} {sector} {count}\n")?.into_bytes())
}

/// The lines of the datasets.
fn listed(alloc: Global, datasets: &[Listed]) -> Result<Vec<u8>, AllocError>
    ensures { IfOk result (λ v. v.items ≡ flat_map listed_line datasets.now) }
{
    let mut out = Vec::new(alloc);
    for dataset in datasets {
        push_listed(alloc, &mut out, dataset)?;
    }
    Ok(out)
}

/// Puts the line of a dataset at the end.
fn push_listed(alloc: Global, out: &mut Vec<u8>, dataset: &Listed) -> Result<(), AllocError>
    ensures { OnOk result (out.new.items ≡ out.old.items ++ listed_line dataset.now) }
{
    let creation = dataset.creation;
    let blocks = dataset.blocks;
    out.extend_from_slice(b"ds ")?;
    push_ds(out, &dataset.name)?;
    let numbers = format!(in alloc; " {creation} {blocks}\n")?;
    out.extend_from_slice(numbers.as_bytes())?;
    Ok(())
}

/// Puts the lines of a commit's tasks at the end.
fn push_tasks(alloc: Global, out: &mut Vec<u8>, tasks: &[Option<Refusal>]) -> Result<(), AllocError>
    ensures { OnOk result (out.new.items ≡ out.old.items ++ task_lines 1 tasks.now) }
{
    for (i, task) in tasks.iter().enumerate() {
        let line = task_text(alloc, i + 1, *task)?;
        out.extend_from_slice(&line)?;
    }
    Ok(())
}

/// The line of a task.
fn task_text(alloc: Global, k: usize, refusal: Option<Refusal>) -> Result<Vec<u8>, AllocError>
    ensures { IfOk result (λ v. v.items ≡ task_line k refusal) }
{
    match refusal {
        None => task_ok(alloc, k),
        Some(refusal) => task_refused(alloc, k, refusal),
    }
}

fn task_ok(alloc: Global, k: usize) -> Result<Vec<u8>, AllocError>
    ensures { IfOk result (λ v. v.items ≡ task_line k None) }
{
    Ok(format!(in alloc; "task {k} ok\n")?.into_bytes())
}

fn task_refused(alloc: Global, k: usize, refusal: Refusal) -> Result<Vec<u8>, AllocError>
    ensures { IfOk result (λ v. v.items ≡ task_line k (Some refusal)) }
{
    let name = refusal.name();
    Ok(format!(in alloc; "task {k} refused {name}\n")?.into_bytes())
}

/// Puts the line of a scan that came to its end at the end.
fn push_finished(
    alloc: Global,
    out: &mut Vec<u8>,
    finished: &Option<Finished>,
) -> Result<(), AllocError>
    ensures { OnOk result (out.new.items ≡ out.old.items ++ finished_line finished.now) }
{
    match finished {
        None => Ok(()),
        Some(
            Finished {
                kind,
                checked,
                errors,
            },
        ) => {
            let kind = kind.name();
            let line = format!(in alloc; "finished {kind} {checked} {errors}\n")?;
            out.extend_from_slice(line.as_bytes())?;
            Ok(())
        }
    }
}

/// Puts the record of which a reply speaks at the end.
fn push_record(
    alloc: Global,
    out: &mut Vec<u8>,
    ds: &DsName,
    object: u16,
    leaf: u32,
) -> Result<(), AllocError>
    ensures { OnOk result (out.new.items ≡ out.old.items ++ record_text ds.now object leaf) }
{
    push_ds(out, ds)?;
    let words = format!(in alloc; " {object} {leaf}")?;
    out.extend_from_slice(words.as_bytes())?;
    Ok(())
}

/// Puts a dataset's name at the end.
#[tactic(auto, unfolding(crate::specs::Names::ds_text))]
pub(crate) fn push_ds(out: &mut Vec<u8>, ds: &DsName) -> Result<(), AllocError>
    ensures { OnOk result (out.new.items ≡ out.old.items ++ ds_text ds.now) }
{
    if ds.owner.len == 0 {
        out.extend_from_slice(b"$origin")?;
        return Ok(());
    }
    out.extend_from_slice(name_bytes(&ds.owner))?;
    if ds.label.len == 0 {
        return Ok(());
    }
    out.extend_from_slice(b"@")?;
    out.extend_from_slice(name_bytes(&ds.label))?;
    Ok(())
}

/// The bytes of a name.
fn name_bytes(name: &Name) -> &[u8]
    ensures { result.now ≡ name_text name.now }
{
    let len = usize::from(name.len).min(name.bytes.len());
    &name.bytes[..len]
}

/// Puts a number's 16 hexadecimal digits at the end.
fn push_hex(out: &mut Vec<u8>, value: u64) -> Result<(), AllocError>
    ensures { OnOk result (out.new.items ≡ out.old.items ++ hex_text value) }
{
    for byte in value.to_be_bytes() {
        out.extend_from_slice(&[hex(byte / 16), hex(byte % 16)])?;
    }
    Ok(())
}

/// A hexadecimal digit.
fn hex(digit: u8) -> u8
    requires { digit < 16 }
    ensures { result ≡ hex_digit digit }
{
    if digit < 10 {
        b'0' + digit
    } else {
        b'a' + (digit - 10)
    }
}

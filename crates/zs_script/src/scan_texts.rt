//! The texts of replies on a scan: its walk, its batches and its state.

ghost use Rattle.std.specs.Prelude.{◌≡◌, ◌++◌, if◌then◌else◌, Some, IfOk, OnOk, codes, length};
ghost use Rattle.std.specs.List.{flat_map};
ghost use Rattle.std.specs.Fmt.{decimal};
ghost use Rattle.zs_script.specs.Texts.{end_text, key_text, letter_text, letters_text, entry_text, issued_text, landed_text, error_line, word_of, place_text, todo_text, walking_lines, scan_lines};

use crate::reply::{
    ErrorPiece, IssuedPiece, LandedPiece, Letter, ScanStatus, TodoEntry, WalkEnd, WalkPlace,
    Walking,
};
use crate::texts::push_ds;
use std::alloc::{AllocError, Global};
use zs_ids::{Boxed, Key};

/// The line of a walk.
pub(crate) fn walked(
    alloc: Global,
    turns: u32,
    why: WalkEnd,
    waiting: &[u32],
) -> Result<Vec<u8>, AllocError>
    ensures { IfOk result
        (λ v. v.items
        ≡ codes "walk " ++ decimal turns ++ codes " " ++ end_text why ++ codes " waiting"
        ++ flat_map word_of waiting.now ++ codes "\n") }
{
    let why = why.name();
    let mut out = format!(in alloc; "walk {turns} {why} waiting")?.into_bytes();
    push_numbers(alloc, &mut out, waiting)?;
    out.extend_from_slice(b"\n")?;
    Ok(out)
}

/// The line of a batch that was taken and checked.
pub(crate) fn issued(alloc: Global, vdev: u8, pieces: &[IssuedPiece]) -> Result<Vec<u8>, AllocError>
    ensures { IfOk result
        (λ v. v.items
        ≡ codes "issue " ++ decimal vdev ++ codes " " ++ decimal (length pieces.now)
        ++ flat_map issued_text pieces.now ++ codes "\n") }
{
    let count = pieces.len();
    let mut out = format!(in alloc; "issue {vdev} {count}")?.into_bytes();
    for piece in pieces {
        push_issued(alloc, &mut out, piece)?;
    }
    out.extend_from_slice(b"\n")?;
    Ok(out)
}

/// The line of a batch that was taken and is in flight.
pub(crate) fn held(alloc: Global, vdev: u8, sectors: &[u32]) -> Result<Vec<u8>, AllocError>
    ensures { IfOk result
        (λ v. v.items
        ≡ codes "hold " ++ decimal vdev ++ codes " " ++ decimal (length sectors.now) ++ flat_map word_of sectors.now
        ++ codes "\n") }
{
    let count = sectors.len();
    let mut out = format!(in alloc; "hold {vdev} {count}")?.into_bytes();
    push_numbers(alloc, &mut out, sectors)?;
    out.extend_from_slice(b"\n")?;
    Ok(out)
}

/// The line of the batches that landed.
pub(crate) fn landed(
    alloc: Global,
    entries: u32,
    pieces: &[LandedPiece],
) -> Result<Vec<u8>, AllocError>
    ensures { IfOk result (λ v. v.items ≡ codes "land " ++ decimal entries ++ flat_map landed_text pieces.now ++ codes "\n") }
{
    let mut out = format!(in alloc; "land {entries}")?.into_bytes();
    for piece in pieces {
        push_landed(alloc, &mut out, piece)?;
    }
    out.extend_from_slice(b"\n")?;
    Ok(out)
}

/// The lines of the damaged pieces.
pub(crate) fn errors(alloc: Global, pieces: &[ErrorPiece]) -> Result<Vec<u8>, AllocError>
    ensures { IfOk result (λ v. v.items ≡ codes "errors " ++ decimal (length pieces.now) ++ codes "\n" ++ flat_map error_line pieces.now) }
{
    let count = pieces.len();
    let mut out = format!(in alloc; "errors {count}\n")?.into_bytes();
    for piece in pieces {
        push_error(alloc, &mut out, piece)?;
    }
    Ok(out)
}

/// The lines of the pool's state.
pub(crate) fn status(
    alloc: Global,
    txg: u64,
    scan: &Option<Boxed<ScanStatus>>,
) -> Result<Vec<u8>, AllocError>
    ensures { IfOk result (λ v. v.items ≡ codes "txg " ++ decimal txg ++ codes "\n" ++ scan_lines scan.now) }
{
    let mut out = format!(in alloc; "txg {txg}\n")?.into_bytes();
    match scan {
        None => out.extend_from_slice(b"scan none\n")?,
        Some(scan) => push_scan(alloc, &mut out, scan.get())?,
    }
    Ok(out)
}

/// Puts the lines of a scan's state at the end.
fn push_scan(alloc: Global, out: &mut Vec<u8>, scan: &ScanStatus) -> Result<(), AllocError>
    ensures { OnOk result (out.new.items ≡ out.old.items ++ scan_lines (Some scan.now)) }
{
    let kind = scan.kind.name();
    let state = scan.state.name();
    let checked = scan.checked;
    let errors = scan.errors;
    let waiting = scan.waiting;
    let flight = scan.flight;
    let head = format!(in alloc; "scan {kind} {state} checked {checked} errors {errors}")?;
    out.extend_from_slice(head.as_bytes())?;
    let queues = format!(in alloc; " waiting {waiting} flight {flight}\n")?;
    out.extend_from_slice(queues.as_bytes())?;
    push_walking(alloc, out, &scan.walking)?;
    Ok(())
}

/// Puts the lines of a running scan's walk at the end.
fn push_walking(
    alloc: Global,
    out: &mut Vec<u8>,
    walking: &Option<Walking>,
) -> Result<(), AllocError>
    ensures { OnOk result (out.new.items ≡ out.old.items ++ walking_lines walking.now) }
{
    match walking {
        None => Ok(()),
        Some(walking) => push_walk(alloc, out, walking),
    }
}

/// Puts the lines of a walk at the end.
fn push_walk(alloc: Global, out: &mut Vec<u8>, walking: &Walking) -> Result<(), AllocError>
    ensures { OnOk result (out.new.items ≡ out.old.items ++ walking_lines (Some walking.now)) }
{
    let min = walking.min;
    let max = walking.max;
    let range = format!(in alloc; "range {min} {max}\n")?;
    out.extend_from_slice(range.as_bytes())?;
    push_place(alloc, out, &walking.place)?;
    out.extend_from_slice(b"todo")?;
    push_todo(alloc, out, walking.todo.as_slice())?;
    out.extend_from_slice(b"\n")?;
    Ok(())
}

/// Puts the line of the place at which a walk stands at the end.
fn push_place(alloc: Global, out: &mut Vec<u8>, place: &WalkPlace) -> Result<(), AllocError>
    ensures { OnOk result (out.new.items ≡ out.old.items ++ place_text place.now) }
{
    match place {
        WalkPlace::Nowhere => out.extend_from_slice(b"at none\n"),
        WalkPlace::Destroyed => out.extend_from_slice(b"at destroyed\n"),
        WalkPlace::Dataset {
            ds,
            key,
            curmin,
            curmax,
            again,
        } => {
            out.extend_from_slice(b"at ")?;
            push_ds(out, ds)?;
            push_key(alloc, out, key)?;
            let pass = format!(in alloc; " pass {curmin} {curmax}")?;
            out.extend_from_slice(pass.as_bytes())?;
            push_again(out, *again)
        }
    }
}

/// Puts a space and a key at the end.
fn push_key(alloc: Global, out: &mut Vec<u8>, key: &Key) -> Result<(), AllocError>
    ensures { OnOk result (out.new.items ≡ out.old.items ++ codes " " ++ key_text key.now) }
{
    let object = key.object;
    let rank = key.rank;
    let leaf = key.leaf;
    let depth = key.depth;
    let words = format!(in alloc; " {object}.{rank}.{leaf}.{depth}")?;
    out.extend_from_slice(words.as_bytes())?;
    Ok(())
}

/// Puts the end of a place's line at the end.
fn push_again(out: &mut Vec<u8>, again: bool) -> Result<(), AllocError>
    ensures { OnOk result (out.new.items ≡ out.old.items ++ (if again then codes " again\n" else codes "\n")) }
{
    if again {
        out.extend_from_slice(b" again\n")
    } else {
        out.extend_from_slice(b"\n")
    }
}

/// Puts the datasets that a walk has yet to enter at the end.
fn push_todo(alloc: Global, out: &mut Vec<u8>, todo: &[TodoEntry]) -> Result<(), AllocError>
    ensures { OnOk result (out.new.items ≡ out.old.items ++ flat_map todo_text todo.now) }
{
    for entry in todo {
        push_todo_entry(alloc, out, entry)?;
    }
    Ok(())
}

/// Puts a dataset that a walk has yet to enter at the end.
fn push_todo_entry(alloc: Global, out: &mut Vec<u8>, entry: &TodoEntry) -> Result<(), AllocError>
    ensures { OnOk result (out.new.items ≡ out.old.items ++ todo_text entry.now) }
{
    out.extend_from_slice(b" ")?;
    push_ds(out, &entry.ds)?;
    let min = entry.min;
    let words = format!(in alloc; ":{min}")?;
    out.extend_from_slice(words.as_bytes())?;
    Ok(())
}

/// Puts each number behind a space at the end.
fn push_numbers(alloc: Global, out: &mut Vec<u8>, numbers: &[u32]) -> Result<(), AllocError>
    ensures { OnOk result (out.new.items ≡ out.old.items ++ flat_map word_of numbers.now) }
{
    for number in numbers {
        push_number(alloc, out, *number)?;
    }
    Ok(())
}

/// Puts a number behind a space at the end.
fn push_number(alloc: Global, out: &mut Vec<u8>, number: u32) -> Result<(), AllocError>
    ensures { OnOk result (out.new.items ≡ out.old.items ++ word_of number) }
{
    let word = format!(in alloc; " {number}")?;
    out.extend_from_slice(word.as_bytes())?;
    Ok(())
}

/// Puts a checked piece at the end.
fn push_issued(alloc: Global, out: &mut Vec<u8>, piece: &IssuedPiece) -> Result<(), AllocError>
    ensures { OnOk result (out.new.items ≡ out.old.items ++ issued_text piece.now) }
{
    let sector = piece.sector;
    let place = format!(in alloc; " {sector}:")?;
    out.extend_from_slice(place.as_bytes())?;
    push_letters(out, &piece.letters)
}

/// Puts a landed piece at the end.
fn push_landed(alloc: Global, out: &mut Vec<u8>, piece: &LandedPiece) -> Result<(), AllocError>
    ensures { OnOk result (out.new.items ≡ out.old.items ++ landed_text piece.now) }
{
    let vdev = piece.vdev;
    let sector = piece.sector;
    let place = format!(in alloc; " {vdev}/{sector}:")?;
    out.extend_from_slice(place.as_bytes())?;
    match &piece.letters {
        None => out.extend_from_slice(b"-"),
        Some(letters) => push_letters(out, letters),
    }
}

/// Puts the line of a damaged piece at the end.
fn push_error(alloc: Global, out: &mut Vec<u8>, piece: &ErrorPiece) -> Result<(), AllocError>
    ensures { OnOk result (out.new.items ≡ out.old.items ++ error_line piece.now) }
{
    let vdev = piece.vdev;
    let sector = piece.sector;
    let birth = piece.birth;
    let words = format!(in alloc; "error {vdev} {sector} {birth} ")?;
    out.extend_from_slice(words.as_bytes())?;
    push_letters(out, &piece.letters)?;
    out.extend_from_slice(b"\n")?;
    Ok(())
}

/// Puts the letters of a piece at the end.
fn push_letters(out: &mut Vec<u8>, letters: &[Option<Letter>; 4]) -> Result<(), AllocError>
    ensures { OnOk result (out.new.items ≡ out.old.items ++ letters_text letters.now) }
{
    for letter in letters {
        out.extend_from_slice(letter_name(*letter).as_bytes())?;
    }
    Ok(())
}

/// A letter, and nothing where the mirror has no such device.
fn letter_name(letter: Option<Letter>) -> &'static str
    ensures { result.now ≡ letter_text letter }
{
    match letter {
        None => "",
        Some(letter) => letter.name(),
    }
}

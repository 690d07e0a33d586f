//! The top call: a script from a source, run over the images of a bay, with its replies put into a sink.

ghost use Rattle.std.specs.Prelude.{◌≡◌, ◌≤◌, ◌<◌, ◌-◌, [], ◌⊎◌, None, true, false, length, map, OnOk, IfOk, IsErrOf, string_bytes};
ghost use Rattle.std.specs.List.{list_all};
ghost use Rattle.zs_io.specs.Faults.{Rose};
ghost use Rattle.zs_io.specs.Told.{Told};
ghost use Rattle.zs_session.specs.Ending.{CountsSink};
ghost use Rattle.zs_session.specs.Puts.{PutsLast, fault_line};
ghost use Rattle.zs_session.specs.Step.{is_image, are_images, is_step, names_in, read_of};
ghost use Rattle.zs_session.specs.Runs.{EndsInUsage, EndsInFault, IsUntouched, HasAskedFor, EndsRefused, EndsUnmade, HandsBack, EndsInSession, RunsLines, PutsHistory, CountsDevices, CountsStreams};

use crate::end::End;
use crate::images::fetch_images;
use crate::session::{Ended, end_with, step_session};
use std::alloc::{AllocError, Global};
use zs_io::{Bay, BayFault, Device, Sink, Source};
use zs_lane::Lane;
use zs_script::{ScriptFault, Why, parse};

/// One more than the most bytes of a script.
const READ_BYTES: usize = 16_777_217;

/// How many bytes of a script are read at once.
const CHUNK: usize = 65_536;

/// The most images of a pool.
const IMAGES: usize = 16;

/// Why a script was not read.
#[derive(Clone, Copy, Debug, PartialEq, Eq)]
pub enum ReadFault {
    /// The source failed; its count of faults rose.
    Failed,
    /// Memory was wanting.
    Memory,
}

/// Whether a word may name an image.
fn is_image(word: &String) -> bool
    ensures { result ≡ is_image (string_bytes word.now) }
{
    match word.as_bytes() {
        [] => false,
        [first, ..] => *first != b'-',
    }
}

/// Whether the words are `step` and one to sixteen images.
#[tactic(auto, unfolding(crate::specs::Step::is_step))]
fn is_step(words: &[String]) -> bool
    ensures form { result ≡ is_step words.now }
    ensures some { result ≡ true → 1 ≤ length words.now }
{
    match words {
        [] => false,
        [verb, images @ ..] => verb.as_bytes() == b"step".as_slice() && are_images(images),
    }
}

/// Whether the words are one to sixteen images.
fn are_images(words: &[String]) -> bool
    ensures { result ≡ are_images words.now }
{
    if words.len() < 1 {
        return false;
    }
    if words.len() > IMAGES {
        return false;
    }
    may_be_images(words)
}

/// Whether each of the words may name an image.
fn may_be_images(words: &[String]) -> bool
    ensures { result ≡ list_all (λ w. is_image (string_bytes w)) words.now }
{
    words.iter().all(|word| is_image(word))
}

/// Reads a script to its end, but no more than one byte past the most that a script may have.
fn read_script<S: Source>(alloc: Global, src: &mut S) -> Result<Vec<u8>, ReadFault>
    ensures script { IfOk result (λ v. Told (S.left src.old) (λ script. v.items ≡ read_of script)) }
    ensures ok { OnOk result (S.faults src.new ≡ S.faults src.old) }
    ensures failed { IsErrOf result ReadFault.Failed → Rose (S.faults src.old) (S.faults src.new) }
    ensures memory { IsErrOf result ReadFault.Memory → S.faults src.new ≡ S.faults src.old }
{
    let Ok(mut chunk) = vec![in alloc; 0; CHUNK] else {
        return Err(ReadFault::Memory);
    };
    let mut script = Vec::new(alloc);
    match read_into(&mut script, src, &mut chunk) {
        Ok(()) => Ok(script),
        Err(fault) => Err(fault),
    }
}

/// Reads to the end of the source, or until there are as many bytes as are read of a script.
fn read_into<S: Source>(
    script: &mut Vec<u8>,
    src: &mut S,
    chunk: &mut [u8],
) -> Result<(), ReadFault>
    requires empty { script.old.items ≡ [] }
    requires chunk { length chunk.old ≡ 65536 }
    ensures script { OnOk result (Told (S.left src.old) (λ left. script.new.items ≡ read_of left)) }
    ensures ok { OnOk result (S.faults src.new ≡ S.faults src.old) }
    ensures failed { IsErrOf result ReadFault.Failed → Rose (S.faults src.old) (S.faults src.new) }
    ensures memory { IsErrOf result ReadFault.Memory → S.faults src.new ≡ S.faults src.old }
{
    while script.len() < READ_BYTES {
        let room = CHUNK.min(READ_BYTES - script.len());
        let Ok(count) = src.read(&mut chunk[..room]) else {
            return Err(ReadFault::Failed);
        };
        if count == 0 {
            return Ok(());
        }
        let Ok(()) = script.extend_from_slice(&chunk[..count]) else {
            return Err(ReadFault::Memory);
        };
    }
    Ok(())
}

/// The line that tells a fault of a script.
fn fault_text(alloc: Global, line: u32, why: Why) -> Result<Vec<u8>, AllocError>
    ensures { IfOk result (λ text. text.items ≡ fault_line line why) }
{
    Ok(format!(in alloc; "script {line} {}\n", why.name())?.into_bytes())
}

/// Puts a fault of a script.
fn tell_fault<D: Device + Drop, K: Sink>(
    alloc: Global,
    line: u32,
    why: Why,
    lanes: Vec<Lane<D>>,
    out: &mut K,
) -> Ended<D>
    ensures status { (result.status ≡ 2) ⊎ ((result.status ≡ 6) ⊎ (result.status ≡ 7)) }
    ensures session { result.session ≡ None }
    ensures lanes { result.lanes.items ≡ lanes.items }
    ensures text { PutsLast (fault_line line why) result.status (K.told out.old) (K.told out.new) }
    ensures sink { CountsSink result.status (K.faults out.old) (K.faults out.new) }
{
    let Ok(text) = fault_text(alloc, line, why) else {
        return Ended::without(End::Memory, lanes);
    };
    end_with(End::Fault, text.as_slice(), lanes, out)
}

/// Runs the program on the words of its command line, which are `step` and the names of one to sixteen images, in
/// order. The script is read whole from the source, before the images are fetched from the bay; its replies are
/// put into the sink.
///
/// The status is 0 where the script was read to its end and every reply was put; 1 where the words are others,
/// and `usage` is put; 2 where the script has a fault, which is put; 3 where `pool` refused the images, which
/// is put; 4 where a device failed in a sync's data, a head could not be read, or an image could not be had; 5 where
/// the source failed; 6 where the sink failed; 7 where memory was wanting.
pub fn run_step<B: Bay, S: Source, K: Sink>(
    alloc: Global,
    words: &[String],
    bay: &mut B,
    src: &mut S,
    out: &mut K,
) -> Ended<B::Dev>
    ensures usage { EndsInUsage (is_step words.now) result.status (K.told out.old) (K.told out.new) }
    ensures fault { EndsInFault (is_step words.now) (S.left src.old) result.status (K.told out.old) (K.told out.new) }
    ensures untouched { IsUntouched (is_step words.now) (S.left src.old) result.status bay.old bay.new }
    ensures asked { HasAskedFor (names_in words.now) (length words.now - 1) (B.asked bay.old) (B.asked bay.new) result }
    ensures refused { EndsRefused (is_step words.now) (S.left src.old) B.Dev.size B.Dev.told (K.told out.old) (K.told out.new) result }
    ensures unmade { EndsUnmade B.Dev.faults (length words.now - 1) (B.faults bay.old) (B.faults bay.new) (K.told out.old) (K.told out.new) result }
    ensures images { HandsBack (S.left src.old) B.Dev.size B.Dev.told (length words.now - 1) (B.left bay.old) result }
    ensures session { EndsInSession result }
    ensures lines { RunsLines (S.left src.old) result }
    ensures text { PutsHistory (K.told out.old) (K.told out.new) result }
    ensures devices { CountsDevices B.Dev.faults (B.faults bay.old) (B.faults bay.new) result }
    ensures streams { CountsStreams result.status (S.faults src.old) (S.faults src.new) (K.faults out.old) (K.faults out.new) }
{
    let mut lanes = Vec::new(alloc);
    if !is_step(words) {
        return end_with(End::Usage, b"usage\n", lanes, out);
    }
    let script = match read_script(alloc, src) {
        Ok(script) => script,
        Err(ReadFault::Failed) => return Ended::without(End::Source, lanes),
        Err(ReadFault::Memory) => return Ended::without(End::Memory, lanes),
    };
    let lines = match parse(alloc, script.as_slice()) {
        Ok(lines) => lines,
        Err(ScriptFault::Bad { line, why }) => return tell_fault(alloc, line, why, lanes, out),
        Err(ScriptFault::Memory) => return Ended::without(End::Memory, lanes),
    };
    match fetch_images(alloc, &words[1..], bay, &mut lanes) {
        Ok(()) => step_session(alloc, lines.as_slice(), lanes, out),
        Err(BayFault::Failed) => Ended::without(End::Device, lanes),
        Err(BayFault::Memory) => Ended::without(End::Memory, lanes),
    }
}

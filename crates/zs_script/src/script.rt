//! The lines of a script.

ghost use Rattle.std.specs.Prelude.{◌≡◌, ◌≤◌, ◌<◌, ◌+◌, ◌^◌, ◌++◌, ◌∷◌, map, take, length, position, ◌==◌, false, IfOk, IfErr, IfSome, OnOk};
ghost use Rattle.std.specs.List.{list_all};
ghost use Rattle.std.specs.Option.{option_to_list, option_copied};
ghost use Rattle.std.specs.Str.Lines.{strip_carriage_return};
ghost use Rattle.zs_script.specs.Lines.{IsScript};
ghost use Rattle.zs_script.specs.Reading.{lines_left, left, Passes, Stops};
ghost use Rattle.zs_script.specs.Script.{TextLine, lines_of, words_of, is_text_byte, is_skipped, is_allowed, with_line, command_at, command_in, at_line, line_of, lines_from, parsed_script, Gives};

use crate::command::{Command, Line, ScriptFault, Why};
use crate::rows::command_with;
use crate::verb::{Verb, verb_in};
use std::alloc::{AllocError, AllocFailed, Global};
use zs_ids::limits::SCRIPT_BYTES;

/// One more than the most words of a line.
const MANY_WORDS: usize = 7;

/// A line of the text, and what comes behind it.
#[derive(Clone, Copy)]
struct Cut<'a> {
    /// The line without its end.
    bytes: &'a [u8],
    /// Whether the line reaches past the most bytes of a script.
    over: bool,
    /// The text behind the line; `None` behind the last.
    rest: Option<&'a [u8]>,
}

/// The lines of a script for one caller, or its first fault.
///
/// A line is ended by a line feed, which the last may lack; a carriage return before it is dropped. Empty
/// lines and lines that begin with `#` are passed over. Words stand between spaces. The first command is
/// `pool`, which comes nowhere else.
///
/// # Errors
/// `Bad` with the number of the first faulty line and what is wrong with it, in this order: `Size`, where the
/// script's byte 16,777,217 stands in it; `Word`, for a byte outside of 32 to 126 and for no command
/// word; `Order`, for a command that may not stand there, and on line 1 for a script without a command;
/// `Count`, for a wrong number of words; `Number` and `Name`, for the first word from the left that is not
/// what it should be. `Memory`, where memory is wanting.
#[tactic(auto, using(crate::proofs::RangeLemmas::script_fits))]
pub fn parse(alloc: Global, bytes: &[u8]) -> Result<Vec<Line>, ScriptFault>
    ensures exact { Gives (λ v. v.items) result (parsed_script bytes.now) }
    // What a session may count on.
    ensures ranges { IfOk result (λ v. IsScript v.items) }
{
    let lines = read_script(alloc, bytes)?;
    Ok(lines)
}

/// The lines of a script, or its first fault.
#[tactic(auto, unfolding(crate::specs::Script::parsed_script))]
fn read_script(alloc: Global, bytes: &[u8]) -> Result<Vec<Line>, ScriptFault>
    ensures { Gives (λ v. v.items) result (parsed_script bytes.now) }
{
    let cut = bytes.len() > SCRIPT_BYTES;
    let lines = read_lines(alloc, front(bytes), cut)?;
    if lines.is_empty() {
        return Err(ScriptFault::Bad {
            line: 1,
            why: Why::Order,
        });
    }
    Ok(lines)
}

/// As much of a script as may be.
fn front(bytes: &[u8]) -> &[u8]
    ensures value { result.now ≡ take SCRIPT_BYTES bytes.now }
    ensures len { length result.now ≤ SCRIPT_BYTES }
{
    let len = SCRIPT_BYTES.min(bytes.len());
    &bytes[..len]
}

/// The lines of a text. Where it is cut off, its last line reaches past the most bytes of a script.
fn read_lines(alloc: Global, text: &[u8], cut: bool) -> Result<Vec<Line>, ScriptFault>
    requires { length text.now ≤ SCRIPT_BYTES }
    ensures { Gives (λ v. v.items) result (lines_from 1 false (lines_of cut text.now)) }
{
    let mut lines = Vec::new(alloc);
    let mut begun = false;
    let mut number = 1;
    let mut rest = Some(text);
    while let Some(text) = rest {
        let line = next_line(text, cut);
        begun = take_line(alloc, &mut lines, number, begun, &line)?;
        number += 1;
        rest = line.rest;
    }
    Ok(lines)
}

/// Reads the line with this number, puts it at the end, and answers whether a pool was made before the next one.
#[tactic(auto, using(crate::proofs::ScriptLemmas::passes, crate::proofs::ScriptLemmas::stops))]
fn take_line(
    alloc: Global,
    lines: &mut Vec<Line>,
    number: u32,
    begun: bool,
    line: &Cut,
) -> Result<bool, ScriptFault>
    ensures passes { IfOk result
        (λ next. Passes lines.old.items number begun
        (record { bytes = line.now.bytes.now; over = line.now.over }) lines.new.items next) }
    ensures stops { IfErr result (λ fault. Stops lines.old.items number begun (record { bytes = line.now.bytes.now; over = line.now.over }) fault) }
{
    let found = read_line(alloc, number, begun, line.bytes, line.over)?;
    let next = keep(lines, begun, found)?;
    Ok(next)
}

/// Puts the line that was found, if any, at the end, and answers whether a pool was made before the next one.
fn keep(lines: &mut Vec<Line>, begun: bool, found: Option<Line>) -> Result<bool, AllocError>
    ensures begun { IfOk result (λ next. next ≡ with_line begun found) }
    ensures put { OnOk result (lines.new.items ≡ lines.old.items ++ option_to_list found) }
{
    match found {
        None => Ok(begun),
        Some(line) => {
            lines.push(line)?;
            Ok(true)
        }
    }
}

/// The first line of a text, and the text behind it.
#[tactic(auto, using(crate::proofs::ScriptLemmas::last_line, crate::proofs::ScriptLemmas::first_line))]
fn next_line(text: &[u8], cut: bool) -> Cut<'_>
    ensures lines { lines_of cut text.now ≡ record { bytes = result.bytes.now; over = result.over } ∷ lines_left cut (option_copied result.rest) }
    ensures shorter { left (option_copied result.rest) ≤ length text.now }
{
    match first_feed(text) {
        None => Cut {
            bytes: text,
            over: cut,
            rest: None,
        },
        Some(end) => Cut {
            bytes: without_return(&text[..end]),
            over: false,
            rest: Some(&text[end + 1..]),
        },
    }
}

/// The place of the first line feed.
fn first_feed(text: &[u8]) -> Option<usize>
    ensures first { result ≡ position (λ b. b == 10) text.now }
    ensures within { IfSome result (λ end. end < length text.now) }
{
    text.iter().position(|b| *b == b'\n')
}

/// A line without the carriage return at its end.
fn without_return(line: &[u8]) -> &[u8]
    ensures { result.now ≡ strip_carriage_return line.now }
{
    match line {
        [front @ .., b'\r'] => front,
        _ => line,
    }
}

/// A line; `None` where it is passed over.
#[tactic(auto, unfolding(crate::specs::Script::line_of))]
fn read_line(
    alloc: Global,
    number: u32,
    begun: bool,
    bytes: &[u8],
    over: bool,
) -> Result<Option<Line>, ScriptFault>
    ensures { Gives (λ found. found) result (line_of number begun (record { bytes = bytes.now; over = over })) }
{
    if over {
        return Err(ScriptFault::Bad {
            line: number,
            why: Why::Size,
        });
    }
    if skips(bytes) {
        return Ok(None);
    }
    let command = read_command(alloc, number, begun, bytes)?;
    Ok(Some(Line {
        number,
        by: 0,
        command,
    }))
}

/// Whether a line is passed over.
fn skips(line: &[u8]) -> bool
    ensures { result ≡ is_skipped line.now }
{
    line.is_empty() || line[0] == b'#'
}

/// What a line that is not passed over commands.
#[tactic(auto, unfolding(crate::specs::Script::command_in))]
fn read_command(
    alloc: Global,
    number: u32,
    begun: bool,
    line: &[u8],
) -> Result<Command, ScriptFault>
    ensures { Gives (λ command. command) result (at_line number (command_in begun line.now)) }
{
    if !is_text(line) {
        return Err(ScriptFault::Bad {
            line: number,
            why: Why::Word,
        });
    }
    let words = words(alloc, line)?;
    let command = command_of_words(begun, &words);
    found_at(number, command)
}

/// A line's command, or the script's fault where it has one.
fn found_at(number: u32, command: Result<Command, Why>) -> Result<Command, ScriptFault>
    ensures { result ≡ at_line number command }
{
    match command {
        Ok(command) => Ok(command),
        Err(why) => Err(ScriptFault::Bad { line: number, why }),
    }
}

/// Whether lines with a command may have each of the bytes.
fn is_text(line: &[u8]) -> bool
    ensures { result ≡ list_all is_text_byte line.now }
{
    line.iter().all(|b| *b >= b' ' && *b <= b'~')
}

/// The words of a line; of more than any command takes, only the first.
fn words(alloc: Global, line: &[u8]) -> Result<Vec<&[u8]>, AllocError>
    ensures { IfOk result (λ v. map (λ w. w.now) v.items ≡ take 7 (words_of line.now)) }
{
    line.split(|b| *b == b' ')
        .filter(|w| w.len() != 0)
        .take(MANY_WORDS)
        .collect(alloc)
}

/// What the words of a line command.
#[tactic(auto, unfolding(crate::specs::Script::command_at))]
fn command_of_words(begun: bool, words: &[&[u8]]) -> Result<Command, Why>
    ensures { result ≡ command_at begun (map (λ w. w.now) words.now) }
{
    let verb = verb_in(words)?;
    if allows(begun, verb) {
        command_with(verb, words)
    } else {
        Err(Why::Order)
    }
}

/// Whether the command may stand where a pool was made, or not.
fn allows(begun: bool, verb: Verb) -> bool
    ensures { result ≡ is_allowed begun verb }
{
    match verb {
        Verb::Pool => !begun,
        _ => begun,
    }
}

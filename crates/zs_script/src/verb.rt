//! The command words.

ghost use Rattle.std.specs.Prelude.{◌≡◌, map};
ghost use Rattle.zs_script.specs.Verbs.{verb_named, verb_before, followed_verb, verb_of};

use crate::command::Why;

/// A command word.
#[derive(Clone, Copy, Debug, PartialEq, Eq)]
pub(crate) enum Verb {
    Pool,
    Fs,
    Snap,
    Clone,
    Destroy,
    Swap,
    Make,
    Write,
    Read,
    Sync,
    Scrub,
    Pause,
    Resume,
    Stop,
    Walk,
    Issue,
    Hold,
    Land,
    Finish,
    Rot,
    Errors,
    List,
    Status,
}

/// The command word of a line's words.
#[tactic(auto, unfolding(crate::specs::Verbs::verb_of))]
pub(crate) fn verb_in(words: &[&[u8]]) -> Result<Verb, Why>
    ensures { result ≡ verb_of (map (λ w. w.now) words.now) }
{
    match words {
        [] => Err(Why::Word),
        [word] => named(word),
        [word, ..] => named_before(word),
    }
}

/// The command word that is spelled so, where a word follows it.
fn named_before(word: &[u8]) -> Result<Verb, Why>
    ensures { result ≡ verb_before word.now }
{
    let verb = named(word)?;
    followed(verb)
}

/// The command word, where a word follows it. Behind `scrub` none may stand.
#[tactic(auto, unfolding(crate::specs::Verbs::followed_verb))]
fn followed(verb: Verb) -> Result<Verb, Why>
    ensures { result ≡ followed_verb verb }
{
    match verb {
        Verb::Scrub => Err(Why::Word),
        other => Ok(other),
    }
}

/// The command word that is spelled so.
#[tactic(auto, unfolding(crate::specs::Verbs::verb_named))]
fn named(word: &[u8]) -> Result<Verb, Why>
    ensures { result ≡ verb_named word.now }
{
    if word == b"pool".as_slice() {
        Ok(Verb::Pool)
    } else if word == b"fs".as_slice() {
        Ok(Verb::Fs)
    } else if word == b"snap".as_slice() {
        Ok(Verb::Snap)
    } else if word == b"clone".as_slice() {
        Ok(Verb::Clone)
    } else if word == b"destroy".as_slice() {
        Ok(Verb::Destroy)
    } else if word == b"swap".as_slice() {
        Ok(Verb::Swap)
    } else if word == b"make".as_slice() {
        Ok(Verb::Make)
    } else if word == b"write".as_slice() {
        Ok(Verb::Write)
    } else if word == b"read".as_slice() {
        Ok(Verb::Read)
    } else if word == b"sync".as_slice() {
        Ok(Verb::Sync)
    } else if word == b"scrub".as_slice() {
        Ok(Verb::Scrub)
    } else if word == b"pause".as_slice() {
        Ok(Verb::Pause)
    } else if word == b"resume".as_slice() {
        Ok(Verb::Resume)
    } else if word == b"stop".as_slice() {
        Ok(Verb::Stop)
    } else if word == b"walk".as_slice() {
        Ok(Verb::Walk)
    } else if word == b"issue".as_slice() {
        Ok(Verb::Issue)
    } else if word == b"hold".as_slice() {
        Ok(Verb::Hold)
    } else if word == b"land".as_slice() {
        Ok(Verb::Land)
    } else if word == b"finish".as_slice() {
        Ok(Verb::Finish)
    } else if word == b"rot".as_slice() {
        Ok(Verb::Rot)
    } else if word == b"errors".as_slice() {
        Ok(Verb::Errors)
    } else if word == b"list".as_slice() {
        Ok(Verb::List)
    } else if word == b"status".as_slice() {
        Ok(Verb::Status)
    } else {
        Err(Why::Word)
    }
}

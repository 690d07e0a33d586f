//! Whether a scan state belongs to a graph.

ghost use Rattle.std.specs.Prelude.{◌≡◌, ◌↔◌, ◌==◌, not, length, IfOk, IsTrue};
ghost use Rattle.std.specs.List.{list_all};
ghost use Rattle.zs_ids.specs.GraphValid.{last_birth};
ghost use Rattle.zs_phys.specs.Sound.{Sound};
ghost use Rattle.zs_plain.specs.SoundTests.{agrees, are_distinct, are_placed, ends_by, has_low_min, has_no_pass, is_at_rest, is_between, is_canceled, is_first, is_idle, is_never, is_nowhere, is_of_kind, is_pass, is_resilver, is_scrub, is_sound, is_there};
ghost use Rattle.zs_plain.specs.Tests.{has_id};
ghost use Rattle.zs_plain.specs.TurnTests.{is_scanning};

use crate::ahead::pending;
use crate::dataset::PlainDataset;
use crate::tree::{below, has_id, pass_end};
use std::alloc::{AllocError, Global};
use zs_ids::DsId;
use zs_phys::{At, Kind, Phys, Scope, Status, Todo};

/// Whether some dataset has the id.
fn is_there(g: &[PlainDataset], id: DsId) -> bool
    ensures { result ≡ is_there g.now id }
{
    g.iter().any(|d| d.id == id)
}

/// Whether no two ids are the same.
fn are_distinct(ids: &[DsId]) -> bool
    ensures { result ≡ are_distinct ids.now }
{
    match ids {
        [] => true,
        [first, rest @ ..] => !has_id(rest, *first) && are_distinct(rest),
    }
}

/// Whether all of the ids are there.
fn are_there(g: &[PlainDataset], ids: &[DsId]) -> bool
    ensures { result ≡ list_all (λ id. is_there g.now id) ids.now }
{
    ids.iter().all(|id| is_there(g, *id))
}

/// Whether none of the ids is among those below them.
fn are_unrelated(ids: &[DsId], below: &[DsId]) -> bool
    ensures { result ≡ list_all (λ id. not (has_id below.now id)) ids.now }
{
    ids.iter().all(|id| !has_id(below, *id))
}

/// Whether the pending datasets are there, are distinct, and none is below another.
fn are_placed(g: &[PlainDataset], ids: &[DsId], below: &[DsId]) -> bool
    ensures { result ≡ are_placed g.now ids.now below.now }
{
    let there = are_there(g, ids);
    let distinct = are_distinct(ids);
    let unrelated = are_unrelated(ids, below);
    there && (distinct && unrelated)
}

/// The last transaction group in which a block of the dataset may be born, where the open one is h.
pub(crate) fn last_birth(dataset: &PlainDataset, h: u64) -> u64
    ensures { result ≡ last_birth dataset.now h }
{
    if dataset.head { h } else { dataset.creation }
}

/// Whether the entry's min is a transaction group of its dataset.
fn has_low_min(g: &[PlainDataset], h: u64, entry: Todo) -> bool
    ensures { result ≡ has_low_min g.now h entry }
{
    g.iter()
        .all(|d| !(d.id == entry.id) || entry.min <= last_birth(d, h))
}

/// Whether all of the queue have.
fn have_low_mins(g: &[PlainDataset], h: u64, todo: &[Todo]) -> bool
    ensures { result ≡ list_all (λ q. has_low_min g.now h q) todo.now }
{
    todo.iter().all(|q| has_low_min(g, h, *q))
}

/// Whether the pass ends where it should: at its whole end, or anywhere before it where another pass follows.
fn is_pass(scope: &Scope, s: &Phys, dataset: &PlainDataset) -> bool
    ensures { result ≡ is_pass scope.now s.now dataset.now }
{
    let here = s.at.is_on(dataset.id);
    let end = pass_end(dataset, scope.max);
    let within = s.curmax <= dataset.creation;
    let head = dataset.head;
    !here || (s.curmax <= scope.max && ((head || within) && (s.again || s.curmax == end)))
}

/// Whether it does in each dataset.
fn are_passes(g: &[PlainDataset], scope: &Scope, s: &Phys) -> bool
    ensures { result ≡ list_all (λ d. is_pass scope.now s.now d) g.now }
{
    g.iter().all(|d| is_pass(scope, s, d))
}

/// Whether the state is nowhere.
fn is_nowhere(at: At) -> bool
    ensures { result ≡ is_nowhere at }
{
    match at {
        At::Nowhere => true,
        At::Destroyed | At::Dataset(_, _) => false,
    }
}

/// Whether the state is at no dataset.
fn is_between(at: At) -> bool
    ensures { result ≡ is_between at }
{
    match at {
        At::Nowhere | At::Destroyed => true,
        At::Dataset(_, _) => false,
    }
}

/// Whether a scan runs.
fn is_scanning(status: Status) -> bool
    ensures { result ≡ is_scanning status }
{
    match status {
        Status::Scanning => true,
        Status::Never | Status::Finished | Status::Canceled => false,
    }
}

/// Whether there was no scan yet.
fn is_never(status: Status) -> bool
    ensures { result ≡ is_never status }
{
    match status {
        Status::Never => true,
        Status::Scanning | Status::Finished | Status::Canceled => false,
    }
}

/// Whether the last scan was canceled.
fn is_canceled(status: Status) -> bool
    ensures { result ≡ is_canceled status }
{
    match status {
        Status::Canceled => true,
        Status::Never | Status::Scanning | Status::Finished => false,
    }
}

/// Whether the queue has the origin alone, from 0 on.
fn is_first(todo: &[Todo]) -> bool
    ensures { result ≡ is_first todo.now }
{
    match todo {
        [first] => first.id.0 == 0 && first.min == 0,
        _ => false,
    }
}

/// Whether the scope ends by h.
fn ends_by(h: u64, scope: &Scope, s: &Phys) -> bool
    ensures { result ≡ ends_by h scope.now s.now }
{
    let nowhere = is_nowhere(s.at);
    let first = is_first(s.todo.as_slice());
    let canceled = is_canceled(s.status);
    scope.max <= h || (nowhere && (scope.max.saturating_sub(1) <= h && (first || canceled)))
}

/// Whether a state that does not scan is at rest.
fn is_at_rest(s: &Phys) -> bool
    ensures { result ≡ is_at_rest s.now }
{
    let scanning = is_scanning(s.status);
    let nowhere = is_nowhere(s.at);
    let count = s.todo.len();
    scanning || (nowhere && (count == 0 && !s.paused))
}

/// Whether a state at no dataset has no pass.
fn has_no_pass(s: &Phys) -> bool
    ensures { result ≡ has_no_pass s.now }
{
    let between = is_between(s.at);
    !between || (s.curmin == 0 && (s.curmax == 0 && !s.again))
}

/// Whether the kind is that of no scan.
fn is_idle(kind: Kind) -> bool
    ensures { result ≡ is_idle kind }
{
    match kind {
        Kind::Idle => true,
        Kind::Scrub | Kind::Resilver => false,
    }
}

/// Whether the kind is that of a scrub.
fn is_scrub(kind: Kind) -> bool
    ensures { result ≡ is_scrub kind }
{
    match kind {
        Kind::Scrub => true,
        Kind::Idle | Kind::Resilver => false,
    }
}

/// Whether the kind is that of a resilver.
fn is_resilver(kind: Kind) -> bool
    ensures { result ≡ is_resilver kind }
{
    match kind {
        Kind::Resilver => true,
        Kind::Idle | Kind::Scrub => false,
    }
}

/// Whether kind and status agree that there was a scan.
fn agrees(scope: &Scope, s: &Phys) -> bool
    ensures { result ≡ agrees scope.now s.now }
{
    let idle = is_idle(scope.kind);
    let never = is_never(s.status);
    (!idle || never) && (!never || idle)
}

/// Whether no device has a log in the scope.
fn has_no_logs(scope: &Scope) -> bool
    ensures { result ≡ list_all (λ log. length log == 0) scope.now.dirty0 }
{
    scope.dirty0.as_slice().iter().all(|log| log.count() == 0)
}

/// Whether the scope is one of its kind.
fn is_of_kind(scope: &Scope, s: &Phys) -> bool
    ensures { result ≡ is_of_kind scope.now s.now }
{
    let idle = is_idle(scope.kind);
    let scrub = is_scrub(scope.kind);
    let resilver = is_resilver(scope.kind);
    let no_logs = has_no_logs(scope);
    (!idle || (scope.min == 0 && scope.max == 0)) && ((!s.paused || scrub) && (resilver || no_logs))
}

/// Whether the state belongs to the graph, where `ids` are the pending datasets and `below` those below them.
fn belongs(
    ids: &[DsId],
    below: &[DsId],
    g: &[PlainDataset],
    h: u64,
    scope: &Scope,
    s: &Phys,
) -> bool
    ensures { result ≡ is_sound ids.now below.now g.now h scope.now s.now }
{
    let placed = are_placed(g, ids, below);
    let mins = have_low_mins(g, h, s.todo.as_slice());
    let passes = are_passes(g, scope, s);
    let ends = ends_by(h, scope, s);
    let rests = is_at_rest(s);
    let no_pass = has_no_pass(s);
    let agrees = agrees(scope, s);
    let of_kind = is_of_kind(scope, s);
    (placed && (mins && passes)) && ((ends && rests) && (no_pass && (agrees && of_kind)))
}

/// Whether the state belongs to the graph, where h is the transaction group whose tasks come next.
pub fn is_sound(
    alloc: Global,
    g: &[PlainDataset],
    h: u64,
    scope: &Scope,
    s: &Phys,
) -> Result<bool, AllocError>
    ensures { IfOk result (λ b. IsTrue b ↔ Sound g.now h scope.now s.now) }
{
    let ids = pending(alloc, s)?;
    let below = below(alloc, g, &ids)?;
    let sound = belongs(&ids, &below, g, h, scope, s);
    Ok(sound)
}

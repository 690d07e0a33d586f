//! One turn of the walk: which one comes, the state after it, and the pieces that it puts.

ghost use Rattle.std.specs.Prelude.{◌≡◌, ◌<◌, ◌++◌, ◌∷◌, [], Some, false, ℕ, List, length, filter, map, not, ◌&&◌, option_map, IfOk, IsTrue, MatchOption, ⊤};
ghost use Rattle.zs_ids.specs.Blocks.{first_from};
ghost use Rattle.zs_ids.specs.Graph.{pieces_of};
ghost use Rattle.zs_ids.specs.GraphTree.{children_of, created, dataset_at};
ghost use Rattle.zs_ids.specs.GraphValid.{IsInIdOrder};
ghost use Rattle.zs_ids.specs.declared.block.Piece.{Piece};
ghost use Rattle.zs_ids.specs.declared.dataset.DsId.{DsId};
ghost use Rattle.zs_phys.specs.declared.phys.Phys.{Phys};
ghost use Rattle.zs_phys.specs.declared.step.Step.{Step};
ghost use Rattle.zs_phys.specs.declared.step.Step.TheVariants as steps;
ghost use Rattle.zs_phys.specs.Scope.{in_scope};
ghost use Rattle.zs_phys.specs.Turn.{Comes, Turn, advanced, behind, entry, left, put_by, queued_at_end, skipped};
ghost use Rattle.zs_plain.specs.Tests.{has_piece};
ghost use Rattle.zs_plain.specs.TurnTests.{IsTooLarge, block_step, depth_at, is_walking, next_step, queue_step};

use crate::dataset::PlainDataset;
use crate::graph::has_piece;
use crate::tree::{children_of, created, end_of_pass};
use std::alloc::{AllocError, Global};
use zs_ids::limits::DATASETS;
use zs_ids::{Bp, DsId, Key, Piece};
use zs_phys::{At, Phys, Scope, Status, Step, Todo, Todos};
use zs_want::in_scope;

/// A turn that was made.
#[derive(Debug, Drop)]
pub struct PlainTurn {
    /// Which turn it was.
    pub step: Step,
    /// The state after it.
    pub state: Phys,
    /// The pieces that it puts into the queue of those that are to be read.
    pub put: Vec<Piece>,
}

/// Whether the walk may go on.
fn is_walking(s: &Phys) -> bool
    ensures { result ≡ is_walking s.now }
{
    match s.status {
        Status::Never | Status::Finished | Status::Canceled => false,
        Status::Scanning => !s.paused,
    }
}

/// The turn between two datasets.
fn queue_step(scope: &Scope, todo: &[Todo]) -> Step
    ensures { result ≡ queue_step scope.now todo.now }
{
    match todo {
        [] => Step::Nothing,
        [first, ..] => {
            if scope.max <= scope.min.max(first.min) {
                Step::Skip
            } else {
                Step::Enter(first.id, first.min)
            }
        }
    }
}

/// The first entry at or after the key that is born after a transaction group.
fn first_from(entries: &[(Key, Bp)], from: Key, above: u64) -> Option<(Key, Bp)>
    ensures { result ≡ first_from entries.now from above }
{
    entries
        .iter()
        .copied()
        .filter(|e| from.cmp(&e.0).is_le())
        .find(|e| above < e.1.birth)
}

/// The turn in a dataset, where this is the next entry that the walk visits.
fn block_step(id: DsId, next: Option<(Key, Bp)>) -> Step
    ensures { result ≡ block_step id next }
{
    match next {
        None => Step::End(id),
        Some((key, bp)) => Step::At(key, bp),
    }
}

/// The turn at a dataset; `None` where it is not there.
fn dataset_step(g: &[PlainDataset], id: DsId, key: Key, above: u64) -> Option<Step>
    ensures { result ≡ option_map (λ d. block_step id (first_from d.entries key above)) (dataset_at g.now id) }
{
    g.iter().find(|d| d.id == id).map(|d| block_step(
        id,
        first_from(d.entries.as_slice(), key, above),
    ))
}

/// The turn that comes, computed.
fn next_step(g: &[PlainDataset], scope: &Scope, s: &Phys) -> Option<Step>
    ensures { result ≡ next_step g.now scope.now s.now }
{
    if !is_walking(s) {
        return Some(Step::Nothing);
    }
    match s.at {
        At::Nowhere => Some(queue_step(scope, s.todo.as_slice())),
        At::Destroyed => Some(Step::Skip),
        At::Dataset(id, key) => dataset_step(g, id, key, s.curmin),
    }
}

/// The turn that comes; `None` where none does, since the state is at a dataset that is not there.
pub fn step(g: &[PlainDataset], scope: &Scope, s: &Phys) -> Option<Step>
    ensures comes { MatchOption result ((step : Step) → Comes g.now scope.now s.now step → ⊥) (λ step. Comes g.now scope.now s.now step) }
    ensures only { IsInIdOrder g.now → (step : Step) → Comes g.now scope.now s.now step → result ≡ Some step }
{
    next_step(g, scope, s)
}

/// A state equal to this one.
fn copy_of(alloc: Global, s: &Phys) -> Result<Phys, AllocError>
    ensures { IfOk result (λ t. t ≡ s.now) }
{
    let mut t = Phys::idle(alloc)?;
    t.copy_from(s);
    Ok(t)
}

/// Puts the entries at the end of the queue, where there is room for all of them.
fn push_all(queue: &mut Todos, more: &[Todo]) -> bool
    ensures pushed { IsTrue result → queue.new ≡ queue.old ++ more.now }
    ensures full { result ≡ false → DATASETS < length (queue.old ++ more.now) }
{
    if more.len() > DATASETS - queue.len() {
        return false;
    }
    for entry in more {
        queue.push(*entry);
    }
    true
}

/// A queue of these datasets, each from a transaction group on.
fn all_from(alloc: Global, ids: &[DsId], least: u64) -> Result<Vec<Todo>, AllocError>
    ensures { IfOk result (λ v. v.items ≡ map (λ id. entry least id) ids.now) }
{
    ids.iter()
        .map(|id| Todo {
            id: *id,
            min: least,
        })
        .collect(alloc)
}

/// A queue of the children of a dataset, each from the dataset's creation on.
fn children_from(alloc: Global, g: &[PlainDataset], id: DsId) -> Result<Vec<Todo>, AllocError>
    ensures { IfOk result (λ v. v.items ≡ map (λ child. entry (created (dataset_at g.now id)) child) (children_of g.now id)) }
{
    let least = created(g, id);
    let children = children_of(alloc, g, id)?;
    let queued = all_from(alloc, &children, least)?;
    Ok(queued)
}

/// What the end of a pass puts into the queue.
fn queued_at_end(
    alloc: Global,
    g: &[PlainDataset],
    s: &Phys,
    id: DsId,
) -> Result<Vec<Todo>, AllocError>
    ensures { IfOk result (λ v. v.items ≡ queued_at_end g.now s.now id) }
{
    if s.again {
        let queued = once_more(alloc, id, s.curmax)?;
        return Ok(queued);
    }
    let queued = children_from(alloc, g, id)?;
    Ok(queued)
}

/// A queue of one dataset.
fn once_more(alloc: Global, id: DsId, min: u64) -> Result<Vec<Todo>, AllocError>
    ensures { IfOk result (λ v. v.items ≡ entry min id ∷ []) }
{
    let mut queued = Vec::new(alloc);
    queued.push(Todo { id, min })?;
    Ok(queued)
}

/// The state at no dataset.
fn leave(t: &mut Phys)
    ensures { t.new ≡ left t.old }
{
    t.at = At::Nowhere;
    t.curmin = 0;
    t.curmax = 0;
    t.again = false;
}

/// The state after a skip.
fn skip(t: &mut Phys)
    ensures { t.new ≡ skipped t.old.at t.old }
{
    match t.at {
        At::Nowhere => t.todo.remove_first(),
        At::Destroyed => leave(t),
        At::Dataset(_, _) => {}
    }
}

/// The state after a dataset is entered.
fn enter(g: &[PlainDataset], scope: &Scope, t: &mut Phys, id: DsId, least: u64)
    ensures { t.new ≡ advanced g.now scope.now t.old (steps.Enter id least) }
{
    t.at = At::Dataset(id, Key::ROOT);
    t.curmin = scope.min.max(least);
    t.curmax = end_of_pass(g, id, scope.max);
    t.again = false;
    t.todo.remove_first();
}

/// The bookmark behind a block, where the key has room for it.
fn behind(at: At, key: Key) -> Option<At>
    ensures { MatchOption result (255 < depth_at (behind at key)) (λ b. b ≡ behind at key) }
{
    match at {
        At::Nowhere => Some(At::Nowhere),
        At::Destroyed => Some(At::Destroyed),
        At::Dataset(id, _) => match key.depth.checked_add(1) {
            None => None,
            Some(depth) => Some(At::Dataset(id, Key { depth, ..key })),
        },
    }
}

/// The state after a turn; `None` where the types of the state can't hold it.
fn advanced(
    alloc: Global,
    g: &[PlainDataset],
    scope: &Scope,
    s: &Phys,
    step: Step,
) -> Result<Option<Phys>, AllocError>
    ensures { IfOk result (λ o. MatchOption o (IsTooLarge (advanced g.now scope.now s.now step)) (λ t. t ≡ advanced g.now scope.now s.now step)) }
{
    let mut t = copy_of(alloc, s)?;
    match step {
        Step::Nothing => Ok(Some(t)),
        Step::Skip => {
            skip(&mut t);
            Ok(Some(t))
        }
        Step::Enter(id, least) => {
            enter(g, scope, &mut t, id, least);
            Ok(Some(t))
        }
        Step::At(key, _) => match behind(t.at, key) {
            None => Ok(None),
            Some(at) => {
                t.at = at;
                Ok(Some(t))
            }
        },
        Step::End(id) => {
            let queued = queued_at_end(alloc, g, s, id)?;
            leave(&mut t);
            if push_all(&mut t.todo, &queued) {
                Ok(Some(t))
            } else {
                Ok(None)
            }
        }
    }
}

/// The pieces of a block that are in scope and not done.
fn pieces_to_put(
    alloc: Global,
    scope: &Scope,
    done: &[Piece],
    bp: &Bp,
) -> Result<Vec<Piece>, AllocError>
    ensures { IfOk result (λ v. v.items ≡ filter (λ p. in_scope scope.now p && not (has_piece done.now p)) (pieces_of bp.now)) }
{
    bp.places
        .iter()
        .take(usize::from(bp.count))
        .map(|p| Piece {
            place: *p,
            birth: bp.birth,
        })
        .filter(|p| in_scope(scope, p) && !has_piece(done, *p))
        .collect(alloc)
}

/// The pieces that a turn puts.
fn put_by(
    alloc: Global,
    scope: &Scope,
    done: &[Piece],
    s: &Phys,
    step: Step,
) -> Result<Vec<Piece>, AllocError>
    ensures { IfOk result (λ v. v.items ≡ put_by scope.now (λ p. has_piece done.now p) s.now step) }
{
    match step {
        Step::At(_, bp) => {
            if bp.birth <= s.curmax {
                pieces_to_put(alloc, scope, done, &bp)
            } else {
                Ok(Vec::new(alloc))
            }
        }
        Step::Nothing | Step::Skip | Step::Enter(_, _) | Step::End(_) => Ok(Vec::new(alloc)),
    }
}

/// One turn of the walk from a state, where the pieces of `done` were examined. `None` where no turn comes, since
/// the state is at a dataset that is not there, or where the types of the state can't hold the state after it.
pub fn turn(
    alloc: Global,
    g: &[PlainDataset],
    scope: &Scope,
    s: &Phys,
    done: &[Piece],
) -> Result<Option<PlainTurn>, AllocError>
    ensures turn { IfOk result (λ o. MatchOption o ⊤ (λ r. Turn g.now scope.now (λ p. has_piece done.now p) s.now r.state r.put.items)) }
    ensures step { IfOk result (λ o. MatchOption o ⊤ (λ r. Comes g.now scope.now s.now r.step)) }
    ensures only { IfOk result
        (λ o. IsInIdOrder g.now → (t : Phys) → (put : List Piece) →
        Turn g.now scope.now (λ p. has_piece done.now p) s.now t put →
        MatchOption o (IsTooLarge t) (λ r. (t ≡ r.state) × (put ≡ r.put.items))) }
{
    let next = match step(g, scope, s) {
        None => return Ok(None),
        Some(next) => next,
    };
    let put = put_by(alloc, scope, done, s, next)?;
    match advanced(alloc, g, scope, s, next)? {
        None => Ok(None),
        Some(state) => Ok(Some(PlainTurn {
            step: next,
            state,
            put,
        })),
    }
}

//! The turns of the walk.

ghost use Rattle.std.specs.Prelude.{◌≡◌, ◌<◌, ◌≤◌, ◌+◌, ◌++◌, ℕ, map, length};
ghost use Rattle.zs_ids.specs.GraphTree.{dataset_at, created, children_of};
ghost use Rattle.zs_ids.specs.GraphValid.{IsInIdOrder};
ghost use Rattle.zs_ids.specs.declared.limits.TheConstants.{DATASETS};
ghost use Rattle.zs_phys.specs.Turn.{Comes, advanced, behind, end_of_pass, entry, left, queued_at_end, skipped};
ghost use Rattle.zs_phys.specs.declared.step.Step.TheVariants as steps;
ghost use Rattle.zs_walk.specs.Walking.{AreHeadsUndated, MayWalk, MeetsBlock, is_walking};

use crate::datasets::Datasets;
use zs_ids::{DsId, Key};
use zs_phys::{At, Phys, Scope, Status, Step, Todo, Todos};

/// Which turn of the walk comes. Changes nothing.
pub fn visit<G: Datasets>(graph: &G, scope: &Scope, phys: &Phys) -> Step
    requires { MayWalk (G.datasets graph.now) scope.now phys.now }
    ensures turn { Comes (G.datasets graph.now) scope.now phys.now result }
    ensures met { MeetsBlock result }
{
    if !is_walking(phys) {
        return Step::Nothing;
    }
    match phys.at {
        At::Destroyed => Step::Skip,
        At::Nowhere => match phys.todo.as_slice().first() {
            None => Step::Nothing,
            Some(first) => {
                if scope.min.max(first.min) >= scope.max {
                    Step::Skip
                } else {
                    Step::Enter(first.id, first.min)
                }
            }
        },
        At::Dataset(id, key) => match graph.next_block(id, key, phys.curmin) {
            Some((found, bp)) => Step::At(found, bp),
            None => Step::End(id),
        },
    }
}

/// Whether a scan runs that is not paused.
fn is_walking(phys: &Phys) -> bool
    ensures { result ≡ is_walking phys.now }
{
    phys.status == Status::Scanning && !phys.paused
}

/// Makes the turn that comes: the bookmark, the pass and the queue become what the turn makes of them, and all else
/// stays; the state still belongs to the graph. Takes no memory.
pub fn advance<G: Datasets>(graph: &G, scope: &Scope, phys: &mut Phys, step: &Step)
    requires state { MayWalk (G.datasets graph.now) scope.now phys.old }
    requires comes { Comes (G.datasets graph.now) scope.now phys.old step.now }
    ensures turn { phys.new ≡ advanced (G.datasets graph.now) scope.now phys.old step.now }
    ensures goes_on { MayWalk (G.datasets graph.now) scope.now phys.new }
{
    make(graph, scope, phys, step);
}

/// Makes the turn's change of the state.
fn make<G: Datasets>(graph: &G, scope: &Scope, phys: &mut Phys, step: &Step)
    requires state { MayWalk (G.datasets graph.now) scope.now phys.old }
    requires comes { Comes (G.datasets graph.now) scope.now phys.old step.now }
    ensures { phys.new ≡ advanced (G.datasets graph.now) scope.now phys.old step.now }
{
    match *step {
        Step::Nothing => {}
        Step::Skip => skip(phys),
        Step::Enter(id, min) => enter(graph, scope, phys, id, min),
        Step::At(key, _) => phys.at = behind(phys.at, key),
        Step::End(id) => end(graph, phys, id),
    }
}

/// Leaves a destroyed dataset, or takes the first dataset out of the queue.
fn skip(phys: &mut Phys)
    ensures { phys.new ≡ skipped phys.old.at phys.old }
{
    match phys.at {
        At::Nowhere => phys.todo.remove_first(),
        At::Destroyed => leave(phys),
        At::Dataset(_, _) => {}
    }
}

/// Begins a pass over the first dataset of the queue.
fn enter<G: Datasets>(graph: &G, scope: &Scope, phys: &mut Phys, id: DsId, min: u64)
    ensures { phys.new ≡ advanced (G.datasets graph.now) scope.now phys.old (steps.Enter id min) }
{
    phys.at = At::Dataset(id, Key::ROOT);
    phys.curmin = scope.min.max(min);
    phys.curmax = pass_end(graph, id, scope.max);
    phys.again = false;
    phys.todo.remove_first();
}

/// The last transaction group of a whole pass over the dataset, in a scan with this max.
fn pass_end<G: Datasets>(graph: &G, id: DsId, max: u64) -> u64
    ensures { result ≡ end_of_pass (dataset_at (G.datasets graph.now) id) max }
{
    match graph.creation(id) {
        Some(creation) => max.min(creation),
        None => max,
    }
}

/// The bookmark behind the block at the key.
fn behind(at: At, key: Key) -> At
    requires { key.depth < 4 }
    ensures { result ≡ behind at key }
{
    match at {
        At::Dataset(id, _) => At::Dataset(id, key.after()),
        At::Nowhere => At::Nowhere,
        At::Destroyed => At::Destroyed,
    }
}

/// Ends the pass over the dataset: it is queued once more, from the pass's end on, or those that stand on it are.
fn end<G: Datasets>(graph: &G, phys: &mut Phys, id: DsId)
    requires order { IsInIdOrder (G.datasets graph.now) }
    requires heads { AreHeadsUndated (G.datasets graph.now) }
    requires room { length phys.old.todo + length (queued_at_end (G.datasets graph.now) phys.old id) ≤ DATASETS }
    ensures { phys.new ≡ record (left phys.old) { todo = phys.old.todo ++ queued_at_end (G.datasets graph.now) phys.old id } }
{
    if phys.again {
        let min = phys.curmax;
        leave(phys);
        phys.todo.push(Todo { id, min });
    } else {
        let min = graph.creation(id).unwrap_or(0);
        leave(phys);
        queue_children(graph, id, min, &mut phys.todo);
    }
}

/// Leaves the dataset.
fn leave(phys: &mut Phys)
    ensures { phys.new ≡ left phys.old }
{
    phys.at = At::Nowhere;
    phys.curmin = 0;
    phys.curmax = 0;
    phys.again = false;
}

/// Puts the datasets that stand on this one at the end of the queue, each with this min.
fn queue_children<G: Datasets>(graph: &G, id: DsId, min: u64, todo: &mut Todos)
    requires order { IsInIdOrder (G.datasets graph.now) }
    requires room { length todo.old + length (children_of (G.datasets graph.now) id) ≤ DATASETS }
    ensures { todo.new ≡ todo.old ++ map (entry min) (children_of (G.datasets graph.now) id) }
{
    let mut last = None;
    while let Some(child) = graph.child_after(id, last) {
        todo.push(Todo { id: child, min });
        last = Some(child);
    }
}

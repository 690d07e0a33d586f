//! Running the tasks of a transaction group.

ghost use Rattle.std.specs.Prelude.{◌≡◌, ◌≢◌, ◌≤◌, ◌+◌, [], IfOk, OnErr, OnOk, length, option_map, vec_len, vec_capacity};
ghost use Rattle.zs_graph.specs.declared.fault.GraphFault.TheVariants.{Memory};
ghost use Rattle.zs_graph.specs.Made.{IsUpTo};
ghost use Rattle.zs_machine.specs.Replies.{after_tasks, head_named, reason, task_answers};
ghost use Rattle.zs_core.specs.View.{data_of};
ghost use Rattle.zs_core.specs.Running.{HaveRun, RanTask, RunsOn, refusal_by};

use crate::born::drop_freed;
use std::alloc::AllocError;
use zs_flat::Flat;
use zs_graph::{Graph, GraphFault};
use zs_ids::{DsId, DsName, Item, Name};
use zs_scan::laws::clone_law;
use zs_scan::{Scan, ScanFault};
use zs_script::Refusal;
use zs_txg::{OpenTxg, Task};

/// The head of that name.
fn head_named(graph: &Graph<Flat>, name: &Name) -> Option<DsId>
    ensures { result ≡ option_map (λ d. d.id) (head_named graph.now.sets name.now) }
{
    graph.find(&DsName {
        owner: *name,
        label: Name::EMPTY,
    })
}

/// Why a change of the datasets is refused, as the reply to a task has it; or memory was wanting.
fn refused(why: GraphFault) -> Result<Option<Refusal>, AllocError>
    ensures ok { IfOk result (λ told. (told ≡ reason why) × (why ≢ Memory)) }
    ensures err { OnErr result (why ≡ Memory) }
{
    let told = match why {
        GraphFault::NoDataset => Refusal::NoDataset,
        GraphFault::Exists => Refusal::Exists,
        GraphFault::NotHead => Refusal::NotHead,
        GraphFault::NotSnapshot => Refusal::NotSnapshot,
        GraphFault::HasClones => Refusal::HasClones,
        GraphFault::HasSnapshots => Refusal::HasSnapshots,
        GraphFault::NotSiblings => Refusal::NotSiblings,
        GraphFault::SameTxg => Refusal::SameTxg,
        GraphFault::TooMany => Refusal::TooMany,
        GraphFault::Memory => return Err(AllocError),
    };
    Ok(Some(told))
}

/// Makes a filesystem.
fn run_fs(
    txg: u64,
    name: &Name,
    graph: &mut Graph<Flat>,
    scan: &Scan,
    items: &[Item],
) -> Result<Option<Refusal>, AllocError>
    ensures ran { IfOk result
        (λ why. RanTask txg (Task.Fs name.now) graph.old scan.now why graph.new scan.now) }
    ensures runs_on { RunsOn txg graph.old.sets scan.now items.now graph.new.sets scan.now items.now }
{
    clone_law();
    match graph.make_fs(name) {
        Ok(_) => Ok(None),
        Err(why) => refused(why),
    }
}

/// Takes a snapshot of a head. Bookmark and queue of the walk move from the head to the snapshot.
fn run_snap(
    txg: u64,
    head: &Name,
    label: &Name,
    graph: &mut Graph<Flat>,
    scan: &mut Scan,
    items: &[Item],
) -> Result<Option<Refusal>, AllocError>
    requires up_to { IsUpTo graph.old.sets txg }
    ensures ran { IfOk result
        (λ why. RanTask txg (Task.Snap head.now label.now) graph.old scan.old why graph.new scan.new) }
    ensures runs_on { RunsOn txg graph.old.sets scan.old items.now graph.new.sets scan.new items.now }
{
    graph.facts();
    let Some(id) = head_named(graph, head) else {
        return Ok(Some(Refusal::NoDataset));
    };
    match graph.snapshot(id, label, txg) {
        Ok(snap) => {
            scan.snapshotted(id, snap);
            Ok(None)
        }
        Err(why) => refused(why),
    }
}

/// Makes a head on a snapshot.
fn run_clone(
    txg: u64,
    ds: &DsName,
    name: &Name,
    graph: &mut Graph<Flat>,
    scan: &Scan,
    items: &[Item],
) -> Result<Option<Refusal>, AllocError>
    ensures ran { IfOk result
        (λ why. RanTask txg (Task.Clone ds.now name.now) graph.old scan.now why graph.new scan.now) }
    ensures runs_on { RunsOn txg graph.old.sets scan.now items.now graph.new.sets scan.now items.now }
{
    graph.facts();
    let Some(snap) = graph.find(ds) else {
        return Ok(Some(Refusal::NoDataset));
    };
    clone_law();
    match graph.clone_of(snap, name) {
        Ok(_) => Ok(None),
        Err(why) => refused(why),
    }
}

/// Destroys a dataset. Bookmark and queue of the walk leave it for its child, where it has one; what it alone held is freed,
/// and is none of the items any more.
fn run_destroy(
    txg: u64,
    ds: &DsName,
    graph: &mut Graph<Flat>,
    scan: &mut Scan,
    items: &mut Vec<Item>,
) -> Result<Option<Refusal>, AllocError>
    ensures ran { IfOk result
        (λ why. RanTask txg (Task.Destroy ds.now) graph.old scan.old why graph.new scan.new) }
    ensures runs_on { RunsOn txg graph.old.sets scan.old items.old.items graph.new.sets scan.new items.new.items }
{
    graph.facts();
    let Some(id) = graph.find(ds) else {
        return Ok(Some(Refusal::NoDataset));
    };
    match graph.destroy(id) {
        Ok(freed) => {
            scan.destroyed(id, freed.next);
            scan.freed_all(freed.items.as_slice());
            drop_freed(items, freed.items.as_slice());
            Ok(None)
        }
        Err(why) => refused(why),
    }
}

/// Swaps what two heads hold. Bookmark and queue of the walk go with it.
fn run_swap(
    txg: u64,
    first: &Name,
    second: &Name,
    graph: &mut Graph<Flat>,
    scan: &mut Scan,
    items: &[Item],
) -> Result<Option<Refusal>, AllocError>
    ensures ran { IfOk result
        (λ why. RanTask txg (Task.Swap first.now second.now) graph.old scan.old why graph.new scan.new) }
    ensures runs_on { RunsOn txg graph.old.sets scan.old items.now graph.new.sets scan.new items.now }
{
    graph.facts();
    let (Some(a), Some(b)) = (head_named(graph, first), head_named(graph, second)) else {
        return Ok(Some(Refusal::NoDataset));
    };
    match graph.swap(a, b) {
        Ok(()) => {
            scan.swapped(a, b);
            Ok(None)
        }
        Err(why) => refused(why),
    }
}

/// Why a call of the scan is refused, as the reply to a task has it.
fn refusal_by(outcome: Result<(), ScanFault>) -> Option<Refusal>
    ensures { result ≡ refusal_by outcome }
{
    match outcome {
        Ok(()) => None,
        Err(ScanFault::ScanBusy) => Some(Refusal::ScanBusy),
        Err(ScanFault::NoScan | ScanFault::Memory) => Some(Refusal::NoScan),
        Err(ScanFault::Paused) => Some(Refusal::Paused),
        Err(ScanFault::NotPaused) => Some(Refusal::NotPaused),
        Err(ScanFault::Full) => Some(Refusal::Full),
        Err(ScanFault::Draining) => Some(Refusal::Draining),
    }
}

/// Starts a scrub of what is born before a transaction group, or resumes a paused one.
fn run_scrub(txg: u64, graph: &Graph<Flat>, scan: &mut Scan, items: &[Item]) -> Option<Refusal>
    ensures ran { RanTask txg Task.Scrub graph.now scan.old result graph.now scan.new }
    ensures runs_on { RunsOn txg graph.now.sets scan.old items.now graph.now.sets scan.new items.now }
{
    if scan.start_scrub(txg, 0).is_err() {
        return Some(Refusal::ScanBusy);
    }
    None
}

/// Pauses the scrub.
fn run_pause(txg: u64, graph: &Graph<Flat>, scan: &mut Scan, items: &[Item]) -> Option<Refusal>
    ensures ran { RanTask txg Task.Pause graph.now scan.old result graph.now scan.new }
    ensures runs_on { RunsOn txg graph.now.sets scan.old items.now graph.now.sets scan.new items.now }
{
    refusal_by(scan.pause())
}

/// Lets the paused scrub go on.
fn run_resume(txg: u64, graph: &Graph<Flat>, scan: &mut Scan, items: &[Item]) -> Option<Refusal>
    ensures ran { RanTask txg Task.Resume graph.now scan.old result graph.now scan.new }
    ensures runs_on { RunsOn txg graph.now.sets scan.old items.now graph.now.sets scan.new items.now }
{
    refusal_by(scan.resume())
}

/// Cancels the scan, paused or not.
fn run_stop(txg: u64, graph: &Graph<Flat>, scan: &mut Scan, items: &[Item]) -> Option<Refusal>
    ensures ran { RanTask txg Task.Stop graph.now scan.old result graph.now scan.new }
    ensures runs_on { RunsOn txg graph.now.sets scan.old items.now graph.now.sets scan.new items.now }
{
    refusal_by(scan.stop())
}

/// Runs a task, and answers why it is refused. A refused one changes nothing, nor does one for which memory was wanting.
pub(crate) fn run_task(
    txg: u64,
    task: &Task,
    graph: &mut Graph<Flat>,
    scan: &mut Scan,
    items: &mut Vec<Item>,
) -> Result<Option<Refusal>, AllocError>
    requires up_to { IsUpTo graph.old.sets txg }
    ensures ran { IfOk result (λ why. RanTask txg task.now graph.old scan.old why graph.new scan.new) }
    ensures runs_on { RunsOn txg graph.old.sets scan.old items.old.items graph.new.sets scan.new items.new.items }
{
    match task {
        Task::Fs { name } => run_fs(txg, name, graph, scan, items),
        Task::Snap { head, label } => run_snap(txg, head, label, graph, scan, items),
        Task::Clone { ds, name } => run_clone(txg, ds, name, graph, scan, items),
        Task::Destroy { ds } => run_destroy(txg, ds, graph, scan, items),
        Task::Swap { first, second } => run_swap(txg, first, second, graph, scan, items),
        Task::Scrub => Ok(run_scrub(txg, graph, scan, items)),
        Task::Pause => Ok(run_pause(txg, graph, scan, items)),
        Task::Resume => Ok(run_resume(txg, graph, scan, items)),
        Task::Stop => Ok(run_stop(txg, graph, scan, items)),
    }
}

/// Runs the tasks of a transaction group in order, and puts why each is refused into the list, which is empty and has room for
/// the answers. Where memory was wanting, the tasks before have run.
pub(crate) fn run_tasks(
    txg: &OpenTxg,
    graph: &mut Graph<Flat>,
    scan: &mut Scan,
    items: &mut Vec<Item>,
    answers: &mut Vec<Option<Refusal>>,
) -> Result<(), AllocError>
    requires up_to { IsUpTo graph.old.sets txg.now.txg }
    requires empty { answers.old.items ≡ [] }
    requires room { vec_len answers.old + length txg.now.tasks ≤ vec_capacity answers.old }
    ensures answers { OnOk result
        (answers.new.items ≡ task_answers txg.now.txg (data_of graph.old scan.old) txg.now.tasks) }
    ensures after { OnOk result
        (data_of graph.new scan.new ≡ after_tasks txg.now.txg (data_of graph.old scan.old) txg.now.tasks) }
    ensures ran { OnOk result (HaveRun txg.now.txg (data_of graph.old scan.old) txg.now.tasks scan.old scan.new) }
    ensures runs_on { RunsOn txg.now.txg graph.old.sets scan.old items.old.items graph.new.sets scan.new items.new.items }
{
    let number = txg.txg();
    for (_, task) in txg.queued() {
        let refusal = run_task(number, task, graph, scan, items)?;
        answers.push_reserved(refusal);
    }
    Ok(())
}

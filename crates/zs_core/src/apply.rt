//! The end of a sync's data: the blocks are put over the heads' own, the tasks run, and the scan may come to its end.

ghost use Rattle.std.specs.Prelude.{◌≡◌, ◌≢◌, [], None, IfOk, OnOk, OnErr, true, false};
ghost use Rattle.zs_graph.specs.Made.{MayPutAt};
ghost use Rattle.zs_graph.specs.Refusals.{apply_refusal};
ghost use Rattle.zs_walk.specs.Walking.{runs};
ghost use Rattle.zs_scan.specs.Steps.{IsComplete, IsDrained};
ghost use Rattle.zs_core.specs.View.{tasks_in};
ghost use Rattle.zs_machine.specs.Steps.{DataStep};
ghost use Rattle.zs_core.specs.Applying.{BringForth, HasApplied, HasPut, IsReady, IsTended, PutsOwn, Space, space_in};
ghost use Rattle.zs_core.specs.Ending.{EndsWith};
ghost use Rattle.zs_core.specs.Synced.{AreItemsOf, IsSynced};
ghost use Rattle.zs_core.specs.Running.{KeepsRest};
ghost use Rattle.zs_core.specs.Safe.{IsHaltedCore};

use crate::born::items_of;
use crate::parts::{Changes, Closed};
use crate::present::Present;
use crate::tasks::run_tasks;
use std::alloc::{AllocError, Global};
use std::mem;
use zs_flat::Flat;
use zs_graph::{Graph, GraphFault};
use zs_ids::{Boxed, Item, Seq};
use zs_machine::Stage;
use zs_scan::Scan;
use zs_scan::laws::apply_law;
use zs_script::Refusal;
use zs_txg::OpenTxg;

/// Puts the blocks that are staged for a dataset over its own. What is not live any more is freed. After want of memory nothing
/// has changed.
fn put_own(
    t: u64,
    own: &Changes,
    graph: &mut Graph<Flat>,
    scan: &mut Scan,
) -> Result<(), AllocError>
    requires may { own.now.blocks.items ≢ [] → MayPutAt graph.old.sets own.now.ds own.now.blocks.items t }
    requires is_head { own.now.blocks.items ≢ [] → apply_refusal graph.old own.now.ds ≡ None }
    ensures ok { OnOk result (PutsOwn t own.now graph.old scan.old graph.new scan.new) }
    ensures err { OnErr result ((graph.new ≡ graph.old) × (scan.new ≡ scan.old)) }
{
    if own.blocks.is_empty() {
        return Ok(());
    }
    match graph.apply(own.ds, &own.blocks, t) {
        Ok(freed) => {
            apply_law();
            scan.freed_all(freed.items.as_slice());
            Ok(())
        }
        Err(GraphFault::Memory) => Err(AllocError),
        Err(_) => unreachable!(),
    }
}

/// Puts the blocks that are staged for the datasets over their own, dataset after dataset. After want of memory some datasets
/// have theirs.
fn put_all(
    txg: &OpenTxg,
    changes: &[Changes],
    graph: &mut Graph<Flat>,
    scan: &mut Scan,
) -> Result<(), AllocError>
    ghost space: { Space }
    requires ready { IsReady space txg.now changes.now graph.old.sets scan.old }
    ensures ok { OnOk result (HasPut txg.now graph.old scan.old graph.new scan.new) }
    ensures born { OnOk result (BringForth changes.now txg.now.txg graph.new.sets) }
    ensures tended { IsTended space txg.now.txg graph.new.sets scan.new }
    ensures rest { KeepsRest scan.old scan.new }
{
    let t = txg.txg();
    for own in changes {
        put_own(t, own, graph, scan)?;
    }
    Ok(())
}

/// Applies a closed transaction group and runs its tasks, whose refusals are put into the list, which is empty. Answers the items
/// of the pieces that are born in it and live, in order of place. After want of memory some of it is done.
fn apply_group(
    alloc: Global,
    closed: &Closed,
    graph: &mut Graph<Flat>,
    scan: &mut Scan,
    answers: &mut Vec<Option<Refusal>>,
) -> Result<Boxed<Seq<Item>>, AllocError>
    ghost space: { Space }
    requires ready { IsReady space closed.now.txg closed.now.changes.items graph.old.sets scan.old }
    requires empty { answers.old.items ≡ [] }
    ensures ok { IfOk result
        (λ items. HasApplied closed.now graph.old scan.old answers.new.items items graph.new scan.new) }
    ensures tended { IsTended space closed.now.txg.txg graph.new.sets scan.new }
    ensures rest { KeepsRest scan.old scan.new }
{
    answers.reserve(closed.txg.tasks() as usize)?;
    let mut items = items_of(alloc, &closed.changes)?;
    put_all(&closed.txg, &closed.changes, graph, scan)?;
    run_tasks(&closed.txg, graph, scan, &mut items, answers)?;
    let items = Boxed::new(alloc, Seq::from_vec(items))?;
    Ok(items)
}

/// Ends the scan in a transaction group where it is complete, and answers whether it did. Else it makes a checkpoint, where it
/// is scanning, paused or not, and nothing waits and no batch is in flight.
fn end_scan(txg: u64, scan: &mut Scan) -> bool
    ensures { EndsWith txg scan.old result scan.new }
{
    if scan.finish() {
        return true;
    }
    if !scan.is_running() {
        return false;
    }
    scan.checkpoint(txg);
    false
}

impl Present {
    /// Applies the closed transaction group, and answers the items of the pieces that are born in it and live, in order of
    /// place. What is not live any more is freed, and the tasks change the datasets and the scan. A scan that is complete then
    /// comes to its end, so none is complete after; another one makes a checkpoint where it may, and one of which nothing
    /// waited or flew before has made one if it still runs. All else of the scan stays as it
    /// was. After want of memory the pool is
    /// suspended, and may have some of the group.
    pub(crate) fn apply(&mut self) -> Result<Boxed<Seq<Item>>, AllocError>
        ghost space: { Space }
        requires space { space ≡ space_in self.old }
        requires up { self.old.state.suspended ≡ false }
        requires writing { self.old.state.stage ≡ Stage.Writing }
        ensures step { IfOk result (λ items. DataStep self.old.state items self.new.state) }
        ensures complete { OnOk result (IsComplete self.old.scan → tasks_in self.old.state.closed ≡ [] → self.new.state.finished ≡ true) }
        ensures saved { OnOk result (IsDrained self.old.scan → runs self.new.scan.run.status ≡ true → self.new.scan.saved ≡ self.new.state.applied) }
        ensures never { OnOk result (IsComplete self.new.scan → ⊥) }
        ensures scan { OnOk result (IsSynced self.old.state self.old.scan self.new.scan) }
        ensures rest { OnOk result (self.new ≡ record self.old { state = self.new.state; scan = self.new.scan; pointers = [] }) }
        ensures items { IfOk result (λ items. AreItemsOf self.old.pointers items) }
        ensures stage { OnOk result (self.new.state.stage ≡ Stage.Labelling) }
        ensures flight { self.new.scan.flight ≡ self.old.scan.flight }
        ensures err { OnErr result (IsHaltedCore self.old self.new) }
    {
        let Some(closed) = mem::replace(&mut self.closed, None) else {
            unreachable!();
        };
        let mut answers = Vec::new(self.alloc);
        let applied = apply_group(
            self.alloc,
            &closed,
            &mut self.graph,
            &mut self.scan,
            &mut answers,
        );
        self.applied = closed.txg.txg();
        let Ok(items) = applied else {
            self.suspended = true;
            self.stage = Stage::Between;
            return Err(AllocError);
        };
        self.answers = answers;
        self.finished = end_scan(self.applied, &mut self.scan);
        self.stage = Stage::Labelling;
        Ok(items)
    }
}

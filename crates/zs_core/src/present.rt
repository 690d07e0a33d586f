//! The present state of a pool: each call makes one step of the machine.

ghost use Rattle.std.specs.Prelude.{◌≡◌, ◌<◌, ◌≤◌, ◌+◌, ◌++◌, ◌∷◌, [], None, Some, true, false, IfOk, OnOk, OnErr, map, take, drop, length, if◌then◌else◌};
ghost use Rattle.zs_objset.specs.Staged.{pointers_of};
ghost use Rattle.zs_ids.specs.Graph.{Dataset};
ghost use Rattle.zs_ids.specs.GraphTree.{dataset_at};
ghost use Rattle.zs_ids.specs.GraphValid.{IsInIdOrder};
ghost use Rattle.zs_machine.specs.Machine.{PoolState, is_running};
ghost use Rattle.zs_walk.specs.Walking.{runs};
ghost use Rattle.zs_scan.specs.Steps.{blank_scan};
ghost use Rattle.zs_machine.specs.Steps.{TaskStep, blank_state, empty_txg, committed_reply, finished_line, begun_sync};
ghost use Rattle.zs_machine.specs.Writes.{AreStagedBlocks, AreInRoom, AreApart};
ghost use Rattle.zs_machine.specs.Replies.{task_reply, after_queued};
ghost use Rattle.zs_core.specs.Calls.{IsPlain};
ghost use Rattle.zs_machine.specs.Shapes.{IsShape, IsLeast, data_start, room_in};
ghost use Rattle.zs_core.specs.Safe.{IsHaltedCore, IsSafe};
ghost use Rattle.zs_core.specs.View.{CoreView, KeepsCourse};
ghost use Rattle.zs_core.specs.Staging.{AreMade, AreMadeBehind, AreReady};

use crate::parts::{Changes, Closed};
use crate::status::{counted, kind_word};
use std::alloc::{AllocError, Global};
use std::marker::Model;
use zs_flat::Flat;
use zs_graph::Graph;
use zs_ids::limits::TXG_END;
use zs_ids::{Bp, DsId, Key, Seq};
use zs_machine::{OpenRead, Shape, Stage};
use zs_objset::{StagedBlock, staged_blocks};
use zs_scan::Scan;
use zs_script::{Finished, Refusal, Reply};
use zs_txg::{OpenTxg, Task};

/// The present state.
#[derive(Drop)]
pub(crate) struct Present {
    pub(crate) alloc: Global,
    pub(crate) shape: Shape,
    pub(crate) online: u32,
    pub(crate) next_sector: u32,
    pub(crate) end_sector: u32,
    pub(crate) graph: Graph<Flat>,
    pub(crate) applied: u64,
    pub(crate) open: OpenTxg,
    pub(crate) closed: Option<Closed>,
    pub(crate) stage: Stage,
    pub(crate) scan: Scan,
    pub(crate) suspended: bool,
    pub(crate) answers: Vec<Option<Refusal>>,
    pub(crate) finished: bool,
    pub(crate) reads: Vec<OpenRead>,
}

impl Model for Present {
    ghost use Rattle.zs_core.specs.View.{CoreView};

    ghost Value = { CoreView };

    ghost use Rattle.zs_core.specs.Kept.{view_of, Facts};

    ghost view = { view_of };

    ghost invariant = { Facts };
}

impl Present {
    /// The state of a pool that is made with these numbers.
    pub(crate) fn blank(alloc: Global, shape: Shape) -> Result<Self, AllocError>
        requires { IsShape shape }
        ensures state { IfOk result (λ p. p.state ≡ blank_state shape.width shape.devices) }
        ensures scan { IfOk result (λ p. p.scan ≡ blank_scan shape.devices shape.width shape.limit shape.every p.scan.room) }
        ensures shape { IfOk result (λ p. p.shape ≡ shape) }
        ensures pointers { IfOk result (λ p. p.pointers ≡ []) }
        ensures space { IfOk result (λ p. p.next_sector ≡ data_start shape.blocks) }
        ensures end { IfOk result (λ p. IsLeast p.end_sector shape.sectors) }
    {
        let scan = Scan::blank(alloc, shape.devices, shape.width, shape.limit, shape.every)?;
        let graph = Graph::new(alloc)?;
        let online = (1u32 << shape.devices) - 1;
        let next_sector = shape.data_start();
        let end_sector = shape.space_end();
        let open = OpenTxg::new(alloc, 2);
        let first = OpenTxg::new(alloc, 1);
        let none = Vec::new(alloc);
        let mut changes = Vec::new(alloc);
        changes.push(Changes {
            ds: DsId::ORIGIN,
            blocks: none,
        })?;
        Ok(Present {
            alloc,
            shape,
            online,
            next_sector,
            end_sector,
            graph,
            applied: 0,
            open,
            closed: Some(Closed {
                txg: first,
                changes,
            }),
            stage: Stage::Writing,
            scan,
            suspended: false,
            answers: Vec::new(alloc),
            finished: false,
            reads: Vec::new(alloc),
        })
    }

    /// What is true of each state.
    pub(crate) fn facts(&self)
        ensures { IsSafe self.now }
    {
        self.scan.facts();
    }

    /// Whether the pool is suspended.
    pub(crate) fn is_suspended(&self) -> bool
        ensures { result ≡ self.now.state.suspended }
    {
        self.suspended
    }

    /// How far the sync in progress has come.
    pub(crate) fn stage(&self) -> Stage
        ensures { result ≡ self.now.state.stage }
    {
        self.stage
    }

    /// The devices that are online.
    pub(crate) fn online(&self) -> u32
        ensures { result ≡ self.now.state.online }
    {
        self.online
    }

    /// Whether a scan is running.
    pub(crate) fn is_scanning(&self) -> bool
        ensures machine { result ≡ is_running self.now.state.scan }
        ensures scan { result ≡ runs self.now.scan.run.status }
    {
        self.scan.is_running()
    }

    /// Whether a scan is paused.
    pub(crate) fn is_paused(&self) -> bool
        ensures machine { result ≡ self.now.state.scan.paused }
        ensures scan { result ≡ self.now.scan.run.paused }
    {
        self.scan.run().paused
    }

    /// The numbers that the pool was made with.
    pub(crate) fn shape(&self) -> &Shape
        ensures { result.now ≡ self.now.shape }
    {
        &self.shape
    }

    /// The scan.
    pub(crate) fn scan(&self) -> &Scan
        ensures { result.now ≡ self.now.scan }
    {
        &self.scan
    }

    /// The open transaction group.
    pub(crate) fn open_txg(&self) -> u64
        ensures txg { result ≡ self.now.state.open_txg.txg }
        ensures limit { result ≤ TXG_END }
    {
        self.open.txg()
    }

    /// Queues a task.
    pub(crate) fn queue(&mut self, by: u8, task: Task) -> Result<Reply, AllocError>
        ensures step { IfOk result (λ answer. TaskStep self.old.state by task answer self.new.state) }
        ensures plain { IfOk result IsPlain }
        ensures kept { KeepsCourse self.old.state self.new.state }
        ensures rest { OnOk result (self.new ≡ record self.old { state = self.new.state }) }
        ensures err { OnErr result (self.new ≡ self.old) }
    {
        if self.suspended {
            return Ok(Reply::Refused(Refusal::Suspended));
        }
        let txg = self.open.txg();
        if txg == TXG_END {
            return Ok(Reply::Refused(Refusal::TxgEnd));
        }
        let task = self.open.queue(by, task)?;
        Ok(Reply::Queued { txg, task })
    }

    /// Closes the open transaction group, and answers the blocks that are staged in it. No sync is in progress, and
    /// a transaction group is left.
    pub(crate) fn begin(&mut self) -> Result<Vec<StagedBlock>, AllocError>
        requires between { self.old.state.stage ≡ Stage.Between }
        requires up { self.old.state.suspended ≡ false }
        requires room { self.old.state.open_txg.txg < TXG_END }
        ensures was { OnOk result (self.old.state.closed ≡ None) }
        ensures blocks { IfOk result (λ blocks. AreStagedBlocks self.old.state.graph self.old.state.open_txg blocks.items) }
        ensures within { IfOk result (λ blocks. AreInRoom (room_in self.old.shape self.old.end_sector 0) blocks.items) }
        ensures apart { IfOk result (λ blocks. AreApart blocks.items) }
        ensures step { OnOk result (self.new.state ≡ begun_sync self.old.state) }
        ensures pointers { IfOk result (λ blocks. self.new.pointers ≡ pointers_of blocks.items) }
        ensures rest { OnOk result (self.new ≡ record self.old { state = self.new.state; pointers = self.new.pointers }) }
        ensures err { OnErr result (self.new ≡ self.old) }
    {
        let txg = self.open.txg();
        let (blocks, changes) = staged_of(self.alloc, &self.graph, &self.open)?;
        let open = OpenTxg::new(self.alloc, txg + 1);
        let closed = std::mem::replace(&mut self.open, open);
        self.closed = Some(Closed {
            txg: closed,
            changes,
        });
        self.stage = Stage::Writing;
        Ok(blocks)
    }

    /// The reply to the sync that was applied; that of the sync that makes the pool has no text.
    pub(crate) fn committed_reply(&self) -> Result<Reply, AllocError>
        ensures { IfOk result (λ answer. answer ≡ committed_reply self.now.state) }
    {
        if self.applied == 1 {
            return Ok(Reply::Nothing);
        }
        let tasks = Seq::from_slice(self.alloc, &self.answers)?;
        Ok(Reply::Committed {
            txg: self.applied,
            tasks,
            finished: self.finished_line(),
        })
    }

    /// The line of a scan that came to its end.
    fn finished_line(&self) -> Option<Finished>
        ensures { result ≡ finished_line self.now.state }
    {
        if !self.finished {
            return None;
        }
        Some(Finished {
            kind: kind_word(self.scan.scope().kind),
            checked: counted(self.scan.ledger().len()),
            errors: counted(self.scan.ledger().error_count()),
        })
    }

    /// Commits what was applied.
    pub(crate) fn commit(&mut self)
        requires { self.old.state.stage ≡ Stage.Labelling }
        ensures { self.new ≡ record self.old { state = record self.old.state { stage = Stage.Between } } }
    {
        self.stage = Stage::Between;
    }

    /// Suspends the pool because memory was wanting in its sync, whose blocks are dropped.
    pub(crate) fn suspend(&mut self)
        ensures { IsHaltedCore self.old self.new }
    {
        self.closed = None;
        self.suspended = true;
        self.stage = Stage::Between;
    }
}

/// The blocks that are staged for the datasets, dataset after dataset, and the pointers to them, for each dataset in order.
fn staged_of(
    alloc: Global,
    graph: &Graph<Flat>,
    txg: &OpenTxg,
) -> Result<(Vec<StagedBlock>, Vec<Changes>), AllocError>
    ensures { IfOk result (λ v. AreReady graph.now.sets txg.now v.0.items v.1.items) }
{
    graph.facts();
    let ids = graph.ids()?;
    staged_of_each(alloc, graph, &ids, txg)
}

/// The same, where the ids of the datasets are known.
fn staged_of_each(
    alloc: Global,
    graph: &Graph<Flat>,
    ids: &[DsId],
    txg: &OpenTxg,
) -> Result<(Vec<StagedBlock>, Vec<Changes>), AllocError>
    requires ids { ids.now ≡ map (λ d. d.id) graph.now.sets }
    requires order { IsInIdOrder graph.now.sets }
    ensures { IfOk result (λ v. AreReady graph.now.sets txg.now v.0.items v.1.items) }
{
    let mut blocks = Vec::new(alloc);
    let mut changes = Vec::new(alloc);
    for ds in ids {
        add_staged(alloc, graph, *ds, txg, &mut blocks, &mut changes)?;
    }
    Ok((blocks, changes))
}

/// Puts the blocks that are staged for a dataset, and the pointers to them, behind those that are there.
fn add_staged(
    alloc: Global,
    graph: &Graph<Flat>,
    ds: DsId,
    txg: &OpenTxg,
    blocks: &mut Vec<StagedBlock>,
    changes: &mut Vec<Changes>,
) -> Result<(), AllocError>
    ensures { OnOk result ((d : Dataset) → dataset_at graph.now.sets ds ≡ Some d
        → AreMadeBehind d txg.now blocks.old.items blocks.new.items changes.old.items changes.new.items) }
{
    let mut own = staged_for(alloc, graph, ds, txg)?;
    let pointers = keyed_pointers(alloc, &own)?;
    changes.push(Changes {
        ds,
        blocks: pointers,
    })?;
    blocks.append(&mut own)?;
    Ok(())
}

/// The blocks that are staged for a dataset.
fn staged_for(
    alloc: Global,
    graph: &Graph<Flat>,
    ds: DsId,
    txg: &OpenTxg,
) -> Result<Vec<StagedBlock>, AllocError>
    ensures { IfOk result (λ v. (d : Dataset) → dataset_at graph.now.sets ds ≡ Some d → AreMade d txg.now v.items) }
{
    match graph.blocks(ds) {
        Some(map) => staged_blocks(alloc, map, ds, txg),
        None => Ok(Vec::new(alloc)),
    }
}

/// The keys and pointers of some blocks.
fn keyed_pointers(alloc: Global, blocks: &[StagedBlock]) -> Result<Vec<(Key, Bp)>, AllocError>
    ensures { IfOk result (λ v. v.items ≡ pointers_of blocks.now) }
{
    blocks
        .iter()
        .map(|block| (block.key, block.bp))
        .collect(alloc)
}

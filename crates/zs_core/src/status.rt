//! What `status` tells.

ghost use Rattle.std.specs.Prelude.{◌≡◌, IfOk, map};
ghost use Rattle.zs_ids.specs.GraphTree.{dataset_at};
ghost use Rattle.zs_machine.specs.Status.{counted, kind_word, state_word, TellsStatus};
ghost use Rattle.zs_core.specs.Status.{name_in, place_of, todo_of, walking_of, status_with, status_reply};

use crate::present::Present;
use std::alloc::{AllocError, Global};
use zs_flat::Flat;
use zs_graph::Graph;
use zs_ids::{Boxed, DsId, DsName, Name, Seq};
use zs_phys::{At, Kind, Status, Todo};
use zs_scan::Scan;
use zs_script::{Refusal, Reply, ScanKind, ScanState, ScanStatus, TodoEntry, WalkPlace, Walking};

/// A count as a reply tells it.
pub(crate) fn counted(count: usize) -> u32
    ensures { result ≡ counted count }
{
    u32::try_from(count).unwrap_or(u32::MAX)
}

/// The word for a scan's kind.
pub(crate) fn kind_word(kind: Kind) -> ScanKind
    ensures { result ≡ kind_word kind }
{
    match kind {
        Kind::Resilver => ScanKind::Resilver,
        _ => ScanKind::Scrub,
    }
}

/// The word for how a scan stands, where there was one.
fn state_word(status: Status, paused: bool) -> Option<ScanState>
    ensures { result ≡ state_word status paused }
{
    match status {
        Status::Never => None,
        Status::Scanning => Some(if paused {
            ScanState::Paused
        } else {
            ScanState::Scanning
        }),
        Status::Finished => Some(ScanState::Finished),
        Status::Canceled => Some(ScanState::Canceled),
    }
}

/// The name of a dataset; the origin has none.
pub(crate) fn name_of(graph: &Graph<Flat>, id: DsId) -> DsName
    ensures { result ≡ name_in (dataset_at graph.now.sets id) }
{
    graph.name(id).unwrap_or(DsName {
        owner: Name::EMPTY,
        label: Name::EMPTY,
    })
}

/// Where the walk stands.
fn place_of(graph: &Graph<Flat>, scan: &Scan) -> WalkPlace
    ensures { result ≡ place_of graph.now.sets scan.now.run scan.now.run.at }
{
    let run = scan.run();
    match run.at {
        At::Nowhere => WalkPlace::Nowhere,
        At::Destroyed => WalkPlace::Destroyed,
        At::Dataset(id, key) => WalkPlace::Dataset {
            ds: name_of(graph, id),
            key,
            curmin: run.curmin,
            curmax: run.curmax,
            again: run.again,
        },
    }
}

/// The datasets that the walk has yet to enter.
fn todo_of(alloc: Global, graph: &Graph<Flat>, todo: &[Todo]) -> Result<Vec<TodoEntry>, AllocError>
    ensures { IfOk result (λ v. v.items ≡ map (todo_of graph.now.sets) todo.now) }
{
    todo.iter()
        .map(|entry| TodoEntry {
            ds: name_of(graph, entry.id),
            min: entry.min,
        })
        .collect(alloc)
}

/// The range and the bookmark of a scan that runs.
fn walking_of(
    alloc: Global,
    graph: &Graph<Flat>,
    scan: &Scan,
) -> Result<Option<Walking>, AllocError>
    ensures { IfOk result (λ w. w ≡ walking_of graph.now.sets scan.now) }
{
    if !scan.is_running() {
        return Ok(None);
    }
    let todo = todo_of(alloc, graph, scan.run().todo.as_slice())?;
    Ok(Some(Walking {
        min: scan.scope().min,
        max: scan.scope().max,
        place: place_of(graph, scan),
        todo: Seq::from_vec(todo),
    }))
}

/// How the scan stands, where there was one.
fn status_of(
    alloc: Global,
    graph: &Graph<Flat>,
    scan: &Scan,
) -> Result<Option<Boxed<ScanStatus>>, AllocError>
    ensures { IfOk result (λ s. s ≡ status_with graph.now.sets scan.now (state_word scan.now.run.status scan.now.run.paused)) }
{
    let Some(state) = state_word(scan.run().status, scan.run().paused) else {
        return Ok(None);
    };
    let walking = walking_of(alloc, graph, scan)?;
    let status = ScanStatus {
        kind: kind_word(scan.scope().kind),
        state,
        checked: counted(scan.ledger().len()),
        errors: counted(scan.ledger().error_count()),
        waiting: scan.waiting(),
        flight: counted(scan.flying()),
        walking,
    };
    Ok(Some(Boxed::new(alloc, status)?))
}

impl Present {
    /// The reply to a `status`.
    pub(crate) fn status(&self) -> Result<Reply, AllocError>
        ensures reply { IfOk result (λ answer. answer ≡ status_reply self.now.state self.now.scan) }
        ensures tells { IfOk result (λ answer. TellsStatus self.now.state answer) }
    {
        if self.suspended {
            return Ok(Reply::Refused(Refusal::Suspended));
        }
        let scan = status_of(self.alloc, &self.graph, &self.scan)?;
        Ok(Reply::Status {
            txg: self.open.txg(),
            scan,
        })
    }
}

//! What `list` tells.

ghost use Rattle.std.specs.Prelude.{◌≡◌, IfOk, length, map};
ghost use Rattle.zs_ids.specs.GraphTree.{dataset_at, entries_of};
ghost use Rattle.zs_machine.specs.Listing.{TellsList, listed_of};
ghost use Rattle.zs_core.specs.Status.{listed_at};

use crate::present::Present;
use crate::status::{counted, name_of};
use std::alloc::{AllocError, Global};
use zs_flat::Flat;
use zs_graph::Graph;
use zs_ids::{Blocks, DsId, Seq};
use zs_script::{Listed, Refusal, Reply};

/// How many blocks a dataset holds.
fn block_count(graph: &Graph<Flat>, id: DsId) -> usize
    ensures { result ≡ length (entries_of (dataset_at graph.now.sets id)) }
{
    match graph.blocks(id) {
        Some(map) => map.len(),
        None => 0,
    }
}

/// A dataset, as a reply tells it.
fn listed_of(graph: &Graph<Flat>, id: DsId) -> Listed
    ensures { result ≡ listed_at graph.now.sets id }
{
    Listed {
        name: name_of(graph, id),
        creation: graph.created(id),
        blocks: counted(block_count(graph, id)),
    }
}

/// The datasets with some ids, as a reply tells them.
fn listed_each(alloc: Global, graph: &Graph<Flat>, ids: &[DsId]) -> Result<Vec<Listed>, AllocError>
    ensures { IfOk result (λ v. v.items ≡ map (listed_at graph.now.sets) ids.now) }
{
    ids.iter().map(|id| listed_of(graph, *id)).collect(alloc)
}

/// The datasets, as a reply tells them.
fn listed(alloc: Global, graph: &Graph<Flat>) -> Result<Vec<Listed>, AllocError>
    ensures { IfOk result (λ v. v.items ≡ map listed_of graph.now.sets) }
{
    graph.facts();
    let ids = graph.ids()?;
    listed_each(alloc, graph, &ids)
}

impl Present {
    /// The reply to `list`, twice: one for the caller and one for the event.
    pub(crate) fn list(&self) -> Result<(Reply, Reply), AllocError>
        ensures tells { IfOk result (λ replies. TellsList self.now.state replies.0) }
        ensures same { IfOk result (λ replies. replies.1 ≡ replies.0) }
    {
        if self.suspended {
            let refusal = Refusal::Suspended;
            return Ok((Reply::Refused(refusal), Reply::Refused(refusal)));
        }
        let sets = listed(self.alloc, &self.graph)?;
        let copy = Seq::from_slice(self.alloc, &sets)?;
        Ok((
            Reply::List { datasets: copy },
            Reply::List {
                datasets: Seq::from_vec(sets),
            },
        ))
    }
}

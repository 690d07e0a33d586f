//! What the walk asks of the datasets of a pool.

ghost use Rattle.std.specs.Prelude.{◌≡◌, find};
ghost use Rattle.zs_ids.specs.GraphTree.{dataset_at, children_of, next_in, taken_at, is_above};

use zs_graph::Graph;
use zs_ids::{Blocks, Bp, DsId, Key};

/// The datasets of a pool, in whatever form. Contracts see them as the list of datasets, in order of id.
pub trait Datasets {
    ghost use Rattle.std.specs.Prelude.{List};
    ghost use Rattle.zs_ids.specs.Graph.{Dataset};

    /// The datasets.
    ghost datasets: { Self → List Dataset };

    /// The dataset's least block at or after `from` that is born after the transaction group `above`, with its key.
    /// `None` where it has no such block, and where there is no such dataset.
    fn next_block(&self, id: DsId, from: Key, above: u64) -> Option<(Key, Bp)>
        ensures { result ≡ next_in (datasets self.now) id from above };

    /// The transaction group in which a snapshot was taken. `None` for a head, and where there is no such dataset.
    fn creation(&self, id: DsId) -> Option<u64>
        ensures { result ≡ taken_at (dataset_at (datasets self.now) id) };

    /// The first dataset, in order of id, that stands on this one; where `after` is given, the first behind that.
    fn child_after(&self, id: DsId, after: Option<DsId>) -> Option<DsId>
        ensures { result ≡ find (is_above after) (children_of (datasets self.now) id) };
}

impl<T: Blocks> Datasets for Graph<T> {
    ghost datasets = { λ g. g.sets };

    fn next_block(&self, id: DsId, from: Key, above: u64) -> Option<(Key, Bp)> {
        match self.blocks(id) {
            None => None,
            Some(blocks) => blocks.next_from(from, above),
        }
    }

    fn creation(&self, id: DsId) -> Option<u64> {
        Graph::creation(self, id)
    }

    fn child_after(&self, id: DsId, after: Option<DsId>) -> Option<DsId> {
        Graph::child_after(self, id, after)
    }
}

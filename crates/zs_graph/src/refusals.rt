//! Why a change of the datasets is refused: each answers the first of the reasons that hold, and else where the dataset
//! stands that is to be changed.

ghost use Rattle.std.specs.Prelude.{◌≡◌, ◌==◌, ◌&&◌, ◌||◌, IfErr, IfOk, None, OnOk, Some, filter, length, not, nat_lt, option_map};
ghost use Rattle.std.specs.List.{list_any};
ghost use Rattle.zs_ids.specs.GraphTree.{children_of, created, dataset_at, same_name, stands_on, start_of};
ghost use Rattle.zs_graph.specs.Refusals.{apply_refusal, clone_refusal, destroy_refusal, fs_refusal, has_head_named, has_snapshot_named, is_full, is_owned_by, is_sibling, parent_in, snapshot_refusal, swap_refusal};
ghost use Rattle.zs_graph.specs.ByIndex.{IsPlaceOf};
ghost use Rattle.zs_graph.specs.View.{IsIndexOf};

use crate::fault::GraphFault;
use crate::graph::{Graph, Set};
use crate::lookups::{same_name, stands_on};
use zs_ids::limits::DATASETS;
use zs_ids::{Blocks, DsId, Name};

impl<T: Blocks> Graph<T> {
    /// Whether a head has the name.
    fn has_head_named(&self, name: &Name) -> bool
        ensures { result ≡ has_head_named self.now.sets name.now }
    {
        has_head(&self.sets, name)
    }

    /// Whether a snapshot of this owner has the label.
    fn has_snapshot_named(&self, owner: &Name, label: &Name) -> bool
        ensures { result ≡ has_snapshot_named self.now.sets owner.now label.now }
    {
        has_snapshot(&self.sets, owner, label)
    }

    /// Whether there are as many datasets as may be, or the ids are used up.
    fn is_full(&self) -> bool
        ensures { result ≡ is_full self.now }
    {
        self.sets.len() == DATASETS || self.next == u32::MAX
    }

    /// Whether a filesystem may be made.
    pub(crate) fn may_make(&self, name: &Name) -> Result<(), GraphFault>
        ensures err { IfErr result (λ why. fs_refusal self.now name.now ≡ Some why) }
        ensures ok { OnOk result (fs_refusal self.now name.now ≡ None) }
    {
        if self.has_head_named(name) {
            return Err(GraphFault::Exists);
        }
        if self.is_full() {
            return Err(GraphFault::TooMany);
        }
        Ok(())
    }

    /// Whether a clone of a snapshot may be made.
    pub(crate) fn may_clone(&self, snap: DsId, name: &Name) -> Result<usize, GraphFault>
        ensures err { IfErr result (λ why. clone_refusal self.now snap name.now ≡ Some why) }
        ensures ok { OnOk result (clone_refusal self.now snap name.now ≡ None) }
        ensures place { IfOk result (λ at. IsIndexOf self.now.sets snap (Some at)) }
    {
        let Some(at) = self.index_of(snap) else {
            return Err(GraphFault::NoDataset);
        };
        if self.has_head_named(name) {
            return Err(GraphFault::Exists);
        }
        if self.sets[at].head {
            return Err(GraphFault::NotSnapshot);
        }
        if self.is_full() {
            return Err(GraphFault::TooMany);
        }
        Ok(at)
    }

    /// Whether a snapshot of a head may be taken in the transaction group t.
    pub(crate) fn may_snapshot(&self, head: DsId, label: &Name, t: u64) -> Result<usize, GraphFault>
        ensures err { IfErr result (λ why. snapshot_refusal self.now head label.now t ≡ Some why) }
        ensures ok { OnOk result (snapshot_refusal self.now head label.now t ≡ None) }
        ensures place { IfOk result (λ at. IsIndexOf self.now.sets head (Some at)) }
    {
        let Some(at) = self.index_of(head) else {
            return Err(GraphFault::NoDataset);
        };
        let of = &self.sets[at];
        if self.has_snapshot_named(&of.owner, label) {
            return Err(GraphFault::Exists);
        }
        if !of.head {
            return Err(GraphFault::NotHead);
        }
        if self.start(of.parent) == t {
            return Err(GraphFault::SameTxg);
        }
        if self.is_full() {
            return Err(GraphFault::TooMany);
        }
        Ok(at)
    }

    /// The transaction group after which a block is a dataset's own, where it has this parent.
    pub(crate) fn start(&self, parent: Option<DsId>) -> u64
        ensures { result ≡ start_of self.now.sets parent }
    {
        match parent {
            None => 0,
            Some(parent) => self.created(parent),
        }
    }

    /// The transaction group in which a dataset was created; 0 for a head, and where there is none.
    pub fn created(&self, id: DsId) -> u64
        ensures { result ≡ created (dataset_at self.now.sets id) }
    {
        match self.set(id) {
            None => 0,
            Some(set) => set.creation,
        }
    }

    /// Whether blocks may be applied to a head.
    pub(crate) fn may_apply(&self, head: DsId) -> Result<usize, GraphFault>
        ensures err { IfErr result (λ why. apply_refusal self.now head ≡ Some why) }
        ensures ok { OnOk result (apply_refusal self.now head ≡ None) }
        ensures place { IfOk result (λ at. IsIndexOf self.now.sets head (Some at)) }
    {
        let Some(at) = self.index_of(head) else {
            return Err(GraphFault::NoDataset);
        };
        if !self.sets[at].head {
            return Err(GraphFault::NotHead);
        }
        Ok(at)
    }

    /// How many datasets stand on this one.
    fn children(&self, id: DsId) -> usize
        ensures { result ≡ length (children_of self.now.sets id) }
    {
        count_children(&self.sets, id)
    }

    /// Whether there is such a parent and it is of this owner.
    fn is_owned_by(&self, owner: &Name, parent: Option<DsId>) -> bool
        ensures { result ≡ is_owned_by owner.now (parent_in self.now.sets parent) }
    {
        match parent {
            None => false,
            Some(parent) => self.is_dataset_of(owner, parent),
        }
    }

    /// Whether there is such a dataset and it is of this owner.
    fn is_dataset_of(&self, owner: &Name, id: DsId) -> bool
        ensures { result ≡ is_owned_by owner.now (dataset_at self.now.sets id) }
    {
        match self.set(id) {
            None => false,
            Some(set) => same_name(&set.owner, owner),
        }
    }

    /// Whether a dataset may be destroyed.
    pub(crate) fn may_destroy(&self, id: DsId) -> Result<usize, GraphFault>
        ensures err { IfErr result (λ why. destroy_refusal self.now id ≡ Some why) }
        ensures ok { OnOk result (destroy_refusal self.now id ≡ None) }
        ensures place { IfOk result (λ at. IsIndexOf self.now.sets id (Some at)) }
    {
        let Some(at) = self.index_of(id) else {
            return Err(GraphFault::NoDataset);
        };
        if id == DsId::ORIGIN || self.children(id) > 1 {
            return Err(GraphFault::HasClones);
        }
        if self.sets[at].head && self.is_owned_by(&self.sets[at].owner, self.sets[at].parent) {
            return Err(GraphFault::HasSnapshots);
        }
        Ok(at)
    }

    /// Where the dataset with this id stands, where an id is given.
    pub(crate) fn place_of(&self, id: Option<DsId>) -> Option<usize>
        ensures { IsPlaceOf self.now.sets id result }
    {
        match id {
            None => None,
            Some(id) => self.index_of(id),
        }
    }

    /// Whether two datasets may be swapped.
    pub(crate) fn may_swap(&self, a: DsId, b: DsId) -> Result<(usize, usize), GraphFault>
        ensures err { IfErr result (λ why. swap_refusal self.now a b ≡ Some why) }
        ensures ok { OnOk result (swap_refusal self.now a b ≡ None) }
        ensures first { IfOk result (λ at. IsIndexOf self.now.sets a (Some at.0)) }
        ensures second { IfOk result (λ at. IsIndexOf self.now.sets b (Some at.1)) }
    {
        let Some(first) = self.index_of(a) else {
            return Err(GraphFault::NoDataset);
        };
        let Some(second) = self.index_of(b) else {
            return Err(GraphFault::NoDataset);
        };
        if !(self.sets[first].head && self.sets[second].head) {
            return Err(GraphFault::NotHead);
        }
        if a == b || !is_sibling(self.sets[first].parent, self.sets[second].parent) {
            return Err(GraphFault::NotSiblings);
        }
        Ok((first, second))
    }
}

/// Whether the parents are one.
fn is_sibling(a: Option<DsId>, b: Option<DsId>) -> bool
    ensures { result ≡ is_sibling a b }
{
    match (a, b) {
        (None, None) => true,
        (Some(a), Some(b)) => a.0 == b.0,
        (None, Some(_)) | (Some(_), None) => false,
    }
}

/// Whether a head has the name.
fn has_head<T>(sets: &[Set<T>], name: &Name) -> bool
    ensures { result ≡ list_any (λ s. s.head && same_name s.owner name.now) sets.now }
{
    sets.iter()
        .any(|set| set.head && same_name(&set.owner, name))
}

/// Whether a snapshot of this owner has the label.
fn has_snapshot<T>(sets: &[Set<T>], owner: &Name, label: &Name) -> bool
    ensures { result ≡ list_any (λ s. not s.head && (same_name s.owner owner.now && same_name s.label label.now)) sets.now }
{
    sets.iter().any(|set| !set.head
        && (same_name(&set.owner, owner) && same_name(&set.label, label)))
}

/// How many datasets stand on this one.
fn count_children<T>(sets: &[Set<T>], id: DsId) -> usize
    ensures { result ≡ length (filter (λ s. stands_on id s.parent) sets.now) }
{
    sets.iter().filter(|set| stands_on(id, set.parent)).count()
}

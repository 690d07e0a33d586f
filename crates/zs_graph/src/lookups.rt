//! What is asked of the datasets. But for the list of their ids, nothing here takes memory.

ghost use Rattle.std.specs.Prelude.{◌≡◌, IfOk, find, filter, map, option_map, slice_get};
ghost use Rattle.zs_ids.specs.GraphTree.{dataset_at, dataset_named, children_of, is_above, same_name, stands_on, taken_at};
ghost use Rattle.zs_graph.specs.View.{dataset_of, has_name, is_head, parent_id};

use crate::graph::{Graph, Set};
use std::alloc::{AllocError, Global};
use zs_ids::{Blocks, DsId, DsName, Name};

/// Whether the names are the same.
pub(crate) fn same_name(a: &Name, b: &Name) -> bool
    ensures { result ≡ same_name a.now b.now }
{
    *a == *b
}

/// Whether a dataset has this name. The origin has none.
fn is_named<T>(set: &Set<T>, name: &DsName) -> bool
    ensures { result ≡ has_name set.now.id set.now.owner set.now.label name.now }
{
    set.id != DsId::ORIGIN
        && (same_name(&set.owner, &name.owner) && same_name(&set.label, &name.label))
}

/// Whether this is the parent.
pub(crate) fn stands_on(id: DsId, parent: Option<DsId>) -> bool
    ensures { result ≡ stands_on id parent }
{
    match parent {
        None => false,
        Some(parent) => id.0 == parent.0,
    }
}

/// The id of the first dataset of that name.
fn first_named<T>(sets: &[Set<T>], name: &DsName) -> Option<DsId>
    ensures { result ≡ option_map (λ s. s.id) (find (λ s. has_name s.id s.owner s.label name.now) sets.now) }
{
    sets.iter()
        .find(|set| is_named(set, name))
        .map(|set| set.id)
}

/// The id of the first dataset that stands on this one.
fn first_child<T>(sets: &[Set<T>], id: DsId) -> Option<DsId>
    ensures { result ≡ option_map (λ s. s.id) (find (λ s. stands_on id s.parent) sets.now) }
{
    sets.iter()
        .find(|set| stands_on(id, set.parent))
        .map(|set| set.id)
}

/// The id of the first dataset.
fn first_id<T>(sets: &[Set<T>]) -> Option<DsId>
    ensures { result ≡ option_map (λ s. s.id) (slice_get sets.now 0) }
{
    sets.first().map(|set| set.id)
}

/// The ids of datasets, in order.
fn ids_of<T>(alloc: Global, sets: &[Set<T>]) -> Result<Vec<DsId>, AllocError>
    ensures { IfOk result (λ ids. ids.items ≡ map (λ s. s.id) sets.now) }
{
    sets.iter().map(|set| set.id).collect(alloc)
}

impl<T: Blocks> Graph<T> {
    /// The dataset of that name.
    pub fn find(&self, name: &DsName) -> Option<DsId>
        ensures { result ≡ option_map (λ d. d.id) (dataset_named self.now.sets name.now) }
    {
        first_named(&self.sets, name)
    }

    /// The name of a dataset.
    pub fn name(&self, id: DsId) -> Option<DsName>
        ensures { result ≡ option_map (λ d. record { owner = d.owner; label = d.label }) (dataset_at self.now.sets id) }
    {
        match self.set(id) {
            None => None,
            Some(set) => Some(DsName {
                owner: set.owner,
                label: set.label,
            }),
        }
    }

    /// The snapshot on which a dataset stands.
    pub fn parent(&self, id: DsId) -> Option<DsId>
        ensures { result ≡ parent_id (dataset_at self.now.sets id) }
    {
        match self.set(id) {
            None => None,
            Some(set) => set.parent,
        }
    }

    /// The transaction group in which a snapshot was taken. `None` for a head.
    pub fn creation(&self, id: DsId) -> Option<u64>
        ensures { result ≡ taken_at (dataset_at self.now.sets id) }
    {
        match self.set(id) {
            None => None,
            Some(set) if set.head => None,
            Some(set) => Some(set.creation),
        }
    }

    /// The first dataset, in order of id, that stands on this one; where `after` is given, the first behind that.
    pub fn child_after(&self, id: DsId, after: Option<DsId>) -> Option<DsId>
        ensures { result ≡ find (is_above after) (children_of self.now.sets id) }
    {
        first_child(self.behind(after), id)
    }

    /// The first dataset in order of id; where `after` is given, the first behind that.
    pub fn id_after(&self, after: Option<DsId>) -> Option<DsId>
        ensures { result ≡ find (is_above after) (map (λ d. d.id) self.now.sets) }
    {
        first_id(self.behind(after))
    }

    /// The blocks of a dataset.
    pub fn blocks(&self, id: DsId) -> Option<&T>
        ensures { option_map (λ b. T.entries b.now) result ≡ option_map (λ d. d.entries) (dataset_at self.now.sets id) }
    {
        match self.set(id) {
            None => None,
            Some(set) => Some(&set.map),
        }
    }

    /// Whether there is such a dataset and it is a head.
    pub fn is_head(&self, id: DsId) -> bool
        ensures { result ≡ is_head (dataset_at self.now.sets id) }
    {
        match self.set(id) {
            None => false,
            Some(set) => set.head,
        }
    }

    /// The ids of the datasets, in order.
    pub fn ids(&self) -> Result<Vec<DsId>, AllocError>
        ensures { IfOk result (λ ids. ids.items ≡ map (λ d. d.id) self.now.sets) }
    {
        let ids = ids_of(self.alloc, &self.sets)?;
        Ok(ids)
    }

    /// The id that the next dataset gets.
    pub fn next_id(&self) -> u32
        ensures { result ≡ self.now.next }
    {
        self.next
    }

    /// The datasets behind this one in order of id; all, where there is none.
    fn behind(&self, after: Option<DsId>) -> &[Set<T>]
        ensures { map (dataset_of T.entries) result.now ≡ filter (λ d. is_above after d.id) self.now.sets }
    {
        match after {
            None => &self.sets,
            Some(after) => {
                let start = self.sets.partition_point(|set| set.id.0 <= after.0);
                &self.sets[start..]
            }
        }
    }
}

//! The datasets, each with its map.

ghost use Rattle.std.specs.Prelude.{◌≡◌, ◌∷◌, [], IfOk, option_map, IfSome, ◌<◌, length};
ghost use Rattle.zs_ids.specs.GraphTree.{dataset_at};
ghost use Rattle.zs_ids.specs.GraphValid.{origin};
ghost use Rattle.zs_graph.specs.View.{IsGraph, IsIndexOf, dataset_of};

use std::alloc::{AllocError, Global};
use std::marker::Model;
use zs_ids::{Blocks, DsId, Name};

/// A dataset with its map.
#[derive(Drop)]
pub(crate) struct Set<T> {
    pub(crate) id: DsId,
    pub(crate) head: bool,
    pub(crate) owner: Name,
    pub(crate) label: Name,
    pub(crate) parent: Option<DsId>,
    pub(crate) creation: u64,
    pub(crate) map: T,
}

/// The datasets of a pool, in order of id.
#[derive(Drop)]
pub struct Graph<T: Blocks> {
    pub(crate) alloc: Global,
    pub(crate) sets: Vec<Set<T>>,
    pub(crate) next: u32,
}

impl<T: Blocks> Model for Graph<T> {
    ghost use Rattle.std.specs.Prelude.{map};
    ghost use Rattle.zs_graph.specs.View.{GraphView, IsGraph, dataset_of};

    ghost Value = { GraphView };

    ghost view = { λ g. record { sets = map (dataset_of T.entries) g.sets.items; next = g.next } };

    ghost invariant = { λ g. IsGraph (record { sets = map (dataset_of T.entries) g.sets.items; next = g.next }) };
}

impl<T: Blocks> Graph<T> {
    /// The datasets of a new pool: the origin alone.
    pub fn new(alloc: Global) -> Result<Self, AllocError>
        ensures { IfOk result (λ g. g ≡ record { sets = origin ∷ []; next = 1 }) }
    {
        let mut sets = Vec::new(alloc);
        sets.push(Set {
            id: DsId::ORIGIN,
            head: false,
            owner: Name::EMPTY,
            label: Name::EMPTY,
            parent: None,
            creation: 1,
            map: T::empty(alloc),
        })?;
        Ok(Graph {
            alloc,
            sets,
            next: 1,
        })
    }

    /// The datasets are valid, and their ids are below the next one.
    pub fn facts(&self)
        ensures { IsGraph self.now }
    {
        let _next = self.next;
    }

    /// Where the dataset with this id stands in the list.
    pub(crate) fn index_of(&self, id: DsId) -> Option<usize>
        ensures { IsIndexOf self.now.sets id result }
    {
        match self.sets.binary_search_by_key(&id.0, |set| set.id.0) {
            Ok(at) => Some(at),
            Err(_) => None,
        }
    }

    /// The dataset with this id.
    pub(crate) fn set(&self, id: DsId) -> Option<&Set<T>>
        ensures { option_map (λ s. dataset_of T.entries s.now) result ≡ dataset_at self.now.sets id }
    {
        let at = self.index_of(id)?;
        Some(&self.sets[at])
    }
}

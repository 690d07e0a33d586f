//! The queue of datasets.

ghost use Rattle.std.specs.Prelude.{◌≡◌, ◌<◌, ◌≤◌, ◌++◌, ◌∷◌, [], drop, length, vec_len, vec_capacity, IfOk};
ghost use Rattle.zs_phys.specs.Handlers.{dropped, renamed, instead, exchanged};

use std::alloc::{AllocError, Global};
use std::marker::Model;
use zs_ids::DsId;
use zs_ids::limits::DATASETS;

/// A dataset that the walk has still to pass.
#[derive(Clone, Copy, Debug, PartialEq, Eq)]
pub struct Todo {
    /// The dataset.
    pub id: DsId,
    /// Its blocks born up to this transaction group need not be visited.
    pub min: u64,
}

/// The queue of datasets, in the order in which the walk takes them. It has room for the 255 datasets of a
/// pool, which is reserved when it is made.
#[derive(Debug, Drop)]
pub struct Todos {
    entries: Vec<Todo>,
}

impl Model for Todos {
    ghost use Rattle.std.specs.Prelude.{List, ◌≤◌, vec_len, vec_capacity};
    ghost use Rattle.zs_ids.specs.declared.limits.TheConstants.{DATASETS};
    ghost use Rattle.zs_phys.specs.declared.todos.Todo.{Todo};

    ghost Value = { List Todo };

    ghost view = { λ t. t.entries.items };

    ghost invariant = { λ t. (vec_len t.entries ≤ DATASETS) × (DATASETS ≤ vec_capacity t.entries) };
}

impl Todos {
    /// The empty queue, with room for every dataset of a pool.
    pub fn new(alloc: Global) -> Result<Self, AllocError>
        ensures { IfOk result (λ t. t ≡ []) }
    {
        let entries = Vec::with_capacity(alloc, DATASETS)?;
        Ok(Todos { entries })
    }

    /// The queue with these entries, in their own room, which is that of every dataset of a pool. Takes no memory.
    pub fn from_vec(entries: Vec<Todo>) -> Self
        requires few { vec_len entries ≤ DATASETS }
        requires room { DATASETS ≤ vec_capacity entries }
        ensures { result ≡ entries.items }
    {
        Todos { entries }
    }

    /// The entries, in the room in which they stood. Takes no memory.
    pub fn into_vec(self) -> Vec<Todo>
        ensures entries { result.items ≡ self }
        ensures few { vec_len result ≤ DATASETS }
        ensures room { DATASETS ≤ vec_capacity result }
    {
        let Todos { entries } = self;
        entries
    }

    /// How many entries there are, at most 255.
    pub fn len(&self) -> usize
        ensures len { result ≡ length self.now }
        ensures most { result ≤ DATASETS }
    {
        self.entries.len()
    }

    /// The entries, in order.
    pub fn as_slice(&self) -> &[Todo]
        ensures entries { result.now ≡ self.now }
        ensures most { length result.now ≤ DATASETS }
    {
        self.entries.as_slice()
    }

    /// Puts an entry at the end.
    pub fn push(&mut self, entry: Todo)
        requires { length self.old < DATASETS }
        ensures { self.new ≡ self.old ++ entry ∷ [] }
    {
        self.entries.push_reserved(entry);
    }

    /// Takes the first entry out, if there is one.
    pub fn remove_first(&mut self)
        ensures { self.new ≡ drop 1 self.old }
    {
        if self.entries.len() != 0 {
            self.entries.remove(0);
        }
    }

    /// Takes the entries of a dataset out.
    pub fn remove(&mut self, id: DsId)
        ensures { self.new ≡ dropped id self.old }
    {
        self.entries.retain(|t| t.id != id);
    }

    /// Takes all entries out.
    pub fn clear(&mut self)
        ensures { self.new ≡ [] }
    {
        self.entries.clear();
    }

    /// Becomes equal to the other queue.
    pub fn copy_from(&mut self, other: &Todos)
        ensures { self.new ≡ other.now }
    {
        let entries = other.as_slice();
        self.entries.clear();
        if self.entries.extend_from_slice(entries).is_err() {
            unreachable!();
        }
    }

    /// Puts a dataset in another one's place.
    pub(crate) fn replace(&mut self, id: DsId, by: DsId)
        ensures { self.new ≡ renamed (instead id by) self.old }
    {
        for entry in self.entries.iter_mut() {
            entry.id = instead(entry.id, id, by);
        }
    }

    /// Puts two datasets in each other's place.
    pub(crate) fn exchange(&mut self, a: DsId, b: DsId)
        ensures { self.new ≡ renamed (exchanged a b) self.old }
    {
        for entry in self.entries.iter_mut() {
            entry.id = exchanged(entry.id, a, b);
        }
    }
}

/// `by` in the place of `id`.
pub(crate) fn instead(x: DsId, id: DsId, by: DsId) -> DsId
    ensures { result ≡ instead id by x }
{
    if x == id { by } else { x }
}

/// `a` and `b` in each other's place.
pub(crate) fn exchanged(x: DsId, a: DsId, b: DsId) -> DsId
    ensures { result ≡ exchanged a b x }
{
    if x == a {
        b
    } else if x == b {
        a
    } else {
        x
    }
}

//! The changes of the datasets.

ghost use Rattle.std.specs.Prelude.{◌≡◌, ◌≢◌, ◌<◌, Err, IfOk, IfSome, OnErr, OnOk, length, map, vec_len};
ghost use Rattle.zs_ids.specs.Blocks.{IsInKeyOrder};
ghost use Rattle.zs_graph.specs.Refusals.{Answers, apply_refusal, clone_refusal, destroy_refusal, fs_refusal, snapshot_refusal, swap_refusal};
ghost use Rattle.zs_graph.specs.Made.{IsApplied, IsCloned, IsDestroyed, IsFsMade, IsSnapshotTaken, IsSwapped, IsUpTo, MayPutAt};
ghost use Rattle.zs_graph.specs.ByIndex.{adopted_at, applied_at, below_at, removed_at, swapped_at, with_snapshot_at};
ghost use Rattle.zs_graph.specs.View.{IsGraph, dataset_of, with_dataset};
ghost use Rattle.zs_graph.specs.declared.fault.GraphFault.TheVariants.{Memory};

use crate::fault::GraphFault;
use crate::freed::Freed;
use crate::graph::{Graph, Set};
use std::alloc::{AllocError, Global};
use std::mem;
use zs_ids::{Blocks, Bp, DsId, Key, Name, Seq};

impl<T: Blocks> Graph<T> {
    /// Makes a filesystem: an empty head on the origin.
    pub fn make_fs(&mut self, name: &Name) -> Result<DsId, GraphFault>
        ensures answers { Answers (fs_refusal self.old name.now) result }
        ensures made { IfOk result (λ id. IsFsMade self.old name.now id self.new) }
        ensures err { OnErr result (self.new ≡ self.old) }
    {
        self.may_make(name)?;
        let id = DsId(self.next);
        let map = T::empty(self.alloc);
        self.add(Set {
            id,
            head: true,
            owner: *name,
            label: Name::EMPTY,
            parent: Some(DsId::ORIGIN),
            creation: 0,
            map,
        })?;
        Ok(id)
    }

    /// Makes a head on a snapshot, which holds what the snapshot holds.
    pub fn clone_of(&mut self, snap: DsId, name: &Name) -> Result<DsId, GraphFault>
        ensures answers { Answers (clone_refusal self.old snap name.now) result }
        ensures made { IfOk result (λ id. IsCloned self.old snap name.now id self.new) }
        ensures err { OnErr result (self.new ≡ self.old) }
    {
        let at = self.may_clone(snap, name)?;
        let id = DsId(self.next);
        let map = self.sets[at].map.copy()?;
        self.add(Set {
            id,
            head: true,
            owner: *name,
            label: Name::EMPTY,
            parent: Some(snap),
            creation: 0,
            map,
        })?;
        Ok(id)
    }

    /// Takes a snapshot of a head in the transaction group t: it stands between the head and the head's parent.
    pub fn snapshot(&mut self, head: DsId, label: &Name, t: u64) -> Result<DsId, GraphFault>
        requires up_to { IsUpTo self.old.sets t }
        ensures answers { Answers (snapshot_refusal self.old head label.now t) result }
        ensures made { IfOk result (λ id. IsSnapshotTaken self.old head label.now t id self.new) }
        ensures err { OnErr result (self.new ≡ self.old) }
    {
        let at = self.may_snapshot(head, label, t)?;
        let id = DsId(self.next);
        let map = self.sets[at].map.copy()?;
        self.add_below(at, id, *label, t, map)?;
        Ok(id)
    }

    /// Destroys a dataset: its one child, where it has one, gets its parent.
    pub fn destroy(&mut self, id: DsId) -> Result<Freed, GraphFault>
        ensures answers { Answers (destroy_refusal self.old id) result }
        ensures made { IfOk result (λ freed. IsDestroyed self.old id freed self.new) }
        ensures err { OnErr result (self.new ≡ self.old) }
    {
        let at = self.may_destroy(id)?;
        let next = self.child_after(id, None);
        let items = self.freed_by_removal(at, next)?;
        let child = self.place_of(next);
        take_out(&mut self.sets, at, child);
        Ok(Freed {
            items: Seq::from_vec(items),
            next,
        })
    }

    /// Swaps what two heads on one parent hold. Takes no memory.
    pub fn swap(&mut self, a: DsId, b: DsId) -> Result<(), GraphFault>
        ensures answers { Answers (swap_refusal self.old a b) result }
        ensures sure { result ≢ Err Memory }
        ensures made { OnOk result (IsSwapped self.old a b self.new) }
        ensures err { OnErr result (self.new ≡ self.old) }
    {
        let (first, second) = self.may_swap(a, b)?;
        swap_maps(self.alloc, &mut self.sets, first, second);
        Ok(())
    }

    /// Puts blocks that were written in the transaction group t over those of a head.
    pub fn apply(&mut self, head: DsId, changes: &[(Key, Bp)], t: u64) -> Result<Freed, GraphFault>
        requires may { MayPutAt self.old.sets head changes.now t }
        ensures answers { Answers (apply_refusal self.old head) result }
        ensures made { IfOk result (λ freed. IsApplied self.old head changes.now t freed self.new) }
        ensures err { OnErr result (self.new ≡ self.old) }
    {
        let at = self.may_apply(head)?;
        let items = self.freed_by_put(at, changes, t)?;
        put_blocks(self.alloc, &mut self.sets, at, changes)?;
        Ok(Freed {
            items: Seq::from_vec(items),
            next: None,
        })
    }

    /// Puts a snapshot of the head at this index behind the others, and the head on it.
    fn add_below(
        &mut self,
        at: usize,
        id: DsId,
        label: Name,
        t: u64,
        blocks: T,
    ) -> Result<(), AllocError>
        requires within { at < length self.old.sets }
        requires room { self.old.next < 4294967295 }
        requires keeps { IsGraph (with_snapshot_at self.old at id label t (T.entries blocks)) }
        ensures ok { OnOk result (self.new ≡ with_snapshot_at self.old at id label t (T.entries blocks)) }
        ensures err { OnErr result (self.new ≡ self.old) }
    {
        put_below(&mut self.sets, at, id, label, t, blocks)?;
        self.next += 1;
        Ok(())
    }

    /// Puts a dataset with the next id behind the others.
    fn add(&mut self, set: Set<T>) -> Result<(), AllocError>
        requires room { self.old.next < 4294967295 }
        requires keeps { IsGraph (with_dataset self.old (dataset_of T.entries set)) }
        ensures ok { OnOk result (self.new ≡ with_dataset self.old (dataset_of T.entries set)) }
        ensures err { OnErr result (self.new ≡ self.old) }
    {
        self.sets.push(set)?;
        self.next += 1;
        Ok(())
    }
}

/// Puts a snapshot of the head at this index behind the others, and the head on it.
fn put_below<T: Blocks>(
    sets: &mut Vec<Set<T>>,
    at: usize,
    id: DsId,
    label: Name,
    t: u64,
    held: T,
) -> Result<(), AllocError>
    requires { at < vec_len sets.old }
    ensures ok { OnOk result
        (map (dataset_of T.entries) sets.new.items
        ≡ below_at (map (dataset_of T.entries) sets.old.items) at id label t (T.entries held)) }
    ensures err { OnErr result (sets.new.items ≡ sets.old.items) }
{
    let head = &sets[at];
    let snap = Set {
        id,
        head: false,
        owner: head.owner,
        label,
        parent: head.parent,
        creation: t,
        map: held,
    };
    sets.push(snap)?;
    sets[at].parent = Some(id);
    Ok(())
}

/// Exchanges the maps of two datasets.
fn swap_maps<T: Blocks>(alloc: Global, sets: &mut Vec<Set<T>>, first: usize, second: usize)
    requires first { first < vec_len sets.old }
    requires second { second < vec_len sets.old }
    requires two { first ≢ second }
    ensures { map (dataset_of T.entries) sets.new.items ≡ swapped_at (map (dataset_of T.entries) sets.old.items) first second }
{
    let moved = mem::replace(&mut sets[first].map, T::empty(alloc));
    let back = mem::replace(&mut sets[second].map, moved);
    sets[first].map = back;
}

/// Puts blocks over those of the dataset at this index.
fn put_blocks<T: Blocks>(
    alloc: Global,
    sets: &mut Vec<Set<T>>,
    at: usize,
    changes: &[(Key, Bp)],
) -> Result<(), AllocError>
    requires within { at < vec_len sets.old }
    requires rise { IsInKeyOrder changes.now }
    ensures ok { OnOk result (map (dataset_of T.entries) sets.new.items ≡ applied_at (map (dataset_of T.entries) sets.old.items) at changes.now) }
    ensures err { OnErr result (map (dataset_of T.entries) sets.new.items ≡ map (dataset_of T.entries) sets.old.items) }
{
    sets[at].map.replace_all(alloc, changes)?;
    Ok(())
}

/// Takes out the dataset at this index; its child, where it has one, gets its parent.
fn take_out<T: Blocks>(sets: &mut Vec<Set<T>>, at: usize, child: Option<usize>)
    requires within { at < vec_len sets.old }
    requires child { IfSome child (λ i. i < vec_len sets.old) }
    ensures { map (dataset_of T.entries) sets.new.items ≡ removed_at (map (dataset_of T.entries) sets.old.items) at child }
{
    let parent = sets[at].parent;
    adopt(sets, child, parent);
    let _gone = sets.remove(at);
}

/// Puts the dataset at this index, where one is given, on another parent.
fn adopt<T: Blocks>(sets: &mut Vec<Set<T>>, child: Option<usize>, parent: Option<DsId>)
    requires child { IfSome child (λ i. i < vec_len sets.old) }
    ensures adopted { map (dataset_of T.entries) sets.new.items ≡ adopted_at (map (dataset_of T.entries) sets.old.items) child parent }
    ensures len { vec_len sets.new ≡ vec_len sets.old }
{
    if let Some(child) = child {
        sets[child].parent = parent;
    }
}

//! The open transaction group.

ghost use Rattle.std.specs.Prelude.{◌≡◌, ◌<◌, ◌≤◌, ◌+◌, ◌-◌, ◌^◌, ◌++◌, ◌∷◌, ◌==◌, [], true, length, map, OnOk, OnErr, IfOk, IsOk, min, option_map, unwrap_or, slice_get, if◌then◌else◌, vec_len, vec_capacity};
ghost use Rattle.std.specs.BTreeMap.{is_at};
ghost use Rattle.zs_txg.specs.Txg.{slot_cmp, staged_at, put_staged, is_after, first_after, task_at, staged_for, sectors_of, IsInSlotOrder, entry_of, entries_for, IsInKeyOrder, Slot};
ghost use Rattle.zs_txg.specs.Late.{with_late, nearer};

use crate::staged::{StagedEntry, Staging};
use crate::task::Task;
use std::alloc::{AllocError, Global};
use std::collections::BTreeMap;
use std::marker::Model;
use zs_ids::{DsId, Key, Place};

/// What is staged and queued in one transaction group.
#[derive(Drop)]
pub struct OpenTxg {
    txg: u64,
    map: BTreeMap<(DsId, Key), Staging>,
    /// What was staged since the map was refused memory, in order of staging. Its room is what `reserve` reserves.
    late: Vec<((DsId, Key), Staging)>,
    tasks: Vec<(u8, Task)>,
    /// The sectors of all that is staged.
    sectors: u128,
}

impl Model for OpenTxg {
    ghost use Rattle.std.specs.Prelude.{◌-◌, vec_len, vec_capacity};
    ghost use Rattle.zs_txg.specs.Txg.{Open};
    ghost use Rattle.zs_txg.specs.Late.{with_late, IsCounted};

    ghost Value = { Open };

    ghost view = { λ t. record {
      txg = t.txg;
      staged = with_late t.map.entries t.late.items;
      tasks = t.tasks.items;
      room = vec_capacity t.late - vec_len t.late;
    } };

    ghost invariant = { λ t. IsCounted (with_late t.map.entries t.late.items) t.sectors t.tasks.items };
}

impl OpenTxg {
    /// The transaction group of that number, with nothing in it.
    pub fn new(alloc: Global, txg: u64) -> Self
        ensures { result ≡ record { txg = txg; staged = []; tasks = []; room = 0 } }
    {
        OpenTxg {
            txg,
            map: BTreeMap::new(alloc),
            late: Vec::new(alloc),
            tasks: Vec::new(alloc),
            sectors: 0,
        }
    }

    /// Its number.
    pub fn txg(&self) -> u64
        ensures { result ≡ self.now.txg }
    {
        self.txg
    }

    /// Makes room for `n` more calls of `stage`: these are not refused.
    pub fn reserve(&mut self, n: usize) -> Result<(), AllocError>
        ensures kept { self.new ≡ record self.old { room = self.new.room } }
        ensures ok { OnOk result (n ≤ self.new.room) }
        ensures room { self.old.room ≤ self.new.room }
    {
        settle(&mut self.map, &mut self.late)?;
        self.late.reserve(n)?;
        Ok(())
    }

    /// Stages a block. What was staged at the key before goes: the last one stands. Where room was
    /// reserved it is not refused.
    pub fn stage(
        &mut self,
        ds: DsId,
        key: Key,
        place: Place,
        sectors: u16,
        fill: Option<u64>,
    ) -> Result<(), AllocError>
        ensures ok { OnOk result
            (self.new
            ≡ record self.old {
              staged = put_staged self.old.staged (ds, key)
                  (record { place = place; sectors = sectors; fill = fill });
              room = self.new.room;
            }) }
        ensures err { OnErr result (self.new ≡ self.old) }
        ensures succeeds { 1 ≤ self.old.room → IsOk result }
        ensures room { self.old.room ≤ self.new.room + 1 }
    {
        let before = at(&self.map, &self.late, (ds, key));
        rises(&self.map, &self.late);
        let sum = replaced(self.sectors, before, sectors);
        let what = Staging {
            place,
            sectors,
            fill,
        };
        put(&mut self.map, &mut self.late, (ds, key), what)?;
        self.sectors = sum;
        Ok(())
    }

    /// The place at which a block is staged.
    pub fn staged(&self, ds: DsId, key: Key) -> Option<Place>
        ensures { result ≡ option_map (λ s. s.place) (staged_at self.now.staged (ds, key)) }
    {
        at(&self.map, &self.late, (ds, key)).map(|s| s.place)
    }

    /// What is staged at a key.
    pub fn get(&self, ds: DsId, key: Key) -> Option<Staging>
        ensures { result ≡ staged_at self.now.staged (ds, key) }
    {
        at(&self.map, &self.late, (ds, key))
    }

    /// Queues a task for a client and answers its number, from 1.
    pub fn queue(&mut self, by: u8, task: Task) -> Result<u32, AllocError>
        ensures ok { IfOk result (λ k. k ≡ length self.new.tasks) }
        ensures queued { OnOk result (self.new ≡ record self.old { tasks = self.old.tasks ++ (by, task) ∷ [] }) }
        ensures err { OnErr result (self.new ≡ self.old) }
    {
        let Ok(number) = u32::try_from(self.tasks.len() + 1) else {
            return Err(AllocError);
        };
        self.tasks.push((by, task))?;
        Ok(number)
    }

    /// How many tasks are queued.
    pub fn tasks(&self) -> u32
        ensures { result ≡ length self.now.tasks }
    {
        self.tasks.len() as u32
    }

    /// The queued tasks in order, each with the client that queued it.
    pub fn queued(&self) -> &[(u8, Task)]
        ensures { result.now ≡ self.now.tasks }
    {
        self.tasks.as_slice()
    }

    /// The task of that number, from 1, with the client that queued it.
    pub fn task(&self, k: u32) -> Option<(u8, Task)>
        ensures { result ≡ task_at self.now.tasks k }
    {
        let index = k.checked_sub(1)?;
        self.tasks.get(index as usize).copied()
    }

    /// The least staged block in order of dataset and key, or the least above the given one.
    pub fn entry_after(&self, after: Option<(DsId, Key)>) -> Option<StagedEntry>
        ensures { result ≡ option_map entry_of (first_after self.now.staged after) }
    {
        first(&self.map, &self.late, after).map(entry)
    }

    /// What is staged for one dataset, in order of key.
    pub fn entries_of(&self, alloc: Global, ds: DsId) -> Result<Vec<StagedEntry>, AllocError>
        ensures entries { IfOk result (λ v. v.items ≡ entries_for self.now.staged ds) }
        ensures order { IfOk result (λ v. IsInKeyOrder v.items) }
    {
        rises(&self.map, &self.late);
        let entries = all_of(alloc, &self.map, &self.late, ds)?;
        Ok(entries)
    }

    /// The sectors of all that is staged, or 4,294,967,295 where it is more.
    pub fn sectors(&self) -> u32
        ensures { result ≡ min (sectors_of self.now.staged) 4294967295 }
    {
        u32::try_from(self.sectors).unwrap_or(u32::MAX)
    }
}

/// Moves what is late into the map.
fn settle(
    map: &mut BTreeMap<(DsId, Key), Staging>,
    late: &mut Vec<((DsId, Key), Staging)>,
) -> Result<(), AllocError>
    ensures same { with_late map.new.entries late.new.items ≡ with_late map.old.entries late.old.items }
    ensures fewer { vec_len late.new ≤ vec_len late.old }
    ensures capacity { vec_capacity late.new ≡ vec_capacity late.old }
{
    while let Some(first) = late.first() {
        let (slot, what) = *first;
        map.insert(slot, what)?;
        late.remove(0);
    }
    Ok(())
}

#[tactic(auto, using(crate::proofs::LateLaws::late_push))]
/// Puts a block into the map, or behind what is late already where memory is wanting.
fn put(
    map: &mut BTreeMap<(DsId, Key), Staging>,
    late: &mut Vec<((DsId, Key), Staging)>,
    slot: (DsId, Key),
    what: Staging,
) -> Result<(), AllocError>
    ensures ok { OnOk result (with_late map.new.entries late.new.items ≡ put_staged (with_late map.old.entries late.old.items) slot what) }
    ensures err { OnErr result (with_late map.new.entries late.new.items ≡ with_late map.old.entries late.old.items) }
    ensures err_room { OnErr result (vec_capacity late.new - vec_len late.new ≡ vec_capacity late.old - vec_len late.old) }
    ensures succeeds { vec_len late.old < vec_capacity late.old → IsOk result }
    ensures fuller { vec_len late.new ≤ vec_len late.old + 1 }
    ensures capacity { vec_capacity late.old ≤ vec_capacity late.new }
{
    if late.len() != 0 {
        late.reserve(1)?;
        late.push_reserved((slot, what));
        return Ok(());
    }
    match map.insert(slot, what) {
        Ok(_) => Ok(()),
        Err(_) => {
            late.reserve(1)?;
            late.push_reserved((slot, what));
            Ok(())
        }
    }
}

/// What is staged at a slot.
fn at(
    map: &BTreeMap<(DsId, Key), Staging>,
    late: &[((DsId, Key), Staging)],
    slot: (DsId, Key),
) -> Option<Staging>
    ensures { result ≡ staged_at (with_late map.now.entries late.now) slot }
{
    let mut found = map.get(&slot).copied();
    for entry in late {
        found = over(found, entry, slot);
    }
    found
}

/// What is staged at a slot after one more entry, where `found` was staged there before.
fn over(
    found: Option<Staging>,
    entry: &((DsId, Key), Staging),
    slot: (DsId, Key),
) -> Option<Staging>
    ensures { result ≡ (if is_at (slot_cmp slot) entry.now.0 then Some entry.now.1 else found) }
{
    if entry.0 == slot {
        Some(entry.1)
    } else {
        found
    }
}

/// What is staged stands in order, and its sectors can be counted. Reads the lengths alone.
fn rises(map: &BTreeMap<(DsId, Key), Staging>, late: &Vec<((DsId, Key), Staging)>)
    ensures order { IsInSlotOrder (with_late map.now.entries late.now.items) }
    ensures few { length (with_late map.now.entries late.now.items) < 2 ^ 65 }
{
    let _map = map.len();
    let _late = late.len();
}

/// A sum of sectors after one block took the place of another.
fn replaced(sum: u128, before: Option<Staging>, sectors: u16) -> u128
    requires had { unwrap_or (option_map (λ s. s.sectors) before) 0 ≤ sum }
    requires fits { sum + sectors < 2 ^ 128 }
    ensures { result + unwrap_or (option_map (λ s. s.sectors) before) 0 ≡ sum + sectors }
{
    let before = before.map_or(0, |s| u128::from(s.sectors));
    sum - before + u128::from(sectors)
}

/// The least entry above a slot.
fn first(
    map: &BTreeMap<(DsId, Key), Staging>,
    late: &[((DsId, Key), Staging)],
    after: Option<(DsId, Key)>,
) -> Option<((DsId, Key), Staging)>
    ensures { result ≡ first_after (with_late map.now.entries late.now) after }
{
    let mut found = first_of_map(map, after);
    for entry in late {
        found = lower(found, *entry, after);
    }
    found
}

/// The least entry of the map above a slot.
fn first_of_map(
    map: &BTreeMap<(DsId, Key), Staging>,
    after: Option<(DsId, Key)>,
) -> Option<((DsId, Key), Staging)>
    ensures { result ≡ first_after map.now.entries after }
{
    match after {
        None => lowest(map),
        Some(slot) => above(map, slot),
    }
}

/// The least entry of the map.
#[tactic(auto, using(crate::proofs::LateLaws::lowest_is))]
fn lowest(map: &BTreeMap<(DsId, Key), Staging>) -> Option<((DsId, Key), Staging)>
    ensures { result ≡ first_after map.now.entries None }
{
    let (slot, what) = map.first_key_value()?;
    Some((*slot, *what))
}

/// The least entry of the map above a slot that is given.
fn above(map: &BTreeMap<(DsId, Key), Staging>, slot: (DsId, Key)) -> Option<((DsId, Key), Staging)>
    ensures { result ≡ first_after map.now.entries (Some slot) }
{
    for (at, what) in map.range(slot..) {
        if slot < *at {
            return Some((*at, *what));
        }
    }
    None
}

/// The least entry above a slot after one more entry was put, where `found` was the least before.
fn lower(
    found: Option<((DsId, Key), Staging)>,
    entry: ((DsId, Key), Staging),
    after: Option<(DsId, Key)>,
) -> Option<((DsId, Key), Staging)>
    ensures { result ≡ (if is_after after entry.0 then nearer slot_cmp entry.0 entry.1 found else found) }
{
    if !is_above(after, entry.0) {
        return found;
    }
    match found {
        None => Some(entry),
        Some(lowest) => {
            if entry.0 <= lowest.0 {
                Some(entry)
            } else {
                Some(lowest)
            }
        }
    }
}

/// Whether a slot is above the given one.
fn is_above(after: Option<(DsId, Key)>, slot: (DsId, Key)) -> bool
    ensures { result ≡ is_after after slot }
{
    match after {
        None => true,
        Some(after) => after < slot,
    }
}

/// An entry with its slot.
fn entry(e: ((DsId, Key), Staging)) -> StagedEntry
    ensures { result ≡ entry_of e }
{
    StagedEntry {
        ds: e.0.0,
        key: e.0.1,
        place: e.1.place,
        sectors: e.1.sectors,
        fill: e.1.fill,
    }
}

/// What is staged for one dataset, in order of key.
fn all_of(
    alloc: Global,
    over: &BTreeMap<(DsId, Key), Staging>,
    late: &Vec<((DsId, Key), Staging)>,
    ds: DsId,
) -> Result<Vec<StagedEntry>, AllocError>
    ensures { IfOk result (λ v. v.items ≡ entries_for (with_late over.now.entries late.now.items) ds) }
{
    rises(over, late);
    let mut found = Vec::new(alloc);
    let mut after = below(ds);
    while let Some(e) = first(over, late, after) {
        if ds < e.0.0 {
            return Ok(found);
        }
        add(&mut found, e, ds)?;
        after = Some(e.0);
    }
    Ok(found)
}

/// A slot below all of a dataset, and above those of the datasets before it; `None` for the first dataset.
fn below(ds: DsId) -> Option<(DsId, Key)>
    ensures { (s : Slot) → (s.0.0 == ds.0) ≡ true → is_after result s ≡ true }
{
    let before = ds.0.checked_sub(1)?;
    let last = Key {
        object: u16::MAX,
        rank: u8::MAX,
        leaf: u32::MAX,
        depth: u8::MAX,
    };
    Some((DsId(before), last))
}

/// Puts an entry at the end of a list where it is one of the dataset.
fn add(found: &mut Vec<StagedEntry>, e: ((DsId, Key), Staging), ds: DsId) -> Result<(), AllocError>
    ensures { OnOk result (found.new.items ≡ found.old.items ++ map entry_of (staged_for (e ∷ []) ds)) }
{
    if e.0.0 != ds {
        return Ok(());
    }
    found.push(entry(e))?;
    Ok(())
}

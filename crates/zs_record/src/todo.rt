//! The datasets that a walk has still to pass.

ghost use Rattle.std.specs.Prelude.{◌≡◌, ◌==◌, ℕ, [], true, cond, IfOk};
ghost use Rattle.zs_record.specs.Reading.{GivesOrWants};
ghost use Rattle.zs_record.specs.Todo.{has_id, id_outside, todo_outside, todos_of, queue_of};

use crate::fault::RecordFault;
use crate::numbers::{u32_of, u32_within, u64_of};
use std::alloc::Global;
use std::collections::HashSet;
use zs_ids::DsId;
use zs_phys::Todo;

/// An id that is not in the set, which it joins.
#[tactic(auto, unfolding(crate::specs::Todo::id_outside))]
fn id_outside<'a>(bytes: &'a [u8], ids: &mut HashSet<u32>) -> Result<(u32, &'a [u8]), RecordFault>
    ensures read { GivesOrWants (λ x. (x.0, x.1.now)) result (id_outside ids.old.keys bytes.now) }
    ensures joined { IfOk result (λ x. (n : ℕ) → has_id ids.new.keys n ≡ cond (x.0 == n) true (has_id ids.old.keys n)) }
{
    let (id, rest) = u32_of(bytes)?;
    if !ids.insert(id)? {
        return Err(RecordFault::Order);
    }
    Ok((id, rest))
}

/// A dataset whose id is not in the set, which it joins.
#[tactic(auto, unfolding(crate::specs::Todo::todo_outside))]
fn todo_outside<'a>(
    bytes: &'a [u8],
    ids: &mut HashSet<u32>,
) -> Result<(Todo, &'a [u8]), RecordFault>
    ensures read { GivesOrWants (λ x. (x.0, x.1.now)) result (todo_outside ids.old.keys bytes.now) }
    ensures joined { IfOk result (λ x. (n : ℕ) → has_id ids.new.keys n ≡ cond (x.0.id.0 == n) true (has_id ids.old.keys n)) }
{
    let (id, rest) = id_outside(bytes, ids)?;
    let (min, rest) = u64_of(rest)?;
    let todo = Todo { id: DsId(id), min };
    Ok((todo, rest))
}

/// So many datasets, none twice. Whether one is there already is asked of a set of their ids, and not of the list.
fn todos_of(alloc: Global, bytes: &[u8], count: u32) -> Result<(Vec<Todo>, &[u8]), RecordFault>
    ensures { GivesOrWants (λ x. (x.0.items, x.1.now)) result (todos_of count [] bytes.now) }
{
    let mut todos = Vec::new(alloc);
    let mut ids = HashSet::new(alloc);
    let mut rest = bytes;
    for _ in 0..count {
        let (todo, after) = todo_outside(rest, &mut ids)?;
        todos.push(todo)?;
        rest = after;
    }
    Ok((todos, rest))
}

/// The queue of a scan that is running or not: how many datasets, and they.
#[tactic(auto, unfolding(crate::specs::Todo::queue_of))]
pub(crate) fn queue_of(
    alloc: Global,
    bytes: &[u8],
    scanning: bool,
) -> Result<(Vec<Todo>, &[u8]), RecordFault>
    ensures { GivesOrWants (λ x. (x.0.items, x.1.now)) result (queue_of scanning bytes.now) }
{
    let most = if scanning { u32::MAX } else { 0 };
    let (count, rest) = u32_within(bytes, 0, most)?;
    let (todos, rest) = todos_of(alloc, rest, count)?;
    Ok((todos, rest))
}

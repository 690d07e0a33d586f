//! Writing a record.

ghost use Rattle.std.specs.Prelude.{◌≡◌, ◌<◌, ◌^◌, ◌++◌, All, length, flat_map, IfOk, OnOk};
ghost use Rattle.zs_record.specs.Spelling.{set_bytes, stored_set_bytes};
ghost use Rattle.zs_record.specs.Stored.{parts_of};
ghost use Rattle.zs_record.specs.StoredSpelling.{todo_bytes, queue_bytes, stored_bytes, HaveCounts};

use crate::mirrors::Mirrors;
use crate::scan_writing::{put_pass, put_running};
use crate::sets::StoredSet;
use crate::stored::Stored;
use crate::writing::{put_head, put_ledger, put_set, put_stored_set, put_u32, put_u64};
use std::alloc::{AllocError, Global};
use zs_ids::Seq;
use zs_phys::Todo;
use zs_ranges::Interval;

/// Writes datasets.
fn put_sets(out: &mut Vec<u8>, sets: &[StoredSet]) -> Result<(), AllocError>
    requires { All (λ set. length set.entries < 2 ^ 32) sets.now }
    ensures { OnOk result (out.new.items ≡ out.old.items ++ flat_map stored_set_bytes sets.now) }
{
    for set in sets {
        put_stored_set(out, set)?;
    }
    Ok(())
}

/// Writes the sets of devices.
fn put_logs(out: &mut Vec<u8>, logs: &[Seq<Interval>]) -> Result<(), AllocError>
    requires { All (λ spans. length spans < 2 ^ 32) logs.now }
    ensures { OnOk result (out.new.items ≡ out.old.items ++ flat_map set_bytes logs.now) }
{
    for spans in logs {
        put_set(out, spans.as_slice())?;
    }
    Ok(())
}

/// Writes a dataset that is still to be passed.
#[tactic(auto, unfolding(crate::specs::StoredSpelling::todo_bytes))]
fn put_todo(out: &mut Vec<u8>, todo: Todo) -> Result<(), AllocError>
    ensures { OnOk result (out.new.items ≡ out.old.items ++ todo_bytes todo) }
{
    put_u32(out, todo.id.0)?;
    put_u64(out, todo.min)?;
    Ok(())
}

/// Writes datasets that are still to be passed.
fn put_todos(out: &mut Vec<u8>, todos: &[Todo]) -> Result<(), AllocError>
    ensures { OnOk result (out.new.items ≡ out.old.items ++ flat_map todo_bytes todos.now) }
{
    for todo in todos {
        put_todo(out, *todo)?;
    }
    Ok(())
}

/// Writes the queue.
#[tactic(auto, unfolding(crate::specs::StoredSpelling::queue_bytes))]
fn put_queue(out: &mut Vec<u8>, todos: &[Todo]) -> Result<(), AllocError>
    requires { length todos.now < 2 ^ 32 }
    ensures { OnOk result (out.new.items ≡ out.old.items ++ queue_bytes todos.now) }
{
    put_u32(out, todos.len() as u32)?;
    put_todos(out, todos)?;
    Ok(())
}

/// The bytes of a record of a pool with these mirrors.
#[tactic(auto, unfolding(crate::specs::StoredSpelling::stored_bytes))]
pub fn bytes_of_stored(
    alloc: Global,
    mirrors: Mirrors,
    stored: &Stored,
) -> Result<Vec<u8>, AllocError>
    requires { HaveCounts (parts_of stored.now) }
    ensures { IfOk result (λ out. out.items ≡ stored_bytes mirrors (parts_of stored.now)) }
{
    let mut out = Vec::new(alloc);
    put_head(&mut out, mirrors, &stored.head)?;
    put_sets(&mut out, stored.sets.as_slice())?;
    put_logs(&mut out, stored.logs.as_slice())?;
    put_running(&mut out, &stored.running)?;
    put_pass(&mut out, &stored.pass)?;
    put_queue(&mut out, stored.todo.as_slice())?;
    put_logs(&mut out, stored.dirty0.as_slice())?;
    put_ledger(&mut out, stored.ledger.as_slice())?;
    Ok(out)
}

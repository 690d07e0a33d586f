//! A scan: its scope and state, the pieces that wait, the batches in flight, and what was checked.
//!
//! Layer: above `zs_walk`, `zs_queue` and `zs_ledger`. The pool (`zs_core`) holds one scan and makes all its calls.
//! Model: `ScanView`. Beside scope and state it has the checked entries, the waiting pieces with their items, a mark for
//! each piece that waits or flies, and the batches that were taken and have no verdict yet. A piece that waits or flies
//! has one mark, whatever queue or batch it is in; so waiting, flying and checked pieces are disjoint, and each stands
//! once.
//! Promise: each call keeps the scan the datasets' own (`specs/Covered`): its state is sound, each live piece in scope is
//! done or ahead of the walk, what waits or flies is live, and all that is in flight lies in the pool's room, also what was
//! freed since. A scan finishes exactly where it is complete, and has then checked every live piece in its scope.
//! A snapshot, a swap and a destroyed dataset, of which the scan is told, move the walk and keep it the datasets' own, and
//! so do clones and later transaction groups, of which it is not told (`specs/Changes`). Where a change frees pieces, the
//! scan is theirs but for these until it is told of them in one pass.
//! A turn of the walk puts just the pieces of the turn table. A batch is the lowest pieces of its mirror. A verdict makes
//! an entry for each piece of its batch that was not freed and whose scan still runs, and for no other; each has the copies
//! of a mirror of the scope's width. A freed piece leaves the queue, and gets no entry if it flies. A call that was refused
//! leaves the scan as it was.
//! All this holds as well of the state that a crash leaves (`kept`), with the stored entries as all that is done.
//! Cost: a verdict reads the batches in flight in the order in which they were taken, up to its own.
//!
//! Why a scan may leave the walk behind. To the walk a piece is done as soon as it waits: the bookmark goes on, and the
//! queue owes the check. It leaves the queue only for a batch, and a batch only by a verdict, which makes its entry. So
//! a scan whose walk is at its end, with nothing waiting and nothing in flight, has checked all that it met.
//!
//! Why a piece may be dropped. A piece that a sync frees is not live any more, and the promise is of live pieces alone. If
//! it waits it leaves the queue. If it is in flight its mark is taken off, and the verdict makes no entry for it: another
//! block may come to lie in its sectors, so what was read says nothing of either. That block has a later birth, and is
//! another piece.
//!
//! Why a kept state is enough after a crash. A crash loses queue, flight and bookmark, and leaves what was last stored: a
//! state, and the entries that were made by then. At a checkpoint nothing waits and nothing flies, so all that the walk has
//! passed has an entry: the state covers with the stored entries alone. Until the next checkpoint the scan goes on, and the
//! datasets change; so each event of the datasets changes both states, by the same law, and what waits or was checked
//! since is ahead of the kept one still. Should the pool be opened from there, it checks that again, and misses nothing.
//!
//! Why a kept state is enough after a crash. A crash loses queue, flight and bookmark, and leaves what was stored last: a
//! state, and the entries that were made by then. At a checkpoint nothing waits and nothing flies, so all that the walk has
//! passed has an entry: the state covers with the stored entries alone. Until the next checkpoint the scan goes on and the
//! datasets change; each event of the datasets changes both states, by the same law, and what was met since is ahead of the
//! kept one still. A pool that is opened from there checks that again, and misses nothing.
//!
//! Why a full queue loses nothing. The turn whose pieces would not all go in is not made: bookmark, queue and marks stay,
//! and the block is met again when there is room.
//!
//! To change what waits see `zs_queue`; the turns `zs_walk`; what a call makes of a scan `specs/Steps` and `specs/Walks`;
//! what is kept true of a scan `specs/Kept`; how it stays the datasets' own while these change `specs/Changes`.
#![tactic(auto)]

pub mod batch;
mod flight;
pub mod handlers;
mod landing;
pub mod laws;
mod marks;
pub mod pausing;
pub mod scan;
mod scope;
mod taking;
pub mod walking;

pub use batch::{Batch, ScanFault, Turn};
pub use scan::Scan;
pub use walking::item_of;

//! Which pieces a scan examines.

ghost use Rattle.std.specs.Prelude.{◌≡◌, ◌*◌, [], IfOk, take, drop, replicate};
ghost use Rattle.std.specs.List.{list_any};
ghost use Rattle.zs_phys.specs.Scope.{in_scope, is_wanted, logs_of};
ghost use Rattle.zs_ranges.specs.Set.{has_txg};
ghost use Rattle.zs_scan.specs.Steps.{emptied, scrub_scope};

use std::alloc::{AllocError, Global};
use std::mem;
use zs_ids::{Piece, Seq};
use zs_phys::{Kind, Scope};
use zs_ranges::TxgSet;

/// Whether the scan examines the piece: it is born in the range, and in a resilver a device of its mirror may lack its
/// copy.
pub(crate) fn in_scope(scope: &Scope, piece: &Piece) -> bool
    ensures { result ≡ in_scope scope.now piece.now }
{
    scope.min < piece.birth && piece.birth < scope.max && is_wanted(scope, piece)
}

/// Whether the kind of scan examines the piece.
fn is_wanted(scope: &Scope, piece: &Piece) -> bool
    ensures { result ≡ is_wanted scope.now.kind scope.now piece.now }
{
    match scope.kind {
        Kind::Idle => false,
        Kind::Scrub => true,
        Kind::Resilver => is_missed(scope, piece),
    }
}

/// Whether a device of the piece's mirror had missed the piece's birth when the scan started.
fn is_missed(scope: &Scope, piece: &Piece) -> bool
    ensures { result ≡ list_any (λ log. has_txg log piece.now.birth) (logs_of scope.now piece.now.place.vdev) }
{
    let first = usize::from(piece.place.vdev) * usize::from(scope.width);
    scope
        .dirty0
        .as_slice()
        .iter()
        .skip(first)
        .take(usize::from(scope.width))
        .any(|log| log.has(piece.birth))
}

/// So many empty sets.
pub(crate) fn empty_sets(alloc: Global, many: u8) -> Result<Seq<TxgSet>, AllocError>
    ensures { IfOk result (λ sets. sets ≡ replicate many []) }
{
    let mut sets = Vec::new(alloc);
    for _device in 0..many {
        sets.push(TxgSet::new(alloc))?;
    }
    Ok(Seq::from_vec(sets))
}

/// Makes the scope that of a scrub of what is born before the transaction group `t`. Takes no memory.
pub(crate) fn become_scrub(alloc: Global, scope: &mut Scope, t: u64)
    ensures { scope.new ≡ scrub_scope scope.old t }
{
    let mut sets = mem::replace(&mut scope.dirty0, Seq::new(alloc)).into_vec();
    clear_all(&mut sets);
    scope.dirty0 = Seq::from_vec(sets);
    scope.kind = Kind::Scrub;
    scope.min = 0;
    scope.max = t;
}

/// Takes all transaction groups out of each set. Takes no memory.
fn clear_all(sets: &mut [TxgSet])
    ensures { sets.new ≡ emptied sets.old }
{
    for set in sets.iter_mut() {
        set.clear();
    }
}

//! Which pieces a scan examines.

ghost use Rattle.std.specs.Prelude.{◌≡◌};
ghost use Rattle.std.specs.List.{list_any};
ghost use Rattle.zs_phys.specs.Scope.{in_scope, is_wanted, logs_of};
ghost use Rattle.zs_ranges.specs.Set.{has_txg};
ghost use Rattle.zs_want.specs.Closures.{AreFilters};

use zs_ids::Piece;
use zs_phys::{Kind, Scope};

/// A closure that tells whether a scan examines a piece.
#[derive(Clone, Copy)]
pub struct Want<F> {
    f: F,
}

impl<F: Fn(&Scope, &Piece) -> bool> Want<F> {
    /// Asks this closure.
    pub fn new(f: F) -> Want<F> {
        Want { f }
    }

    /// Whether the piece is in scope.
    pub fn ask(&self, scope: &Scope, piece: &Piece) -> bool
        requires filter { AreFilters F.Fn }
        ensures { result ≡ in_scope scope.now piece.now }
    {
        (self.f)(scope, piece)
    }
}

/// Whether the piece is in scope: born strictly between the scope's ends and, for a resilver, in a group that a device
/// of its mirror may lack.
pub fn in_scope(scope: &Scope, piece: &Piece) -> bool
    ensures { result ≡ in_scope scope.now piece.now }
{
    scope.min < piece.birth && piece.birth < scope.max && is_wanted(scope, piece)
}

/// Whether the kind of scan examines the piece.
fn is_wanted(scope: &Scope, piece: &Piece) -> bool
    ensures { result ≡ is_wanted scope.now.kind scope.now piece.now }
{
    match scope.kind {
        Kind::Idle => false,
        Kind::Scrub => true,
        Kind::Resilver => is_missed(scope, piece.place.vdev, piece.birth),
    }
}

/// Whether a device of the mirror may lack its copies of a transaction group.
fn is_missed(scope: &Scope, vdev: u8, birth: u64) -> bool
    ensures { result ≡ list_any (λ log. has_txg log birth) (logs_of scope.now vdev) }
{
    let width = usize::from(scope.width);
    scope
        .dirty0
        .as_slice()
        .iter()
        .skip(usize::from(vdev) * width)
        .take(width)
        .any(|log| log.has(birth))
}

//! What the datasets hold: pieces, live pieces, and the home of a piece.

ghost use Rattle.std.specs.Prelude.{◌≡◌, ◌↔◌, ◌++◌, ⊤, List, find, flat_map, OnOk, IfOk, IsTrue, MatchOption};
ghost use Rattle.zs_ids.specs.Graph.{Has, IsLive, pieces_of};
ghost use Rattle.zs_ids.specs.GraphTree.{IsHomeOf};
ghost use Rattle.zs_ids.specs.declared.block.Piece.{Piece};
ghost use Rattle.zs_ids.specs.declared.block.Bp.{Bp};
ghost use Rattle.zs_ids.specs.declared.key.Key.{Key};
ghost use Rattle.zs_ids.specs.declared.dataset.DsId.{DsId};
ghost use Rattle.zs_plain.specs.Tests.{has_piece, is_own, pieces_held};

use crate::dataset::PlainDataset;
use crate::tree::start_of;
use std::alloc::{AllocError, Global};
use zs_ids::{Bp, DsId, Key, Piece};

/// The pieces of a block.
pub fn pieces_of(alloc: Global, bp: &Bp) -> Result<Vec<Piece>, AllocError>
    ensures { IfOk result (λ v. v.items ≡ pieces_of bp.now) }
{
    bp.places
        .iter()
        .take(usize::from(bp.count))
        .map(|p| Piece {
            place: *p,
            birth: bp.birth,
        })
        .collect(alloc)
}

/// Whether the piece is in the list.
pub(crate) fn has_piece(pieces: &[Piece], piece: Piece) -> bool
    ensures { result ≡ has_piece pieces.now piece }
{
    pieces.iter().any(|p| *p == piece)
}

/// Whether the block has the piece.
fn block_has(bp: &Bp, piece: Piece) -> bool
    ensures { result ≡ has_piece (pieces_of bp.now) piece }
{
    bp.places
        .iter()
        .take(usize::from(bp.count))
        .map(|p| Piece {
            place: *p,
            birth: bp.birth,
        })
        .any(|p| p == piece)
}

/// Puts the pieces of a block at the end.
fn put_pieces(alloc: Global, out: &mut Vec<Piece>, bp: &Bp) -> Result<(), AllocError>
    ensures { OnOk result (out.new.items ≡ out.old.items ++ pieces_of bp.now) }
{
    let pieces = pieces_of(alloc, bp)?;
    out.extend_from_slice(&pieces)?;
    Ok(())
}

/// Puts the pieces of all entries at the end.
fn put_held(alloc: Global, out: &mut Vec<Piece>, entries: &[(Key, Bp)]) -> Result<(), AllocError>
    ensures { OnOk result (out.new.items ≡ out.old.items ++ pieces_held entries.now) }
{
    for entry in entries {
        put_pieces(alloc, out, &entry.1)?;
    }
    Ok(())
}

/// The live pieces of the graph: those that some dataset holds. A piece stands in the list once for each entry
/// that has it.
pub fn live(alloc: Global, g: &[PlainDataset]) -> Result<Vec<Piece>, AllocError>
    ensures { IfOk result (λ v. (p : Piece) → Has v.items p ↔ IsLive g.now p) }
{
    let mut out = Vec::new(alloc);
    for dataset in g {
        put_held(alloc, &mut out, dataset.entries.as_slice())?;
    }
    Ok(out)
}

/// The first entry born after a transaction group that has the piece.
fn own_entry(entries: &[(Key, Bp)], start: u64, piece: Piece) -> Option<(Key, Bp)>
    ensures { result ≡ find (is_own start piece) entries.now }
{
    entries
        .iter()
        .copied()
        .find(|e| start < e.1.birth && block_has(&e.1, piece))
}

/// The home of a piece: the dataset, and the entry of it that has the piece and is born after the dataset's parent
/// was created. `None` where it has none.
pub fn home(g: &[PlainDataset], piece: Piece) -> Option<(DsId, (Key, Bp))>
    ensures { MatchOption result ((id : DsId) (e : Key × Bp) → IsHomeOf g.now id e piece → ⊥) (λ h. IsHomeOf g.now h.0 h.1 piece) }
{
    for dataset in g {
        let start = start_of(g, dataset.parent);
        if let Some(entry) = own_entry(dataset.entries.as_slice(), start, piece) {
            return Some((dataset.id, entry));
        }
    }
    None
}

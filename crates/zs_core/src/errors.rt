//! What `errors` tells.

ghost use Rattle.std.specs.Prelude.{◌≡◌, IfOk, map};
ghost use Rattle.zs_machine.specs.Errors.{error_of, TellsErrors};

use crate::present::Present;
use std::alloc::{AllocError, Global};
use zs_ids::Seq;
use zs_ledger::Entry;
use zs_machine::letters_of;
use zs_script::{ErrorPiece, Refusal, Reply};

/// A damaged piece, as a reply tells it.
fn error_of(entry: &Entry) -> ErrorPiece
    ensures { result ≡ error_of entry.now }
{
    ErrorPiece {
        vdev: entry.piece.place.vdev,
        sector: entry.piece.place.sector,
        birth: entry.piece.birth,
        letters: letters_of(entry),
    }
}

/// Damaged pieces, as a reply tells them.
fn errors_of(alloc: Global, entries: &[Entry]) -> Result<Vec<ErrorPiece>, AllocError>
    ensures { IfOk result (λ v. v.items ≡ map error_of entries.now) }
{
    entries.iter().map(|entry| error_of(entry)).collect(alloc)
}

impl Present {
    /// The reply to `errors`, twice: one for the caller and one for the event.
    pub(crate) fn errors(&self) -> Result<(Reply, Reply), AllocError>
        ensures tells { IfOk result (λ replies. TellsErrors self.now.state replies.0) }
        ensures same { IfOk result (λ replies. replies.1 ≡ replies.0) }
    {
        if self.suspended {
            let refusal = Refusal::Suspended;
            return Ok((Reply::Refused(refusal), Reply::Refused(refusal)));
        }
        let entries = self.scan.ledger().errors()?;
        let pieces = errors_of(self.alloc, &entries)?;
        let copy = Seq::from_slice(self.alloc, &pieces)?;
        let reply = Reply::Errors {
            pieces: Seq::from_vec(pieces),
        };
        Ok((reply, Reply::Errors { pieces: copy }))
    }
}

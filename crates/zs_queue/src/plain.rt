//! The queue that gives the lowest pieces of a mirror.

ghost use Rattle.std.specs.Prelude.{◌≡◌, [], map, take, IfOk};
ghost use Rattle.std.proofs.Props.{props};
ghost use Rattle.zs_queue.specs.declared.waiting.PutFault.TheVariants.{Memory};
ghost use Rattle.zs_queue.specs.Start.{run_of};
ghost use Rattle.zs_queue.specs.Kept.{IsKept};

use crate::waiting::{PutFault, Waiting};
use std::alloc::{AllocError, AllocFailed, Global};
use std::collections::BTreeMap;
use zs_ids::{Item, Piece, Place};

/// A queue that keeps its items in order of address and gives the lowest of the mirror that is asked for.
#[derive(Drop)]
pub struct PlainQueue {
    map: BTreeMap<Piece, Item>,
    counts: [u32; 256],
    limit: u32,
    alloc: Global,
    ghost kept: { IsKept map.entries counts limit } by { Prim.hlevel props },
}

impl PlainQueue {
    /// An empty queue for at most `limit` items. Takes no memory.
    pub fn new(alloc: Global, limit: u32) -> Self
        ensures items { ⟦<PlainQueue as Waiting>⟧.items result ≡ [] }
        ensures limit { ⟦<PlainQueue as Waiting>⟧.limit_of result ≡ limit }
    {
        PlainQueue {
            map: BTreeMap::new(alloc),
            counts: [0; 256],
            limit,
            alloc,
        }
    }
}

/// At most `n` items from the mirror's least piece on, as long as they are of the mirror.
fn run_of(
    waiting: &BTreeMap<Piece, Item>,
    alloc: Global,
    vdev: u8,
    n: usize,
) -> Result<Vec<Item>, AllocError>
    ensures { IfOk result (λ v. v.items ≡ map (λ e. e.1) (take n (run_of waiting.now.entries vdev))) }
{
    let least = Piece {
        place: Place { vdev, sector: 0 },
        birth: 0,
    };
    waiting
        .range(least..)
        .take_while(|(piece, _)| piece.place.vdev == vdev)
        .take(n)
        .map(|(_, item)| *item)
        .collect(alloc)
}

impl From<AllocFailed<(Piece, Item)>> for PutFault {
    ghost from_gives = { λ _ fault. fault ≡ Memory };

    fn from(_: AllocFailed<(Piece, Item)>) -> Self {
        PutFault::Memory
    }
}

impl Waiting for PlainQueue {
    ghost use Rattle.zs_queue.specs.Waiting.{lowest};
    ghost use Rattle.zs_queue.specs.Lowest.{lowest_is_batch};

    ghost items = { λ q. q.map.entries };

    ghost limit_of = { λ q. q.limit };

    ghost batch = { λ q vdev n. lowest q.map.entries vdev n };

    fn put(&mut self, item: Item) -> Result<(), PutFault> {
        if self.map.len() >= self.limit as usize {
            return Err(PutFault::Full);
        }
        self.map.insert(item.piece, item)?;
        self.counts[item.piece.place.vdev as usize] += 1;
        Ok(())
    }

    fn has(&self, piece: Piece) -> bool {
        self.map.contains_key(&piece)
    }

    fn drop_piece(&mut self, piece: Piece) -> bool {
        if self.map.remove(&piece).is_none() {
            return false;
        }
        self.counts[piece.place.vdev as usize] -= 1;
        true
    }

    fn take(&mut self, vdev: u8, n: u32) -> Result<Vec<Item>, AllocError> {
        let batch = run_of(&self.map, self.alloc, vdev, n as usize)?;
        for item in &batch {
            self.drop_piece(item.piece);
        }
        Ok(batch)
    }

    fn count(&self) -> u32 {
        self.map.len() as u32
    }

    fn count_of(&self, vdev: u8) -> u32 {
        self.counts[vdev as usize]
    }

    fn limit(&self) -> u32 {
        self.limit
    }

    fn clear(&mut self) {
        self.map.clear();
        self.counts = [0; 256];
    }

    ghost in_order = { λ q. q.kept.ordered };

    ghost named = { λ q. q.kept.named };

    ghost within = { λ q. q.kept.within };

    ghost is_batch = { λ q vdev n. lowest_is_batch q.map.entries vdev n q.kept.named q.kept.ordered };
}

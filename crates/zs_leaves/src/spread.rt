//! Entries in an order that is far from sorted.

ghost use Rattle.std.specs.Prelude.{◌<◌};

use zs_ids::{Bp, DsId, Item, Key, Piece, Place};
use zs_ledger::{CopyResult, Entry};

/// The i-th of the numbers below n, a power of two, each once.
pub fn mixed(i: u64, n: u64) -> u64
    ensures { 0 < n → result < n }
{
    if n == 0 {
        return 0;
    }
    i.wrapping_mul(40_503) % n
}

/// The dataset for which blocks are staged.
pub const HEAD: DsId = DsId(1);

/// A key for each number below 2 ^ 32.
pub fn key(number: u64) -> Key {
    Key {
        object: (number % 2048) as u16,
        rank: 1,
        leaf: (number / 2048 % 262_144) as u32,
        depth: 3,
    }
}

/// A pointer.
pub fn pointer() -> Bp {
    let place = Place { vdev: 0, sector: 0 };
    Bp {
        count: 1,
        places: [place, place, place],
        sectors: 1,
        birth: 2,
        level: 0,
        sum: [0; 32],
    }
}

/// A piece for each number below 2 ^ 32.
pub fn piece(number: u64) -> Piece {
    Piece {
        place: Place {
            vdev: 0,
            sector: (number % 4_294_967_296) as u32,
        },
        birth: 2,
    }
}

/// An item of the piece.
pub fn item(number: u64) -> Item {
    Item {
        piece: piece(number),
        sectors: 1,
        sum: [0; 32],
    }
}

/// An entry of the piece, of which every eighth has a bad copy.
pub fn entry(number: u64) -> Entry {
    let first = if number % 8 == 0 {
        CopyResult::Bad
    } else {
        CopyResult::Good
    };
    Entry {
        piece: piece(number),
        sectors: 1,
        sum: [0; 32],
        copies: [
            first,
            CopyResult::Good,
            CopyResult::Missing,
            CopyResult::Missing,
        ],
        marks: [u64::MAX; 4],
    }
}

//! A dataset with its entries in a list, and the room of a pool.

use std::marker::Model;
use zs_ids::{Bp, DsId, Key, Name, Seq};

/// A dataset: a head or a snapshot, with its entries in order of key. Contracts see it as the dataset of the
/// definitions.
#[derive(Debug, Drop)]
pub struct PlainDataset {
    /// Its number.
    pub id: DsId,
    /// Whether it is a head.
    pub head: bool,
    /// The name of the head, or of the head of which the snapshot was taken.
    pub owner: Name,
    /// The snapshot's label, empty for a head.
    pub label: Name,
    /// The snapshot on which it stands; none for the origin.
    pub parent: Option<DsId>,
    /// The transaction group in which the snapshot was taken, 0 for a head.
    pub creation: u64,
    /// What it holds.
    pub entries: Seq<(Key, Bp)>,
}

impl Model for PlainDataset {
    ghost use Rattle.zs_ids.specs.Graph.{Dataset};

    ghost Value = { Dataset };

    ghost view = { λ d. record { id = d.id; head = d.head; owner = d.owner; label = d.label; parent = d.parent; creation = d.creation; entries = d.entries } };
}

/// The room of a pool.
#[derive(Debug, Drop)]
pub struct PlainRoom {
    /// The sector at which the space of each mirror begins.
    pub start: u64,
    /// The sectors at which those of the mirrors end.
    pub ends: Seq<u64>,
    /// How many blocks the pool may hold.
    pub blocks: u64,
}

impl Model for PlainRoom {
    ghost use Rattle.zs_ids.specs.GraphValid.{Room};

    ghost Value = { Room };

    ghost view = { λ r. record { start = r.start; ends = r.ends; blocks = r.blocks } };
}

//! What a pool's history is made of.

use zs_ids::{Boxed, DsName, Item, Marks, Piece, Seq};
use zs_ledger::Entry;
use zs_objset::CommitFault;
use zs_scan::Turn;
use zs_script::{Command, Reply};

/// How far the sync in progress has come.
#[derive(Clone, Copy, Debug, PartialEq, Eq)]
pub enum Stage {
    /// No sync is in progress, or the pool is suspended.
    Between,
    /// The blocks are being written.
    Writing,
    /// The graph has the changes; what a commit writes of it is being written.
    Labelling,
}

/// Where the answer of a read comes from.
#[derive(Clone, Copy, Debug, PartialEq, Eq)]
pub enum ReadPlan {
    /// The record is staged with this fill.
    Staged(u64),
    /// The record was never written.
    Hole,
    /// The record is this piece, to be read from the devices of this mask.
    Pinned(Item, u32),
}

/// A read that was begun and not ended.
#[derive(Clone, Copy, Debug, PartialEq, Eq)]
pub struct OpenRead {
    /// The client.
    pub by: u8,
    /// In which dataset.
    pub ds: DsName,
    /// The object.
    pub object: u16,
    /// The record.
    pub leaf: u32,
    /// Where the answer comes from.
    pub plan: ReadPlan,
}

/// What happened to a pool. What is large stands behind a pointer, so that an event without a list is small.
#[derive(Debug, Drop)]
pub enum Step {
    /// A command staged a record, queued a task, or was refused.
    Command(Boxed<Command>),
    /// A line ended whose events stand before this one.
    Line(Boxed<Command>),
    /// The walk made a turn.
    Walk(Turn),
    /// A batch of pieces was taken to be checked.
    Hold {
        /// The batch.
        number: u64,
        /// Its mirror.
        vdev: u8,
        /// The devices that were online.
        online: u32,
        /// Its pieces.
        pieces: Boxed<Seq<Piece>>,
    },
    /// A batch was checked.
    Verdict {
        /// The batch.
        number: u64,
        /// Its pieces; none where no such batch was in flight.
        pieces: Boxed<Seq<Piece>>,
        /// The entries that were made of it.
        entries: Boxed<Seq<Entry>>,
    },
    /// The open transaction group was closed.
    BeginSync,
    /// The blocks were written, and the graph has the changes.
    EndData {
        /// The devices that were online.
        online: u32,
        /// The devices that failed or were offline, and where each journal has the last call of the sync's data.
        marks: Boxed<Marks>,
        /// The pieces that were born in the transaction group and live, in order of place.
        items: Boxed<Seq<Item>>,
    },
    /// The transaction group is committed.
    Committed {
        /// The devices that were online.
        online: u32,
    },
    /// The pool was suspended.
    Suspend {
        /// The devices that were online.
        online: u32,
        /// Why.
        why: CommitFault,
    },
    /// A read began, with its plan where it was not refused.
    ReadBegin(Boxed<Command>, Option<Boxed<ReadPlan>>),
    /// A read ended. For each copy of the piece that was read, the place of its read in the journal of its device:
    /// `u64::MAX` where it was not read.
    ReadEnd(Boxed<ReadPlan>, Boxed<[u64; 12]>),
    /// The pool was made.
    Made(Boxed<Command>),
}

/// What happened, for whom, and what was replied.
#[derive(Debug, Drop)]
pub struct Event {
    /// The client, 1 to 8; 0 in a session with one caller.
    pub by: u8,
    /// What happened.
    pub step: Step,
    /// What was replied.
    pub reply: Reply,
}

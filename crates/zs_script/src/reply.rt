//! What the pool replies.

ghost use Rattle.std.specs.Prelude.{◌≡◌, Some};
ghost use Rattle.zs_script.specs.Texts.{kind_text, state_text, end_text, letter_text};

use crate::refusal::Refusal;
use zs_ids::{Boxed, DsName, Key, Seq};

/// Which scan.
#[derive(Clone, Copy, Debug, PartialEq, Eq)]
pub enum ScanKind {
    /// All that was born in the scan's range.
    Scrub,
    /// What a device has missed.
    Resilver,
}

impl ScanKind {
    /// The word that replies print.
    pub fn name(self) -> &'static str
        ensures { result.now ≡ kind_text self }
    {
        match self {
            ScanKind::Scrub => "scrub",
            ScanKind::Resilver => "resilver",
        }
    }
}

/// How a scan stands.
#[derive(Clone, Copy, Debug, PartialEq, Eq)]
pub enum ScanState {
    /// It runs.
    Scanning,
    /// It runs and is paused.
    Paused,
    /// It came to its end.
    Finished,
    /// It was stopped.
    Canceled,
}

impl ScanState {
    /// The word that replies print.
    pub fn name(self) -> &'static str
        ensures { result.now ≡ state_text self }
    {
        match self {
            ScanState::Scanning => "scanning",
            ScanState::Paused => "paused",
            ScanState::Finished => "finished",
            ScanState::Canceled => "canceled",
        }
    }
}

/// Why a walk took no further turn.
#[derive(Clone, Copy, Debug, PartialEq, Eq)]
pub enum WalkEnd {
    /// As many turns were taken as were asked for.
    More,
    /// As many pieces wait as may.
    Full,
    /// A checkpoint is due.
    Draining,
    /// No turn is left.
    Nothing,
}

impl WalkEnd {
    /// The word that replies print.
    pub fn name(self) -> &'static str
        ensures { result.now ≡ end_text self }
    {
        match self {
            WalkEnd::More => "more",
            WalkEnd::Full => "full",
            WalkEnd::Draining => "draining",
            WalkEnd::Nothing => "nothing",
        }
    }
}

/// What a check found on one device of a mirror.
#[derive(Clone, Copy, Debug, PartialEq, Eq)]
pub enum Letter {
    /// `G`: the copy is good.
    Good,
    /// `R`: it was bad and is rewritten.
    Rewritten,
    /// `B`: it is bad, and no copy is good.
    Bad,
    /// `F`: a call of the device failed.
    Fault,
    /// `A`: the device was offline.
    Absent,
}

impl Letter {
    /// The letter that replies print.
    pub fn name(self) -> &'static str
        ensures { result.now ≡ letter_text (Some self) }
    {
        match self {
            Letter::Good => "G",
            Letter::Rewritten => "R",
            Letter::Bad => "B",
            Letter::Fault => "F",
            Letter::Absent => "A",
        }
    }
}

/// A checked piece, as a reply tells it.
#[derive(Clone, Copy, Debug, PartialEq, Eq)]
pub struct IssuedPiece {
    /// Its first sector.
    pub sector: u32,
    /// A letter for each device of its mirror, in order; `None` from the mirror's width on.
    pub letters: [Option<Letter>; 4],
}

/// A landed piece, as a reply tells it.
#[derive(Clone, Copy, Debug, PartialEq, Eq)]
pub struct LandedPiece {
    /// Its mirror.
    pub vdev: u8,
    /// Its first sector.
    pub sector: u32,
    /// What its check found, as in `IssuedPiece`; `None` where no entry was made.
    pub letters: Option<[Option<Letter>; 4]>,
}

/// A damaged piece, as a reply tells it.
#[derive(Clone, Copy, Debug, PartialEq, Eq)]
pub struct ErrorPiece {
    /// Its mirror.
    pub vdev: u8,
    /// Its first sector.
    pub sector: u32,
    /// The transaction group that wrote it.
    pub birth: u64,
    /// What its check found, as in `IssuedPiece`.
    pub letters: [Option<Letter>; 4],
}

/// A dataset, as a reply tells it.
#[derive(Clone, Copy, Debug, PartialEq, Eq)]
pub struct Listed {
    /// Its name.
    pub name: DsName,
    /// The transaction group that took it as a snapshot; 0 for a head.
    pub creation: u64,
    /// How many blocks its map has.
    pub blocks: u32,
}

/// A scan that came to its end.
#[derive(Clone, Copy, Debug, PartialEq, Eq)]
pub struct Finished {
    /// Which scan.
    pub kind: ScanKind,
    /// How many pieces it checked.
    pub checked: u32,
    /// How many of them are damaged.
    pub errors: u32,
}

/// Where a walk stands.
#[derive(Clone, Copy, Debug, PartialEq, Eq)]
pub enum WalkPlace {
    /// Between two datasets.
    Nowhere,
    /// In a dataset that was destroyed.
    Destroyed,
    /// In a dataset.
    Dataset {
        /// Its name.
        ds: DsName,
        /// The bookmark: the least key that is not walked yet.
        key: Key,
        /// Blocks born up to here are passed.
        curmin: u64,
        /// Blocks born after here are passed.
        curmax: u64,
        /// Whether the dataset is walked again after this pass.
        again: bool,
    },
}

/// A dataset that the walk has yet to enter.
#[derive(Clone, Copy, Debug, PartialEq, Eq)]
pub struct TodoEntry {
    /// Its name.
    pub ds: DsName,
    /// Blocks born up to here will be passed.
    pub min: u64,
}

/// A running scan's range and bookmark.
#[derive(Debug, Drop)]
pub struct Walking {
    /// Blocks born up to here are out of scope.
    pub min: u64,
    /// Blocks born after here are out of scope.
    pub max: u64,
    /// Where the walk stands.
    pub place: WalkPlace,
    /// What it has yet to enter, in order.
    pub todo: Seq<TodoEntry>,
}

/// How a scan stands.
#[derive(Debug, Drop)]
pub struct ScanStatus {
    /// Which scan.
    pub kind: ScanKind,
    /// How it stands.
    pub state: ScanState,
    /// How many pieces it checked.
    pub checked: u32,
    /// How many of them are damaged.
    pub errors: u32,
    /// How many pieces wait.
    pub waiting: u32,
    /// How many pieces are in flight and were not freed.
    pub flight: u32,
    /// The walk, where the scan is running, paused or not.
    pub walking: Option<Walking>,
}

/// A reply, with the values that it prints.
#[derive(Debug, Drop)]
pub enum Reply {
    /// `pool ID mirrors V txg 1`.
    Made {
        /// The pool's number.
        pool: u64,
        /// How many mirrors it has.
        mirrors: u8,
    },
    /// `queued T K`: the K-th task of transaction group T.
    Queued {
        /// The transaction group that will run the task.
        txg: u64,
        /// The task's number in it, from 1.
        task: u32,
    },
    /// `wrote DS OBJ LEAF T`.
    Wrote {
        /// In which head.
        ds: DsName,
        /// The object.
        object: u16,
        /// The record.
        leaf: u32,
        /// The transaction group that will write it.
        txg: u64,
    },
    /// `read DS OBJ LEAF X`.
    Read {
        /// In which dataset.
        ds: DsName,
        /// The object.
        object: u16,
        /// The record.
        leaf: u32,
        /// Its first 8 bytes, the most significant first.
        value: u64,
    },
    /// `read DS OBJ LEAF hole`: the record was never written.
    ReadHole {
        /// In which dataset.
        ds: DsName,
        /// The object.
        object: u16,
        /// The record.
        leaf: u32,
    },
    /// `sync T`, a line for each task, and a line where the scan came to its end.
    Committed {
        /// The transaction group.
        txg: u64,
        /// For each task, in order, why it was refused.
        tasks: Seq<Option<Refusal>>,
        /// The scan that came to its end.
        finished: Option<Finished>,
    },
    /// `walk K WHY waiting Q0 ..`.
    Walked {
        /// How many turns were taken.
        turns: u32,
        /// Why no more.
        why: WalkEnd,
        /// How many pieces wait, for each mirror.
        waiting: Seq<u32>,
    },
    /// `issue V K` and the pieces.
    Issued {
        /// The mirror.
        vdev: u8,
        /// The pieces, in the order in which they were checked.
        pieces: Seq<IssuedPiece>,
    },
    /// `hold V K` and the pieces' sectors.
    Held {
        /// The mirror.
        vdev: u8,
        /// The first sectors of the pieces, in the order of the batch.
        sectors: Seq<u32>,
    },
    /// `land K` and the pieces.
    Landed {
        /// How many entries were made.
        entries: u32,
        /// The pieces, in the order in which they were checked.
        pieces: Seq<LandedPiece>,
    },
    /// `rot DEV SECTOR COUNT`: the bytes of the range were complemented.
    Rotted {
        /// The device's number.
        dev: u8,
        /// The first sector.
        sector: u32,
        /// How many sectors.
        count: u32,
    },
    /// `errors N`, and a line for each damaged piece.
    Errors {
        /// The damaged pieces, in order of mirror, sector and birth.
        pieces: Seq<ErrorPiece>,
    },
    /// `ds NAME CREATION BLOCKS` for each dataset.
    List {
        /// The datasets, in order of id.
        datasets: Seq<Listed>,
    },
    /// `txg T`, and how the scan stands.
    Status {
        /// The open transaction group.
        txg: u64,
        /// The last scan, where there was one. It is larger than all else that a reply has, so it stands
        /// behind a pointer.
        scan: Option<Boxed<ScanStatus>>,
    },
    /// `sync T refused NAME`: the commit failed, and the pool is suspended.
    RefusedSync {
        /// The transaction group.
        txg: u64,
        /// Why.
        refusal: Refusal,
    },
    /// `refused NAME`.
    Refused(Refusal),
    /// A reply without a text.
    Nothing,
}

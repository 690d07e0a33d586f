//! What a script's lines command.

ghost use Rattle.std.specs.Prelude.{◌≡◌};
ghost use Rattle.zs_script.specs.Faults.{why_name};

use std::alloc::AllocError;
use zs_ids::{DsName, Name};

/// A line's command, with the words after the command word in order.
#[derive(Clone, Copy, Debug, PartialEq, Eq)]
pub enum Command {
    /// `pool ID W LIMIT EVERY BLOCKS`: makes a pool.
    Pool {
        /// The pool's number.
        pool: u64,
        /// How many devices a mirror has, 1 to 4.
        width: u8,
        /// How many pieces may wait, 1 to 65,536.
        limit: u32,
        /// A checkpoint is due after so many commits, 1 to 1,000.
        every: u32,
        /// How many blocks the pool may have, 64 to 65,536 and a multiple of 4.
        blocks: u32,
    },
    /// `open`: opens the pool of the devices.
    Open,
    /// `reopen`: drops the pool and opens the same devices.
    Reopen,
    /// `fs NAME`: makes a filesystem.
    Fs {
        /// Its name.
        name: Name,
    },
    /// `snap HEAD LABEL`: takes a snapshot.
    Snap {
        /// Of which head.
        head: Name,
        /// Its label.
        label: Name,
    },
    /// `clone DS NAME`: makes a head on a snapshot.
    Clone {
        /// The snapshot.
        ds: DsName,
        /// The head's name.
        name: Name,
    },
    /// `destroy DS`: destroys a head or a snapshot.
    Destroy {
        /// Which.
        ds: DsName,
    },
    /// `swap HEAD HEAD`: exchanges what two heads hold.
    Swap {
        /// The one head.
        first: Name,
        /// The other.
        second: Name,
    },
    /// `scrub`: starts a scrub, or resumes a paused one.
    Scrub,
    /// `resilver`: starts a resilver.
    Resilver,
    /// `pause`: pauses the scrub.
    Pause,
    /// `resume`: resumes the paused scrub.
    Resume,
    /// `stop`: cancels the scan.
    Stop,
    /// `offline DEV`: takes a device offline.
    Offline {
        /// The device's number.
        dev: u8,
    },
    /// `online DEV`: brings a device back.
    Online {
        /// The device's number.
        dev: u8,
    },
    /// `make DS OBJ LEVELS SIZE FILL`: makes an object and its record 0.
    Make {
        /// In which head.
        ds: DsName,
        /// The object's number, 1 to 2,047.
        object: u16,
        /// How many levels of blocks it has, 1 to 4.
        levels: u8,
        /// The bytes of a record, a power of two from 512 to 131,072.
        size: u32,
        /// What fills the record.
        fill: u64,
    },
    /// `write DS OBJ LEAF FILL`: writes a record.
    Write {
        /// In which head.
        ds: DsName,
        /// The object's number, 1 to 2,047.
        object: u16,
        /// The record's number, 0 to 262,143.
        leaf: u32,
        /// What fills the record.
        fill: u64,
    },
    /// `read DS OBJ LEAF`: reads a record.
    Read {
        /// In which dataset.
        ds: DsName,
        /// The object's number, 1 to 2,047.
        object: u16,
        /// The record's number, 0 to 262,143.
        leaf: u32,
    },
    /// `sync`: commits the open transaction group.
    Sync,
    /// `walk N`: takes turns of the walk.
    Walk {
        /// At most so many, 1 to 1,000,000.
        turns: u32,
    },
    /// `issue V N`: takes a batch of waiting pieces and checks it.
    Issue {
        /// The mirror.
        vdev: u8,
        /// At most so many pieces, 1 to 1,024.
        pieces: u32,
    },
    /// `hold V N`: takes a batch of waiting pieces and leaves it in flight.
    Hold {
        /// The mirror.
        vdev: u8,
        /// At most so many pieces, 1 to 1,024.
        pieces: u32,
    },
    /// `land`: checks all batches in flight.
    Land,
    /// `finish`: brings the scan to its end.
    Finish,
    /// `strategy address`: takes extents by address.
    StrategyAddress,
    /// `strategy score`: takes extents by score.
    StrategyScore,
    /// `rot DEV SECTOR COUNT`: complements the bytes of a range.
    Rot {
        /// The device's number.
        dev: u8,
        /// The first sector, 0 to 2,097,151.
        sector: u32,
        /// How many sectors, 1 to 65,536.
        count: u32,
    },
    /// `errors`: lists the damaged pieces.
    Errors,
    /// `list`: lists the datasets.
    List,
    /// `status`: tells the pool's state.
    Status,
    /// `progress`: tells how far the scan has come.
    Progress,
}

/// A script's line.
#[derive(Clone, Copy, Debug, PartialEq, Eq)]
pub struct Line {
    /// The line's number in the script, from 1.
    pub number: u32,
    /// The client whose line it is, 1 to 8; 0 in a script for one caller.
    pub by: u8,
    /// What it commands.
    pub command: Command,
}

/// Why a line is faulty.
#[derive(Clone, Copy, Debug, PartialEq, Eq)]
pub enum Why {
    /// A byte that no line has, no command word, or one that is not known.
    Word,
    /// A word that is no number, or one out of its range.
    Number,
    /// A word that is no name.
    Name,
    /// Too few words, or too many.
    Count,
    /// The line reaches past the greatest size of a script.
    Size,
    /// The command may not stand here.
    Order,
}

impl Why {
    /// The word that is printed.
    pub fn name(self) -> &'static str
        ensures { result.now ≡ why_name self }
    {
        match self {
            Why::Word => "Word",
            Why::Number => "Number",
            Why::Name => "Name",
            Why::Count => "Count",
            Why::Size => "Size",
            Why::Order => "Order",
        }
    }
}

/// Why no lines were read.
#[derive(Clone, Copy, Debug, PartialEq, Eq)]
pub enum ScriptFault {
    /// The script has a fault; this is the first.
    Bad {
        /// The number of the line, from 1.
        line: u32,
        /// What is wrong with it.
        why: Why,
    },
    /// Memory was wanting.
    Memory,
}

impl From<AllocError> for ScriptFault {
    ghost use Rattle.zs_script.specs.declared.command.ScriptFault.TheVariants.{Memory};

    ghost from_gives = { λ _ e. e ≡ Memory };

    fn from(_: AllocError) -> ScriptFault {
        ScriptFault::Memory
    }
}

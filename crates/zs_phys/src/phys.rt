//! The scan state.

ghost use Rattle.std.specs.Prelude.{◌≡◌, ◌<◌, [], IfOk};
ghost use Rattle.zs_ids.specs.declared.limits.TheConstants.{DEVICES};
ghost use Rattle.zs_phys.specs.Handlers.{Handled, replaced_by, dropped_from, moved, is_on, instead, exchanged, idle, Event as events};

use crate::todos::{Todos, exchanged, instead};
use std::alloc::{AllocError, Global};
use zs_ids::{DsId, Key};

/// Whether a scan runs.
#[derive(Clone, Copy, Debug, PartialEq, Eq)]
pub enum Status {
    /// There was no scan yet.
    Never,
    /// A scan is running, paused or not.
    Scanning,
    /// The last scan has finished.
    Finished,
    /// The last scan was canceled.
    Canceled,
}

/// Where the walk is.
#[derive(Clone, Copy, Debug, PartialEq, Eq)]
pub enum At {
    /// Between two datasets.
    Nowhere,
    /// At a dataset that was destroyed.
    Destroyed,
    /// At a dataset, before its first block at or after the key.
    Dataset(DsId, Key),
}

/// The state of a scan, after `dsl_scan_phys_t` of OpenZFS.
///
/// Where it is not at a dataset, `curmin` and `curmax` are 0 and `again` is off.
#[derive(Debug, Drop)]
pub struct Phys {
    /// Whether a scan runs.
    pub status: Status,
    /// Whether the scan is paused. Only a running scrub is.
    pub paused: bool,
    /// The devices that were offline at some moment since the scan started, a bit for each.
    pub away: u32,
    /// Where the walk is.
    pub at: At,
    /// The walk visits the blocks of the dataset that are born after this transaction group.
    pub curmin: u64,
    /// The walk examines the blocks of the dataset that are born up to this transaction group.
    pub curmax: u64,
    /// Whether the dataset is to be passed once more, for its blocks born after `curmax`.
    pub again: bool,
    /// The datasets that are still to be passed; those that stand on one of them are to be passed after it.
    pub todo: Todos,
}

impl Phys {
    /// The state of a pool that never had a scan.
    pub fn idle(alloc: Global) -> Result<Phys, AllocError>
        ensures { IfOk result (λ s. s ≡ idle) }
    {
        let todo = Todos::new(alloc)?;
        Ok(Phys {
            status: Status::Never,
            paused: false,
            away: 0,
            at: At::Nowhere,
            curmin: 0,
            curmax: 0,
            again: false,
            todo,
        })
    }

    /// Becomes equal to the other state.
    pub fn copy_from(&mut self, other: &Phys)
        ensures { self.new ≡ other.now }
    {
        self.status = other.status;
        self.paused = other.paused;
        self.away = other.away;
        self.at = other.at;
        self.curmin = other.curmin;
        self.curmax = other.curmax;
        self.again = other.again;
        self.todo.copy_from(&other.todo);
    }

    /// A snapshot was taken of a head: bookmark and queue move from the head to the snapshot.
    pub fn snapshotted(&mut self, head: DsId, snap: DsId)
        ensures { Handled self.old (events.snapshot_taken head snap) self.new }
    {
        self.at = self.at.replaced(head, snap);
        self.todo.replace(head, snap);
    }

    /// A dataset was destroyed. Where it was a snapshot with a child, bookmark and queue move to the child, which is
    /// passed once more where the walk was at the snapshot; else it leaves both.
    pub fn destroyed(&mut self, id: DsId, next: Option<DsId>)
        ensures { Handled self.old (events.destroyed id next) self.new }
    {
        match next {
            Some(next) => self.replaced_by(id, next),
            None => self.dropped(id),
        }
    }

    /// Two heads were swapped: they change places.
    pub fn swapped(&mut self, a: DsId, b: DsId)
        ensures { Handled self.old (events.swapped a b) self.new }
    {
        self.at = self.at.exchanged(a, b);
        self.todo.exchange(a, b);
    }

    /// A device, below 16, went offline.
    pub fn went_away(&mut self, dev: u8)
        requires { dev < DEVICES }
        ensures { Handled self.old (events.went_away dev) self.new }
    {
        self.away |= 1 << dev;
    }

    /// A snapshot was destroyed, and the child took its place.
    fn replaced_by(&mut self, id: DsId, next: DsId)
        ensures { self.new ≡ replaced_by id next self.old }
    {
        if self.at.is_on(id) {
            self.again = true;
        }
        self.at = self.at.replaced(id, next);
        self.todo.replace(id, next);
    }

    /// A dataset without a child was destroyed.
    fn dropped(&mut self, id: DsId)
        ensures { self.new ≡ dropped_from id self.old }
    {
        if self.at.is_on(id) {
            self.at = At::Destroyed;
            self.curmin = 0;
            self.curmax = 0;
            self.again = false;
        }
        self.todo.remove(id);
    }
}

impl At {
    /// Whether the walk is at this dataset.
    pub fn is_on(self, id: DsId) -> bool
        ensures { result ≡ is_on self id }
    {
        match self {
            At::Nowhere | At::Destroyed => false,
            At::Dataset(here, _) => here == id,
        }
    }

    /// The bookmark with a dataset in another one's place.
    fn replaced(self, id: DsId, by: DsId) -> At
        ensures { result ≡ moved (instead id by) self }
    {
        match self {
            At::Dataset(here, key) => At::Dataset(instead(here, id, by), key),
            At::Nowhere => At::Nowhere,
            At::Destroyed => At::Destroyed,
        }
    }

    /// The bookmark with two datasets in each other's place.
    fn exchanged(self, a: DsId, b: DsId) -> At
        ensures { result ≡ moved (exchanged a b) self }
    {
        match self {
            At::Dataset(here, key) => At::Dataset(exchanged(here, a, b), key),
            At::Nowhere => At::Nowhere,
            At::Destroyed => At::Destroyed,
        }
    }
}

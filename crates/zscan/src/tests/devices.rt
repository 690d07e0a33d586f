//! Images that lie: they take writes and lose some, and tell nothing of what they hold.

ghost use Rattle.std.specs.Prelude.{◌≡◌, None};
ghost use Rattle.std.proofs.Common.{rules};

use std::alloc::Global;
use zs_io::{Bay, BayFault, Device, SureDevice};

/// An image in memory that loses its writes of some numbers, counted from 0: from the one, and
/// before the other.
#[derive(Drop)]
pub struct Shaky {
    disk: SureDevice,
    loses: (u64, u64),
    writes: u64,
}

impl Shaky {
    /// How many writes it was given.
    pub fn writes(&self) -> u64 {
        self.writes
    }

    /// The bytes as they read.
    pub fn into_bytes(self) -> Vec<u8> {
        self.disk.into_bytes()
    }
}

impl Device for Shaky {
    ghost size = { λ d. ⟦<SureDevice as Device>⟧.size d.disk };

    ghost told = { λ _. None };

    ghost may_leave = { λ _ _. ⊥ };

    ghost moment = { λ _. 0 };

    ghost left_since = { λ _ _ _. ⊥ };

    ghost faults = { λ _. 0 };

    fn bytes(&self) -> u64 {
        self.disk.bytes()
    }

    fn read_at(&mut self, at: u64, buf: &mut [u8]) -> Result<(), BayFault> {
        self.disk.read_at(at, buf)
    }

    fn write_at(&mut self, at: u64, bytes: &[u8]) -> Result<(), BayFault> {
        let (from, until) = self.loses;
        if self.writes < from || until <= self.writes {
            self.disk.write_at(at, bytes)?;
        }
        self.writes = self.writes.saturating_add(1);
        Ok(())
    }

    fn sync(&mut self) -> Result<(), BayFault> {
        self.disk.sync()
    }

    ghost told_is = { Prim.search rules };

    ghost images_fit = { λ device c left. absurd left };

    ghost images_are_bytes = { λ device c left. absurd left };

    ghost past_is_bytes = { λ device t c left. absurd left };

    ghost counts_now = { λ device t c later left. left };

    ghost only_now = { λ device c left. left };
}

/// A bay of blank shaky images of 512 sectors.
#[derive(Drop)]
pub struct ShakyBay {
    alloc: Global,
    losses: Vec<(u64, u64)>,
}

impl ShakyBay {
    /// A bay of as many images as there are pairs, each of which loses its writes from the one
    /// number on and before the other.
    pub fn new(alloc: Global, losses: Vec<(u64, u64)>) -> Self {
        ShakyBay { alloc, losses }
    }
}

impl Bay for ShakyBay {
    type Dev = Shaky;

    ghost left = { λ _. None };

    ghost asked = { λ _. None };

    ghost faults = { λ _. 0 };

    fn fetch(&mut self, _name: &str) -> Result<Shaky, BayFault> {
        let loses = if self.losses.is_empty() {
            (0, 0)
        } else {
            self.losses.remove(0)
        };
        let bytes = vec![in self.alloc; 0; 262_144]?;
        Ok(Shaky {
            disk: SureDevice::new(self.alloc, bytes),
            loses,
            writes: 0,
        })
    }
}

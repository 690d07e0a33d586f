//! What is known of a taken range.

ghost use Rattle.std.specs.Prelude.{◌≡◌};
ghost use Rattle.zs_alloc.specs.Space.{is_over, settled_by};

/// Whether a taken range was freed.
#[derive(Clone, Copy, Debug, PartialEq, Eq)]
pub enum Freed {
    /// It is in use.
    Not,
    /// It was freed in that transaction group, which is not settled.
    In(u64),
    /// It was freed, and that is settled: it is taken until its last pin goes.
    Settled,
}

/// What is known of a taken range, beside its first sector.
#[derive(Clone, Copy, Debug, PartialEq, Eq)]
pub struct Taken {
    /// Its size in sectors, not 0.
    pub sectors: u16,
    /// How many pins are on it.
    pub pins: u64,
    /// Whether it was freed.
    pub freed: Freed,
}

impl Freed {
    /// The same once a transaction group is settled, and with it all before.
    pub(crate) fn settled(self, t: u64) -> Freed
        ensures { result ≡ settled_by t self }
    {
        match self {
            Freed::In(u) => { if u <= t { Freed::Settled } else { self } }
            _ => self,
        }
    }
}

impl Taken {
    /// Whether it was freed, that is settled, and no pin is on it.
    pub(crate) fn is_over(&self) -> bool
        ensures { result ≡ is_over self.now }
    {
        match self.freed {
            Freed::Settled => self.pins == 0,
            _ => false,
        }
    }
}

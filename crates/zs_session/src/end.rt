//! How a run of the program ends.

ghost use Rattle.std.specs.Prelude.{◌≡◌};
ghost use Rattle.zs_session.specs.Ending.{code};

/// How a run of the program ends.
#[derive(Clone, Copy, Debug, PartialEq, Eq)]
pub enum End {
    /// The script was read to its end, and every reply was put.
    Done,
    /// The words are no form of the command line.
    Usage,
    /// The script has a fault.
    Fault,
    /// `pool` refused the images.
    Unfit,
    /// A device failed in a sync's data, a head could not be read, or an image could not be had.
    Device,
    /// The source failed.
    Source,
    /// The sink failed.
    Sink,
    /// Memory was wanting.
    Memory,
}

impl End {
    /// The status with which the program ends.
    pub fn code(self) -> u8
        ensures { result ≡ code self }
    {
        match self {
            End::Done => 0,
            End::Usage => 1,
            End::Fault => 2,
            End::Unfit => 3,
            End::Device => 4,
            End::Source => 5,
            End::Sink => 6,
            End::Memory => 7,
        }
    }
}

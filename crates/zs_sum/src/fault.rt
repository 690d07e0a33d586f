//! Why 64 bytes are no pointer.

/// Why 64 bytes are no pointer. Of the faults that they have, the first in the order Count, Level, Size, Pad, Birth,
/// Place is told.
#[derive(Clone, Copy, Debug, PartialEq, Eq)]
pub enum BpFault {
    /// The size is not 1 to 256 sectors.
    Size,
    /// A place that is used has no mirror below 8 or no sector below 2,097,152, or one that is not used is not zero.
    Place,
    /// The level is above 3.
    Level,
    /// The count of places is not 1 to 3.
    Count,
    /// One of the bytes 4 to 7 and 31 is not zero.
    Pad,
    /// The birth is 0.
    Birth,
}

//! Why a session ends before its last line.

/// Why a session ends before its last line.
#[derive(Clone, Copy, Debug, PartialEq, Eq)]
pub enum Stop {
    /// A device failed in a sync's data; its count of faults rose.
    Device,
    /// A reply could not be put; the sink's count of faults rose.
    Sink,
    /// Memory was wanting.
    Memory,
}

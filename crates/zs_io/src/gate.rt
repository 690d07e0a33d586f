// Points of a live session at which a test can hold a thread.

/// Where a thread stands when it calls a gate.
#[derive(Clone, Copy, Debug, PartialEq, Eq)]
pub enum Point {
    /// A batch of this mirror is about to be read.
    Reading(u8),
    /// A commit is about to be written.
    Committing,
    /// This client was answered.
    Answered(u8),
}

/// Something that a session calls at each of its points, outside of every lock. No clause rests on it.
pub trait Gate {
    /// The thread stands at this point.
    fn at(&self, point: Point);
}

/// A gate that lets every thread pass.
#[derive(Clone, Copy, Debug, PartialEq, Eq)]
pub struct NoGate;

impl Gate for NoGate {
    fn at(&self, _point: Point) {}
}

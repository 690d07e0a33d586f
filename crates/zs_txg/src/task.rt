//! The tasks that a sync runs.

use zs_ids::{DsName, Name};

/// A task, with the words of its command. Names are resolved when it runs. There is a variant for each task that a pool can
/// run, and for no other, so that none can be answered as done which nothing does.
#[derive(Clone, Copy, Debug, PartialEq, Eq)]
pub enum Task {
    /// Makes a filesystem: a head on the origin.
    Fs {
        /// Its name.
        name: Name,
    },
    /// Takes a snapshot.
    Snap {
        /// Of which head.
        head: Name,
        /// Its label.
        label: Name,
    },
    /// Makes a head on a snapshot.
    Clone {
        /// The snapshot.
        ds: DsName,
        /// The head's name.
        name: Name,
    },
    /// Destroys a head or a snapshot.
    Destroy {
        /// Which.
        ds: DsName,
    },
    /// Exchanges what two heads hold.
    Swap {
        /// The one head.
        first: Name,
        /// The other.
        second: Name,
    },
    /// Starts a scrub, or resumes a paused one.
    Scrub,
    /// Pauses the scrub.
    Pause,
    /// Resumes the paused scrub.
    Resume,
    /// Cancels the scan, paused or not.
    Stop,
}

//! What the lines of a session work on beside the pool.

use zs_mirror::Buffers;

/// The devices of a pool, and the buffers for the checks of their blocks.
pub struct Rig<C> {
    /// The devices, in their lanes.
    pub set: C,
    /// Buffers, made once and used for all checks.
    pub buffers: Buffers,
}

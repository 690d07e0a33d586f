// The two buffers of a check.
ghost use Rattle.std.specs.Prelude.{◌≡◌, ◌≤◌, length, vec_len};
ghost use Rattle.zs_ids.specs.declared.limits.TheConstants.{BLOCK_BYTES};

use std::alloc::{AllocError, Global};
use zs_ids::limits::BLOCK_BYTES;

/// Two buffers of 131,072 bytes each, the size of the greatest block. Make them once, and use them for all checks.
#[derive(Drop)]
pub struct Buffers {
    // the bytes of a good copy
    pub(crate) good: Vec<u8>,
    // the bytes of the copy that was read last
    pub(crate) read: Vec<u8>,
    ghost good_long: { vec_len good ≡ BLOCK_BYTES },
    ghost read_long: { vec_len read ≡ BLOCK_BYTES },
}

impl Buffers {
    /// New buffers. Fails where memory is wanting.
    pub fn new(alloc: Global) -> Result<Self, AllocError> {
        let good = vec![in alloc; 0; BLOCK_BYTES]?;
        let read = vec![in alloc; 0; BLOCK_BYTES]?;
        Ok(Buffers { good, read })
    }
}

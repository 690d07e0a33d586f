//! The sum of a block.

ghost use Rattle.std.specs.Prelude.{◌≡◌};
ghost use Rattle.zs_sum.specs.Sum.{sha256};

use sha2::{Digest, Sha256};

/// The SHA-256 sum of some bytes.
pub fn sum(bytes: &[u8]) -> [u8; 32]
    ensures { result ≡ sha256 bytes.now }
{
    Sha256::digest(bytes)
}

// Where the copies of a block lie, and which devices a mask has.
ghost use Rattle.std.specs.Prelude.{◌≡◌, ◌≤◌, ◌<◌, ◌+◌};
ghost use Rattle.std.specs.Int.{bit_at};
ghost use Rattle.zs_mirror.specs.Mirror.{first_of, start_of, has_bit};

use zs_ids::Place;
use zs_ids::limits::{DEVICES, SECTOR};

/// The first device of a mirror.
pub(crate) fn first_of(vdev: u8, width: u8) -> u8
    requires { first_of vdev width ≤ DEVICES }
    ensures { result ≡ first_of vdev width }
{
    vdev * width
}

/// The first byte of a block's copies.
pub(crate) fn start_of(place: Place) -> u64
    ensures { result ≡ start_of place }
{
    SECTOR * u64::from(place.sector)
}

/// Whether the mask has the device's bit.
pub(crate) fn has_bit(mask: u32, dev: u8) -> bool
    requires { dev < 32 }
    ensures { result ≡ has_bit mask dev }
{
    (mask >> dev) % 2 == 1
}

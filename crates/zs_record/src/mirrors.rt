//! The mirrors of a pool.

ghost use Rattle.std.specs.Prelude.{◌≡◌, ◌≤◌, ◌^◌, nat_lt};
ghost use Rattle.zs_ids.specs.declared.limits.TheConstants.{MIRRORS, WIDTH};
ghost use Rattle.zs_record.specs.Head.{devices_of, leaves_each, is_offline};

/// The mirrors of a pool.
#[derive(Clone, Copy, Debug, PartialEq, Eq)]
pub struct Mirrors {
    /// How many there are, 1 to 8.
    pub count: u8,
    /// How many devices each has, 1 to 4.
    pub width: u8,
}

/// How many devices there are.
pub(crate) fn devices_of(mirrors: Mirrors) -> u32
    ensures { result ≡ devices_of mirrors }
{
    u32::from(mirrors.count) * u32::from(mirrors.width)
}

/// Whether the devices of the mask may be offline at once: none is beyond the pool's, and each mirror has another one.
#[tactic(auto, unfolding(crate::specs::Head::is_offline))]
pub(crate) fn is_offline(mirrors: Mirrors, mask: u32) -> bool
    requires few { mirrors.count ≤ MIRRORS }
    requires narrow { mirrors.width ≤ WIDTH }
    ensures { result ≡ is_offline mirrors mask }
{
    is_below(mask, devices_of(mirrors)) && leaves_each(mirrors.width, mirrors.count, mask)
}

/// Whether the mask has no bit at or above `devices`, at most 32.
pub(crate) fn is_below(mask: u32, devices: u32) -> bool
    requires { devices ≤ 32 }
    ensures { result ≡ nat_lt mask (2 ^ devices) }
{
    u64::from(mask) < 1 << devices
}

/// Whether the mask leaves a device to each of so many mirrors of that width.
fn leaves_each(width: u8, count: u8, mask: u32) -> bool
    requires { width ≤ WIDTH }
    ensures { result ≡ leaves_each width count mask }
{
    let devices = 1u32 << width;
    let mut left = mask;
    for _ in 0..count {
        if left % devices == devices - 1 {
            return false;
        }
        left /= devices;
    }
    true
}

//! What stands in a slot of a device.

ghost use Rattle.std.specs.Prelude.{◌≡◌, ◌==◌, ◌&&◌, ◌≤◌, ◌<◌, ◌+◌, ◌*◌, length, slice_range, not};
ghost use Rattle.std.specs.List.{list_all};
ghost use Rattle.zs_label.specs.Layout.{SLOTS};
ghost use Rattle.zs_label.specs.Label.{field, fields_of, has_magic, version_of, has_zeros, has_shape, has_limits, is_valid, is_label, is_open, body_of, label_of, has_other_version};

use crate::Label;
use byteorder::{BigEndian, ByteOrder};
use zs_ids::limits::{
    BLOCKS, DEVICES, EVERY, LEAST_BLOCKS, MIRRORS, SECTOR, TXG_END, WAITING, WIDTH,
};

/// Bytes in a slot's body.
const BODY: usize = 512;

/// The label in a slot of a device, by the device's first bytes.
#[tactic(auto, unfolding(crate::specs::Label::label_of))]
pub fn read_slot(bytes: &[u8], slot: usize) -> Option<Label>
    requires long { SLOTS ≤ length bytes.now }
    requires slot { slot < 2 }
    ensures { result ≡ label_of slot bytes.now }
{
    let body = body(bytes, slot);
    let label = fields(body);
    if is_open(bytes, slot)
        && is_spelled(body)
        && is_valid(&label)
        && label.txg % 2 == slot as u64
    {
        return Some(label);
    }
    None
}

/// Whether the slot is open.
fn is_open(bytes: &[u8], slot: usize) -> bool
    requires long { SLOTS ≤ length bytes.now }
    requires slot { slot < 2 }
    ensures { result ≡ is_open slot bytes.now }
{
    bytes[BODY * (2 * slot + 1)] == 1
}

/// The slot's body.
fn body(bytes: &[u8], slot: usize) -> &[u8]
    requires long { SLOTS ≤ length bytes.now }
    requires slot { slot < 2 }
    ensures bytes { result.now ≡ body_of slot bytes.now }
    ensures long { length result.now ≡ 512 }
{
    let at = BODY * (2 * slot);
    &bytes[at..at + BODY]
}

/// Whether the body has the magic, version 1, and zeros where no field stands.
fn is_spelled(body: &[u8]) -> bool
    requires { length body.now ≡ 512 }
    ensures { result ≡ (has_magic body.now && (version_of body.now == 1) && has_zeros body.now) }
{
    has_magic(body) && number(body, 8) == 1 && is_zero(&body[56..64]) && is_zero(&body[96..])
}

/// Whether it begins with the magic of a label.
fn has_magic(body: &[u8]) -> bool
    requires { length body.now ≡ 512 }
    ensures { result ≡ has_magic body.now }
{
    &body[..8] == b"ZSCANLAB".as_slice()
}

/// Whether each byte is zero.
fn is_zero(bytes: &[u8]) -> bool
    ensures { result ≡ list_all (λ b. b == 0) bytes.now }
{
    bytes.iter().all(|b| *b == 0)
}

/// The number in the four bytes from that one on.
fn number(body: &[u8], at: usize) -> u32
    requires { at + 4 ≤ length body.now }
    ensures { result ≡ field 4 at body.now }
{
    BigEndian::read_u32(&body[at..at + 4])
}

/// The number in the eight bytes from that one on.
fn long_number(body: &[u8], at: usize) -> u64
    requires { at + 8 ≤ length body.now }
    ensures { result ≡ field 8 at body.now }
{
    BigEndian::read_u64(&body[at..at + 8])
}

/// What the body says, read as a label.
#[tactic(auto, unfolding(crate::specs::Label::fields_of))]
fn fields(body: &[u8]) -> Label
    requires { length body.now ≡ 512 }
    ensures { result ≡ fields_of body.now }
{
    let mut sum = [0; 32];
    sum.copy_from_slice(&body[64..96]);
    Label {
        pool: long_number(body, 16),
        number: number(body, 12),
        devices: number(body, 24),
        width: number(body, 28),
        blocks: number(body, 32),
        limit: number(body, 36),
        every: number(body, 40),
        length: number(body, 44),
        txg: long_number(body, 48),
        sum,
    }
}

/// Whether every field is in its range.
#[tactic(auto, unfolding(crate::specs::Label::is_valid))]
fn is_valid(label: &Label) -> bool
    ensures { result ≡ is_valid label.now }
{
    has_shape(label)
        && has_limits(label)
        && (1..=TXG_END).contains(&label.txg)
        && (1..=SECTOR as u32 * (128 + label.blocks / 4)).contains(&label.length)
}

/// Whether the devices make whole mirrors, at most so many, and the device is one of them.
fn has_shape(label: &Label) -> bool
    ensures { result ≡ has_shape label.now }
{
    (1..=DEVICES as u32).contains(&label.devices)
        && (1..=u32::from(WIDTH)).contains(&label.width)
        && label.devices % label.width == 0
        && label.devices / label.width <= MIRRORS as u32
        && label.number < label.devices
}

/// Whether the numbers that a pool is made with are in their ranges.
fn has_limits(label: &Label) -> bool
    ensures { result ≡ has_limits label.now }
{
    (LEAST_BLOCKS..=BLOCKS).contains(&label.blocks)
        && label.blocks % 4 == 0
        && (1..=WAITING).contains(&label.limit)
        && (1..=EVERY).contains(&label.every)
}

/// Whether the slot is open and has a label of another version.
#[tactic(auto, unfolding(crate::specs::Label::has_other_version))]
pub fn has_other_version(bytes: &[u8], slot: usize) -> bool
    requires long { SLOTS ≤ length bytes.now }
    requires slot { slot < 2 }
    ensures { result ≡ has_other_version slot bytes.now }
{
    let body = body(bytes, slot);
    is_open(bytes, slot) && has_magic(body) && number(body, 8) != 1
}

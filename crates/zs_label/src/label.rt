//! A label, and the bytes of its body.

ghost use Rattle.std.specs.Prelude.{◌≡◌, ◌++◌, true, length, replicate, codes};
ghost use Rattle.byteorder.specs.Endian.{big_bytes};
ghost use Rattle.zs_label.specs.Label.{label_bytes, is_valid};
ghost use Rattle.zs_label.specs.Laws.{SaysLabel};

use byteorder::{BigEndian, ByteOrder};

/// What a device says of itself and of the record beside it: whose it is, and which record stands in the record slot.
#[derive(Clone, Copy, Debug, PartialEq, Eq)]
pub struct Label {
    /// The pool's number.
    pub pool: u64,
    /// The device's number in its pool, from 0.
    pub number: u32,
    /// How many devices the pool has: 1 to 16.
    pub devices: u32,
    /// How many devices each mirror has: 1 to 4.
    pub width: u32,
    /// For how many blocks the pool was made: 64 to 65,536, a multiple of 4.
    pub blocks: u32,
    /// How many pieces may wait: 1 to 65,536.
    pub limit: u32,
    /// How many transaction groups there are from one checkpoint of a scan to the next: 1 to 1,000.
    pub every: u32,
    /// The record's length in bytes.
    pub length: u32,
    /// The record's transaction group: 1 to 4,294,967,295.
    pub txg: u64,
    /// The record's SHA-256 sum.
    pub sum: [u8; 32],
}

/// The body of a label.
#[tactic(auto, unfolding(crate::specs::Label::label_bytes), using(crate::proofs::Spelling::reads_written))]
pub fn label_write(label: &Label) -> [u8; 512]
    ensures bytes { result ≡ label_bytes label.now }
    ensures long { length (label_bytes label.now) ≡ 512 }
    ensures read { is_valid label.now ≡ true → SaysLabel label.now (label_bytes label.now) }
{
    let mut body = [0; 512];
    let (head, rest) = body.split_at_mut(24);
    let (numbers, rest) = rest.split_at_mut(24);
    let (txg, rest) = rest.split_at_mut(16);
    head.copy_from_slice(&head_of(label.number, label.pool));
    numbers.copy_from_slice(&numbers_of(label));
    BigEndian::write_u64(txg, label.txg);
    rest[..32].copy_from_slice(&label.sum);
    body
}

/// Magic, version, and which device of which pool it is.
fn head_of(number: u32, pool: u64) -> [u8; 24]
    ensures { result ≡ codes "ZSCANLAB" ++ big_bytes 4 1 ++ big_bytes 4 number ++ big_bytes 8 pool }
{
    let mut head = [0; 24];
    let (magic, numbers) = head.split_at_mut(8);
    magic.copy_from_slice(b"ZSCANLAB");
    BigEndian::write_u32(numbers, 1);
    BigEndian::write_u32(&mut numbers[4..], number);
    BigEndian::write_u64(&mut numbers[8..], pool);
    head
}

/// The numbers that the pool was made with, and the record's length.
fn numbers_of(label: &Label) -> [u8; 24]
    ensures { result ≡ big_bytes 4 label.now.devices ++ big_bytes 4 label.now.width ++ big_bytes 4 label.now.blocks ++ big_bytes 4 label.now.limit
        ++ big_bytes 4 label.now.every ++ big_bytes 4 label.now.length }
{
    let mut numbers = [0; 24];
    BigEndian::write_u32(&mut numbers, label.devices);
    BigEndian::write_u32(&mut numbers[4..], label.width);
    BigEndian::write_u32(&mut numbers[8..], label.blocks);
    BigEndian::write_u32(&mut numbers[12..], label.limit);
    BigEndian::write_u32(&mut numbers[16..], label.every);
    BigEndian::write_u32(&mut numbers[20..], label.length);
    numbers
}

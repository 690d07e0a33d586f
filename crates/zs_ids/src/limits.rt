//! The limits that every crate keeps. Code and contracts cite them by these names.

/// Bytes in a sector.
pub const SECTOR: u64 = 512;

/// The greatest size of a block, in bytes.
pub const BLOCK_BYTES: usize = 131_072;

/// The greatest size of a block, in sectors.
pub const BLOCK_SECTORS: u16 = 256;

/// The greatest number of devices of a pool.
pub const DEVICES: usize = 16;

/// The greatest number of devices of a mirror.
pub const WIDTH: u8 = 4;

/// The greatest number of mirrors of a pool.
pub const MIRRORS: usize = 8;

/// The greatest size of a device, in sectors: 1 GiB.
pub const DEVICE_SECTORS: u32 = 2_097_152;

/// The greatest number of datasets of a pool, with the origin.
pub const DATASETS: usize = 255;

/// The greatest object number.
pub const OBJECTS: u16 = 2047;

/// The greatest transaction group. The open one never passes it.
pub const TXG_END: u64 = 4_294_967_295;

/// The least number of blocks that a pool may be made for.
pub const LEAST_BLOCKS: u32 = 64;

/// The greatest number of blocks that a pool may be made for.
pub const BLOCKS: u32 = 65_536;

/// The greatest number of pieces that a pool may be told to let wait.
pub const WAITING: u32 = 65_536;

/// The greatest number of transaction groups from one checkpoint of a scan to the next.
pub const EVERY: u32 = 1000;

/// The most intervals of a device's log of missed transaction groups.
pub const LOG_SPANS: usize = 64;

/// The most bytes of a script.
pub const SCRIPT_BYTES: usize = 16_777_216;

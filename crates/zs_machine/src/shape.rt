//! The numbers that a pool is made with.

ghost use Rattle.std.specs.Prelude.{◌≡◌, ◌≤◌, ◌+◌, ◌*◌, ◌/◌, true, false};
ghost use Rattle.zs_ids.specs.declared.limits.TheConstants.{BLOCKS};
ghost use Rattle.zs_machine.specs.Shapes.{IsShape, IsLeast, IsInSpace, data_start};

use zs_ids::Seq;

/// The first sector of the space of a pool that may have so many blocks, at most 65,536: before it stand the labels
/// and two records.
pub fn data_start(blocks: u32) -> u32
    requires { blocks ≤ BLOCKS }
    ensures { result ≡ data_start blocks }
{
    8 + 2 * (128 + blocks / 4)
}

/// The numbers that a pool is made with.
#[derive(Debug, Drop)]
pub struct Shape {
    /// The pool's number.
    pub pool: u64,
    /// How many devices it has: one mirror for now.
    pub devices: u8,
    /// How many devices a mirror has, 1 to 4.
    pub width: u8,
    /// How many blocks it may have, 64 to 65,536 and a multiple of 4.
    pub blocks: u32,
    /// How many pieces may wait, 1 to 65,536.
    pub limit: u32,
    /// A checkpoint is due after so many commits, 1 to 1,000.
    pub every: u32,
    /// Each device's size in sectors, from 32 past the data's start to 2,097,152.
    pub sectors: Seq<u32>,
}

impl Shape {
    /// The first sector of the space.
    pub fn data_start(&self) -> u32
        requires { IsShape self.now }
        ensures { result ≡ data_start self.now.blocks }
    {
        data_start(self.blocks)
    }

    /// The first sector past the space: the size of the least device.
    pub fn space_end(&self) -> u32
        requires { IsShape self.now }
        ensures { IsLeast result self.now.sectors }
    {
        let all = self.sectors.as_slice();
        let mut end = all[0];
        for sectors in all {
            if *sectors < end {
                end = *sectors;
            }
        }
        end
    }

    /// Whether the range lies in the space of every device: from the data's start on, and by the end of the least one.
    pub fn is_in_space(&self, sector: u32, count: u32) -> bool
        requires { IsShape self.now }
        ensures inside { result ≡ true → IsInSpace self.now sector count }
        ensures outside { result ≡ false → IsInSpace self.now sector count → ⊥ }
    {
        let start = self.data_start();
        let end = self.space_end();
        if sector < start {
            return false;
        }
        u64::from(sector) + u64::from(count) <= u64::from(end)
    }
}

//! Writing the blocks of a sync: each on every device of its mirror, and then one sync of each of these devices.

ghost use Rattle.std.specs.Prelude.{◌≡◌, ◌≢◌, ◌≤◌, ◌<◌, ◌+◌, ◌++◌, ◌∷◌, [], ℕ, true, length, map, take, slice_index_or, IfOk, OnOk, OnErr};
ghost use Rattle.zs_ids.specs.Graph.{Has};
ghost use Rattle.zs_io.specs.Told.{Told};
ghost use Rattle.zs_lane.specs.declared.mark.Mark.TheVariants.{Synced};
ghost use Rattle.zs_mirror.specs.Mirror.{nowhere, has_bit};
ghost use Rattle.zs_objset.specs.declared.block.StagedBlock.{StagedBlock};
ghost use Rattle.zs_session.specs.Devices.{Calls, journals};
ghost use Rattle.zs_session.specs.Plays.{Gains, GainsTo, write_of};
ghost use Rattle.zs_session.specs.Writing.{IsWritable, AreWritable, GainsAll, PutsAt, SyncsFirst};

use zs_ids::Marks;
use zs_io::BayFault;
use zs_lane::{Children, LaneFault};
use zs_mirror::write_block;
use zs_objset::StagedBlock;

/// No device failed, and no call was made.
pub const NO_CALLS: Marks = Marks {
    failed: 0,
    places: [u64::MAX; 16],
};

/// Writes a block to each device of the first mirror, which has that width. Fails where a device does, or for want of
/// memory.
fn put_block<C: Children>(
    set: &mut C,
    width: u8,
    online: u32,
    block: &StagedBlock,
) -> Result<(), BayFault>
    requires writable { IsWritable (C.count set.old) width block.now (C.device set.old) }
    requires online { (k : ℕ) → k < width → has_bit online k ≡ true }
    ensures put { OnOk result (GainsAll width (write_of block.now ∷ []) (journals (C.device set.old)) (journals (C.device set.new))) }
    ensures calls { Calls (C.count set.old) (C.count set.new) (C.device set.old) (C.device set.new) result }
{
    let place = block.bp.places[0];
    let marks = write_block(
        set,
        width,
        online,
        place,
        block.bytes.as_slice(),
        &block.bp.sum,
    )?;
    if marks.failed != 0 {
        return Err(BayFault::Failed);
    }
    Ok(())
}

/// Writes the blocks to each device of the first mirror, in order.
fn put_each<C: Children>(
    set: &mut C,
    width: u8,
    online: u32,
    blocks: &[StagedBlock],
) -> Result<(), BayFault>
    requires writable { AreWritable (C.count set.old) width blocks.now (C.device set.old) }
    requires online { (k : ℕ) → k < width → has_bit online k ≡ true }
    ensures put { OnOk result (GainsAll width (map write_of blocks.now) (journals (C.device set.old)) (journals (C.device set.new))) }
    ensures calls { Calls (C.count set.old) (C.count set.new) (C.device set.old) (C.device set.new) result }
{
    for block in blocks {
        put_block(set, width, online, block)?;
    }
    Ok(())
}

/// Syncs a device, and gives the place of the call in its journal.
fn sync_device<C: Children>(set: &mut C, dev: u8) -> Result<u64, BayFault>
    requires { dev < C.count set.old }
    ensures synced { IfOk result (λ place. GainsTo (Synced ∷ []) place (journals (C.device set.old) dev) (journals (C.device set.new) dev)) }
    ensures others { OnOk result ((e : ℕ) → e ≢ dev → journals (C.device set.new) e ≡ journals (C.device set.old) e) }
    ensures calls { Calls (C.count set.old) (C.count set.new) (C.device set.old) (C.device set.new) result }
{
    match set.sync(dev) {
        Ok(place) => Ok(place),
        Err(LaneFault::Failed(_)) => Err(BayFault::Failed),
        Err(LaneFault::Memory) => Err(BayFault::Memory),
    }
}

/// Syncs the first devices, in order, and gives the places of the calls.
fn sync_each<C: Children>(set: &mut C, width: u8) -> Result<Marks, BayFault>
    requires few { width ≤ 16 }
    requires there { width ≤ C.count set.old }
    ensures synced { IfOk result (λ marks. SyncsFirst width marks.places (journals (C.device set.old)) (journals (C.device set.new))) }
    ensures none { IfOk result (λ marks. marks.failed ≡ 0) }
    ensures calls { Calls (C.count set.old) (C.count set.new) (C.device set.old) (C.device set.new) result }
{
    let mut marks = NO_CALLS;
    for dev in 0..width {
        marks.places[usize::from(dev)] = sync_device(set, dev)?;
    }
    Ok(marks)
}

/// Writes the blocks of a sync to each device of the first mirror, which has that width, in order, and then syncs each of
/// these devices once; where there are none, it makes no call. The marks have the places of the syncs. Fails where a
/// device does, or for want of memory.
pub fn put_blocks<C: Children>(
    set: &mut C,
    width: u8,
    online: u32,
    blocks: &[StagedBlock],
) -> Result<Marks, BayFault>
    requires writable { AreWritable (C.count set.old) width blocks.now (C.device set.old) }
    requires few { width ≤ 4 }
    requires there { width ≤ C.count set.old }
    requires online { (k : ℕ) → k < width → has_bit online k ≡ true }
    ensures put { IfOk result (λ marks. PutsAt width blocks.now marks.places (journals (C.device set.old)) (journals (C.device set.new))) }
    ensures none { IfOk result (λ marks. marks.failed ≡ 0) }
    ensures calls { Calls (C.count set.old) (C.count set.new) (C.device set.old) (C.device set.new) result }
{
    if blocks.len() == 0 {
        return Ok(NO_CALLS);
    }
    put_each(set, width, online, blocks)?;
    sync_each(set, width)
}

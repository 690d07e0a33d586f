//! The labels on the devices of a set.

ghost use Rattle.std.specs.Prelude.{◌≡◌, ◌⊎◌, ◌≤◌, ◌<◌, ◌++◌, ◌||◌, [], ℕ, Some, None, length, vec_len, if◌then◌else◌, IfOk, OnOk, OnErr};
ghost use Rattle.zs_ids.specs.declared.limits.TheConstants.{DEVICES};
ghost use Rattle.zs_lane.specs.Children.{Stays, OnlyOn};
ghost use Rattle.zs_label.specs.Layout.{SLOTS};
ghost use Rattle.zs_label.specs.Label.{label_of, has_other_version};
ghost use Rattle.zs_label.specs.Best.{with_image, labels_on, is_other};
ghost use Rattle.zs_label.specs.Images.{WasRead, HasBest};
ghost use Rattle.zs_label.specs.Looks.{HasLooked, MayHaveRead, SoFar, Broken};

use crate::choosing::{Found, choose};
use crate::{Label, LabelFault, has_other_version, read_slot};
use std::alloc::{AllocError, Global};
use zs_ids::limits::DEVICES;
use zs_lane::{Children, LaneFault};

/// The bytes of the two slots of a device, and of what stands between and behind them up to the first record.
const SLOT_BYTES: usize = 2048;

/// The label of the greatest transaction group among those on the devices, the first of them where there are more, and a bit
/// for each device that has a label of that group. It reads the slots of each device once. A device whose read fails
/// counts as one without a label.
#[tactic(auto, unfolding(crate::specs::Best::best_of))]
pub fn best_label<C: Children>(
    alloc: Global,
    set: &mut C,
    devices: u8,
) -> Result<(Label, u32), LabelFault>
    requires all { devices ≡ C.count set.old }
    requires some { 1 ≤ devices }
    requires few { devices ≤ DEVICES }
    requires sizes { (e : ℕ) → e < devices → SLOTS ≤ (C.device set.old e).size }
    ensures { HasBest devices result (C.count set.old) (C.count set.new) (C.device set.old) (C.device set.new) }
{
    let mut slots = vec![in alloc; 0; SLOT_BYTES]?;
    let mut found = Vec::new(alloc);
    if read_all(set, devices, &mut slots, &mut found)? {
        return Err(LabelFault::Version);
    }
    choose(&found, devices)
}

/// Reads the slots of each device, and puts the labels that it finds behind each other. Answers whether an open slot has
/// a label of another version.
fn read_all<C: Children>(
    set: &mut C,
    devices: u8,
    slots: &mut [u8],
    found: &mut Vec<Found>,
) -> Result<bool, AllocError>
    requires all { devices ≡ C.count set.old }
    requires few { devices ≤ DEVICES }
    requires sizes { (e : ℕ) → e < devices → SLOTS ≤ (C.device set.old e).size }
    requires long { length slots.old ≡ SLOTS }
    requires empty { found.old.items ≡ [] }
    ensures done { IfOk result (λ other. SoFar devices found.new.items other (C.count set.old) (C.count set.new) (C.device set.old) (C.device set.new)) }
    ensures memory { OnErr result (Broken devices (C.count set.old) (C.count set.new) (C.device set.old) (C.device set.new)) }
{
    let mut other = false;
    for dev in 0..devices {
        other |= look(set, dev, slots, found)?;
    }
    Ok(other)
}

/// Reads the slots of a device, and puts the labels that it finds behind those that are there. Answers whether an open
/// slot has a label of another version.
fn look<C: Children>(
    set: &mut C,
    dev: u8,
    slots: &mut [u8],
    found: &mut Vec<Found>,
) -> Result<bool, AllocError>
    requires dev { dev < C.count set.old }
    requires size { SLOTS ≤ (C.device set.old dev).size }
    requires long { length slots.old ≡ SLOTS }
    ensures done { IfOk result (λ other. HasLooked dev found.old.items found.new.items other (C.device set.old dev) (C.device set.new dev)) }
    ensures memory { OnErr result (MayHaveRead (C.device set.old dev) (C.device set.new dev)) }
    ensures only { OnlyOn dev (C.count set.old) (C.count set.new) (C.device set.old) (C.device set.new) }
{
    if !read_slots(set, dev, slots)? {
        return Ok(false);
    }
    put_found(found, dev, read_slot(slots, 0))?;
    put_found(found, dev, read_slot(slots, 1))?;
    let other = has_other_version(slots, 0) || has_other_version(slots, 1);
    Ok(other)
}

/// Reads the slots of a device; false where the device failed.
fn read_slots<C: Children>(set: &mut C, dev: u8, slots: &mut [u8]) -> Result<bool, AllocError>
    requires dev { dev < C.count set.old }
    requires size { SLOTS ≤ (C.device set.old dev).size }
    requires long { length slots.old ≡ SLOTS }
    ensures long { length slots.new ≡ SLOTS }
    ensures done { IfOk result (λ done. WasRead (if done then Some slots.new else None) (C.device set.old dev) (C.device set.new dev)) }
    ensures memory { OnErr result (Stays (C.device set.old dev) (C.device set.new dev)) }
    ensures only { OnlyOn dev (C.count set.old) (C.count set.new) (C.device set.old) (C.device set.new) }
{
    match set.read(dev, 0, slots) {
        Ok(_) => Ok(true),
        Err(LaneFault::Failed(_)) => Ok(false),
        Err(LaneFault::Memory) => Err(AllocError),
    }
}

/// Puts the label behind those that are there, if there is one.
fn put_found(found: &mut Vec<Found>, image: u8, label: Option<Label>) -> Result<(), AllocError>
    ensures { OnOk result (found.new.items ≡ found.old.items ++ with_image image label) }
{
    if let Some(label) = label {
        found.push(Found { image, label })?;
    }
    Ok(())
}

//! Writing a label and its record, so that a crash at any moment leaves the slot as it was, without a label, or new.

ghost use Rattle.std.specs.Prelude.{◌≡◌, ◌≤◌, ◌<◌, ◌+◌, ◌*◌, [], ◌∷◌, ℕ, List, length, slice_index, OnOk};
ghost use Rattle.zs_io.specs.Told.{Told, Torn};
ghost use Rattle.zs_lane.specs.Children.{OnlyOn, GoesOn};
ghost use Rattle.zs_label.specs.Layout.{SLOTS, slot_of, body_at, gate_at, record_at};
ghost use Rattle.zs_label.specs.Steps.{AreMade};
ghost use Rattle.zs_label.specs.Steps.Step.{Write, Sync};
ghost use Rattle.zs_label.specs.Leaving.{Leaves, IsDurable, AreSame};
ghost use Rattle.zs_label.specs.Slots.{IsLabelFor, IsClosed, IsFilled, HoldsLabel, IsUnfilled, IsElsewhere, IsOneOfThree, close_steps, fill_steps, open_steps, put_steps, record_of};

use crate::{Label, label_write};
use zs_ids::limits::SECTOR;
use zs_lane::{Children, LaneFault};

/// The first byte of the slot's body.
fn body_at(slot: u64) -> u64
    requires { slot < 2 }
    ensures { result ≡ body_at slot }
{
    SECTOR * (2 * slot)
}

/// The byte of the slot's gate.
fn gate_at(slot: u64) -> u64
    requires { slot < 2 }
    ensures { result ≡ gate_at slot }
{
    SECTOR * (2 * slot + 1)
}

/// The first byte of the slot's record, in a pool made for so many blocks.
fn record_at(blocks: u32, slot: u64) -> u64
    requires { slot < 2 }
    ensures { result ≡ record_at blocks slot }
{
    SECTOR * (8 + slot * (128 + u64::from(blocks / 4)))
}

/// Writes the bytes to a device from there on, and syncs it.
fn write_synced<C: Children>(set: &mut C, dev: u8, at: u64, bytes: &[u8]) -> Result<u64, LaneFault>
    requires dev { dev < C.count set.old }
    requires range { at + length bytes.now ≤ (C.device set.old dev).size }
    ensures made { AreMade (Write at bytes.now ∷ Sync ∷ []) result (C.device set.old dev) (C.device set.new dev) }
    ensures leaves { Leaves (Torn at bytes.now) (C.device set.old dev) (C.device set.new dev) }
    ensures durable { OnOk result (IsDurable (C.device set.new dev)) }
    ensures goes_on { GoesOn (C.device set.old dev) (C.device set.new dev) }
    ensures only { OnlyOn dev (C.count set.old) (C.count set.new) (C.device set.old) (C.device set.new) }
{
    set.write(dev, at, bytes)?;
    let place = set.sync(dev)?;
    Ok(place)
}

/// Closes the slot of a transaction group on a device of at least four sectors: writes 0 to its gate and syncs the device.
/// Gives the place of the last call's mark. `Failed` names the mark of the call that failed. A crash at any moment leaves
/// the gate as it was, or 0; after it, 0.
pub fn close_slot<C: Children>(set: &mut C, dev: u8, t: u64) -> Result<u64, LaneFault>
    requires dev { dev < C.count set.old }
    requires size { SLOTS ≤ (C.device set.old dev).size }
    ensures made { AreMade (close_steps (slot_of t)) result (C.device set.old dev) (C.device set.new dev) }
    ensures leaves { Leaves (Torn (gate_at (slot_of t)) (0 ∷ [])) (C.device set.old dev) (C.device set.new dev) }
    ensures durable { OnOk result (IsDurable (C.device set.new dev)) }
    ensures closed { OnOk result (Told (C.device set.old dev).told (λ b. (c : List ℕ) → (C.device set.new dev).may_leave c → IsClosed (slot_of t) c)) }
    ensures goes_on { GoesOn (C.device set.old dev) (C.device set.new dev) }
    ensures only { OnlyOn dev (C.count set.old) (C.count set.new) (C.device set.old) (C.device set.new) }
{
    let at = gate_at(t % 2);
    let place = write_synced(set, dev, at, &[0])?;
    Ok(place)
}

/// Fills the slot of a label's transaction group: writes the record and the label's body, and syncs the device. The label
/// is this device's and the record's, and the device has room for both. Gives the place of the last call's mark. A crash
/// at any moment leaves all but the body and the record as it was, so a slot that was closed is closed still.
pub fn fill_slot<C: Children>(
    set: &mut C,
    dev: u8,
    label: &Label,
    rec: &[u8],
) -> Result<u64, LaneFault>
    requires dev { dev < C.count set.old }
    requires label { IsLabelFor dev rec.now (C.device set.old dev) label.now }
    ensures made { AreMade (fill_steps label.now rec.now) result (C.device set.old dev) (C.device set.new dev) }
    ensures leaves { Leaves (AreSame (IsUnfilled label.now rec.now)) (C.device set.old dev) (C.device set.new dev) }
    ensures closed { ((c : List ℕ) → (C.device set.old dev).may_leave c → IsClosed (slot_of label.now.txg) c)
        → Leaves (λ d c. IsClosed (slot_of label.now.txg) c) (C.device set.old dev) (C.device set.new dev) }
    ensures durable { OnOk result (IsDurable (C.device set.new dev)) }
    ensures filled { OnOk result (Told (C.device set.old dev).told (λ b. (c : List ℕ) → (C.device set.new dev).may_leave c → IsFilled label.now rec.now c)) }
    ensures goes_on { GoesOn (C.device set.old dev) (C.device set.new dev) }
    ensures only { OnlyOn dev (C.count set.old) (C.count set.new) (C.device set.old) (C.device set.new) }
{
    let slot = label.txg % 2;
    let body = label_write(label);
    set.write(dev, record_at(label.blocks, slot), rec)?;
    let place = write_synced(set, dev, body_at(slot), &body)?;
    Ok(place)
}

/// Opens the slot of a transaction group on a device of at least four sectors: writes 1 to its gate and syncs the device.
/// Gives the place of the last call's mark. A crash at any moment leaves the gate as it was, or 1; after it, a slot that
/// was filled holds its label.
pub fn open_slot<C: Children>(set: &mut C, dev: u8, t: u64) -> Result<u64, LaneFault>
    requires dev { dev < C.count set.old }
    requires size { SLOTS ≤ (C.device set.old dev).size }
    ensures made { AreMade (open_steps (slot_of t)) result (C.device set.old dev) (C.device set.new dev) }
    ensures leaves { Leaves (Torn (gate_at (slot_of t)) (1 ∷ [])) (C.device set.old dev) (C.device set.new dev) }
    ensures durable { OnOk result (IsDurable (C.device set.new dev)) }
    ensures opened { (label : Label) (rec : List ℕ) → slot_of label.txg ≡ slot_of t
        → ((c : List ℕ) → (C.device set.old dev).may_leave c → IsFilled label rec c)
        → OnOk result (Told (C.device set.old dev).told (λ b. (c : List ℕ) → (C.device set.new dev).may_leave c → HoldsLabel label rec c)) }
    ensures goes_on { GoesOn (C.device set.old dev) (C.device set.new dev) }
    ensures only { OnlyOn dev (C.count set.old) (C.count set.new) (C.device set.old) (C.device set.new) }
{
    let at = gate_at(t % 2);
    let place = write_synced(set, dev, at, &[1])?;
    Ok(place)
}

/// Puts a label and its record into their slot, in seven calls: closes it, fills it and opens it. The label is this
/// device's and the record's, and the device has room for both. Gives the place of the last call's mark. It stops at the
/// first call that fails, which `Failed` names. A crash at any moment leaves the slot as it was, without a label, or with
/// this label and its record; the other slot, its record and the space stay.
pub fn put_label<C: Children>(
    set: &mut C,
    dev: u8,
    label: &Label,
    rec: &[u8],
) -> Result<u64, LaneFault>
    requires dev { dev < C.count set.old }
    requires label { IsLabelFor dev rec.now (C.device set.old dev) label.now }
    ensures made { AreMade (put_steps label.now rec.now) result (C.device set.old dev) (C.device set.new dev) }
    ensures leaves { Leaves (AreSame (IsElsewhere label.now rec.now)) (C.device set.old dev) (C.device set.new dev) }
    ensures slot { Told (C.device set.old dev).told (λ b. Leaves (IsOneOfThree label.now rec.now) (C.device set.old dev) (C.device set.new dev)) }
    ensures durable { OnOk result (IsDurable (C.device set.new dev)) }
    ensures held { OnOk result (Told (C.device set.old dev).told (λ b. (c : List ℕ) → (C.device set.new dev).may_leave c → HoldsLabel label.now rec.now c)) }
    ensures goes_on { GoesOn (C.device set.old dev) (C.device set.new dev) }
    ensures only { OnlyOn dev (C.count set.old) (C.count set.new) (C.device set.old) (C.device set.new) }
{
    close_slot(set, dev, label.txg)?;
    fill_slot(set, dev, label, rec)?;
    let place = open_slot(set, dev, label.txg)?;
    Ok(place)
}

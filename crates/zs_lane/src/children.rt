// A set of devices with journals.
ghost use Rattle.std.specs.Prelude.{◌≡◌, ◌≤◌, ◌<◌, ◌+◌, List, ℕ, length, slice_range, IfOk, OnOk, IsErrOf};
ghost use Rattle.std.specs.List.{slice_get};
ghost use Rattle.zs_io.specs.Told.{Told, AreBytes};
ghost use Rattle.zs_io.specs.Crash.{Only};
ghost use Rattle.zs_sum.specs.Sum.{sha256};
ghost use Rattle.zs_lane.specs.declared.mark.Mark.{Mark};
ghost use Rattle.zs_lane.specs.Children.{DeviceView, OnlyOn, Called, Marked, Unwritten, Written, of_lane, device_at, at_each};

use crate::{Lane, LaneFault, Mark, Summed};
use zs_io::Device;
use zs_sum::sum;

/// The devices of a pool, numbered from 0, each with a journal of its calls. A call on one device leaves the number
/// of devices, every size, and all of the other devices as they were. A set of locked lanes tells neither
/// journals nor content, and counts the failures that it passed on.
pub trait Children {
    /// The number of devices.
    ghost count: { Self → ℕ };

    /// What the set tells of each device.
    ghost device: { Self → ℕ → DeviceView };

    /// Reads the bytes of a device from `at` on into the whole buffer, and gives their sum beside the place of the mark.
    fn read_summed(&mut self, dev: u8, at: u64, buf: &mut [u8]) -> Result<Summed, LaneFault>
        requires dev { dev < count self.old }
        requires range { at + length buf.old ≤ (device self.old dev).size }
        ensures sum { IfOk result (λ s. s.sum ≡ sha256 buf.new) }
        ensures place { IfOk result (λ s. Told (device self.old dev).journal (λ j. s.place ≡ length j)) }
        ensures mark { OnOk result (Marked (Mark.Read at (length buf.old) (sha256 buf.new)) (device self.old dev) (device self.new dev)) }
        ensures bytes { OnOk result (Told (device self.old dev).told (λ b. buf.new ≡ slice_range b at (at + length buf.old))) }
        ensures unwritten { Unwritten (device self.old dev) (device self.new dev) }
        ensures call { Called (device self.old dev) (device self.new dev) result }
        ensures memory { IsErrOf result LaneFault.Memory → self.new ≡ self.old }
        ensures only { OnlyOn dev (count self.old) (count self.new) (device self.old) (device self.new) };

    /// Writes the bytes to a device from `at` on, whose sum is handed in, and gives the place of the mark.
    fn write_summed(
        &mut self,
        dev: u8,
        at: u64,
        bytes: &[u8],
        sum: &[u8; 32],
    ) -> Result<u64, LaneFault>
        requires dev { dev < count self.old }
        requires range { at + length bytes.now ≤ (device self.old dev).size }
        requires sum { sum.now ≡ sha256 bytes.now }
        ensures place { IfOk result (λ p. Told (device self.old dev).journal (λ j. p ≡ length j)) }
        ensures mark { OnOk result (Marked (Mark.Wrote at (length bytes.now) (sha256 bytes.now)) (device self.old dev) (device self.new dev)) }
        ensures written { Written at bytes.now (device self.old dev) (device self.new dev) result }
        ensures call { Called (device self.old dev) (device self.new dev) result }
        ensures memory { IsErrOf result LaneFault.Memory → self.new ≡ self.old }
        ensures only { OnlyOn dev (count self.old) (count self.new) (device self.old) (device self.new) };

    /// Syncs a device, and gives the place of the mark. After it, a crash leaves what a read gives.
    fn sync(&mut self, dev: u8) -> Result<u64, LaneFault>
        requires { dev < count self.old }
        ensures place { IfOk result (λ p. Told (device self.old dev).journal (λ j. p ≡ length j)) }
        ensures mark { OnOk result (Marked Mark.Synced (device self.old dev) (device self.new dev)) }
        ensures durable { OnOk result (Told (device self.old dev).told (λ b. Only b (device self.new dev).may_leave)) }
        ensures unwritten { Unwritten (device self.old dev) (device self.new dev) }
        ensures call { Called (device self.old dev) (device self.new dev) result }
        ensures memory { IsErrOf result LaneFault.Memory → self.new ≡ self.old }
        ensures only { OnlyOn dev (count self.old) (count self.new) (device self.old) (device self.new) };

    /// Reads the bytes of a device from `at` on into the whole buffer, and gives the place of the mark.
    final fn read(&mut self, dev: u8, at: u64, buf: &mut [u8]) -> Result<u64, LaneFault>
        requires dev { dev < count self.old }
        requires range { at + length buf.old ≤ (device self.old dev).size }
        ensures place { IfOk result (λ p. Told (device self.old dev).journal (λ j. p ≡ length j)) }
        ensures mark { OnOk result (Marked (Mark.Read at (length buf.old) (sha256 buf.new)) (device self.old dev) (device self.new dev)) }
        ensures bytes { OnOk result (Told (device self.old dev).told (λ b. buf.new ≡ slice_range b at (at + length buf.old))) }
        ensures unwritten { Unwritten (device self.old dev) (device self.new dev) }
        ensures call { Called (device self.old dev) (device self.new dev) result }
        ensures memory { IsErrOf result LaneFault.Memory → self.new ≡ self.old }
        ensures only { OnlyOn dev (count self.old) (count self.new) (device self.old) (device self.new) }
    {
        let summed = self.read_summed(dev, at, buf)?;
        Ok(summed.place)
    }

    /// Writes the bytes to a device from `at` on, and gives the place of the mark.
    final fn write(&mut self, dev: u8, at: u64, bytes: &[u8]) -> Result<u64, LaneFault>
        requires dev { dev < count self.old }
        requires range { at + length bytes.now ≤ (device self.old dev).size }
        ensures place { IfOk result (λ p. Told (device self.old dev).journal (λ j. p ≡ length j)) }
        ensures mark { OnOk result (Marked (Mark.Wrote at (length bytes.now) (sha256 bytes.now)) (device self.old dev) (device self.new dev)) }
        ensures written { Written at bytes.now (device self.old dev) (device self.new dev) result }
        ensures call { Called (device self.old dev) (device self.new dev) result }
        ensures memory { IsErrOf result LaneFault.Memory → self.new ≡ self.old }
        ensures only { OnlyOn dev (count self.old) (count self.new) (device self.old) (device self.new) }
    {
        let sum = sum(bytes);
        let place = self.write_summed(dev, at, bytes, &sum)?;
        Ok(place)
    }

    /// The bytes of a device as they read are as many as its size, and are one of the images that a crash may leave.
    ghost told_is: { (set : Self) (e : ℕ) → Told (device set e).told (λ b. (length b ≡ (device set e).size) × (device set e).may_leave b) };

    /// Each image that a crash may leave on a device has the device's size.
    ghost images_fit: { (set : Self) (e : ℕ) (c : List ℕ) → (device set e).may_leave c → length c ≡ (device set e).size };

    /// Each image that a crash may leave on a device is of bytes, and so is what a read gives, which is one of them.
    ghost images_are_bytes: { (set : Self) (e : ℕ) (c : List ℕ) → (device set e).may_leave c → AreBytes c };

    /// So is each image that a crash might have left since a moment.
    ghost past_is_bytes: { (set : Self) (e t : ℕ) (c : List ℕ) → (device set e).left_since t c → AreBytes c };

    /// This moment is one of those since an earlier one.
    ghost counts_now: { (set : Self) (e t : ℕ) (c : List ℕ) → t ≤ (device set e).moment → (device set e).may_leave c → (device set e).left_since t c };

    /// Since this moment there is no other.
    ghost only_now: { (set : Self) (e : ℕ) (c : List ℕ) → (device set e).left_since (device set e).moment c → (device set e).may_leave c };
}

impl<D: Device> Children for Vec<Lane<D>> {
    ghost count = { λ v. length v.items };

    ghost device = { λ v e. device_at (of_lane D.Device) (slice_get v.items e) };

    fn read_summed(&mut self, dev: u8, at: u64, buf: &mut [u8]) -> Result<Summed, LaneFault> {
        let lane = &mut self[dev as usize];
        lane.read_summed(at, buf)
    }

    fn write_summed(
        &mut self,
        dev: u8,
        at: u64,
        bytes: &[u8],
        sum: &[u8; 32],
    ) -> Result<u64, LaneFault> {
        let lane = &mut self[dev as usize];
        lane.write_summed(at, bytes, sum)
    }

    fn sync(&mut self, dev: u8) -> Result<u64, LaneFault> {
        let lane = &mut self[dev as usize];
        lane.sync()
    }

    ghost told_is = { λ v e. at_each (λ d. Told d.told (λ b. (length b ≡ d.size) × d.may_leave b))
        (λ b is. absurd cc) (λ l. D.told_is l.device) (slice_get v.items e) };

    ghost images_fit = { λ v e. at_each (λ d. (c : List ℕ) → d.may_leave c → length c ≡ d.size)
        (λ c left. absurd left) (λ l. D.images_fit l.device) (slice_get v.items e) };

    ghost images_are_bytes = { λ v e. at_each (λ d. (c : List ℕ) → d.may_leave c → AreBytes c)
        (λ c left. absurd left) (λ l. D.images_are_bytes l.device) (slice_get v.items e) };

    ghost past_is_bytes = { λ v e. at_each (λ d. (t : ℕ) (c : List ℕ) → d.left_since t c → AreBytes c)
        (λ t c left. absurd left) (λ l. D.past_is_bytes l.device) (slice_get v.items e) };

    ghost counts_now = { λ v e. at_each (λ d. (t : ℕ) (c : List ℕ) → t ≤ d.moment → d.may_leave c → d.left_since t c)
        (λ t c le left. absurd left) (λ l. D.counts_now l.device) (slice_get v.items e) };

    ghost only_now = { λ v e. at_each (λ d. (c : List ℕ) → d.left_since d.moment c → d.may_leave c)
        (λ c left. absurd left) (λ l. D.only_now l.device) (slice_get v.items e) };
}

// Devices, and the bay from which they are fetched.
ghost use Rattle.std.specs.Prelude.{◌≡◌, ◌≤◌, ◌+◌, ◌∷◌, ℕ, List, Option, length, option_map, slice_range, IfOk, OnOk, OnErr, IsErrOf};
ghost use Rattle.zs_io.specs.Told.{Told, BothTold, AreBytes, Torn, over};
ghost use Rattle.zs_io.specs.Asked.{HasAsked};
ghost use Rattle.zs_io.specs.Crash.{Follows, NoMore, Only, Elapses};
ghost use Rattle.zs_io.specs.Faults.{HasCause};

use crate::BayFault;

/// A disk of a fixed size in bytes. Between two syncs a crash may leave any bytes in the ranges that were written,
/// failed writes included, but a byte that was written only by writes of one byte keeps a value that it could
/// have, or has one of those that were written.
pub trait Device {
    /// The size in bytes.
    ghost size: { Self → ℕ };

    /// The bytes as a read gives them, where the device tells them.
    ghost told: { Self → Option (List ℕ) };

    /// The images that a crash may leave at this moment.
    ghost may_leave: { Self → List ℕ → Type 0 };

    /// The moment, as a number that does not fall.
    ghost moment: { Self → ℕ };

    /// The images that a crash might have left at some moment from that one on, during a call or between two.
    ghost left_since: { Self → ℕ → List ℕ → Type 0 };

    /// How often a call has failed.
    ghost faults: { Self → ℕ };

    /// The size in bytes.
    fn bytes(&self) -> u64
        ensures { result ≡ size self.now };

    /// Reads the bytes from `at` on into the whole buffer.
    fn read_at(&mut self, at: u64, buf: &mut [u8]) -> Result<(), BayFault>
        requires { at + length buf.old ≤ size self.old }
        ensures size { size self.new ≡ size self.old }
        ensures bytes { OnOk result (Told (told self.old) (λ b. buf.new ≡ slice_range b at (at + length buf.old))) }
        ensures told { told self.new ≡ told self.old }
        ensures crash { NoMore (may_leave self.old) (may_leave self.new) }
        ensures time { Elapses (moment self.old) (moment self.new) (left_since self.old) (left_since self.new) (may_leave self.new) }
        ensures cause { HasCause (faults self.old) (faults self.new) result }
        ensures memory { IsErrOf result BayFault.Memory → self.new ≡ self.old };

    /// Writes the bytes from `at` on. Where it fails, its own range is left open and all else stays.
    fn write_at(&mut self, at: u64, bytes: &[u8]) -> Result<(), BayFault>
        requires { at + length bytes.now ≤ size self.old }
        ensures size { size self.new ≡ size self.old }
        ensures written { OnOk result (told self.new ≡ option_map (over at bytes.now) (told self.old)) }
        ensures torn { OnErr result (BothTold (Torn at bytes.now) (told self.old) (told self.new)) }
        ensures crash { Follows (Torn at bytes.now) (may_leave self.old) (may_leave self.new) }
        ensures time { Elapses (moment self.old) (moment self.new) (left_since self.old) (left_since self.new) (may_leave self.new) }
        ensures cause { HasCause (faults self.old) (faults self.new) result }
        ensures memory { IsErrOf result BayFault.Memory → self.new ≡ self.old };

    /// After it, a crash leaves what a read gives.
    fn sync(&mut self) -> Result<(), BayFault>
        ensures size { size self.new ≡ size self.old }
        ensures durable { OnOk result (Told (told self.old) (λ b. Only b (may_leave self.new))) }
        ensures told { told self.new ≡ told self.old }
        ensures crash { NoMore (may_leave self.old) (may_leave self.new) }
        ensures time { Elapses (moment self.old) (moment self.new) (left_since self.old) (left_since self.new) (may_leave self.new) }
        ensures cause { HasCause (faults self.old) (faults self.new) result }
        ensures memory { IsErrOf result BayFault.Memory → self.new ≡ self.old };

    /// The bytes as they read are as many as the size, and are one of the images that a crash may leave.
    ghost told_is: { (device : Self) → Told (told device) (λ b. (length b ≡ size device) × may_leave device b) };

    /// Each image that a crash may leave has the device's size.
    ghost images_fit: { (device : Self) (c : List ℕ) → may_leave device c → length c ≡ size device };

    /// Each image that a crash may leave is of bytes, and so is what a read gives, which is one of them.
    ghost images_are_bytes: { (device : Self) (c : List ℕ) → may_leave device c → AreBytes c };

    /// So is each image that a crash might have left since a moment.
    ghost past_is_bytes: { (device : Self) (t : ℕ) (c : List ℕ) → left_since device t c → AreBytes c };

    /// This moment is one of those since an earlier one.
    ghost counts_now: { (device : Self) (t : ℕ) (c : List ℕ) → t ≤ moment device → may_leave device c → left_since device t c };

    /// Since this moment there is no other.
    ghost only_now: { (device : Self) (c : List ℕ) → left_since device (moment device) c → may_leave device c };
}

/// Where devices are fetched from by their names, one after another.
pub trait Bay {
    /// The devices that the bay gives.
    type Dev: Device + Drop;

    /// The devices that are left, where the bay tells them.
    ghost left: { Self → Option (List Self.Dev) };

    /// The names that the bay was asked for, in order and as bytes, where the bay tells them.
    ghost asked: { Self → Option (List (List ℕ)) };

    /// How often a fetch has failed.
    ghost faults: { Self → ℕ };

    /// Takes out the first of the devices that are left and gives it as it stands there, with no fault counted yet.
    /// A fetch that fails leaves them. Whether it fails or not, the bay was asked for this name, but where memory was
    /// wanting.
    fn fetch(&mut self, name: &str) -> Result<Self::Dev, BayFault>
        ensures first { IfOk result (λ d. left self.old ≡ option_map (λ rest. d ∷ rest) (left self.new)) }
        ensures fresh { IfOk result (λ d. Self.Dev.faults d ≡ 0) }
        ensures err { OnErr result (left self.new ≡ left self.old) }
        ensures asked { HasAsked name.now (asked self.old) (asked self.new) result }
        ensures cause { HasCause (faults self.old) (faults self.new) result };
}

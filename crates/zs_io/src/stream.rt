// Where a program's input comes from and its output goes.
ghost use Rattle.std.specs.Prelude.{◌≡◌, ◌≤◌, ◌<◌, ◌++◌, [], List, ℕ, Option, length, take, option_map, IfOk, OnOk, OnErr};
ghost use Rattle.zs_io.specs.Told.{Told};
ghost use Rattle.zs_io.specs.Faults.{HasCount};

use crate::Failed;

/// Something that is read from its front to its end.
pub trait Source {
    /// What is left to be read, where the source tells it.
    ghost left: { Self → Option (List ℕ) };

    /// How often a read has failed.
    ghost faults: { Self → ℕ };

    /// Reads the next bytes into the front of the buffer and says how many: 0 is the end, where the buffer has room.
    /// A failed read takes nothing.
    fn read(&mut self, buf: &mut [u8]) -> Result<usize, Failed>
        ensures bound { IfOk result (λ n. n ≤ length buf.old) }
        ensures next { IfOk result (λ n. left self.old ≡ option_map (λ rest. take n buf.new ++ rest) (left self.new)) }
        ensures end { IfOk result (λ n. n ≡ 0 → 0 < length buf.old → Told (left self.old) (λ rest. rest ≡ [])) }
        ensures err { OnErr result (left self.new ≡ left self.old) }
        ensures count { HasCount (faults self.old) (faults self.new) result };
}

/// Something to whose end bytes are put.
pub trait Sink {
    /// The bytes that were put, where the sink tells them.
    ghost told: { Self → Option (List ℕ) };

    /// How often a put has failed.
    ghost faults: { Self → ℕ };

    /// Appends all of the bytes. A put that fails leaves a prefix of them appended.
    fn put(&mut self, bytes: &[u8]) -> Result<(), Failed>
        ensures ok { OnOk result (told self.new ≡ option_map (λ b. b ++ bytes.now) (told self.old)) }
        ensures err { OnErr result ((k : ℕ) × (told self.new ≡ option_map (λ b. b ++ take k bytes.now) (told self.old))) }
        ensures count { HasCount (faults self.old) (faults self.new) result };
}

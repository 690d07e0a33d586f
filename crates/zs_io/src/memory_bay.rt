// A bay of devices in memory.
ghost use Rattle.std.specs.Prelude.{◌≡◌, ◌+◌, ◌∷◌, [], List, ℕ, Option, Some, All, length, map, option_map, string_bytes, IfOk, OnErr, is_err, ◌==◌, ◌≢◌};
ghost use Rattle.zs_io.specs.Asked.{HasAsked};
ghost use Rattle.zs_io.specs.Faults.{HasCause};

use crate::{Bay, BayFault, MemDevice};

/// Devices in memory, which are given in order whatever name is asked for. A fetch fails where none is left. The bay
/// keeps the names that it was asked for.
#[derive(Drop)]
pub struct MemBay {
    devices: Vec<MemDevice>,
    asked: Vec<String>,
    faults: u64,
    ghost fresh: { All (λ d. d.faults ≡ 0) devices.items },
}

impl MemBay {
    /// A bay of these devices, none of which has failed yet.
    pub fn new(devices: Vec<MemDevice>) -> Self
        requires { All (λ d. ⟦<MemDevice as crate::Device>⟧.faults d ≡ 0) devices.items }
        ensures left { ⟦<MemBay as Bay>⟧.left result ≡ Some devices.items }
        ensures asked { ⟦<MemBay as Bay>⟧.asked result ≡ Some [] }
        ensures faults { ⟦<MemBay as Bay>⟧.faults result ≡ 0 }
    {
        let asked = Vec::new(*devices.allocator());
        MemBay {
            devices,
            asked,
            faults: 0,
        }
    }

    /// The names that the bay was asked for, in order.
    pub fn asked(&self) -> &[String]
        ensures { ⟦<MemBay as Bay>⟧.asked self.now ≡ Some (map string_bytes result.now) }
    {
        &self.asked
    }
}

impl Bay for MemBay {
    type Dev = MemDevice;

    ghost left = { λ b. Some b.devices.items };

    ghost asked = { λ b. Some (map string_bytes b.asked.items) };

    ghost faults = { λ b. b.faults };

    fn fetch(&mut self, name: &str) -> Result<MemDevice, BayFault>
        ensures first { IfOk result (λ d. Some self.old.devices.items ≡ option_map (λ rest. d ∷ rest) (Some self.new.devices.items)) }
        ensures fresh { IfOk result (λ d. ⟦<MemDevice as crate::Device>⟧.faults d ≡ 0) }
        ensures err { OnErr result (Some self.new.devices.items ≡ Some self.old.devices.items) }
        ensures asked { HasAsked name.now (Some (map string_bytes self.old.asked.items)) (Some (map string_bytes self.new.asked.items)) result }
        ensures cause { HasCause self.old.faults self.new.faults result }

        // Where memory is not wanting, it fails just where none is left.
        ensures none { result ≢ Err BayFault.Memory → is_err result ≡ (length self.old.devices.items == 0) }
    {
        let name = String::from_str(*self.asked.allocator(), name)?;
        self.asked.push(name)?;
        if self.devices.is_empty() {
            self.faults = self.faults.saturating_add(1);
            return Err(BayFault::Failed);
        }
        Ok(self.devices.remove(0))
    }
}

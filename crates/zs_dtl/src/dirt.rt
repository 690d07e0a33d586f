//! The logs of all devices.

ghost use Rattle.std.specs.Prelude.{◌≡◌, ◌<◌, ◌≤◌, ◌+◌, ◌==◌, ◌&&◌, ◌||◌, not, ℕ, [], length, replicate, slice_set, OnOk, OnErr, IfOk};
ghost use Rattle.std.specs.Option.{option_copied};
ghost use Rattle.zs_ranges.specs.Set.{has_txg, IsCanonical};
ghost use Rattle.zs_dtl.specs.Logs.{log_of, IsJoinedLog, is_excised, IsMissed, AreBounds, AreShort};

use crate::steps::{cut_excised, online_bounds, united};
use std::alloc::{AllocError, Global};
use std::marker::Model;
use zs_ids::limits::LOG_SPANS;
use zs_ranges::TxgSet;

/// Per device the transaction groups that it has missed. Contracts see a list with a log per device, each in the
/// list form of a set and of at most 64 intervals.
#[derive(Debug, Drop)]
pub struct Dirt {
    logs: Vec<TxgSet>,
}

impl Model for Dirt {
    ghost use Rattle.std.specs.Prelude.{List};
    ghost use Rattle.zs_dtl.specs.Logs.{Logs, AreShort};

    ghost Value = { Logs };

    ghost view = { λ d. d.logs.items };

    ghost invariant = { λ d. AreShort d.logs.items };
}

impl Dirt {
    /// Empty logs for that many devices.
    pub fn new(alloc: Global, devices: u8) -> Result<Self, AllocError>
        ensures { IfOk result (λ d. d ≡ replicate devices []) }
    {
        let mut logs = Vec::new(alloc);
        for _ in 0..devices {
            logs.push(TxgSet::new(alloc))?;
        }
        Ok(Dirt { logs })
    }

    /// How many devices there are.
    pub fn devices(&self) -> usize
        ensures { result ≡ length self.now }
    {
        self.logs.len()
    }

    /// The form that all logs have: at most 64 intervals.
    pub fn facts(&self)
        ensures { AreShort self.now }
    {
        let _logs = &self.logs;
    }

    /// Adds a group that the device has missed. After want of memory the logs are as they were.
    pub fn dirty(&mut self, dev: u8, t: u64) -> Result<(), AllocError>
        requires { dev < length self.old }
        ensures log { OnOk result (IsJoinedLog (λ u. has_txg (log_of self.old dev) u || u == t) (log_of self.new dev)) }
        ensures others { self.new ≡ slice_set self.old dev (log_of self.new dev) }
        ensures err { OnErr result (self.new ≡ self.old) }
    {
        let log = &mut self.logs[usize::from(dev)];
        log.add(t, t)?;
        log.join_lowest(LOG_SPANS);
        Ok(())
    }

    /// The least and the greatest group that an online device has missed; `None` where there is none. `online`
    /// has a bit per device.
    pub fn bounds(&self, online: u32) -> Option<(u64, u64)>
        ensures { AreBounds (IsMissed self.now online (length self.now)) result }
    {
        let mut bounds = None;
        for dev in 0..self.logs.len() {
            let log = &self.logs[dev];
            bounds = united(bounds, online_bounds(online, dev, log));
        }
        bounds
    }

    /// What a finished scan from `min` to `max` does to the device's log: it loses the groups strictly between
    /// them (of these only those of `only`, where it is given), gains those of `failed`, and is joined. After want
    /// of memory the logs are as they were.
    pub fn excise(
        &mut self,
        dev: u8,
        min: u64,
        max: u64,
        only: Option<&TxgSet>,
        failed: &TxgSet,
    ) -> Result<(), AllocError>
        requires { dev < length self.old }
        ensures log { OnOk result
            (IsJoinedLog
            (λ t.
            (has_txg (log_of self.old dev) t && not
            (is_excised min max (option_copied only.entry) t)) || has_txg failed.now t)
            (log_of self.new dev)) }
        ensures others { self.new ≡ slice_set self.old dev (log_of self.new dev) }
        ensures err { OnErr result (self.new ≡ self.old) }
    {
        let dev = usize::from(dev);
        let mut log = self.logs[dev].copy()?;
        cut_excised(&mut log, min, max, only)?;
        log.join(failed)?;
        log.join_lowest(LOG_SPANS);
        self.logs[dev] = log;
        Ok(())
    }

    /// The device's log.
    pub fn log(&self, dev: u8) -> &TxgSet
        requires { dev < length self.now }
        ensures { result.now ≡ log_of self.now dev }
    {
        &self.logs[usize::from(dev)]
    }

    /// Puts a log of at most 64 intervals in place of the device's. Takes no memory.
    pub fn set(&mut self, dev: u8, log: TxgSet)
        requires dev { dev < length self.old }
        requires short { length log ≤ LOG_SPANS }
        ensures { self.new ≡ slice_set self.old dev log }
    {
        self.logs[usize::from(dev)] = log;
    }
}

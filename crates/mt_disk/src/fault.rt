// A device that fails from a call on, over another device. Tests alone use it.
ghost use Rattle.std.specs.Prelude.{◌≡◌, ℕ, List, ◌+◌, ◌-◌, ◌<◌, ◌≤◌, length, IsTrue, ◌↔◌, OnOk, if◌then◌else◌};
ghost use Rattle.mt_disk.specs.Disk.{Has, LeavesTheSame, Only, Follows, Torn, Wrote, Elapses, HasCause};

use crate::{Device, DeviceFault};
use mt_base::History;

/// A device that fails at its `n`-th call and at every later one; before that it does what the one
/// below it does. Reads, writes and syncs are counted, from 1. A call that fails does not reach the
/// device below, and counts as a failure.
#[derive(Drop)]
pub struct FaultDevice<D: Device> {
    device: D,
    left: u64,
    failures: History<DeviceFault>,
}

impl<D: Device> FaultDevice<D> {
    ghost use Rattle.mt_disk.specs.Fault.{below, good_calls, own_failures};

    /// A device over this one that fails at call `n`. An `n` of 0 is as 1: each call fails.
    pub fn new(device: D, n: u64) -> FaultDevice<D>
        ensures device { below result ≡ device }
        ensures calls { good_calls result ≡ n - 1 }
        ensures failures { own_failures result ≡ 0 }
    {
        FaultDevice {
            device,
            left: n.saturating_sub(1),
            failures: History::new(),
        }
    }

    /// The device below.
    pub fn into_inner(self) -> D
        ensures { result ≡ below self }
    {
        let FaultDevice { device, .. } = self;
        device
    }

    /// Counts a call, and answers whether it goes through.
    fn passes(&mut self) -> bool
        ensures passes { IsTrue result ↔ (0 < good_calls self.old) }
        ensures calls { good_calls self.new ≡ good_calls self.old - 1 }
        ensures device { below self.new ≡ below self.old }
        ensures failures { own_failures self.new ≡ own_failures self.old + (if result then 0 else 1) }
    {
        if self.left == 0 {
            self.failures = self.failures.and(&DeviceFault);
            return false;
        }
        self.left -= 1;
        true
    }
}

impl<D: Device> Device for FaultDevice<D> {
    ghost use Rattle.mt_disk.specs.Fault.{below, good_calls, own_failures, TakesTurn};

    ghost seen = { λ f. D.seen (below f) };

    ghost may_leave = { λ f c. D.may_leave (below f) c };

    ghost moment = { λ f. D.moment (below f) };

    ghost left_since = { λ f t c. D.left_since (below f) t c };

    ghost faults = { λ f. D.faults (below f) + own_failures f };

    ghost present = { λ f. D.present (below f) };

    ghost sized = { λ f c left. D.sized (below f) c left };

    ghost counts_now = { λ f t c le now. D.counts_now (below f) t c le now };

    ghost only_now = { λ f c left. D.only_now (below f) c left };

    fn len(&self) -> u64 {
        self.device.len()
    }

    fn read(&mut self, at: u64, buf: &mut [u8]) -> Result<(), DeviceFault>
        requires { at + length buf.old ≤ length (D.seen (below self.old)) }
        ensures bytes { OnOk result (Has (D.seen (below self.old)) at buf.new) }
        ensures seen { D.seen (below self.new) ≡ D.seen (below self.old) }
        ensures crash { LeavesTheSame (D.may_leave (below self.old)) (D.may_leave (below self.new)) }
        ensures time { Elapses (D.moment (below self.old)) (D.moment (below self.new)) (D.left_since (below self.old))
            (D.left_since (below self.new)) (D.may_leave (below self.new)) }
        ensures cause { HasCause (D.faults (below self.old) + own_failures self.old)
            (D.faults (below self.new) + own_failures self.new) result }
        ensures turn { TakesTurn self.old self.new (D.faults (below self.old)) (D.faults (below self.new)) result }
    {
        if !self.passes() {
            return Err(DeviceFault);
        }
        self.device.read(at, buf)
    }

    fn write_at(&mut self, at: u64, bytes: &[u8]) -> Result<(), DeviceFault>
        requires { at + length bytes.now ≤ length (D.seen (below self.old)) }
        ensures written { OnOk result (Wrote at bytes.now (D.seen (below self.old)) (D.seen (below self.new))) }
        ensures rest { Torn at (length bytes.now) (D.seen (below self.old)) (D.seen (below self.new)) }
        ensures crash { Follows (Torn at (length bytes.now)) (D.may_leave (below self.old))
            (D.may_leave (below self.new)) }
        ensures time { Elapses (D.moment (below self.old)) (D.moment (below self.new)) (D.left_since (below self.old))
            (D.left_since (below self.new)) (D.may_leave (below self.new)) }
        ensures cause { HasCause (D.faults (below self.old) + own_failures self.old)
            (D.faults (below self.new) + own_failures self.new) result }
        ensures turn { TakesTurn self.old self.new (D.faults (below self.old)) (D.faults (below self.new)) result }
    {
        if !self.passes() {
            return Err(DeviceFault);
        }
        self.device.write_at(at, bytes)
    }

    fn sync(&mut self) -> Result<(), DeviceFault>
        ensures durable { OnOk result (Only (D.seen (below self.old)) (D.may_leave (below self.new))) }
        ensures seen { D.seen (below self.new) ≡ D.seen (below self.old) }
        ensures crash { (c : List ℕ) → D.may_leave (below self.new) c → D.may_leave (below self.old) c }
        ensures time { Elapses (D.moment (below self.old)) (D.moment (below self.new)) (D.left_since (below self.old))
            (D.left_since (below self.new)) (D.may_leave (below self.new)) }
        ensures cause { HasCause (D.faults (below self.old) + own_failures self.old)
            (D.faults (below self.new) + own_failures self.new) result }
        ensures turn { TakesTurn self.old self.new (D.faults (below self.old)) (D.faults (below self.new)) result }
    {
        if !self.passes() {
            return Err(DeviceFault);
        }
        self.device.sync()
    }
}

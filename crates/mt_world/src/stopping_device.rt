// A device that takes so many writes and syncs and fails at each later one. `crash` puts it over a device in memory.
ghost use Rattle.std.specs.Prelude.{◌≡◌, ℕ, List, ◌+◌, ◌<◌, ◌≤◌, length, IsTrue, ◌↔◌, OnOk, if◌then◌else◌};
ghost use Rattle.mt_disk.specs.Disk.{Has, LeavesTheSame, Only, Follows, Torn, Wrote, Elapses, HasCause};

use mt_base::History;
use mt_disk::{Device, DeviceFault};

/// How many writes and syncs a device takes, how many it has taken, and those that it has let fail.
#[derive(Drop)]
pub(crate) struct Meter {
    limit: u64,
    taken: u64,
    failures: History<DeviceFault>,

    ghost within: { taken ≤ limit },
    ghost stopped: { 0 < length failures.items → taken ≡ limit },
}

impl Meter {
    // Counts a call, and answers whether it goes through.
    fn passes(&mut self) -> bool
        ensures passes { IsTrue result ↔ (self.old.taken < self.old.limit) }
        ensures taken { self.new.taken ≡ self.old.taken + (if result then 1 else 0) }
        ensures limit { self.new.limit ≡ self.old.limit }
        ensures failures { length self.new.failures.items ≡ length self.old.failures.items
            + (if result then 0 else 1) }
    {
        if self.taken == self.limit {
            self.failures = self.failures.and(&DeviceFault);
            return false;
        }
        self.taken += 1;
        true
    }
}

/// A device that takes so many writes and syncs, and fails at each later one, which does not reach the device below.
/// Reads are not counted, and always do.
#[derive(Drop)]
pub(crate) struct StoppingDevice<D: Device> {
    device: D,
    meter: Meter,
}

impl<D: Device> StoppingDevice<D> {
    ghost use Rattle.mt_world.specs.Stopping.{StopsAt, below, calls_until, own_failures, taken_by};

    /// A device over this one that takes so many writes and syncs.
    pub(crate) fn new(device: D, limit: u64) -> StoppingDevice<D>
        ensures device { below result ≡ device }
        ensures limit { calls_until result ≡ limit }
        ensures taken { taken_by result ≡ 0 }
        ensures failures { own_failures result ≡ 0 }
    {
        StoppingDevice {
            device,
            meter: Meter {
                limit,
                taken: 0,
                failures: History::new(),
            },
        }
    }

    /// How many writes and syncs it takes. It has taken no more, and just so many if it was asked for one more.
    pub(crate) fn limit(&self) -> u64
        ensures limit { result ≡ calls_until self.now }
        ensures stops { StopsAt result self.now }
    {
        self.meter.limit
    }

    /// How many writes and syncs it has taken.
    pub(crate) fn taken(&self) -> u64
        ensures { result ≡ taken_by self.now }
    {
        self.meter.taken
    }

    /// The device below.
    pub(crate) fn into_inner(self) -> D
        ensures { result ≡ below self }
    {
        let StoppingDevice { device, .. } = self;
        device
    }
}

impl<D: Device> Device for StoppingDevice<D> {
    ghost use Rattle.mt_world.specs.Stopping.{below, own_failures, SameCount, TakesTurn};

    ghost seen = { λ f. D.seen (below f) };

    ghost may_leave = { λ f c. D.may_leave (below f) c };

    ghost moment = { λ f. D.moment (below f) };

    ghost left_since = { λ f t c. D.left_since (below f) t c };

    ghost faults = { λ f. D.faults (below f) + own_failures f };

    ghost present = { λ f. D.present (below f) };

    ghost sized = { λ f c left. D.sized (below f) c left };

    ghost counts_now = { λ f t c le now. D.counts_now (below f) t c le now };

    ghost only_now = { λ f c left. D.only_now (below f) c left };

    fn len(&self) -> u64 {
        self.device.len()
    }

    fn read(&mut self, at: u64, buf: &mut [u8]) -> Result<(), DeviceFault>
        requires { at + length buf.old ≤ length (D.seen (below self.old)) }
        ensures bytes { OnOk result (Has (D.seen (below self.old)) at buf.new) }
        ensures seen { D.seen (below self.new) ≡ D.seen (below self.old) }
        ensures crash { LeavesTheSame (D.may_leave (below self.old)) (D.may_leave (below self.new)) }
        ensures time { Elapses (D.moment (below self.old)) (D.moment (below self.new)) (D.left_since (below self.old))
            (D.left_since (below self.new)) (D.may_leave (below self.new)) }
        ensures cause { HasCause (D.faults (below self.old) + own_failures self.old)
            (D.faults (below self.new) + own_failures self.new) result }
        ensures uncounted { SameCount self.old self.new }
    {
        self.device.read(at, buf)
    }

    fn write_at(&mut self, at: u64, bytes: &[u8]) -> Result<(), DeviceFault>
        requires { at + length bytes.now ≤ length (D.seen (below self.old)) }
        ensures written { OnOk result (Wrote at bytes.now (D.seen (below self.old)) (D.seen (below self.new))) }
        ensures rest { Torn at (length bytes.now) (D.seen (below self.old)) (D.seen (below self.new)) }
        ensures crash { Follows (Torn at (length bytes.now)) (D.may_leave (below self.old))
            (D.may_leave (below self.new)) }
        ensures time { Elapses (D.moment (below self.old)) (D.moment (below self.new)) (D.left_since (below self.old))
            (D.left_since (below self.new)) (D.may_leave (below self.new)) }
        ensures cause { HasCause (D.faults (below self.old) + own_failures self.old)
            (D.faults (below self.new) + own_failures self.new) result }
        ensures turn { TakesTurn self.old self.new (D.faults (below self.old)) (D.faults (below self.new)) result }
    {
        if !self.meter.passes() {
            return Err(DeviceFault);
        }
        self.device.write_at(at, bytes)
    }

    fn sync(&mut self) -> Result<(), DeviceFault>
        ensures durable { OnOk result (Only (D.seen (below self.old)) (D.may_leave (below self.new))) }
        ensures seen { D.seen (below self.new) ≡ D.seen (below self.old) }
        ensures crash { (c : List ℕ) → D.may_leave (below self.new) c → D.may_leave (below self.old) c }
        ensures time { Elapses (D.moment (below self.old)) (D.moment (below self.new)) (D.left_since (below self.old))
            (D.left_since (below self.new)) (D.may_leave (below self.new)) }
        ensures cause { HasCause (D.faults (below self.old) + own_failures self.old)
            (D.faults (below self.new) + own_failures self.new) result }
        ensures turn { TakesTurn self.old self.new (D.faults (below self.old)) (D.faults (below self.new)) result }
    {
        if !self.meter.passes() {
            return Err(DeviceFault);
        }
        self.device.sync()
    }
}

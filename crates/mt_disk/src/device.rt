// What a device is: reads, writes and syncs of bytes, and what a crash may leave of them.
ghost use Rattle.std.specs.Prelude.{◌≡◌, ◌≤◌, ◌+◌, List, ℕ, length, OnOk};
ghost use Rattle.mt_disk.specs.Disk.{Has, LeavesTheSame, Only, Follows, Torn, Wrote, Elapses, HasCause};

use mt_base::Refusal;
use std::io;

/// The device could not do what it was asked: the only error of its calls.
#[derive(Clone, Copy, Debug, PartialEq, Eq)]
pub struct DeviceFault;

/// An error of the system is a fault of the device that it comes from.
impl From<io::Error> for DeviceFault {
    ghost use Rattle.std.specs.Prelude.{⊤};

    ghost from_gives = { λ _ _. ⊤ };

    fn from(_error: io::Error) -> DeviceFault {
        DeviceFault
    }
}

/// A fault of the device, as the crates above report it.
impl From<DeviceFault> for Refusal {
    ghost use Rattle.mt_base.specs.declared.refusal.Refusal.{Refusal};

    ghost from_gives = { λ _ refusal. refusal ≡ Refusal.DeviceFailed };

    fn from(_fault: DeviceFault) -> Refusal {
        Refusal::DeviceFailed
    }
}

/// A device: a row of bytes whose number is fixed, that is read, written and synced.
///
/// A write may be seen at once by a read. But until a sync that answers `Ok`, a crash may leave any bytes in the
/// range of each write since the last one. The order of the writes does not matter. The bytes outside of those ranges
/// are as the last sync left them. No call takes memory.
pub trait Device {
    /// The present content: the bytes that a read returns.
    ghost seen: { Self → List ℕ };

    /// What a crash at this moment may leave.
    ghost may_leave: { Self → List ℕ → Type 0 };

    /// The moment, as a number that never falls. In one call it rises by 1 at most, and this is all that code over
    /// any device knows. So what may rise it by 1 at most makes one call at most.
    ghost moment: { Self → ℕ };

    /// What a crash at this moment or at one since that moment might have left, within a call too.
    ghost left_since: { Self → ℕ → List ℕ → Type 0 };

    /// How often the device has failed.
    ghost faults: { Self → ℕ };

    /// The number of bytes, which never changes.
    fn len(&self) -> u64
        ensures { result ≡ length (seen self.now) };

    /// Fills `buf` with the bytes from `at` on. After a fault `buf` may hold anything, and the
    /// device is as it was but for its count of failures. A read makes nothing last: a crash may
    /// leave just what it might have left before.
    fn read(&mut self, at: u64, buf: &mut [u8]) -> Result<(), DeviceFault>
        requires { at + length buf.old ≤ length (seen self.old) }
        ensures bytes { OnOk result (Has (seen self.old) at buf.new) }
        ensures seen { seen self.new ≡ seen self.old }
        ensures crash { LeavesTheSame (may_leave self.old) (may_leave self.new) }
        ensures time { Elapses (moment self.old) (moment self.new) (left_since self.old) (left_since self.new)
            (may_leave self.new) }
        ensures cause { HasCause (faults self.old) (faults self.new) result };

    /// Writes `bytes` from `at` on. Until the next sync a crash may leave any bytes in that range.
    /// A write that fails counts as written: the range may then hold anything, for reads as well.
    fn write_at(&mut self, at: u64, bytes: &[u8]) -> Result<(), DeviceFault>
        requires { at + length bytes.now ≤ length (seen self.old) }
        ensures written { OnOk result (Wrote at bytes.now (seen self.old) (seen self.new)) }
        ensures rest { Torn at (length bytes.now) (seen self.old) (seen self.new) }
        ensures crash { Follows (Torn at (length bytes.now)) (may_leave self.old) (may_leave self.new) }
        ensures time { Elapses (moment self.old) (moment self.new) (left_since self.old) (left_since self.new)
            (may_leave self.new) }
        ensures cause { HasCause (faults self.old) (faults self.new) result };

    /// Makes all writes so far last: after it, a crash leaves just what a read returns. After a
    /// fault a crash may leave no more than before the call.
    fn sync(&mut self) -> Result<(), DeviceFault>
        ensures durable { OnOk result (Only (seen self.old) (may_leave self.new)) }
        ensures seen { seen self.new ≡ seen self.old }
        ensures crash { (c : List ℕ) → may_leave self.new c → may_leave self.old c }
        ensures time { Elapses (moment self.old) (moment self.new) (left_since self.old) (left_since self.new)
            (may_leave self.new) }
        ensures cause { HasCause (faults self.old) (faults self.new) result };

    /// What a read returns is among what a crash may leave.
    ghost present: { (device : Self) → may_leave device (seen device) };

    /// A crash keeps the length.
    ghost sized: { (device : Self) (c : List ℕ) → may_leave device c → length c ≡ length (seen device) };

    /// This moment is among those since any earlier one.
    ghost counts_now: { (device : Self) (t : ℕ) (c : List ℕ) → t ≤ moment device → may_leave device c
        → left_since device t c };

    /// Since this moment there has been no other.
    ghost only_now: { (device : Self) (c : List ℕ) → left_since device (moment device) c → may_leave device c };
}

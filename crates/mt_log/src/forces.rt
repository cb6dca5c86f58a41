// A force makes four device calls: the batch's length, its body and a closed gate after it; a sync;
// the open gate; a sync. So no open gate ever stands before a body that a crash may take away.
ghost use Rattle.std.specs.Prelude.{◌≡◌, ◌<◌, ◌≤◌, ◌^◌, ◌++◌, ◌∷◌, [], ◌↔◌, true, length, drop, vec_len, vec_capacity, IfOk, IsErr};
ghost use Rattle.std.specs.Int.{w32, to_be_bytes};
ghost use Rattle.mt_disk.specs.Calls.{CallsWithin, IsSynced, Meanwhile};
ghost use Rattle.mt_log.specs.Forcing.{CallsDevice, IsCall, MakesCall, Seals, ReportsFault};
ghost use Rattle.mt_log.specs.Seen.{HasItsBatches, is_still};
ghost use Rattle.mt_log.specs.Steps.{ForceSteps};
ghost use Rattle.mt_log.specs.declared.stage.Stage.TheVariants.{Idle, Forcing};

use crate::log::{Forced, Log};
use crate::stage::{Stage, Step};
use mt_base::{History, LogPos, Refusal};
use mt_disk::{Device, DeviceFault};
use mt_frame::{CLOSED_GATE, OPEN_GATE};

/// The most force steps until all that was appended is durable: of a force that is under way, and of the next one.
pub const FORCE_STEPS: usize = 8;

// Puts the body's length before the body, and a closed gate after it.
pub(crate) fn close_text(text: &mut Vec<u8>)
    requires head { 4 ≤ vec_len text.old }
    requires short { vec_len text.old < 2 ^ 32 }
    requires gate_room { vec_len text.old < vec_capacity text.old }
    ensures items { text.new.items ≡ (to_be_bytes w32 (length (drop 4 text.old.items)) ++ drop 4 text.old.items)
        ++ 0 ∷ [] }
    ensures capacity { vec_capacity text.old ≤ vec_capacity text.new }
{
    let length = (text.len() - 4) as u32;
    let [first, second, third, fourth] = length.to_be_bytes();
    text[0] = first;
    text[1] = second;
    text[2] = third;
    text[3] = fourth;
    text.push_reserved(CLOSED_GATE);
}

impl Log {
    ghost use Rattle.mt_log.specs.Words.{seen_of, area_start, area_size, AreaOf, IsLast, LiesOn};

    // The batch of the records that wait becomes the one that is forced.
    fn seal(&mut self)
        requires idle { self.old.stage ≡ Idle }
        requires some { 0 < self.old.waiting_count }
        ensures { Seals self.old self.new }
    {
        close_text(&mut self.pending);
        std::mem::swap(&mut self.pending, &mut self.flight);
        std::mem::swap(&mut self.waiting, &mut self.in_flight);
        self.behind += self.flight.len() as u64;
        self.batched += self.waiting_count;
        self.waiting_count = 0;
        self.stage = Stage::Forcing(Step::WriteBody);
    }

    // The device call of this step, and nothing else.
    fn call<D: Device>(&self, device: &mut D, step: Step) -> Result<(), DeviceFault>
        requires on { AreaOf (D.seen device.old) (D.may_leave device.old) self.now }
        requires stage { self.now.stage ≡ Forcing step }
        ensures { CallsDevice D.Device
            self.now step device.old device.new result }
    {
        match step {
            Step::WriteBody => device.write_at(self.next + 1, &self.flight),
            Step::SyncBody => device.sync(),
            Step::WriteGate => device.write_at(self.next, &[OPEN_GATE]),
            Step::SyncGate => device.sync(),
        }
    }

    // What this step's device call has come to.
    fn settle(&mut self, step: Step, done: Result<(), DeviceFault>) -> Result<Forced, Refusal>
        requires stage { self.old.stage ≡ Forcing step }
        ensures call { IsCall self.old step result self.new }
        ensures cause { IsErr result ↔ IsErr done }
    {
        if done.is_err() {
            self.stage = Stage::Failed;
            return Err(Refusal::DeviceFailed);
        }
        match step {
            Step::WriteBody => self.stage = Stage::Forcing(Step::SyncBody),
            Step::SyncBody => self.stage = Stage::Forcing(Step::WriteGate),
            Step::WriteGate => self.stage = Stage::Forcing(Step::SyncGate),
            Step::SyncGate => {
                self.batches = self.batches.and(&self.in_flight);
                self.in_flight = History::new();
                self.next = self.behind;
                self.flight.truncate(4);
                self.stage = Stage::Idle;
                return Ok(Forced::Durable(LogPos::new(self.batched)));
            }
        }
        Ok(Forced::More)
    }

    // One device call of the batch's force.
    fn make_call<D: Device>(&mut self, device: &mut D, step: Step) -> Result<Forced, Refusal>
        requires on { AreaOf (D.seen device.old) (D.may_leave device.old) self.old }
        requires stage { self.old.stage ≡ Forcing step }
        ensures { MakesCall D.Device
            self.old self.new step device.old device.new result }
    {
        let done = self.call(device, step);
        self.settle(step, done)
    }

    /// One device call of a force, or none if every record is durable. The first call takes all records that wait
    /// into a batch, and those that are appended later wait for the next one. The fourth makes the batch durable. It
    /// takes no memory.
    ///
    /// The only refusal is [`Refusal::DeviceFailed`], if the device failed in this call or in an earlier one. What
    /// is durable stays, and each later call is refused.
    #[tactic(auto, unfolding(crate::specs::Words::seen_of, crate::specs::Words::IsOn))]
    pub fn force_step<D: Device>(&mut self, device: &mut D) -> Result<Forced, Refusal>
        requires on { LiesOn D.Device self.old device.old }
        ensures on { LiesOn D.Device self.new device.new }
        ensures steps { ForceSteps (seen_of self.old) (seen_of self.new) result }
        // Whenever a crash comes in this call, reading the area finds the durable batches, or these and
        // the one that is being forced.
        ensures moments { Meanwhile D.Device device.old device.new (HasItsBatches (seen_of self.old)) }
        // At most one device call, within the area, for what others keep on the device.
        ensures within { CallsWithin D.Device (area_start self.old) (area_size self.old) device.old device.new }
        // No call at all if the device has failed before, nor if every record is durable.
        ensures still { is_still (seen_of self.old) ≡ true → device.new ≡ device.old }
        // The last call of a force is a sync: a crash after it leaves what is there.
        ensures alone { IfOk result (λ forced. IsLast forced → IsSynced D.Device device.new) }
        ensures cause { ReportsFault D.Device (seen_of self.old) device.old device.new result }
    {
        match self.stage {
            Stage::Failed => Err(Refusal::DeviceFailed),
            Stage::Idle => {
                if self.waiting_count == 0 {
                    return Ok(Forced::Idle);
                }
                self.seal();
                self.make_call(device, Step::WriteBody)
            }
            Stage::Forcing(step) => self.make_call(device, step),
        }
    }
}

// What a restart found on a device, once its schema has more relations and counters. mt_restart's migration asks for
// it.
ghost use Rattle.std.specs.Prelude.{◌≡◌, ◌⊎◌, ◌<◌, ◌≤◌, length, IfOk, IfErr, Err};
ghost use Rattle.std.specs.Bool.{OnTrue, OnFalse};
ghost use Rattle.mt_base.specs.declared.refusal.Refusal.{Refusal};
ghost use Rattle.mt_log.specs.Quiet.{OnlyReads};
ghost use Rattle.mt_page_rules.specs.Checks.{AreChecked};
ghost use Rattle.mt_replay.specs.Extension.{CanExtend, ExtendsSchema};
ghost use Rattle.mt_replay.specs.Marking.{IsMarked};

use crate::device_replay::Replayed;
use crate::page_slots::is_lost;
use crate::undo_pass::Restored;
use mt_base::limits::MASTER_BYTES;
use mt_base::{PageNo, Refusal};
use mt_counters::extend;
use mt_disk::Device;
use mt_pool::read_slot;
use mt_space::pages::COUNTERS;

impl Restored {
    // Gives the schema so many relations more, and these counters after those that it has, if the sums and each counter
    // lie within their limits, and answers whether. Else the pages are as before.
    fn extend_schema(&mut self, relations: u16, counters: &[(i64, i64, i64)]) -> bool
        requires { 3 ≤ length self.old.pages.items }
        ensures extended { OnTrue result (ExtendsSchema relations counters.now self.old.pages.items
            self.new.pages.items) }
        ensures cannot { OnFalse result (CanExtend relations counters.now self.old.pages.items → ⊥) }
        ensures unchanged { OnFalse result (self.new ≡ self.old) }
    {
        extend(&mut self.pages[usize::from(COUNTERS)], relations, counters)
    }
}

/// Gives the schema of a device that was found so many relations more, and these counters after those that it has, in
/// memory. Each counter has its low bound, high bound and start. Rows and counters that were there stay. The slot of
/// the page that changes is read, so that its marks say what the log's next area needs.
///
/// It is refused with [`Refusal::BadLength`] if and only if a sum or a counter lies outside its limits, and with
/// [`Refusal::DeviceFailed`] if and only if the device failed in this call. What was found is dropped then. The device
/// is only read.
pub fn extend_schema<D: Device>(
    device: &mut D,
    replayed: Replayed,
    relations: u16,
    counters: &[(i64, i64, i64)],
) -> Result<Replayed, Refusal>
    requires marked { IsMarked (D.seen device.old) replayed.ruling replayed.restored.pages.items replayed.imaged.items
        replayed.lost.items }
    requires checked { AreChecked replayed.restored.pages.items }
    ensures ruling { IfOk result (λ extended. extended.ruling ≡ replayed.ruling) }
    ensures extended { IfOk result (λ extended. ExtendsSchema relations counters.now
        replayed.restored.pages.items extended.restored.pages.items) }
    ensures checked { IfOk result (λ extended. AreChecked extended.restored.pages.items) }
    ensures marked { IfOk result (λ extended. IsMarked (D.seen device.old) extended.ruling
        extended.restored.pages.items extended.imaged.items extended.lost.items) }
    ensures cause { IfErr result (λ why. ((why ≡ Refusal.BadLength)
        × (CanExtend relations counters.now replayed.restored.pages.items → ⊥))
        ⊎ ((why ≡ Refusal.DeviceFailed) × (D.faults device.old < D.faults device.new))) }
    ensures reads { OnlyReads D.Device device.old device.new }
    ensures quiet { (result ≡ Err Refusal.DeviceFailed → ⊥) → D.faults device.new ≡ D.faults device.old }
{
    let mut extended = replayed;
    if !extended.restored.extend_schema(relations, counters) {
        return Err(Refusal::BadLength);
    }
    let mut found = [0; 4096];
    read_slot(device, MASTER_BYTES, PageNo::new(COUNTERS), &mut found)?;
    let at = usize::from(COUNTERS);
    extended.lost[at] = is_lost(&found, &extended.restored.pages[at], extended.imaged[at]);
    Ok(extended)
}

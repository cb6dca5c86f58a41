// From the bytes of a device to the pages that they represent: the passes of a restart, one after the other.
// mt_restart calls it. The device is only read.
ghost use Rattle.std.specs.Prelude.{◌≡◌, ◌⊎◌, ◌<◌, ◌≤◌, ℕ, List, ◌^◌, length, IfOk, IfErr, Err};
ghost use Rattle.mt_base.specs.declared.limits.TheConstants.{MAX_PAGES};
ghost use Rattle.mt_base.specs.declared.format.Format.{Format};
ghost use Rattle.mt_base.specs.declared.refusal.Refusal.{Refusal};
ghost use Rattle.mt_disk.specs.Disk.{LeavesOnly, LeavesTheSame};
ghost use Rattle.mt_frame.specs.declared.records.Record.{Record};
ghost use Rattle.mt_frame.specs.declared.slots.MasterSlot.{MasterSlot};
ghost use Rattle.mt_log.specs.Batch.{joined};
ghost use Rattle.mt_log.specs.Found.{places_of, records_of};
ghost use Rattle.mt_log.specs.Holds.{BreaksAt, places_from};
ghost use Rattle.mt_log.specs.Quiet.{OnlyReads};
ghost use Rattle.mt_model.specs.Model.{Base};
ghost use Rattle.std.specs.List.{AllByRecursion};
ghost use Rattle.mt_frame.specs.Grammar.{IsOperation};
ghost use Rattle.mt_replay.specs.Marking.{IsMarked};
ghost use Rattle.mt_space.specs.PageLists.{AreWhole};
ghost use Rattle.mt_log.specs.Masters.{IsRuling, IsUnformatted, area_end, area_start};
ghost use Rattle.mt_replay.specs.Refused.{AreUndone, BreaksFormat, BreaksLog, IsCause, IsLog, IsReplayed, StopsUndoing};
ghost use Rattle.mt_replay.specs.Stands.{AreHeld, CanReplay, HasArea, ShowsBase};

use crate::figures::{Figures, figures_of};
use crate::laws::{each_inverse_finds, only_own_pages_matter, restart_finds_the_base};
use crate::losers::{Loser, losers_of};
use crate::page_slots::lost_pages;
use crate::pages_held::{HeldPages, held_pages};
use crate::undo_pass::Restored;
use mt_base::{Format, Refusal};
use mt_disk::Device;
use mt_frame::MasterSlot;
use mt_log::{AreaPlace, Batch, ruling_slot, scan};
use std::alloc::Global;

/// What a restart finds in the bytes of a device.
#[derive(Drop)]
pub struct Replayed {
    /// The master slot that rules.
    pub ruling: MasterSlot,
    /// How much the batches of the area that it names hold.
    pub figures: Figures,
    /// All pages, with what is unfinished put back and the losers undone.
    pub restored: Restored,
    /// By its number, whether a page has an image in that area.
    pub imaged: Vec<bool>,
    /// By its number, whether a page is lost: it has no image there, and other bytes than its slot.
    pub lost: Vec<bool>,
}

/// The batches of the log area that the ruling slot names, in their order, each at its offset. The device is only
/// read, and its content is as before in any case.
///
/// Refusals are [`Refusal::NoMemory`]; [`Refusal::DeviceFailed`], if and only if the device failed in this call; and
/// [`Refusal::BadFormat`] with the offset where a batch breaks a rule, as [`scan`] says.
pub fn read_area<D: Device>(
    alloc: Global,
    device: &mut D,
    ruling: &MasterSlot,
) -> Result<Vec<Batch>, Refusal>
    requires { IsRuling (D.seen device.old) ruling.now }
    ensures found { IfOk result (λ batches. HasArea (D.seen device.old) ruling.now (records_of batches.items)) }
    ensures places { IfOk result (λ batches. places_of batches.items ≡ places_from (area_start ruling.now)
        (records_of batches.items)) }
    ensures only { (batches : List (List Record)) → HasArea (D.seen device.old) ruling.now batches
        → IfOk result (λ found. records_of found.items ≡ batches) }
    ensures no_other_refusal { (batches : List (List Record)) → HasArea (D.seen device.old) ruling.now batches
        → IfErr result (λ why. (why ≡ Refusal.NoMemory) ⊎ (why ≡ Refusal.DeviceFailed)) }
    ensures few { IfOk result (λ batches. length (joined (records_of batches.items)) < 2 ^ 32) }
    ensures reads { OnlyReads D.Device device.old device.new }
    ensures quiet { (result ≡ Err Refusal.DeviceFailed → ⊥) → D.faults device.new ≡ D.faults device.old }
    ensures cause { IfErr result (λ why. (why ≡ Refusal.NoMemory)
        ⊎ (((why ≡ Refusal.DeviceFailed) × (D.faults device.old < D.faults device.new))
        ⊎ ((at : ℕ) × (why ≡ Refusal.BadFormat at) × BreaksAt ruling.now.format (D.seen device.old)
        (area_start ruling.now) (area_end ruling.now) ruling.now.pages at))) }
{
    let area = AreaPlace::named_by(ruling);
    scan(alloc, device, area, ruling.pages, ruling.format)
}

// The pages held, once they were looked at and the losers are undone.
fn undone(
    alloc: Global,
    format: Format,
    pages: Vec<[u8; 4096]>,
    losers: &[Loser],
) -> Result<Restored, Refusal>
    requires whole { AreWhole pages.items }
    requires some { 16 ≤ length pages.items }
    requires few { length pages.items ≤ MAX_PAGES }
    requires grammar { AllByRecursion (λ loser. IsOperation loser.done) losers.now }
    ensures found { (relations counters : ℕ) (b : Base) → AreHeld format relations counters pages.items losers.now b
        → IfOk result (λ restored. ShowsBase relations counters restored.pages.items b) }
    ensures no_other_refusal { (relations counters : ℕ) (b : Base)
        → AreHeld format relations counters pages.items losers.now b → IfErr result (λ why. why ≡ Refusal.NoMemory) }
    ensures undone { IfOk result (λ restored. AreUndone format pages.items losers.now restored.pages.items) }
    ensures cause { IfErr result (λ why. (why ≡ Refusal.NoMemory)
        ⊎ ((at : ℕ) × (why ≡ Refusal.BadFormat at) × StopsUndoing format pages.items losers.now at)) }
{
    restart_finds_the_base();
    each_inverse_finds();
    only_own_pages_matter();
    let checked = Restored::checked(alloc, format, pages)?;
    checked.undo_all(alloc, losers)
}

/// The passes of a restart in memory, over the area that this slot names, which rules. They are those of [`replay`],
/// once the slots are read.
///
/// Refusals are [`Refusal::NoMemory`]; [`Refusal::DeviceFailed`], if and only if the device failed in this call; and
/// [`Refusal::BadFormat`] of a batch, of a page, or of the batch of a loser. The device is only read.
pub fn replay_by<D: Device>(
    alloc: Global,
    device: &mut D,
    ruling: MasterSlot,
) -> Result<Replayed, Refusal>
    requires rules { IsRuling (D.seen device.old) ruling }
    requires only { (slot : MasterSlot) → IsRuling (D.seen device.old) slot → ruling ≡ slot }
    ensures log { IfOk result (λ replayed. IsLog (D.seen device.old) replayed.ruling replayed.figures) }
    ensures replayed { IfOk result (λ replayed. IsReplayed (D.seen device.old) replayed.ruling
        replayed.restored.pages.items) }
    ensures marked { IfOk result (λ replayed. IsMarked (D.seen device.old) replayed.ruling
        replayed.restored.pages.items replayed.imaged.items replayed.lost.items) }
    ensures cause { IfErr result (IsCause BreaksFormat (D.seen device.old)
        (D.faults device.old < D.faults device.new)) }
    ensures found { (format : Format) (relations counters : ℕ) (b : Base)
        → CanReplay format relations counters (D.seen device.old) b
        → IfOk result (λ replayed. ShowsBase relations counters replayed.restored.pages.items b) }
    ensures no_other_refusal { (format : Format) (relations counters : ℕ) (b : Base)
        → CanReplay format relations counters (D.seen device.old) b
        → IfErr result (λ why. (why ≡ Refusal.NoMemory) ⊎ (why ≡ Refusal.DeviceFailed)) }
    ensures reads { OnlyReads D.Device device.old device.new }
    ensures quiet { (result ≡ Err Refusal.DeviceFailed → ⊥) → D.faults device.new ≡ D.faults device.old }
{
    let batches = read_area(alloc, device, &ruling)?;
    let held = held_pages(alloc, device, ruling.pages, &batches)?;
    let losers = losers_of(alloc, &batches)?;
    let HeldPages {
        pages,
        found,
        imaged,
    } = held;
    let restored = undone(alloc, ruling.format, pages, &losers)?;
    let lost = lost_pages(alloc, &found, &restored.pages, &imaged)?;
    Ok(Replayed {
        ruling,
        figures: figures_of(&batches),
        restored,
        imaged,
        lost,
    })
}

/// What the bytes of a device represent: the passes of a restart in memory. The ruling slot names the log's area. The
/// area's records are repeated over the pages as the area found them, and what is unfinished is put back (Mohan
/// 1992). All pages are looked at, and the losers are undone by inverses, the latest end first (Weikum 1991).
///
/// Of bytes that a kernel left, the pages hold the base that the area's committed transactions lead to. It is refused
/// only for want of memory or a fault of the device then.
///
/// Any bytes are read. If they are answered, the pages break no rule of their formats and of the index, those held
/// and those that the losers' inverses leave.
///
/// The area is read once, and its figures are those that [`read_log`] answers. Of each page its slot is read once, or
/// its image is taken if the area has one. Marks name the pages with an image, and the lost ones: those without an
/// image whose slots have other bytes.
///
/// Refusals are [`Refusal::NoMemory`], and [`Refusal::DeviceFailed`], if and only if the device failed in this call.
/// [`Refusal::NotFormatted`] is answered if and only if it is shorter than 8192 bytes or no master slot is open, and
/// no read failed. [`Refusal::BadFormat`] has an offset where a rule is broken. It is that of a slot or a batch as
/// [`ruling_slot`] and [`scan`] say, or of the slot of a page. Or it is that of the batch of a loser whose inverse
/// does not find what its record says, or too few free pages. The device is only read, and its content is as before
/// in any case.
pub fn replay<D: Device>(alloc: Global, device: &mut D) -> Result<Replayed, Refusal>
    ensures log { IfOk result (λ replayed. IsLog (D.seen device.old) replayed.ruling replayed.figures) }
    ensures replayed { IfOk result (λ replayed. IsReplayed (D.seen device.old) replayed.ruling
        replayed.restored.pages.items) }
    ensures marked { IfOk result (λ replayed. IsMarked (D.seen device.old) replayed.ruling
        replayed.restored.pages.items replayed.imaged.items replayed.lost.items) }
    ensures cause { IfErr result (IsCause BreaksFormat (D.seen device.old)
        (D.faults device.old < D.faults device.new)) }
    ensures unformatted { IsUnformatted (D.seen device.old)
        → IfErr result (λ why. (why ≡ Refusal.NotFormatted) ⊎ (why ≡ Refusal.DeviceFailed)) }
    ensures found { (format : Format) (relations counters : ℕ) (b : Base)
        → CanReplay format relations counters (D.seen device.old) b
        → IfOk result (λ replayed. ShowsBase relations counters replayed.restored.pages.items b) }
    ensures no_other_refusal { (format : Format) (relations counters : ℕ) (b : Base)
        → CanReplay format relations counters (D.seen device.old) b
        → IfErr result (λ why. (why ≡ Refusal.NoMemory) ⊎ (why ≡ Refusal.DeviceFailed)) }
    ensures seen { D.seen device.new ≡ D.seen device.old }
    ensures crash { LeavesTheSame (D.may_leave device.old) (D.may_leave device.new) }
    ensures moments { LeavesOnly D.moment D.left_since device.old device.new (D.may_leave device.old) }
    ensures quiet { (result ≡ Err Refusal.DeviceFailed → ⊥) → D.faults device.new ≡ D.faults device.old }
{
    let ruling = ruling_slot(device)?;
    replay_by(alloc, device, ruling)
}

/// What the log of a device comes to: the ruling slot, and the figures of the batches of the area that it names. No
/// page is looked at.
///
/// Refusals are [`Refusal::NoMemory`]; [`Refusal::DeviceFailed`], if and only if the device failed in this call;
/// [`Refusal::NotFormatted`] and [`Refusal::BadFormat`] of a slot or a batch, as [`ruling_slot`] and [`scan`] say.
/// The device is only read, and its content is as before in any case.
pub fn read_log<D: Device>(alloc: Global, device: &mut D) -> Result<(MasterSlot, Figures), Refusal>
    ensures log { IfOk result (λ log. IsLog (D.seen device.old) log.0 log.1) }
    ensures no_other_refusal { (format : Format) (relations counters : ℕ) (b : Base)
        → CanReplay format relations counters (D.seen device.old) b
        → IfErr result (λ why. (why ≡ Refusal.NoMemory) ⊎ (why ≡ Refusal.DeviceFailed)) }
    ensures cause { IfErr result (IsCause BreaksLog (D.seen device.old)
        (D.faults device.old < D.faults device.new)) }
    ensures unformatted { IsUnformatted (D.seen device.old)
        → IfErr result (λ why. (why ≡ Refusal.NotFormatted) ⊎ (why ≡ Refusal.DeviceFailed)) }
    ensures seen { D.seen device.new ≡ D.seen device.old }
    ensures crash { LeavesTheSame (D.may_leave device.old) (D.may_leave device.new) }
    ensures moments { LeavesOnly D.moment D.left_since device.old device.new (D.may_leave device.old) }
    ensures quiet { (result ≡ Err Refusal.DeviceFailed → ⊥) → D.faults device.new ≡ D.faults device.old }
{
    let ruling = ruling_slot(device)?;
    let batches = read_area(alloc, device, &ruling)?;
    let figures = figures_of(&batches);
    Ok((ruling, figures))
}

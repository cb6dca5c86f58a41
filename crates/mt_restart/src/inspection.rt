// What a device's bytes represent, found without a write. The passes of a restart are made in memory.
// mt_device_commands asks for a report, or a check. `inspect` surveys the pages too, for whoever embeds the kernel, and
// for tests.
ghost use Rattle.std.specs.Prelude.{◌≡◌, ◌⊎◌, ◌<◌, ◌≤◌, ◌+◌, ℕ, List, length, IfErr, IfOk, OnOk, Err};
ghost use Rattle.mt_base.specs.declared.limits.TheConstants.{MAX_PAGES};
ghost use Rattle.mt_base.specs.declared.format.Format.{Format};
ghost use Rattle.mt_base.specs.declared.refusal.Refusal.{Refusal};
ghost use Rattle.mt_disk.specs.Disk.{LeavesOnly, LeavesTheSame};
ghost use Rattle.mt_space.specs.PageLists.{bytes_of};
ghost use Rattle.mt_log.specs.Masters.{IsUnformatted};
ghost use Rattle.mt_model.specs.Model.{Base as ModelBase};
ghost use Rattle.mt_page_rules.specs.Checks.{AreChecked};
ghost use Rattle.mt_replay.specs.Refused.{BreaksFormat, IsCause};
ghost use Rattle.mt_replay.specs.Stands.{CanReplay};
ghost use Rattle.mt_steps.specs.Listed.{HasListed};
ghost use Rattle.mt_steps.specs.Plans.{free_pages};
ghost use Rattle.mt_restart.specs.Inspected.{IsInspected, IsOfPages, Surveys};

use mt_base::Refusal;
use mt_disk::Device;
use mt_index::depth;
use mt_replay::{Restored, only_own_pages_matter, replay};
use mt_rows::Row;
use mt_space::pages::{COUNTERS, DIRECTORY, FREE, MAP, RECORDS};
use mt_steps::{base_of_rows, base_without_rows, list_rows};
use mt_txn::Survey;
use std::alloc::{AllocError, Global};

// How many pages the space map has as free.
fn free_count(pages: &[[u8; 4096]]) -> u16
    requires some { 1 ≤ length pages.now }
    requires few { length pages.now ≤ MAX_PAGES }
    ensures { result ≡ free_pages (length pages.now) (bytes_of pages.now) }
{
    let map = &pages[usize::from(MAP)];
    map[..pages.len()]
        .iter()
        .filter(|kind| **kind == FREE)
        .count() as u16
}

// Lists the records of a page as rows, if it is a page of records.
fn list_page(
    alloc: Global,
    rows: &mut Vec<Row>,
    pages: &[[u8; 4096]],
    page: usize,
) -> Result<(), AllocError>
    requires checked { AreChecked pages.now }
    requires few { length pages.now ≤ MAX_PAGES }
    requires inside { page < length pages.now }
    ensures listed { HasListed (bytes_of pages.now) page rows.old.items
        → OnOk result (HasListed (bytes_of pages.now) (page + 1) rows.new.items) }
{
    if pages[usize::from(MAP)][page] != RECORDS {
        return Ok(());
    }
    list_rows(alloc, rows, &pages[page])
}

// The records of all pages as rows, page by page.
fn list_pages(alloc: Global, pages: &[[u8; 4096]]) -> Result<Vec<Row>, AllocError>
    requires checked { AreChecked pages.now }
    requires few { length pages.now ≤ MAX_PAGES }
    ensures listed { IfOk result (λ rows. HasListed (bytes_of pages.now) (length pages.now) rows.items) }
{
    let mut rows = Vec::new(alloc);
    for number in 0..pages.len() {
        list_page(alloc, &mut rows, pages, number)?;
    }
    Ok(rows)
}

// The survey of pages in memory that break no rule. `open_with_survey` asks for one of those of a recovery. mt_op has
// a survey of its own. It reads each page from its frame or the device, and so has a fault to report; here all pages
// are at hand.
pub(crate) fn survey_of(alloc: Global, restored: &Restored) -> Result<Survey, AllocError>
    requires { AreChecked restored.now.pages.items }
    ensures surveyed { IfOk result (IsOfPages restored.now.pages.items) }
{
    let pages = restored.pages.as_slice();
    let base = base_without_rows(alloc, &pages[usize::from(COUNTERS)])?;
    let rows = list_pages(alloc, pages)?;
    Ok(Survey {
        depth: depth(&pages[usize::from(DIRECTORY)]),
        free: free_count(pages),
        base: base_of_rows(base, rows),
    })
}

/// Answers what the bytes of a device represent, as a restart would find it, and only reads them. A restart's passes
/// are made in memory, as [`replay`] says, and the pages that they leave are surveyed.
///
/// Of bytes that a kernel left, the survey has the base that the log's committed transactions lead to. It is then
/// refused only for want of memory or a fault of the device.
///
/// Any bytes are read, of either format. If they are answered, the pages break no rule, and every base that they hold
/// is the survey's.
///
/// It is refused with:
/// - [`Refusal::NoMemory`];
/// - [`Refusal::DeviceFailed`], if and only if the device failed in this call;
/// - [`Refusal::NotFormatted`], if and only if the device is shorter than 8192 bytes or no master slot is open, and
///   no read failed;
/// - [`Refusal::BadFormat`] with the offset where a rule is broken, as [`replay`] says.
///
/// The content of the device is as before in any case.
pub fn inspect<D: Device>(alloc: Global, device: &mut D) -> Result<Survey, Refusal>
    ensures surveyed { (format : Format) (relations counters : ℕ) (b : ModelBase)
        → CanReplay format relations counters (D.seen device.old) b
        → IfOk result (Surveys relations counters b (D.seen device.old)) }
    ensures inspected { IfOk result (IsInspected (D.seen device.old)) }
    ensures no_other_refusal { (format : Format) (relations counters : ℕ) (b : ModelBase)
        → CanReplay format relations counters (D.seen device.old) b
        → IfErr result (λ why. (why ≡ Refusal.NoMemory) ⊎ (why ≡ Refusal.DeviceFailed)) }
    ensures cause { IfErr result (IsCause BreaksFormat (D.seen device.old)
        (D.faults device.old < D.faults device.new)) }
    ensures unformatted { IsUnformatted (D.seen device.old)
        → IfErr result (λ why. (why ≡ Refusal.NotFormatted) ⊎ (why ≡ Refusal.DeviceFailed)) }
    ensures seen { D.seen device.new ≡ D.seen device.old }
    ensures crash { LeavesTheSame (D.may_leave device.old) (D.may_leave device.new) }
    ensures moments { LeavesOnly D.moment D.left_since device.old device.new (D.may_leave device.old) }
    ensures quiet { (result ≡ Err Refusal.DeviceFailed → ⊥) → D.faults device.new ≡ D.faults device.old }
{
    only_own_pages_matter();
    let replayed = replay(alloc, device)?;
    Ok(survey_of(alloc, &replayed.restored)?)
}

// The report on a device's log, by its bytes. If it is asked for, the same reading finds that the pages break no rule.
ghost use Rattle.std.specs.Prelude.{◌≡◌, ◌⊎◌, ◌<◌, ℕ, List, IfOk, IfErr, Err};
ghost use Rattle.mt_base.specs.declared.format.Format.{Format};
ghost use Rattle.mt_base.specs.declared.refusal.Refusal.{Refusal};
ghost use Rattle.mt_disk.specs.Disk.{LeavesOnly, LeavesTheSame};
ghost use Rattle.mt_model.specs.Model.{Base};
ghost use Rattle.mt_log.specs.Masters.{IsUnformatted};
ghost use Rattle.mt_replay.specs.Refused.{BreaksFormat, BreaksLog, IsCause, IsLog};
ghost use Rattle.mt_replay.specs.Stands.{CanReplay};
ghost use Rattle.mt_restart.specs.Reported.{IsChecked, IsReport};

use crate::report_figures::Report;
use mt_base::Refusal;
use mt_disk::Device;
use mt_frame::MasterSlot;
use mt_replay::{Figures, read_log, replay};
use std::alloc::Global;

// The report on a log whose ruling slot and figures were read.
fn report_of(ruling: &MasterSlot, figures: Figures) -> Report
    ensures { (c : List ℕ) → IsLog c ruling.now figures → IsReport c result }
{
    Report {
        format: ruling.format,
        epoch: ruling.epoch,
        area: ruling.area,
        batches: figures.batches,
        records: figures.records,
        commits: figures.commits,
    }
}

/// Reports format, epoch and area of the master slot that rules, and how many batches, records and commits the area
/// holds. No page is looked at.
///
/// Refusals are [`Refusal::NoMemory`], and [`Refusal::DeviceFailed`] if and only if the device failed in this call.
/// [`Refusal::NotFormatted`] is answered if it is shorter than 8192 bytes or no master slot is open.
/// [`Refusal::BadFormat`] has the offset of a slot or a batch that breaks a rule. The device is only read: no write,
/// no sync, and its content is as before in any case.
pub fn report<D: Device>(alloc: Global, device: &mut D) -> Result<Report, Refusal>
    ensures outcome { IfOk result (IsReport (D.seen device.old)) }
    ensures no_other_refusal { (format : Format) (relations counters : ℕ) (b : Base)
        → CanReplay format relations counters (D.seen device.old) b
        → IfErr result (λ why. (why ≡ Refusal.NoMemory) ⊎ (why ≡ Refusal.DeviceFailed)) }
    ensures cause { IfErr result (IsCause BreaksLog (D.seen device.old)
        (D.faults device.old < D.faults device.new)) }
    ensures unformatted { IsUnformatted (D.seen device.old)
        → IfErr result (λ why. (why ≡ Refusal.NotFormatted) ⊎ (why ≡ Refusal.DeviceFailed)) }
    ensures seen { D.seen device.new ≡ D.seen device.old }
    ensures crash { LeavesTheSame (D.may_leave device.old) (D.may_leave device.new) }
    ensures moments { LeavesOnly D.moment D.left_since device.old device.new (D.may_leave device.old) }
    ensures quiet { (result ≡ Err Refusal.DeviceFailed → ⊥) → D.faults device.new ≡ D.faults device.old }
{
    let (ruling, figures) = read_log(alloc, device)?;
    Ok(report_of(&ruling, figures))
}

/// Reports as [`report`] does, of a device whose pages break no rule. The passes of a restart are made in memory, as
/// [`replay`] says. The log is read once for both.
///
/// Any bytes are read. If they are answered, the pages that a restart finds are of some schema, and hold a base. Of
/// bytes that a kernel left it is refused only for want of memory or a fault of the device.
///
/// Refusals are [`Refusal::NoMemory`], and [`Refusal::DeviceFailed`] if and only if the device failed in this call.
/// [`Refusal::NotFormatted`] is answered if it is shorter than 8192 bytes or no master slot is open.
/// [`Refusal::BadFormat`] has the offset where a rule is broken, as [`replay`] says. The device is only read, and its
/// content is as before in any case.
pub fn check<D: Device>(alloc: Global, device: &mut D) -> Result<Report, Refusal>
    ensures outcome { IfOk result (IsChecked (D.seen device.old)) }
    ensures no_other_refusal { (format : Format) (relations counters : ℕ) (b : Base)
        → CanReplay format relations counters (D.seen device.old) b
        → IfErr result (λ why. (why ≡ Refusal.NoMemory) ⊎ (why ≡ Refusal.DeviceFailed)) }
    ensures cause { IfErr result (IsCause BreaksFormat (D.seen device.old)
        (D.faults device.old < D.faults device.new)) }
    ensures unformatted { IsUnformatted (D.seen device.old)
        → IfErr result (λ why. (why ≡ Refusal.NotFormatted) ⊎ (why ≡ Refusal.DeviceFailed)) }
    ensures seen { D.seen device.new ≡ D.seen device.old }
    ensures crash { LeavesTheSame (D.may_leave device.old) (D.may_leave device.new) }
    ensures moments { LeavesOnly D.moment D.left_since device.old device.new (D.may_leave device.old) }
    ensures quiet { (result ≡ Err Refusal.DeviceFailed → ⊥) → D.faults device.new ≡ D.faults device.old }
{
    let replayed = replay(alloc, device)?;
    Ok(report_of(&replayed.ruling, replayed.figures))
}

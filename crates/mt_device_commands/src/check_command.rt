// `check`: what is reported of the device in a file, by a copy of it.
ghost use Rattle.std.specs.Prelude.{◌≡◌, IfErr, IfOk, OnErr, OnOk, map};
ghost use Rattle.std.specs.List.{concat};
ghost use Rattle.std.specs.Io.KnownBytes.{Appends};
ghost use Rattle.mt_disk.specs.Disk.{LeavesTheSame};
ghost use Rattle.mt_script.specs.Answers.{AppendsFront};
ghost use Rattle.mt_device_commands.specs.Checks.{HasChecked, IsRefusedFor, IsUnchecked, IsUnreported, Reports, ReportsOn, check_text, figure_line, pages_text, report_text};
ghost use Rattle.mt_folder.specs.Folders.{AreKept, known_in};

use crate::waits::Patience;
use mt_base::Refusal;
use mt_disk::Device;
use mt_folder::Folder;
use mt_report::{Fault, write_number};
use mt_restart::{Report, check, report};
use mt_script::{Unheard, put};
use std::alloc::Global;
use std::io::Write;
use std::time::Clock;

/// The report on a device, whose pages break no rule if that is asked for.
fn reported_of<D: Device>(alloc: Global, device: &mut D, pages: bool) -> Result<Report, Refusal>
    ensures outcome { IfOk result (Reports pages (D.seen device.old)) }
    ensures cause { IfErr result (IsRefusedFor pages (D.seen device.old)) }
    ensures seen { D.seen device.new ≡ D.seen device.old }
    ensures crash { LeavesTheSame (D.may_leave device.old) (D.may_leave device.new) }
{
    if pages {
        check(alloc, device)
    } else {
        report(alloc, device)
    }
}

/// What is reported of the device in the file of this name.
fn reported_of_file<F: Folder, R: Clock>(
    alloc: Global,
    patience: &Patience<'_, R>,
    folder: &mut F,
    name: &str,
    pages: bool,
) -> Result<Report, Refusal>
    ensures outcome { IfOk result (ReportsOn pages (known_in (F.files folder.old) name.now)) }
    ensures cause { IfErr result (IsUnreported pages (known_in (F.files folder.old) name.now)) }
    ensures kept { AreKept (F.files folder.old) (F.files folder.new) }
{
    let mut device = patience.copy(folder, name)?;
    reported_of(alloc, &mut device, pages)
}

/// Writes a line for each of these figures: its word, and its number after it.
pub(crate) fn write_figures<W: Write>(
    writer: &mut W,
    figures: &[(&str, u64)],
) -> Result<(), Unheard>
    ensures all { OnOk result (Appends (W.contents writer.old) (W.contents writer.new)
        (concat (map figure_line figures.now))) }
    ensures front { OnErr result (AppendsFront (W.contents writer.old) (W.contents writer.new)
        (concat (map figure_line figures.now))) }
{
    for (word, number) in figures {
        write_number(writer, word, *number)?;
    }
    Ok(())
}

/// Writes a line for each figure of a report, the format first.
fn write_report<W: Write>(writer: &mut W, report: &Report) -> Result<(), Unheard>
    ensures all { OnOk result (Appends (W.contents writer.old) (W.contents writer.new) (report_text report.now)) }
    ensures front { OnErr result (AppendsFront (W.contents writer.old) (W.contents writer.new)
        (report_text report.now)) }
{
    let figures = [
        ("format ", u64::from(report.format.number())),
        ("epoch ", report.epoch),
        ("area ", u64::from(report.area)),
        ("batches ", report.batches),
        ("records ", report.records),
        ("commits ", report.commits),
    ];
    write_figures(writer, &figures)
}

/// The last line of a check.
fn last_line(pages: bool) -> &'static str
    ensures { result.now ≡ pages_text pages }
{
    if pages { "pages ok\n" } else { "" }
}

/// Writes the report of a check.
fn write_check<W: Write>(writer: &mut W, report: &Report, pages: bool) -> Result<(), Unheard>
    ensures all { OnOk result (Appends (W.contents writer.old) (W.contents writer.new)
        (check_text pages report.now)) }
    ensures front { OnErr result (AppendsFront (W.contents writer.old) (W.contents writer.new)
        (check_text pages report.now)) }
{
    write_report(writer, report)?;
    put(writer, last_line(pages).as_bytes())
}

/// Does `check`: reports the format of the device in a file, and what its log holds, and that its pages break no rule
/// if that is asked for. The file is only read.
///
/// Refused by `NoMemory`, by `DeviceFailed` if there is no such file or it cannot be read, by `NotFormatted`, and by
/// `BadFormat` with an offset that breaks the format. Nothing is written then. If the output fails, it has a beginning
/// of the report.
pub fn perform_check<F: Folder, O: Write, R: Clock>(
    alloc: Global,
    patience: &Patience<'_, R>,
    folder: &mut F,
    name: &str,
    pages: bool,
    out: &mut O,
) -> Result<(), Fault>
    ensures checked { OnOk result (HasChecked pages (known_in (F.files folder.old) name.now) (O.contents out.old)
        (O.contents out.new)) }
    ensures unchecked { IfErr result (IsUnchecked pages (known_in (F.files folder.old) name.now)
        (O.contents out.old) (O.contents out.new)) }
    ensures kept { AreKept (F.files folder.old) (F.files folder.new) }
{
    match reported_of_file(alloc, patience, folder, name, pages) {
        Ok(report) => match write_check(out, &report, pages) {
            Ok(()) => Ok(()),
            Err(_) => Err(Fault::Output),
        },
        Err(refusal) => Err(Fault::Refused(refusal)),
    }
}

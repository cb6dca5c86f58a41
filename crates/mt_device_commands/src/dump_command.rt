// `dump`: the base of the device in a file, once it is opened.
ghost use Rattle.std.specs.Prelude.{◌≡◌, ℕ, IfErr, IfOk, OnErr, OnOk};
ghost use Rattle.std.specs.Io.KnownBytes.{Appends};
ghost use Rattle.mt_disk.specs.Disk.{Only};
ghost use Rattle.mt_rows.specs.Rows.{IsOrdered};
ghost use Rattle.mt_model.specs.Views.{rows_of};
ghost use Rattle.mt_restart.specs.Inspected.{ReportsRestored};
ghost use Rattle.mt_script.specs.Answers.{AppendsFront};
ghost use Rattle.mt_device_commands.specs.Dumps.{AreFilesLeft, AreLeftBy, DumpsOf, HasDumped, IsUnsurveyed, IsEarly, IsUndumped, IsUndumpable, StandAs, IsRestarted, dump_text, sizes_text};
ghost use Rattle.mt_folder.specs.Folders.{known_in};

use crate::check_command::write_figures;
use crate::waits::Patience;
use mt_base::Refusal;
use mt_disk::Device;
use mt_explain::{write_counters, write_rows};
use mt_folder::Folder;
use mt_report::Fault;
use mt_restart::open_with_survey;
use mt_script::Unheard;
use mt_txn::Survey;
use std::alloc::Global;
use std::io::Write;
use std::time::Clock;

/// Pages that the kernel keeps in frames: as few as it may, since it is asked for nothing.
const FRAMES: usize = 32;

/// Opens a device, surveys it, and gives it back, whatever came of that.
fn survey_of<D: Device + Drop>(alloc: Global, device: D) -> (Result<Survey, Refusal>, D)
    requires settled { Only (D.seen device) (D.may_leave device) }
    ensures outcome { IfOk result.0 (ReportsRestored (D.seen device)) }
    ensures cause { IfErr result.0 (IsUnsurveyed (D.seen device)) }
    ensures stands { StandAs (D.seen device) (D.seen result.1) }
    ensures early { IfErr result.0 (λ why. IsEarly why → D.seen result.1 ≡ D.seen device) }
{
    match open_with_survey(alloc, device, FRAMES) {
        Ok((kernel, survey)) => (Ok(survey), kernel.into_device()),
        Err((refusal, device)) => (Err(refusal), device),
    }
}

/// Opens the device in the file of this name, and surveys it.
fn survey_of_file<F: Folder, R: Clock>(
    alloc: Global,
    patience: &Patience<'_, R>,
    folder: &mut F,
    name: &str,
) -> Result<Survey, Refusal>
    ensures outcome { IfOk result (DumpsOf (known_in (F.files folder.old) name.now)) }
    ensures cause { IfErr result (IsUndumpable (known_in (F.files folder.old) name.now)) }
    ensures stands { OnOk result (IsRestarted (F.files folder.old) (F.files folder.new) name.now) }
    ensures left { IfErr result (AreFilesLeft (F.files folder.old) (F.files folder.new) name.now) }
{
    let device = patience.device(folder, name)?;
    let surveyed = survey_of(alloc, device);
    let (outcome, device) = surveyed;
    folder.back(name, device);
    outcome
}

/// Writes the lines of a survey's two numbers.
fn write_sizes<W: Write>(writer: &mut W, survey: &Survey) -> Result<(), Unheard>
    ensures all { OnOk result (Appends (W.contents writer.old) (W.contents writer.new) (sizes_text survey.now)) }
    ensures front { OnErr result (AppendsFront (W.contents writer.old) (W.contents writer.new)
        (sizes_text survey.now)) }
{
    let sizes = [
        ("depth ", u64::from(survey.depth)),
        ("free ", u64::from(survey.free)),
    ];
    write_figures(writer, &sizes)
}

/// Writes the lines of a survey.
fn write_dump<W: Write>(writer: &mut W, survey: &Survey) -> Result<(), Unheard>
    ensures all { OnOk result (Appends (W.contents writer.old) (W.contents writer.new) (dump_text survey.now)) }
    ensures front { OnErr result (AppendsFront (W.contents writer.old) (W.contents writer.new)
        (dump_text survey.now)) }
    ensures ordered { OnOk result (IsOrdered (rows_of survey.now.base)) }
{
    write_sizes(writer, survey)?;
    write_rows(writer, survey.base.rows())?;
    write_counters(writer, survey.base.counters())
}

/// Does `dump`: opens the device in a file, as a restart does, and prints its base. The file then represents what it
/// represented. Nothing is written to the output before the device is surveyed.
///
/// Refused for a file that cannot be opened, and as `open` of mt_restart and the survey are. The file then represents
/// what it did, and but for `NoMemory` and `DeviceFailed` each file is as it was. If the output fails, it has a
/// beginning of the lines.
pub fn perform_dump<F: Folder, O: Write, R: Clock>(
    alloc: Global,
    patience: &Patience<'_, R>,
    folder: &mut F,
    name: &str,
    out: &mut O,
) -> Result<(), Fault>
    ensures dumped { OnOk result (HasDumped (known_in (F.files folder.old) name.now) (O.contents out.old)
        (O.contents out.new)) }
    ensures undumped { IfErr result (IsUndumped (known_in (F.files folder.old) name.now) (O.contents out.old)
        (O.contents out.new)) }
    ensures stands { OnOk result (IsRestarted (F.files folder.old) (F.files folder.new) name.now) }
    ensures left { IfErr result (AreLeftBy (F.files folder.old) (F.files folder.new) name.now) }
{
    match survey_of_file(alloc, patience, folder, name) {
        Ok(survey) => match write_dump(out, &survey) {
            Ok(()) => Ok(()),
            Err(_) => Err(Fault::Output),
        },
        Err(refusal) => Err(Fault::Refused(refusal)),
    }
}

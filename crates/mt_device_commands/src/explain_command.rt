// `explain`: the log of the device in a file as a history, by a copy of it.
ghost use Rattle.std.specs.Prelude.{◌≡◌, false, IfErr, IfOk, OnOk};
ghost use Rattle.mt_base.specs.declared.refusal.Refusal.{Refusal};
ghost use Rattle.mt_disk.specs.Disk.{LeavesTheSame};
ghost use Rattle.mt_replay.specs.Refused.{BreaksLog, IsCause};
ghost use Rattle.mt_device_commands.specs.Checks.{IsUnreported};
ghost use Rattle.mt_device_commands.specs.Explains.{HasExplained, IsLogIn, IsLogOf, IsUnexplained, RecountsLog};
ghost use Rattle.mt_folder.specs.Folders.{AreKept, known_in};

use crate::waits::Patience;
use mt_base::Refusal;
use mt_disk::Device;
use mt_explain::{History, history_of, write_history};
use mt_folder::Folder;
use mt_log::{Batch, ruling_slot};
use mt_replay::read_area;
use mt_report::Fault;
use std::alloc::Global;
use std::io::Write;
use std::time::Clock;

/// The log of a device.
fn log_of<D: Device>(alloc: Global, device: &mut D) -> Result<Vec<Batch>, Refusal>
    ensures log { IfOk result (λ batches. IsLogOf (D.seen device.old) batches.items) }
    ensures cause { IfErr result (IsCause BreaksLog (D.seen device.old) (Unit {0})) }
    ensures seen { D.seen device.new ≡ D.seen device.old }
    ensures crash { LeavesTheSame (D.may_leave device.old) (D.may_leave device.new) }
{
    let ruling = ruling_slot(device)?;
    let batches = read_area(alloc, device, &ruling)?;
    Ok(batches)
}

/// The log of the device in the file of this name.
fn log_of_file<F: Folder, R: Clock>(
    alloc: Global,
    patience: &Patience<'_, R>,
    folder: &mut F,
    name: &str,
) -> Result<Vec<Batch>, Refusal>
    ensures log { IfOk result (λ batches. IsLogIn (known_in (F.files folder.old) name.now) batches.items) }
    ensures cause { IfErr result (IsUnreported false (known_in (F.files folder.old) name.now)) }
    ensures kept { AreKept (F.files folder.old) (F.files folder.new) }
{
    let mut device = patience.copy(folder, name)?;
    log_of(alloc, &mut device)
}

/// What the log of the device in the file of this name holds.
fn history_of_file<F: Folder, R: Clock>(
    alloc: Global,
    patience: &Patience<'_, R>,
    folder: &mut F,
    name: &str,
) -> Result<History, Refusal>
    ensures outcome { IfOk result (RecountsLog (known_in (F.files folder.old) name.now)) }
    ensures cause { IfErr result (IsUnreported false (known_in (F.files folder.old) name.now)) }
    ensures kept { AreKept (F.files folder.old) (F.files folder.new) }
{
    let batches = log_of_file(alloc, patience, folder, name)?;
    history_of(alloc, batches)
}

/// Does `explain`: writes a line for each record of the log of the device in a file, and then what a restart would do.
/// The file is only read.
///
/// Refused by `NoMemory`, by `DeviceFailed` if there is no such file or it cannot be read, by `NotFormatted`, and by
/// `BadFormat` with an offset that breaks the log's format. Nothing is written then. If the output fails, it has a
/// beginning of the lines.
pub fn perform_explain<F: Folder, O: Write, R: Clock>(
    alloc: Global,
    patience: &Patience<'_, R>,
    folder: &mut F,
    name: &str,
    out: &mut O,
) -> Result<(), Fault>
    ensures explained { OnOk result (HasExplained (known_in (F.files folder.old) name.now) (O.contents out.old)
        (O.contents out.new)) }
    ensures unexplained { IfErr result (IsUnexplained (known_in (F.files folder.old) name.now)
        (O.contents out.old) (O.contents out.new)) }
    ensures kept { AreKept (F.files folder.old) (F.files folder.new) }
{
    match history_of_file(alloc, patience, folder, name) {
        Ok(history) => match write_history(out, &history) {
            Ok(()) => Ok(()),
            Err(_) => Err(Fault::Output),
        },
        Err(refusal) => Err(Fault::Refused(refusal)),
    }
}

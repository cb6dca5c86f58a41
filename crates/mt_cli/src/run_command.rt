// `run`: scripts, served to the device in a file.
ghost use Rattle.std.specs.Prelude.{◌≡◌, ◌≤◌, ℕ, IfErr, IfOk, None, OnOk, length, map, string_bytes};
ghost use Rattle.mt_base.specs.declared.limits.TheConstants.{MAX_SESSIONS};
ghost use Rattle.mt_disk.specs.Disk.{Only};
ghost use Rattle.mt_model.specs.Model.{Base};
ghost use Rattle.mt_restart.specs.Frames.{IsFrameCount};
ghost use Rattle.mt_restart.specs.Resumed.{IsOpened};
ghost use Rattle.mt_script.specs.Scripts.{lines_in};
ghost use Rattle.mt_cli.specs.Serves.{AreShortOn, AreUnserved, HasNotRun, HasRunScripts, HaveServedOn, IsServedIn, IsUnservedIn, ServesFrom, end_of};

use crate::at_once::serve_file_at_once;
use crate::named_inputs::{are_too_many, scripts_of};
use mt_alone::{RunFault, Stop, run_sessions};
use mt_args::Serving;
use mt_base::Refusal;
use mt_device_commands::Patience;
use mt_disk::Device;
use mt_folder::Folder;
use mt_report::Fault;
use mt_restart::open;
use mt_script::Script;
use mt_shared::Gate;
use mt_txn::Kernel;
use std::alloc::Global;
use std::io::{Read, Write};
use std::sync::Wait;
use std::thread::Threads;
use std::time::Clock;

/// Serves scripts to a kernel that was just opened, and gives its device back.
fn serve_opened<D: Device + Drop, O: Write>(
    alloc: Global,
    kernel: Kernel<D>,
    frames: usize,
    stop: bool,
    scripts: &[Script],
    out: &mut O,
) -> (Result<Option<Stop>, RunFault>, D)
    requires few { length scripts.now ≤ MAX_SESSIONS }
    ensures served { IfOk result.0 (λ stopped. (relations counters : ℕ) (b : Base)
        → IsOpened relations counters b kernel → HaveServedOn stop stopped relations counters b
        (map lines_in scripts.now) (O.contents out.old) (O.contents out.new) (D.seen result.1)) }
    ensures short { IfErr result.0 (λ why. (relations counters : ℕ) (b : Base)
        → IsOpened relations counters b kernel → AreShortOn relations counters b
        (map lines_in scripts.now) (O.contents out.old) (O.contents out.new) (D.seen result.1) why) }
{
    match run_sessions(alloc, kernel, frames, stop, scripts, out) {
        Ok((kernel, stopped)) => (Ok(stopped), kernel.into_device()),
        Err(left) => {
            let (why, device) = left.into_device();
            (Err(why), device)
        }
    }
}

/// How a command ends whose run ended so. A line that stopped it is a fault.
pub(crate) fn ended(ran: Result<Option<Stop>, RunFault>) -> Result<(), Fault>
    ensures { result ≡ end_of ran }
{
    match ran {
        Ok(None) => Ok(()),
        Ok(Some(stop)) => Err(Fault::Stopped(stop)),
        Err(RunFault::Output) => Err(Fault::Output),
        Err(RunFault::Refused(refusal)) => Err(Fault::Refused(refusal)),
    }
}

/// Opens a device and serves scripts to it, and gives it back, whatever came of that.
fn serve_over<D: Device + Drop, O: Write>(
    alloc: Global,
    device: D,
    frames: usize,
    stop: bool,
    scripts: &[Script],
    out: &mut O,
) -> (Result<(), Fault>, D)
    requires frames { IsFrameCount frames }
    requires settled { Only (D.seen device) (D.may_leave device) }
    ensures served { OnOk result.0 (ServesFrom stop None (D.seen device) (map lines_in scripts.now)
        (O.contents out.old) (O.contents out.new) (D.seen result.1)) }
    ensures unserved { IfErr result.0 (AreUnserved stop (D.seen device) (map lines_in scripts.now)
        (O.contents out.old) (O.contents out.new) (D.seen result.1)) }
{
    if are_too_many(scripts) {
        return (Err(Fault::Refused(Refusal::BadLength)), device);
    }
    match open(alloc, device, frames) {
        Ok(kernel) => {
            let (ran, device) = serve_opened(alloc, kernel, frames, stop, scripts, out);
            (ended(ran), device)
        }
        Err((refusal, device)) => (Err(Fault::Refused(refusal)), device),
    }
}

/// Serves these scripts, which were read, to the device in its file, one after the other.
fn serve_file<F: Folder, O: Write, R: Clock>(
    alloc: Global,
    patience: &Patience<'_, R>,
    folder: &mut F,
    serving: &Serving,
    scripts: &[Script],
    out: &mut O,
) -> Result<(), Fault>
    requires frames { IsFrameCount serving.now.frames }
    ensures served { OnOk result (IsServedIn serving.now.stop (F.files folder.old) (F.files folder.new)
        (string_bytes serving.now.file) (map lines_in scripts.now) (O.contents out.old) (O.contents out.new)) }
    ensures unserved { IfErr result (IsUnservedIn serving.now.stop (F.files folder.old) (F.files folder.new)
        (string_bytes serving.now.file) (map lines_in scripts.now) (O.contents out.old) (O.contents out.new)) }
{
    let name = serving.file.as_str();
    let device = match patience.device(folder, name) {
        Ok(device) => device,
        Err(refusal) => return Err(Fault::Refused(refusal)),
    };
    let served = serve_over(alloc, device, serving.frames, serving.stop, scripts, out);
    let (outcome, device) = served;
    folder.back(name, device);
    outcome
}

/// Does `run`: reads all scripts, then opens the device in its file with so many frames, and serves the scripts to it.
/// It serves them one after the other if there is one worker, and else at once. The device is then back in its file,
/// and each other file is as it was. By one worker nothing is written to the output before the device is opened, and
/// by several not before all scripts are served.
///
/// Refused for the first script that is not read, and for a file that cannot be opened. Refused by `BadLength` if
/// there are more than 64 scripts, and for what keeps the device from being opened.
///
/// Further by one worker if a script does not run to its end, by `NoMemory`, `DeviceFailed` or `LogFull`. The file
/// then represents the commits until then, or these and some that were under way. If that worker is to stop at a
/// refusal, and a line is refused with anything but `Escrow` and `Die`, it is a fault with the line's number. The file
/// then represents the commits until then.
///
/// Several workers do not stop at a refusal. By several it is refused if the device failed meanwhile, by
/// `DeviceFailed`, after the transcripts. If `serve` of mt_server is refused, the device is dropped: what its file
/// has is not known.
pub(crate) fn perform_run<
    F: Folder,
    I: Read,
    O: Write,
    G: Gate + Drop + Send + Sync,
    R: Threads + Wait + Clock + Sync,
>(
    rt: &R,
    alloc: Global,
    patience: &Patience<'_, R>,
    folder: &mut F,
    serving: &Serving,
    input: &mut I,
    out: &mut O,
    gate: G,
) -> Result<(), Fault>
    requires frames { IsFrameCount serving.now.frames }
    ensures ran { OnOk result (HasRunScripts serving.now.stop serving.now.workers
        (F.files folder.old) (F.files folder.new) (string_bytes serving.now.file)
        (map string_bytes serving.now.scripts.items) (I.remaining input.old)
        (O.contents out.old) (O.contents out.new)) }
    ensures not_run { IfErr result (HasNotRun serving.now.stop serving.now.workers
        (F.files folder.old) (F.files folder.new) (string_bytes serving.now.file)
        (map string_bytes serving.now.scripts.items) (I.remaining input.old)
        (O.contents out.old) (O.contents out.new)) }
{
    let names = serving.scripts.as_slice();
    let scripts = match scripts_of(alloc, folder, names, input) {
        Ok(scripts) => scripts,
        Err(fault) => return Err(fault),
    };
    if serving.workers > 1 {
        return serve_file_at_once(rt, alloc, patience, folder, serving, scripts, out, gate);
    }
    serve_file(alloc, patience, folder, serving, scripts.as_slice(), out)
}

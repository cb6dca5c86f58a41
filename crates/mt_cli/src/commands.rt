// The commands, done.
ghost use Rattle.std.specs.Prelude.{◌≡◌, ◌≢◌, ◌≤◌, IfOk, IfErr, IfSome, IsOk, MatchResult, None, codes, OnOk, OnErr, length, map, option_map, string_bytes};
ghost use Rattle.mt_disk.specs.Memory.{content};
ghost use Rattle.mt_script.specs.Answers.{AppendsFront};
ghost use Rattle.mt_args.specs.CommandLines.{IsMistaken};
ghost use Rattle.mt_folder.specs.Folders.{AreKept, IsUnmade};
ghost use Rattle.mt_report.specs.declared.faults.Fault.{Fault};
ghost use Rattle.mt_cli.specs.Performs.{IsFirstSchema, StandsFirst, HasTried, HaveRun, IsTrial, IsScheduled, IsCutTrial, IsUntried, IsUnscheduled, IsDone, IsUndone, HasFrameCount, IsWordsDone, IsGivenUp, IsWordsGivenUp, IsReported, IsWordsReported, Around};
ghost use Rattle.mt_report.specs.Advice.{IsReportedOf};
ghost use Rattle.mt_cli.specs.Reads.{source_of};
ghost use Rattle.std.specs.Io.KnownBytes.{Appends, Keeps};
ghost use Rattle.mt_cli.specs.declared.commands.TheConstants.{AREA_MIB, PAGES};
ghost use Rattle.mt_base.specs.Limits.{device_bytes_of};
ghost use Rattle.mt_script.specs.Scripts.{lines_in};

use crate::named_inputs::lines_of;
use crate::run_command::{ended, perform_run};
use mt_alone::run_script;
use mt_args::{CliFault, Command, command_of};
use mt_base::Refusal;
use mt_base::limits::device_bytes;
use mt_device_commands::{
    Patience, perform_check, perform_dump, perform_explain, perform_format, perform_migrate,
};
use mt_disk::{Device, MemDevice};
use mt_folder::{Folder, Reason};
use mt_report::{Fault, ScheduleGrammar, report_fault, report_unread, write_all_reported};
use mt_restart::{Schema, fresh};
use mt_script::{Script, ScriptGrammar, put};
use mt_shared::Gate;
use mt_txn::Kernel;
use mt_world::{Event, run_schedule};
use std::alloc::Global;
use std::io::{Read, Write};
use std::sync::Wait;
use std::thread::Threads;
use std::time::Clock;

/// The status of a command that was done; refusals within a transcript count as done, unless one is to stop it.
const DONE: u8 = 0;

/// The status of a command that was refused, or whose output could not be written.
const REFUSED: u8 = 1;

/// The status of a command line that names no command.
const MISUSED: u8 = 2;

/// Pages of the device that `try` runs on.
const PAGES: u16 = 64;

/// MiB of each of its two log areas.
const AREA_MIB: u8 = 4;

/// Its relations.
const RELATIONS: u16 = 2;

/// Low, high and start of its counters.
const COUNTERS: [(i64, i64, i64); 1] = [(0, 10, 5)];

/// Pages that its kernel keeps in frames: all of them.
const FRAMES: usize = 64;

/// Writes without a sync that its device has room for, and the bytes in them. A format writes each page, and the log.
const WRITES: usize = 80;

const WRITTEN_BYTES: usize = 8_400_000;

/// The schema that `try` runs on.
fn first_schema(alloc: Global) -> Result<Schema, Refusal>
    ensures first { IfOk result IsFirstSchema }
    ensures unmade { IfErr result IsUnmade }
{
    Schema::new(alloc, PAGES, AREA_MIB, RELATIONS, &COUNTERS)
}

/// A device in memory of the size that `try` runs on, all of its bytes 0.
fn first_device(alloc: Global) -> Result<MemDevice, Refusal>
    ensures size { IfOk result (λ device. length (content device) ≡ device_bytes_of PAGES AREA_MIB) }
    ensures unmade { IfErr result IsUnmade }
{
    let len = device_bytes(PAGES, AREA_MIB) as usize;
    let bytes = vec![in alloc; 0u8; len]?;
    Ok(MemDevice::new(alloc, bytes, WRITES, WRITTEN_BYTES)?)
}

/// A kernel with the schema that `try` has, over a device that is formatted for it, with nothing committed.
fn kernel_over<D: Device + Drop>(alloc: Global, device: D) -> Result<Kernel<D>, Refusal>
    requires { device_bytes_of PAGES AREA_MIB ≤ length (D.seen device) }
    ensures first { IfOk result (StandsFirst) }
    ensures unmade { IfErr result IsUnmade }
{
    let schema = first_schema(alloc)?;
    match fresh(alloc, device, &schema, FRAMES) {
        Ok(kernel) => Ok(kernel),
        Err((refusal, _device)) => Err(refusal),
    }
}

/// Runs a script over a device, and writes its transcript.
fn run_over<D: Device + Drop, O: Write>(
    alloc: Global,
    device: D,
    stop: bool,
    script: &Script,
    out: &mut O,
) -> Result<(), Fault>
    requires { device_bytes_of PAGES AREA_MIB ≤ length (D.seen device) }
    ensures tried { OnOk result (HasTried D.Device stop None (lines_in script.now)
        (O.contents out.old) (O.contents out.new)) }
    ensures cut { IfErr result (IsCutTrial D.Device stop (lines_in script.now)
        (O.contents out.old) (O.contents out.new)) }
{
    let kernel = match kernel_over(alloc, device) {
        Ok(kernel) => kernel,
        Err(refusal) => return Err(Fault::Refused(refusal)),
    };
    match run_script(alloc, kernel, FRAMES, 1, stop, script, out) {
        Ok((kernel, stopped)) => {
            let _device = kernel.into_device();
            ended(Ok(stopped))
        }
        Err(left) => {
            let (why, _device) = left.into_device();
            ended(Err(why))
        }
    }
}

/// Runs a script over a device in memory, and writes its transcript.
fn try_script<O: Write>(
    alloc: Global,
    stop: bool,
    script: &Script,
    out: &mut O,
) -> Result<(), Fault>
    ensures tried { OnOk result (HasTried ⟦<MemDevice as Device>⟧ stop None (lines_in script.now)
        (O.contents out.old) (O.contents out.new)) }
    ensures cut { IfErr result (IsCutTrial ⟦<MemDevice as Device>⟧ stop (lines_in script.now)
        (O.contents out.old) (O.contents out.new)) }
{
    match first_device(alloc) {
        Ok(device) => run_over(alloc, device, stop, script, out),
        Err(refusal) => Err(Fault::Refused(refusal)),
    }
}

/// Does `try`: reads the whole script, and then runs it.
fn perform_try<F: Folder, I: Read, O: Write>(
    alloc: Global,
    folder: &mut F,
    name: Option<&str>,
    stop: bool,
    input: &mut I,
    out: &mut O,
) -> Result<(), Fault>
    ensures tried { OnOk result (IsTrial ⟦<MemDevice as Device>⟧ stop
        (source_of (F.files folder.old) (option_map (λ n. n.now) name.entry) (I.remaining input.old))
        (O.contents out.old) (O.contents out.new)) }
    ensures untried { IfErr result (IsUntried ⟦<MemDevice as Device>⟧ stop
        (source_of (F.files folder.old) (option_map (λ n. n.now) name.entry) (I.remaining input.old))
        (O.contents out.old) (O.contents out.new)) }
    ensures kept { AreKept (F.files folder.old) (F.files folder.new) }
{
    match lines_of::<ScriptGrammar, F, I>(alloc, folder, name, input) {
        Ok(lines) => try_script(alloc, stop, &Script::new(lines), out),
        Err(why) => Err(Fault::Unread(why, 0)),
    }
}

/// Runs events over a device, and gives an answer of each.
fn answers_over<D: Device + Drop>(
    alloc: Global,
    device: D,
    events: &[Event],
) -> Result<Vec<mt_world::Answer>, Refusal>
    requires { device_bytes_of PAGES AREA_MIB ≤ length (D.seen device) }
    ensures ran { IfOk result (λ answers. HaveRun D.Device events.now answers.items) }
    ensures unmade { IfErr result IsUnmade }
{
    let schema = first_schema(alloc)?;
    match run_schedule(alloc, device, &schema, events) {
        Ok((standing, answers)) => {
            let _device = standing.into_device();
            Ok(answers)
        }
        Err((refusal, _device)) => Err(refusal),
    }
}

/// Runs events over a device in memory, and gives an answer of each.
fn answers_of(alloc: Global, events: &[Event]) -> Result<Vec<mt_world::Answer>, Refusal>
    ensures ran { IfOk result (λ answers. HaveRun ⟦<MemDevice as Device>⟧ events.now answers.items) }
    ensures unmade { IfErr result IsUnmade }
{
    let device = first_device(alloc)?;
    answers_over(alloc, device, events)
}

/// Does `schedule`: reads the whole schedule, runs it, and then writes the answers.
fn perform_schedule<F: Folder, I: Read, O: Write>(
    alloc: Global,
    folder: &mut F,
    name: Option<&str>,
    input: &mut I,
    out: &mut O,
) -> Result<(), Fault>
    ensures scheduled { OnOk result (IsScheduled ⟦<MemDevice as Device>⟧
        (source_of (F.files folder.old) (option_map (λ n. n.now) name.entry) (I.remaining input.old))
        (O.contents out.old) (O.contents out.new)) }
    ensures unscheduled { IfErr result (IsUnscheduled ⟦<MemDevice as Device>⟧
        (source_of (F.files folder.old) (option_map (λ n. n.now) name.entry) (I.remaining input.old))
        (O.contents out.old) (O.contents out.new)) }
    ensures kept { AreKept (F.files folder.old) (F.files folder.new) }
{
    let events = match lines_of::<ScheduleGrammar, F, I>(alloc, folder, name, input) {
        Ok(events) => events,
        Err(why) => return Err(Fault::Unscheduled(why)),
    };
    match answers_of(alloc, events.as_slice()) {
        Ok(answers) => match write_all_reported(out, answers.as_slice()) {
            Ok(()) => Ok(()),
            Err(_) => Err(Fault::Output),
        },
        Err(refusal) => Err(Fault::Refused(refusal)),
    }
}

/// Flushes the output after a command, and answers the status. The reason is why the folder's call failed.
fn finish<O: Write, E: Write>(
    command: &Command,
    reason: &Option<Reason>,
    done: Result<(), Fault>,
    out: &mut O,
    err: &mut E,
) -> u8
    ensures kept { Keeps (O.contents out.old) (O.contents out.new) }
    ensures done { result ≡ 0 → IsOk done × (err.new ≡ err.old) }
    ensures status { result ≢ 0 → result ≡ 1 }
    ensures outcome { result ≢ 0 → MatchResult done
        (λ _. IsReportedOf command.now reason.now Fault.Output (E.contents err.old) (E.contents err.new))
        (λ fault. IsReportedOf command.now reason.now fault (E.contents err.old) (E.contents err.new)) }
{
    let flushed = out.flush();
    let fault = match done {
        Ok(()) if flushed.is_ok() => return DONE,
        Ok(()) => Fault::Output,
        Err(fault) => fault,
    };
    report_fault(err, command, reason, &fault);
    REFUSED
}

/// Writes the help or the version.
fn show<O: Write>(text: &str, out: &mut O) -> Result<(), Fault>
    ensures shown { OnOk result (Appends (O.contents out.old) (O.contents out.new) text.now) }
    ensures front { OnErr result (AppendsFront (O.contents out.old) (O.contents out.new) text.now) }
    ensures fault { IfErr result (λ fault. fault ≡ Fault.Output) }
{
    match put(out, text.as_bytes()) {
        Ok(()) => Ok(()),
        Err(_) => Err(Fault::Output),
    }
}

/// The name that a command has, if it has one.
fn name_of(name: &Option<String>) -> Option<&str>
    ensures { option_map (λ n. n.now) result ≡ option_map string_bytes name.now }
{
    match name {
        Some(name) => Some(name.as_str()),
        None => None,
    }
}

/// Does a command.
fn do_command<
    F: Folder,
    I: Read,
    O: Write,
    G: Gate + Drop + Send + Sync,
    R: Threads + Wait + Clock + Sync,
>(
    rt: &R,
    alloc: Global,
    command: &Command,
    folder: &mut F,
    input: &mut I,
    out: &mut O,
    gate: G,
) -> Result<(), Fault>
    requires frames { HasFrameCount command.now }
    ensures done { OnOk result (IsDone ⟦<MemDevice as Device>⟧ command.now
        (record { before = F.files folder.old; after = F.files folder.new; input = I.remaining input.old })
        (O.contents out.old) (O.contents out.new)) }
    ensures undone { IfErr result (IsUndone ⟦<MemDevice as Device>⟧ command.now
        (record { before = F.files folder.old; after = F.files folder.new; input = I.remaining input.old })
        (O.contents out.old) (O.contents out.new)) }
{
    let patience = Patience::of(rt, command);
    match command {
        Command::Try { script, stop } => {
            perform_try(alloc, folder, name_of(script), *stop, input, out)
        }
        Command::Schedule { file } => perform_schedule(alloc, folder, name_of(file), input, out),
        Command::Check { file, pages, .. } => {
            perform_check(alloc, &patience, folder, file.as_str(), *pages, out)
        }
        Command::Format { file, numbers, .. } => {
            perform_format(alloc, &patience, folder, file.as_str(), numbers)
        }
        Command::Dump { file, .. } => perform_dump(alloc, &patience, folder, file.as_str(), out),
        Command::Explain { file, .. } => {
            perform_explain(alloc, &patience, folder, file.as_str(), out)
        }
        Command::Migrate { file, growth, .. } => {
            perform_migrate(alloc, &patience, folder, file.as_str(), growth)
        }
        Command::Run { serving, .. } => {
            perform_run(rt, alloc, &patience, folder, serving, input, out, gate)
        }
        Command::Show { text } => show(text.as_str(), out),
    }
}

/// Does a command, and answers the status of the program:
///
/// - 0: it was done. Refusals within a transcript count as done, unless the command is to stop at one.
/// - 1: it was refused, or `out` could not be written. The refusal's text is on `err`, with the file that it is about
/// in a line after it, and what to do or why the folder's call failed. An input that cannot be read, and a file that
/// is not there or cannot be read, is refusal 2.
///
/// A script or a schedule is read whole before any of it runs, and all scripts of `run` before the first of them runs.
/// A device is only read by `check` and `explain`, and if `format` is refused each file is as it was. A device that is
/// opened by `dump` is written to, and represents what it represented. One that `migrate` carries over represents it
/// with the counters more. `run` serves one script after the other if it has one worker, and else all at once, by
/// threads; it may wait then. It gives the device back to its file, but if serving by several workers is refused: what
/// the file has is not stated then. Each other file is as it was. By one worker `run`, and `try`, stop at a refused
/// line if they are to: at the first that is not refused with `Escrow` or `Die`.
///
/// The gate is called at the points of sessions served at once that it wants to see.
pub fn perform<
    F: Folder,
    I: Read,
    O: Write,
    E: Write,
    G: Gate + Drop + Send + Sync,
    R: Threads + Wait + Clock + Sync,
>(
    rt: &R,
    alloc: Global,
    command: &Command,
    folder: &mut F,
    input: &mut I,
    out: &mut O,
    err: &mut E,
    gate: G,
) -> u8
    requires frames { HasFrameCount command.now }
    ensures done { result ≡ 0 → IsDone ⟦<MemDevice as Device>⟧ command.now
        (record { before = F.files folder.old; after = F.files folder.new; input = I.remaining input.old })
        (O.contents out.old) (O.contents out.new) × (err.new ≡ err.old) }
    ensures outcome { result ≢ 0 → (result ≡ 1) × IsReported (E.contents err.old) (E.contents err.new) }
    ensures given_up { result ≢ 0 → IsGivenUp ⟦<MemDevice as Device>⟧ command.now (F.why folder.new)
        (record { before = F.files folder.old; after = F.files folder.new; input = I.remaining input.old })
        (O.contents out.old) (O.contents out.new) (E.contents err.old) (E.contents err.new) }
{
    let done = do_command(rt, alloc, command, folder, input, out, gate);
    finish(command, &folder.reason(), done, out, err)
}

/// Does the command that these words name, those after the program's name, and answers the status. That is the
/// status of [`perform`], or 2 with what is wrong on `err` if they name none.
pub fn perform_words<
    F: Folder,
    I: Read,
    O: Write,
    E: Write,
    G: Gate + Drop + Send + Sync,
    R: Threads + Wait + Clock + Sync,
>(
    rt: &R,
    alloc: Global,
    words: &[&str],
    folder: &mut F,
    input: &mut I,
    out: &mut O,
    err: &mut E,
    gate: G,
) -> u8
    ensures status { result ≤ 2 }
    ensures done { result ≡ 0 → IsWordsDone ⟦<MemDevice as Device>⟧ (map (λ word. word.now) words.now)
        (record { before = F.files folder.old; after = F.files folder.new; input = I.remaining input.old })
        (O.contents out.old) (O.contents out.new) }
    ensures outcome { result ≡ 1 → IsWordsReported (E.contents err.old) (E.contents err.new) }
    ensures given_up { result ≡ 1 → IsWordsGivenUp ⟦<MemDevice as Device>⟧ (map (λ word. word.now) words.now)
        (F.why folder.new)
        (record { before = F.files folder.old; after = F.files folder.new; input = I.remaining input.old })
        (O.contents out.old) (O.contents out.new) (E.contents err.old) (E.contents err.new) }
    ensures misused { result ≡ 2 → IsMistaken (map (λ word. word.now) words.now) × (out.new ≡ out.old)
        × (folder.new ≡ folder.old) }
{
    match command_of(alloc, words) {
        Ok(command) => perform(rt, alloc, &command, folder, input, out, err, gate),
        Err(CliFault::Usage(text)) => {
            let _ = put(err, text.as_str().as_bytes());
            MISUSED
        }
        // for want of memory alone
        Err(CliFault::Refused(_)) => {
            report_unread(err);
            REFUSED
        }
    }
}

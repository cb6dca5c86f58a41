// `run` by several workers: scripts, served at once to the device in a file.
ghost use Rattle.std.specs.Prelude.{◌≡◌, ℕ, IfErr, IfOk, List, OnErr, OnOk, false, length, map, string_bytes};
ghost use Rattle.std.specs.Io.KnownBytes.{Appends};
ghost use Rattle.mt_restart.specs.Frames.{IsFrameCount};
ghost use Rattle.mt_script.specs.Answers.{AppendsFront};
ghost use Rattle.mt_script.specs.declared.lines.Line.{Line};
ghost use Rattle.mt_server.specs.Heard.{AreAllReported};
ghost use Rattle.mt_server.specs.Serves.{IsServedOn, IsUnserved};
ghost use Rattle.mt_script.specs.Scripts.{lines_in};
ghost use Rattle.mt_txn.specs.Shown.{is_failed};
ghost use Rattle.mt_txn.specs.Turned.{HasNobody};
ghost use Rattle.mt_txn.specs.Words.{kernel_book};
ghost use Rattle.mt_cli.specs.Serves.{AreServedAtOnce, IsEndOf, IsServedAtOnce, IsUnservedAtOnce, session_text, texts_in_order};

use crate::named_inputs::are_too_many;
use mt_alone::write_session;
use mt_args::Serving;
use mt_base::Refusal;
use mt_device_commands::Patience;
use mt_disk::Device;
use mt_folder::Folder;
use mt_report::Fault;
use mt_script::{Script, Unheard, put};
use mt_server::{Served, Transcript, serve};
use mt_shared::Gate;
use mt_txn::Kernel;
use std::alloc::Global;
use std::io::Write;
use std::sync::Wait;
use std::thread::Threads;
use std::time::Clock;

/// What scripts that were served at once leave: their transcripts, the device, and whether it failed meanwhile.
struct Behind<D: Device> {
    transcripts: Vec<Transcript>,
    device: D,
    has_failed: bool,
}

/// Whether a kernel's device has failed, or a transaction is still open in it, as one is only then.
fn is_cut_off<D: Device>(kernel: &Kernel<D>) -> bool
    ensures { result ≡ false → HasNobody kernel.now × (is_failed kernel.now ≡ false) }
{
    kernel.has_failed() || !kernel.has_nobody()
}

/// Takes the device out of a kernel under all sessions.
fn left_behind<D: Device + Drop>(kernel: Kernel<D>, transcripts: Vec<Transcript>) -> Behind<D>
    ensures { (c : List ℕ) (scripts : List (List Line)) → IsServedOn c kernel
        → AreAllReported (is_failed kernel) scripts transcripts.items (kernel_book kernel)
        → AreServedAtOnce result.has_failed c scripts result.transcripts.items (D.seen result.device) }
{
    let has_failed = is_cut_off(&kernel);
    Behind {
        transcripts,
        device: kernel.into_device(),
        has_failed,
    }
}

/// Serves scripts to a device by several workers, and takes the device back.
fn serve_over_at_once<
    D: Device + Drop + Send,
    G: Gate + Drop + Send + Sync,
    R: Threads + Wait + Sync,
>(
    rt: &R,
    alloc: Global,
    device: D,
    frames: usize,
    scripts: Vec<Script>,
    workers: usize,
    gate: G,
) -> Result<Behind<D>, Refusal>
    requires frames { IsFrameCount frames }
    ensures served { IfOk result (λ b. AreServedAtOnce b.has_failed (D.seen device) (map lines_in scripts.items)
        b.transcripts.items (D.seen b.device)) }
    ensures refused { IfErr result (IsUnserved (D.seen device) (length scripts.items)) }
{
    let Served {
        kernel,
        transcripts,
    } = serve(rt, alloc, device, frames, scripts, workers, gate)?;
    Ok(left_behind(kernel, transcripts))
}

/// Writes a transcript after the line of its session. If the writer fails, it has written a beginning of them.
fn write_transcript<W: Write>(
    writer: &mut W,
    session: u64,
    transcript: &Transcript,
) -> Result<(), Unheard>
    ensures all { OnOk result (Appends (W.contents writer.old) (W.contents writer.new)
        (session_text session transcript.now)) }
    ensures front { OnErr result (AppendsFront (W.contents writer.old) (W.contents writer.new)
        (session_text session transcript.now)) }
{
    write_session(writer, session)?;
    put(writer, transcript.as_bytes())
}

/// Writes transcripts in order, as sessions from 1 on. If the writer fails, it has written a beginning of them.
fn write_sessions<W: Write>(writer: &mut W, transcripts: &[Transcript]) -> Result<(), Unheard>
    ensures all { OnOk result (Appends (W.contents writer.old) (W.contents writer.new)
        (texts_in_order transcripts.now)) }
    ensures front { OnErr result (AppendsFront (W.contents writer.old) (W.contents writer.new)
        (texts_in_order transcripts.now)) }
{
    for (place, transcript) in transcripts.iter().enumerate() {
        write_transcript(writer, place as u64 + 1, transcript)?;
    }
    Ok(())
}

/// Writes the transcripts of scripts that were served, and answers how the command ends. It ends by the device's
/// failure, if it failed meanwhile, and else by that of the output, if that failed.
fn report_sessions<O: Write>(
    out: &mut O,
    transcripts: &[Transcript],
    has_failed: bool,
) -> Result<(), Fault>
    ensures outcome { OnOk result ((has_failed ≡ false)
        × Appends (O.contents out.old) (O.contents out.new) (texts_in_order transcripts.now)) }
    ensures front { OnErr result (AppendsFront (O.contents out.old) (O.contents out.new)
        (texts_in_order transcripts.now)) }
    ensures why { IfErr result (IsEndOf has_failed) }
{
    let outcome = write_sessions(out, transcripts);
    if has_failed {
        return Err(Fault::Refused(Refusal::DeviceFailed));
    }
    match outcome {
        Ok(()) => Ok(()),
        Err(_) => Err(Fault::Output),
    }
}

/// Serves these scripts, which were read, by several workers to the device in its file, and writes their transcripts.
/// The gate is called at what it wants to see meanwhile.
pub(crate) fn serve_file_at_once<
    F: Folder,
    O: Write,
    G: Gate + Drop + Send + Sync,
    R: Threads + Wait + Clock + Sync,
>(
    rt: &R,
    alloc: Global,
    patience: &Patience<'_, R>,
    folder: &mut F,
    serving: &Serving,
    scripts: Vec<Script>,
    out: &mut O,
    gate: G,
) -> Result<(), Fault>
    requires frames { IsFrameCount serving.now.frames }
    ensures served { OnOk result (IsServedAtOnce (F.files folder.old) (F.files folder.new)
        (string_bytes serving.now.file) (map lines_in scripts.items) (O.contents out.old) (O.contents out.new)) }
    ensures unserved { IfErr result (IsUnservedAtOnce (F.files folder.old) (F.files folder.new)
        (string_bytes serving.now.file) (map lines_in scripts.items) (O.contents out.old) (O.contents out.new)) }
{
    let name = serving.file.as_str();
    let device = match patience.device(folder, name) {
        Ok(device) => device,
        Err(refusal) => return Err(Fault::Refused(refusal)),
    };
    if are_too_many(&scripts) {
        folder.back(name, device);
        return Err(Fault::Refused(Refusal::BadLength));
    }
    match serve_over_at_once(
        rt,
        alloc,
        device,
        serving.frames,
        scripts,
        serving.workers,
        gate,
    ) {
        Ok(behind) => {
            let Behind {
                transcripts,
                device,
                has_failed,
            } = behind;
            folder.back(name, device);
            report_sessions(out, transcripts.as_slice(), has_failed)
        }
        Err(refusal) => Err(Fault::Refused(refusal)),
    }
}

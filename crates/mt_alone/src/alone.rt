// A script, run by itself on a kernel.
ghost use Rattle.std.specs.Prelude.{◌≡◌, [], ◌∷◌, ◌++◌, IfOk, IfErr, OnErr, OnOk, None, Some, false};
ghost use Rattle.std.specs.Io.KnownBytes.{Appends};
ghost use Rattle.mt_base.specs.declared.refusal.Refusal.{Refusal};
ghost use Rattle.mt_txn.specs.Shown.{SameSchema, StaysRestarting};
ghost use Rattle.mt_script.specs.Answers.{AppendsFront, answer_text};
ghost use Rattle.mt_alone.specs.Driven.{IsBeside};
ghost use Rattle.mt_alone.specs.Plays.{Play};
ghost use Rattle.mt_alone.specs.Runs.{BesideEach, HasRun, HasRunLines, IsCutAtEnd, IsCutShort, IsEnded, IsEndedFor, IsLeftFor, IsStopped};
ghost use Rattle.mt_script.specs.Scripts.{lines_in};

use crate::stops::ending;
use crate::turns::{answer, undo_open};
use mt_base::{Refusal, TxnNo};
use mt_disk::Device;
use mt_script::{Answer, Line, Script, Unheard, write_answer};
use mt_txn::Kernel;
use std::io::Write;
use thiserror::Error;

/// Why a script did not run to its end.
#[derive(Debug, Drop, Error)]
pub enum RunFault {
    /// The writer failed, at a write or a flush. What was written is a beginning of the transcript, and the transaction
    /// that lived is aborted, unless the device had failed.
    #[error("the output cannot be written")]
    Output,
    /// `NoMemory`, if a step found no memory, or no frame, when it was asked nine times. The transaction stands as
    /// it was then. Or `DeviceFailed`, which is the transcript's last line.
    #[error("{0}")]
    Refused(Refusal),
}

/// Writes an answer with its line's end, after which this transaction is open. Unless there is one, the writer is
/// flushed: so the lines of a transaction go out at its end. If the writer fails, it has written a beginning of them.
fn report<W: Write>(writer: &mut W, answer: &Answer, live: Option<TxnNo>) -> Result<(), Unheard>
    ensures all { OnOk result (Appends (W.contents writer.old) (W.contents writer.new)
        (answer_text answer.now ++ 10 ∷ [])) }
    ensures front { OnErr result (AppendsFront (W.contents writer.old) (W.contents writer.new)
        (answer_text answer.now ++ 10 ∷ [])) }
{
    write_answer(writer, answer)?;
    if live.is_some() {
        return Ok(());
    }
    match writer.flush() {
        Ok(()) => Ok(()),
        Err(_) => Err(Unheard),
    }
}

/// Aborts the transaction that is open after a failed write, and answers how the run ends.
fn end_unheard<D: Device>(kernel: &mut Kernel<D>, live: Option<TxnNo>) -> RunFault
    ensures left { (p : Play) → IsBeside p live kernel.old
        → IsLeftFor p kernel.new result }
    ensures schema { SameSchema kernel.old kernel.new }
    ensures restarts { StaysRestarting kernel.old kernel.new }
{
    let Some(txn) = live else {
        return RunFault::Output;
    };
    match undo_open(kernel, txn) {
        Ok(()) => RunFault::Output,
        Err(refusal) => RunFault::Refused(refusal),
    }
}

/// Writes that the device failed, and answers how the run ends.
fn end_failed<W: Write>(writer: &mut W) -> RunFault
    ensures { IsStopped (W.contents writer.old) (W.contents writer.new) Refusal.DeviceFailed result }
{
    match report(writer, &Answer::Refused(Refusal::DeviceFailed), None) {
        Ok(()) => RunFault::Refused(Refusal::DeviceFailed),
        Err(_) => RunFault::Output,
    }
}

/// Answers how the run ends after a step that was refused. That the device failed is written.
pub(crate) fn end_refused<W: Write>(writer: &mut W, refusal: Refusal) -> RunFault
    ensures { IsStopped (W.contents writer.old) (W.contents writer.new) refusal result }
{
    match refusal {
        Refusal::DeviceFailed => end_failed(writer),
        _ => RunFault::Refused(refusal),
    }
}

/// The transaction that is open after a line, and the refusal for which the run is to stop there.
pub(crate) type After = (Option<TxnNo>, Option<Refusal>);

/// Answers one line, and writes the answer. The run is to stop at a refusal, or not.
pub(crate) fn run_line<D: Device, W: Write>(
    kernel: &mut Kernel<D>,
    session: u32,
    stop: bool,
    live: Option<TxnNo>,
    line: &Line,
    writer: &mut W,
) -> Result<After, RunFault>
    ensures outcome { IfOk result (λ now. BesideEach session live kernel.old
        (λ p. HasRunLines stop now.1 p kernel.old (line.now ∷ [])
        (W.contents writer.old) (W.contents writer.new) now.0 kernel.new)) }
    ensures cut { IfErr result (λ why. BesideEach session live kernel.old
        (λ p. IsCutShort p kernel.old (line.now ∷ [])
        (W.contents writer.old) (W.contents writer.new) kernel.new why)) }
    ensures schema { SameSchema kernel.old kernel.new }
    ensures restarts { StaysRestarting kernel.old kernel.new }
{
    let outcome = match answer(kernel, session, live, line) {
        Ok(outcome) => outcome,
        Err(refusal) => return Err(end_refused(writer, refusal)),
    };
    let why = ending(stop, &outcome.0);
    match report(writer, &outcome.0, outcome.1) {
        Ok(()) => Ok((outcome.1, why)),
        Err(_) => Err(end_unheard(kernel, outcome.1)),
    }
}

/// Runs the lines of a script, and answers the transaction that is open after the last.
fn run_lines<D: Device, W: Write>(
    kernel: &mut Kernel<D>,
    session: u32,
    lines: &[Line],
    writer: &mut W,
) -> Result<Option<TxnNo>, RunFault>
    ensures ran { IfOk result (λ live. BesideEach session None kernel.old
        (λ p. HasRunLines false None p kernel.old lines.now
        (W.contents writer.old) (W.contents writer.new) live kernel.new)) }
    ensures cut { IfErr result (λ why. BesideEach session None kernel.old
        (λ p. IsCutShort p kernel.old lines.now
        (W.contents writer.old) (W.contents writer.new) kernel.new why)) }
    ensures schema { SameSchema kernel.old kernel.new }
    ensures restarts { StaysRestarting kernel.old kernel.new }
{
    let mut live = None;
    for line in lines {
        let now = run_line(kernel, session, false, live, line, writer)?;
        live = now.0;
    }
    Ok(live)
}

/// Aborts the transaction that is open at the script's end, and writes that.
pub(crate) fn end_live<D: Device, W: Write>(
    kernel: &mut Kernel<D>,
    txn: TxnNo,
    writer: &mut W,
) -> Result<(), RunFault>
    ensures ended { OnOk result ((p : Play) → IsBeside p (Some txn) kernel.old
        → IsEnded p (W.contents writer.old) (W.contents writer.new) kernel.new) }
    ensures cut { IfErr result (λ why. (p : Play) → IsBeside p (Some txn) kernel.old
        → IsCutAtEnd p (W.contents writer.old) (W.contents writer.new) kernel.new why) }
    ensures schema { SameSchema kernel.old kernel.new }
    ensures restarts { StaysRestarting kernel.old kernel.new }
{
    if let Err(refusal) = undo_open(kernel, txn) {
        return Err(end_refused(writer, refusal));
    }
    match report(writer, &Answer::Aborted, None) {
        Ok(()) => Ok(()),
        Err(_) => Err(RunFault::Output),
    }
}

/// Runs a script by itself on a kernel in which no transaction is active, and writes the answer of each line. A
/// transaction that is open at the script's end is aborted, with the line `aborted`.
///
/// The writer is flushed after each line after which no transaction is open, and so once a commit is durable and before
/// the next line. What is answered within a transaction may wait in it until then, and after refusal 1 from then on.
///
/// A step that finds no memory is asked again, up to eight times; for one that finds no frame a page is flushed
/// before that. After `Output` a beginning of the transcript is written and the transaction that lived is aborted,
/// unless the device had failed. After refusal 1 it stands as it was. Refusal 2 is the last line, and the device has
/// failed. There is no other refusal.
///
/// What is promised holds beside whatever play of the model the kernel stands at. None is active there, and its book
/// and the base that this leaves are the model's.
pub fn run_alone<D: Device, W: Write>(
    kernel: &mut Kernel<D>,
    session: u32,
    script: &Script,
    writer: &mut W,
) -> Result<(), RunFault>
    ensures ran { OnOk result (BesideEach session None kernel.old
        (λ p. HasRun false None p kernel.old (lines_in script.now)
        (W.contents writer.old) (W.contents writer.new) kernel.new)) }
    ensures cut { IfErr result (λ why. BesideEach session None kernel.old
        (λ p. IsCutShort p kernel.old (lines_in script.now)
        (W.contents writer.old) (W.contents writer.new) kernel.new why)) }
    ensures why { IfErr result (λ why. BesideEach session None kernel.old
        (λ p. IsEndedFor kernel.new why)) }
    ensures schema { SameSchema kernel.old kernel.new }
    // A kernel that can be restarted from a base still can.
    ensures restarts { StaysRestarting kernel.old kernel.new }
{
    match run_lines(kernel, session, script.lines(), writer)? {
        Some(txn) => end_live(kernel, txn, writer),
        None => Ok(()),
    }
}

// What the kernel answers to the lines of a script.
ghost use Rattle.std.specs.Prelude.{◌≡◌, None, Some};
ghost use Rattle.mt_txn.specs.Shown.{SameSchema, StaysRestarting};
ghost use Rattle.mt_alone.specs.Driven.{HasAborted};
ghost use Rattle.mt_alone.specs.Runs.{Answers, AnswersWithin, refused_as};
ghost use Rattle.mt_script.specs.declared.lines.Line.TheVariants as line;

use crate::forces::force_commit;
use crate::operation_steps::{step_to_reply, undo};
use crate::returns::go_back;
use mt_base::{Refusal, TxnNo};
use mt_disk::Device;
use mt_model::Op;
use mt_script::{Answer, Line};
use mt_txn::{Called, Kernel};

/// An answer, and the transaction that is open then; or the refusal for which the line is given up.
pub(crate) type Turn = Result<(Answer, Option<TxnNo>), Refusal>;

/// What a refusal comes to: an answer, unless the device has failed.
fn refused(refusal: Refusal, live: Option<TxnNo>) -> Turn
    ensures { result ≡ refused_as refusal live }
{
    match refusal {
        Refusal::DeviceFailed => Err(refusal),
        _ => Ok((Answer::Refused(refusal), live)),
    }
}

/// Begins a transaction.
pub(crate) fn begin<D: Device>(kernel: &mut Kernel<D>, session: u32) -> Turn
    ensures answers { Answers session kernel.old None line.Begin result kernel.new }
    ensures schema { SameSchema kernel.old kernel.new }
    ensures restarts { StaysRestarting kernel.old kernel.new }
{
    match kernel.begin(session) {
        Ok(txn) => Ok((Answer::Begun, Some(txn))),
        Err(refusal) => refused(refusal, None),
    }
}

/// Makes one operation in a transaction.
pub(crate) fn call<D: Device>(kernel: &mut Kernel<D>, txn: TxnNo, op: &Op) -> Turn
    ensures answers { AnswersWithin kernel.old txn (line.Call op.now) result kernel.new }
    ensures schema { SameSchema kernel.old kernel.new }
    ensures restarts { StaysRestarting kernel.old kernel.new }
{
    match kernel.call(txn, op) {
        Ok(Called::Started) => {
            let reply = step_to_reply(kernel, txn)?;
            Ok((Answer::Replied(reply), Some(txn)))
        }
        Ok(Called::Wait(_)) => Err(Refusal::Busy),
        Err(refusal) => refused(refusal, Some(txn)),
    }
}

/// Says how many operations of a transaction count.
pub(crate) fn save<D: Device>(kernel: &mut Kernel<D>, txn: TxnNo) -> Turn
    ensures answers { AnswersWithin kernel.old txn line.Save result kernel.new }
    ensures schema { SameSchema kernel.old kernel.new }
    ensures restarts { StaysRestarting kernel.old kernel.new }
{
    match kernel.save(txn) {
        Ok(count) => Ok((Answer::Saved(count), Some(txn))),
        Err(refusal) => refused(refusal, Some(txn)),
    }
}

/// Goes back to where the first so many operations of a transaction had ended, of those that count.
pub(crate) fn back<D: Device>(kernel: &mut Kernel<D>, txn: TxnNo, first: u16) -> Turn
    ensures answers { AnswersWithin kernel.old txn (line.Back first) result kernel.new }
    ensures schema { SameSchema kernel.old kernel.new }
    ensures restarts { StaysRestarting kernel.old kernel.new }
{
    match kernel.back_begin(txn, first) {
        Ok(()) => {
            go_back(kernel, txn)?;
            Ok((Answer::Back(first), Some(txn)))
        }
        Err(refusal) => refused(refusal, Some(txn)),
    }
}

/// Commits a transaction.
pub(crate) fn commit<D: Device>(kernel: &mut Kernel<D>, txn: TxnNo) -> Turn
    ensures answers { AnswersWithin kernel.old txn line.Commit result kernel.new }
    ensures schema { SameSchema kernel.old kernel.new }
    ensures restarts { StaysRestarting kernel.old kernel.new }
{
    match kernel.commit_begin(txn) {
        Ok(place) => {
            force_commit(kernel, txn)?;
            Ok((Answer::Committed(place), None))
        }
        Err(refusal) => refused(refusal, Some(txn)),
    }
}

/// Aborts a transaction, from its first step to its last.
pub(crate) fn undo_open<D: Device>(kernel: &mut Kernel<D>, txn: TxnNo) -> Result<(), Refusal>
    ensures aborted { HasAborted kernel.old txn result kernel.new }
    ensures schema { SameSchema kernel.old kernel.new }
    ensures restarts { StaysRestarting kernel.old kernel.new }
{
    kernel.abort_begin(txn)?;
    undo(kernel, txn)
}

/// Aborts a transaction, if a line asks for it.
pub(crate) fn abort<D: Device>(kernel: &mut Kernel<D>, txn: TxnNo) -> Turn
    ensures answers { AnswersWithin kernel.old txn line.Abort result kernel.new }
    ensures schema { SameSchema kernel.old kernel.new }
    ensures restarts { StaysRestarting kernel.old kernel.new }
{
    undo_open(kernel, txn)?;
    Ok((Answer::Aborted, None))
}

/// The answer to a line if no transaction is open.
fn answer_outside<D: Device>(kernel: &mut Kernel<D>, session: u32, line: &Line) -> Turn
    ensures answers { Answers session kernel.old None line.now result kernel.new }
    ensures schema { SameSchema kernel.old kernel.new }
    ensures restarts { StaysRestarting kernel.old kernel.new }
{
    match line {
        Line::Begin => begin(kernel, session),
        Line::Call(_) | Line::Save | Line::Back(_) | Line::Commit | Line::Abort => {
            refused(Refusal::Stranger, None)
        }
    }
}

/// The answer to a line within a transaction.
fn answer_within<D: Device>(kernel: &mut Kernel<D>, txn: TxnNo, line: &Line) -> Turn
    ensures answers { AnswersWithin kernel.old txn line.now result kernel.new }
    ensures schema { SameSchema kernel.old kernel.new }
    ensures restarts { StaysRestarting kernel.old kernel.new }
{
    match line {
        Line::Begin => refused(Refusal::Busy, Some(txn)),
        Line::Call(op) => call(kernel, txn, op),
        Line::Save => save(kernel, txn),
        Line::Back(first) => back(kernel, txn, *first),
        Line::Commit => commit(kernel, txn),
        Line::Abort => abort(kernel, txn),
    }
}

/// The answer to a line, and the transaction that is open then.
pub(crate) fn answer<D: Device>(
    kernel: &mut Kernel<D>,
    session: u32,
    live: Option<TxnNo>,
    line: &Line,
) -> Turn
    ensures answers { Answers session kernel.old live line.now result kernel.new }
    ensures schema { SameSchema kernel.old kernel.new }
    ensures restarts { StaysRestarting kernel.old kernel.new }
{
    match live {
        None => answer_outside(kernel, session, line),
        Some(txn) => answer_within(kernel, txn, line),
    }
}

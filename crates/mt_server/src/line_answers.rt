// What a shared kernel answers to the lines of a transaction.
ghost use Rattle.std.specs.Prelude.{◌≡◌, ◌≢◌, ◌++◌, ◌∷◌, [], false, ℕ, List, IfErr, IfOk, None, OnOk};
ghost use Rattle.mt_base.specs.declared.refusal.Refusal.{Refusal};
ghost use Rattle.mt_model.specs.History.{Call};
ghost use Rattle.mt_model.specs.declared.operations.Op.{Op};
ghost use Rattle.mt_model.specs.declared.operations.Reply.{Reply};
ghost use Rattle.mt_script.specs.Answers.{transcript_text};
ghost use Rattle.mt_script.specs.declared.answers.Answer.TheVariants as answer;
ghost use Rattle.mt_script.specs.declared.lines.Line.TheVariants as line;
ghost use Rattle.mt_server.specs.Hearing.{IsStopped, Reporting, Turning};
ghost use Rattle.mt_txn.specs.Causes.{IsCallRefusal};
ghost use Rattle.mt_server.specs.declared.line_answers.Halt.TheVariants as halt;

use mt_base::Refusal;
use mt_disk::Device;
use mt_model::Op;
use mt_script::{Answer, Line, write_answer, write_reply};
use mt_shared::{Gate, Hold, Naming, Pass, Refused, Txn};
use std::sync::Wait;

/// Why a session goes on no further in its transaction.
#[derive(Clone, Copy, PartialEq, Eq, Debug)]
pub enum Halt {
    /// The transaction died, and was taken back. Its line is not answered.
    Died,
    /// The device failed. That is the last answer.
    Failed,
    /// An answer found no memory. The transaction was taken back, if it had not ended.
    Unheard,
}

/// Writes an answer. There may be no memory for it.
fn report(out: &mut Vec<u8>, answer: &Answer) -> Result<(), Halt>
    ensures ok { OnOk result (out.new.items ≡ out.old.items ++ transcript_text (answer.now ∷ [])) }
    ensures err { IfErr result (λ outcome. outcome ≡ halt.Unheard) }
{
    match write_answer(out, answer) {
        Ok(()) => Ok(()),
        Err(_) => Err(Halt::Unheard),
    }
}

/// Writes that a transaction has begun, as [`report`].
pub(crate) fn report_begun(out: &mut Vec<u8>) -> Result<(), Halt>
    ensures ok { OnOk result (out.new.items ≡ out.old.items ++ transcript_text (answer.Begun ∷ [])) }
    ensures err { IfErr result (λ outcome. outcome ≡ halt.Unheard) }
{
    report(out, &Answer::Begun)
}

/// Writes a refusal, as [`report`].
pub(crate) fn refuse(out: &mut Vec<u8>, why: Refusal) -> Result<(), Halt>
    ensures ok { OnOk result (out.new.items ≡ out.old.items ++ transcript_text (answer.Refused why ∷ [])) }
    ensures err { IfErr result (λ outcome. outcome ≡ halt.Unheard) }
{
    report(out, &Answer::Refused(why))
}

/// Writes that a transaction was taken back, as [`report`].
pub(crate) fn report_aborted(out: &mut Vec<u8>) -> Result<(), Halt>
    ensures ok { OnOk result (out.new.items ≡ out.old.items ++ transcript_text (answer.Aborted ∷ [])) }
    ensures err { IfErr result (λ outcome. outcome ≡ halt.Unheard) }
{
    report(out, &Answer::Aborted)
}

/// Writes the position of a commit, as [`report`].
fn report_committed(out: &mut Vec<u8>, place: u64) -> Result<(), Halt>
    ensures ok { OnOk result (out.new.items ≡ out.old.items ++ transcript_text (answer.Committed place ∷ [])) }
    ensures err { IfErr result (λ outcome. outcome ≡ halt.Unheard) }
{
    report(out, &Answer::Committed(place))
}

/// Writes that the device failed, as the last answer.
pub(crate) fn fail(out: &mut Vec<u8>) -> Halt
    ensures stops { (pass : _) → IsStopped pass out.old.items out.new.items pass result }
    ensures lives { result ≢ halt.Died }
{
    match refuse(out, Refusal::DeviceFailed) {
        Ok(()) => Halt::Failed,
        Err(_) => Halt::Unheard,
    }
}

/// Takes a transaction back, and answers whether the device let it.
pub(crate) fn take_back<D: Device, G: Gate + Drop, J: Naming, R: Wait>(
    rt: &R,
    hold: &mut Hold<'_, D, G, J>,
    pass: &mut Pass<J>,
    txn: Txn<J>,
) -> bool
    ensures { pass.new ≡ pass.old }
{
    let mut kept = txn;
    'turns: for _ in rt.forever() {
        match hold.abort(rt, pass, kept) {
            Ok(()) => return true,
            Err(Refused { why: _, txn: None }) => return false,
            Err(
                Refused {
                    why: _,
                    txn: Some(back),
                },
            ) => kept = back,
        }
    }
    unreachable!()
}

/// Ends a transaction within which the device failed. That is the last answer.
fn failed<D: Device, G: Gate + Drop, J: Naming, R: Wait>(
    rt: &R,
    hold: &mut Hold<'_, D, G, J>,
    pass: &mut Pass<J>,
    txn: Txn<J>,
    out: &mut Vec<u8>,
) -> Halt
    ensures stops { IsStopped pass.old out.old.items out.new.items pass.new result }
    ensures lives { result ≢ halt.Died }
{
    take_back(rt, hold, pass, txn);
    fail(out)
}

/// Answers a line without the lock, and the transaction goes on. If there is no memory for that, it is taken back.
fn answered<D: Device, G: Gate + Drop, J: Naming, R: Wait>(
    rt: &R,
    hold: &mut Hold<'_, D, G, J>,
    pass: &mut Pass<J>,
    txn: Txn<J>,
    answer: &Answer,
    out: &mut Vec<u8>,
) -> Result<Option<Txn<J>>, Halt>
    ensures reports { Reporting txn pass.old out.old.items out.new.items pass.new answer.now result }
    ensures lives { IfErr result (λ outcome. outcome ≢ halt.Died) }
{
    // a line that is no operation is not counted in the hold
    hold.give_back();
    match report(out, answer) {
        Ok(()) => Ok(Some(txn)),
        Err(stop) => {
            take_back(rt, hold, pass, txn);
            Err(stop)
        }
    }
}

/// Refuses a line, as [`answered`].
fn refused<D: Device, G: Gate + Drop, J: Naming, R: Wait>(
    rt: &R,
    hold: &mut Hold<'_, D, G, J>,
    pass: &mut Pass<J>,
    txn: Txn<J>,
    why: Refusal,
    out: &mut Vec<u8>,
) -> Result<Option<Txn<J>>, Halt>
    ensures reports { Reporting txn pass.old out.old.items out.new.items pass.new (answer.Refused why) result }
    ensures lives { IfErr result (λ outcome. outcome ≢ halt.Died) }
{
    answered(rt, hold, pass, txn, &Answer::Refused(why), out)
}

/// Answers a line by the last reply, and the transaction goes on.
fn replied<D: Device, G: Gate + Drop, J: Naming, R: Wait>(
    rt: &R,
    hold: &mut Hold<'_, D, G, J>,
    pass: &mut Pass<J>,
    txn: Txn<J>,
    out: &mut Vec<u8>,
) -> Result<Option<Txn<J>>, Halt>
    requires one { (calls : List Call) × (op : Op) × (reply : Reply)
        × (txn.done.calls ≡ calls ++ (op, reply) ∷ []) }
    ensures reports { (calls : List Call) (op : Op) (reply : Reply) → txn.done.calls ≡ calls ++ (op, reply) ∷ []
        → Reporting txn pass.old out.old.items out.new.items pass.new (answer.Replied reply) result }
    ensures lives { IfErr result (λ outcome. outcome ≢ halt.Died) }
{
    let calls = txn.calls();
    match write_reply(out, &calls[calls.len() - 1].1) {
        Ok(()) => Ok(Some(txn)),
        Err(_) => {
            take_back(rt, hold, pass, txn);
            Err(Halt::Unheard)
        }
    }
}

/// Ends a transaction that died: it is taken back. If it may not be run again, that is the answer.
fn died<D: Device, G: Gate + Drop, J: Naming, R: Wait>(
    rt: &R,
    hold: &mut Hold<'_, D, G, J>,
    pass: &mut Pass<J>,
    txn: Txn<J>,
    why: Refusal,
    may_die: bool,
    out: &mut Vec<u8>,
) -> Result<Option<Txn<J>>, Halt>
    requires own { txn.pass ≡ pass.old.number }
    requires dies { (holder : ℕ) × (why ≡ Refusal.Die holder) }
    ensures turns { (op : Op) → Turning J.base txn pass.old (line.Call op) out.old.items out.new.items pass.new result }
    ensures lives { may_die ≡ false → IfErr result (λ outcome. outcome ≢ halt.Died) }
{
    if !take_back(rt, hold, pass, txn) {
        return Err(fail(out));
    }
    if may_die {
        return Err(Halt::Died);
    }
    refuse(out, why)?;
    Ok(None)
}

/// Answers an operation that was refused. Its transaction goes on, unless it died or the device failed.
fn stopped<D: Device, G: Gate + Drop, J: Naming, R: Wait>(
    rt: &R,
    hold: &mut Hold<'_, D, G, J>,
    pass: &mut Pass<J>,
    txn: Txn<J>,
    why: Refusal,
    may_die: bool,
    out: &mut Vec<u8>,
) -> Result<Option<Txn<J>>, Halt>
    requires own { txn.pass ≡ pass.old.number }
    ensures turns { (op : Op) → IsCallRefusal op why
        → Turning J.base txn pass.old (line.Call op) out.old.items out.new.items pass.new result }
    ensures lives { may_die ≡ false → IfErr result (λ outcome. outcome ≢ halt.Died) }
    // Only an older holder in its way makes it die.
    ensures dies { IfErr result (λ outcome. outcome ≡ halt.Died → (holder : ℕ) × (why ≡ Refusal.Die holder)) }
    ensures ends { IfOk result (λ token. token ≡ None → (holder : ℕ) × (why ≡ Refusal.Die holder)) }
{
    match why {
        Refusal::Die(_) => died(rt, hold, pass, txn, why, may_die, out),
        Refusal::DeviceFailed => Err(failed(rt, hold, pass, txn, out)),
        _ => refused(rt, hold, pass, txn, why, out),
    }
}

/// Runs an operation to its end, and answers its reply.
fn call<D: Device, G: Gate + Drop, J: Naming, R: Wait>(
    rt: &R,
    hold: &mut Hold<'_, D, G, J>,
    pass: &mut Pass<J>,
    txn: Txn<J>,
    op: &Op,
    may_die: bool,
    out: &mut Vec<u8>,
) -> Result<Option<Txn<J>>, Halt>
    requires own { txn.pass ≡ pass.old.number }
    ensures turns { Turning J.base txn pass.old (line.Call op.now) out.old.items out.new.items pass.new result }
    ensures lives { may_die ≡ false → IfErr result (λ outcome. outcome ≢ halt.Died) }
{
    let Ok(copy) = op.try_clone() else {
        return refused(rt, hold, pass, txn, Refusal::NoMemory, out);
    };
    let mut kept = txn;
    match hold.run(rt, &mut kept, copy) {
        Ok(()) => replied(rt, hold, pass, kept, out),
        Err(why) => stopped(rt, hold, pass, kept, why, may_die, out),
    }
}

/// Answers how many operations of a transaction count.
fn save<D: Device, G: Gate + Drop, J: Naming, R: Wait>(
    rt: &R,
    hold: &mut Hold<'_, D, G, J>,
    pass: &mut Pass<J>,
    txn: Txn<J>,
    out: &mut Vec<u8>,
) -> Result<Option<Txn<J>>, Halt>
    requires own { txn.pass ≡ pass.old.number }
    ensures turns { Turning J.base txn pass.old line.Save out.old.items out.new.items pass.new result }
    ensures lives { IfErr result (λ outcome. outcome ≢ halt.Died) }
{
    let count = txn.answered();
    answered(rt, hold, pass, txn, &Answer::Saved(count), out)
}

/// Goes back to the first so many operations of a transaction that count, and answers that.
fn back<D: Device, G: Gate + Drop, J: Naming, R: Wait>(
    rt: &R,
    hold: &mut Hold<'_, D, G, J>,
    pass: &mut Pass<J>,
    txn: Txn<J>,
    first: u16,
    out: &mut Vec<u8>,
) -> Result<Option<Txn<J>>, Halt>
    requires own { txn.pass ≡ pass.old.number }
    ensures turns { Turning J.base txn pass.old (line.Back first) out.old.items out.new.items pass.new result }
    ensures lives { IfErr result (λ outcome. outcome ≢ halt.Died) }
{
    let mut kept = txn;
    match hold.back(rt, &mut kept, first) {
        Ok(()) => answered(rt, hold, pass, kept, &Answer::Back(first), out),
        Err(why) => match why {
            Refusal::DeviceFailed => Err(failed(rt, hold, pass, kept, out)),
            _ => refused(rt, hold, pass, kept, why, out),
        },
    }
}

/// Commits a transaction, and answers its position.
fn commit<D: Device, G: Gate + Drop, J: Naming, R: Wait>(
    rt: &R,
    hold: &mut Hold<'_, D, G, J>,
    pass: &mut Pass<J>,
    txn: Txn<J>,
    out: &mut Vec<u8>,
) -> Result<Option<Txn<J>>, Halt>
    requires own { txn.pass ≡ pass.old.number }
    ensures turns { Turning J.base txn pass.old line.Commit out.old.items out.new.items pass.new result }
    ensures lives { IfErr result (λ outcome. outcome ≢ halt.Died) }
{
    match hold.commit(rt, pass, txn) {
        Ok(place) => {
            report_committed(out, place)?;
            Ok(None)
        }
        Err(Refused { why, txn: back }) => match back {
            Some(back) => refused(rt, hold, pass, back, why, out),
            None => Err(fail(out)),
        },
    }
}

/// Takes a transaction back if its script asks for it.
fn abort<D: Device, G: Gate + Drop, J: Naming, R: Wait>(
    rt: &R,
    hold: &mut Hold<'_, D, G, J>,
    pass: &mut Pass<J>,
    txn: Txn<J>,
    out: &mut Vec<u8>,
) -> Result<Option<Txn<J>>, Halt>
    requires own { txn.pass ≡ pass.old.number }
    ensures turns { Turning J.base txn pass.old line.Abort out.old.items out.new.items pass.new result }
    ensures lives { IfErr result (λ outcome. outcome ≢ halt.Died) }
{
    if !take_back(rt, hold, pass, txn) {
        return Err(fail(out));
    }
    report_aborted(out)?;
    Ok(None)
}

/// Answers a line within a transaction. Gives its token back, unless it has ended.
///
/// If the transaction dies, its line is answered so only if it may not die to be run again.
pub(crate) fn answer_line<D: Device, G: Gate + Drop, J: Naming, R: Wait>(
    rt: &R,
    hold: &mut Hold<'_, D, G, J>,
    pass: &mut Pass<J>,
    txn: Txn<J>,
    line: &Line,
    may_die: bool,
    out: &mut Vec<u8>,
) -> Result<Option<Txn<J>>, Halt>
    requires own { txn.pass ≡ pass.old.number }
    ensures turns { Turning J.base txn pass.old line.now out.old.items out.new.items pass.new result }
    ensures lives { may_die ≡ false → IfErr result (λ outcome. outcome ≢ halt.Died) }
{
    match line {
        Line::Begin => refused(rt, hold, pass, txn, Refusal::Busy, out),
        Line::Call(op) => call(rt, hold, pass, txn, op, may_die, out),
        Line::Save => save(rt, hold, pass, txn, out),
        Line::Back(first) => back(rt, hold, pass, txn, *first, out),
        Line::Commit => commit(rt, hold, pass, txn, out),
        Line::Abort => abort(rt, hold, pass, txn, out),
    }
}

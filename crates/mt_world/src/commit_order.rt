// The commits that events have begun, read off the events and their answers.
ghost use Rattle.std.specs.Prelude.{◌≡◌, ◌∷◌, ◌++◌, [], Some, None, length, map, IfErr, IfOk, IsTrue, MatchOption, OnOk};
ghost use Rattle.std.specs.Option.{option_to_list};
ghost use Rattle.mt_base.specs.declared.refusal.Refusal.{Refusal};
ghost use Rattle.mt_inverse.specs.Steps.{IsWithinSteps};
ghost use Rattle.mt_model.specs.Backwards.{call_back as back, calls_back};
ghost use Rattle.mt_world.specs.Heard.{reported_by};
ghost use Rattle.mt_world.specs.Reported.{acknowledged, begun_by, commit_of, commit_order, gone_back, named, started_by, with_answer, reported_of, with_reply};

use crate::events::{Answer, Event};
use mt_base::limits::step_fits;
use mt_base::{Refusal, TxnNo};
use mt_inverse::call_back;
use mt_model::{Calls, Committed, Op, Reply};
use mt_txn::{AbortStepped, Called, KernelForced, Stepped};
use std::alloc::{AllocError, Global};

// What a transaction was answered: whose it is, what it has called last, and the operations that it had a reply to.
#[derive(Drop)]
struct Heard {
    session: u32,
    started: Option<Op>,
    // with the inverses of those that it took back
    calls: Calls,
    // those that count
    counting: Vec<(Op, Reply)>,
    // how many it was last to go back to
    first: u16,
}

// A transaction of this session that was answered nothing yet.
fn heard_nothing(alloc: Global, session: u32) -> Heard
    ensures { reported_by result ≡ begun_by session }
{
    Heard {
        session,
        started: None,
        calls: Calls::new(Vec::new(alloc)),
        counting: Vec::new(alloc),
        first: 0,
    }
}

// Hears that an operation has started.
fn hear_start(heard: &mut Heard, op: &Op) -> Result<(), AllocError>
    ensures { OnOk result (reported_by heard.new ≡ record (reported_by heard.old) { started = Some op.now }) }
{
    let copy = op.try_clone()?;
    heard.started = Some(copy);
    Ok(())
}

// Hears the reply to what has started.
fn hear_reply(heard: &mut Heard, reply: &Reply) -> Result<(), AllocError>
    ensures { OnOk result (reported_by heard.new ≡ with_reply (reported_by heard.old) reply.now) }
{
    match heard.started.take() {
        Some(op) => {
            let copy = (op.try_clone()?, reply.try_clone()?);
            heard.counting.push(copy)?;
            heard.calls.push(op, reply.try_clone()?)
        }
        None => Ok(()),
    }
}

// Whether the opposite of an add's step is a step too.
fn is_within_steps(op: &Op) -> bool
    ensures { IsTrue result → IsWithinSteps op.now }
{
    match op {
        Op::Add(_, step) => step_fits(*step),
        _ => true,
    }
}

// Puts the inverse of a call after others, if it has one.
fn push_back(calls: &mut Calls, op: &Op, reply: &Reply) -> Result<(), AllocError>
    ensures { OnOk result (calls.new ≡ calls.old ++ option_to_list (back (op.now, reply.now))) }
{
    // No kernel starts an add of another step. These answers may be none of a kernel's, so it is looked at.
    if !is_within_steps(op) {
        return Err(AllocError);
    }
    match call_back(op, reply)? {
        Some((inverse, found)) => calls.push(inverse, found),
        None => Ok(()),
    }
}

// Puts the inverses of these calls after others, that of the last call first.
fn push_all_back(calls: &mut Calls, taken: &[(Op, Reply)]) -> Result<(), AllocError>
    ensures { OnOk result (calls.new ≡ calls.old ++ calls_back taken.now) }
{
    let mut i = taken.len();
    while i > 0 {
        i -= 1;
        push_back(calls, &taken[i].0, &taken[i].1)?;
    }
    Ok(())
}

// Hears that the transaction has gone back.
fn hear_return(heard: &mut Heard) -> Result<(), AllocError>
    ensures { OnOk result (reported_by heard.new ≡ gone_back (reported_by heard.old)) }
{
    let first = usize::from(heard.first);
    if first < heard.counting.len() {
        push_all_back(&mut heard.calls, &heard.counting[first..])?;
        heard.counting.truncate(first);
    }
    Ok(())
}

// Hears what one more event with its answer says of a transaction.
fn hear(
    alloc: Global,
    heard: &mut Heard,
    txn: TxnNo,
    event: &Event,
    answer: &Answer,
) -> Result<(), AllocError>
    ensures { OnOk result (reported_by heard.new ≡ with_answer txn (reported_by heard.old) event.now answer.now) }
{
    match (event, answer) {
        (Event::Begin(session), Answer::Begun(own)) => {
            if txn == *own {
                *heard = heard_nothing(alloc, *session);
            }
            Ok(())
        }
        (Event::Call(own, op), Answer::Called(Called::Started)) => {
            if txn == *own {
                return hear_start(heard, op);
            }
            Ok(())
        }
        (Event::Step(own), Answer::Stepped(Stepped::Replied(reply))) => {
            if txn == *own {
                return hear_reply(heard, reply);
            }
            Ok(())
        }
        (Event::Back(own, first), Answer::Returning) => {
            if txn == *own {
                heard.first = *first;
            }
            Ok(())
        }
        (Event::BackStep(own), Answer::Returned(AbortStepped::Ended)) => {
            if txn == *own {
                return hear_return(heard);
            }
            Ok(())
        }
        _ => Ok(()),
    }
}

// What the events and their answers say of a transaction, as of one that commits. The only refusal is want of memory.
fn commit_reported(
    alloc: Global,
    events: &[Event],
    answers: &[Answer],
    txn: TxnNo,
) -> Result<Committed, Refusal>
    requires same { length answers.now ≡ length events.now }
    ensures outcome { IfOk result (λ outcome. outcome ≡ commit_of (reported_of events.now answers.now txn)) }
    ensures only_memory { IfErr result (λ why. why ≡ Refusal.NoMemory) }
{
    let mut heard = heard_nothing(alloc, 0);
    for i in 0..events.len() {
        hear(alloc, &mut heard, txn, &events[i], &answers[i])?;
    }
    let Heard { session, calls, .. } = heard;
    Ok(Committed { session, calls })
}

// The transaction whose commit an event begins, if it does.
fn starts(event: &Event, answer: &Answer) -> Option<TxnNo>
    ensures { MatchOption result (started_by event.now answer.now ≡ []) (λ txn.
        started_by event.now answer.now ≡ txn ∷ []) }
{
    match (event, answer) {
        (Event::Commit(txn), Answer::Committing(_)) => Some(*txn),
        _ => None,
    }
}

// Puts the commit that an event begins after the others, if it begins one.
fn add_started(
    alloc: Global,
    all: &mut Vec<Committed>,
    events: &[Event],
    answers: &[Answer],
    event: &Event,
    answer: &Answer,
) -> Result<(), Refusal>
    requires same { length answers.now ≡ length events.now }
    ensures added { OnOk result (all.new.items ≡ all.old.items
        ++ map (λ t. commit_of (reported_of events.now answers.now t)) (started_by event.now answer.now)) }
    ensures only_memory { IfErr result (λ why. why ≡ Refusal.NoMemory) }
{
    if let Some(txn) = starts(event, answer) {
        let outcome = commit_reported(alloc, events, answers, txn)?;
        all.push(outcome)?;
    }
    Ok(())
}

/// The commits that have begun, in the order in which they did: each session's, with the operations that it had a
/// reply to, and the inverses of those that it took back. The only refusal is want of memory.
pub(crate) fn commits_reported(
    alloc: Global,
    events: &[Event],
    answers: &[Answer],
) -> Result<Vec<Committed>, Refusal>
    requires same { length answers.now ≡ length events.now }
    ensures outcome { IfOk result (λ all. all.items ≡ commit_order events.now answers.now) }
    ensures only_memory { IfErr result (λ why. why ≡ Refusal.NoMemory) }
{
    let mut all = Vec::new(alloc);
    for i in 0..events.len() {
        add_started(alloc, &mut all, events, answers, &events[i], &answers[i])?;
    }
    Ok(all)
}

// Puts the transactions whose commits an answer acknowledges after the others.
fn add_named(all: &mut Vec<TxnNo>, answer: &Answer) -> Result<(), AllocError>
    ensures { OnOk result (all.new.items ≡ all.old.items ++ named answer.now) }
{
    if let Answer::Forced(KernelForced::Durable(names)) = answer {
        all.extend_from_slice(names.as_slice())?;
    }
    Ok(())
}

/// The transactions whose commits were acknowledged, in the order in which they were. The only refusal is want of
/// memory.
pub(crate) fn acknowledged_in(alloc: Global, answers: &[Answer]) -> Result<Vec<TxnNo>, Refusal>
    ensures names { IfOk result (λ all. all.items ≡ acknowledged answers.now) }
    ensures only_memory { IfErr result (λ why. why ≡ Refusal.NoMemory) }
{
    let mut all = Vec::new(alloc);
    for answer in answers {
        add_named(&mut all, answer)?;
    }
    Ok(all)
}

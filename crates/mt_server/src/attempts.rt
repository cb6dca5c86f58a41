// A transaction of a session over a shared kernel, from its begin to its end.
ghost use Rattle.std.specs.Prelude.{◌≡◌, ◌≢◌, ◌+◌, ◌<◌, ◌^◌, ◌∷◌, false, ℕ, List, IfErr, length};
ghost use Rattle.mt_model.specs.History.{Call};
ghost use Rattle.mt_model.specs.declared.tables.Base.{Base};
ghost use Rattle.mt_script.specs.declared.lines.Line.{Line};
ghost use Rattle.mt_script.specs.declared.lines.Line.TheVariants as line;
ghost use Rattle.mt_locked.specs.Tokens.{open_calls};
ghost use Rattle.mt_server.specs.Hearing.{AreFew, Ending, Running, and_begin, between, within};
ghost use Rattle.mt_server.specs.declared.line_answers.Halt.TheVariants as halt;
ghost use Rattle.mt_locked.specs.Refusals.{IsBeginRefusal};
ghost use Rattle.mt_locked.specs.Seen.{PassSeen};

use crate::line_answers::{
    Halt, answer_line, fail, refuse, report_aborted, report_begun, take_back,
};
use mt_base::Refusal;
use mt_disk::Device;
use mt_script::Line;
use mt_shared::{Gate, Hold, Naming, Pass, Txn};
use std::alloc::Global;
use std::sync::Wait;
use std::thread;

/// How often a transaction is run that dies.
pub(crate) const RUNS: u32 = 100;

/// How far a transaction has come.
#[derive(Clone, Copy, PartialEq, Eq, Debug)]
pub enum Progress {
    /// It has ended, and so many lines are answered, its begin among them.
    Ended(usize),
    /// It was open at the script's end, and was taken back.
    AtEnd,
}

/// Takes back what is open at the script's end, and writes that.
fn end<D: Device, G: Gate + Drop, J: Naming, R: Wait>(
    rt: &R,
    hold: &mut Hold<'_, D, G, J>,
    pass: &mut Pass<J>,
    txn: Txn<J>,
    out: &mut Vec<u8>,
) -> Result<Progress, Halt>
    ensures { Ending pass.old out.old.items out.new.items pass.new result }
{
    if !take_back(rt, hold, pass, txn) {
        return Err(fail(out));
    }
    report_aborted(out)?;
    Ok(Progress::AtEnd)
}

/// Answers the lines after a begin until the transaction has ended. The begin is not counted.
fn go_on<D: Device, G: Gate + Drop, J: Naming, R: Wait>(
    rt: &R,
    hold: &mut Hold<'_, D, G, J>,
    pass: &mut Pass<J>,
    txn: Txn<J>,
    lines: &[Line],
    may_die: bool,
    out: &mut Vec<u8>,
) -> Result<Progress, Halt>
    requires own { txn.pass ≡ pass.old.number }
    ensures runs { (booked : List (ℕ × List Call)) → Running J.base txn.done.session
        (within booked (open_calls txn) pass.old) lines.now out.old.items out.new.items pass.new result }
    ensures lives { may_die ≡ false → IfErr result (λ outcome. outcome ≢ halt.Died) }
{
    let mut kept = txn;
    let mut count = 0;
    for line in lines {
        count += 1;
        match answer_line(rt, hold, pass, kept, line, may_die, out)? {
            Some(back) => kept = back,
            None => return Ok(Progress::Ended(count)),
        }
    }
    end(rt, hold, pass, kept, out)
}

/// Counts the begin among the lines that were answered.
fn and_begin(outcome: Result<Progress, Halt>) -> Result<Progress, Halt>
    requires few { AreFew outcome }
    ensures { result ≡ and_begin outcome }
{
    match outcome {
        Ok(Progress::Ended(count)) => Ok(Progress::Ended(count + 1)),
        Ok(Progress::AtEnd) => Ok(Progress::AtEnd),
        Err(why) => Err(why),
    }
}

/// Answers a begin that was refused. The session goes on after it, unless the device failed.
fn unbegun(out: &mut Vec<u8>, why: Refusal) -> Result<Progress, Halt>
    requires { IsBeginRefusal why }
    ensures runs { (b : Base) (session : ℕ) (booked : List (ℕ × List Call)) (pass : PassSeen) (lines : List Line)
        → Running b session (between booked pass) (line.Begin ∷ lines) out.old.items out.new.items pass result }
    ensures lives { IfErr result (λ outcome. outcome ≢ halt.Died) }
    ensures fails { IfErr result (λ outcome. outcome ≡ halt.Failed → why ≡ Refusal.DeviceFailed) }
{
    match why {
        Refusal::DeviceFailed => Err(fail(out)),
        _ => {
            refuse(out, why)?;
            Ok(Progress::Ended(1))
        }
    }
}

/// Runs a transaction once. The lines are those after its begin.
fn run_once<D: Device, G: Gate + Drop, J: Naming, R: Wait>(
    rt: &R,
    alloc: Global,
    hold: &mut Hold<'_, D, G, J>,
    pass: &mut Pass<J>,
    session: u32,
    lines: &[Line],
    may_die: bool,
    out: &mut Vec<u8>,
) -> Result<Progress, Halt>
    requires room { length lines.now + 1 < 2 ^ 64 }
    ensures runs { (booked : List (ℕ × List Call)) → Running J.base session (between booked pass.old)
        (line.Begin ∷ lines.now) out.old.items out.new.items pass.new result }
    ensures lives { may_die ≡ false → IfErr result (λ outcome. outcome ≢ halt.Died) }
{
    match hold.begin(rt, alloc, pass, session) {
        Ok(txn) => match report_begun(out) {
            Ok(()) => and_begin(go_on(rt, hold, pass, txn, lines, may_die, out)),
            Err(why) => {
                take_back(rt, hold, pass, txn);
                Err(why)
            }
        },
        Err(why) => unbegun(out, why),
    }
}

/// Lets other threads go on before the next run, each time twice as often, up to 4,096 times.
fn back_off(run: u32) {
    for _ in 0..1u32 << run.min(12) {
        thread::yield_now();
    }
}

/// Runs a transaction. If it dies, its answers are dropped, and it is run again, a hundred times at most.
pub(crate) fn run_surely<D: Device, G: Gate + Drop, J: Naming, R: Wait>(
    rt: &R,
    alloc: Global,
    hold: &mut Hold<'_, D, G, J>,
    pass: &mut Pass<J>,
    session: u32,
    lines: &[Line],
    out: &mut Vec<u8>,
) -> Result<Progress, Halt>
    requires room { length lines.now + 1 < 2 ^ 64 }
    ensures runs { (booked : List (ℕ × List Call)) → Running J.base session (between booked pass.old)
        (line.Begin ∷ lines.now) out.old.items out.new.items pass.new result }
    ensures lives { IfErr result (λ outcome. outcome ≢ halt.Died) }
{
    let kept = out.len();
    for run in 1..RUNS {
        match run_once(rt, alloc, hold, pass, session, lines, true, out) {
            Err(Halt::Died) => {
                out.truncate(kept);
                back_off(run);
            }
            Ok(ran) => return Ok(ran),
            Err(Halt::Failed) => return Err(Halt::Failed),
            Err(Halt::Unheard) => return Err(Halt::Unheard),
        }
    }
    run_once(rt, alloc, hold, pass, session, lines, false, out)
}

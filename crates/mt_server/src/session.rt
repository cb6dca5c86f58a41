// A session over a shared kernel, from its script's first line to the last.
ghost use Rattle.std.specs.Prelude.{◌≡◌, ◌≢◌, ◌↔◌, ◌<◌, ℕ, List, IfOk, IfErr, IsTrue, drop, length};
ghost use Rattle.mt_model.specs.History.{Call};
ghost use Rattle.mt_script.specs.declared.lines.Line.TheVariants.{Begin};
ghost use Rattle.mt_server.specs.Hearing.{IsSession, Running, between};
ghost use Rattle.mt_script.specs.Scripts.{lines_in};
ghost use Rattle.mt_server.specs.declared.line_answers.Halt.TheVariants as halt;

use crate::attempts::{Progress, run_surely};
use crate::line_answers::{Halt, refuse};
use crate::transcript::Transcript;
use mt_base::Refusal;
use mt_disk::Device;
use mt_script::{Line, Script};
use mt_shared::{Gate, Hold, Naming, Pass, Shared};
use std::alloc::{AllocError, Global};
use std::sync::Wait;

/// Whether a line begins a transaction.
fn is_begin(line: &Line) -> bool
    ensures { IsTrue result ↔ (line.now ≡ Begin) }
{
    matches!(line, Line::Begin)
}

/// Answers the lines from an index on, between two transactions: a whole transaction, or one line outside of any.
fn go_from<D: Device, G: Gate + Drop, J: Naming, R: Wait>(
    rt: &R,
    alloc: Global,
    hold: &mut Hold<'_, D, G, J>,
    pass: &mut Pass<J>,
    session: u32,
    lines: &[Line],
    at: usize,
    out: &mut Vec<u8>,
) -> Result<Progress, Halt>
    requires at { at < length lines.now }
    ensures runs { (booked : List (ℕ × List Call)) → Running J.base session (between booked pass.old)
        (drop at lines.now) out.old.items out.new.items pass.new result }
    ensures lives { IfErr result (λ outcome. outcome ≢ halt.Died) }
{
    if is_begin(&lines[at]) {
        return run_surely(rt, alloc, hold, pass, session, &lines[at + 1..], out);
    }
    refuse(out, Refusal::Stranger)?;
    Ok(Progress::Ended(1))
}

/// Runs a session: its script's lines in their order, each with its answer. Answers its transcript, and whether the
/// device has failed, which is its last answer then.
///
/// The only error is that an answer found no memory. What is committed stands, and nothing is open then.
pub(crate) fn run_session<D: Device, G: Gate + Drop, J: Naming, R: Wait>(
    rt: &R,
    alloc: Global,
    shared: &Shared<D, G, J>,
    pass: &mut Pass<J>,
    session: u32,
    script: &Script,
) -> Result<(Transcript, bool), AllocError>
    ensures { IfOk result (λ outcome.
        IsSession outcome.1 J.base session (lines_in script.now) outcome.0 pass.old pass.new) }
{
    let lines = script.lines();
    let mut out = Vec::new(alloc);
    let mut at = 0;
    let mut hold = shared.hold();
    'lines: for _ in rt.forever() {
        if at >= lines.len() {
            return Ok((Transcript::new(out), false));
        }
        match go_from(rt, alloc, &mut hold, pass, session, lines, at, &mut out) {
            Ok(Progress::Ended(count)) => at += count,
            Ok(Progress::AtEnd) => return Ok((Transcript::new(out), false)),
            Err(Halt::Failed) => return Ok((Transcript::new(out), true)),
            Err(Halt::Died | Halt::Unheard) => return Err(AllocError),
        }
    }
    unreachable!()
}

// Workers that serve scripts over a shared kernel, beside one that turns its log over.
ghost use Rattle.std.specs.Prelude.{◌+◌, ◌≤◌, ℕ, List, All, IfOk, length, map};
ghost use Rattle.mt_base.specs.declared.limits.TheConstants.{MAX_SESSIONS};
ghost use mathlib.Core.List.{IsPrefix};
ghost use Rattle.mt_mark.specs.Rule.{dones};
ghost use Rattle.mt_model.specs.declared.history.Committed.{Committed};
ghost use Rattle.mt_server.specs.Crews.{AreHeard, HasDone, IsBoard};
ghost use Rattle.mt_script.specs.Scripts.{lines_in};
ghost use Rattle.mt_locked.specs.Seen.{PassSeen};
ghost use Rattle.mt_locked.specs.Whole.{IsNew, all_own};

use crate::board::{Board, Reported};
use crate::session::run_session;
use crossbeam_channel::{Receiver, bounded};
use mt_base::Refusal;
use mt_disk::Device;
use mt_script::Script;
use mt_shared::{Gate, Naming, Pass, Shared};
use std::alloc::{AllocError, Global};
use std::sync::Wait;
use std::thread;
use std::thread::{Threads, join};

/// What a worker gives back: its pass, and the transcripts of the scripts that it took. There are none if one of them
/// found no memory.
pub(crate) type Done<J> = (Pass<J>, Result<Vec<Reported>, AllocError>);

/// Serves the next script of the queue; whether there was one. The only error is that a transcript found no memory.
fn serve_next<D: Device, G: Gate + Drop, J: Naming, R: Wait>(
    rt: &R,
    alloc: Global,
    shared: &Shared<D, G, J>,
    queue: &Receiver<u32, Global>,
    scripts: &[Script],
    pass: &mut Pass<J>,
    outcome: &mut Vec<Reported>,
) -> Result<bool, AllocError>
    requires few { length scripts.now ≤ MAX_SESSIONS }
    ensures { IfOk result (λ _. AreHeard (map lines_in scripts.now) pass.old outcome.old.items
        → AreHeard (map lines_in scripts.now) pass.new outcome.new.items) }
{
    outcome.reserve(1)?;
    let Ok(number) = queue.try_recv(rt) else {
        return Ok(false);
    };
    let at = number as usize;
    if at >= scripts.len() {
        return Ok(false);
    }
    let (text, has_failed) = run_session(rt, alloc, shared, pass, number + 1, &scripts[at])?;
    outcome.push_reserved(Reported {
        at,
        text,
        has_failed,
    });
    Ok(true)
}

/// Serves scripts until none is left in the queue, or memory is short.
fn work<D: Device, G: Gate + Drop, J: Naming, R: Wait>(
    rt: &R,
    alloc: Global,
    shared: &Shared<D, G, J>,
    queue: &Receiver<u32, Global>,
    scripts: &[Script],
    pass: Pass<J>,
) -> Done<J>
    requires few { length scripts.now ≤ MAX_SESSIONS }
    requires fresh { IsNew J.book pass }
    ensures { HasDone (map lines_in scripts.now) result.0 result.1 }
{
    let mut pass = pass;
    let mut outcome = Vec::new(alloc);
    'turns: for _ in rt.forever() {
        match serve_next(rt, alloc, shared, queue, scripts, &mut pass, &mut outcome) {
            Ok(true) => {}
            Ok(false) => return (pass, Ok(outcome)),
            Err(short) => return (pass, Err(short)),
        }
    }
    unreachable!()
}

/// Turns the log of a shared kernel over each time that more than half of its area is in use, and sleeps meanwhile. It
/// ends as it is asked to, or if the device has failed. It forces no log otherwise and flushes no page.
fn rotate_as_due<D: Device + Drop, G: Gate + Drop, J: Naming, R: Wait>(
    rt: &R,
    alloc: Global,
    shared: &Shared<D, G, J>,
    frames: usize,
) {
    for _ in rt.forever() {
        if !shared.await_due(rt) {
            return;
        }
        // What else is refused is due again once a further transaction has ended.
        if shared.turn_over(rt, alloc, frames) == Err(Refusal::DeviceFailed) {
            return;
        }
    }
    unreachable!()
}

/// Each pass serves scripts in a thread of its own, if one can be started.
fn work_all<
    D: Device + Send,
    G: Gate + Drop + Send + Sync,
    J: Naming + Send + Sync,
    R: Threads + Wait + Sync,
>(
    rt: &R,
    alloc: Global,
    shared: &Shared<D, G, J>,
    queue: &Receiver<u32, Global>,
    scripts: &[Script],
    passes: Vec<Pass<J>>,
) -> Result<Vec<Done<J>>, AllocError>
    requires few { length scripts.now ≤ MAX_SESSIONS }
    requires fresh { All (IsNew J.book) passes.items }
    ensures { IfOk result (λ done. All (λ d. HasDone (map lines_in scripts.now) d.0 d.1) done.items) }
{
    let done = thread::map_vec(
        rt,
        passes,
        &|pass: Pass<J>| -> Done<J>
            requires few { length scripts.now ≤ MAX_SESSIONS }
            requires fresh { IsNew J.book pass }
            ensures { HasDone (map lines_in scripts.entry.now) result.0 result.1 }
        { work(rt, alloc, shared, queue, scripts, pass) },
    )?;
    Ok(done)
}

/// A queue with the indexes of so many scripts, in their order.
fn queue_of<R: Wait>(
    rt: &R,
    alloc: Global,
    count: u32,
) -> Result<Receiver<u32, Global>, AllocError> {
    let (sender, queue) = bounded(alloc, count as usize)?;
    for at in 0..count {
        if sender.send(rt, at).is_err() {
            return Err(AllocError);
        }
    }
    Ok(queue)
}

/// The scripts are served by as many workers as there are passes, while one more thread turns the log over as it is
/// due. If that thread cannot be started, the log is not turned over.
pub(crate) fn crew<
    D: Device + Drop + Send,
    G: Gate + Drop + Send + Sync,
    J: Naming + Send + Sync,
    R: Threads + Wait + Sync,
>(
    rt: &R,
    alloc: Global,
    shared: &Shared<D, G, J>,
    frames: usize,
    scripts: &[Script],
    passes: Vec<Pass<J>>,
) -> Result<Vec<Done<J>>, AllocError>
    requires few { length scripts.now ≤ MAX_SESSIONS }
    requires fresh { All (IsNew J.book) passes.items }
    ensures { IfOk result (λ done. All (λ d. HasDone (map lines_in scripts.now) d.0 d.1) done.items) }
{
    let queue = queue_of(rt, alloc, scripts.len() as u32)?;
    let from = &queue;
    let ((), done) = join(
        rt,
        || rotate_as_due(rt, alloc, shared, frames),
        move || -> Result<Vec<Done<J>>, AllocError>
            requires few { length scripts.now ≤ MAX_SESSIONS }
            requires fresh { All (IsNew J.book) passes.items }
            ensures { IfOk result (λ done. All (λ d. HasDone (map lines_in scripts.entry.now) d.0 d.1) done.items) }
        {
            let done = work_all(rt, alloc, shared, from, scripts, passes);
            shared.end_rotating(rt);
            done
        },
    );
    done
}

/// The passes of the workers. Their transcripts are put at their indexes, where none may be yet. There is an
/// error too if a worker found no memory for a transcript.
pub(crate) fn gather<J: Naming>(
    alloc: Global,
    scripts: &[Script],
    done: Vec<Done<J>>,
    board: &mut Board,
) -> Result<Vec<Pass<J>>, AllocError>
    requires heard { All (λ d. HasDone (map lines_in scripts.now) d.0 d.1) done.items }
    ensures { IfOk result (λ passes. (book : List Committed) (count : ℕ)
        → All (λ (p : PassSeen). IsPrefix (dones p.seen) book) passes.items
        → IsBoard (map lines_in scripts.now) board.old book count
        → IsBoard (map lines_in scripts.now) board.new book (count + all_own passes.items)) }
{
    let mut done = done;
    let mut passes = Vec::with_capacity(alloc, done.len())?;
    'crew: while done.len() > 0 {
        if let Some((pass, outcome)) = done.pop() {
            passes.push(pass)?;
            if !board.place_all(outcome?) {
                return Err(AllocError);
            }
        }
    }
    Ok(passes)
}

// Scripts, served to a device by threads that share a kernel.
ghost use Rattle.std.specs.Prelude.{◌≡◌, ◌<◌, ◌≤◌, ◌^◌, [], false, ℕ, List, All, IfErr, IfOk, length, map};
ghost use Rattle.mt_base.specs.declared.limits.TheConstants.{MAX_SESSIONS};
ghost use mathlib.Core.List.{IsPrefix};
ghost use Rattle.mt_mark.specs.Rule.{dones};
ghost use Rattle.mt_model.specs.declared.history.Committed.{Committed};
ghost use Rattle.mt_server.specs.Crews.{IsBoard};
ghost use Rattle.mt_server.specs.Heard.{AreAllReported};
ghost use Rattle.mt_server.specs.Serves.{IsLate, IsOpenedWith, IsServedOn, IsUnserved};
ghost use Rattle.mt_shared.specs.Opens.{HasBegunWith};
ghost use Rattle.mt_script.specs.Scripts.{lines_in};
ghost use Rattle.mt_restart.specs.Frames.{IsFrameCount};
ghost use Rattle.mt_locked.specs.Began.{BeganOn, IsIdle};
ghost use Rattle.mt_locked.specs.Seen.{PassSeen};
ghost use Rattle.mt_locked.specs.Whole.{all_own};
ghost use Rattle.mt_txn.specs.Shown.{is_failed};
ghost use Rattle.mt_txn.specs.Words.{kernel_book};

use crate::board::{Board, blank};
use crate::crew::{crew, gather};
use crate::transcript::Transcript;
use mt_base::Refusal;
use mt_base::limits::MAX_SESSIONS;
use mt_disk::Device;
use mt_script::Script;
use mt_shared::{Closed, Gate, Naming, Opened, Pass, Shared};
use mt_txn::Kernel;
use std::alloc::Global;
use std::marker::Brand;
use std::sync::Wait;
use std::thread::Threads;

/// The kernel under all sessions, and the transcript of each script, in the order of the scripts.
pub struct Served<D: Device> {
    pub kernel: Kernel<D>,
    pub transcripts: Vec<Transcript>,
}

/// Drops what is shared, with its device.
fn give_up<D: Device + Drop, G: Gate + Drop, J: Naming>(shared: Shared<D, G, J>) {
    drop(shared.abandon());
}

/// Closes what was shared, once each script has its transcript.
fn close<D: Device + Drop, G: Gate + Drop, J: Naming>(
    shared: Shared<D, G, J>,
    passes: Vec<Pass<J>>,
    scripts: &[Script],
    board: Board,
) -> Result<Served<D>, Refusal>
    requires first { J.book ≡ [] }
    requires placed { (book : List Committed) → All (λ (p : PassSeen). IsPrefix (dones p.seen) book) passes.items
        → IsBoard (map lines_in scripts.now) board book (all_own passes.items) }
    ensures outcome { IfOk result (λ s.
        AreAllReported (is_failed s.kernel) (map lines_in scripts.now) s.transcripts.items (kernel_book s.kernel)) }
    ensures began { IfOk result (λ s. BeganOn J.base s.kernel) }
    ensures idle { IfOk result (λ s. is_failed s.kernel ≡ false → IsIdle s.kernel) }
    ensures late { IfErr result IsLate }
{
    match shared.close(passes) {
        Ok(kernel) => {
            if !board.is_full() {
                drop(kernel.into_device());
                return Err(Refusal::NoMemory);
            }
            if !board.has_cause(kernel.has_failed()) {
                drop(kernel.into_device());
                return Err(Refusal::DeviceFailed);
            }
            let Board {
                texts,
                filled: _,
                has_failed: _,
            } = board;
            Ok(Served {
                kernel,
                transcripts: texts,
            })
        }
        Err(
            Closed {
                why,
                shared,
                passes: _,
            },
        ) => {
            give_up(shared);
            Err(why)
        }
    }
}

/// Serves scripts to a kernel that is shared under a name.
fn serve_named<
    D: Device + Drop + Send,
    G: Gate + Drop + Send + Sync,
    J: Naming + Send + Sync,
    R: Threads + Wait + Sync,
>(
    rt: &R,
    alloc: Global,
    opened: Opened<D>,
    frames: usize,
    scripts: &[Script],
    gate: G,
) -> Result<Served<D>, Refusal>
    requires name { (opened.mark ≡ J.mark) × (opened.base ≡ J.base) × (opened.book ≡ J.book) }
    requires first { opened.book ≡ [] }
    requires few { length scripts.now ≤ MAX_SESSIONS }
    ensures outcome { IfOk result (λ s.
        AreAllReported (is_failed s.kernel) (map lines_in scripts.now) s.transcripts.items (kernel_book s.kernel)) }
    ensures began { IfOk result (λ s. BeganOn opened.base s.kernel) }
    ensures frames { IfOk result (λ _. HasBegunWith ⟦<D as Device>⟧ opened.frames opened.base) }
    ensures idle { IfOk result (λ s. is_failed s.kernel ≡ false → IsIdle s.kernel) }
    ensures late { IfErr result IsLate }
{
    let (shared, passes) = match opened.named::<G, J>(alloc, gate) {
        Ok(made) => made,
        Err(kernel) => {
            drop(kernel.into_device());
            return Err(Refusal::NoMemory);
        }
    };
    let Ok(mut board) = blank(alloc, scripts.len()) else {
        give_up(shared);
        return Err(Refusal::NoMemory);
    };
    let done = match crew(rt, alloc, &shared, frames, scripts, passes) {
        Ok(done) => done,
        Err(_) => {
            give_up(shared);
            return Err(Refusal::NoMemory);
        }
    };
    match gather(alloc, scripts, done, &mut board) {
        Ok(passes) => close(shared, passes, scripts, board),
        Err(_) => {
            give_up(shared);
            Err(Refusal::NoMemory)
        }
    }
}

/// Opens a device with so many pages in frames, and serves scripts to it by workers that share its kernel. Each
/// script is a session of its own, numbered from 1 in the order of the scripts. A worker takes the next script that
/// no other has taken, and runs it from its first line to its last. One more thread rotates meanwhile. The
/// thread that calls is one of the workers. A thread that cannot be started is left out.
///
/// A transaction that has to die is taken back, its answers are dropped, and it is run again from its begin. In its
/// hundredth run the line that makes it die is answered so, and the transaction is aborted. One that is open at its
/// script's end is aborted, with the line `aborted`. If the device fails, that is the last line of each session.
///
/// If more than half of the log's area is in use, who rotates turns the log over. New transactions wait until none is
/// active, and then go on. So the log of many short transactions does not fill. Nothing else is forced or flushed in
/// the background: a commit makes its force, and an operation that finds no frame flushes a page.
///
/// There are as many workers as are asked for, of 1 to 64. The gate is called at each point that it wants to see.
///
/// Refused, in this order: 5 if and only if there are more than [`MAX_SESSIONS`] scripts, then as
/// [`open`](mt_restart::open). After that 1 if a transcript found no memory, and what was committed stands; and 2 if
/// a rotation left no kernel. If the kernel cannot be closed, that refusal. The device is dropped then.
pub fn serve<D: Device + Drop + Send, G: Gate + Drop + Send + Sync, R: Threads + Wait + Sync>(
    rt: &R,
    alloc: Global,
    device: D,
    frames: usize,
    scripts: Vec<Script>,
    workers: usize,
    gate: G,
) -> Result<Served<D>, Refusal>
    requires frames { IsFrameCount frames }
    ensures outcome { IfOk result (λ s.
        AreAllReported (is_failed s.kernel) (map lines_in scripts.items) s.transcripts.items (kernel_book s.kernel)) }
    ensures began { IfOk result (λ s. IsServedOn (D.seen device) s.kernel) }
    // The kernel that served began with so many frames, on a base that these bytes represent.
    ensures frames { IfOk result (λ _. IsOpenedWith ⟦<D as Device>⟧ frames (D.seen device)) }
    ensures idle { IfOk result (λ s. is_failed s.kernel ≡ false → IsIdle s.kernel) }
    ensures few { IfOk result (λ _. length scripts.items ≤ MAX_SESSIONS) }
    ensures refused { IfErr result (IsUnserved (D.seen device) (length scripts.items)) }
{
    if scripts.len() > MAX_SESSIONS {
        return Err(Refusal::BadLength);
    }
    let opened = match Opened::open(alloc, device, frames, workers.clamp(1, MAX_SESSIONS)) {
        Ok(opened) => opened,
        Err((why, device)) => {
            drop(device);
            return Err(why);
        }
    };
    serve_named::<D, G, Brand, R>(rt, alloc, opened, frames, scripts.as_slice(), gate)
}

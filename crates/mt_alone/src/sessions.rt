// Scripts, served to a kernel one after the other.
ghost use Rattle.std.specs.Prelude.{◌≤◌, IfErr, IfOk, OnErr, OnOk, length, map};
ghost use Rattle.std.specs.Io.KnownBytes.{Appends};
ghost use Rattle.mt_base.specs.declared.limits.TheConstants.{MAX_SESSIONS};
ghost use Rattle.mt_txn.specs.Shown.{SameSchema, StaysRestarting};
ghost use Rattle.mt_script.specs.Answers.{AppendsFront};
ghost use Rattle.mt_alone.specs.Sessions.{AreCutShort, HaveServed, IsCutWithin, IsServed, StandsEach, session_line};
ghost use Rattle.mt_script.specs.Scripts.{lines_in};
ghost use Rattle.mt_alone.specs.Stops.{IsStopIn};

use crate::alone::RunFault;
use crate::rotation::NotServed;
use crate::script_run::run_script;
use crate::stops::Stop;
use itoa::Buffer;
use mt_disk::Device;
use mt_restart::Standing;
use mt_script::{Script, Unheard, put_all};
use mt_txn::Kernel;
use std::alloc::Global;
use std::io::Write;

/// Writes the line before a session's transcript: `session` and its number. If the writer fails, it has written a
/// beginning of the line.
pub fn write_session<W: Write>(writer: &mut W, session: u64) -> Result<(), Unheard>
    ensures all { OnOk result (Appends (W.contents writer.old) (W.contents writer.new) (session_line session)) }
    ensures front { OnErr result (AppendsFront (W.contents writer.old) (W.contents writer.new)
        (session_line session)) }
{
    let mut digits = Buffer::new();
    let digits = digits.format(session);
    put_all(writer, &[b"session ", digits.as_bytes(), b"\n"])
}

/// Serves one script: writes the line of its session, and then runs it.
fn run_session<D: Device + Drop, W: Write>(
    alloc: Global,
    kernel: Kernel<D>,
    frames: usize,
    session: u32,
    stop: bool,
    script: &Script,
    writer: &mut W,
) -> Result<(Kernel<D>, Option<Stop>), NotServed<D>>
    ensures served { IfOk result (λ t. StandsEach kernel
        (λ p. IsServed stop t.1 p kernel session (lines_in script.now)
        (W.contents writer.old) (W.contents writer.new) t.0)) }
    ensures at { IfOk result (λ t. IsStopIn session (lines_in script.now) t.1) }
    ensures cut { IfErr result (λ left. StandsEach kernel
        (λ p. IsCutWithin p kernel session (lines_in script.now)
        (W.contents writer.old) (W.contents writer.new) left)) }
    ensures schema { IfOk result (λ t. SameSchema kernel t.0) }
    ensures restarts { IfOk result (λ t. StaysRestarting kernel t.0) }
{
    match write_session(writer, u64::from(session)) {
        Ok(()) => run_script(alloc, kernel, frames, session, stop, script, writer),
        Err(_) => {
            let left = Standing::Stands(kernel);
            Err(NotServed {
                why: RunFault::Output,
                left,
            })
        }
    }
}

/// Serves scripts to a kernel in which no transaction is active, one after the other, as sessions from 1 on. It writes
/// the line `session I` before the transcript of each; that is what [`run_alone`](crate::run_alone) writes.
///
/// Before a line outside of a transaction the kernel's log is turned over, if more than half of its area is in
/// use. The kernel then has so many pages in frames. So the log of many short transactions does not fill. The play
/// sees nothing of it. If that is refused for want of memory, or of room in the other area, the kernel goes on. It is
/// tried again before a later line.
///
/// It stops at the first script that does not run to its end, for what `run_alone` answers, with the kernel as that
/// leaves it. Scripts after that one are not begun. `Output` too if a session's line cannot be written: nothing
/// of its script ran then. If the device fails while the log is turned over, it stops with the device, by 2, which is
/// the transcript's last line. The scripts are [`MAX_SESSIONS`](mt_base::limits::MAX_SESSIONS) at most.
///
/// If they are to stop, the first line that is refused with anything but `Escrow` and `Die` is the last of its script,
/// and that script is the last. A transaction that is open there is aborted, with the line `aborted`. So the scripts
/// are served as ones that end with that line, which is given with the kernel.
///
/// What is promised holds beside whatever play of the model the kernel stands at, from whose first base it can be
/// restarted. The play's session is not looked at.
pub fn run_sessions<D: Device + Drop, W: Write>(
    alloc: Global,
    kernel: Kernel<D>,
    frames: usize,
    stop: bool,
    scripts: &[Script],
    writer: &mut W,
) -> Result<(Kernel<D>, Option<Stop>), NotServed<D>>
    requires few { length scripts.now ≤ MAX_SESSIONS }
    ensures ran { IfOk result (λ t. StandsEach kernel
        (λ p. HaveServed stop t.1 p kernel (map lines_in scripts.now)
        (W.contents writer.old) (W.contents writer.new) t.0)) }
    ensures cut { IfErr result (λ left. StandsEach kernel
        (λ p. AreCutShort stop p kernel (map lines_in scripts.now)
        (W.contents writer.old) (W.contents writer.new) left)) }
    ensures schema { IfOk result (λ t. SameSchema kernel t.0) }
    // A kernel that can be restarted from a base still can.
    ensures restarts { IfOk result (λ t. StaysRestarting kernel t.0) }
{
    let mut kernel = kernel;
    let mut session = 0;
    for script in scripts {
        session += 1;
        let served = match run_session(alloc, kernel, frames, session, stop, script, writer) {
            Ok(served) => served,
            Err(left) => return Err(left),
        };
        let (next, stopped) = served;
        if let Some(at) = stopped {
            return Ok((next, Some(at)));
        }
        kernel = next;
    }
    Ok((kernel, None))
}

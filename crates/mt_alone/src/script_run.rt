// A script on a kernel that no other session has, whose log is turned over before a transaction.
ghost use Rattle.std.specs.Prelude.{IfErr, IfOk, None};
ghost use Rattle.mt_txn.specs.Shown.{SameSchema, StaysRestarting};
ghost use Rattle.mt_script.specs.Scripts.{lines_in};
ghost use Rattle.mt_alone.specs.Stops.{IsStopIn, lines_to, why_stopped};
ghost use Rattle.mt_alone.specs.Turnovers.{BesideFrom, GoesThrough, HasRunOut, IsCutOff};

use crate::alone::{end_live, end_refused, run_line};
use crate::rotation::{NotServed, is_due, turned};
use crate::stops::Stop;
use mt_base::{Refusal, TxnNo};
use mt_disk::Device;
use mt_restart::Standing;
use mt_script::{Line, Script};
use mt_txn::Kernel;
use std::alloc::Global;
use std::io::Write;

/// A kernel after lines, the transaction that is open then, and the line that stopped them.
type Ran<D> = (Kernel<D>, Option<TxnNo>, Option<Stop>);

/// Answers the lines of a script, up to the first refusal if it is to stop there. The kernel is moved only if its log
/// is due to be turned over.
fn run_each<D: Device + Drop, W: Write>(
    alloc: Global,
    kernel: Kernel<D>,
    frames: usize,
    session: u32,
    stop: bool,
    lines: &[Line],
    writer: &mut W,
) -> Result<Ran<D>, NotServed<D>>
    ensures ran { IfOk result (λ t. GoesThrough stop (why_stopped t.2) session kernel
        (lines_to t.2 lines.now) (W.contents writer.old) (W.contents writer.new) t.1 t.0) }
    ensures at { IfOk result (λ t. IsStopIn session lines.now t.2) }
    ensures cut { IfErr result (λ left. BesideFrom session None kernel
        (λ p. IsCutOff p kernel lines.now
        (W.contents writer.old) (W.contents writer.new) left)) }
{
    let mut kernel = kernel;
    let mut live = None;
    for (at, line) in lines.iter().enumerate() {
        if live.is_none() && is_due(&kernel) {
            match turned(alloc, kernel, frames) {
                Standing::Stands(next) => kernel = next,
                Standing::Ended(device) => {
                    let why = end_refused(writer, Refusal::DeviceFailed);
                    let left = Standing::Ended(device);
                    return Err(NotServed { why, left });
                }
            }
        }
        let now = match run_line(&mut kernel, session, stop, live, line, writer) {
            Ok(now) => now,
            Err(why) => {
                let left = Standing::Stands(kernel);
                return Err(NotServed { why, left });
            }
        };
        live = now.0;
        if let Some(why) = now.1 {
            let line = at + 1;
            let stop = Stop { session, line, why };
            return Ok((kernel, live, Some(stop)));
        }
    }
    Ok((kernel, live, None))
}

/// Runs a script on a kernel in which no transaction is active, as [`run_alone`](crate::run_alone) does. Before a line
/// outside of a transaction it turns the log over, if more than half of its area is in use. The kernel then has so many
/// pages in frames. If that is refused for want of memory, or of room in the other area, the kernel goes on. It is
/// tried again before a later line.
///
/// If it is to stop, the script ends at the first line that is refused with anything but `Escrow` and `Die`. A
/// transaction that is open there is aborted, with the line `aborted`. So it is run as a script that ends with that
/// line, which is given with the kernel.
///
/// Refused for what `run_alone` is refused, with the kernel as that leaves it. If the device fails while the log is
/// turned over, refused with 2, which is the transcript's last line, and with the device.
///
/// What is promised holds beside whatever play of the model the kernel stands at, from whose first base it can be
/// restarted.
pub fn run_script<D: Device + Drop, W: Write>(
    alloc: Global,
    kernel: Kernel<D>,
    frames: usize,
    session: u32,
    stop: bool,
    script: &Script,
    writer: &mut W,
) -> Result<(Kernel<D>, Option<Stop>), NotServed<D>>
    ensures ran { IfOk result (λ t. BesideFrom session None kernel
        (λ p. HasRunOut stop t.1 p kernel (lines_in script.now)
        (W.contents writer.old) (W.contents writer.new) t.0)) }
    ensures at { IfOk result (λ t. IsStopIn session (lines_in script.now) t.1) }
    ensures cut { IfErr result (λ left. BesideFrom session None kernel
        (λ p. IsCutOff p kernel (lines_in script.now)
        (W.contents writer.old) (W.contents writer.new) left)) }
    ensures schema { IfOk result (λ t. SameSchema kernel t.0) }
    // A kernel that can be restarted from a base still can.
    ensures restarts { IfOk result (λ t. StaysRestarting kernel t.0) }
{
    let ran = match run_each(alloc, kernel, frames, session, stop, script.lines(), writer) {
        Ok(ran) => ran,
        Err(left) => return Err(left),
    };
    let (kernel, live, stopped) = ran;
    let Some(txn) = live else {
        return Ok((kernel, stopped));
    };
    let mut kernel = kernel;
    match end_live(&mut kernel, txn, writer) {
        Ok(()) => Ok((kernel, stopped)),
        Err(why) => {
            let left = Standing::Stands(kernel);
            Err(NotServed { why, left })
        }
    }
}

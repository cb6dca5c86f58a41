// A kernel whose log is turned over between the transactions of one session.
ghost use Rattle.std.specs.Prelude.{◌≡◌, ◌↔◌, ◌<◌, ◌/◌, ℕ, IsTrue};
ghost use Rattle.mt_log.specs.Words.{area_size, used};
ghost use Rattle.mt_restart.specs.Standings.{device_at};
ghost use Rattle.mt_alone.specs.Plays.{Play};
ghost use Rattle.mt_alone.specs.Turnovers.{IsLeftBy, IsTurned, StandsForMore};
ghost use Rattle.mt_txn.specs.Shown.{kernel_log};

use crate::alone::RunFault;
use mt_disk::Device;
use mt_restart::{Standing, rotate};
use mt_txn::Kernel;
use std::alloc::Global;

/// Why scripts were not served to their end, and what is left.
pub struct NotServed<D: Device> {
    /// Why they were not.
    pub why: RunFault,
    /// The kernel, as the script leaves it that did not run to its end. Or the device, if it failed while the log was
    /// turned over.
    pub left: Standing<D>,
}

impl<D: Device + Drop> NotServed<D> {
    /// Why they were not, and the device, with which everything else is dropped. It takes no memory.
    ///
    /// Whatever a crash leaves of the device then represents the play's commits, or these and some that were under
    /// way.
    pub fn into_device(self) -> (RunFault, D)
        ensures why { result.0 ≡ self.why }
        ensures device { result.1 ≡ device_at self.left }
        ensures stands { (relations counters : ℕ) (q : Play)
            → IsLeftBy relations counters self q
            → StandsForMore D.Device relations counters q result.1 }
    {
        let NotServed { why, left } = self;
        (why, left.into_device())
    }
}

/// Whether the log is due to be turned over, since more than half of its area is in use.
pub(crate) fn is_due<D: Device>(kernel: &Kernel<D>) -> bool
    ensures { let log = kernel_log kernel.now in IsTrue result ↔ (area_size log / 2 < used log) }
{
    kernel.log_use().is_above_half()
}

/// Turns the log over, and answers what stands then. If it is refused, the kernel goes on over its log as it is: a
/// transaction is active, memory is wanting, or its images have no room in the other area. There is no kernel only if
/// the device failed.
pub(crate) fn turned<D: Device + Drop>(
    alloc: Global,
    kernel: Kernel<D>,
    frames: usize,
) -> Standing<D>
    ensures { IsTurned kernel result }
{
    let (standing, _outcome) = rotate(alloc, kernel, frames);
    standing
}

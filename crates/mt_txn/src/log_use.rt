// How much of a log's area is in use.
ghost use Rattle.std.specs.Prelude.{◌≡◌, ◌<◌, ◌/◌, ◌↔◌, IsTrue};
ghost use Rattle.mt_log.specs.Words.{area_size, used};
ghost use Rattle.mt_txn.specs.Shown.{kernel_log};

use crate::kernel::Kernel;
use mt_disk::Device;

/// How much of the log's area is in use, in bytes.
#[derive(Clone, Copy, PartialEq, Eq, Debug)]
pub struct LogUse {
    /// Those before the place of the next batch, and 5 more and its own length for each record that is in no batch
    /// yet.
    pub used: u64,
    /// All bytes of the area.
    pub size: u64,
}

impl LogUse {
    /// Whether more than half of the area is in use. Then it is time to turn the log over.
    pub fn is_above_half(self) -> bool
        ensures { IsTrue result ↔ (self.size / 2 < self.used) }
    {
        self.used > self.size / 2
    }
}

impl<D: Device> Kernel<D> {
    /// How much of the log's area is in use.
    pub fn log_use(&self) -> LogUse
        ensures used { result.used ≡ used (kernel_log self.now) }
        ensures size { result.size ≡ area_size (kernel_log self.now) }
    {
        let log = self.core.log();
        LogUse {
            used: log.used(),
            size: log.area_size(),
        }
    }
}

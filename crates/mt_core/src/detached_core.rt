// The core without its device. A rotation detaches it, and recovers it while the rest stays as it is.
ghost use Rattle.std.specs.Prelude.{◌≡◌};
ghost use Rattle.mt_core.specs.Detached.{attached};

use crate::parts::{Commit, Core};
use mt_disk::Device;
use mt_escrow::Escrow;
use mt_live::Live;
use mt_model::Committed;
use mt_op::{DetachedOperations, OpScope};
use mt_slock::LockTable;

/// The core without its device: all that it has in memory.
///
/// It cannot be dropped, as the operations under way cannot: it is spent by [`DetachedCore::attach`].
pub struct DetachedCore {
    pub(crate) operations: DetachedOperations,
    pub(crate) live: Live,
    pub(crate) locks: LockTable,
    pub(crate) escrow: Escrow,
    pub(crate) running: Vec<OpScope>,
    pub(crate) commits: Vec<Commit>,
    pub(crate) book: Vec<Committed>,
    pub(crate) last: u64,
    pub(crate) reserved: u64,
}

impl<D: Device> Core<D> {
    /// The device, and all else. It takes no memory.
    pub fn detach(self) -> (D, DetachedCore)
        ensures { self ≡ attached result.1 result.0 }
    {
        let Core {
            operations,
            live,
            locks,
            escrow,
            running,
            commits,
            book,
            last,
            reserved,
        } = self;
        let (device, operations) = operations.detach();
        let rest = DetachedCore {
            operations,
            live,
            locks,
            escrow,
            running,
            commits,
            book,
            last,
            reserved,
        };
        (device, rest)
    }
}

impl DetachedCore {
    /// The core over this device. Whether it knows what that has is for who attaches it. It takes no memory.
    pub fn attach<D: Device>(self, device: D) -> Core<D>
        ensures { result ≡ attached self device }
    {
        let DetachedCore {
            operations,
            live,
            locks,
            escrow,
            running,
            commits,
            book,
            last,
            reserved,
        } = self;
        Core {
            operations: operations.attach(device),
            live,
            locks,
            escrow,
            running,
            commits,
            book,
            last,
            reserved,
        }
    }
}

// Operations without their device. A rotation detaches it, and recovers it while the rest stays as it is.
ghost use Rattle.std.specs.Prelude.{◌≡◌};
ghost use Rattle.mt_op.specs.Detached.{attached};

use crate::next_area::Idle;
use crate::operations::Operations;
use mt_base::LogPos;
use mt_disk::Device;
use mt_frame::MasterSlot;
use mt_log::Log;
use mt_pool::{Pool, Store};

/// Operations without their device: all that they have in memory.
#[derive(Drop)]
pub struct DetachedOperations {
    pub(crate) log: Log,
    pub(crate) pool: Pool,
    pub(crate) ruling: MasterSlot,
    pub(crate) settled: LogPos,
    pub(crate) idle: Idle,
}

impl<D: Device> Operations<D> {
    /// The device, and all else. It takes no memory.
    pub fn detach(self) -> (D, DetachedOperations)
        ensures { self ≡ attached result.1 result.0 }
    {
        let Operations {
            store,
            locks,
            rooms,
            map,
            spare,
        } = self;
        let Store {
            device,
            log,
            pool,
            ruling,
            settled,
        } = store;
        let idle = Idle {
            locks,
            rooms,
            map,
            spare,
        };
        let rest = DetachedOperations {
            log,
            pool,
            ruling,
            settled,
            idle,
        };
        (device, rest)
    }
}

impl DetachedOperations {
    /// The operations over this device. Whether they know what it has is for who attaches it. It takes no memory.
    pub fn attach<D: Device>(self, device: D) -> Operations<D>
        ensures { result ≡ attached self device }
    {
        let DetachedOperations {
            log,
            pool,
            ruling,
            settled,
            idle,
        } = self;
        let Idle {
            locks,
            rooms,
            map,
            spare,
        } = idle;
        Operations {
            store: Store {
                device,
                log,
                pool,
                ruling,
                settled,
            },
            locks,
            rooms,
            map,
            spare,
        }
    }
}

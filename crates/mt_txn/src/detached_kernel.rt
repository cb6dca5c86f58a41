// A kernel without its device. A rotation detaches it, and recovers it while the rest stays as it is.
ghost use Rattle.std.specs.Prelude.{◌≡◌};
ghost use Rattle.mt_base.specs.Limits.{IsRelationCount};

use crate::kernel::Kernel;
use crate::kernel_rest::KernelRest;
use mt_core::DetachedCore;
use mt_disk::Device;
use std::alloc::Global;

/// A kernel without its device: all that it has in memory.
///
/// It cannot be dropped: it is spent by [`DetachedKernel::attach`], or by [`DetachedKernel::part`].
pub struct DetachedKernel {
    pub(crate) core: DetachedCore,
    pub(crate) alloc: Global,
    pub(crate) relations: u16,
    pub(crate) counters: u16,
    pub(crate) failed: bool,
    ghost schema: { IsRelationCount relations },
}

impl<D: Device> Kernel<D> {
    ghost use Rattle.mt_txn.specs.Detached.{IsDetached};

    /// The device, and all else. It takes no memory.
    pub fn detach(self) -> (D, DetachedKernel)
        ensures { IsDetached self result.1 result.0 }
    {
        let Kernel {
            core,
            alloc,
            relations,
            counters,
            failed,
        } = self;
        let (device, core) = core.detach();
        let rest = DetachedKernel {
            core,
            alloc,
            relations,
            counters,
            failed,
        };
        (device, rest)
    }
}

impl DetachedKernel {
    ghost use Rattle.mt_txn.specs.Detached.{Attaches, CanAttach, IsRestBeside};

    /// The kernel over its device, which was only read meanwhile: it shows the state that it showed. It takes no
    /// memory.
    pub fn attach<D: Device>(self, device: D) -> Kernel<D>
        requires { CanAttach D.Device self device }
        ensures { Attaches self device result }
    {
        let DetachedKernel {
            core,
            alloc,
            relations,
            counters,
            failed,
        } = self;
        Kernel {
            core: core.attach(device),
            alloc,
            relations,
            counters,
            failed,
        }
    }

    /// The device as it was given, and what outlasts the log's area. What lived is gone, and nothing of it is taken
    /// back. It takes no memory.
    pub fn part<D: Device + Drop>(self, device: D) -> (D, KernelRest)
        ensures device { result.0 ≡ device }
        ensures rest { IsRestBeside self device result.1 }
    {
        let DetachedKernel {
            core,
            alloc,
            relations,
            counters,
            failed: _,
        } = self;
        let (device, rest) = core.attach(device).part();
        let rest = KernelRest {
            rest,
            alloc,
            relations,
            counters,
        };
        (device, rest)
    }
}

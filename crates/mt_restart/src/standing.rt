// What is there after a rotation: a kernel, or the device alone if it failed.
ghost use Rattle.std.specs.Prelude.{◌≡◌};
ghost use Rattle.mt_restart.specs.Standings.{IsFoundAfter, device_at};

use mt_disk::Device;
use mt_txn::Kernel;

/// A kernel, or the device that failed while the kernel's log was turned over.
pub enum Standing<D: Device> {
    /// The kernel.
    Stands(Kernel<D>),
    /// The device, which failed in a rotation: the kernel is gone with its book. It is to be opened again.
    Ended(D),
}

impl<D: Device + Drop> Standing<D> {
    /// The device, with which everything else is dropped. It takes no memory.
    ///
    /// If a kernel stood, a restart finds what some of its first commits lead to, as after [`Kernel::into_device`].
    pub fn into_device(self) -> D
        ensures device { result ≡ device_at self }
        ensures found { IsFoundAfter self result }
    {
        match self {
            Standing::Stands(kernel) => kernel.into_device(),
            Standing::Ended(device) => device,
        }
    }
}

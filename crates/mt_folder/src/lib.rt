//! Files that a program reaches by name: scripts, which it reads, and devices. It has a copy of a device, or a device
//! is lent to it and given back. A program that takes a [`Folder`] runs over the system's files, [`DiskFolder`], and
//! in tests over memory, [`MemFolder`].
#![tactic(auto)]

mod folder;
mod memory;
mod reason;
mod system;

pub use folder::Folder;
pub use memory::MemFolder;
pub use reason::Reason;
pub use system::DiskFolder;

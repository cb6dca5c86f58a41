//! A device of fixed length, and what a crash may leave of it.
//!
//! [`Device`] is what the crates above ask for. [`MemDevice`] is one in memory, and just the model of the trait.
//! [`FaultDevice`] stands before another one and fails from some call on, and [`FileDevice`] is one in a file.
#![tactic(auto)]

mod device;
mod fault;
mod file;
mod memory;

pub use device::{Device, DeviceFault};
pub use fault::FaultDevice;
pub use file::FileDevice;
pub use memory::{Fill, MemDevice};

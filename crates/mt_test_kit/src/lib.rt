//! What the crates of tests begin with: devices in memory and what they represent, operations from their begin to their
//! end, rows of what a kernel is asked, and lists of events.
#![tactic(auto)]

pub mod devices;
pub mod events;
pub mod kernel_rows;
pub mod whole_operations;

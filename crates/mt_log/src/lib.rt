//! The log of one area: records are appended in memory and forced to the device in batches. What is
//! durable is a beginning of what was appended.
#![tactic(auto)]

mod area;
mod batch;
mod fetch;
mod first_batch;
mod forces;
mod laws;
mod log;
mod masters;
mod scan_state;
mod scanner;
mod slot_change;
mod stage;
mod synced_write;

pub use area::AreaPlace;
pub use batch::Batch;
pub use first_batch::{begin_area, begin_prepared, prepare_area};
pub use forces::FORCE_STEPS;
pub use laws::{
    a_crash_leaves_a_beginning, a_step_leaves_a_beginning, areas_are_read_one_way,
    calls_say_all_of_the_log,
};
pub use log::{Forced, Log};
pub use masters::{FIRST_SLOT, SECOND_SLOT, ruling_slot, write_master};
pub use scanner::scan;
pub use slot_change::{slot_after, turn_slot};

//! Whatever the schedule: events are made in any order, each by the kernel's call of its name, or by a rotation of
//! its log.
//!
//! [`run_schedule`] is what the other crates come to. Its clause `ran` says of every list of events: each operation
//! that ended acted once on the model, in the order of the ends. The book is what its transactions do alone, one
//! after the other. What stands of the others is explained, whoever of them is struck out. Its clause `moments` says
//! what a restart finds, whenever a crash comes meanwhile. [`crash_run`] makes a run that is stopped, and gives what
//! a crash leaves then.
#![tactic(auto)]

mod commit_order;
mod crash;
mod event_calls;
mod events;
mod schedules;
mod stopping_device;

pub use crash::{CrashRun, crash_run};
pub use events::{Answer, Event};
pub use mt_restart::Standing;
pub use schedules::run_schedule;

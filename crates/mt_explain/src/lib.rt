//! The text of a base and of a log, a line each. It has rows and counters, the records of a log, and what a restart
//! would do with what has not ended. Begin at [`history_of`].
#![tactic(auto)]

mod base_lines;
mod entries;
mod history;
mod unfinished;

pub use base_lines::{write_counters, write_rows};
pub use history::{History, history_of, write_history};

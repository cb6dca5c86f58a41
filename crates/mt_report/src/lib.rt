//! What `mtk` prints of an answer and of a fault, with no command in it. A schedule's events are lines of a grammar of
//! their own, and what a kernel answers to each is a line. A command that did not end well leaves a [`Fault`]. Two
//! lines report it: what was refused, and after it the file that it is about and what to do.
//!
//! Begin at [`report_fault`]. Writers are passed in, and their bytes are what contracts speak of.
#![tactic(auto)]

mod answer_lines;
mod event_words;
mod excess;
mod faults;
mod read_faults;
mod schedules;

pub use answer_lines::{write_all_reported, write_number};
pub use event_words::EventWord;
pub use faults::{Fault, report_fault, report_unread};
pub use read_faults::{ReadFault, TextFault};
pub use schedules::ScheduleGrammar;

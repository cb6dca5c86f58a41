//! A page of records, in place on its 4,096 bytes: a table of slots at its front, and the records after it.
//! Contracts see a page as the list of its slots, each empty or a record. Each call is an operation of that list,
//! which keeps the number and the record of every other slot.
//!
//! A record lies right below the lowest one if there is room, else in the first gap that takes it. Only if no
//! gap does are the records packed at the page's end first. So an insert changes three short ranges: the slots'
//! count, one slot's head, and the record's own bytes. Each change answers which bytes it may have touched.
#![tactic(auto)]

mod compaction;
mod contents;
mod heads;
mod page_rules;
mod placement;
mod record_changes;

pub use contents::{RecordView, get, live, room};
pub use page_rules::check;
pub use placement::row_bytes;
pub use record_changes::{Insertion, empty, insert, remove, replace};

//! The record file: the records of all relations, in the pages that the space map names as theirs. A
//! record's name is its page and its slot there.
//!
//! Nothing is changed here: a plan reads the pages that are at hand, and answers which page it needs, or what changes
//! in which pages. Contracts speak of the bytes of all pages, at hand or not. Each plan puts, takes away or replaces
//! one record, and leaves every other as it was.
#![tactic(auto)]

mod insertion;
mod lookup;
mod page_rooms;
mod removal;
mod replacement;
mod rooms;
mod step;

pub use insertion::plan_put;
pub use lookup::{Lookup, plan_read};
pub use page_rooms::{room_after, rooms_of};
pub use removal::plan_remove;
pub use replacement::plan_replace;
pub use rooms::{Rooms, fits};
pub use step::{Plan, Step};

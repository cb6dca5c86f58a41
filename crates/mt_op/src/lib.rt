//! Operations as subtransactions (Weikum 1991): one operation from its start to its end over the pages of a store. It
//! goes page lock by page lock and page write by page write, or is taken back.
//!
//! Whatever is half done, the pages held are good: the present ones with the old bytes of each unfinished
//! operation's writes put back. The end of an operation is one act on the base that these pages hold, and
//! every other step leaves them as they are.
//!
//! A step reads a page from the device if no frame has it. It writes none: to free a frame, and to make the log
//! durable, is asked of who calls.
#![tactic(auto)]

mod answers;
mod detached_operations;
mod next_area;
mod operations;
mod page_locks;
mod page_writes;
mod scope;
mod steps;
mod survey;
mod take_back;

pub use answers::{Stepped, TakenBack};
pub use detached_operations::DetachedOperations;
pub use next_area::Idle;
pub use operations::{Operations, log_bytes_for};
pub use scope::{OpScope, Stage};
pub use survey::Survey;

//! Page locks of operations (Lomet 1992). An operation locks each page before it reads or writes it, and keeps its
//! locks until it ends. So what others see of its pages is from before it or from after it. For each lock it has a
//! guard, a value that is spent when the lock is given back.
//!
//! Two reads of a page agree, any other two locks of different operations conflict. Nobody waits in here. An answer
//! says for whom to wait, or to give back all locks and begin anew. An operation waits only for younger ones, so no
//! ring of operations waits for itself (wait-die).
#![tactic(auto)]

mod guards;
mod table;

pub use guards::{Asked, PageGuard, PageLock, holds};
pub use table::PageLocks;

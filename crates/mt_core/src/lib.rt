//! The core of a kernel over pages, and the events that change its parts together: open nested transactions (Weikum
//! 1991) with escrow (O'Neil 1986).
//!
//! [`Core`] has the operations over their pages, the transactions that live, their semantic locks and pending adds,
//! and the commits. Each call of it is one event of the laws of mt_live, or leaves their state as it was; only
//! `leave_durable` is an event for each commit that is durable. Begin with `IsConsistent` in specs, which says what the
//! parts keep of one another. What may be called when, in which order it is tested, and what is answered, is for the
//! kernel above.
#![tactic(auto)]

mod calls;
mod commits;
mod detached_core;
mod drops;
mod ends;
mod next_area;
mod parts;
mod reservations;
mod steps;
mod undo;
mod views;

pub use calls::Called;
pub use detached_core::DetachedCore;
pub use next_area::Rest;
pub use parts::{Commit, Core};
pub use steps::{Going, Stepping};

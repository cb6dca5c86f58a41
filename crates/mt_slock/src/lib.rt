//! The semantic locks that transactions hold on keys, counters and relations (Weikum 1991). With them is the rule by
//! which a transaction waits or dies if another is in its way.
//!
//! A table keeps each locked object with its holders in order of grant, and of each transaction the locks it holds.
//! So asking looks at the holders of the objects asked for, two at most, and a release at the locks of one
//! transaction. Contracts see which locks are held, as a test of a transaction, an object and a mode. The laws of the
//! table stand in [`laws`].
#![tactic(auto)]

mod holders;
pub mod laws;
mod locked;
mod notes;
mod standings;
mod table;

pub use holders::Holder;
pub use table::{Asked, Fresh, LockTable};

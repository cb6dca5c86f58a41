//! What lies under the lock of a kernel that threads share: the kernel, with its end of the mark of one history.
//! Nothing here waits.
//!
//! [`Locked`] is that value. Each that takes part holds a [`Pass`], and a token, [`Txn`], of its open transaction.
//!
//! The lock, and the calls that wait, are in `mt_shared`, which passes on the types alone. What gives and spends
//! tokens stays here: no clause says how many transactions a pass has.
#![tactic(auto)]

mod locked;
mod names;
mod pass;
mod passes;
mod returned_passes;
mod rotation;
mod txn;
mod txn_calls;

pub use locked::{Due, Locked, Unclosed};
pub use names::Naming;
pub use pass::Pass;
pub use passes::passes_of;
pub use txn::{Refused, Txn, give_token, put_calls, spend_token, take_calls};
pub use txn_calls::TxnCalls;

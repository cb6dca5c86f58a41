//! The live transactions of the transaction kernel: what of them stands, and why every state that they
//! leave is explained. [`laws`] has the reasons, proved of a kernel without pages: strict locks whose
//! modes commute (Weikum 1991), escrow (O'Neil 1986) and inverses. [`mistakes`] has what goes wrong
//! without them.
#![tactic(auto)]

pub mod laws;
mod live;
pub mod mistakes;
mod places;
mod transactions;

pub use live::{Effect, Live};
pub use transactions::{Ended, Role, TxnState};

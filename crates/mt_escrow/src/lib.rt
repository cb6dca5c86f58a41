//! Escrow (O'Neil 1986): which adds to a counter are granted while others are pending.
//!
//! An add that was granted is pending until its transaction commits or takes it back. One that goes back to a savepoint
//! sets aside what it takes back, until it ends. A counter stays in its bounds whichever of its granted adds are made.
//! So no commit and no abort ever has to be refused for its sake. Of the granted adds to a counter two sums are kept,
//! of those down and of those up, and these two decide.
#![tactic(auto)]

mod accounts;
mod arithmetic;
mod rooms;

pub use accounts::Escrow;

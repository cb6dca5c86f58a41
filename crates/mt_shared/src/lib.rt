//! A kernel that threads share: under one lock, with the mark of one history beside it.
//!
//! [`Opened::open`] opens a device and makes the mark of its kernel, and [`Opened::new`] that of a kernel.
//! [`Opened::named`] makes what is shared, [`Shared`], with a [`Pass`] for each that takes part. A pass begins one
//! transaction at a time, of which it holds the token, [`Txn`]. A token that is lost is refused by the compiler: a
//! commit or an abort spends it. A thread's [`Hold`] keeps the lock over a few of its calls.
//!
//! What a pass has seen is legal from the base that the kernel began on, and begins the one history that all see. It
//! grows by exactly its own commits, each after all that it had seen. What a token was answered is what the book has
//! at its position. A look is one load of the mark, and takes no lock.
//!
//! Who waits sleeps, and is woken by what may end its wait; a device that fails wakes all. No lock is poisoned:
//! nothing here can panic.
#![tactic(auto)]

mod gate;
mod hold;
mod opened;
mod shared;

pub use gate::{Gate, Point};
pub use hold::Hold;
pub use mt_locked::{Locked, Naming, Pass, Refused, Txn};
pub use mt_txn::LogUse;
pub use opened::Opened;
pub use shared::{Closed, Shared, Tended};

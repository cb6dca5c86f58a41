//! The model that the transaction kernel is held against: a map on which operations act one at a
//! time. It knows no pages, locks or log.
//!
//! A base holds the rows of some relations, each a value under a key, and some counters with
//! bounds. Contracts see a base as two look-ups, `base_of`, and say of an operation what it replies,
//! `reply_of`, and what base it leaves, `base_after`. Every crate above states what it promises in
//! these words. The laws of the model stand in [`laws`].
#![tactic(auto)]

mod counters;
mod history;
pub mod laws;
mod objects;
mod operations;
mod pending_add;
mod tables;

pub use counters::Count;
pub use history::{Calls, Committed};
pub use mt_rows::Row;
pub use objects::{Asks, Lock, Object};
pub use operations::{Op, Reply};
pub use pending_add::Pending;
pub use tables::Base;

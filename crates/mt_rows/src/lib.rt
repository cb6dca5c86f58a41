//! Rows: a value under each key of a relation, in order of relation and key bytes, each key once.
//!
//! Contracts see the list, and of it the look-ups, `value_at`. Look-ups have one list in order at most. So a base can
//! have its rows in order beside its look-ups, and two bases with the same look-ups are the same. That law, and that
//! a relation's rows are known by its look-ups, stand in [`laws`].
#![tactic(auto)]

pub mod laws;
mod rows;

pub use rows::{Row, Rows};

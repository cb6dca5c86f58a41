//! Scripts served at once, by threads that share a kernel. Each script is a session of its own, with a transcript
//! that is true of the one history. A transaction that has to die is taken back, its answers are dropped, and it is
//! run again. A refusal is an answer, and the script goes on.
//!
//! Begin at [`serve`]. [`read_script`], which reads scripts, and [`run_alone`], which runs one by itself, are passed on.
#![tactic(auto)]

mod attempts;
mod board;
mod crew;
mod line_answers;
mod service;
mod session;
mod transcript;

pub use mt_alone::{RunFault, run_alone};
pub use mt_script::{Script, ScriptFault, read_script};
pub use service::{Served, serve};
pub use transcript::Transcript;

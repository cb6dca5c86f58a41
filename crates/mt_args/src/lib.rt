//! The words of a command line: which command they name, with its numbers and the files that it names.
#![tactic(auto)]

mod command;
mod numbers;
mod parsers;
mod run_words;
mod waits;

pub use command::{CliFault, Command, command_of};
pub use numbers::{Growth, Numbers};
pub use run_words::Serving;

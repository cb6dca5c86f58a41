//! The commands on a device in a file that run no script: `check` and `explain` read a copy of it, `dump` opens it,
//! `format` makes one, and `migrate` carries it over to format 2. Each answers a `Fault` of mt_report if it does not
//! end well.
//!
//! A file that is open in another program is asked for again, for as long as a command has [`Patience`].
#![tactic(auto)]

mod check_command;
mod dump_command;
mod explain_command;
mod format_command;
mod migrate_command;
mod waits;

pub use check_command::perform_check;
pub use dump_command::perform_dump;
pub use explain_command::perform_explain;
pub use format_command::perform_format;
pub use migrate_command::perform_migrate;
pub use waits::Patience;

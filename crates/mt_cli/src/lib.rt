//! The commands of `mtk`: what each of them does, and what is reported if it is refused. Scripts and schedules are read
//! by name, and scripts are served to the device in a file. Files and streams are passed in, so all of it runs in tests
//! too; the program is one call of [`perform_words`].
#![tactic(auto)]

mod at_once;
mod commands;
mod named_inputs;
mod run_command;
mod text_faults;

pub use commands::{perform, perform_words};
pub use mt_args::{CliFault, Command, Numbers, Serving, command_of};
pub use mt_folder::{DiskFolder, Folder, MemFolder, Reason};
pub use mt_shared::{Gate, Point};

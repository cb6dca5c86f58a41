//! Scripts that run one after the other on a kernel that nobody else has. A script is read whole, line by line, before
//! any of it runs. Each of its lines is answered by a line of the transcript. A refusal is an answer, and the script
//! goes on, or stops there if it is to. Several scripts are sessions of their own, and the log is turned over between
//! their transactions.
//!
//! Readers and writers are passed in, and their bytes are what contracts speak of. Begin at [`run_script`], or at
//! [`run_sessions`] for several scripts. [`run_alone`] leaves the kernel in its place, and turns no log over.
#![tactic(auto)]

mod alone;
mod forces;
mod laws;
mod operation_steps;
mod returns;
mod rotation;
mod script_run;
mod sessions;
mod stops;
mod turns;

pub use alone::{RunFault, run_alone};
pub use laws::what_counts_leads;
pub use rotation::NotServed;
pub use script_run::run_script;
pub use sessions::{run_sessions, write_session};
pub use stops::Stop;

//! Kernels over devices that were used before, and what such a device represents. [`open`] recovers a device,
//! whatever a crash left of it, [`open_with_survey`] also surveys it, and [`rotate`] turns the log of a kernel over.
//! All make the same recovery.
//! [`inspect`], [`report`] and [`check`] only read.
//!
//! What formats a device is in `mt_format`, whose calls are passed on here. One clause of [`open`] alone speaks of a
//! format: as a device is formatted, its log can turn over.
#![tactic(auto)]

mod area_renewal;
mod beside;
mod first_images;
mod format_replay;
mod inspection;
mod log_report;
mod migration;
mod opened_kernel;
mod recovery;
mod report_figures;
mod restart_writes;
mod rotation;
mod slot_writes;
mod standing;
mod surveyed_kernel;

pub use inspection::inspect;
pub use log_report::{check, report};
pub use migration::migrate;
pub use mt_format::{Schema, format, fresh};
pub use opened_kernel::open;
pub use report_figures::Report;
pub use rotation::rotate;
pub use standing::Standing;
pub use surveyed_kernel::open_with_survey;

//! What a device is formatted with, its format, and the kernel over a device as it was formatted.
//!
//! A [`Schema`] says how many pages, relations and counters there are, and how large a log area is. After [`format`]
//! the device's pages hold a base without rows whose counters are at their starts. [`fresh`] begins a kernel there.
//! No log is read here and no page is restored: that is mt_restart's, which needs what a formatted device holds.
#![tactic(auto)]

mod first_pages;
mod format_calls;
mod fresh_kernel;
mod fresh_layers;
mod schema;

pub use format_calls::format;
pub use fresh_kernel::fresh;
pub use schema::Schema;

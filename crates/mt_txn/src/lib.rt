//! The transaction kernel over pages. Sessions begin transactions, call operations in them, step these to their end,
//! and commit or abort. Commits become durable by the steps of a force. Open nested transactions (Weikum 1991) with
//! escrow (O'Neil 1986).
//!
//! Each public call of [`Kernel`] is at most one event of the laws of mt_live, but for a force step, which books each
//! commit that it made durable. None waits for anybody. `Shows`, in specs, ties a kernel to a state of these laws.
#![tactic(auto)]

mod aborts;
mod answers;
mod begins;
mod calls;
mod causes;
mod commits;
mod detached_kernel;
mod kernel;
mod kernel_rest;
mod log_use;
mod next_area;
mod savepoints;
mod steps;
mod surveys;

pub use answers::{AbortStepped, KernelForced, Stepped};
pub use detached_kernel::DetachedKernel;
pub use kernel::Kernel;
pub use kernel_rest::KernelRest;
pub use log_use::LogUse;
pub use mt_core::Called;
pub use mt_log::FORCE_STEPS;
pub use mt_op::Survey;
pub use mt_pool::Flushed;

//! Operations as subtransactions over pages: what one operation locks, reads and changes, step by step,
//! and what all pages together represent. An operation's page locks end with it (Weikum 1991); the plan
//! here says which it needs, and changes nothing itself.
#![tactic(auto)]

mod act;
mod continued_plan;
mod copies;
mod counter_plan;
mod delete_plan;
mod get_plan;
mod insert_plan;
mod joined_plan;
mod laws;
mod listed_base;
mod logged_operation;
mod operation_plan;
mod scan_plan;
mod scan_progress;
mod update_plan;

pub use act::Act;
pub use continued_plan::plan_over;
pub use copies::{Copies, SpareCopies};
pub use laws::formatted_pages_are_good;
pub use listed_base::{base_of_rows, base_without_rows, list_rows};
pub use logged_operation::logged;
pub use operation_plan::{bytes_put, pages_for, pages_to_undo, plan};

//! What the bytes of a device represent: which master slot rules, and the pages that its log's area found. What the
//! records there make of them comes next, and the base that is left once the losers are undone.
//!
//! History is repeated for all operations alike, with what is unfinished put back by page (Mohan 1992, Lomet 1992).
//! The finished operations of transactions that have not ended are then undone by their inverses (Weikum 1991). All
//! of it is done in memory: nothing here writes to a device.
#![tactic(auto)]

mod device_replay;
mod figures;
mod images;
mod laws;
mod losers;
mod page_slots;
mod pages_held;
mod repeat;
mod schema_extension;
mod undo_pass;

pub use device_replay::{Replayed, read_area, read_log, replay, replay_by};
pub use figures::Figures;
pub use laws::{each_inverse_finds, only_own_pages_matter, restart_finds_the_base};
pub use losers::{Loser, losers_of};
pub use schema_extension::extend_schema;
pub use undo_pass::{Restored, effect_of};

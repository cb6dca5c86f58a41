//! Which records may follow which in an area of the log: the rules over all records of an area, as mt_frame has those
//! over one record and one batch. A scan asks them of each batch that it reads.
#![tactic(auto)]

mod area_rules;

pub use area_rules::{AreaRules, note_operation};

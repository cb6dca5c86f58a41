//! Whether all pages of a device break no rule of their formats and of the index, whatever their bytes are. mt_slots,
//! mt_bucket, mt_index and mt_counters test a page's own bytes. Here they are asked, and what entries and records say
//! of one another is tested.
#![tactic(auto)]

mod page_rules;

pub use page_rules::AllPages;

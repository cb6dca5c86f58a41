//! An index over pages: extendible hashing (Fagin 1979), a finite map from a relation and a key to the name of a
//! record. Page 1 is a directory of pointers to bucket pages; buckets split, and chain overflow pages. A plan reads
//! pages where they are lent. It answers which page it still needs, or the changes of pages that change the map at
//! its key alone; it writes nothing itself. For how a bucket page is read see `mt_bucket`.
#![tactic(auto)]

mod answers;
mod bucket_marks;
mod bucket_split;
mod chain;
mod directory;
mod directory_rules;
mod entry_changes;
mod entry_insertion;
mod entry_rules;
mod index_rules;
mod insertion_plan;
mod laws;
mod lookup;
mod page_change;
mod pointer_rules;
mod record_names;

pub use answers::{Add, Amend, Find, Names, Search};
pub use directory::{DIRECTORY_HEAD_BYTES, MAX_DEPTH, depth};
pub use directory_rules::check_directory;
pub use entry_changes::{plan_drop, plan_set};
pub use index_rules::check;
pub use insertion_plan::plan_add;
pub use laws::{
    a_bucket_is_named_by_its_pattern, a_formatted_index_is_the_empty_map,
    other_changes_keep_the_map,
};
pub use lookup::plan_find;
pub use record_names::{Gathering, plan_names};

//! A bucket page of the index, in place on its 4,096 bytes. Its head has the bucket's depth, the count of entries and
//! the overflow page after; 58 cells of 70 bytes follow. Contracts see a page as the list of its entries, whatever
//! its bytes are. An entry is a relation, a key and the name of the record under them, and each call is an operation
//! of that list. The hash by which a bucket splits is here too (Fagin 1979).
//!
//! Nothing is decoded: a find compares the cells where they lie.
#![tactic(auto)]

mod entry_changes;
mod heads;
mod key_hash;
mod lookup;
mod page_rules;

pub use entry_changes::{partition, push, remove, set};
pub use heads::{
    CELL_BYTES, HEAD_BYTES, MAX_ENTRIES, count, depth, empty, next, set_depth, set_next,
};
pub use key_hash::{has_bit, hash};
pub use lookup::{EntryView, entry, find, name_in, place_of};
pub use page_rules::check;

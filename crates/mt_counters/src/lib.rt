//! The counters page of a device: how many relations and counters its schema has, and each counter's two bounds and
//! number. Calls read the page's bytes, or change them in place; no other page is known here. Plans of mt_steps call
//! it on copies of the page. A restart tests the page, a migration extends it, and a format writes the first one.
#![tactic(auto)]

mod counters;

pub use counters::{
    COUNTER_BYTES, COUNTERS_HEAD_BYTES, SchemaSizes, add, check, counter, counters_fit, extend,
    number_bytes, put_counter, sizes,
};

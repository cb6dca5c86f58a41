//! The mark of the history: one word that counts the transactions that are entered. All threads share it, and what
//! each pass has seen of them. Nobody waits, and no step but the first takes memory.
//!
//! The end of the mark names the next entry. The pass whose entry it is counts the word up by one, and the end
//! confirms it. The rule that every step keeps: the history is the first entries of the end's list, as many as the
//! word says. It is legal from the base at the opening. What a pass has seen begins it, and holds every entry of its
//! own. Contracts alone see the lists; the code keeps only the word.
#![tactic(auto)]

mod rule;
mod seats;
mod view;

pub use rule::Law;
pub use seats::{End, Seat, new};
pub use view::{About, Entry, View};

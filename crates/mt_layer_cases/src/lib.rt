//! The tests of the layers below operations, and of the mark that threads share, through their public calls. They are
//! outside vectors, printed texts, and worked rows that no script, schedule or command can state. The others are rows
//! of `tests/rows`, which the program runs.
#![tactic(auto)]

#[cfg(test)]
mod base;
#[cfg(test)]
mod bucket;
#[cfg(test)]
mod frame;
#[cfg(test)]
mod index;
#[cfg(test)]
mod mark;
#[cfg(test)]
mod plock;
#[cfg(test)]
mod slock;
#[cfg(test)]
mod slots;
#[cfg(test)]
mod space;

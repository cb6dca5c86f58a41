// The entries of a history, what a mark is made about, and what contracts see of a mark and its seats.
use mt_model::{Base, Committed};
use std::collections::LinkedList;
use std::snapshot::Snapshot;

/// One transaction of the history: what it did, and the number of the pass that entered it. That is 0 if it was in
/// the book already when the mark was made.
#[derive(Drop)]
pub struct Entry {
    pub pass: u64,
    pub done: Committed,
}

/// What a mark is made about, seen by contracts alone: the base at the opening, and the book so far. It takes
/// no bytes.
#[derive(Drop)]
pub struct About {
    pub base: Snapshot<Base>,
    pub book: Snapshot<Vec<Committed>>,
}

/// What a seat of the mark knows. No value of it is made: contracts alone see one.
///
/// The end `keeps` the list, and may have named one entry more than the word counts. A pass `sees` a
/// beginning of the history. A note gives each the other's list as its `known`, which begins the end's, and says
/// that `sure` entries at least are counted. `made` is one more than there are passes, whose numbers are those below
/// it from 1 on. `base` is the base at the opening, and `book` the book that stood when the mark was made.
pub struct View {
    pub keeps: bool,
    pub sees: bool,
    pub number: u64,
    pub made: u64,
    pub list: LinkedList<Entry>,
    pub known: LinkedList<Entry>,
    pub sure: u64,
    pub base: Base,
    pub book: LinkedList<Committed>,
}

// What a plan of the record file answers: a page that it needs first, or what changes, or that no page takes it.
use mt_base::{PageNo, RecordName};
use mt_space::Changes;

/// What changes in which pages, and the name of the record that it is about: where it was put, or where
/// it was taken from.
#[derive(Debug, Drop)]
pub struct Plan {
    /// The changes, of each page once.
    pub changes: Changes,
    /// The record's name.
    pub name: RecordName,
}

/// The answer of a plan.
#[derive(Debug, Drop)]
pub enum Step {
    /// This page has to be at hand first, locked for write. Then the plan is made anew.
    Need(PageNo),
    /// All that changes.
    Done(Plan),
    /// The page that was named has no room for the record, or none was named and no page is free.
    Full,
}

// What the plans of the index answer: a page that they need, what they found, or what changes.
// `Held`, `Spot` and `Gathered` are answers within this crate. And how far the search for a key has come.
use mt_base::{Mode, PageNo, RecordName};
use mt_space::Changes;

/// What a find answers.
#[derive(Clone, Copy, Debug)]
pub enum Find {
    /// This page is needed first, to be read at least.
    Need(PageNo),
    /// The name of the record under the key.
    Found(RecordName),
    /// There is no record under the key.
    Missing,
    /// The pages are no index: a chain comes back to itself.
    Endless,
}

/// How far the search for a key's entry has come. As more pages come to hand it goes on from there.
#[derive(Clone, Copy, Debug)]
pub enum Search {
    /// It begins.
    Start,
    /// It is at this page of the key's bucket; those before it have no entry of the key.
    At(PageNo),
    /// The record under the key has this name.
    Found(RecordName),
}

// Where a key's entry is.
#[derive(Clone, Copy)]
pub(crate) enum Held {
    Need(PageNo, Mode),
    In(PageNo, RecordName),
    Nowhere,
    Endless,
}

/// What a change of one entry, or its removal, answers.
#[derive(Debug, Drop)]
pub enum Amend {
    /// This page is needed first, in this mode.
    Need(PageNo, Mode),
    /// The changes that do it.
    Changes(Changes),
    /// There is no record under the key.
    Missing,
    /// The pages are no index: a chain comes back to itself.
    Endless,
}

/// What an add answers.
#[derive(Debug, Drop)]
pub enum Add {
    /// This page is needed first, in this mode.
    Need(PageNo, Mode),
    /// The changes that do it.
    Changes(Changes),
    /// It takes a page, or two, and there are not so many free.
    Full,
    /// The pages are no index: a chain comes back to itself.
    Endless,
}

/// What the gathering of a relation's names answers.
#[derive(Clone, Copy, Debug)]
pub enum Names {
    /// This page is needed first, for read.
    Need(PageNo),
    /// All names of the relation's records are gathered.
    Named,
    /// The pages are no index: a chain comes back to itself.
    Endless,
}

// What comes of the gathering of a bucket's names.
#[derive(Clone, Copy)]
pub(crate) enum Gathered {
    Need(PageNo),
    Whole,
    Endless,
}

// Where in its bucket an entry goes: into a page with room, or after the last page, which may be the only one.
pub(crate) enum Spot {
    Need(PageNo, Mode),
    In(PageNo),
    Behind { last: PageNo, alone: bool },
    Endless,
}

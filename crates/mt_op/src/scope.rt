// An operation under way as a value: its page locks, its copies of pages, its plan, and how far it has come.
// mt_core keeps it between the steps and lends it to each. It cannot be dropped: its end gives its locks back.
ghost use Rattle.std.specs.Prelude.{◌≡◌};

use mt_base::{OpNo, PageNo, TxnNo};
use mt_index::Search;
use mt_model::{Op, Reply};
use mt_plock::PageGuard;
use mt_space::Changes;
use mt_steps::Copies;

/// How far an operation has come.
#[derive(Clone, Copy, PartialEq, Eq, Debug)]
pub enum Stage {
    /// It locks pages and looks at them, and has written none.
    Planning,
    /// It knows what it changes, and writes one page after the other.
    Writing,
    /// Its end is in the log if one is due; it is to be ended.
    Ready,
    /// Some of the pages that it wrote are put back.
    Taking,
    /// Nothing of it is left but its locks; it is to be dropped out.
    Cleared,
}

/// An operation under way, with its page locks and copies of the pages that it looked at.
///
/// It cannot be dropped: it is spent by [`Operations::end`](crate::Operations::end) or
/// [`Operations::drop_out`](crate::Operations::drop_out), or with everything else by
/// [`Operations::into_device`](crate::Operations::into_device).
pub struct OpScope {
    pub(crate) txn: TxnNo,
    pub(crate) number: OpNo,
    pub(crate) op: Op,
    // the operation that it takes back, or 0
    pub(crate) undoes: u64,
    pub(crate) split: bool,
    // log bytes that are kept for it
    pub(crate) left: u64,
    // the page of records that it was led to, if any
    pub(crate) room: Option<PageNo>,
    pub(crate) guards: Vec<PageGuard>,
    pub(crate) seen: Copies,
    // how far it has come on the way to its key
    pub(crate) search: Search,
    pub(crate) stage: Stage,
    // what it changes, once it is planned
    pub(crate) changes: Changes,
    pub(crate) reply: Option<Reply>,
    // how many of these changes are in the log, and how many still stand in the pages
    pub(crate) written: usize,
    pub(crate) standing: usize,
}

impl OpScope {
    /// Its transaction.
    pub fn txn(&self) -> TxnNo
        ensures { result ≡ self.now.txn }
    {
        self.txn
    }

    /// Its number, by which a [`Stepped::Wait`](crate::Stepped::Wait) names it.
    pub fn number(&self) -> OpNo
        ensures { result ≡ self.now.number }
    {
        self.number
    }

    /// The operation.
    pub fn op(&self) -> &Op
        ensures { result.now ≡ self.now.op }
    {
        &self.op
    }

    /// The number of the operation that it takes back, or 0.
    pub fn undoes(&self) -> u64
        ensures { result ≡ self.now.undoes }
    {
        self.undoes
    }

    /// Whether, as an insert, it may split a bucket of the index; [`pages_for`](mt_steps::pages_for) of the operation
    /// and of this is its claim.
    pub fn split(&self) -> bool
        ensures { result ≡ self.now.split }
    {
        self.split
    }

    /// The log bytes that are still kept for it. Once it has ended, or was taken back, they are free for others.
    pub fn left(&self) -> u64
        ensures { result ≡ self.now.left }
    {
        self.left
    }

    // The operation, its guards, and its copies of the pages that it looked at. The rest of it is dropped.
    pub(crate) fn into_parts(self) -> (Op, Vec<PageGuard>, Copies)
        ensures { result ≡ (self.op, self.guards, self.seen) }
    {
        let OpScope {
            txn: _,
            number: _,
            op,
            undoes: _,
            split: _,
            left: _,
            room: _,
            guards,
            seen,
            search: _,
            stage: _,
            changes: _,
            reply: _,
            written: _,
            standing: _,
        } = self;
        (op, guards, seen)
    }
}

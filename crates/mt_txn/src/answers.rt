// What the kernel's calls answer if they are not refused.
use mt_base::TxnNo;
use mt_model::Reply;

/// What a step of an operation answers.
#[derive(Debug, Drop)]
pub enum Stepped {
    /// The operation went on.
    Went,
    /// This transaction's operation has a page in the way. Nothing has changed.
    Wait(TxnNo),
    /// The operation gave back its pages, and begins anew.
    Again,
    /// A frame has to be flushed first. Nothing has changed.
    Flush,
    /// The operation has ended with this reply.
    Replied(Reply),
}

/// What a step of a force answers.
#[derive(Debug, Drop)]
pub enum KernelForced {
    /// A call of the device was made, and more are to come.
    More,
    /// There is nothing to force.
    Idle,
    /// These transactions are durable, in the order of their commits; there may be none.
    Durable(Vec<TxnNo>),
}

/// What a step of an abort answers, or of going back to a savepoint.
#[derive(Clone, Copy, PartialEq, Eq, Debug)]
pub enum AbortStepped {
    /// It went on.
    More,
    /// This transaction's operation has a page in the way. Nothing has changed.
    Wait(TxnNo),
    /// An inverse gave back its pages, and begins anew.
    Again,
    /// A frame has to be flushed first. Nothing has changed.
    Flush,
    /// Nothing is left to undo. After an abort the transaction lives no more; after going back it is open.
    Ended,
}

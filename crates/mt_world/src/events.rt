// What is asked of a kernel, and what it answers.
use mt_base::{Refusal, TxnNo};
use mt_model::Op;
use mt_txn::{AbortStepped, Called, Flushed, KernelForced, Stepped};

/// What is asked of a kernel: each event is one of its calls, or a rotation of its log.
#[derive(Debug, Drop)]
pub enum Event {
    /// A transaction of this session begins.
    Begin(u32),
    /// An open transaction calls an operation.
    Call(TxnNo, Op),
    /// The operation of a transaction makes a step.
    Step(TxnNo),
    /// The commit of an open transaction begins.
    Commit(TxnNo),
    /// The abort of an open transaction begins.
    AbortBegin(TxnNo),
    /// An abort makes a step.
    AbortStep(TxnNo),
    /// An open transaction begins to go back to where its first so many operations had ended, of those that count.
    Back(TxnNo, u16),
    /// A transaction that goes back makes a step.
    BackStep(TxnNo),
    /// The log is forced a step further.
    Force,
    /// A frame is flushed.
    Flush,
    /// The log is turned over.
    Rotate,
}

/// What the kernel's call answers to an event.
#[derive(Debug, Drop)]
pub enum Answer {
    /// The transaction with this number has begun.
    Begun(TxnNo),
    /// The operation is started, or waits for a lock.
    Called(Called),
    /// What the operation's step came to.
    Stepped(Stepped),
    /// The commit has this position in the opening's order, once its record is durable.
    Committing(u64),
    /// The transaction is to be undone.
    Aborting,
    /// What the abort's step came to.
    Undone(AbortStepped),
    /// The transaction is to go back.
    Returning,
    /// What the step of going back came to.
    Returned(AbortStepped),
    /// What the force's step came to.
    Forced(KernelForced),
    /// What was flushed.
    Flushed(Flushed),
    /// The log is turned over, and the state is as before.
    Rotated,
    /// It was refused, and the state is as before. If the device failed in a rotation, no kernel may stand after it.
    Refused(Refusal),
}

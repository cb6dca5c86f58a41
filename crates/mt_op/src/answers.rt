// What a step of an operation answers, forward or back. The operation that is in its way is named by its number.
use mt_base::OpNo;
use mt_model::Reply;

/// What a step of an operation did.
#[derive(Debug, Drop)]
pub enum Stepped {
    /// It locked a page and looked at it, or wrote one.
    Went,
    /// Nothing: this operation, which is the smallest that holds a lock in the way, is to be waited for. It is
    /// larger.
    Wait(OpNo),
    /// It gave all its locks back and begins anew, without a trace. This operation, which is the smallest that holds
    /// a lock in the way, is smaller. It does well to wait for the end of that one.
    Again(OpNo),
    /// Nothing: every frame holds a page that is yet to be flushed.
    Flush,
    /// The operation has acted on the base that the pages hold; its end is in the log, if one is due. It
    /// has to be ended. This is its reply, twice: one to keep and one to answer.
    Ready(Reply, Reply),
}

/// What a step of a taking back did.
#[derive(Clone, Copy, PartialEq, Eq, Debug)]
pub enum TakenBack {
    /// A page was put back.
    More,
    /// Nothing: every frame holds a page that is yet to be flushed.
    Flush,
    /// Nothing of the operation is left but its locks. It has to be dropped out.
    Clear,
}

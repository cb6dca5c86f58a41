// The records of the log as values, with the operations that their ends log: copies and lengths.
// Their bytes are written in `encoders` and read in `decoders`.
ghost use Rattle.std.specs.Prelude.{◌≡◌, ◌↔◌, IsTrue, IfOk};
ghost use Rattle.mt_frame.specs.Grammar.{IsRecord, IsOfPage, IsOperation};
ghost use Rattle.mt_frame.specs.Grammar.{txn_of};
ghost use Rattle.mt_frame.specs.Lengths.{record_length, operation_length};
ghost use Rattle.mt_frame.specs.PageRecords.{represented};

use mt_base::{Bytes, CtrNo, OpNo, PageNo, RelNo, TxnNo};
use std::alloc::AllocError;

/// An operation that has ended, with all that its inverse needs. An operation without effect and a
/// read are not logged.
#[derive(Debug, Drop)]
pub enum LoggedOp {
    /// The key was put into the relation with this value.
    Insert {
        relation: RelNo,
        key: Bytes,
        value: Bytes,
    },
    /// The key's value, which was `old`, was replaced.
    Update {
        relation: RelNo,
        key: Bytes,
        value: Bytes,
        old: Bytes,
    },
    /// The key, whose value was `old`, was taken out.
    Delete {
        relation: RelNo,
        key: Bytes,
        old: Bytes,
    },
    /// The step, which is not 0, was added to the counter.
    Add {
        counter: CtrNo,
        step: i64,
    },
}

/// A record of the log.
#[derive(Debug, Drop)]
pub enum Record {
    /// A change of the page's bytes from `start` on: they were `old` and are `new`. The page's first
    /// change in a log area carries the page as it was before, the image. Of transaction 0 it is no
    /// change but the image alone, as a rotation or a restart writes it.
    Page {
        txn: TxnNo,
        op: OpNo,
        page: PageNo,
        image: Option<Bytes>,
        start: u16,
        old: Bytes,
        new: Bytes,
    },
    /// The operation has ended. If `undoes` is not 0, it is the inverse of the operation of that
    /// number.
    OpEnd {
        txn: TxnNo,
        op: OpNo,
        undoes: u64,
        done: LoggedOp,
    },
    /// The unfinished operation was taken back.
    OpDropped {
        txn: TxnNo,
        op: OpNo,
    },
    /// The transaction has committed.
    Commit {
        txn: TxnNo,
    },
    /// The transaction has been undone.
    AbortEnd {
        txn: TxnNo,
    },
}

/// A page's record whose bytes are lent. It represents the [`Record::Page`] that has copies of them, and goes into a
/// log without them.
#[derive(Clone, Copy)]
pub struct PageRecord<'a> {
    /// The transaction whose change it is.
    pub txn: TxnNo,
    /// The operation that makes the change.
    pub op: OpNo,
    /// The page.
    pub page: PageNo,
    /// The whole page as it was before, if the area has no image of it yet.
    pub image: Option<&'a [u8]>,
    /// The offset of the first byte that changes.
    pub start: u16,
    /// The bytes from there on before the change.
    pub old: &'a [u8],
    /// The bytes there after it, as many.
    pub new: &'a [u8],
}

// What stands before the bytes of a page record.
#[derive(Clone, Copy)]
pub(crate) struct PageHead {
    pub(crate) txn: u64,
    pub(crate) op: u64,
    pub(crate) page: u16,
    pub(crate) has_image: bool,
    pub(crate) start: u16,
    pub(crate) length: u16,
}

impl LoggedOp {
    /// A copy. The only error is want of memory.
    pub fn try_clone(&self) -> Result<LoggedOp, AllocError>
        ensures { IfOk result (λ copy. copy ≡ self.now) }
    {
        match self {
            LoggedOp::Insert {
                relation,
                key,
                value,
            } => Ok(LoggedOp::Insert {
                relation: *relation,
                key: key.try_clone()?,
                value: value.try_clone()?,
            }),
            LoggedOp::Update {
                relation,
                key,
                value,
                old,
            } => Ok(LoggedOp::Update {
                relation: *relation,
                key: key.try_clone()?,
                value: value.try_clone()?,
                old: old.try_clone()?,
            }),
            LoggedOp::Delete { relation, key, old } => Ok(LoggedOp::Delete {
                relation: *relation,
                key: key.try_clone()?,
                old: old.try_clone()?,
            }),
            LoggedOp::Add { counter, step } => Ok(LoggedOp::Add {
                counter: *counter,
                step: *step,
            }),
        }
    }

    // The bytes of its text, the tag included.
    pub(crate) fn length(&self) -> usize
        requires { IsOperation self.now }
        ensures { result ≡ operation_length self.now }
    {
        match self {
            LoggedOp::Insert { key, value, .. } => 5 + key.len() + value.len(),
            LoggedOp::Update {
                key,
                value,
                old,
                ..
            } => 7 + key.len() + value.len() + old.len(),
            LoggedOp::Delete { key, old, .. } => 5 + key.len() + old.len(),
            LoggedOp::Add { .. } => 10,
        }
    }
}

impl Record {
    /// The record's transaction; 0 for an image alone.
    pub fn txn(&self) -> TxnNo
        ensures { result ≡ txn_of self.now }
    {
        match self {
            Record::Page { txn, .. } => *txn,
            Record::OpEnd { txn, .. } => *txn,
            Record::OpDropped { txn, .. } => *txn,
            Record::Commit { txn } => *txn,
            Record::AbortEnd { txn } => *txn,
        }
    }

    /// How many bytes its text takes in a batch's body. A page takes 24 and its bytes, and an operation's end 25 and
    /// the operation's. An operation taken back takes 17, and the end of a transaction 9.
    pub fn length(&self) -> usize
        requires { IsRecord self.now }
        ensures { result ≡ record_length self.now }
    {
        match self {
            Record::Page {
                image,
                old,
                new,
                ..
            } => {
                let image_bytes = match image {
                    Some(image) => image.len(),
                    None => 0,
                };
                24 + image_bytes + old.len() + new.len()
            }
            Record::OpEnd { done, .. } => 25 + done.length(),
            Record::OpDropped { .. } => 17,
            Record::Commit { .. } => 9,
            Record::AbortEnd { .. } => 9,
        }
    }
}

impl PageRecord<'_> {
    /// How many bytes its text takes in a batch's body: 24 and its bytes.
    pub fn length(&self) -> usize
        requires { IsRecord (represented self.now) }
        ensures { result ≡ record_length (represented self.now) }
    {
        let image_bytes = match self.image {
            Some(image) => image.len(),
            None => 0,
        };
        24 + image_bytes + self.old.len() + self.new.len()
    }
}

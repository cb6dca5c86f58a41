// The operations of a log that have not ended.
ghost use Rattle.std.specs.Prelude.{◌≡◌, IfOk, OnOk};
ghost use Rattle.std.specs.List.{list_any};
ghost use Rattle.mt_log.specs.Batch.{joined};
ghost use Rattle.mt_log.specs.Found.{records_of};
ghost use Rattle.mt_explain.specs.Explanations.{is_one, leave_out, note_all, noted, unfinished};

use mt_base::{OpNo, TxnNo};
use mt_frame::Record;
use mt_log::Batch;
use std::alloc::{AllocError, Global};

/// An operation with changes of pages in the log, and neither an end nor a taking back.
#[derive(Clone, Copy, PartialEq, Eq, Debug)]
pub(crate) struct Unfinished {
    /// Its transaction.
    pub(crate) txn: TxnNo,
    /// Its number.
    pub(crate) op: OpNo,
}

/// Whether an operation is among these.
fn is_among(list: &[Unfinished], txn: TxnNo, op: OpNo) -> bool
    ensures { result ≡ list_any (is_one txn op) list.now }
{
    list.iter().any(|one| one.txn == txn && one.op == op)
}

/// Leaves an operation out.
fn leave(list: &mut Vec<Unfinished>, txn: TxnNo, op: OpNo)
    ensures { list.new.items ≡ leave_out txn op list.old.items }
{
    list.retain(|one| one.txn != txn || one.op != op);
}

/// Notes the next record.
fn note(list: &mut Vec<Unfinished>, entry: &Record) -> Result<(), AllocError>
    ensures { OnOk result (list.new.items ≡ noted list.old.items entry.now) }
{
    match entry {
        Record::Page { txn, op, .. } => {
            if txn.get() == 0 || is_among(list.as_slice(), *txn, *op) {
                Ok(())
            } else {
                list.push(Unfinished { txn: *txn, op: *op })?;
                Ok(())
            }
        }
        Record::OpEnd { txn, op, .. } => {
            leave(list, *txn, *op);
            Ok(())
        }
        Record::OpDropped { txn, op } => {
            leave(list, *txn, *op);
            Ok(())
        }
        Record::Commit { .. } => Ok(()),
        Record::AbortEnd { .. } => Ok(()),
    }
}

/// Notes the records of a batch.
fn note_batch(list: &mut Vec<Unfinished>, records: &[Record]) -> Result<(), AllocError>
    ensures { OnOk result (list.new.items ≡ note_all list.old.items records.now) }
{
    for entry in records {
        note(list, entry)?;
    }
    Ok(())
}

/// The operations of these batches that have not ended, in the order of their first records. The only error is want
/// of memory.
pub(crate) fn unfinished_of(alloc: Global, batches: &[Batch]) -> Result<Vec<Unfinished>, AllocError>
    ensures { IfOk result (λ list. list.items ≡ unfinished (joined (records_of batches.now))) }
{
    let mut list = Vec::new(alloc);
    for batch in batches {
        note_batch(&mut list, batch.records.as_slice())?;
    }
    Ok(list)
}

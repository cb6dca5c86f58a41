// Which records are of a format: those without a value that is longer than the format lets one be.
ghost use Rattle.std.specs.Prelude.{◌≡◌, ◌↔◌, IsTrue, true, false};
ghost use Rattle.mt_frame.specs.Grammar.{AreOfFormat, IsOperationOf, IsRecordOf};

use crate::records::{LoggedOp, Record};
use mt_base::Format;

fn operation_is_of(done: &LoggedOp, format: Format) -> bool
    ensures { IsTrue result ↔ IsOperationOf format done.now }
{
    let limit = format.value_limit();
    match done {
        LoggedOp::Insert { value, .. } => value.len() <= limit,
        LoggedOp::Update { value, old, .. } => value.len() <= limit && old.len() <= limit,
        LoggedOp::Delete { old, .. } => old.len() <= limit,
        LoggedOp::Add { .. } => true,
    }
}

fn record_is_of(entry: &Record, format: Format) -> bool
    ensures yes { result ≡ true → IsRecordOf format entry.now }
    ensures no { result ≡ false → IsRecordOf format entry.now → ⊥ }
{
    match entry {
        Record::OpEnd { done, .. } => operation_is_of(done, format),
        _ => true,
    }
}

// Whether each of the records is of the format.
pub(crate) fn are_of_format(records: &[Record], format: Format) -> bool
    ensures yes { result ≡ true → AreOfFormat format records.now }
    ensures no { result ≡ false → AreOfFormat format records.now → ⊥ }
{
    for entry in records {
        if !record_is_of(entry, format) {
            return false;
        }
    }
    true
}

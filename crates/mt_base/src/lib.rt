//! Numbers, limits, lock modes and refusals: the words that every crate of the transaction kernel speaks in. Beside
//! them are the bytes of keys and values, ranges of a page and what changed in it, and a history that only proofs
//! see.
#![tactic(auto)]

mod bytes;
mod edit_bytes;
mod edits;
mod format;
mod history;
pub mod limits;
mod modes;
mod numbers;
pub mod ranges;
mod refusal;
mod touched;

pub use bytes::Bytes;
pub use edit_bytes::EditBytes;
pub use edits::{Edit, edits_of};
pub use format::Format;
pub use history::History;
pub use modes::{LockMode, Mode};
pub use numbers::{CtrNo, LogPos, OpNo, PageNo, RecordName, RelNo, TxnNo};
pub use refusal::Refusal;
pub use touched::TouchedBytes;

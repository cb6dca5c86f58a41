//! The log's grammar: records and batches of them as bytes, and the master slots that say which log
//! area rules. All numbers are big endian. Each value has one text, and what is read is what was
//! written.
#![tactic(auto)]

mod decoders;
mod encoders;
mod fields;
mod formats;
mod laws;
mod records;
mod slots;

pub use decoders::{decode_batch, decode_body};
pub use encoders::{encode_batch, push_page_record, push_record};
pub use laws::{batches_are_read_back, lengths_are_of_texts, slots_are_read_back};
pub use records::{LoggedOp, PageRecord, Record};
pub use slots::{MasterSlot, SlotRead, decode_slot, encode_slot};

/// The gate of what is there to be read. A gate of any other value is closed.
pub const OPEN_GATE: u8 = 0xA5;

/// The closed gate that is written after each batch.
pub const CLOSED_GATE: u8 = 0x00;

// Records and batches as bytes. What writes into a buffer finds its memory there, so that none of it
// can fail halfway.
ghost use Rattle.std.specs.Prelude.{◌≡◌, ◌+◌, ◌≤◌, ◌<◌, ◌^◌, ◌++◌, ◌∷◌, [], length, is_some, OnOk, OnErr, IfOk, IfErr, IsOk};
ghost use Rattle.std.specs.Int.{w16, w32, w64, to_be_bytes, cast_unsigned};
ghost use Rattle.std.specs.Vec.{vec_len, vec_capacity};
ghost use Rattle.mt_base.specs.Limits.{IsKey, IsValue};
ghost use Rattle.mt_base.specs.declared.refusal.Refusal.{Refusal};
ghost use Rattle.mt_frame.specs.Grammar.{counted, operation_text, flag_number, image_text, head_text, record_text, body_text, batch_text, IsOfPage, IsOperation, IsRelation, IsRecord, IsBatchable, AreOfFormat};
ghost use Rattle.mt_frame.specs.Lengths.{operation_length, image_length, record_length};
ghost use Rattle.mt_frame.specs.PageRecords.{lent_image, represented};

use crate::OPEN_GATE;
use crate::records::{LoggedOp, PageHead, PageRecord, Record};
use byteorder::{BigEndian, ByteOrder};
use mt_base::{Bytes, Format, OpNo, Refusal, RelNo, TxnNo};
use std::alloc::{AllocError, Global};

// ---- numbers and bytes

fn put_bytes(out: &mut Vec<u8>, bytes: &[u8])
    requires { vec_len out.old + length bytes.now ≤ vec_capacity out.old }
    ensures items { out.new.items ≡ out.old.items ++ bytes.now }
    ensures len { vec_len out.new ≡ vec_len out.old + length bytes.now }
    ensures capacity { vec_capacity out.old ≤ vec_capacity out.new }
{
    out.extend_from_slice(bytes).unwrap()
}

fn put_byte(out: &mut Vec<u8>, byte: u8)
    requires { vec_len out.old < vec_capacity out.old }
    ensures items { out.new.items ≡ out.old.items ++ byte ∷ [] }
    ensures len { vec_len out.new ≡ vec_len out.old + 1 }
    ensures capacity { vec_capacity out.old ≤ vec_capacity out.new }
{
    out.push_reserved(byte);
}

fn put_u64(out: &mut Vec<u8>, number: u64)
    requires { vec_len out.old + 8 ≤ vec_capacity out.old }
    ensures items { out.new.items ≡ out.old.items ++ to_be_bytes w64 number }
    ensures len { vec_len out.new ≡ vec_len out.old + 8 }
    ensures capacity { vec_capacity out.old ≤ vec_capacity out.new }
{
    let mut text = [0; 8];
    BigEndian::write_u64(&mut text, number);
    put_bytes(out, &text)
}

fn put_u32(out: &mut Vec<u8>, number: u32)
    requires { vec_len out.old + 4 ≤ vec_capacity out.old }
    ensures items { out.new.items ≡ out.old.items ++ to_be_bytes w32 number }
    ensures len { vec_len out.new ≡ vec_len out.old + 4 }
    ensures capacity { vec_capacity out.old ≤ vec_capacity out.new }
{
    let mut text = [0; 4];
    BigEndian::write_u32(&mut text, number);
    put_bytes(out, &text)
}

fn put_u16(out: &mut Vec<u8>, number: u16)
    requires { vec_len out.old + 2 ≤ vec_capacity out.old }
    ensures items { out.new.items ≡ out.old.items ++ to_be_bytes w16 number }
    ensures len { vec_len out.new ≡ vec_len out.old + 2 }
    ensures capacity { vec_capacity out.old ≤ vec_capacity out.new }
{
    let mut text = [0; 2];
    BigEndian::write_u16(&mut text, number);
    put_bytes(out, &text)
}

fn put_i64(out: &mut Vec<u8>, number: i64)
    requires { vec_len out.old + 8 ≤ vec_capacity out.old }
    ensures items { out.new.items ≡ out.old.items ++ to_be_bytes w64 (cast_unsigned w64 number) }
    ensures len { vec_len out.new ≡ vec_len out.old + 8 }
    ensures capacity { vec_capacity out.old ≤ vec_capacity out.new }
{
    put_u64(out, number.cast_unsigned())
}

// ---- operations

fn put_key(out: &mut Vec<u8>, relation: RelNo, key: &Bytes)
    requires relation { IsRelation relation }
    requires key { IsKey key.now }
    requires room { vec_len out.old + (2 + length key.now) ≤ vec_capacity out.old }
    ensures items { out.new.items ≡ out.old.items ++ ((relation ∷ []) ++ (length key.now ∷ key.now)) }
    ensures len { vec_len out.new ≡ vec_len out.old + (2 + length key.now) }
    ensures capacity { vec_capacity out.old ≤ vec_capacity out.new }
{
    put_byte(out, relation.get() as u8);
    put_byte(out, key.len() as u8);
    put_bytes(out, key.as_slice())
}

fn put_value(out: &mut Vec<u8>, value: &Bytes)
    requires value { IsValue value.now }
    requires room { vec_len out.old + (2 + length value.now) ≤ vec_capacity out.old }
    ensures items { out.new.items ≡ out.old.items ++ counted w16 value.now }
    ensures len { vec_len out.new ≡ vec_len out.old + (2 + length value.now) }
    ensures capacity { vec_capacity out.old ≤ vec_capacity out.new }
{
    put_u16(out, value.len() as u16);
    put_bytes(out, value.as_slice())
}

fn put_operation(out: &mut Vec<u8>, done: &LoggedOp)
    requires fits { IsOperation done.now }
    requires room { vec_len out.old + operation_length done.now ≤ vec_capacity out.old }
    ensures items { out.new.items ≡ out.old.items ++ operation_text done.now }
    ensures len { vec_len out.new ≡ vec_len out.old + operation_length done.now }
    ensures capacity { vec_capacity out.old ≤ vec_capacity out.new }
{
    match done {
        LoggedOp::Insert {
            relation,
            key,
            value,
        } => {
            put_byte(out, 1);
            put_key(out, *relation, key);
            put_value(out, value)
        }
        LoggedOp::Update {
            relation,
            key,
            value,
            old,
        } => {
            put_byte(out, 2);
            put_key(out, *relation, key);
            put_value(out, value);
            put_value(out, old)
        }
        LoggedOp::Delete { relation, key, old } => {
            put_byte(out, 3);
            put_key(out, *relation, key);
            put_value(out, old)
        }
        LoggedOp::Add { counter, step } => {
            put_byte(out, 4);
            put_byte(out, counter.get() as u8);
            put_i64(out, *step)
        }
    }
}

// ---- records

// The transaction and the operation.
fn put_name(out: &mut Vec<u8>, txn: u64, op: u64)
    requires { vec_len out.old + 16 ≤ vec_capacity out.old }
    ensures items { out.new.items ≡ out.old.items ++ (to_be_bytes w64 txn ++ to_be_bytes w64 op) }
    ensures len { vec_len out.new ≡ vec_len out.old + 16 }
    ensures capacity { vec_capacity out.old ≤ vec_capacity out.new }
{
    put_u64(out, txn);
    put_u64(out, op)
}

// What a page record says of its range.
fn put_place(out: &mut Vec<u8>, head: &PageHead)
    requires { vec_len out.old + 7 ≤ vec_capacity out.old }
    ensures items { out.new.items ≡ out.old.items ++ (to_be_bytes w16 head.now.page
        ++ ((flag_number head.now.has_image ∷ []) ++ (to_be_bytes w16 head.now.start
        ++ to_be_bytes w16 head.now.length))) }
    ensures len { vec_len out.new ≡ vec_len out.old + 7 }
    ensures capacity { vec_capacity out.old ≤ vec_capacity out.new }
{
    put_u16(out, head.page);
    put_byte(out, if head.has_image { 1 } else { 0 });
    put_u16(out, head.start);
    put_u16(out, head.length)
}

fn put_head(out: &mut Vec<u8>, head: &PageHead)
    requires { vec_len out.old + 23 ≤ vec_capacity out.old }
    ensures items { out.new.items ≡ out.old.items ++ head_text head.now.txn head.now.op head.now.page
        head.now.has_image head.now.start head.now.length }
    ensures len { vec_len out.new ≡ vec_len out.old + 23 }
    ensures capacity { vec_capacity out.old ≤ vec_capacity out.new }
{
    put_name(out, head.txn, head.op);
    put_place(out, head)
}

// The bytes of a page record: the image, if there is one, and the range's old and new bytes.
fn put_range(out: &mut Vec<u8>, entry: &PageRecord<'_>)
    requires { vec_len out.old + (image_length (lent_image entry.now.image) + length entry.now.old.now
        + length entry.now.new.now) ≤ vec_capacity out.old }
    ensures items { out.new.items ≡ out.old.items ++ (image_text (lent_image entry.now.image)
        ++ (entry.now.old.now ++ entry.now.new.now)) }
    ensures capacity { vec_capacity out.old ≤ vec_capacity out.new }
{
    if let Some(image) = entry.image {
        put_bytes(out, image);
    }
    put_bytes(out, entry.old);
    put_bytes(out, entry.new)
}

// A page's record.
fn put_page(out: &mut Vec<u8>, entry: &PageRecord<'_>)
    requires fits { IsRecord (represented entry.now) }
    requires room { vec_len out.old + record_length (represented entry.now) ≤ vec_capacity out.old }
    ensures items { out.new.items ≡ out.old.items ++ record_text (represented entry.now) }
    ensures capacity { vec_capacity out.old ≤ vec_capacity out.new }
{
    let head = PageHead {
        txn: entry.txn.get(),
        op: entry.op.get(),
        page: entry.page.get(),
        has_image: entry.image.is_some(),
        start: entry.start,
        length: entry.old.len() as u16,
    };
    put_byte(out, 1);
    put_head(out, &head);
    put_range(out, entry)
}

// A page's record that has its bytes, which are lent for it.
fn put_owned_page(out: &mut Vec<u8>, entry: &Record)
    requires page { IsOfPage entry.now }
    requires fits { IsRecord entry.now }
    requires room { vec_len out.old + record_length entry.now ≤ vec_capacity out.old }
    ensures items { out.new.items ≡ out.old.items ++ record_text entry.now }
    ensures capacity { vec_capacity out.old ≤ vec_capacity out.new }
{
    match entry {
        Record::Page {
            txn,
            op,
            page,
            image,
            start,
            old,
            new,
        } => {
            let image = match image {
                Some(image) => Some(image.as_slice()),
                None => None,
            };
            let lent = PageRecord {
                txn: *txn,
                op: *op,
                page: *page,
                image,
                start: *start,
                old: old.as_slice(),
                new: new.as_slice(),
            };
            put_page(out, &lent)
        }
        _ => unreachable!(),
    }
}

fn put_record(out: &mut Vec<u8>, entry: &Record)
    requires fits { IsRecord entry.now }
    requires room { vec_len out.old + record_length entry.now ≤ vec_capacity out.old }
    ensures items { out.new.items ≡ out.old.items ++ record_text entry.now }
    ensures capacity { vec_capacity out.old ≤ vec_capacity out.new }
{
    match entry {
        Record::Page { .. } => put_owned_page(out, entry),
        Record::OpEnd {
            txn,
            op,
            undoes,
            done,
        } => {
            put_byte(out, 2);
            put_name(out, txn.get(), op.get());
            put_u64(out, *undoes);
            put_operation(out, done)
        }
        Record::OpDropped { txn, op } => {
            put_byte(out, 3);
            put_name(out, txn.get(), op.get())
        }
        Record::Commit { txn } => {
            put_byte(out, 4);
            put_u64(out, txn.get())
        }
        Record::AbortEnd { txn } => {
            put_byte(out, 5);
            put_u64(out, txn.get())
        }
    }
}

/// Appends the record's text to the buffer. The only error is want of memory, and the buffer then
/// has the bytes that it had; there is none if the buffer has room.
pub fn push_record(buffer: &mut Vec<u8>, entry: &Record) -> Result<(), AllocError>
    requires { IsRecord entry.now }
    ensures ok { OnOk result (buffer.new.items ≡ buffer.old.items ++ record_text entry.now) }
    ensures err { OnErr result (buffer.new.items ≡ buffer.old.items) }
    ensures room { vec_len buffer.old + record_length entry.now ≤ vec_capacity buffer.old → IsOk result }
    ensures full { OnErr result (vec_capacity buffer.old < vec_len buffer.old + record_length entry.now) }
    ensures capacity { vec_capacity buffer.old ≤ vec_capacity buffer.new }
{
    match buffer.reserve(entry.length()) {
        Ok(()) => {
            put_record(buffer, entry);
            Ok(())
        }
        Err(error) => Err(error),
    }
}

/// Appends the text of the record that the entry represents, as [`push_record`] does: all of it or none. The only error
/// is want of memory, and the buffer then has the bytes that it had; there is none if the buffer has room.
pub fn push_page_record(buffer: &mut Vec<u8>, entry: &PageRecord<'_>) -> Result<(), AllocError>
    requires { IsRecord (represented entry.now) }
    ensures ok { OnOk result (buffer.new.items ≡ buffer.old.items ++ record_text (represented entry.now)) }
    ensures err { OnErr result (buffer.new.items ≡ buffer.old.items) }
    ensures room { vec_len buffer.old + record_length (represented entry.now) ≤ vec_capacity buffer.old → IsOk result }
    ensures full { OnErr result (vec_capacity buffer.old < vec_len buffer.old
        + record_length (represented entry.now)) }
    ensures capacity { vec_capacity buffer.old ≤ vec_capacity buffer.new }
{
    buffer.reserve(entry.length())?;
    put_page(buffer, entry);
    Ok(())
}

// ---- batches

// The bytes of the records' texts.
fn body_length(records: &[Record]) -> usize
    requires { IsBatchable records.now }
    ensures { result ≡ length (body_text records.now) }
{
    let mut length = 0;
    for entry in records {
        length += entry.length();
    }
    length
}

/// The text of an open batch of these records, which are of this format: open gate, body's length, body. The text is
/// the same in either format. The only refusal is [`Refusal::NoMemory`].
pub fn encode_batch(alloc: Global, _format: Format, records: &[Record]) -> Result<Vec<u8>, Refusal>
    requires batchable { IsBatchable records.now }
    requires values { AreOfFormat _format records.now }
    ensures text { IfOk result (λ bytes. bytes.items ≡ batch_text records.now) }
    ensures only_memory { IfErr result (λ refusal. refusal ≡ Refusal.NoMemory) }
{
    let length = body_length(records);
    let mut bytes = Vec::with_capacity(alloc, 5 + length)?;
    put_byte(&mut bytes, OPEN_GATE);
    put_u32(&mut bytes, length as u32);
    for entry in records {
        push_record(&mut bytes, entry)?;
    }
    Ok(bytes)
}

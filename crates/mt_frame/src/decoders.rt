// Bytes as records and batches. Each reader takes its value from the front and hands back the bytes after it.
// Nothing is read twice, and only the bytes that a record keeps are copied.
ghost use Rattle.std.specs.Prelude.{◌≡◌, ◌≤◌, ℕ, List, length, IfOk, IfErr, IfSome, IfNone, Err};
ghost use Rattle.std.specs.Int.{w16, w32, w64};
ghost use Rattle.mt_base.specs.declared.limits.TheConstants.{MAX_BEGUN, MAX_KEY_BYTES, PAGE_BYTES};
ghost use Rattle.mt_frame.specs.declared.TheConstants.{OPEN_GATE};
ghost use Rattle.mt_base.specs.declared.refusal.Refusal.{Refusal};
ghost use Rattle.mt_frame.specs.declared.fields.ReadError.TheVariants.{Wrong};
ghost use Rattle.mt_frame.specs.declared.records.Record.{Record};
ghost use Rattle.mt_frame.specs.Grammar.{IsBody, IsBodyOf, IsBatchOf};
ghost use Rattle.mt_frame.specs.Codec.{Gives, number_at, within_at, part_at, byte_at, short_at, counted_at, map_at};
ghost use Rattle.mt_frame.specs.Readers.{Head, txn_at, op_at, name_at, is_step_number, step_at, insert_of, update_of, delete_of, add_of, value_at, keyed_at, update_at, add_at, operation_at, flag_at, is_head, head_at, image_at, is_shortest, range_at, page_of, page_at, end_of, end_at, record_at, framed_at, MAX_NUMBER};

use crate::OPEN_GATE;
use crate::fields::{ReadError, byte_within, part_of, u16_within, u32_at, u64_at, u64_within};
use crate::formats::are_of_format;
use crate::records::{LoggedOp, PageHead, Record};
use mt_base::limits::{MAX_BEGUN, MAX_STEP, MAX_VALUE_BYTES, PAGE_BYTES};
use mt_base::{Bytes, CtrNo, Format, OpNo, PageNo, Refusal, RelNo, TxnNo};
use std::alloc::Global;

// ---- operations

#[tactic(auto, unfolding(crate::specs::Codec::short_at))]
fn key_of(alloc: Global, bytes: &[u8]) -> Result<(Bytes, &[u8]), ReadError>
    ensures { Gives (λ x. (x.0, x.1.now)) result (short_at 1 MAX_KEY_BYTES bytes.now) }
{
    let (n, rest) = byte_within(bytes, 1, 64)?;
    let (key, rest) = part_of(rest, n as usize)?;
    Ok((Bytes::copy_of(alloc, key)?, rest))
}

#[tactic(auto, unfolding(crate::specs::Codec::counted_at, crate::specs::Readers::value_at))]
fn value_of(alloc: Global, bytes: &[u8]) -> Result<(Bytes, &[u8]), ReadError>
    ensures { Gives (λ x. (x.0, x.1.now)) result (value_at bytes.now) }
{
    let (n, rest) = u16_within(bytes, 0, MAX_VALUE_BYTES as u16)?;
    let (value, rest) = part_of(rest, n as usize)?;
    Ok((Bytes::copy_of(alloc, value)?, rest))
}

fn is_step(number: u64) -> bool
    ensures { result ≡ is_step_number number }
{
    (0 < number && number <= MAX_STEP) || u64::MAX - MAX_STEP < number
}

#[tactic(auto, unfolding(crate::specs::Readers::step_at))]
fn step_of(bytes: &[u8]) -> Result<(i64, &[u8]), ReadError>
    ensures { Gives (λ x. (x.0, x.1.now)) result (step_at bytes.now) }
{
    let (number, rest) = u64_at(bytes)?;
    if !is_step(number) {
        return Err(ReadError::Wrong);
    }
    Ok((number.cast_signed(), rest))
}

#[tactic(auto, unfolding(crate::specs::Readers::keyed_at))]
fn insert_from(alloc: Global, bytes: &[u8]) -> Result<(LoggedOp, &[u8]), ReadError>
    ensures { Gives (λ x. (x.0, x.1.now)) result (map_at insert_of keyed_at bytes.now) }
{
    let (relation, rest) = byte_within(bytes, 0, 63)?;
    let (key, rest) = key_of(alloc, rest)?;
    let (value, rest) = value_of(alloc, rest)?;
    Ok((
        LoggedOp::Insert {
            relation: RelNo::new(u16::from(relation)),
            key,
            value,
        },
        rest,
    ))
}

#[tactic(auto, unfolding(crate::specs::Readers::update_at))]
fn update_from(alloc: Global, bytes: &[u8]) -> Result<(LoggedOp, &[u8]), ReadError>
    ensures { Gives (λ x. (x.0, x.1.now)) result (map_at update_of update_at bytes.now) }
{
    let (relation, rest) = byte_within(bytes, 0, 63)?;
    let (key, rest) = key_of(alloc, rest)?;
    let (value, rest) = value_of(alloc, rest)?;
    let (old, rest) = value_of(alloc, rest)?;
    Ok((
        LoggedOp::Update {
            relation: RelNo::new(u16::from(relation)),
            key,
            value,
            old,
        },
        rest,
    ))
}

#[tactic(auto, unfolding(crate::specs::Readers::keyed_at))]
fn delete_from(alloc: Global, bytes: &[u8]) -> Result<(LoggedOp, &[u8]), ReadError>
    ensures { Gives (λ x. (x.0, x.1.now)) result (map_at delete_of keyed_at bytes.now) }
{
    let (relation, rest) = byte_within(bytes, 0, 63)?;
    let (key, rest) = key_of(alloc, rest)?;
    let (old, rest) = value_of(alloc, rest)?;
    Ok((
        LoggedOp::Delete {
            relation: RelNo::new(u16::from(relation)),
            key,
            old,
        },
        rest,
    ))
}

#[tactic(auto, unfolding(crate::specs::Readers::add_at))]
fn add_from(bytes: &[u8]) -> Result<(LoggedOp, &[u8]), ReadError>
    ensures { Gives (λ x. (x.0, x.1.now)) result (map_at add_of add_at bytes.now) }
{
    let (counter, rest) = byte_within(bytes, 0, 127)?;
    let (step, rest) = step_of(rest)?;
    let counter = CtrNo::new(u16::from(counter));
    Ok((LoggedOp::Add { counter, step }, rest))
}

#[tactic(auto, unfolding(crate::specs::Readers::operation_at))]
fn operation_of(alloc: Global, bytes: &[u8]) -> Result<(LoggedOp, &[u8]), ReadError>
    ensures { Gives (λ x. (x.0, x.1.now)) result (operation_at bytes.now) }
{
    match bytes {
        [] => Err(ReadError::Wrong),
        [tag, rest @ ..] => match *tag {
            1 => insert_from(alloc, rest),
            2 => update_from(alloc, rest),
            3 => delete_from(alloc, rest),
            4 => add_from(rest),
            _ => Err(ReadError::Wrong),
        },
    }
}

// ---- page records

// Whether the numbers go together: of transaction 0 they are of an image alone, of any other of a range
// within the page.
fn is_page_head(head: &PageHead) -> bool
    ensures { result ≡ is_head (
      head.now.txn,
      (
        head.now.op,
        (head.now.page, (head.now.has_image, (head.now.start, head.now.length))),
      ),
    ) }
{
    if head.txn == 0 {
        head.op == 0 && head.has_image && head.start == 0 && head.length == 0
    } else {
        0 < head.op
            && 0 < head.length
            && usize::from(head.start) + usize::from(head.length) <= PAGE_BYTES
    }
}

#[tactic(auto, unfolding(crate::specs::Readers::flag_at))]
fn flag_of(bytes: &[u8]) -> Result<(bool, &[u8]), ReadError>
    ensures { Gives (λ x. (x.0, x.1.now)) result (flag_at bytes.now) }
{
    let (flag, rest) = byte_within(bytes, 0, 1)?;
    Ok((flag == 1, rest))
}

#[tactic(auto, unfolding(crate::specs::Readers::head_at))]
fn head_of(bytes: &[u8]) -> Result<(PageHead, &[u8]), ReadError>
    ensures { Gives (λ x. ((x.0.txn, (x.0.op, (x.0.page, (x.0.has_image, (x.0.start, x.0.length))))), x.1.now)) result
        (head_at bytes.now) }
{
    let (txn, rest) = u64_within(bytes, 0, MAX_BEGUN)?;
    let (op, rest) = u64_within(rest, 0, u64::MAX)?;
    let (page, rest) = u16_within(rest, 0, 3999)?;
    let (has_image, rest) = flag_of(rest)?;
    let (start, rest) = u16_within(rest, 0, 4096)?;
    let (length, rest) = u16_within(rest, 0, 4096)?;
    let head = PageHead {
        txn,
        op,
        page,
        has_image,
        start,
        length,
    };
    if !is_page_head(&head) {
        return Err(ReadError::Wrong);
    }
    Ok((head, rest))
}

#[tactic(auto, unfolding(crate::specs::Readers::image_at))]
fn image_of(
    alloc: Global,
    bytes: &[u8],
    has_image: bool,
) -> Result<(Option<Bytes>, &[u8]), ReadError>
    ensures { Gives (λ x. (x.0, x.1.now)) result (image_at has_image bytes.now) }
{
    if !has_image {
        return Ok((None, bytes));
    }
    let (image, rest) = part_of(bytes, PAGE_BYTES)?;
    Ok((Some(Bytes::copy_of(alloc, image)?), rest))
}

// Whether the first and the last byte change.
fn is_shortest_range(old: &[u8], new: &[u8]) -> bool
    requires some { 1 ≤ length old.now }
    requires same { length new.now ≡ length old.now }
    ensures { result ≡ is_shortest old.now new.now }
{
    let last = old.len() - 1;
    old[0] != new[0] && old[last] != new[last]
}

#[tactic(auto, unfolding(crate::specs::Readers::range_at))]
fn range_of(alloc: Global, bytes: &[u8], n: usize) -> Result<((Bytes, Bytes), &[u8]), ReadError>
    ensures { Gives (λ x. (x.0, x.1.now)) result (range_at n bytes.now) }
{
    let (old, rest) = part_of(bytes, n)?;
    let (new, rest) = part_of(rest, n)?;
    if n != 0 && !is_shortest_range(old, new) {
        return Err(ReadError::Wrong);
    }
    let old = Bytes::copy_of(alloc, old)?;
    let new = Bytes::copy_of(alloc, new)?;
    Ok(((old, new), rest))
}

#[tactic(auto, unfolding(crate::specs::Readers::page_at))]
fn page_from(alloc: Global, bytes: &[u8]) -> Result<(Record, &[u8]), ReadError>
    ensures { Gives (λ x. (x.0, x.1.now)) result (map_at page_of page_at bytes.now) }
{
    let (head, rest) = head_of(bytes)?;
    let (image, rest) = image_of(alloc, rest, head.has_image)?;
    let ((old, new), rest) = range_of(alloc, rest, usize::from(head.length))?;
    Ok((
        Record::Page {
            txn: TxnNo::new(head.txn),
            op: OpNo::new(head.op),
            page: PageNo::new(head.page),
            image,
            start: head.start,
            old,
            new,
        },
        rest,
    ))
}

// ---- records

#[tactic(auto, unfolding(crate::specs::Readers::txn_at))]
fn txn_of(bytes: &[u8]) -> Result<(u64, &[u8]), ReadError>
    ensures { Gives (λ x. (x.0, x.1.now)) result (txn_at bytes.now) }
{
    u64_within(bytes, 1, MAX_BEGUN)
}

#[tactic(auto, unfolding(crate::specs::Readers::name_at, crate::specs::Readers::op_at))]
fn name_of(bytes: &[u8]) -> Result<((u64, u64), &[u8]), ReadError>
    ensures { Gives (λ x. (x.0, x.1.now)) result (name_at bytes.now) }
{
    let (txn, rest) = txn_of(bytes)?;
    let (op, rest) = u64_within(rest, 1, u64::MAX)?;
    Ok(((txn, op), rest))
}

#[tactic(auto, unfolding(crate::specs::Readers::end_at))]
fn end_from(alloc: Global, bytes: &[u8]) -> Result<(Record, &[u8]), ReadError>
    ensures { Gives (λ x. (x.0, x.1.now)) result (map_at end_of end_at bytes.now) }
{
    let ((txn, op), rest) = name_of(bytes)?;
    let (undoes, rest) = u64_within(rest, 0, u64::MAX)?;
    let (done, rest) = operation_of(alloc, rest)?;
    Ok((
        Record::OpEnd {
            txn: TxnNo::new(txn),
            op: OpNo::new(op),
            undoes,
            done,
        },
        rest,
    ))
}

#[tactic(auto, unfolding(crate::specs::Readers::record_at))]
fn record_of(alloc: Global, bytes: &[u8]) -> Result<(Record, &[u8]), ReadError>
    ensures { Gives (λ x. (x.0, x.1.now)) result (record_at bytes.now) }
{
    match bytes {
        [] => Err(ReadError::Wrong),
        [kind, rest @ ..] => match *kind {
            1 => page_from(alloc, rest),
            2 => end_from(alloc, rest),
            3 => {
                let ((txn, op), rest) = name_of(rest)?;
                let txn = TxnNo::new(txn);
                let op = OpNo::new(op);
                Ok((Record::OpDropped { txn, op }, rest))
            }
            4 => {
                let (txn, rest) = txn_of(rest)?;
                let txn = TxnNo::new(txn);
                Ok((Record::Commit { txn }, rest))
            }
            5 => {
                let (txn, rest) = txn_of(rest)?;
                let txn = TxnNo::new(txn);
                Ok((Record::AbortEnd { txn }, rest))
            }
            _ => Err(ReadError::Wrong),
        },
    }
}

// ---- batches

// An open gate.
fn gate_of(bytes: &[u8]) -> Result<(u8, &[u8]), ReadError>
    ensures { Gives (λ x. (x.0, x.1.now)) result (byte_at OPEN_GATE OPEN_GATE bytes.now) }
{
    byte_within(bytes, OPEN_GATE, OPEN_GATE)
}

#[tactic(auto, unfolding(crate::specs::Codec::within_at, crate::specs::Codec::counted_at, crate::specs::Readers::framed_at))]
fn framed_of(bytes: &[u8]) -> Result<(&[u8], &[u8]), ReadError>
    ensures { Gives (λ x. (x.0.now, x.1.now)) result (framed_at bytes.now) }
{
    let (_gate, rest) = gate_of(bytes)?;
    let (n, rest) = u32_at(rest)?;
    let (body, rest) = part_of(rest, n as usize)?;
    Ok((body, rest))
}

// The records that the bytes are a row of.
fn row_of(alloc: Global, bytes: &[u8]) -> Result<Vec<Record>, ReadError>
    ensures found { IfOk result (λ records. IsBody bytes.now records.items) }
    ensures wrong { result ≡ Err Wrong → (records : List Record) → IsBody bytes.now records → ⊥ }
{
    let mut records = Vec::new(alloc);
    let mut rest = bytes;
    while !rest.is_empty() {
        let (record, after) = record_of(alloc, rest)?;
        records.push(record)?;
        rest = after;
    }
    Ok(records)
}

// The records that the bytes are a row of, if each of them is one of the format.
fn row_of_format(alloc: Global, format: Format, bytes: &[u8]) -> Result<Vec<Record>, ReadError>
    ensures found { IfOk result (λ records. IsBodyOf format bytes.now records.items) }
    ensures wrong { result ≡ Err Wrong → (records : List Record) → IsBodyOf format bytes.now records → ⊥ }
{
    let records = row_of(alloc, bytes)?;
    if !are_of_format(&records, format) {
        return Err(ReadError::Wrong);
    }
    Ok(records)
}

fn batch_of(alloc: Global, format: Format, bytes: &[u8]) -> Result<(Vec<Record>, usize), ReadError>
    ensures found { IfOk result (λ batch. IsBatchOf format bytes.now batch.0.items batch.1) }
    ensures wrong { result ≡ Err Wrong → (records : List Record) (size : ℕ)
        → IsBatchOf format bytes.now records size → ⊥ }
{
    let (body, _rest) = framed_of(bytes)?;
    let records = row_of_format(alloc, format, body)?;
    Ok((records, 5 + body.len()))
}

/// The records of a batch's body, or `None` if and only if it is no row of whole records of this format. A record
/// with a value that is longer than the format lets one be is none of them. The only refusal is [`Refusal::NoMemory`].
pub fn decode_body(
    alloc: Global,
    format: Format,
    bytes: &[u8],
) -> Result<Option<Vec<Record>>, Refusal>
    ensures found { IfOk result (λ o. IfSome o (λ records. IsBodyOf format bytes.now records.items)) }
    ensures none { IfOk result (λ o. IfNone o ((records : List Record) → IsBodyOf format bytes.now records → ⊥)) }
    ensures only_memory { IfErr result (λ refusal. refusal ≡ Refusal.NoMemory) }
{
    match row_of_format(alloc, format, bytes) {
        Ok(records) => Ok(Some(records)),
        Err(ReadError::Memory) => Err(Refusal::NoMemory),
        Err(ReadError::Wrong) => Ok(None),
    }
}

/// The batch of this format at the front of the bytes: its records, and how many bytes it takes. `None` exactly
/// if no front of them is an open batch whose values are as long as the format lets them be at most. The only refusal
/// is [`Refusal::NoMemory`].
pub fn decode_batch(
    alloc: Global,
    format: Format,
    bytes: &[u8],
) -> Result<Option<(Vec<Record>, usize)>, Refusal>
    ensures found { IfOk result (λ o. IfSome o (λ batch. IsBatchOf format bytes.now batch.0.items batch.1)) }
    ensures none { IfOk result (λ o. IfNone o ((records : List Record) (size : ℕ)
        → IsBatchOf format bytes.now records size → ⊥)) }
    ensures only_memory { IfErr result (λ refusal. refusal ≡ Refusal.NoMemory) }
{
    match batch_of(alloc, format, bytes) {
        Ok(found) => Ok(Some(found)),
        Err(ReadError::Memory) => Err(Refusal::NoMemory),
        Err(ReadError::Wrong) => Ok(None),
    }
}

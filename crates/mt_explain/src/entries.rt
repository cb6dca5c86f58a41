// The lines of a log's records, and of what a restart makes of them.
ghost use Rattle.std.specs.Prelude.{◌≡◌, ◌==◌, ◌≤◌, ◌<◌, ◌++◌, ◌∷◌, [], IfOk, OnErr, OnOk, codes, length, map, neg_ℤ};
ghost use Rattle.std.specs.Fmt.{decimal, signed_decimal};
ghost use Rattle.std.specs.List.{AllByRecursion, concat, list_all};
ghost use Rattle.std.specs.Io.KnownBytes.{Appends};
ghost use Rattle.mt_frame.specs.Grammar.{IsOperation};
ghost use Rattle.mt_inverse.specs.Effects.{op_with};
ghost use Rattle.mt_replay.specs.Losers.{all_finished, finished_of};
ghost use Rattle.mt_script.specs.Answers.{AppendsFront};
ghost use Rattle.mt_explain.specs.Listings.{numbered};
ghost use Rattle.mt_explain.specs.Explanations.{added_line, batch_lines, batch_start, change_line, done_line, entry_line, image_end, image_line, inverse_line, is_plain, key_text, keyed_line, keyed_start, length_end, op_line, op_start, put_back_line, record_line, restart_start, txn_line, undo_line, undo_lines, undoes_text, valued_line};

use crate::base_lines::write_hex;
use crate::unfinished::Unfinished;
use itoa::Buffer;
use mt_base::{Bytes, CtrNo, OpNo, PageNo, RelNo, TxnNo};
use mt_frame::{LoggedOp, Record};
use mt_inverse::Effect;
use mt_log::Batch;
use mt_replay::{Loser, effect_of};
use mt_script::{Unheard, put, put_all};
use std::io::Write;

/// Whether all bytes of a key are printable, and none of them is a quote.
fn is_readable(key: &[u8]) -> bool
    ensures { result ≡ list_all is_plain key.now }
{
    for byte in key {
        if *byte < b' ' || *byte > b'~' || *byte == b'"' {
            return false;
        }
    }
    true
}

/// Writes a key: in quotes if it is readable, and else as hexadecimal digits.
fn write_key<W: Write>(writer: &mut W, key: &Bytes) -> Result<(), Unheard>
    ensures all { OnOk result (Appends (W.contents writer.old) (W.contents writer.new) (key_text key.now)) }
    ensures front { OnErr result (AppendsFront (W.contents writer.old) (W.contents writer.new) (key_text key.now)) }
{
    if is_readable(key.as_slice()) {
        put_all(writer, &[b"\"", key.as_slice(), b"\""])
    } else {
        write_hex(writer, key)
    }
}

/// Writes a word and a relation.
fn write_start<W: Write>(writer: &mut W, word: &str, relation: RelNo) -> Result<(), Unheard>
    ensures all { OnOk result (Appends (W.contents writer.old) (W.contents writer.new)
        (keyed_start word.now relation)) }
    ensures front { OnErr result (AppendsFront (W.contents writer.old) (W.contents writer.new)
        (keyed_start word.now relation)) }
{
    let mut digits = Buffer::new();
    let digits = digits.format(relation.get());
    put_all(writer, &[word.as_bytes(), digits.as_bytes(), b" "])
}

/// Writes how long a value is, and ends the line.
fn write_length<W: Write>(writer: &mut W, value: &Bytes) -> Result<(), Unheard>
    ensures all { OnOk result (Appends (W.contents writer.old) (W.contents writer.new) (length_end value.now)) }
    ensures front { OnErr result (AppendsFront (W.contents writer.old) (W.contents writer.new)
        (length_end value.now)) }
{
    let mut digits = Buffer::new();
    let digits = digits.format(value.len());
    put_all(writer, &[b" length ", digits.as_bytes(), b"\n"])
}

/// Writes an operation on a key that puts a value there, and ends the line.
fn write_valued<W: Write>(
    writer: &mut W,
    word: &str,
    relation: RelNo,
    key: &Bytes,
    value: &Bytes,
) -> Result<(), Unheard>
    ensures all { OnOk result (Appends (W.contents writer.old) (W.contents writer.new)
        (valued_line word.now relation key.now value.now)) }
    ensures front { OnErr result (AppendsFront (W.contents writer.old) (W.contents writer.new)
        (valued_line word.now relation key.now value.now)) }
{
    write_start(writer, word, relation)?;
    write_key(writer, key)?;
    write_length(writer, value)
}

/// Writes an operation on a key that leaves no value there, and ends the line.
fn write_keyed<W: Write>(
    writer: &mut W,
    word: &str,
    relation: RelNo,
    key: &Bytes,
) -> Result<(), Unheard>
    ensures all { OnOk result (Appends (W.contents writer.old) (W.contents writer.new)
        (keyed_line word.now relation key.now)) }
    ensures front { OnErr result (AppendsFront (W.contents writer.old) (W.contents writer.new)
        (keyed_line word.now relation key.now)) }
{
    write_start(writer, word, relation)?;
    write_key(writer, key)?;
    put(writer, b"\n")
}

/// Writes an add, and ends the line.
fn write_added<W: Write>(writer: &mut W, counter: CtrNo, step: i64) -> Result<(), Unheard>
    ensures all { OnOk result (Appends (W.contents writer.old) (W.contents writer.new) (added_line counter step)) }
    ensures front { OnErr result (AppendsFront (W.contents writer.old) (W.contents writer.new)
        (added_line counter step)) }
{
    let mut digits = Buffer::new();
    let counter = digits.format(counter.get());
    let mut signed = Buffer::new();
    let step = signed.format(step);
    put_all(
        writer,
        &[b"add ", counter.as_bytes(), b" ", step.as_bytes(), b"\n"],
    )
}

/// Writes an operation that has this effect, and ends the line.
fn write_effect<W: Write>(writer: &mut W, effect: &Effect<'_>) -> Result<(), Unheard>
    ensures all { OnOk result (Appends (W.contents writer.old) (W.contents writer.new) (op_line (op_with effect.now))) }
    ensures front { OnErr result (AppendsFront (W.contents writer.old) (W.contents writer.new)
        (op_line (op_with effect.now))) }
{
    match *effect {
        Effect::Inserted {
            relation,
            key,
            value,
        } => write_valued(writer, "insert ", relation, key, value),
        Effect::Updated {
            relation,
            key,
            value,
            ..
        } => write_valued(writer, "update ", relation, key, value),
        Effect::Deleted { relation, key, .. } => write_keyed(writer, "delete ", relation, key),
        Effect::Added { counter, step } => write_added(writer, counter, step),
    }
}

/// Writes an operation as its record has it, and ends the line.
fn write_done<W: Write>(writer: &mut W, done: &LoggedOp) -> Result<(), Unheard>
    ensures all { OnOk result (Appends (W.contents writer.old) (W.contents writer.new) (done_line done.now)) }
    ensures front { OnErr result (AppendsFront (W.contents writer.old) (W.contents writer.new) (done_line done.now)) }
{
    write_effect(writer, &effect_of(done))
}

/// Writes the inverse of an operation, and ends the line.
fn write_inverse<W: Write>(writer: &mut W, done: &LoggedOp) -> Result<(), Unheard>
    requires { IsOperation done.now }
    ensures all { OnOk result (Appends (W.contents writer.old) (W.contents writer.new) (inverse_line done.now)) }
    ensures front { OnErr result (AppendsFront (W.contents writer.old) (W.contents writer.new)
        (inverse_line done.now)) }
{
    write_effect(writer, &effect_of(done).reversed())
}

/// Writes which batch a record stands in, and where that stands on the device.
fn write_batch_start<W: Write>(writer: &mut W, number: u64, place: u64) -> Result<(), Unheard>
    ensures all { OnOk result (Appends (W.contents writer.old) (W.contents writer.new) (batch_start number place)) }
    ensures front { OnErr result (AppendsFront (W.contents writer.old) (W.contents writer.new)
        (batch_start number place)) }
{
    let mut digits = Buffer::new();
    let number = digits.format(number);
    let mut more = Buffer::new();
    let place = more.format(place);
    put_all(
        writer,
        &[
            b"batch ",
            number.as_bytes(),
            b" at ",
            place.as_bytes(),
            b" ",
        ],
    )
}

/// Writes a transaction and an operation of it.
fn write_op_start<W: Write>(writer: &mut W, txn: TxnNo, op: OpNo) -> Result<(), Unheard>
    ensures all { OnOk result (Appends (W.contents writer.old) (W.contents writer.new) (op_start txn op)) }
    ensures front { OnErr result (AppendsFront (W.contents writer.old) (W.contents writer.new) (op_start txn op)) }
{
    let mut digits = Buffer::new();
    let txn = digits.format(txn.get());
    let mut more = Buffer::new();
    let op = more.format(op.get());
    put_all(
        writer,
        &[b"txn ", txn.as_bytes(), b" op ", op.as_bytes(), b" "],
    )
}

/// Writes what a transaction came to, and ends the line.
fn write_txn<W: Write>(writer: &mut W, txn: TxnNo, end: &str) -> Result<(), Unheard>
    ensures all { OnOk result (Appends (W.contents writer.old) (W.contents writer.new) (txn_line txn end.now)) }
    ensures front { OnErr result (AppendsFront (W.contents writer.old) (W.contents writer.new)
        (txn_line txn end.now)) }
{
    let mut digits = Buffer::new();
    let txn = digits.format(txn.get());
    put_all(
        writer,
        &[b"txn ", txn.as_bytes(), b" ", end.as_bytes(), b"\n"],
    )
}

/// Writes which operation an inverse undoes; nothing if it is none.
fn write_undoes<W: Write>(writer: &mut W, undoes: u64) -> Result<(), Unheard>
    ensures all { OnOk result (Appends (W.contents writer.old) (W.contents writer.new) (undoes_text undoes)) }
    ensures front { OnErr result (AppendsFront (W.contents writer.old) (W.contents writer.new)
        (undoes_text undoes)) }
{
    if undoes == 0 {
        return Ok(());
    }
    let mut digits = Buffer::new();
    let undoes = digits.format(undoes);
    put_all(writer, &[b"undoes ", undoes.as_bytes(), b" by "])
}

/// Writes the image of a page, and ends the line.
fn write_image<W: Write>(writer: &mut W, page: PageNo) -> Result<(), Unheard>
    ensures all { OnOk result (Appends (W.contents writer.old) (W.contents writer.new) (image_line page)) }
    ensures front { OnErr result (AppendsFront (W.contents writer.old) (W.contents writer.new) (image_line page)) }
{
    let mut digits = Buffer::new();
    let page = digits.format(page.get());
    put_all(writer, &[b"image of page ", page.as_bytes(), b"\n"])
}

/// How the line of a page's change ends.
fn image_end(image: &Option<Bytes>) -> &'static str
    ensures { result.now ≡ image_end image.now }
{
    match image {
        Some(_) => " with image\n",
        None => "\n",
    }
}

/// Writes a change of a page, and ends the line.
fn write_change<W: Write>(
    writer: &mut W,
    page: PageNo,
    start: u16,
    new: &Bytes,
    image: &Option<Bytes>,
) -> Result<(), Unheard>
    ensures all { OnOk result (Appends (W.contents writer.old) (W.contents writer.new)
        (change_line page start (length new.now) image.now)) }
    ensures front { OnErr result (AppendsFront (W.contents writer.old) (W.contents writer.new)
        (change_line page start (length new.now) image.now)) }
{
    let mut digits = Buffer::new();
    let page = digits.format(page.get());
    let mut more = Buffer::new();
    let start = more.format(start);
    let mut last = Buffer::new();
    let length = last.format(new.len());
    put_all(
        writer,
        &[
            b"page ",
            page.as_bytes(),
            b" from ",
            start.as_bytes(),
            b" length ",
            length.as_bytes(),
            image_end(image).as_bytes(),
        ],
    )
}

/// Writes an operation's change of a page, and ends the line.
fn write_own_change<W: Write>(
    writer: &mut W,
    txn: TxnNo,
    op: OpNo,
    page: PageNo,
    start: u16,
    new: &Bytes,
    image: &Option<Bytes>,
) -> Result<(), Unheard>
    ensures all { OnOk result (Appends (W.contents writer.old) (W.contents writer.new)
        (op_start txn op ++ change_line page start (length new.now) image.now)) }
    ensures front { OnErr result (AppendsFront (W.contents writer.old) (W.contents writer.new)
        (op_start txn op ++ change_line page start (length new.now) image.now)) }
{
    write_op_start(writer, txn, op)?;
    write_change(writer, page, start, new, image)
}

/// Writes the end of an operation, and ends the line.
fn write_end<W: Write>(
    writer: &mut W,
    txn: TxnNo,
    op: OpNo,
    undoes: u64,
    done: &LoggedOp,
) -> Result<(), Unheard>
    ensures all { OnOk result (Appends (W.contents writer.old) (W.contents writer.new)
        ((op_start txn op ++ undoes_text undoes) ++ done_line done.now)) }
    ensures front { OnErr result (AppendsFront (W.contents writer.old) (W.contents writer.new)
        ((op_start txn op ++ undoes_text undoes) ++ done_line done.now)) }
{
    write_op_start(writer, txn, op)?;
    write_undoes(writer, undoes)?;
    write_done(writer, done)
}

/// Writes that an operation was taken back, and ends the line.
fn write_dropped<W: Write>(writer: &mut W, txn: TxnNo, op: OpNo) -> Result<(), Unheard>
    ensures all { OnOk result (Appends (W.contents writer.old) (W.contents writer.new)
        (op_start txn op ++ codes "dropped\n")) }
    ensures front { OnErr result (AppendsFront (W.contents writer.old) (W.contents writer.new)
        (op_start txn op ++ codes "dropped\n")) }
{
    write_op_start(writer, txn, op)?;
    put(writer, b"dropped\n")
}

/// Writes what a record is, and ends the line.
fn write_entry<W: Write>(writer: &mut W, entry: &Record) -> Result<(), Unheard>
    ensures all { OnOk result (Appends (W.contents writer.old) (W.contents writer.new) (entry_line entry.now)) }
    ensures front { OnErr result (AppendsFront (W.contents writer.old) (W.contents writer.new)
        (entry_line entry.now)) }
{
    match entry {
        Record::Page {
            txn,
            op,
            page,
            image,
            start,
            old: _,
            new,
        } => {
            if txn.get() == 0 {
                write_image(writer, *page)
            } else {
                write_own_change(writer, *txn, *op, *page, *start, new, image)
            }
        }
        Record::OpEnd {
            txn,
            op,
            undoes,
            done,
        } => write_end(writer, *txn, *op, *undoes, done),
        Record::OpDropped { txn, op } => write_dropped(writer, *txn, *op),
        Record::Commit { txn } => write_txn(writer, *txn, "commit"),
        Record::AbortEnd { txn } => write_txn(writer, *txn, "aborted"),
    }
}

/// Writes a record as a line, with its batch.
fn write_record<W: Write>(
    writer: &mut W,
    number: u64,
    place: u64,
    entry: &Record,
) -> Result<(), Unheard>
    ensures all { OnOk result (Appends (W.contents writer.old) (W.contents writer.new)
        (record_line number place entry.now)) }
    ensures front { OnErr result (AppendsFront (W.contents writer.old) (W.contents writer.new)
        (record_line number place entry.now)) }
{
    write_batch_start(writer, number, place)?;
    write_entry(writer, entry)
}

/// Writes the records of a batch, a line each.
fn write_records<W: Write>(
    writer: &mut W,
    number: u64,
    place: u64,
    records: &[Record],
) -> Result<(), Unheard>
    ensures all { OnOk result (Appends (W.contents writer.old) (W.contents writer.new)
        (concat (map (record_line number place) records.now))) }
    ensures front { OnErr result (AppendsFront (W.contents writer.old) (W.contents writer.new)
        (concat (map (record_line number place) records.now))) }
{
    for entry in records {
        write_record(writer, number, place, entry)?;
    }
    Ok(())
}

/// Writes how the line of an operation begins with which a restart deals.
fn write_restart_start<W: Write>(writer: &mut W, txn: TxnNo, op: OpNo) -> Result<(), Unheard>
    ensures all { OnOk result (Appends (W.contents writer.old) (W.contents writer.new) (restart_start txn op)) }
    ensures front { OnErr result (AppendsFront (W.contents writer.old) (W.contents writer.new)
        (restart_start txn op)) }
{
    put(writer, b"restart ")?;
    write_op_start(writer, txn, op)
}

/// Writes that an unfinished operation is put back.
fn write_put_back<W: Write>(writer: &mut W, operation: &Unfinished) -> Result<(), Unheard>
    ensures all { OnOk result (Appends (W.contents writer.old) (W.contents writer.new)
        (put_back_line operation.now)) }
    ensures front { OnErr result (AppendsFront (W.contents writer.old) (W.contents writer.new)
        (put_back_line operation.now)) }
{
    write_restart_start(writer, operation.txn, operation.op)?;
    put(writer, b"put back\n")
}

/// Writes that each of these operations is put back.
pub(crate) fn write_all_put_back<W: Write>(
    writer: &mut W,
    operations: &[Unfinished],
) -> Result<(), Unheard>
    ensures all { OnOk result (Appends (W.contents writer.old) (W.contents writer.new)
        (concat (map put_back_line operations.now))) }
    ensures front { OnErr result (AppendsFront (W.contents writer.old) (W.contents writer.new)
        (concat (map put_back_line operations.now))) }
{
    for operation in operations {
        write_put_back(writer, operation)?;
    }
    Ok(())
}

/// Writes how an operation is undone.
fn write_undo<W: Write>(writer: &mut W, loser: &Loser) -> Result<(), Unheard>
    requires { IsOperation loser.now.done }
    ensures all { OnOk result (Appends (W.contents writer.old) (W.contents writer.new)
        (undo_line (finished_of loser.now))) }
    ensures front { OnErr result (AppendsFront (W.contents writer.old) (W.contents writer.new)
        (undo_line (finished_of loser.now))) }
{
    write_restart_start(writer, loser.txn, loser.op)?;
    put(writer, b"undone by ")?;
    write_inverse(writer, &loser.done)
}

/// Writes how each of these operations is undone, the last one first.
pub(crate) fn write_all_undone<W: Write>(writer: &mut W, losers: &[Loser]) -> Result<(), Unheard>
    requires { AllByRecursion (λ l. IsOperation l.done) losers.now }
    ensures all { OnOk result (Appends (W.contents writer.old) (W.contents writer.new)
        (undo_lines (all_finished losers.now))) }
    ensures front { OnErr result (AppendsFront (W.contents writer.old) (W.contents writer.new)
        (undo_lines (all_finished losers.now))) }
{
    let mut i = losers.len();
    while i > 0 {
        i -= 1;
        write_undo(writer, &losers[i])?;
    }
    Ok(())
}

/// Writes the records of batches, a line each, the batches numbered from 1.
pub(crate) fn write_batches<W: Write>(writer: &mut W, batches: &[Batch]) -> Result<(), Unheard>
    ensures all { OnOk result (Appends (W.contents writer.old) (W.contents writer.new)
        (numbered batch_lines 1 batches.now)) }
    ensures front { OnErr result (AppendsFront (W.contents writer.old) (W.contents writer.new)
        (numbered batch_lines 1 batches.now)) }
{
    for (index, batch) in batches.iter().enumerate() {
        let number = index as u64 + 1;
        write_records(writer, number, batch.place, batch.records.as_slice())?;
    }
    Ok(())
}

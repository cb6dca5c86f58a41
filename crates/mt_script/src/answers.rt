// What is answered to the lines of a script, and how it is written.
ghost use Rattle.std.specs.Prelude.{◌≡◌, ◌≤◌, ℕ, List, ◌∷◌, ◌++◌, [], length, map, OnOk, OnErr, codes};
ghost use Rattle.std.specs.Fmt.{decimal, signed_decimal};
ghost use Rattle.std.specs.List.{concat};
ghost use Rattle.std.specs.Io.KnownBytes.{Appends};
ghost use Rattle.mt_base.specs.Refusal.{text_of};
ghost use Rattle.mt_model.specs.declared.operations.Reply.TheVariants.{Rows};
ghost use Rattle.mt_script.specs.Answers.{AppendsFront, pair_lines, reply_text, count_text, answer_text};

use itoa::Buffer;
use mt_base::Refusal;
use mt_model::{Reply, Row};
use std::io::{ErrorKind, Write};

/// What is answered to a line of a script.
#[derive(Debug, Drop)]
pub enum Answer {
    /// A transaction has begun.
    Begun,
    /// The operation replied this.
    Replied(Reply),
    /// So many operations of the transaction count.
    Saved(u16),
    /// The transaction is as it was after its first so many operations that count, and goes on.
    Back(u16),
    /// The transaction is durable, as the commit of this position in the opening's order of commits,
    /// from 1.
    Committed(u64),
    /// The transaction is undone.
    Aborted,
    /// The line is refused; a transaction that was open goes on.
    Refused(Refusal),
}

/// That a writer failed.
#[derive(Debug, Drop)]
pub struct Unheard;

/// Writes all of these bytes. If the writer fails, it has written a beginning of them.
pub fn put<W: Write>(writer: &mut W, bytes: &[u8]) -> Result<(), Unheard>
    ensures all { OnOk result (Appends (W.contents writer.old) (W.contents writer.new) bytes.now) }
    ensures front { OnErr result (AppendsFront (W.contents writer.old) (W.contents writer.new) bytes.now) }
{
    let mut written = 0;
    for _ in 0..u64::MAX {
        if written == bytes.len() {
            return Ok(());
        }
        match writer.write(&bytes[written..]) {
            Ok(count) => {
                if count == 0 {
                    return Err(Unheard);
                }
                written += count;
            }
            Err(error) => {
                if error.kind() != ErrorKind::Interrupted {
                    return Err(Unheard);
                }
            }
        }
    }
    Err(Unheard)
}

/// Writes these pieces, one after the other. If the writer fails, it has written a beginning of
/// them.
pub fn put_all<W: Write>(writer: &mut W, pieces: &[&[u8]]) -> Result<(), Unheard>
    ensures all { OnOk result (Appends (W.contents writer.old) (W.contents writer.new)
        (concat (map (λ p. p.now) pieces.now))) }
    ensures front { OnErr result (AppendsFront (W.contents writer.old) (W.contents writer.new)
        (concat (map (λ p. p.now) pieces.now))) }
{
    for piece in pieces {
        put(writer, piece)?;
    }
    Ok(())
}

/// Writes for each row the end of the line before, its key and its value.
fn write_pair_lines<W: Write>(writer: &mut W, rows: &[Row]) -> Result<(), Unheard>
    ensures all { OnOk result (Appends (W.contents writer.old) (W.contents writer.new) (pair_lines rows.now)) }
    ensures front { OnErr result (AppendsFront (W.contents writer.old) (W.contents writer.new) (pair_lines rows.now)) }
{
    for row in rows {
        put_all(
            writer,
            &[b"\n", row.key.as_slice(), b" ", row.value.as_slice()],
        )?;
    }
    Ok(())
}

/// Writes rows: a line with their number, and one for each row.
fn write_rows<W: Write>(writer: &mut W, rows: &[Row]) -> Result<(), Unheard>
    ensures all { OnOk result (Appends (W.contents writer.old) (W.contents writer.new)
        (reply_text (Rows rows.now) ++ 10 ∷ [])) }
    ensures front { OnErr result (AppendsFront (W.contents writer.old) (W.contents writer.new)
        (reply_text (Rows rows.now) ++ 10 ∷ [])) }
{
    let mut digits = Buffer::new();
    let count = digits.format(rows.len());
    put_all(writer, &[b"rows ", count.as_bytes()])?;
    write_pair_lines(writer, rows)?;
    put(writer, b"\n")
}

/// Writes what an operation replied: one line, and one more for each row of a scan. If the writer fails, it has
/// written a beginning of them.
pub fn write_reply<W: Write>(writer: &mut W, reply: &Reply) -> Result<(), Unheard>
    ensures all { OnOk result (Appends (W.contents writer.old) (W.contents writer.new)
        (reply_text reply.now ++ 10 ∷ [])) }
    ensures front { OnErr result (AppendsFront (W.contents writer.old) (W.contents writer.new)
        (reply_text reply.now ++ 10 ∷ [])) }
{
    match reply {
        Reply::Found(value) => put_all(writer, &[b"found ", value.as_slice(), b"\n"]),
        Reply::Missing => put(writer, b"missing\n"),
        Reply::Exists => put(writer, b"exists\n"),
        Reply::Done => put(writer, b"done\n"),
        Reply::Was(value) => put_all(writer, &[b"was ", value.as_slice(), b"\n"]),
        Reply::Value(number) => {
            let mut digits = Buffer::new();
            let digits = digits.format(*number);
            put_all(writer, &[b"value ", digits.as_bytes(), b"\n"])
        }
        Reply::Rows(rows) => write_rows(writer, rows.as_slice()),
        Reply::OutOfBounds => write_refusal(writer, Refusal::Escrow),
    }
}

/// Writes a refusal as one line.
fn write_refusal<W: Write>(writer: &mut W, refusal: Refusal) -> Result<(), Unheard>
    ensures all { OnOk result (Appends (W.contents writer.old) (W.contents writer.new) (text_of refusal ++ 10 ∷ [])) }
    ensures front { OnErr result (AppendsFront (W.contents writer.old) (W.contents writer.new)
        (text_of refusal ++ 10 ∷ [])) }
{
    let mut digits = Buffer::new();
    let number = digits.format(refusal.number()).as_bytes();
    let name = refusal.name().as_bytes();
    match refusal {
        Refusal::BadFormat(place) | Refusal::BadLine(place) => {
            let mut digits = Buffer::new();
            let place = digits.format(place).as_bytes();
            put_all(
                writer,
                &[b"refused ", number, b" ", name, b" ", place, b"\n"],
            )
        }
        _ => put_all(writer, &[b"refused ", number, b" ", name, b"\n"]),
    }
}

/// Writes a word, a space and a count as one line.
fn write_count<W: Write>(writer: &mut W, word: &[u8], count: u16) -> Result<(), Unheard>
    ensures all { OnOk result (Appends (W.contents writer.old) (W.contents writer.new)
        (count_text word.now count ++ 10 ∷ [])) }
    ensures front { OnErr result (AppendsFront (W.contents writer.old) (W.contents writer.new)
        (count_text word.now count ++ 10 ∷ [])) }
{
    let mut digits = Buffer::new();
    let digits = digits.format(count);
    put_all(writer, &[word, b" ", digits.as_bytes(), b"\n"])
}

/// Writes an answer and the end of its last line. If the writer fails, it has written a beginning of them.
pub fn write_answer<W: Write>(writer: &mut W, answer: &Answer) -> Result<(), Unheard>
    ensures all { OnOk result (Appends (W.contents writer.old) (W.contents writer.new)
        (answer_text answer.now ++ 10 ∷ [])) }
    ensures front { OnErr result (AppendsFront (W.contents writer.old) (W.contents writer.new)
        (answer_text answer.now ++ 10 ∷ [])) }
{
    match answer {
        Answer::Begun => put(writer, b"begun\n"),
        Answer::Replied(reply) => write_reply(writer, reply),
        Answer::Saved(count) => write_count(writer, b"saved", *count),
        Answer::Back(first) => write_count(writer, b"back", *first),
        Answer::Committed(place) => {
            let mut digits = Buffer::new();
            let digits = digits.format(*place);
            put_all(writer, &[b"committed ", digits.as_bytes(), b"\n"])
        }
        Answer::Aborted => put(writer, b"aborted\n"),
        Answer::Refused(refusal) => write_refusal(writer, *refusal),
    }
}

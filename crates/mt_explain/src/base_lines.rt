// The lines of a base: its rows and its counters.
ghost use Rattle.std.specs.Prelude.{◌≡◌, ◌<◌, OnErr, OnOk, codes, map, slice_index_or};
ghost use Rattle.std.specs.List.{concat};
ghost use Rattle.std.specs.Io.KnownBytes.{Appends};
ghost use Rattle.mt_script.specs.Answers.{AppendsFront};
ghost use Rattle.mt_explain.specs.Listings.{byte_text, counter_line, counter_lines, digit, hex_text, row_line, row_start};

use itoa::Buffer;
use mt_base::{Bytes, RelNo};
use mt_model::{Count, Row};
use mt_script::{Unheard, put, put_all};
use std::io::Write;

/// The digits of a hexadecimal number.
const DIGITS: &[u8; 16] = b"0123456789abcdef";

/// A hexadecimal digit.
fn digit_of(number: u8) -> u8
    requires { number < 16 }
    ensures { result ≡ digit number }
{
    DIGITS[usize::from(number)]
}

/// Writes a byte as two hexadecimal digits.
fn write_byte<W: Write>(writer: &mut W, byte: u8) -> Result<(), Unheard>
    ensures all { OnOk result (Appends (W.contents writer.old) (W.contents writer.new) (byte_text byte)) }
    ensures front { OnErr result (AppendsFront (W.contents writer.old) (W.contents writer.new) (byte_text byte)) }
{
    let digits = [digit_of(byte / 16), digit_of(byte % 16)];
    put(writer, &digits)
}

/// Writes bytes as hexadecimal digits, two of each.
fn write_bytes<W: Write>(writer: &mut W, bytes: &[u8]) -> Result<(), Unheard>
    ensures all { OnOk result (Appends (W.contents writer.old) (W.contents writer.new)
        (concat (map byte_text bytes.now))) }
    ensures front { OnErr result (AppendsFront (W.contents writer.old) (W.contents writer.new)
        (concat (map byte_text bytes.now))) }
{
    for byte in bytes {
        write_byte(writer, *byte)?;
    }
    Ok(())
}

/// Writes a key or a value: its bytes as hexadecimal digits, and a dash if there are none.
pub(crate) fn write_hex<W: Write>(writer: &mut W, bytes: &Bytes) -> Result<(), Unheard>
    ensures all { OnOk result (Appends (W.contents writer.old) (W.contents writer.new) (hex_text bytes.now)) }
    ensures front { OnErr result (AppendsFront (W.contents writer.old) (W.contents writer.new) (hex_text bytes.now)) }
{
    if bytes.is_empty() {
        put(writer, b"-")
    } else {
        write_bytes(writer, bytes.as_slice())
    }
}

/// Writes how a row's line begins.
fn write_relation<W: Write>(writer: &mut W, relation: RelNo) -> Result<(), Unheard>
    ensures all { OnOk result (Appends (W.contents writer.old) (W.contents writer.new) (row_start relation)) }
    ensures front { OnErr result (AppendsFront (W.contents writer.old) (W.contents writer.new) (row_start relation)) }
{
    let mut digits = Buffer::new();
    let digits = digits.format(relation.get());
    put_all(writer, &[b"row ", digits.as_bytes(), b" "])
}

/// Writes a row as a line.
fn write_row<W: Write>(writer: &mut W, row: &Row) -> Result<(), Unheard>
    ensures all { OnOk result (Appends (W.contents writer.old) (W.contents writer.new) (row_line row.now)) }
    ensures front { OnErr result (AppendsFront (W.contents writer.old) (W.contents writer.new) (row_line row.now)) }
{
    write_relation(writer, row.relation)?;
    write_hex(writer, &row.key)?;
    put(writer, b" ")?;
    write_hex(writer, &row.value)?;
    put(writer, b"\n")
}

/// Writes rows, a line each. If the writer fails, it has written a beginning of them.
pub fn write_rows<W: Write>(writer: &mut W, rows: &[Row]) -> Result<(), Unheard>
    ensures all { OnOk result (Appends (W.contents writer.old) (W.contents writer.new)
        (concat (map row_line rows.now))) }
    ensures front { OnErr result (AppendsFront (W.contents writer.old) (W.contents writer.new)
        (concat (map row_line rows.now))) }
{
    for row in rows {
        write_row(writer, row)?;
    }
    Ok(())
}

/// Writes a counter as a line.
fn write_counter<W: Write>(writer: &mut W, number: usize, counter: &Count) -> Result<(), Unheard>
    ensures all { OnOk result (Appends (W.contents writer.old) (W.contents writer.new)
        (counter_line number counter.now)) }
    ensures front { OnErr result (AppendsFront (W.contents writer.old) (W.contents writer.new)
        (counter_line number counter.now)) }
{
    let mut digits = Buffer::new();
    let number = digits.format(number);
    let mut signed = Buffer::new();
    let value = signed.format(counter.number);
    put_all(
        writer,
        &[
            b"counter ",
            number.as_bytes(),
            b" ",
            value.as_bytes(),
            b"\n",
        ],
    )
}

/// Writes counters in order, a line each. If the writer fails, it has written a beginning of them.
pub fn write_counters<W: Write>(writer: &mut W, counters: &[Count]) -> Result<(), Unheard>
    ensures all { OnOk result (Appends (W.contents writer.old) (W.contents writer.new)
        (counter_lines counters.now)) }
    ensures front { OnErr result (AppendsFront (W.contents writer.old) (W.contents writer.new)
        (counter_lines counters.now)) }
{
    for (number, counter) in counters.iter().enumerate() {
        write_counter(writer, number, counter)?;
    }
    Ok(())
}

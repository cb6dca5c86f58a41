// What is wrong with a line of a text.
ghost use Rattle.std.specs.Prelude.{◌≡◌, option_map, slice_get};
ghost use Rattle.mt_script.specs.LineFaults.{ends_in_return, fault_of_line, fault_of_numbered, fault_of_words, first_word, has_tab, has_unprintable, is_blank, is_unended, is_unprintable, line_at, lines_of};

use crate::grammar::Grammar;
use crate::lines::split_at_space;
use mt_base::limits::{MAX_LINE_BYTES, MAX_LINES};

/// What is wrong with a line that is not in the grammar. It is the first of this order that holds.
#[derive(Clone, Copy, PartialEq, Eq, Debug)]
pub enum LineFault<W> {
    /// 100,000 lines stand before it.
    TooManyLines,
    /// It has more than 4,096 bytes, its end not counted.
    TooLong,
    /// No LF ends it.
    Unended,
    /// It has no byte but spaces.
    Blank,
    /// A CR stands before its LF.
    CarriageReturn,
    /// It has a tab.
    Tab,
    /// It has another byte that is not 0x20 to 0x7E.
    Unprintable,
    /// No line begins with its first word.
    UnknownWord,
    /// Its first word is this one, and what follows is not what the word takes.
    WrongOperands(W),
}

/// The line after so many LFs, its end not counted.
fn line_after(bytes: &[u8], ends: usize) -> Option<&[u8]>
    ensures { option_map (λ line. line.now) result ≡ slice_get (lines_of bytes.now) ends }
{
    bytes.split(|byte| *byte == b'\n').nth(ends)
}

/// The line of this number, counted from 1, its end not counted.
fn line_at(bytes: &[u8], number: u64) -> &[u8]
    ensures { result.now ≡ line_at bytes.now number }
{
    match line_after(bytes, number.saturating_sub(1) as usize) {
        Some(line) => line,
        None => &[],
    }
}

/// Whether no LF ends the line of this number.
fn is_unended(bytes: &[u8], number: u64) -> bool
    ensures { result ≡ is_unended bytes.now number }
{
    let ends = bytes.iter().filter(|byte| **byte == b'\n').count();
    (ends as u64) < number
}

/// What stands before the first space of a line.
fn first_word(line: &[u8]) -> &[u8]
    ensures { result.now ≡ first_word line.now }
{
    match split_at_space(line) {
        Some((word, _)) => word,
        None => line,
    }
}

/// What is wrong with the words of a line.
fn fault_of_words<G: Grammar>(line: &[u8]) -> LineFault<G::Word>
    ensures { result ≡ fault_of_words G.word_at line.now }
{
    match G::word_of(first_word(line)) {
        Some(word) => LineFault::WrongOperands(word),
        None => LineFault::UnknownWord,
    }
}

/// Whether a line has no byte but spaces.
fn is_blank(line: &[u8]) -> bool
    ensures { result ≡ is_blank line.now }
{
    line.iter().all(|byte| *byte == b' ')
}

/// Whether a line ends in a CR.
fn ends_in_return(line: &[u8]) -> bool
    ensures { result ≡ ends_in_return line.now }
{
    line.last() == Some(&b'\r')
}

/// Whether a line has a tab.
fn has_tab(line: &[u8]) -> bool
    ensures { result ≡ has_tab line.now }
{
    line.iter().any(|byte| *byte == b'\t')
}

/// Whether a byte is not printable ASCII.
fn is_unprintable(byte: u8) -> bool
    ensures { result ≡ is_unprintable byte }
{
    byte < 0x20 || 0x7E < byte
}

/// Whether a line has a byte that is not printable ASCII.
fn has_unprintable(line: &[u8]) -> bool
    ensures { result ≡ has_unprintable line.now }
{
    line.iter().any(|byte| is_unprintable(*byte))
}

/// What is wrong with a line that ends and is not too long.
fn fault_of_line<G: Grammar>(line: &[u8]) -> LineFault<G::Word>
    ensures { result ≡ fault_of_line G.word_at line.now }
{
    if is_blank(line) {
        LineFault::Blank
    } else if ends_in_return(line) {
        LineFault::CarriageReturn
    } else if has_tab(line) {
        LineFault::Tab
    } else if has_unprintable(line) {
        LineFault::Unprintable
    } else {
        fault_of_words::<G>(line)
    }
}

/// What is wrong with the line of this number, counted from 1, of a text. The line is one that is not in the grammar.
pub fn line_fault<G: Grammar>(bytes: &[u8], number: u64) -> LineFault<G::Word>
    ensures { result ≡ fault_of_numbered G.word_at bytes.now number }
{
    let line = line_at(bytes, number);
    if number > MAX_LINES as u64 {
        LineFault::TooManyLines
    } else if line.len() > MAX_LINE_BYTES {
        LineFault::TooLong
    } else if is_unended(bytes, number) {
        LineFault::Unended
    } else {
        fault_of_line::<G>(line)
    }
}

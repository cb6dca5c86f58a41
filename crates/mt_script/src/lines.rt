// The lines of a script, each read from its bytes.
ghost use Rattle.std.specs.Prelude.{◌≡◌, ◌≢◌, ℕ, ℤ, List, ◌^◌, ◌<◌, ◌≤◌, ◌∷◌, ◌++◌, ◌↔◌, All, IfOk, IfSome, IfNone, IsTrue, MatchOption, length, codes};
ghost use Rattle.std.specs.Fmt.{decimal, signed_decimal};
ghost use Rattle.mt_script.specs.Lines.{IsUnspaced, IsWord, IsText, IsPlace, IsWide, SpellsStep, SpellsKey, SpellsRow, ReadsOp, ReadsLine};

use crate::grammar::Grammar;
use crate::words::{ScriptWord, script_form, script_word};
use mt_base::{Bytes, CtrNo, RelNo};
use mt_model::Op;
use std::alloc::{AllocError, Global};

/// A line of a script.
///
/// | line | what it asks for |
/// |---|---|
/// | `begin` | a transaction |
/// | `get R K` | the value under key K of relation R |
/// | `insert R K V`, `update R K V`, `delete R K` | a change of the row under that key |
/// | `add C N`, `read C` | a step of counter C, or its number |
/// | `scan R` | all rows of relation R |
/// | `save` | how many operations of the transaction count |
/// | `back N` | that the transaction goes back to its first N of those, and then on |
/// | `commit`, `abort` | the end of the transaction |
///
/// One space stands between two words. R, C and the N of `back` are 0 to 65535, and the N of `add` fits 64 bits with
/// its sign. All are decimal without leading zeros and with `-` before a negative N only. K is one or more bytes 0x21
/// to 0x7E. V is the rest of the line, bytes 0x20 to 0x7E, and may be empty.
#[derive(Debug, Drop)]
pub enum Line {
    /// Begins a transaction.
    Begin,
    /// Makes an operation in the transaction.
    Call(Op),
    /// Asks how many operations of the transaction count.
    Save,
    /// Takes back those after the first so many.
    Back(u16),
    /// Commits the transaction.
    Commit,
    /// Aborts the transaction.
    Abort,
}

/// What stands before the first byte of this value, and what stands after it; `None` if there is none.
pub(crate) fn split_at(bytes: &[u8], byte: u8) -> Option<(&[u8], &[u8])>
    ensures found { IfSome result (λ p. (bytes.now ≡ p.0.now ++ byte ∷ p.1.now) × All (λ b. b ≢ byte) p.0.now) }
    ensures none { IfNone result (All (λ b. b ≢ byte) bytes.now) }
{
    for (place, one) in bytes.iter().enumerate() {
        if *one == byte {
            return Some((&bytes[..place], &bytes[place + 1..]));
        }
    }
    None
}

/// What stands before the first space, and what stands after it; `None` if there is no space.
pub fn split_at_space(bytes: &[u8]) -> Option<(&[u8], &[u8])>
    ensures found { IfSome result (λ p. (bytes.now ≡ p.0.now ++ 32 ∷ p.1.now) × IsUnspaced p.0.now) }
    ensures none { IfNone result (IsUnspaced bytes.now) }
{
    split_at(bytes, b' ')
}

/// The number that a word spells in decimal without leading zeros. A number is spelled so exactly
/// if printing it gives the word again. The only error is want of memory.
pub fn number_of(alloc: Global, word: &[u8]) -> Result<Option<u64>, AllocError>
    ensures { IfOk result (λ o. MatchOption o ((n : ℕ) → n < 2 ^ 64 → word.now ≢ decimal n)
        (λ n. word.now ≡ decimal n)) }
{
    let Ok(text) = str::from_utf8(word) else {
        return Ok(None);
    };
    let Ok(number) = text.parse::<u64>() else {
        return Ok(None);
    };
    let printed = number.to_string(alloc)?;
    if printed.as_bytes() == word {
        Ok(Some(number))
    } else {
        Ok(None)
    }
}

/// The number of a relation, a counter or a savepoint: 0 to 65535.
fn place_of(alloc: Global, word: &[u8]) -> Result<Option<u16>, AllocError>
    ensures { IfOk result (λ o. MatchOption o ((n : ℕ) → IsPlace n → word.now ≢ decimal n)
        (λ n. word.now ≡ decimal n)) }
{
    match number_of(alloc, word)? {
        Some(number) if number <= 65535 => Ok(Some(number as u16)),
        _ => Ok(None),
    }
}

/// The number that a word spells that fits 64 bits with its sign, `-` before a negative one only. The only error is
/// want of memory.
pub fn signed_of(alloc: Global, word: &[u8]) -> Result<Option<i64>, AllocError>
    ensures { IfOk result (λ o. MatchOption o ((n : ℤ) → ¬ SpellsStep word.now n) (SpellsStep word.now)) }
{
    match word {
        [b'-', size @ ..] => match number_of(alloc, size)? {
            Some(number) => Ok(negated(number)),
            None => Ok(None),
        },
        _ => match number_of(alloc, word)? {
            Some(number) => Ok(i64::try_from(number).ok()),
            None => Ok(None),
        },
    }
}

/// The negative number of this size, if there is one in 64 bits.
fn negated(size: u64) -> Option<i64>
    ensures { MatchOption result ((n : ℤ) → ¬ SpellsStep (45 ∷ decimal size) n) (SpellsStep (45 ∷ decimal size)) }
{
    if size == 0 {
        return None;
    }
    match i64::try_from(size - 1) {
        Ok(less_one) => Some(-1 - less_one),
        Err(_) => None,
    }
}

/// Whether these are the bytes of a key: one or more, each 0x21 to 0x7E.
fn is_word(bytes: &[u8]) -> bool
    ensures { IsTrue result ↔ IsWord bytes.now }
{
    !bytes.is_empty() && bytes.iter().all(|byte| 0x21 <= *byte && *byte <= 0x7E)
}

/// Whether these are the bytes of a value: any number of them, each 0x20 to 0x7E.
fn is_text(bytes: &[u8]) -> bool
    ensures { IsTrue result ↔ IsText bytes.now }
{
    bytes.iter().all(|byte| 0x20 <= *byte && *byte <= 0x7E)
}

/// Whether these are the bytes of this text.
pub fn is_text_of(bytes: &[u8], text: &str) -> bool
    ensures { IsTrue result ↔ (bytes.now ≡ text.now) }
{
    bytes == text.as_bytes()
}

/// A relation and a key: `R K`.
fn key_of(alloc: Global, words: &[u8]) -> Result<Option<(RelNo, Bytes)>, AllocError>
    ensures { IfOk result (λ o. MatchOption o ((r : ℕ) (k : List ℕ) → ¬ SpellsKey words.now r k)
        (λ p. SpellsKey words.now p.0 p.1)) }
{
    let Some((number, word)) = split_at_space(words) else {
        return Ok(None);
    };
    let Some(relation) = place_of(alloc, number)? else {
        return Ok(None);
    };
    if !is_word(word) {
        return Ok(None);
    }
    let key = Bytes::copy_of(alloc, word)?;
    Ok(Some((RelNo::new(relation), key)))
}

/// A relation, a key and a value: `R K V`.
fn row_of(alloc: Global, words: &[u8]) -> Result<Option<(RelNo, Bytes, Bytes)>, AllocError>
    ensures { IfOk result (λ o. MatchOption o ((r : ℕ) (k v : List ℕ) → ¬ SpellsRow words.now r k v)
        (λ p. SpellsRow words.now p.0 p.1 p.2)) }
{
    let Some((number, rest)) = split_at_space(words) else {
        return Ok(None);
    };
    let Some((word, text)) = split_at_space(rest) else {
        return Ok(None);
    };
    let Some(relation) = place_of(alloc, number)? else {
        return Ok(None);
    };
    if !is_word(word) || !is_text(text) {
        return Ok(None);
    }
    let key = Bytes::copy_of(alloc, word)?;
    let value = Bytes::copy_of(alloc, text)?;
    Ok(Some((RelNo::new(relation), key, value)))
}

/// `get R K`, of the words after the first.
fn get_of(alloc: Global, words: &[u8]) -> Result<Option<Op>, AllocError>
    ensures { IfOk result (ReadsOp (codes "get" ++ 32 ∷ words.now)) }
{
    let Some((relation, key)) = key_of(alloc, words)? else {
        return Ok(None);
    };
    Ok(Some(Op::Get(relation, key)))
}

/// `delete R K`, of the words after the first.
fn delete_of(alloc: Global, words: &[u8]) -> Result<Option<Op>, AllocError>
    ensures { IfOk result (ReadsOp (codes "delete" ++ 32 ∷ words.now)) }
{
    let Some((relation, key)) = key_of(alloc, words)? else {
        return Ok(None);
    };
    Ok(Some(Op::Delete(relation, key)))
}

fn insert_of(alloc: Global, words: &[u8]) -> Result<Option<Op>, AllocError>
    ensures { IfOk result (ReadsOp (codes "insert" ++ 32 ∷ words.now)) }
{
    let Some((relation, key, value)) = row_of(alloc, words)? else {
        return Ok(None);
    };
    Ok(Some(Op::Insert(relation, key, value)))
}

fn update_of(alloc: Global, words: &[u8]) -> Result<Option<Op>, AllocError>
    ensures { IfOk result (ReadsOp (codes "update" ++ 32 ∷ words.now)) }
{
    let Some((relation, key, value)) = row_of(alloc, words)? else {
        return Ok(None);
    };
    Ok(Some(Op::Update(relation, key, value)))
}

fn add_of(alloc: Global, words: &[u8]) -> Result<Option<Op>, AllocError>
    ensures { IfOk result (ReadsOp (codes "add" ++ 32 ∷ words.now)) }
{
    let Some((word, rest)) = split_at_space(words) else {
        return Ok(None);
    };
    let Some(counter) = place_of(alloc, word)? else {
        return Ok(None);
    };
    match signed_of(alloc, rest)? {
        Some(step) => Ok(Some(Op::Add(CtrNo::new(counter), step))),
        None => Ok(None),
    }
}

fn read_of(alloc: Global, words: &[u8]) -> Result<Option<Op>, AllocError>
    ensures { IfOk result (ReadsOp (codes "read" ++ 32 ∷ words.now)) }
{
    match place_of(alloc, words)? {
        Some(counter) => Ok(Some(Op::Read(CtrNo::new(counter)))),
        None => Ok(None),
    }
}

fn scan_of(alloc: Global, words: &[u8]) -> Result<Option<Op>, AllocError>
    ensures { IfOk result (ReadsOp (codes "scan" ++ 32 ∷ words.now)) }
{
    match place_of(alloc, words)? {
        Some(relation) => Ok(Some(Op::Scan(RelNo::new(relation)))),
        None => Ok(None),
    }
}

/// The operation of its first word and the words after it.
fn op_with(alloc: Global, word: &[u8], words: &[u8]) -> Result<Option<Op>, AllocError>
    requires { IsUnspaced word.now }
    ensures { IfOk result (ReadsOp (word.now ++ 32 ∷ words.now)) }
{
    if is_text_of(word, "get") {
        get_of(alloc, words)
    } else if is_text_of(word, "insert") {
        insert_of(alloc, words)
    } else if is_text_of(word, "update") {
        update_of(alloc, words)
    } else if is_text_of(word, "delete") {
        delete_of(alloc, words)
    } else if is_text_of(word, "add") {
        add_of(alloc, words)
    } else if is_text_of(word, "read") {
        read_of(alloc, words)
    } else if is_text_of(word, "scan") {
        scan_of(alloc, words)
    } else {
        Ok(None)
    }
}

/// The operation that these bytes spell; `None` if they spell none. The only error is want of memory.
pub fn op_of(alloc: Global, bytes: &[u8]) -> Result<Option<Op>, AllocError>
    ensures { IfOk result (ReadsOp bytes.now) }
{
    match split_at_space(bytes) {
        Some((word, words)) => op_with(alloc, word, words),
        None => Ok(None),
    }
}

/// The line of one word.
fn bare_line_of(word: &[u8]) -> Option<Line>
    requires { IsUnspaced word.now }
    ensures { ReadsLine word.now result }
{
    if is_text_of(word, "begin") {
        Some(Line::Begin)
    } else if is_text_of(word, "save") {
        Some(Line::Save)
    } else if is_text_of(word, "commit") {
        Some(Line::Commit)
    } else if is_text_of(word, "abort") {
        Some(Line::Abort)
    } else {
        None
    }
}

/// `back N`, of the words after the first.
fn back_of(alloc: Global, words: &[u8]) -> Result<Option<Line>, AllocError>
    ensures { IfOk result (ReadsLine (codes "back" ++ 32 ∷ words.now)) }
{
    match place_of(alloc, words)? {
        Some(first) => Ok(Some(Line::Back(first))),
        None => Ok(None),
    }
}

/// The line of its first word and the words after it.
fn line_with(alloc: Global, word: &[u8], words: &[u8]) -> Result<Option<Line>, AllocError>
    requires { IsUnspaced word.now }
    ensures { IfOk result (ReadsLine (word.now ++ 32 ∷ words.now)) }
{
    if is_text_of(word, "back") {
        return back_of(alloc, words);
    }
    match op_with(alloc, word, words)? {
        Some(op) => Ok(Some(Line::Call(op))),
        None => Ok(None),
    }
}

/// The line that these bytes spell, without its end; `None` if they are not in the grammar. The
/// only error is want of memory.
pub fn line_of(alloc: Global, bytes: &[u8]) -> Result<Option<Line>, AllocError>
    ensures { IfOk result (ReadsLine bytes.now) }
{
    match split_at_space(bytes) {
        Some((word, words)) => line_with(alloc, word, words),
        None => Ok(bare_line_of(bytes)),
    }
}

/// The grammar of scripts.
pub struct ScriptGrammar;

impl Grammar for ScriptGrammar {
    ghost use Rattle.mt_script.specs.LineFaults.{script_form, script_word, script_words};
    ghost use Rattle.mt_script.specs.Lines.{line_text, IsInGrammar};
    ghost use Rattle.mt_script.specs.Whole.{line_whole};

    type Line = Line;

    type Word = ScriptWord;

    ghost text = { line_text };

    ghost IsIn = { IsInGrammar };

    ghost word_at = { script_word };

    ghost form = { script_form };

    ghost all_words = { script_words };

    ghost is_whole = { line_whole };

    fn line_of(alloc: Global, bytes: &[u8]) -> Result<Option<Line>, AllocError> {
        line_of(alloc, bytes)
    }

    fn word_of(bytes: &[u8]) -> Option<ScriptWord> {
        script_word(bytes)
    }

    fn form_of(word: ScriptWord) -> &'static str {
        script_form(word)
    }

    fn words() -> &'static str {
        "begin, get, insert, update, delete, add, read, scan, save, back, commit, abort"
    }
}

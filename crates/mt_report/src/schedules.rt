// The lines of a schedule, each an event that is read from its bytes.
ghost use Rattle.std.specs.Prelude.{◌≡◌, ◌≢◌, ◌∷◌, ◌++◌, IfOk, codes};
ghost use Rattle.std.specs.Fmt.{decimal};
ghost use Rattle.mt_script.specs.Lines.{IsUnspaced};
ghost use Rattle.mt_report.specs.Events.{ReadsEvent};

use crate::event_words::{EventWord, event_form, event_word};
use mt_base::TxnNo;
use mt_script::{Grammar, is_text_of, number_of, op_of, split_at_space};
use mt_world::Event;
use std::alloc::{AllocError, Global};

/// `call T OPERATION`, of the words after the first.
fn call_of(alloc: Global, words: &[u8]) -> Result<Option<Event>, AllocError>
    ensures { IfOk result (ReadsEvent (codes "call" ++ 32 ∷ words.now)) }
{
    let Some((word, rest)) = split_at_space(words) else {
        return Ok(None);
    };
    let Some(txn) = number_of(alloc, word)? else {
        return Ok(None);
    };
    match op_of(alloc, rest)? {
        Some(op) => Ok(Some(Event::Call(TxnNo::new(txn), op))),
        None => Ok(None),
    }
}

/// `back T N`, of the words after the first.
fn back_of(alloc: Global, words: &[u8]) -> Result<Option<Event>, AllocError>
    ensures { IfOk result (ReadsEvent (codes "back" ++ 32 ∷ words.now)) }
{
    let Some((word, rest)) = split_at_space(words) else {
        return Ok(None);
    };
    let Some(txn) = number_of(alloc, word)? else {
        return Ok(None);
    };
    let Some(count) = number_of(alloc, rest)? else {
        return Ok(None);
    };
    match u16::try_from(count) {
        Ok(first) => Ok(Some(Event::Back(TxnNo::new(txn), first))),
        Err(_) => Ok(None),
    }
}

/// `begin S`, if the number is one of a session.
fn begin_of(number: u64) -> Option<Event>
    ensures { ReadsEvent (codes "begin" ++ 32 ∷ decimal number) result }
{
    match u32::try_from(number) {
        Ok(session) => Some(Event::Begin(session)),
        Err(_) => None,
    }
}

/// The event of a word and the number after it.
fn numbered(word: &[u8], number: u64) -> Option<Event>
    requires unspaced { IsUnspaced word.now }
    requires call { word.now ≢ codes "call" }
    requires back { word.now ≢ codes "back" }
    ensures { ReadsEvent (word.now ++ 32 ∷ decimal number) result }
{
    if is_text_of(word, "begin") {
        begin_of(number)
    } else if is_text_of(word, "step") {
        Some(Event::Step(TxnNo::new(number)))
    } else if is_text_of(word, "commit") {
        Some(Event::Commit(TxnNo::new(number)))
    } else if is_text_of(word, "abort") {
        Some(Event::AbortBegin(TxnNo::new(number)))
    } else if is_text_of(word, "undo") {
        Some(Event::AbortStep(TxnNo::new(number)))
    } else if is_text_of(word, "backstep") {
        Some(Event::BackStep(TxnNo::new(number)))
    } else {
        None
    }
}

/// The event of its first word and the words after it.
fn event_with(alloc: Global, word: &[u8], words: &[u8]) -> Result<Option<Event>, AllocError>
    requires { IsUnspaced word.now }
    ensures { IfOk result (ReadsEvent (word.now ++ 32 ∷ words.now)) }
{
    if is_text_of(word, "call") {
        return call_of(alloc, words);
    }
    if is_text_of(word, "back") {
        return back_of(alloc, words);
    }
    match number_of(alloc, words)? {
        Some(number) => Ok(numbered(word, number)),
        None => Ok(None),
    }
}

/// The event of one word.
fn bare_event_of(word: &[u8]) -> Option<Event>
    requires { IsUnspaced word.now }
    ensures { ReadsEvent word.now result }
{
    if is_text_of(word, "force") {
        Some(Event::Force)
    } else if is_text_of(word, "flush") {
        Some(Event::Flush)
    } else if is_text_of(word, "rotate") {
        Some(Event::Rotate)
    } else {
        None
    }
}

/// The grammar of schedules.
///
/// | line | the event |
/// |---|---|
/// | `begin S` | a transaction of session S begins |
/// | `call T OPERATION` | transaction T calls an operation, in the words of scripts |
/// | `step T` | the operation of transaction T makes a step |
/// | `commit T`, `abort T` | the commit or the abort of transaction T begins |
/// | `undo T` | the abort of transaction T makes a step |
/// | `back T N` | transaction T begins to go back to its first N operations that count |
/// | `backstep T` | transaction T makes a step of going back |
/// | `force`, `flush` | the log is forced a step further; a frame is flushed |
/// | `rotate` | the log is turned over |
///
/// One space stands between two words. S fits 32 bits, T fits 64 and N fits 16, in decimal without leading zeros.
pub struct ScheduleGrammar;

impl Grammar for ScheduleGrammar {
    ghost use Rattle.mt_report.specs.EventWords.{event_form, event_word, event_words};
    ghost use Rattle.mt_report.specs.Events.{IsEvent, event_text};
    ghost use Rattle.mt_report.specs.WholeEvents.{event_whole};

    type Line = Event;

    type Word = EventWord;

    ghost text = { event_text };

    ghost IsIn = { IsEvent };

    ghost word_at = { event_word };

    ghost form = { event_form };

    ghost all_words = { event_words };

    ghost is_whole = { event_whole };

    fn line_of(alloc: Global, bytes: &[u8]) -> Result<Option<Event>, AllocError> {
        match split_at_space(bytes) {
            Some((word, words)) => event_with(alloc, word, words),
            None => Ok(bare_event_of(bytes)),
        }
    }

    fn word_of(bytes: &[u8]) -> Option<EventWord> {
        event_word(bytes)
    }

    fn form_of(word: EventWord) -> &'static str {
        event_form(word)
    }

    fn words() -> &'static str {
        "begin, call, step, commit, abort, undo, back, backstep, force, flush, rotate"
    }
}

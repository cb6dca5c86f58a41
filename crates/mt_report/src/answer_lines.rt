// What a kernel answers to events, written as lines.
ghost use Rattle.std.specs.Prelude.{◌≡◌, ◌∷◌, ◌++◌, [], OnOk, OnErr, codes, map};
ghost use Rattle.std.specs.Fmt.{decimal};
ghost use Rattle.std.specs.Io.KnownBytes.{Appends};
ghost use Rattle.std.specs.List.{concat};
ghost use Rattle.mt_report.specs.AnswerLines.{name_text, reported_line, reported_lines, undo_text};
ghost use Rattle.mt_script.specs.Answers.{AppendsFront};
ghost use Rattle.mt_world.specs.declared.events.Answer.TheVariants as answer;

use itoa::Buffer;
use mt_base::TxnNo;
use mt_script::{Unheard, put, put_all, write_answer, write_reply};
use mt_txn::{AbortStepped, Called, Flushed, KernelForced, Stepped};
use mt_world::Answer;
use std::io::Write;

/// Writes a line of a word and the number after it. If the writer fails, it has written a beginning of the line.
pub fn write_number<W: Write>(writer: &mut W, word: &str, number: u64) -> Result<(), Unheard>
    ensures all { OnOk result (Appends (W.contents writer.old) (W.contents writer.new)
        (word.now ++ (decimal number ++ 10 ∷ []))) }
    ensures front { OnErr result (AppendsFront (W.contents writer.old) (W.contents writer.new)
        (word.now ++ (decimal number ++ 10 ∷ []))) }
{
    let mut digits = Buffer::new();
    let digits = digits.format(number);
    put_all(writer, &[word.as_bytes(), digits.as_bytes(), b"\n"])
}

/// Writes what a call came to.
fn write_called<W: Write>(writer: &mut W, called: Called) -> Result<(), Unheard>
    ensures all { OnOk result (Appends (W.contents writer.old) (W.contents writer.new)
        (reported_line (answer.Called called))) }
    ensures front { OnErr result (AppendsFront (W.contents writer.old) (W.contents writer.new)
        (reported_line (answer.Called called))) }
{
    match called {
        Called::Started => put(writer, b"started\n"),
        Called::Wait(txn) => write_number(writer, "wait ", txn.get()),
    }
}

/// Writes what a step of an operation came to.
fn write_stepped<W: Write>(writer: &mut W, stepped: &Stepped) -> Result<(), Unheard>
    ensures all { OnOk result (Appends (W.contents writer.old) (W.contents writer.new)
        (reported_line (answer.Stepped stepped.now))) }
    ensures front { OnErr result (AppendsFront (W.contents writer.old) (W.contents writer.new)
        (reported_line (answer.Stepped stepped.now))) }
{
    match stepped {
        Stepped::Went => put(writer, b"went\n"),
        Stepped::Wait(txn) => write_number(writer, "wait ", txn.get()),
        Stepped::Again => put(writer, b"again\n"),
        Stepped::Flush => put(writer, b"flush\n"),
        Stepped::Replied(reply) => write_reply(writer, reply),
    }
}

/// Writes what a step that undoes came to, in an abort or in going back.
fn write_undone<W: Write>(writer: &mut W, stepped: AbortStepped) -> Result<(), Unheard>
    ensures all { OnOk result (Appends (W.contents writer.old) (W.contents writer.new)
        (undo_text stepped ++ 10 ∷ [])) }
    ensures front { OnErr result (AppendsFront (W.contents writer.old) (W.contents writer.new)
        (undo_text stepped ++ 10 ∷ [])) }
{
    match stepped {
        AbortStepped::More => put(writer, b"more\n"),
        AbortStepped::Wait(txn) => write_number(writer, "wait ", txn.get()),
        AbortStepped::Again => put(writer, b"again\n"),
        AbortStepped::Flush => put(writer, b"flush\n"),
        AbortStepped::Ended => put(writer, b"ended\n"),
    }
}

/// Writes the name of a transaction after a space.
fn write_name<W: Write>(writer: &mut W, name: TxnNo) -> Result<(), Unheard>
    ensures all { OnOk result (Appends (W.contents writer.old) (W.contents writer.new) (name_text name)) }
    ensures front { OnErr result (AppendsFront (W.contents writer.old) (W.contents writer.new) (name_text name)) }
{
    let mut digits = Buffer::new();
    let digits = digits.format(name.get());
    put(writer, b" ")?;
    put(writer, digits.as_bytes())
}

/// Writes the names of transactions, each after a space.
fn write_names<W: Write>(writer: &mut W, names: &[TxnNo]) -> Result<(), Unheard>
    ensures all { OnOk result (Appends (W.contents writer.old) (W.contents writer.new)
        (concat (map name_text names.now))) }
    ensures front { OnErr result (AppendsFront (W.contents writer.old) (W.contents writer.new)
        (concat (map name_text names.now))) }
{
    for name in names {
        write_name(writer, *name)?;
    }
    Ok(())
}

/// Writes which transactions are durable.
fn write_durable<W: Write>(writer: &mut W, names: &[TxnNo]) -> Result<(), Unheard>
    ensures all { OnOk result (Appends (W.contents writer.old) (W.contents writer.new)
        ((codes "durable" ++ concat (map name_text names.now)) ++ 10 ∷ [])) }
    ensures front { OnErr result (AppendsFront (W.contents writer.old) (W.contents writer.new)
        ((codes "durable" ++ concat (map name_text names.now)) ++ 10 ∷ [])) }
{
    put(writer, b"durable")?;
    write_names(writer, names)?;
    put(writer, b"\n")
}

/// Writes what a step of a force came to.
fn write_forced<W: Write>(writer: &mut W, forced: &KernelForced) -> Result<(), Unheard>
    ensures all { OnOk result (Appends (W.contents writer.old) (W.contents writer.new)
        (reported_line (answer.Forced forced.now))) }
    ensures front { OnErr result (AppendsFront (W.contents writer.old) (W.contents writer.new)
        (reported_line (answer.Forced forced.now))) }
{
    match forced {
        KernelForced::More => put(writer, b"more\n"),
        KernelForced::Idle => put(writer, b"idle\n"),
        KernelForced::Durable(names) => write_durable(writer, names.as_slice()),
    }
}

/// Writes what a flush came to.
fn write_flushed<W: Write>(writer: &mut W, flushed: Flushed) -> Result<(), Unheard>
    ensures all { OnOk result (Appends (W.contents writer.old) (W.contents writer.new)
        (reported_line (answer.Flushed flushed))) }
    ensures front { OnErr result (AppendsFront (W.contents writer.old) (W.contents writer.new)
        (reported_line (answer.Flushed flushed))) }
{
    match flushed {
        Flushed::Page(page) => write_number(writer, "page ", page.get() as u64),
        Flushed::Force => put(writer, b"force\n"),
        Flushed::Clean => put(writer, b"clean\n"),
    }
}

/// Writes what a kernel answered to an event: a line, and one more for each row of a scan. If the writer fails, it
/// has written a beginning of them.
fn write_reported<W: Write>(writer: &mut W, answer: &Answer) -> Result<(), Unheard>
    ensures all { OnOk result (Appends (W.contents writer.old) (W.contents writer.new) (reported_line answer.now)) }
    ensures front { OnErr result (AppendsFront (W.contents writer.old) (W.contents writer.new)
        (reported_line answer.now)) }
{
    match answer {
        Answer::Begun(txn) => write_number(writer, "begun ", txn.get()),
        Answer::Called(called) => write_called(writer, *called),
        Answer::Stepped(stepped) => write_stepped(writer, stepped),
        Answer::Committing(place) => write_number(writer, "committing ", *place),
        Answer::Aborting => put(writer, b"aborting\n"),
        Answer::Undone(stepped) => write_undone(writer, *stepped),
        Answer::Returning => put(writer, b"returning\n"),
        Answer::Returned(stepped) => write_undone(writer, *stepped),
        Answer::Forced(forced) => write_forced(writer, forced),
        Answer::Flushed(flushed) => write_flushed(writer, *flushed),
        Answer::Rotated => put(writer, b"rotated\n"),
        Answer::Refused(refusal) => write_answer(writer, &mt_script::Answer::Refused(*refusal)),
    }
}

/// Writes what a kernel answered to events, a line each. If the writer fails, it has written a beginning of
/// them.
pub fn write_all_reported<W: Write>(writer: &mut W, answers: &[Answer]) -> Result<(), Unheard>
    ensures all { OnOk result (Appends (W.contents writer.old) (W.contents writer.new) (reported_lines answers.now)) }
    ensures front { OnErr result (AppendsFront (W.contents writer.old) (W.contents writer.new)
        (reported_lines answers.now)) }
{
    for answer in answers {
        write_reported(writer, answer)?;
    }
    Ok(())
}

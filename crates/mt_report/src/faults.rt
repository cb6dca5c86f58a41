// Why a command did not end well, and what is printed of it.
ghost use Rattle.std.specs.Prelude.{◌≡◌, ◌++◌, [], OnOk, OnErr, codes, get_or, map, string_bytes};
ghost use Rattle.std.specs.Io.KnownBytes.{Appends};
ghost use Rattle.mt_script.specs.Answers.{AppendsFront};
ghost use Rattle.mt_report.specs.Advice.{IsReportedOf, about, advice_at, advice_line, advice_of, advice_on, device_advice, fault_line, file_advice, format_advice, line_advice, memory_advice, named_in, script_advice, script_named, shown_file, shown_name, stop_advice, reported_of, unread_advice, unread_text};

use crate::event_words::EventWord;
use crate::excess::{excess_in, write_excess};
use crate::read_faults::{ReadFault, TextFault};
use crate::schedules::ScheduleGrammar;
use itoa::Buffer;
use mt_alone::Stop;
use mt_args::Command;
use mt_base::Refusal;
use mt_base::limits::MASTER_BYTES;
use mt_folder::Reason;
use mt_script::{
    Answer, Grammar, LineFault, ScriptGrammar, ScriptWord, Unheard, put, put_all, write_answer,
};
use std::io::Write;

/// Why a command did not end well. What it left then is for the command to say.
#[derive(Drop)]
pub enum Fault {
    /// The output cannot be written.
    Output,
    /// What was asked for was refused.
    Refused(Refusal),
    /// A line of a script was refused, and the run was to stop there.
    Stopped(Stop),
    /// The script at this index of those that are named, from 0, was not read.
    Unread(ReadFault<ScriptWord>, usize),
    /// The schedule was not read.
    Unscheduled(ReadFault<EventWord>),
}

/// What is printed of an output that cannot be written.
const NO_OUTPUT: &str = "the output cannot be written\n";

/// What the input is called.
const INPUT: &str = "standard input";

/// What the output is called.
const OUTPUT: &str = "standard output";

/// What the program is called, if no file is meant.
const PROGRAM: &str = "mtk";

/// A file's name, as people see it: one without a letter is shown, too.
fn shown(name: &str) -> &str
    ensures { result.now ≡ shown_file name.now }
{
    if name.is_empty() { "''" } else { name }
}

/// The name of a script or a schedule, as it is printed: a dash is the input.
fn shown_script(name: &str) -> &str
    ensures { result.now ≡ shown_name name.now }
{
    if name == "-" { INPUT } else { shown(name) }
}

/// What people see of the name of the script at an index of those that are named.
fn script_name(scripts: &[String], at: usize) -> &str
    ensures { result.now ≡ shown_name (get_or (map string_bytes scripts.now) at []) }
{
    match scripts.get(at) {
        Some(name) => shown_script(name.as_str()),
        None => shown(""),
    }
}

/// The file that a command names first, or what the input is called.
fn named_in(command: &Command) -> &str
    ensures { result.now ≡ named_in command.now }
{
    match command {
        Command::Try {
            script: Some(name),
            ..
        } => shown_script(name.as_str()),
        Command::Try { script: None, .. } => INPUT,
        Command::Schedule { file: Some(name) } => shown_script(name.as_str()),
        Command::Schedule { file: None } => INPUT,
        Command::Check { file, .. } => shown(file.as_str()),
        Command::Format { file, .. } => shown(file.as_str()),
        Command::Dump { file, .. } => shown(file.as_str()),
        Command::Explain { file, .. } => shown(file.as_str()),
        Command::Migrate { file, .. } => shown(file.as_str()),
        Command::Run { serving, .. } => shown(serving.file.as_str()),
        Command::Show { text: _ } => PROGRAM,
    }
}

/// The name of the script at an index of those that a command names.
fn script_named(command: &Command, at: usize) -> &str
    ensures { result.now ≡ script_named command.now at }
{
    match command {
        Command::Run { serving, .. } => script_name(serving.scripts.as_slice(), at),
        _ => named_in(command),
    }
}

/// The name of the file or of the stream that a fault of a command is about.
fn name_for<'a>(command: &'a Command, fault: &Fault) -> &'a str
    ensures { result.now ≡ about command.now fault.now }
{
    match fault {
        Fault::Output => OUTPUT,
        Fault::Refused(_) => named_in(command),
        Fault::Stopped(stop) => script_named(command, (stop.session as usize).saturating_sub(1)),
        Fault::Unread(_, at) => script_named(command, *at),
        Fault::Unscheduled(_) => named_in(command),
    }
}

/// Writes the line of a fault.
fn write_fault<W: Write>(writer: &mut W, fault: &Fault) -> Result<(), Unheard>
    ensures all { OnOk result (Appends (W.contents writer.old) (W.contents writer.new) (fault_line fault.now)) }
    ensures front { OnErr result (AppendsFront (W.contents writer.old) (W.contents writer.new)
        (fault_line fault.now)) }
{
    match fault {
        Fault::Output => put(writer, NO_OUTPUT.as_bytes()),
        Fault::Refused(refusal) => write_answer(writer, &Answer::Refused(*refusal)),
        Fault::Stopped(stop) => write_answer(writer, &Answer::Refused(stop.why)),
        Fault::Unread(why, _) => write_answer(writer, &Answer::Refused(why.refusal())),
        Fault::Unscheduled(why) => write_answer(writer, &Answer::Refused(why.refusal())),
    }
}

/// What to do about bytes that break the format at an offset.
fn advice_at(place: u64) -> &'static str
    ensures { result.now ≡ advice_at place }
{
    if place < MASTER_BYTES {
        "the file is shorter than its first bytes tell, or these are damaged; take a copy that is whole"
    } else {
        "the bytes at that place are none that a device can have; keep a copy of the file"
    }
}

/// What to do if memory was wanting.
fn memory_advice(command: &Command) -> &'static str
    ensures { result.now ≡ memory_advice command.now }
{
    match command {
        Command::Run { .. } => "there is not enough memory; `run` takes less with fewer frames",
        _ => "there is not enough memory",
    }
}

/// Why a file is not had, or what to do about it.
fn file_advice(reason: &Option<Reason>) -> &'static str
    ensures { result.now ≡ file_advice reason.now }
{
    match reason {
        Some(reason) => reason.text(),
        None => {
            "see that it is there, can be read and written, is open in no other program, and that its disk has room"
        }
    }
}

/// Why a script is not read, or what to do about it.
fn script_advice(reason: &Option<Reason>) -> &'static str
    ensures { result.now ≡ script_advice reason.now }
{
    match reason {
        Some(reason) => reason.text(),
        None => "see that it is there and can be read",
    }
}

/// What to do about a device of another format than a command takes.
fn format_advice(command: &Command) -> &'static str
    ensures { result.now ≡ format_advice command.now }
{
    match command {
        Command::Migrate { .. } => "it is of format 2 already, and can be opened",
        _ => "it is of format 1; `mtk migrate` carries it over to format 2",
    }
}

/// Writes what to do about a refusal of a command, if the folder's call failed for this reason.
fn write_advice_on<W: Write>(
    writer: &mut W,
    command: &Command,
    reason: &Option<Reason>,
    refusal: &Refusal,
) -> Result<(), Unheard>
    ensures all { OnOk result (Appends (W.contents writer.old) (W.contents writer.new)
        (advice_on command.now reason.now refusal.now)) }
    ensures front { OnErr result (AppendsFront (W.contents writer.old) (W.contents writer.new)
        (advice_on command.now reason.now refusal.now)) }
{
    match refusal {
        Refusal::NoMemory => put(writer, memory_advice(command).as_bytes()),
        Refusal::DeviceFailed => put(writer, file_advice(reason).as_bytes()),
        Refusal::NotFormatted => put(
            writer,
            b"this is no device, or its format did not end; `mtk format` makes one",
        ),
        Refusal::BadFormat(place) => put(writer, advice_at(*place).as_bytes()),
        Refusal::BadLength => write_excess(writer, &excess_in(command)),
        Refusal::LogFull => put(
            writer,
            b"its log cannot be turned over; keep the file, which `mtk check` still reads",
        ),
        Refusal::WrongFormat => put(writer, format_advice(command).as_bytes()),
        _ => put(writer, b"see docs/MANUAL.md"),
    }
}

/// What a script or a schedule is that is a device; `run` takes that before its scripts.
fn device_advice(command: &Command) -> &'static str
    ensures { result.now ≡ device_advice command.now }
{
    match command {
        Command::Run { .. } => "that is a device, and no script; FILE comes first",
        Command::Schedule { file: _ } => "that is a device, and no schedule",
        _ => "that is a device, and no script",
    }
}

/// Writes what is wrong with a line that is not in the grammar.
fn write_line_advice<G: Grammar, W: Write>(
    writer: &mut W,
    fault: &LineFault<G::Word>,
) -> Result<(), Unheard>
    ensures all { OnOk result (Appends (W.contents writer.old) (W.contents writer.new)
        (line_advice G.form G.all_words fault.now)) }
    ensures front { OnErr result (AppendsFront (W.contents writer.old) (W.contents writer.new)
        (line_advice G.form G.all_words fault.now)) }
{
    match fault {
        LineFault::TooManyLines => put(writer, b"there are more than 100,000 lines"),
        LineFault::TooLong => put(writer, b"that line has more than 4,096 bytes"),
        LineFault::Unended => put(writer, b"that line is the last, and no line feed ends it"),
        LineFault::Blank => put(writer, b"that line is blank"),
        LineFault::CarriageReturn => put(
            writer,
            b"that line ends with a carriage return and a line feed; a line feed alone ends a line",
        ),
        LineFault::Tab => put(
            writer,
            b"that line has a tab; one space stands between two words",
        ),
        LineFault::Unprintable => put(
            writer,
            b"that line has a byte that is not printable ASCII (0x20 to 0x7E)",
        ),
        LineFault::UnknownWord => put_all(
            writer,
            &[
                b"that line begins with none of these words: ",
                G::words().as_bytes(),
                b"; see docs/MANUAL.md",
            ],
        ),
        LineFault::WrongOperands(word) => put_all(
            writer,
            &[
                b"that line has to be `",
                G::form_of(*word).as_bytes(),
                b"`; see docs/MANUAL.md",
            ],
        ),
    }
}

/// Writes why a script or a schedule was not read, or what to do about it.
fn write_unread_advice<G: Grammar, W: Write>(
    writer: &mut W,
    command: &Command,
    reason: &Option<Reason>,
    why: &ReadFault<G::Word>,
) -> Result<(), Unheard>
    ensures all { OnOk result (Appends (W.contents writer.old) (W.contents writer.new)
        (unread_advice G.form G.all_words command.now reason.now why.now)) }
    ensures front { OnErr result (AppendsFront (W.contents writer.old) (W.contents writer.new)
        (unread_advice G.form G.all_words command.now reason.now why.now)) }
{
    match why {
        ReadFault::Refused(Refusal::DeviceFailed) => put(writer, script_advice(reason).as_bytes()),
        ReadFault::Refused(refusal) => write_advice_on(writer, command, reason, refusal),
        ReadFault::BadLine(_, TextFault::Overlong) => put(
            writer,
            b"that text is longer than 100,000 lines of 4,096 bytes",
        ),
        ReadFault::BadLine(_, TextFault::Device) => put(writer, device_advice(command).as_bytes()),
        ReadFault::BadLine(_, TextFault::Line(fault)) => write_line_advice::<G, W>(writer, fault),
    }
}

/// Writes at which line of its script a run stopped.
fn write_stop<W: Write>(writer: &mut W, line: usize) -> Result<(), Unheard>
    ensures all { OnOk result (Appends (W.contents writer.old) (W.contents writer.new) (stop_advice line)) }
    ensures front { OnErr result (AppendsFront (W.contents writer.old) (W.contents writer.new)
        (stop_advice line)) }
{
    let mut digits = Buffer::new();
    let digits = digits.format(line);
    put_all(
        writer,
        &[
            b"line ",
            digits.as_bytes(),
            b" was refused so, and nothing after it ran",
        ],
    )
}

/// Writes what to do about a fault of a command.
fn write_advice<W: Write>(
    writer: &mut W,
    command: &Command,
    reason: &Option<Reason>,
    fault: &Fault,
) -> Result<(), Unheard>
    ensures all { OnOk result (Appends (W.contents writer.old) (W.contents writer.new)
        (advice_of command.now reason.now fault.now)) }
    ensures front { OnErr result (AppendsFront (W.contents writer.old) (W.contents writer.new)
        (advice_of command.now reason.now fault.now)) }
{
    match fault {
        Fault::Output => put(
            writer,
            b"see that its disk has room and that its reader goes on; what was committed stands",
        ),
        Fault::Refused(refusal) => write_advice_on(writer, command, reason, refusal),
        Fault::Stopped(stop) => write_stop(writer, stop.line),
        Fault::Unread(why, _) => {
            write_unread_advice::<ScriptGrammar, W>(writer, command, reason, why)
        }
        Fault::Unscheduled(why) => {
            write_unread_advice::<ScheduleGrammar, W>(writer, command, reason, why)
        }
    }
}

/// Writes what a fault of a command is about, as a line of it begins.
fn write_about<W: Write>(writer: &mut W, command: &Command, fault: &Fault) -> Result<(), Unheard>
    ensures all { OnOk result (Appends (W.contents writer.old) (W.contents writer.new)
        (about command.now fault.now ++ codes ": ")) }
    ensures front { OnErr result (AppendsFront (W.contents writer.old) (W.contents writer.new)
        (about command.now fault.now ++ codes ": ")) }
{
    put_all(writer, &[name_for(command, fault).as_bytes(), b": "])
}

/// Writes the line of what a fault of a command is about and what to do.
fn write_advice_line<W: Write>(
    writer: &mut W,
    command: &Command,
    reason: &Option<Reason>,
    fault: &Fault,
) -> Result<(), Unheard>
    ensures all { OnOk result (Appends (W.contents writer.old) (W.contents writer.new)
        (advice_line (about command.now fault.now) (advice_of command.now reason.now fault.now))) }
    ensures front { OnErr result (AppendsFront (W.contents writer.old) (W.contents writer.new)
        (advice_line (about command.now fault.now) (advice_of command.now reason.now fault.now))) }
{
    write_about(writer, command, fault)?;
    write_advice(writer, command, reason, fault)?;
    put(writer, b"\n")
}

/// Writes the line of a fault of a command, and after it what it is about and what to do.
fn write_reported<W: Write>(
    writer: &mut W,
    command: &Command,
    reason: &Option<Reason>,
    fault: &Fault,
) -> Result<(), Unheard>
    ensures all { OnOk result (Appends (W.contents writer.old) (W.contents writer.new)
        (reported_of command.now reason.now fault.now)) }
    ensures front { OnErr result (AppendsFront (W.contents writer.old) (W.contents writer.new)
        (reported_of command.now reason.now fault.now)) }
{
    write_fault(writer, fault)?;
    write_advice_line(writer, command, reason, fault)
}

/// Writes that there is no memory for the words of a command line.
fn write_unread<W: Write>(writer: &mut W) -> Result<(), Unheard>
    ensures all { OnOk result (Appends (W.contents writer.old) (W.contents writer.new) unread_text) }
    ensures front { OnErr result (AppendsFront (W.contents writer.old) (W.contents writer.new) unread_text) }
{
    write_fault(writer, &Fault::Refused(Refusal::NoMemory))?;
    put(writer, b"mtk: there is not enough memory\n")
}

/// Reports on the error output that there is no memory for what the words of a command line name. If it cannot be
/// written, it has a beginning of these two lines.
pub fn report_unread<E: Write>(err: &mut E)
    ensures { AppendsFront (E.contents err.old) (E.contents err.new) unread_text }
{
    let _ = write_unread(err);
}

/// Reports on the error output a fault of a command, the file that it is about, and what to do. The reason is why the
/// folder's call failed. If the error output cannot be written, it has a beginning of these two lines.
pub fn report_fault<E: Write>(
    err: &mut E,
    command: &Command,
    reason: &Option<Reason>,
    fault: &Fault,
)
    ensures { IsReportedOf command.now reason.now fault.now (E.contents err.old) (E.contents err.new) }
{
    let _ = write_reported(err, command, reason, fault);
}

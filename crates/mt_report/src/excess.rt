// Which number of a command is outside its limits, and what is printed of it.
ghost use Rattle.std.specs.Prelude.{◌≡◌, OnErr, OnOk};
ghost use Rattle.std.specs.Io.KnownBytes.{Appends};
ghost use Rattle.mt_script.specs.Answers.{AppendsFront};
ghost use Rattle.mt_report.specs.Excess.{counter_excess, counter_excess_text, counters_excess, excess_in, excess_of, excess_text, is_counter, lies_within, or_sums, outside_text};

use itoa::Buffer;
use mt_args::{Command, Growth, Numbers};
use mt_base::limits::{
    MAX_AREA_MIB, MAX_BOUND, MAX_COUNTERS, MAX_PAGES, MAX_RELATIONS, MAX_SESSIONS, MIN_AREA_MIB,
    MIN_PAGES,
};
use mt_script::{Unheard, put, put_all};
use std::io::Write;

/// A number of a command that is outside its limits.
#[derive(Clone, Copy)]
pub(crate) enum Excess {
    /// Pages of a device.
    Pages(u64),
    /// MiB of a log area.
    Area(u64),
    /// Relations.
    Relations(u64),
    /// How many counters there are.
    Counters(u64),
    /// Low, high and start of a counter.
    Counter(i64, i64, i64),
    /// The sum of relations or of counters, with those that a device has.
    Sums,
    /// How many scripts there are.
    Scripts(u64),
    /// None is.
    Nothing,
}

/// Whether a number lies within these limits.
fn lies_within(low: u64, high: u64, number: u64) -> bool
    ensures { result ≡ lies_within low high number }
{
    low <= number && number <= high
}

/// Whether a counter lies within its limits.
fn is_counter(low: i64, high: i64, start: i64) -> bool
    ensures { result ≡ is_counter low high start }
{
    -MAX_BOUND <= low && low <= start && start <= high && high <= MAX_BOUND
}

/// The first of these counters that is outside its limits.
fn counter_excess(counters: &[(i64, i64, i64)]) -> Excess
    ensures { result ≡ counter_excess counters.now }
{
    for &(low, high, start) in counters {
        if !is_counter(low, high, start) {
            return Excess::Counter(low, high, start);
        }
    }
    Excess::Nothing
}

/// What is outside its limits of counters: their count, or the first of them that is.
fn counters_excess(counters: &[(i64, i64, i64)]) -> Excess
    ensures { result ≡ counters_excess counters.now }
{
    if counters.len() <= usize::from(MAX_COUNTERS) {
        counter_excess(counters)
    } else {
        Excess::Counters(counters.len() as u64)
    }
}

/// The first of the numbers of a format that is outside its limits.
fn excess_of(numbers: &Numbers) -> Excess
    ensures { result ≡ excess_of numbers.now }
{
    if !lies_within(u64::from(MIN_PAGES), u64::from(MAX_PAGES), numbers.pages) {
        Excess::Pages(numbers.pages)
    } else if !lies_within(
        u64::from(MIN_AREA_MIB),
        u64::from(MAX_AREA_MIB),
        numbers.area,
    ) {
        Excess::Area(numbers.area)
    } else if !lies_within(1, u64::from(MAX_RELATIONS), numbers.relations) {
        Excess::Relations(numbers.relations)
    } else {
        counters_excess(numbers.counters.as_slice())
    }
}

/// What is outside its limits of what a schema is to get more. If no counter is, it is a sum, which the device alone
/// knows.
fn growth_excess(growth: &Growth) -> Excess
    ensures { result ≡ or_sums (counters_excess growth.now.counters.items) }
{
    match counters_excess(growth.counters.as_slice()) {
        Excess::Nothing => Excess::Sums,
        excess => excess,
    }
}

/// The first number of a command that is outside its limits.
pub(crate) fn excess_in(command: &Command) -> Excess
    ensures { result ≡ excess_in command.now }
{
    match command {
        Command::Format { numbers, .. } => excess_of(numbers),
        Command::Migrate { growth, .. } => growth_excess(growth),
        Command::Run { serving, .. } => {
            let many = serving.scripts.len() as u64;
            if lies_within(1, MAX_SESSIONS as u64, many) {
                Excess::Nothing
            } else {
                Excess::Scripts(many)
            }
        }
        _ => Excess::Nothing,
    }
}

/// Writes which number is outside of which limits.
fn write_outside<W: Write>(
    writer: &mut W,
    name: &str,
    number: u64,
    limits: &str,
) -> Result<(), Unheard>
    ensures all { OnOk result (Appends (W.contents writer.old) (W.contents writer.new)
        (outside_text name.now number limits.now)) }
    ensures front { OnErr result (AppendsFront (W.contents writer.old) (W.contents writer.new)
        (outside_text name.now number limits.now)) }
{
    let mut digits = Buffer::new();
    let digits = digits.format(number);
    put_all(
        writer,
        &[
            name.as_bytes(),
            b" is ",
            digits.as_bytes(),
            b": it must be ",
            limits.as_bytes(),
        ],
    )
}

/// Writes which counter is outside its limits.
fn write_counter<W: Write>(writer: &mut W, low: i64, high: i64, start: i64) -> Result<(), Unheard>
    ensures all { OnOk result (Appends (W.contents writer.old) (W.contents writer.new)
        (counter_excess_text low high start)) }
    ensures front { OnErr result (AppendsFront (W.contents writer.old) (W.contents writer.new)
        (counter_excess_text low high start)) }
{
    let (mut lows, mut highs, mut starts) = (Buffer::new(), Buffer::new(), Buffer::new());
    put_all(
        writer,
        &[
            b"COUNTER c",
            lows.format(low).as_bytes(),
            b":",
            highs.format(high).as_bytes(),
            b":",
            starts.format(start).as_bytes(),
            b": it must be LOW <= START <= HIGH, from -1000000000000000 to 1000000000000000",
        ],
    )
}

/// Writes which number is outside of its limits.
pub(crate) fn write_excess<W: Write>(writer: &mut W, excess: &Excess) -> Result<(), Unheard>
    ensures all { OnOk result (Appends (W.contents writer.old) (W.contents writer.new) (excess_text excess.now)) }
    ensures front { OnErr result (AppendsFront (W.contents writer.old) (W.contents writer.new)
        (excess_text excess.now)) }
{
    match excess {
        Excess::Pages(number) => write_outside(writer, "PAGES", *number, "16 to 4000"),
        Excess::Area(number) => write_outside(writer, "AREA", *number, "4 to 64"),
        Excess::Relations(number) => write_outside(writer, "RELATIONS", *number, "1 to 64"),
        Excess::Counters(number) => {
            write_outside(writer, "the number of counters", *number, "at most 128")
        }
        Excess::Counter(low, high, start) => write_counter(writer, *low, *high, *start),
        Excess::Sums => put(
            writer,
            b"with those that the device has it must be at most 64 relations and 128 counters",
        ),
        Excess::Scripts(number) => {
            write_outside(writer, "the number of scripts", *number, "1 to 64")
        }
        Excess::Nothing => put(writer, b"see docs/MANUAL.md"),
    }
}

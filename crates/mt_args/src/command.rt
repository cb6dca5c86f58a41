// The command line, read by `clap`.
ghost use Rattle.std.specs.Prelude.{◌≡◌, ◌≢◌, List, [], Any, IfOk, IfErr, Some, codes, map, option_map, string_bytes, ⊤};
ghost use Rattle.clap.specs.Words.{Text, found_of, one_of, rows_of, subcommand_rows_of};
ghost use Rattle.mt_args.specs.CommandLines.{counters_at, text_at, AreNumbersAt, IsCommandOf, IsEntered, IsFaultAt, IsFaultOf, IsFlag, IsGrowthAt, IsMisread, IsMisspelled, IsMisspelledAt, IsNoGrowthAt, IsRun};
ghost use Rattle.mt_args.specs.Spelling.{SpellCounters, IsNoCount, IsNoCounter, SpellsCount};

use crate::numbers::{Growth, Numbers, count_of, counters_of};
use crate::parsers::parser;
use crate::run_words::{Serving, serving_of};
use crate::waits::wait_in;
use clap::ArgMatches;
use clap::error::ErrorKind;
use mt_base::Refusal;
use std::alloc::{AllocError, Global};
use thiserror::Error;

/// What the program is asked to do.
///
/// A command with `wait` asks so many seconds long for a file that is open in another program. A script with `stop`
/// ends at its first line that is refused with anything but 9 and 14.
#[derive(Debug, Drop)]
pub enum Command {
    /// Runs one script over a device in memory, from this file, or from standard input.
    Try {
        script: Option<String>,
        stop: bool,
    },
    /// Runs a schedule of events over a device in memory, from this file, or from standard input.
    Schedule {
        file: Option<String>,
    },
    /// Prints what the log of the device in this file holds, and has its pages inspected if that is asked for.
    Check {
        file: String,
        pages: bool,
        wait: usize,
    },
    /// Makes a device of a schema of these numbers in this file, or in its place.
    Format {
        file: String,
        numbers: Numbers,
        wait: usize,
    },
    /// Opens the device in this file, and prints its base.
    Dump {
        file: String,
        wait: usize,
    },
    /// Prints the log of the device in this file as a history, and what a restart would do.
    Explain {
        file: String,
        wait: usize,
    },
    /// Carries the device in this file over to format 2, with so many relations more, and these counters.
    Migrate {
        file: String,
        growth: Growth,
        wait: usize,
    },
    /// Opens the device in a file, and serves scripts to it.
    Run {
        serving: Serving,
        wait: usize,
    },
    /// Prints this text: the help or the version.
    Show {
        text: String,
    },
}

/// Why a command line names no command.
#[derive(Debug, Drop, Error)]
pub enum CliFault {
    /// The words are no command. The text says what is wrong with them.
    #[error("{0}")]
    Usage(String),
    /// `NoMemory`.
    #[error("{0}")]
    Refused(Refusal),
}

impl From<AllocError> for CliFault {
    ghost use Rattle.mt_base.specs.declared.refusal.Refusal.{Refusal};
    ghost use Rattle.mt_args.specs.declared.command.CliFault.{CliFault};
    ghost use Rattle.std.specs.Prelude.{◌≡◌};

    ghost from_gives = { λ _ fault. fault ≡ CliFault.Refused Refusal.NoMemory };

    fn from(_error: AllocError) -> CliFault {
        CliFault::Refused(Refusal::NoMemory)
    }
}

const PAGES_RULE: &str =
    "error: PAGES is not spelled as a number: decimal, without a sign or leading zeros

For more information, try '--help'.
";

const AREA_RULE: &str =
    "error: AREA is not spelled as a number: decimal, without a sign or leading zeros

For more information, try '--help'.
";

const RELATIONS_RULE: &str =
    "error: RELATIONS is not spelled as a number: decimal, without a sign or leading zeros

For more information, try '--help'.
";

const COUNTER_RULE: &str =
    "error: a COUNTER is not spelled as cLOW:HIGH:START: three decimal numbers without leading zeros

For more information, try '--help'.
";

/// A text, in memory of its own.
fn copied(alloc: Global, text: Option<&str>) -> Result<Option<String>, AllocError>
    ensures { IfOk result (λ copy. option_map string_bytes copy ≡ option_map (λ t. t.now) text.entry) }
{
    match text {
        Some(text) => Ok(Some(String::from_str(alloc, text)?)),
        None => Ok(None),
    }
}

/// The word of an argument that must be given. The parser lets no words pass without it.
pub(crate) fn text_in<'a>(found: &ArgMatches<'a>, id: &str) -> &'a str
    ensures { result.now ≡ text_at id.now (rows_of (found_of found.now)) }
{
    found.get_str(id).unwrap_or("")
}

/// The file that a command must name, in memory of its own.
pub(crate) fn required_file(alloc: Global, found: &ArgMatches) -> Result<String, AllocError>
    ensures { IfOk result (λ file. string_bytes file ≡ text_at (codes "file") (rows_of (found_of found.now))) }
{
    String::from_str(alloc, text_in(found, "file"))
}

/// Whether a flag was found.
pub(crate) fn flag_in(found: &ArgMatches, id: &str) -> bool
    ensures { IsFlag (one_of id.now (rows_of (found_of found.now))) result }
{
    found.get_flag(id)
}

/// `check`, with what was found after its name.
fn check_of(alloc: Global, found: &ArgMatches) -> Result<Command, CliFault>
    ensures command { IfOk result (IsEntered (Some (codes "check", rows_of (found_of found.now)))) }
    ensures fault { IfErr result (IsMisread (IsMisspelled (Some (codes "check", rows_of (found_of found.now))))) }
{
    let wait = wait_in(alloc, found)?;
    let file = required_file(alloc, found)?;
    let pages = flag_in(found, "pages");
    Ok(Command::Check { file, pages, wait })
}

/// `dump`, with what was found after its name.
fn dump_of(alloc: Global, found: &ArgMatches) -> Result<Command, CliFault>
    ensures command { IfOk result (IsEntered (Some (codes "dump", rows_of (found_of found.now)))) }
    ensures fault { IfErr result (IsMisread (IsMisspelled (Some (codes "dump", rows_of (found_of found.now))))) }
{
    let wait = wait_in(alloc, found)?;
    let file = required_file(alloc, found)?;
    Ok(Command::Dump { file, wait })
}

/// `explain`, with what was found after its name.
fn explain_of(alloc: Global, found: &ArgMatches) -> Result<Command, CliFault>
    ensures command { IfOk result (IsEntered (Some (codes "explain", rows_of (found_of found.now)))) }
    ensures fault { IfErr result (IsMisread (IsMisspelled (Some (codes "explain", rows_of (found_of found.now))))) }
{
    let wait = wait_in(alloc, found)?;
    let file = required_file(alloc, found)?;
    Ok(Command::Explain { file, wait })
}

/// The number that was found for an argument. `Usage` if its word spells none.
fn number_in(alloc: Global, found: &ArgMatches, id: &str, rule: &str) -> Result<u64, CliFault>
    ensures number { IfOk result (SpellsCount (text_at id.now (rows_of (found_of found.now)))) }
    ensures fault { IfErr result (IsMisread (IsNoCount (text_at id.now (rows_of (found_of found.now))))) }
{
    match count_of(alloc, text_in(found, id).as_bytes())? {
        Some(number) => Ok(number),
        None => Err(misspelled(alloc, rule)),
    }
}

/// The counters that were found. `Usage` if a word spells none.
fn counters_in(alloc: Global, found: &ArgMatches) -> Result<Vec<(i64, i64, i64)>, CliFault>
    ensures counters { IfOk result (λ counters. SpellCounters (counters_at (rows_of (found_of found.now)))
        counters.items) }
    ensures fault { IfErr result (IsMisread (Any IsNoCounter (counters_at (rows_of (found_of found.now))))) }
{
    let Some(words) = found.get_strs("counter") else {
        return Ok(Vec::new(alloc));
    };
    match counters_of(alloc, words)? {
        Some(counters) => Ok(counters),
        None => Err(misspelled(alloc, COUNTER_RULE)),
    }
}

/// The numbers of a schema that were found.
fn numbers_in(alloc: Global, found: &ArgMatches) -> Result<Numbers, CliFault>
    ensures numbers { IfOk result (AreNumbersAt (rows_of (found_of found.now))) }
    ensures fault { IfErr result (IsMisread (IsMisspelledAt (rows_of (found_of found.now)))) }
{
    let pages = number_in(alloc, found, "pages", PAGES_RULE)?;
    let area = number_in(alloc, found, "area", AREA_RULE)?;
    let relations = number_in(alloc, found, "relations", RELATIONS_RULE)?;
    let counters = counters_in(alloc, found)?;
    Ok(Numbers {
        pages,
        area,
        relations,
        counters,
    })
}

/// `format`, with what was found after its name.
fn format_of(alloc: Global, found: &ArgMatches) -> Result<Command, CliFault>
    ensures command { IfOk result (IsEntered (Some (codes "format", rows_of (found_of found.now)))) }
    ensures fault { IfErr result (IsMisread (IsMisspelled (Some (codes "format", rows_of (found_of found.now))))) }
{
    let numbers = numbers_in(alloc, found)?;
    let wait = wait_in(alloc, found)?;
    let file = required_file(alloc, found)?;
    Ok(Command::Format {
        file,
        numbers,
        wait,
    })
}

/// What a schema is to get more, as it was found.
fn growth_in(alloc: Global, found: &ArgMatches) -> Result<Growth, CliFault>
    ensures growth { IfOk result (IsGrowthAt (rows_of (found_of found.now))) }
    ensures fault { IfErr result (IsMisread (IsNoGrowthAt (rows_of (found_of found.now)))) }
{
    let relations = number_in(alloc, found, "relations", RELATIONS_RULE)?;
    let counters = counters_in(alloc, found)?;
    Ok(Growth {
        relations,
        counters,
    })
}

/// `migrate`, with what was found after its name.
fn migrate_of(alloc: Global, found: &ArgMatches) -> Result<Command, CliFault>
    ensures command { IfOk result (IsEntered (Some (codes "migrate", rows_of (found_of found.now)))) }
    ensures fault { IfErr result (IsMisread (IsMisspelled (Some (codes "migrate", rows_of (found_of found.now))))) }
{
    let growth = growth_in(alloc, found)?;
    let wait = wait_in(alloc, found)?;
    let file = required_file(alloc, found)?;
    Ok(Command::Migrate { file, growth, wait })
}

/// A fault that says how an argument is spelled, or `NoMemory`.
pub(crate) fn misspelled(alloc: Global, rule: &str) -> CliFault
    ensures { IsMisread ⊤ result }
{
    match String::from_str(alloc, rule) {
        Ok(text) => CliFault::Usage(text),
        Err(_) => CliFault::Refused(Refusal::NoMemory),
    }
}

/// `schedule` or `try`, with what was found after its name.
fn run_of(alloc: Global, name: &str, found: &ArgMatches) -> Result<Command, AllocError>
    requires { IsRun name.now }
    ensures { IfOk result (IsEntered (Some (name.now, rows_of (found_of found.now)))) }
{
    if name == "schedule" {
        let file = copied(alloc, found.get_str("file"))?;
        Ok(Command::Schedule { file })
    } else {
        let script = copied(alloc, found.get_str("script"))?;
        let stop = flag_in(found, "stop");
        Ok(Command::Try { script, stop })
    }
}

/// The command of this name, which is neither `format`, `migrate` nor `run`, with what was found after it.
fn other_of(alloc: Global, name: &str, found: &ArgMatches) -> Result<Command, CliFault>
    requires format { name.now ≢ codes "format" }
    requires migrate { name.now ≢ codes "migrate" }
    requires run { name.now ≢ codes "run" }
    ensures command { IfOk result (IsEntered (Some (name.now, rows_of (found_of found.now)))) }
    ensures fault { IfErr result (IsMisread (IsMisspelled (Some (name.now, rows_of (found_of found.now))))) }
{
    if name == "check" {
        check_of(alloc, found)
    } else if name == "dump" {
        dump_of(alloc, found)
    } else if name == "explain" {
        explain_of(alloc, found)
    } else {
        Ok(run_of(alloc, name, found)?)
    }
}

/// The command of this name, with what was found after it.
fn named(alloc: Global, name: &str, found: &ArgMatches) -> Result<Command, CliFault>
    ensures command { IfOk result (IsEntered (Some (name.now, rows_of (found_of found.now)))) }
    ensures fault { IfErr result (IsMisread (IsMisspelled (Some (name.now, rows_of (found_of found.now))))) }
{
    if name == "format" {
        format_of(alloc, found)
    } else if name == "migrate" {
        migrate_of(alloc, found)
    } else if name == "run" {
        serving_of(alloc, found)
    } else {
        other_of(alloc, name, found)
    }
}

/// The command that a parse found.
fn entered(alloc: Global, matches: &ArgMatches) -> Result<Command, CliFault>
    ensures command { IfOk result (IsEntered (subcommand_rows_of matches.now)) }
    ensures fault { IfErr result (IsMisread (IsMisspelled (subcommand_rows_of matches.now))) }
{
    match matches.subcommand() {
        Some((name, found)) => named(alloc, name, found),
        None => Ok(Command::Try {
            script: None,
            stop: false,
        }),
    }
}

/// What a parse that gave no command represents: a text to be shown, or a fault.
fn shown(alloc: Global, error: &clap::Error) -> Result<Command, CliFault>
    ensures command { (words : List Text) → IsFaultAt words error.now → IfOk result (IsCommandOf words) }
    ensures fault { (words : List Text) → IsFaultAt words error.now → IfErr result (IsFaultOf words) }
{
    if error.kind() == ErrorKind::OutOfMemory {
        return Err(CliFault::Refused(Refusal::NoMemory));
    }
    let text = error.to_string(alloc)?;
    if error.use_stderr() {
        Err(CliFault::Usage(text))
    } else {
        Ok(Command::Show { text })
    }
}

/// The command that these words name: those after the program's name, in any spelling and place
/// that `clap` takes. `Usage` if they name none, and `NoMemory`.
pub fn command_of(alloc: Global, words: &[&str]) -> Result<Command, CliFault>
    ensures command { IfOk result (IsCommandOf (map (λ word. word.now) words.now)) }
    ensures fault { IfErr result (IsFaultOf (map (λ word. word.now) words.now)) }
{
    let parser = parser(alloc)?;
    match parser.try_get_matches_from(words) {
        Ok(matches) => entered(alloc, &matches),
        Err(error) => shown(alloc, &error),
    }
}

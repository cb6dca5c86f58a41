// `run`, as words name it.
ghost use Rattle.std.specs.Prelude.{◌≡◌, IfErr, IfOk, Some, codes, map, string_bytes};
ghost use Rattle.clap.specs.Words.{first_of, found_of, rows_of};
ghost use Rattle.mt_args.specs.CommandLines.{scripts_at, AreFrames, AreNoFrames, IsEntered, IsMisread, IsMisspelled};
ghost use Rattle.mt_args.specs.Spelling.{IsNoneWithin, SpellsWithin};

use crate::command::{CliFault, Command, flag_in, misspelled, required_file, text_in};
use crate::numbers::count_within;
use crate::waits::wait_in;
use clap::ArgMatches;
use mt_base::limits::{MAX_FRAMES, MAX_WORKERS, MIN_FRAMES};
use std::alloc::{AllocError, Global};

/// What `run` is asked to serve: scripts, to the device in a file.
#[derive(Debug, Drop)]
pub struct Serving {
    /// The file of the device.
    pub file: String,
    /// Pages that its kernel keeps in frames.
    pub frames: usize,
    /// How many workers serve at once. One serves the scripts one after the other.
    pub workers: usize,
    /// The names of the scripts; `-` is standard input.
    pub scripts: Vec<String>,
    /// Whether one worker is to stop at a line that is refused with anything but 9 and 14.
    pub stop: bool,
}

/// Frames if none are asked for.
const FRAMES: usize = 256;

const FRAMES_RULE: &str =
    "error: N of --frames is not a number from 32 to 4096, decimal and without leading zeros

For more information, try '--help'.
";

const WORKERS_RULE: &str =
    "error: WORKERS is not a number from 1 to 16, decimal and without leading zeros

For more information, try '--help'.
";

const STOP_RULE: &str = "error: --stop wants one worker

For more information, try '--help'.
";

/// The number within limits that a word spells. `Usage` if it spells none, with the text of that rule.
pub(crate) fn number_within(
    alloc: Global,
    word: &str,
    low: u64,
    high: u64,
    rule: &str,
) -> Result<usize, CliFault>
    ensures number { IfOk result (SpellsWithin low high word.now) }
    ensures fault { IfErr result (IsMisread (IsNoneWithin low high word.now)) }
{
    match count_within(alloc, word.as_bytes(), low, high)? {
        Some(number) => Ok(number as usize),
        None => Err(misspelled(alloc, rule)),
    }
}

/// The frames that are asked for.
fn frames_in(alloc: Global, found: &ArgMatches) -> Result<usize, CliFault>
    ensures frames { IfOk result (AreFrames (first_of (codes "frames") (rows_of (found_of found.now)))) }
    ensures fault { IfErr result (IsMisread (AreNoFrames (first_of (codes "frames")
        (rows_of (found_of found.now))))) }
{
    match found.get_str("frames") {
        Some(word) => number_within(
            alloc,
            word,
            MIN_FRAMES as u64,
            MAX_FRAMES as u64,
            FRAMES_RULE,
        ),
        None => Ok(FRAMES),
    }
}

/// These words, in memory of their own.
fn copies_of(alloc: Global, words: &[&str]) -> Result<Vec<String>, AllocError>
    ensures { IfOk result (λ copies. map string_bytes copies.items ≡ map (λ w. w.now) words.now) }
{
    let mut copies = Vec::new(alloc);
    for word in words {
        let copy = String::from_str(alloc, word)?;
        copies.push(copy)?;
    }
    Ok(copies)
}

/// The names of the scripts, in memory of their own.
fn scripts_in(alloc: Global, found: &ArgMatches) -> Result<Vec<String>, AllocError>
    ensures { IfOk result (λ scripts. map string_bytes scripts.items ≡ scripts_at (rows_of (found_of found.now))) }
{
    match found.get_strs("script") {
        Some(words) => copies_of(alloc, words),
        None => Ok(Vec::new(alloc)),
    }
}

/// `run`, with what was found after its name. `Usage` too if it is to stop, and has several workers.
pub(crate) fn serving_of(alloc: Global, found: &ArgMatches) -> Result<Command, CliFault>
    ensures command { IfOk result (IsEntered (Some (codes "run", rows_of (found_of found.now)))) }
    ensures fault { IfErr result (IsMisread (IsMisspelled (Some (codes "run", rows_of (found_of found.now))))) }
{
    let frames = frames_in(alloc, found)?;
    let workers = number_within(
        alloc,
        text_in(found, "workers"),
        1,
        MAX_WORKERS as u64,
        WORKERS_RULE,
    )?;
    let wait = wait_in(alloc, found)?;
    let stop = flag_in(found, "stop");
    if stop && workers > 1 {
        return Err(misspelled(alloc, STOP_RULE));
    }
    let file = required_file(alloc, found)?;
    let scripts = scripts_in(alloc, found)?;
    let serving = Serving {
        file,
        frames,
        workers,
        scripts,
        stop,
    };
    Ok(Command::Run { serving, wait })
}

// `--wait`, as words spell it.
ghost use Rattle.std.specs.Prelude.{IfErr, IfOk, codes};
ghost use Rattle.clap.specs.Words.{first_of, found_of, rows_of};
ghost use Rattle.mt_args.specs.CommandLines.{AreNoSeconds, AreSeconds, IsMisread};

use crate::command::CliFault;
use crate::run_words::number_within;
use clap::ArgMatches;
use std::alloc::Global;

/// The most seconds that a file is waited for.
const MAX_WAIT: u64 = 3600;

const WAIT_RULE: &str =
    "error: SECONDS of --wait is not a number from 0 to 3600, decimal and without leading zeros

For more information, try '--help'.
";

/// The seconds that are asked for, 0 if none are. `Usage` if the word spells none.
pub(crate) fn wait_in(alloc: Global, found: &ArgMatches) -> Result<usize, CliFault>
    ensures seconds { IfOk result (AreSeconds (first_of (codes "wait") (rows_of (found_of found.now)))) }
    ensures fault { IfErr result (IsMisread (AreNoSeconds (first_of (codes "wait") (rows_of (found_of found.now))))) }
{
    match found.get_str("wait") {
        Some(word) => number_within(alloc, word, 0, MAX_WAIT, WAIT_RULE),
        None => Ok(0),
    }
}

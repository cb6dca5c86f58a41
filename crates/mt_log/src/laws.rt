// The laws of the log, each the contract of a function with nothing to do.
ghost use Rattle.mt_disk.specs.Calls.{Meanwhile};
ghost use Rattle.mt_log.specs.Laws.{AppendsKeepRules, AppendsTakeBytes, BeginningsSayAll, FirstTakesBytes, LeavesBeginning, LeavesBeginningMeanwhile, OneRow, NotBoth, OneFirstPlace, StepsSayAll};
ghost use Rattle.mt_log.specs.Seen.{HasItsBatches};
ghost use Rattle.mt_log.specs.Words.{LiesOn, seen_of};

use crate::log::Log;
use mt_disk::Device;

/// A law of the device that a log is on, while the appended records break no rule. A crash leaves an area whose
/// records are a beginning of them with all durable ones.
pub fn a_crash_leaves_a_beginning<D: Device>(log: &Log, device: &D)
    requires on { LiesOn D.Device log.now device.now }
    ensures { LeavesBeginning log.now (D.may_leave device.now) }
{
    let _ = log;
    let _ = device;
}

/// A law of a call in which a crash leaves an area with the durable batches, or with these and the one that is forced.
/// [`Log::force_step`] is such a call. While the appended records break no rule, the area holds batches whose records
/// are a beginning of them with all durable ones. `scan` finds just those.
pub fn a_step_leaves_a_beginning<D: Device>(log: &Log, before: &D, after: &D)
    requires moments { Meanwhile D.Device before.now after.now (HasItsBatches (seen_of log.now)) }
    ensures { LeavesBeginningMeanwhile D.Device log.now before.now after.now }
{
    let _ = log;
    let _ = before;
    let _ = after;
}

/// A law: what follows of the calls that change a log, in the words of those who ask for one fact. A step of a force
/// moves records and loses none. It takes no bytes of the area, and refuses if and only if the device failed. A record
/// that may stand after the others leaves a log whose records break no rule, and so does the first batch of an area.
pub fn calls_say_all_of_the_log()
    ensures steps { StepsSayAll }
    ensures appends { AppendsKeepRules }
    ensures takes { AppendsTakeBytes }
    ensures begins { BeginningsSayAll }
    ensures first { FirstTakesBytes }
{}

/// A law: an area holds one row of batches, or breaks the grammar at one place first, and never both.
pub fn areas_are_read_one_way()
    ensures one_row { OneRow }
    ensures not_both { NotBoth }
    ensures one_first_place { OneFirstPlace }
{}

// Where a run ends that is to stop at a refusal.
ghost use Rattle.std.specs.Prelude.{◌≡◌, ◌∷◌, []};
ghost use Rattle.mt_alone.specs.Stops.{Ends, stop_of};

use mt_base::Refusal;
use mt_script::Answer;

/// Where a run ended that was to stop at a refusal: the line that was refused.
#[derive(Clone, Copy, PartialEq, Eq, Debug)]
pub struct Stop {
    /// The session of its script, from 1.
    pub session: u32,
    /// Its number in the script, from 1.
    pub line: usize,
    /// What it was refused with. That is not `Escrow` or `Die`, nor `DeviceFailed`.
    pub why: Refusal,
}

/// The refusal for which an answer stops a run that is to stop.
fn stop_of(answer: &Answer) -> Option<Refusal>
    ensures { result ≡ stop_of answer.now }
{
    match answer {
        Answer::Refused(Refusal::Escrow) => None,
        Answer::Refused(Refusal::Die(_)) => None,
        Answer::Refused(why) => Some(*why),
        Answer::Begun => None,
        Answer::Replied(_) => None,
        Answer::Saved(_) => None,
        Answer::Back(_) => None,
        Answer::Committed(_) => None,
        Answer::Aborted => None,
    }
}

/// The refusal for which this answer ends a run, which is to stop at one or is not.
pub(crate) fn ending(stop: bool, answer: &Answer) -> Option<Refusal>
    ensures { Ends stop result (answer.now ∷ []) }
{
    if stop { stop_of(answer) } else { None }
}

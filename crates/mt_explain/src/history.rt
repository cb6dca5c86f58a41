// A log as a history: its batches, and what a restart would do with what has not ended.
ghost use Rattle.std.specs.Prelude.{◌≡◌, IfErr, IfOk, OnErr, OnOk};
ghost use Rattle.std.specs.List.{AllByRecursion};
ghost use Rattle.std.specs.Io.KnownBytes.{Appends};
ghost use Rattle.mt_base.specs.declared.refusal.Refusal.{Refusal};
ghost use Rattle.mt_explain.specs.Histories.{Recounts, history_text};
ghost use Rattle.mt_frame.specs.Grammar.{IsOperation};
ghost use Rattle.mt_replay.specs.Losers.{AreOfGrammar};
ghost use Rattle.mt_script.specs.Answers.{AppendsFront};

use crate::entries::{write_all_put_back, write_all_undone, write_batches};
use crate::unfinished::{Unfinished, unfinished_of};
use mt_base::Refusal;
use mt_log::Batch;
use mt_replay::{Loser, losers_of};
use mt_script::Unheard;
use std::alloc::Global;
use std::io::Write;

/// The batches of a log, with the operations that a restart puts back and those that it undoes.
#[derive(Drop)]
pub struct History {
    /// Its batches, in order.
    batches: Vec<Batch>,
    /// The operations that a restart puts back.
    unfinished: Vec<Unfinished>,
    /// Those that it undoes, in the order of their ends.
    losers: Vec<Loser>,
}

/// The history of these batches. The only refusal is [`Refusal::NoMemory`].
pub fn history_of(alloc: Global, batches: Vec<Batch>) -> Result<History, Refusal>
    requires { AreOfGrammar batches.items }
    ensures outcome { IfOk result (Recounts batches.items) }
    ensures only_memory { IfErr result (λ why. why ≡ Refusal.NoMemory) }
{
    let unfinished = unfinished_of(alloc, batches.as_slice())?;
    let losers = losers_of(alloc, batches.as_slice())?;
    Ok(History {
        batches,
        unfinished,
        losers,
    })
}

/// Writes the lines of a history. There is one for each record, in order. After them stands one for each operation
/// that a restart puts back. The last ones are for those that it undoes, the last one first. If the writer fails,
/// it has written a beginning of them.
pub fn write_history<W: Write>(writer: &mut W, history: &History) -> Result<(), Unheard>
    requires { AllByRecursion (λ l. IsOperation l.done) history.now.losers.items }
    ensures all { OnOk result (Appends (W.contents writer.old) (W.contents writer.new)
        (history_text history.now)) }
    ensures front { OnErr result (AppendsFront (W.contents writer.old) (W.contents writer.new)
        (history_text history.now)) }
{
    write_batches(writer, history.batches.as_slice())?;
    write_all_put_back(writer, history.unfinished.as_slice())?;
    write_all_undone(writer, history.losers.as_slice())
}

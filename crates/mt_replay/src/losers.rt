// What an area's records say of transactions: the operations that a restart has to undo.
ghost use Rattle.std.specs.Prelude.{◌≡◌, ◌==◌, ◌&&◌, ◌||◌, ◌∷◌, [], ℕ, reverse, Contains, IfOk, OnOk, IfErr};
ghost use Rattle.std.specs.BTreeSet.{contains};
ghost use Rattle.std.specs.List.{AllByRecursion};
ghost use Rattle.std.specs.Ordering.{nat_cmp};
ghost use Rattle.mt_base.specs.declared.refusal.Refusal.{Refusal};
ghost use Rattle.mt_frame.specs.Grammar.{IsOperation, IsRecord};
ghost use Rattle.mt_area_rules.specs.Known.{pair_cmp};
ghost use Rattle.mt_frame.specs.declared.records.Record.TheVariants.{OpEnd};
ghost use Rattle.mt_log.specs.Batch.{joined};
ghost use Rattle.mt_log.specs.Found.{records_of};
ghost use Rattle.mt_replay.specs.Recorded.{losers};
ghost use Rattle.mt_replay.specs.Losers.{all_finished, AreOfGrammar, HasEnded, HasRecorded, PassesRecords};

use mt_area_rules::note_operation;
use mt_base::{OpNo, Refusal, TxnNo};
use mt_frame::{LoggedOp, Record};
use mt_log::Batch;
use std::alloc::{AllocError, Global};
use std::collections::BTreeSet;

/// A finished operation of a transaction that has not ended, which no finished inverse of that transaction names. A
/// restart undoes it.
#[derive(Debug, Drop)]
pub struct Loser {
    /// Its transaction.
    pub txn: TxnNo,
    /// Its number.
    pub op: OpNo,
    /// Where the batch of its end stands on the device.
    pub place: u64,
    /// What it did, as its record says.
    pub done: LoggedOp,
}

/// A pass over the records from the last one on: what those that it has passed say. It has the losers among them, the
/// latest end first, and the transactions that end there. It has the operations, each after its transaction, that a
/// finished inverse names. Each record costs a look-up or two in ordered sets.
#[derive(Drop)]
pub(crate) struct LoserPass {
    pub(crate) losers: Vec<Loser>,
    pub(crate) ended: BTreeSet<u64>,
    pub(crate) undone: BTreeSet<(u64, u64)>,
}

// Takes a transaction to those that end.
fn note_end(set: &mut BTreeSet<u64>, txn: TxnNo) -> Result<(), AllocError>
    ensures { OnOk result ((t : ℕ) → contains nat_cmp set.new t ≡ (contains nat_cmp set.old t || (txn == t))) }
{
    match set.insert(txn.get()) {
        Ok(_) => Ok(()),
        Err(_) => Err(AllocError),
    }
}

impl LoserPass {
    // What is known after the last record: nothing.
    fn new(alloc: Global) -> LoserPass
        ensures outcome { HasRecorded result [] }
        ensures none { result.losers.items ≡ [] }
    {
        LoserPass {
            losers: Vec::new(alloc),
            ended: BTreeSet::new(alloc),
            undone: BTreeSet::new(alloc),
        }
    }

    // Whether a later record ends the transaction, or is an inverse of its operation.
    fn is_over(&self, txn: TxnNo, op: OpNo) -> bool
        ensures { result ≡ (contains nat_cmp self.now.ended txn || contains pair_cmp self.now.undone (txn, op)) }
    {
        self.ended.contains(&txn.get()) || self.undone.contains(&(txn.get(), op.get()))
    }

    // The end of an operation that is no inverse.
    fn pass_end(
        &mut self,
        batch: &Batch,
        txn: TxnNo,
        op: OpNo,
        done: &LoggedOp,
    ) -> Result<(), Refusal>
        requires among { Contains batch.now.records.items (OpEnd txn op 0 done.now) }
        requires grammar { IsOperation done.now }
        ensures passes { OnOk result (PassesRecords batch.now (OpEnd txn op 0 done.now ∷ []) self.old self.new) }
        ensures only_memory { IfErr result (λ why. why ≡ Refusal.NoMemory) }
    {
        if self.is_over(txn, op) {
            return Ok(());
        }
        self.losers.push(Loser {
            txn,
            op,
            place: batch.place,
            done: done.try_clone()?,
        })?;
        Ok(())
    }

    // The record of a batch before those that are passed.
    fn pass_one(&mut self, batch: &Batch, entry: &Record) -> Result<(), Refusal>
        requires among { Contains batch.now.records.items entry.now }
        requires grammar { IsRecord entry.now }
        ensures passes { OnOk result (PassesRecords batch.now (entry.now ∷ []) self.old self.new) }
        ensures only_memory { IfErr result (λ why. why ≡ Refusal.NoMemory) }
    {
        match entry {
            Record::OpEnd {
                txn,
                op,
                undoes,
                done,
            } => {
                if *undoes == 0 {
                    return self.pass_end(batch, *txn, *op, done);
                }
                note_operation(&mut self.undone, txn.get(), *undoes)?;
                Ok(())
            }
            Record::Commit { txn } => {
                note_end(&mut self.ended, *txn)?;
                Ok(())
            }
            Record::AbortEnd { txn } => {
                note_end(&mut self.ended, *txn)?;
                Ok(())
            }
            _ => Ok(()),
        }
    }

    // The records of a batch, from its last one on.
    fn pass_batch(&mut self, batch: &Batch) -> Result<(), Refusal>
        requires { AllByRecursion IsRecord batch.now.records.items }
        ensures passes { OnOk result (PassesRecords batch.now batch.now.records.items self.old self.new) }
        ensures only_memory { IfErr result (λ why. why ≡ Refusal.NoMemory) }
    {
        let mut i = batch.records.len();
        while i > 0 {
            i -= 1;
            self.pass_one(batch, &batch.records[i])?;
        }
        Ok(())
    }

    // The losers, in the order of their ends.
    fn into_losers(self) -> Vec<Loser>
        ensures { result.items ≡ reverse self.losers.items }
    {
        let LoserPass {
            mut losers,
            ended: _,
            undone: _,
        } = self;
        losers.reverse();
        losers
    }
}

/// The losers of an area, by the batches that a scan found there, in the order of their ends. They are the finished
/// operations of transactions that have neither committed nor ended their abort. Those that a finished inverse of the
/// same transaction names are none (Weikum 1991). So an operation whose inverse is in the log is not undone twice.
///
/// The records are gone over once, from the last one on, so that what ends an operation is known before its own end.
/// The only refusal is [`Refusal::NoMemory`].
pub fn losers_of(alloc: Global, batches: &[Batch]) -> Result<Vec<Loser>, Refusal>
    requires { AreOfGrammar batches.now }
    ensures losers { IfOk result (λ list. all_finished list.items ≡ losers (joined (records_of batches.now))) }
    ensures ended { IfOk result (λ list. AllByRecursion (HasEnded batches.now) list.items) }
    ensures only_memory { IfErr result (λ why. why ≡ Refusal.NoMemory) }
{
    let mut pass = LoserPass::new(alloc);
    let mut i = batches.len();
    while i > 0 {
        i -= 1;
        pass.pass_batch(&batches[i])?;
    }
    Ok(pass.into_losers())
}

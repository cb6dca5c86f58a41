// Transactions that begin, commit and leave, and the writes that make commits durable.
ghost use Rattle.std.specs.Prelude.{ℕ, IfSome, ◌≡◌, ◌≢◌, ◌⊎◌, ◌<◌, ◌≤◌, ◌+◌, List, ◌∷◌, ◌++◌, [], length, drop, true, All, Some, Ok, Err, IfOk, IfErr, OnOk, OnErr};
ghost use Rattle.mt_live.specs.Lives.{member_of};
ghost use Rattle.mt_live.specs.Machine.{begun};
ghost use Rattle.mt_live.specs.declared.transactions.TxnState.TheVariants.{Open, Returning, Aborting};
ghost use Rattle.mt_disk.specs.Disk.{HasCause, LeavesTheSame};
ghost use Rattle.mt_log.specs.Forcing.{ReportsFault};
ghost use Rattle.mt_log.specs.Steps.{ForceSteps};
ghost use Rattle.mt_log.specs.Words.{appended, durable, area_size, seen_of};
ghost use Rattle.mt_model.specs.Model.{Base};
ghost use Rattle.mt_op.specs.Operations.{world};
ghost use Rattle.mt_op.specs.Surveyed.{IsSurvey};
ghost use Rattle.mt_op.specs.World.{held_in};
ghost use Rattle.mt_pool.specs.FlushSteps.{FlushSteps};
ghost use Rattle.mt_pool.specs.Views.{pages};
ghost use Rattle.mt_pool.specs.declared.flushes.Flushed.TheVariants as flushed;
ghost use Rattle.mt_base.specs.declared.refusal.Refusal.{Refusal};
ghost use Rattle.mt_core.specs.Answered.{BeginsCommit, KeepsAtCommit, KeepsCommits};
ghost use Rattle.mt_core.specs.Consistent.{log_kept, SameCommits, SameRunning, SameUncommitted, SetsState, IsSound, StaysIn, OnlyOperations, Origin, state_of, state_in, IsConsistent, IsIn};
ghost use Rattle.mt_core.specs.Restartable.{StaysRestartable};
ghost use Rattle.mt_core.specs.Steps.{LeavesExplained};
ghost use Rattle.mt_core.specs.Booked.{booked_each, durable_count, durable_txns};
ghost use Rattle.mt_core.specs.Runs.{count_in, is_working};
ghost use Rattle.mt_core.specs.Work.{LeavesUndo, most_steps, undo_steps};
ghost use Rattle.std.specs.Vec.{vec_len, vec_capacity};
ghost use Rattle.mt_base.specs.declared.limits.TheConstants.{MAX_BEGUN, MAX_LIVE, TRANSACTION_LOG_BYTES};
ghost use Rattle.mt_core.specs.declared.parts.Commit.{Commit};
ghost use Rattle.mt_op.specs.declared.scope.OpScope.{OpScope};
ghost use Rattle.mt_core.specs.Advancing.{LeavesFirst};
ghost use Rattle.mt_core.specs.Seen.{core_device, core_log, core_pool, core_ruling, core_store};

use crate::parts::{Commit, Core};
use crate::reservations::{all_bytes_kept, all_pages_kept};
use mt_base::limits::TRANSACTION_LOG_BYTES;
use mt_base::{LogPos, Refusal, TxnNo};
use mt_disk::{Device, DeviceFault};
use mt_frame::Record;
use mt_live::TxnState;
use mt_log::Forced;
use mt_op::Survey;
use mt_pool::Flushed;
use std::alloc::Global;

// What the Commit of a transaction, or the end of its abort, takes of the log.
const END_LOG_BYTES: u64 = 14;

// How many of the commits stand before the first whose record is after this place.
fn durable_count(commits: &[Commit], place: LogPos) -> usize
    ensures count { result ≡ durable_count commits.now place }
    ensures within { result ≤ length commits.now }
{
    for (i, one) in commits.iter().enumerate() {
        if place.get() < one.place.get() {
            return i;
        }
    }
    commits.len()
}

impl<D: Device> Core<D> {
    /// Begins a transaction of this session, open and without operations. Its number is the next one, from 1.
    ///
    /// Refused with 11 if the log has no room for its end beside what is kept, else with 1 for want of memory.
    /// Nothing has changed then.
    pub fn begin(&mut self, session: u32) -> Result<TxnNo, Refusal>
        requires safe { IsSound D.Device self.old }
        requires few { self.old.live.begun < MAX_BEGUN }
        ensures begun { (origin : Origin) (base : Base) → IsConsistent D.Device origin base self.old
            → OnOk result (IsIn D.Device origin base (begun (state_of self.old base) session) self.new) }
        ensures number { IfOk result (λ txn. txn ≡ self.old.live.begun + 1) }
        ensures may { OnOk result
            (log_kept self.old + TRANSACTION_LOG_BYTES < area_size (core_log self.old)) }
        ensures cause { IfErr result (λ why. (why ≡ Refusal.NoMemory) ⊎ ((why ≡ Refusal.LogFull)
            × (area_size (core_log self.old) ≤ log_kept self.old + TRANSACTION_LOG_BYTES))) }
        ensures full { area_size (core_log self.old) ≤ log_kept self.old + TRANSACTION_LOG_BYTES
            → result ≡ Err Refusal.LogFull }
        ensures opened { IfOk result (λ txn. SetsState self.old self.new txn (Some Open)) }
        ensures same_running { SameRunning self.old self.new }
        ensures numbers { self.new.last ≡ self.old.last }
        ensures same_commits { SameCommits self.old self.new }
        ensures device { core_device self.new ≡ core_device self.old }
        ensures restartable { length self.old.live.members < MAX_LIVE
            → StaysRestartable D.Device self.old self.new }
        ensures err { OnErr result (self.new ≡ self.old) }
    {
        if !self.log_takes(TRANSACTION_LOG_BYTES) {
            return Err(Refusal::LogFull);
        }
        let txn = self.live.begin(session)?;
        self.reserved += TRANSACTION_LOG_BYTES;
        Ok(txn)
    }

    /// Begins to undo a transaction that is open or goes back. An inverse of it that is under way is one of the abort
    /// then. It takes no memory.
    pub fn abort_begin(&mut self, txn: TxnNo)
        requires { is_working (member_of self.old.live.members txn) ≡ true }
        ensures state { StaysIn D.Device self.old self.new }
        ensures aborts { SetsState self.old self.new txn (Some Aborting) }
        ensures rest { self.new ≡ record self.old { live = self.new.live } }
        ensures count { (t : ℕ) → count_in self.new.live.members t ≡ count_in self.old.live.members t }
        ensures few { (origin : Origin) (base : Base) → IsConsistent D.Device origin base self.old
            → undo_steps self.new txn ≤ most_steps self.old txn }
        ensures restartable { StaysRestartable D.Device self.old self.new }
    {
        self.live.set_state(txn, TxnState::Aborting);
    }

    /// An open transaction that runs nothing begins to go back to where its first so many operations had ended, of
    /// those that count. It takes no memory.
    pub fn return_begin(&mut self, txn: TxnNo, first: u16)
        requires opened { state_in self.old.live.members txn ≡ Some Open }
        requires idle { All (λ (r : OpScope). r.txn ≢ txn) self.old.running.items }
        requires few { IfSome (count_in self.old.live.members txn) (λ count. first ≤ count) }
        ensures state { StaysIn D.Device self.old self.new }
        ensures returns { SetsState self.old self.new txn (Some (Returning first)) }
        ensures rest { self.new ≡ record self.old { live = self.new.live } }
        ensures count { (t : ℕ) → count_in self.new.live.members t ≡ count_in self.old.live.members t }
        ensures few_steps { (origin : Origin) (base : Base) → IsConsistent D.Device origin base self.old
            → undo_steps self.new txn ≤ most_steps self.old txn }
        ensures restartable { StaysRestartable D.Device self.old self.new }
    {
        self.live.set_state(txn, TxnState::Returning(first));
    }

    /// Begins the commit of an open transaction that runs nothing: its Commit is appended, and it is the last of
    /// the commits under way. Answers its place among all commits, from 1.
    ///
    /// Refused with 1 for want of memory; the transaction is open as before.
    pub fn commit_begin(&mut self, txn: TxnNo) -> Result<usize, Refusal>
        requires safe { IsSound D.Device self.old }
        requires opened { state_in self.old.live.members txn ≡ Some Open }
        requires idle { All (λ (r : OpScope). r.txn ≢ txn) self.old.running.items }
        ensures state { StaysIn D.Device self.old self.new }
        ensures begins { IfOk result (BeginsCommit self.old self.new txn) }
        ensures keeps { KeepsAtCommit self.old self.new }
        ensures err { OnErr result (KeepsCommits self.old self.new) }
        ensures only_memory { IfErr result (λ why. why ≡ Refusal.NoMemory) }
        ensures restartable { StaysRestartable D.Device self.old self.new }
    {
        self.commits.reserve(1)?;
        self.book.reserve(self.commits.len() + 1)?;
        let place = self.operations.append(Record::Commit { txn })?;
        self.live.set_state(txn, TxnState::Committing);
        self.commits.push_reserved(Commit { txn, place });
        self.reserved -= END_LOG_BYTES;
        Ok(self.book.len() + self.commits.len())
    }

    /// Books the first of the commits under way, whose record is durable. Its calls are the last of the book, its
    /// adds move the counters, its locks go, and what was kept for its inverses is free. Answers its transaction. It
    /// takes no memory.
    fn leave_first(&mut self) -> TxnNo
        requires safe { IsSound D.Device self.old }
        requires some { (c : Commit) × (cs : List Commit) × (self.old.commits.items ≡ c ∷ cs) }
        ensures { LeavesFirst D.Device self.old self.new result }
    {
        let reserved = self.reserved;
        let Commit { txn, place: _ } = self.commits.remove(0);
        let ended = self.live.ended(txn);
        let pages = all_pages_kept(ended.calls, ended.roles);
        let bytes = all_bytes_kept(ended.calls, ended.roles);
        let done = self.live.leave(txn);
        self.operations.give_back(pages);
        self.reserved = reserved - (TRANSACTION_LOG_BYTES - END_LOG_BYTES + bytes);
        self.book.push_reserved(done);
        self.locks.release(txn);
        self.escrow.commit(txn);
        txn
    }

    /// Books each of the commits under way whose record is in the log up to this place. It does so in their order, as
    /// [`Core::leave_first`] does, and puts their transactions after the names. It takes no memory.
    pub fn leave_durable(&mut self, place: LogPos, names: &mut Vec<TxnNo>)
        requires safe { IsSound D.Device self.old }
        requires room { vec_len names.old + length self.old.commits.items ≤ vec_capacity names.old }
        ensures left { (origin : Origin) (base : Base) → IsConsistent D.Device origin base self.old
            → IsIn D.Device origin base (booked_each (state_of self.old base)
            (durable_txns self.old.commits.items place)) self.new }
        ensures store { core_store self.new ≡ core_store self.old }
        ensures names { names.new.items ≡ names.old.items ++ durable_txns self.old.commits.items place }
        ensures rest { self.new.commits.items
            ≡ drop (durable_count self.old.commits.items place) self.old.commits.items }
        ensures running { self.new.running ≡ self.old.running }
        ensures numbers { self.new.last ≡ self.old.last }
        ensures states { SameUncommitted self.old self.new }
        ensures undo { LeavesUndo self.old self.new }
        // If the records up to this place are durable: none is booked that a crash may take away.
        ensures restartable { place ≤ length (durable (core_log self.old))
            → StaysRestartable D.Device self.old self.new }
    {
        let count = durable_count(self.commits.as_slice(), place);
        for _booked in 0..count {
            let txn = self.leave_first();
            names.push_reserved(txn);
        }
    }

    /// Makes a step of the log's force, of one device call. Answers up to which record the log is durable if a
    /// force has ended.
    ///
    /// Refused with 2 if the device has failed or fails in this call, so no fault is passed over.
    pub fn force_step(&mut self) -> Result<Forced, Refusal>
        requires safe { IsSound D.Device self.old }
        ensures state { StaysIn D.Device self.old self.new }
        ensures rest { OnlyOperations self.old self.new }
        ensures pool { core_pool self.new ≡ core_pool self.old }
        ensures ruling { core_ruling self.new ≡ core_ruling self.old }
        ensures steps { ForceSteps (seen_of (core_log self.old)) (seen_of (core_log self.new)) result }
        ensures cause { ReportsFault D.Device (seen_of (core_log self.old)) (core_device self.old)
            (core_device self.new) result }
        ensures moments { LeavesExplained D.Device self.old self.new }
        ensures once { D.moment (core_device self.new) ≤ D.moment (core_device self.old) + 1 }
        ensures restartable { StaysRestartable D.Device self.old self.new }
    {
        self.operations.force_step()
    }

    /// Writes a page into its slot, if one waits for no record that is not durable. The error is the device's.
    pub fn flush_step(&mut self) -> Result<Flushed, DeviceFault>
        requires safe { IsSound D.Device self.old }
        ensures state { StaysIn D.Device self.old self.new }
        ensures rest { OnlyOperations self.old self.new }
        ensures log { core_log self.new ≡ core_log self.old }
        ensures steps { FlushSteps (length (durable (core_log self.old))) (core_pool self.old)
            (core_pool self.new) result }
        ensures forced { result ≡ Ok flushed.Force
            → length (durable (core_log self.old)) < length (appended (core_log self.old)) }
        ensures cause { HasCause (D.faults (core_device self.old)) (D.faults (core_device self.new)) result }
        ensures moments { LeavesExplained D.Device self.old self.new }
        ensures once { D.moment (core_device self.new) ≤ D.moment (core_device self.old) + 1 }
        ensures restartable { StaysRestartable D.Device self.old self.new }
    {
        self.operations.flush_step()
    }

    /// Answers what the pages come to, by their bytes, if no transaction is active. Nothing has changed then. Refused
    /// for want of memory, and with 2 if and only if the device failed in this call.
    pub fn survey(&mut self, alloc: Global) -> Result<Survey, Refusal>
        requires safe { IsSound D.Device self.old }
        requires nobody { self.old.live.members ≡ [] }
        ensures surveyed { (origin : Origin) (base : Base) → IsConsistent D.Device origin base self.old
            → IfOk result (IsSurvey origin.relations origin.counters (pages (core_pool self.old))
            (held_in (world D.Device origin.pages self.old.operations)) base) }
        ensures state { StaysIn D.Device self.old self.new }
        ensures rest { OnlyOperations self.old self.new }
        ensures log { core_log self.new ≡ core_log self.old }
        ensures pool { core_pool self.new ≡ core_pool self.old }
        ensures content { D.seen (core_device self.new) ≡ D.seen (core_device self.old) }
        ensures crash { LeavesTheSame (D.may_leave (core_device self.old)) (D.may_leave (core_device self.new)) }
        ensures calls { D.moment (core_device self.new)
            ≤ D.moment (core_device self.old) + pages (core_pool self.old) + 2 }
        ensures cause { IfErr result (λ why. (why ≡ Refusal.NoMemory) ⊎ (why ≡ Refusal.DeviceFailed)
            × (D.faults (core_device self.old) < D.faults (core_device self.new))) }
        ensures quiet { (result ≡ Err Refusal.DeviceFailed → ⊥)
            → D.faults (core_device self.new) ≡ D.faults (core_device self.old) }
        ensures moments { LeavesExplained D.Device self.old self.new }
        ensures restartable { StaysRestartable D.Device self.old self.new }
    {
        self.operations.survey(alloc)
    }
}

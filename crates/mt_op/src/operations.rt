// The operations of one kernel over their pages: the store with page locks, and how an operation begins.
// mt_core calls it. Claims, forces and flushes pass through here; the other files have the steps.
ghost use Rattle.std.specs.Prelude.{◌≡◌, ◌≢◌, ◌<◌, ◌≤◌, ◌+◌, ◌*◌, ℕ, length, false, true, Ok, if◌then◌else◌, IfOk, IfErr, OnOk, OnErr};
ghost use Rattle.mt_base.specs.declared.limits.TheConstants.{OPERATION_LOG_BYTES};
ghost use Rattle.mt_disk.specs.Disk.{HasCause};
ghost use Rattle.mt_frame.specs.Grammar.{IsTxn, IsOp, IsRecord};
ghost use Rattle.mt_frame.specs.Grammar.{txn_of};
ghost use Rattle.mt_area_rules.specs.History.{may_stand};
ghost use Rattle.mt_frame.specs.Lengths.{record_length};
ghost use Rattle.mt_log.specs.Forcing.{ReportsFault};
ghost use Rattle.mt_log.specs.Steps.{ForceSteps};
ghost use Rattle.mt_log.specs.Words.{appended, durable, seen_of, used, area_size};
ghost use Rattle.mt_model.specs.Model.{IsWithin};
ghost use Rattle.mt_space.specs.Changes.{PageBytes};
ghost use Rattle.mt_pool.specs.FlushSteps.{FlushSteps};
ghost use Rattle.mt_pool.specs.Kept.{ExplainsMeanwhile, IsOpen};
ghost use Rattle.mt_pool.specs.Views.{AreClean, IsPool, pages};
ghost use Rattle.mt_pool.specs.declared.flushes.Flushed.TheVariants as flushed;
ghost use Rattle.mt_steps.specs.Plans.{free_pages};
ghost use Rattle.mt_op.specs.World.{IsUnderWay, IsFresh, held_in};
ghost use Rattle.mt_op.specs.Moves.{Rests, EndsTxn};
ghost use Rattle.mt_op.specs.Operations.{world, IsRight, HasBudget, only_reads, claimed};
ghost use Rattle.mt_op.specs.Stepping.{AppendSteps};
ghost use Rattle.mt_op.specs.Work.{work_of};
ghost use Rattle.mt_op.specs.declared.scope.OpScope.{OpScope};
ghost use Rattle.mt_op.specs.declared.scope.Stage.TheVariants.{Planning};

use crate::scope::{OpScope, Stage};
use mt_base::limits::OPERATION_LOG_BYTES;
use mt_base::{LogPos, OpNo, Refusal, TxnNo};
use mt_disk::{Device, DeviceFault};
use mt_file::Rooms;
use mt_frame::Record;
use mt_index::Search;
use mt_log::{Forced, Log};
use mt_model::Op;
use mt_plock::PageLocks;
use mt_pool::{Flushed, Store};
use mt_space::{Changes, Pages, SpaceMap};
use mt_steps::{Copies, SpareCopies};
use std::alloc::Global;

/// The store of one kernel, with the page locks of its operations and what each page of records takes. With them is
/// the map of the space as it is held, with the claims on its free pages.
#[derive(Drop)]
pub struct Operations<D: Device> {
    /// The log and the pages.
    pub(crate) store: Store<D>,
    pub(crate) locks: PageLocks,
    pub(crate) rooms: Rooms,
    pub(crate) map: SpaceMap,
    // of operations that have ended
    pub(crate) spare: SpareCopies,
}

impl<D: Device + Drop> Operations<D> {
    /// The device, for another opening. All that is under way is gone, and nothing of it is taken back.
    pub fn into_device(self, mut scopes: Vec<OpScope>) -> D
        ensures { result ≡ self.store.device }
    {
        let mut operations = self;
        while let Some(scope) = scopes.pop() {
            operations.give_up(scope);
        }
        match <[OpScope; 0]>::try_from(scopes) {
            Ok([]) => {}
            Err(_rest) => unreachable!(),
        }
        let Operations {
            store,
            locks: _,
            rooms: _,
            map: _,
            spare: _,
        } = operations;
        store.device
    }
}

impl<D: Device> Operations<D> {
    /// Begins an operation, with a number that no other has, of a transaction that has no other under way. `undoes`
    /// is the number of the operation that it takes back, or 0. An insert splits a bucket of the index only if
    /// `split` is set. It holds no page lock, and no page has been looked at. The only refusal is
    /// [`Refusal::NoMemory`], which hands the operation back.
    pub fn begin_op(
        &self,
        alloc: Global,
        txn: TxnNo,
        number: OpNo,
        op: Op,
        undoes: u64,
        split: bool,
    ) -> Result<OpScope, (Refusal, Op)>
        requires pool { IsPool self.now.store.pool }
        requires numbers { IsTxn txn × IsOp number }
        ensures under { (opening : PageBytes) (relations counters : ℕ)
            → IsRight D.Device opening relations counters self.now → IsWithin relations counters op
            → IsFresh (world D.Device opening self.now) txn number undoes →
            IfOk result (IsUnderWay relations counters (world D.Device opening self.now)) }
        ensures named { IfOk result (λ s. (s.txn ≡ txn) × (s.number ≡ number) × (s.op ≡ op) × (s.undoes ≡ undoes)
            × (s.split ≡ split)) }
        ensures planning { IfOk result (λ s. (s.stage ≡ Planning) × (s.seen.total ≡ pages self.now.store.pool)) }
        ensures budget { IfOk result HasBudget }
        ensures work { IfOk result (λ s. work_of s ≡ 2 * pages self.now.store.pool + 9) }
        ensures left { IfOk result (λ s. s.left ≡ (if only_reads op then 0 else OPERATION_LOG_BYTES)) }
        ensures only_memory { IfErr result (λ gone. (gone.0 ≡ Refusal.NoMemory) × (gone.1 ≡ op)) }
    {
        let Ok(guards) = Vec::with_capacity(alloc, 4) else {
            return Err((Refusal::NoMemory, op));
        };
        let left = log_bytes_for(&op);
        Ok(OpScope {
            txn,
            number,
            op,
            undoes,
            split,
            left,
            room: None,
            guards,
            seen: Copies::new(alloc, self.store.pool.count()),
            search: Search::Start,
            stage: Stage::Planning,
            changes: Changes::new(alloc),
            reply: None,
            written: 0,
            standing: 0,
        })
    }

    /// The log, lent.
    pub fn log(&self) -> &Log
        ensures { result.now ≡ self.now.store.log }
    {
        &self.store.log
    }

    /// Claims so many free pages, for operations and their inverses. Refused with 10 if and only if fewer of the
    /// pages held are free and not claimed; nothing has changed then. It takes no memory.
    pub fn claim(&mut self, count: u16) -> Result<(), Refusal>
        ensures right { (opening : PageBytes) (relations counters : ℕ)
            → IsRight D.Device opening relations counters self.old
            → IsRight D.Device opening relations counters self.new }
        ensures claimed { OnOk result (claimed self.new ≡ claimed self.old + count) }
        ensures fits { (opening : PageBytes) (relations counters : ℕ)
            → IsRight D.Device opening relations counters self.old →
            OnOk result (claimed self.old + count ≤ free_pages (pages self.old.store.pool)
            (held_in (world D.Device opening self.old))) }
        ensures why { IfErr result (λ why. why ≡ Refusal.NoRoom) }
        ensures cause { (opening : PageBytes) (relations counters : ℕ)
            → IsRight D.Device opening relations counters self.old →
            OnErr result (free_pages (pages self.old.store.pool)
            (held_in (world D.Device opening self.old)) < claimed self.old + count) }
        ensures err { OnErr result (self.new ≡ self.old) }
        ensures rests { (opening : PageBytes)
            → Rests (world D.Device opening self.old) (world D.Device opening self.new) }
        ensures store { self.new.store ≡ self.old.store }
        ensures locks { self.new.locks ≡ self.old.locks }
    {
        self.map.space.claim(count)
    }

    /// Gives so many claims back. An operation that ends gives its own back itself. Those of one that is dropped out,
    /// and those for inverses that are not needed any more, are given back here.
    pub fn give_back(&mut self, count: u16)
        requires { count ≤ claimed self.old }
        ensures right { (opening : PageBytes) (relations counters : ℕ)
            → IsRight D.Device opening relations counters self.old
            → IsRight D.Device opening relations counters self.new }
        ensures claimed { claimed self.new + count ≡ claimed self.old }
        ensures rests { (opening : PageBytes)
            → Rests (world D.Device opening self.old) (world D.Device opening self.new) }
        ensures store { self.new.store ≡ self.old.store }
        ensures locks { self.new.locks ≡ self.old.locks }
    {
        self.map.space.give_back(count);
    }

    /// Appends the end of a transaction that has no operation under way: its commit, or the end of its abort.
    /// The pages held stay. The only refusal is [`Refusal::NoMemory`], and nothing is appended then.
    pub fn append(&mut self, entry: Record) -> Result<LogPos, Refusal>
        requires kept { IsOpen D.Device self.old.store self.old.store.device }
        requires grammar { IsRecord entry }
        requires ends { EndsTxn (txn_of entry) entry }
        requires rules { may_stand false (appended self.old.store.log) entry ≡ true }
        requires fits { used self.old.store.log + 5 + record_length entry < area_size self.old.store.log }
        ensures right { (opening : PageBytes) (relations counters : ℕ)
            → IsRight D.Device opening relations counters self.old
            → IsRight D.Device opening relations counters self.new }
        ensures steps { AppendSteps D.Device self.old self.new entry result }
        ensures others { (opening : PageBytes) (relations counters : ℕ) (u : OpScope)
            → IsUnderWay relations counters (world D.Device opening self.old) u → u.txn ≢ txn_of entry
            → IsUnderWay relations counters (world D.Device opening self.new) u }
        ensures held { (opening : PageBytes) → held_in (world D.Device opening self.new) ≡ held_in
            (world D.Device opening self.old) }
        ensures claimed { claimed self.new ≡ claimed self.old }
        ensures device { self.new.store.device ≡ self.old.store.device }
    {
        self.store.append(entry)
    }

    /// A step of the log's force, as [`Store::force_step`] makes it: pages, locks and operations stay. The only
    /// refusal is [`Refusal::DeviceFailed`], if the device failed in this call or the log has failed before.
    pub fn force_step(&mut self) -> Result<Forced, Refusal>
        requires kept { IsOpen D.Device self.old.store self.old.store.device }
        ensures right { (opening : PageBytes) (relations counters : ℕ)
            → IsRight D.Device opening relations counters self.old
            → IsRight D.Device opening relations counters self.new }
        ensures rests { (opening : PageBytes)
            → Rests (world D.Device opening self.old) (world D.Device opening self.new) }
        ensures moments { ExplainsMeanwhile D.Device self.old.store self.new.store }
        ensures once { D.moment self.new.store.device ≤ D.moment self.old.store.device + 1 }
        ensures pool { self.new.store.pool ≡ self.old.store.pool }
        ensures ruling { self.new.store.ruling ≡ self.old.store.ruling }
        ensures claimed { claimed self.new ≡ claimed self.old }
        ensures steps { ForceSteps (seen_of self.old.store.log) (seen_of self.new.store.log) result }
        ensures cause { ReportsFault D.Device (seen_of self.old.store.log) self.old.store.device self.new.store.device
            result }
    {
        self.store.force_step()
    }

    /// Writes one page into its slot, as [`Store::flush_step`] does: pages, locks and operations stay. The only
    /// error is the device's.
    pub fn flush_step(&mut self) -> Result<Flushed, DeviceFault>
        requires kept { IsOpen D.Device self.old.store self.old.store.device }
        ensures right { (opening : PageBytes) (relations counters : ℕ)
            → IsRight D.Device opening relations counters self.old
            → IsRight D.Device opening relations counters self.new }
        ensures rests { (opening : PageBytes)
            → Rests (world D.Device opening self.old) (world D.Device opening self.new) }
        ensures moments { ExplainsMeanwhile D.Device self.old.store self.new.store }
        ensures once { D.moment self.new.store.device ≤ D.moment self.old.store.device + 1 }
        ensures claimed { claimed self.new ≡ claimed self.old }
        ensures log { self.new.store.log ≡ self.old.store.log }
        ensures steps { FlushSteps (length (durable self.old.store.log))
            self.old.store.pool self.new.store.pool result }
        ensures forced { result ≡ Ok flushed.Force → length (durable self.old.store.log) < length
            (appended self.old.store.log) }
        ensures exact { AreClean self.old.store.pool → result ≡ Ok flushed.Clean }
        ensures cause { HasCause (D.faults self.old.store.device) (D.faults self.new.store.device) result }
    {
        self.store.flush_step()
    }

    // Gives an operation up. Nothing of it is taken back, and no other operation can be stepped then. Pages and log
    // stay as they are.
    fn give_up(&mut self, scope: OpScope)
        ensures store { self.new.store ≡ self.old.store }
    {
        let (_op, guards, _seen) = scope.into_parts();
        self.locks.release_all(guards);
    }
}

/// Log bytes that an operation may append, and as many its inverse: none if it only reads.
pub fn log_bytes_for(op: &Op) -> u64
    ensures { result ≡ (if only_reads op.now then 0 else OPERATION_LOG_BYTES) }
{
    match op {
        Op::Get(_, _) | Op::Read(_) | Op::Scan(_) => 0,
        _ => OPERATION_LOG_BYTES,
    }
}

// An operation is called: its locks, its pending add, what is kept for its inverse, and its begin.
ghost use Rattle.std.specs.Prelude.{◌≡◌, ◌==◌, is_some, ◌<◌, ◌≤◌, ◌+◌, ◌*◌, ◌^◌, ℕ, length, List};
ghost use Rattle.std.specs.Bool.{OnTrue, OnFalse};
ghost use Rattle.std.specs.List.{list_any};
ghost use Rattle.std.specs.Vec.{vec_len, vec_capacity};
ghost use Rattle.mt_base.specs.declared.limits.TheConstants.{MAX_BEGUN};
ghost use Rattle.mt_escrow.specs.Seen.{Escrowed};
ghost use Rattle.mt_live.specs.Machine.{called};
ghost use Rattle.mt_log.specs.Words.{area_size};
ghost use Rattle.mt_model.specs.Model.{Base, IsWithin, asks_of};
ghost use Rattle.mt_model.specs.declared.objects.Object.{Object};
ghost use Rattle.mt_pool.specs.Views.{pages};
ghost use Rattle.mt_slock.specs.declared.holders.Holder.{Holder};
ghost use Rattle.mt_core.specs.Consistent.{SameCommits, SameStates, log_kept, Origin, state_of, IsConsistent, IsPlaceOf, MayRun, MayBeCalled, IsLocked, IsGranted, IsCalled};
ghost use Rattle.mt_core.specs.Causes.{IsAnswered};
ghost use Rattle.mt_core.specs.Restartable.{StaysRestartable};
ghost use Rattle.mt_core.specs.Work.{CallRuns, DrawsNumber};
ghost use Rattle.mt_op.specs.declared.scope.OpScope.{OpScope};
ghost use Rattle.mt_core.specs.Advancing.{AdmitsCall, AsksLeave, LocksCall, StartsCall};
ghost use Rattle.mt_core.specs.Seen.{core_log, core_pool, core_store};

use crate::ends::let_go;
use crate::parts::Core;
use crate::reservations::left_in;
use mt_base::{OpNo, Refusal, TxnNo};
use mt_disk::Device;
use mt_escrow::Escrow;
use mt_model::{Asks, Op};
use mt_op::{OpScope, log_bytes_for};
use mt_slock::Asked;
use mt_steps::{pages_for, pages_to_undo};
use std::alloc::Global;

/// What a call answers that is not refused.
#[derive(Clone, Copy, PartialEq, Eq, Debug)]
pub enum Called {
    /// The operation is under way.
    Started,
    /// Nothing: this transaction, the oldest that holds a lock in the way, is younger and is to be waited for.
    Wait(TxnNo),
}

// Asks leave for an operation that is an add.
fn ask(escrow: &mut Escrow, txn: TxnNo, op: &Op) -> Result<(), Refusal>
    requires within { ∥ ((relations : ℕ) × IsWithin relations (length escrow.old.committed) op.now) ∥₁ }
    ensures { AsksLeave escrow.old escrow.new txn op.now result }
{
    if let Op::Add(counter, step) = op {
        escrow.ask(txn, *counter, *step)?;
    }
    Ok(())
}

// The place of a transaction's operation among those under way, if it has one.
fn place_in(running: &[OpScope], txn: TxnNo) -> Option<usize>
    ensures { IsPlaceOf running.now txn result }
{
    for (place, one) in running.iter().enumerate() {
        if one.txn() == txn {
            return Some(place);
        }
    }
    None
}

impl<D: Device> Core<D> {
    /// The place of a transaction's operation among those under way; `None` if it runs nothing.
    pub fn place_of(&self, txn: TxnNo) -> Option<usize>
        ensures place { IsPlaceOf self.now.running.items txn result }
        ensures busy { is_some result ≡ list_any (λ (r : OpScope). r.txn == txn) self.now.running.items }
    {
        place_in(self.running.as_slice(), txn)
    }

    /// Calls an operation of a transaction at work that runs nothing, and starts it. It takes the operation's locks,
    /// the escrow's leave if it is an add, and pages and log bytes for it and for its inverse. An insert may split a
    /// bucket of the index.
    ///
    /// It answers [`Called::Wait`] or is refused with 14 as the lock table does, and with 9 as the escrow does. It is
    /// refused with 10 if fewer pages are free and not claimed. It is refused with 11 if the log has no room
    /// beside what is kept. For want of memory it is refused with 1. In each of these cases nothing of the call is
    /// kept. An operation that starts has the number after the last one, and no other call takes a number.
    pub fn call(&mut self, alloc: Global, txn: TxnNo, op: &Op) -> Result<Called, Refusal>
        requires safe { ∥ ((origin : Origin) × (base : Base) × IsConsistent D.Device origin base self.old
            × MayBeCalled origin self.old txn op.now) ∥₁ }
        requires few { self.old.last < MAX_BEGUN }
        ensures called { (origin : Origin) (base : Base) → IsConsistent D.Device origin base self.old
            → MayBeCalled origin self.old txn op.now
            → IsCalled D.Device origin base (state_of self.old base) self.new txn op.now result }
        ensures answer { (origin : Origin) (base : Base) → IsConsistent D.Device origin base self.old
            → MayBeCalled origin self.old txn op.now
            → IsAnswered D.Device origin self.old (log_kept self.old) txn op.now result }
        ensures states { SameStates self.old self.new }
        ensures runs { CallRuns txn (2 * pages (core_pool self.old) + 9) self.old.running.items
            self.new.running.items result }
        ensures numbers { DrawsNumber self.old.last self.old.running.items self.new result }
        ensures same_commits { SameCommits self.old self.new }
        ensures store { core_store self.new ≡ core_store self.old }
        ensures restartable { StaysRestartable D.Device self.old self.new }
    {
        let own = op.try_clone()?;
        let asks = op.asks()?;
        self.live.room(txn)?;
        self.running.reserve(1)?;
        self.lock(alloc, txn, own, asks)
    }

    // Whether the log has room for so many bytes beside those that are kept.
    pub(crate) fn log_takes(&self, bytes: u64) -> bool
        requires { log_kept self.now < area_size (core_log self.now) }
        ensures takes { OnTrue result (log_kept self.now + bytes < area_size (core_log self.now)) }
        ensures full { OnFalse result (area_size (core_log self.now) ≤ log_kept self.now + bytes) }
        ensures sum { OnTrue result (self.now.reserved + bytes < 2 ^ 64) }
    {
        let log = self.operations.log();
        bytes < log.area_size() - log.used() - left_in(self.running.as_slice()) - self.reserved
    }

    // Starts an operation for which all is granted, if there are pages and log bytes for it and for its inverse.
    // If it is refused it is given back.
    fn start(&mut self, alloc: Global, txn: TxnNo, op: Op) -> Result<(), (Refusal, Op)>
        requires granted { ∥ ((origin : Origin) × (base : Base) × (locks : List (Object × List Holder))
            × (escrow : Escrowed) × IsGranted D.Device origin base locks escrow self.old txn op) ∥₁ }
        requires room { vec_len self.old.running < vec_capacity self.old.running }
        requires few { self.old.last < MAX_BEGUN }
        ensures { StartsCall D.Device self.old self.new txn op result }
    {
        let pages = pages_for(&op, true) + pages_to_undo(&op);
        let bytes = log_bytes_for(&op);
        let takes = self.log_takes(2 * bytes);
        match self.operations.claim(pages) {
            Ok(()) => {}
            Err(why) => return Err((why, op)),
        }
        if !takes {
            self.operations.give_back(pages);
            return Err((Refusal::LogFull, op));
        }
        let number = self.last + 1;
        match self
            .operations
            .begin_op(alloc, txn, OpNo::new(number), op, 0, true)
        {
            Ok(scope) => {
                self.last = number;
                self.reserved += bytes;
                self.running.push_reserved(scope);
                Ok(())
            }
            Err((why, op)) => {
                self.operations.give_back(pages);
                Err((why, op))
            }
        }
    }

    // Asks leave for an operation that is an add, and starts it. Its locks are had. If it is refused it is given
    // back.
    fn admit(&mut self, alloc: Global, txn: TxnNo, op: Op) -> Result<(), (Refusal, Op)>
        requires locked { ∥ ((origin : Origin) × (base : Base) × (locks : List (Object × List Holder))
            × IsLocked D.Device origin base locks self.old txn op) ∥₁ }
        requires room { vec_len self.old.running < vec_capacity self.old.running }
        requires few { self.old.last < MAX_BEGUN }
        ensures { AdmitsCall D.Device self.old self.new txn op result }
    {
        match ask(&mut self.escrow, txn, &op) {
            Ok(()) => {}
            Err(why) => return Err((why, op)),
        }
        match self.start(alloc, txn, op) {
            Ok(()) => Ok(()),
            Err((why, op)) => {
                let_go(&mut self.escrow, txn, &op);
                Err((why, op))
            }
        }
    }

    // Takes the locks that the operation asks for, and starts it.
    fn lock(&mut self, alloc: Global, txn: TxnNo, op: Op, asks: Asks) -> Result<Called, Refusal>
        requires safe { ∥ ((origin : Origin) × (base : Base) × IsConsistent D.Device origin base self.old
            × MayRun origin self.old txn op) ∥₁ }
        requires same { asks ≡ asks_of op }
        requires room { vec_len self.old.running < vec_capacity self.old.running }
        requires few { self.old.last < MAX_BEGUN }
        ensures { LocksCall D.Device self.old self.new txn op result }
    {
        match self.locks.ask(txn, asks)? {
            Asked::Wait(holder) => Ok(Called::Wait(holder)),
            Asked::Granted(fresh) => match self.admit(alloc, txn, op) {
                Ok(()) => Ok(Called::Started),
                Err((why, op)) => {
                    self.locks.take_out(txn, &op.into_asks(), fresh);
                    Err(why)
                }
            },
        }
    }
}

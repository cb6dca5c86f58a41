// What the lock of a shared kernel guards, and what is done under it. mt_shared calls it with the lock taken;
// nothing here waits or wakes a thread.
ghost use Rattle.std.specs.Prelude.{◌≡◌, ◌≢◌, ◌<◌, ◌+◌, ◌-◌, ◌++◌, ◌∷◌, [], ◌≤◌, ◌⊎◌, false, length, OnOk, IfOk, IfErr, IsErr, IfNone, IfSome, IsSome, Ok, Err, IsTrue, ◌↔◌, slice_get, Some, None, All, true, cond};
ghost use mathlib.Core.List.{IsPrefix};
ghost use Rattle.mt_mark.specs.Legal.{IsLegal};
ghost use Rattle.mt_mark.specs.Rule.{dones, Holds, IsConfirmed};
ghost use Rattle.mt_locked.specs.Asked.{DidAbort, DidAbortStep, DidBack, DidBackStep, DidBegin, DidCall, DidCommit, DidFlush, DidForce, DidSave, DidStep};
ghost use Rattle.mt_locked.specs.Began.{BeganOn, IsIdle};
ghost use Rattle.mt_locked.specs.Standings.{IsDeviceSeen, LeavesBook};
ghost use Rattle.mt_locked.specs.Refusals.{IsRoomRefusal};
ghost use Rattle.mt_restart.specs.TurnFaults.{IsTurnFault};
ghost use Rattle.mt_locked.specs.Rooms.{GoesOnFrom, MakesRoom};
ghost use Rattle.mt_locked.specs.Seen.{PassSeen, Entered, CannotEnter, IsAsked, IsToForce, SameAround, SameBeside, is_failed_in, under_way_in};
ghost use Rattle.mt_locked.specs.Dues.{due_with, once_settled, settled, with_one_fewer, with_one_holding};
ghost use Rattle.mt_locked.specs.Tokens.{entry_of};
ghost use Rattle.mt_locked.specs.Turns.{IsHalfUsed, IsLeftAfter, IsLostByFault, IsTooEarlyIn, IsUseOn, IsUseSeen, TurnsLogOver};
ghost use Rattle.mt_txn.specs.Seen.{seen_of};
ghost use Rattle.mt_txn.specs.Shown.{is_failed};
ghost use Rattle.mt_txn.specs.Words.{kernel_book};
ghost use Rattle.mt_locked.specs.Whole.{AreAll, HasAllOf, IsCloseCause, IsInUse, IsOfAll, IsWhole, all_own};

use crate::names::Naming;
use crate::pass::Pass;
use crate::returned_passes::{are_all, meet_all};
use crate::rotation::{has_just, turned};
use crate::txn::Txn;
use core::mem::replace_with;
use mt_base::{Refusal, TxnNo};
use mt_disk::Device;
use mt_mark::{End, Entry};
use mt_model::{Committed, Op};
use mt_restart::Standing;
use mt_txn::{AbortStepped, Called, Flushed, Kernel, KernelForced, LogUse, Stepped};
use std::alloc::Global;
use std::marker::{Model, PhantomData};

/// What who rotates is to do.
#[derive(Clone, Copy, PartialEq, Eq, Debug)]
pub enum Due {
    /// To turn the log over.
    Turn,
    /// To sleep, until more than half of the log's area is in use as a transaction ends.
    Nothing,
    /// To come to an end.
    End,
}

/// What lies under the lock: the kernel, or what a rotation left of it, with its end of the mark. Its first commits
/// are the history, as many as the mark counts. Contracts see the kernel, or else the device that is left; the book, the
/// history, how many passes there are, how many hold new transactions back, and what who rotates is to do.
pub struct Locked<D: Device, J: Naming> {
    pub(crate) standing: Standing<D>,
    pub(crate) end: End,
    // how many hold new transactions back
    pub(crate) holding: u32,
    // what who rotates is to do
    pub(crate) due: Due,
    pub(crate) of: PhantomData<J>,
}

/// A close that was refused, with all that was handed in.
pub struct Unclosed<D: Device, J: Naming> {
    pub why: Refusal,
    pub locked: Locked<D, J>,
    pub passes: Vec<Pass<J>>,
}

impl<D: Device, J: Naming> Model for Locked<D, J> {
    ghost use Rattle.std.specs.Prelude.{◌≡◌};
    ghost use Rattle.mt_mark.specs.Rule.{dones, IsConfirmed};
    ghost use Rattle.mt_locked.specs.Seen.{LockedSeen};
    ghost use Rattle.mt_locked.specs.Standings.{KeepsHistory, seen_in};

    ghost Value = { LockedSeen D };

    ghost view = { λ l. seen_in l.standing l.end.view l.holding l.due };

    ghost invariant = { λ l. (l.end.mark ≡ J.mark) × (l.end.view.base ≡ J.base) × (l.end.view.book ≡ J.book)
        × IsConfirmed l.end.view
        × KeepsHistory J.base (dones l.end.view.list) l.standing };
}

impl<D: Device, J: Naming> Locked<D, J> {
    /// A kernel with the end of the mark that was made about it. The history is its book, or the first of it.
    pub fn over(kernel: Kernel<D>, end: End) -> Locked<D, J>
        requires name { (end.mark ≡ J.mark) × (end.view.base ≡ J.base) × (end.view.book ≡ J.book) }
        requires began { BeganOn J.base kernel }
        requires confirmed { IsConfirmed end.view }
        requires front { IsPrefix (dones end.view.list) (kernel_book kernel) }
        ensures book { result.book ≡ kernel_book kernel }
        ensures list { result.list ≡ end.view.list }
        ensures passes { result.pass_count ≡ end.view.made - 1 }
        ensures kernel { (result.kernel ≡ Some (seen_of kernel)) × (result.left ≡ None) }
        ensures none { (result.holding ≡ 0) × (result.due ≡ Due.Nothing) }
    {
        Locked {
            standing: Standing::Stands(kernel),
            end,
            holding: 0,
            due: Due::Nothing,
            of: PhantomData,
        }
    }

    /// Enters a durable transaction of this pass into the history, at this position, from 1. Then the pass has seen the
    /// book's first entries up to it.
    ///
    /// The token comes back, and nothing has changed, only in two cases. The mark does not stand one below the
    /// position, or the book has no such entry there. That is one with the token's session, calls and replies.
    pub fn enter(&mut self, place: u64, pass: &mut Pass<J>, txn: Txn<J>) -> Result<(), Txn<J>>
        requires own { txn.pass ≡ pass.old.number }
        ensures entered { OnOk result (Entered J.base self.old place pass.old (entry_of txn) pass.new) }
        ensures back { IfErr result (λ t. (t ≡ txn) × (pass.new ≡ pass.old)
            × CannotEnter self.old place (entry_of txn)) }
        ensures kernel { self.new.kernel ≡ self.old.kernel }
        ensures book { self.new.book ≡ self.old.book }
        ensures list { IfErr result (λ _. self.new.list ≡ self.old.list) }
        ensures passes { self.new.pass_count ≡ self.old.pass_count }
        ensures dues { (self.new.holding ≡ self.old.holding) × (self.new.due ≡ self.old.due) }
    {
        let at = self.end.check();
        if place == 0 || at != place - 1 {
            return Err(txn);
        }
        if !self.has(at, &txn.entry) {
            return Err(txn);
        }
        self.end.enter(&mut pass.seat, &txn.entry);
        txn.spend();
        pass.is_busy = false;
        Ok(())
    }

    // Whether the book has this transaction at the mark's position, from 0.
    fn has(&self, at: u64, entry: &Entry) -> bool
        requires at { at ≡ length self.now.list }
        ensures is { IsTrue result ↔ (slice_get self.now.book at ≡ Some entry.now.done) }
        ensures legal { IsTrue result → IsLegal J.base self.now.book }
    {
        match &self.standing {
            Standing::Stands(kernel) => has_at(kernel.book(), at, entry),
            Standing::Ended(_) => false,
        }
    }

    // How many commits the book has: those of the history, if no kernel stands.
    fn len(&mut self) -> u64
        ensures same { self.new ≡ self.old }
        ensures len { result ≡ length self.old.book }
    {
        match &self.standing {
            Standing::Stands(kernel) => kernel.book().len() as u64,
            Standing::Ended(_) => self.end.check(),
        }
    }

    // Whether each call is refused with 2: the kernel has failed, or none stands.
    fn has_failed(&self) -> bool
        ensures { result ≡ is_failed_in self.now.kernel }
    {
        match &self.standing {
            Standing::Stands(kernel) => kernel.has_failed(),
            Standing::Ended(_) => true,
        }
    }

    /// Whether the book has nothing after this position.
    pub fn is_last(&mut self, place: u64) -> bool
        ensures same { self.new ≡ self.old }
        ensures is { IsTrue result ↔ (length self.old.book ≤ place) }
    {
        self.len() <= place
    }

    /// Whether a commit was appended that is not in the book yet.
    pub fn is_committing(&self) -> bool
        ensures { IsTrue result ↔ (0 < length (under_way_in self.now.kernel)) }
    {
        match &self.standing {
            Standing::Stands(kernel) => kernel.is_committing(),
            Standing::Ended(_) => false,
        }
    }

    /// Whether who commits at this position makes force steps: it is the next to be entered, and not in the book yet.
    /// If the device has failed, that is how it is reported.
    pub fn is_to_force(&mut self, place: u64) -> bool
        ensures same { self.new ≡ self.old }
        ensures is { IsTrue result ↔ IsToForce self.old place }
    {
        place > self.len() && (self.is_next(place) || self.has_failed())
    }

    // Whether the commit at this position is the next to be entered.
    fn is_next(&mut self, place: u64) -> bool
        ensures same { self.new ≡ self.old }
        ensures is { IsTrue result ↔ (length self.old.list + 1 ≡ place) }
    {
        place > 0 && self.end.check() == place - 1
    }

    /// Begins a transaction, as [`Kernel::begin`]; the book and the history stay.
    pub fn begin(&mut self, session: u32) -> Result<TxnNo, Refusal>
        ensures kernel { IsAsked self.old result self.new (λ k n. DidBegin D.Device k session result n) }
        ensures book { self.new.book ≡ self.old.book }
        ensures beside { SameBeside self.old self.new }
        ensures due { self.new.due ≡ self.old.due }
    {
        let Standing::Stands(kernel) = &mut self.standing else {
            return Err(Refusal::DeviceFailed);
        };
        kernel.begin(session)
    }

    /// Begins an operation, as [`Kernel::call`]; the book and the history stay.
    pub fn call(&mut self, txn: TxnNo, op: &Op) -> Result<Called, Refusal>
        ensures kernel { IsAsked self.old result self.new
            (λ k n. DidCall D.Device k txn op.now result n) }
        ensures book { self.new.book ≡ self.old.book }
        ensures beside { SameBeside self.old self.new }
        ensures due { self.new.due ≡ self.old.due }
    {
        let Standing::Stands(kernel) = &mut self.standing else {
            return Err(Refusal::DeviceFailed);
        };
        kernel.call(txn, op)
    }

    /// Makes a step of an operation, as [`Kernel::step`]; the book and the history stay.
    pub fn step(&mut self, txn: TxnNo) -> Result<Stepped, Refusal>
        ensures kernel { IsAsked self.old result self.new
            (λ k n. DidStep D.Device k txn result n) }
        ensures book { self.new.book ≡ self.old.book }
        ensures beside { SameBeside self.old self.new }
        ensures due { self.new.due ≡ self.old.due }
    {
        let Standing::Stands(kernel) = &mut self.standing else {
            return Err(Refusal::DeviceFailed);
        };
        kernel.step(txn)
    }

    /// Appends a commit, and answers its position, as [`Kernel::commit_begin`]; the book and the history stay.
    pub fn commit_begin(&mut self, txn: TxnNo) -> Result<u64, Refusal>
        ensures kernel { IsAsked self.old result self.new (λ k n. DidCommit D.Device k txn result n) }
        ensures book { self.new.book ≡ self.old.book }
        ensures beside { SameBeside self.old self.new }
        ensures due { self.new.due ≡ self.old.due }
    {
        let Standing::Stands(kernel) = &mut self.standing else {
            return Err(Refusal::DeviceFailed);
        };
        kernel.commit_begin(txn)
    }

    /// Begins an abort, as [`Kernel::abort_begin`]; the book and the history stay.
    pub fn abort_begin(&mut self, txn: TxnNo) -> Result<(), Refusal>
        ensures kernel { IsAsked self.old result self.new (λ k n. DidAbort D.Device k txn result n) }
        ensures book { self.new.book ≡ self.old.book }
        ensures beside { SameBeside self.old self.new }
        ensures due { self.new.due ≡ self.old.due }
    {
        let Standing::Stands(kernel) = &mut self.standing else {
            return Err(Refusal::DeviceFailed);
        };
        kernel.abort_begin(txn)
    }

    /// Makes a step of an abort, as [`Kernel::abort_step`]; the book and the history stay.
    pub fn abort_step(&mut self, txn: TxnNo) -> Result<AbortStepped, Refusal>
        ensures kernel { IsAsked self.old result self.new
            (λ k n. DidAbortStep D.Device k txn result n) }
        ensures book { self.new.book ≡ self.old.book }
        ensures beside { SameBeside self.old self.new }
        ensures due { self.new.due ≡ self.old.due }
    {
        let Standing::Stands(kernel) = &mut self.standing else {
            return Err(Refusal::DeviceFailed);
        };
        kernel.abort_step(txn)
    }

    /// How many operations of a transaction count, as [`Kernel::save`].
    pub fn save(&self, txn: TxnNo) -> Result<u16, Refusal>
        ensures { DidSave D.Device self.now.kernel txn result }
    {
        match &self.standing {
            Standing::Stands(kernel) => kernel.save(txn),
            Standing::Ended(_) => Err(Refusal::DeviceFailed),
        }
    }

    /// Begins to go back to the first so many operations of a transaction, as [`Kernel::back_begin`]; the book and the
    /// history stay.
    pub fn back_begin(&mut self, txn: TxnNo, first: u16) -> Result<(), Refusal>
        ensures kernel { IsAsked self.old result self.new (λ k n. DidBack D.Device k txn first result n) }
        ensures book { self.new.book ≡ self.old.book }
        ensures beside { SameBeside self.old self.new }
        ensures due { self.new.due ≡ self.old.due }
    {
        let Standing::Stands(kernel) = &mut self.standing else {
            return Err(Refusal::DeviceFailed);
        };
        kernel.back_begin(txn, first)
    }

    /// Makes a step of going back, as [`Kernel::back_step`]; the book and the history stay.
    pub fn back_step(&mut self, txn: TxnNo) -> Result<AbortStepped, Refusal>
        ensures kernel { IsAsked self.old result self.new
            (λ k n. DidBackStep D.Device k txn result n) }
        ensures book { self.new.book ≡ self.old.book }
        ensures beside { SameBeside self.old self.new }
        ensures due { self.new.due ≡ self.old.due }
    {
        let Standing::Stands(kernel) = &mut self.standing else {
            return Err(Refusal::DeviceFailed);
        };
        kernel.back_step(txn)
    }

    /// Flushes a page, as [`Kernel::flush_step`]; the book and the history stay.
    pub fn flush_step(&mut self) -> Result<Flushed, Refusal>
        ensures kernel { IsAsked self.old result self.new (λ k n. DidFlush D.Device k result n) }
        ensures book { self.new.book ≡ self.old.book }
        ensures beside { SameBeside self.old self.new }
        ensures due { self.new.due ≡ self.old.due }
    {
        let Standing::Stands(kernel) = &mut self.standing else {
            return Err(Refusal::DeviceFailed);
        };
        kernel.flush_step()
    }

    /// One force step. The book grows at its end.
    pub fn force_step(&mut self) -> Result<KernelForced, Refusal>
        ensures kernel { IsAsked self.old result self.new (λ k n. DidForce D.Device k result n) }
        ensures book { IsPrefix self.old.book self.new.book }
        ensures beside { SameBeside self.old self.new }
        ensures due { self.new.due ≡ self.old.due }
    {
        let Standing::Stands(kernel) = &mut self.standing else {
            return Err(Refusal::DeviceFailed);
        };
        kernel.force_step()
    }

    /// Flushes a page; if each waits for the log, one step of a force. Refused with 1 or 2.
    pub fn make_room(&mut self) -> Result<(), Refusal>
        ensures why { IfErr result IsRoomRefusal }
        ensures kernel { MakesRoom D.Device self.old.kernel result self.new.kernel }
        ensures book { IsPrefix self.old.book self.new.book }
        ensures beside { SameBeside self.old self.new }
        ensures due { self.new.due ≡ self.old.due }
    {
        let flushed = self.flush_step()?;
        self.go_on(flushed)
    }

    // Goes on after a flush: if each page waits for the log, a step of a force is made.
    fn go_on(&mut self, flushed: Flushed) -> Result<(), Refusal>
        ensures why { IfErr result IsRoomRefusal }
        ensures kernel { GoesOnFrom D.Device (Ok flushed) self.old.kernel result self.new.kernel }
        ensures book { IsPrefix self.old.book self.new.book }
        ensures beside { SameBeside self.old self.new }
        ensures due { self.new.due ≡ self.old.due }
    {
        match flushed {
            Flushed::Page(_) | Flushed::Clean => Ok(()),
            Flushed::Force => {
                drop(self.force_step()?);
                Ok(())
            }
        }
    }

    /// Whether these are all passes of the mark.
    pub fn has_all(&self, passes: &[Pass<J>]) -> bool
        ensures { IsTrue result ↔ AreAll self.now.pass_count passes.now }
    {
        are_all(self.end.passes(), passes)
    }

    // Why this cannot be closed, if it cannot. Each durable transaction is entered by its pass, and is waited for.
    fn close_cause(&mut self, passes: &[Pass<J>]) -> Option<Refusal>
        ensures same { self.new ≡ self.old }
        ensures whole { IfNone result (IsWhole self.old) }
        ensures all { IfNone result (IsOfAll J.book passes.now self.old.list) }
        ensures met { IfNone result (AreAll self.old.pass_count passes.now) }
        ensures cause { IfSome result (IsCloseCause self.old passes.now) }
    {
        let entered = self.end.check();
        if !are_all(self.end.passes(), passes) {
            return Some(Refusal::Stranger);
        }
        match &self.standing {
            Standing::Stands(kernel) => kernel_cause(kernel, entered),
            Standing::Ended(_) => Some(Refusal::DeviceFailed),
        }
    }

    // The kernel of what is whole, which each pass meets.
    fn into_met(self, passes: Vec<Pass<J>>) -> Result<Kernel<D>, Unclosed<D, J>>
        requires whole { IsWhole self }
        requires all { IsOfAll J.book passes.items self.list }
        ensures own { IfOk result (λ k. HasAllOf (kernel_book k) passes.items) }
        ensures count { IfOk result (λ k. length (kernel_book k) ≡ length J.book + all_own passes.items) }
        ensures began { IfOk result (BeganOn J.base) }
        ensures idle { IfOk result (λ k. is_failed k ≡ false → IsIdle k) }
        ensures kernel { IfOk result (λ k. self.kernel ≡ Some (seen_of k)) }
        ensures cause { IfErr result (λ u. IsCloseCause self passes.items u.why) }
        ensures back { IfErr result (λ u. u.passes.items ≡ passes.items) }
        ensures stays { IfErr result (λ u. u.locked ≡ self) }
    {
        let Locked {
            standing,
            end,
            holding,
            due,
            of,
        } = self;
        match standing {
            Standing::Stands(kernel) => {
                meet_all(end, passes);
                Ok(kernel)
            }
            standing => {
                let locked = Locked {
                    standing,
                    end,
                    holding,
                    due,
                    of,
                };
                Err(Unclosed {
                    why: Refusal::Busy,
                    locked,
                    passes,
                })
            }
        }
    }

    /// The kernel under the lock, once these are all passes. Its book is the history then. Unless it has failed, no
    /// transaction is active in it, and it holds no lock.
    ///
    /// Refused, in this order, with all as it was. It is 15 if a pass is missing, 2 if a rotation left no kernel. Then
    /// 16 if a durable transaction is not in the history, or one is active in a kernel that has not failed.
    pub fn close(self, passes: Vec<Pass<J>>) -> Result<Kernel<D>, Unclosed<D, J>>
        ensures met { IfOk result (λ _. AreAll self.pass_count passes.items) }
        ensures own { IfOk result (λ k. HasAllOf (kernel_book k) passes.items) }
        ensures count { IfOk result (λ k. length (kernel_book k) ≡ length J.book + all_own passes.items) }
        ensures began { IfOk result (BeganOn J.base) }
        ensures idle { IfOk result (λ k. is_failed k ≡ false → IsIdle k) }
        ensures kernel { IfOk result (λ k. self.kernel ≡ Some (seen_of k)) }
        ensures cause { IfErr result (λ u. IsCloseCause self passes.items u.why) }
        ensures back { IfErr result (λ u. u.passes.items ≡ passes.items) }
        ensures stays { IfErr result (λ u. u.locked ≡ self) }
    {
        let mut locked = self;
        match locked.close_cause(passes.as_slice()) {
            None => locked.into_met(passes),
            Some(why) => {
                Err(Unclosed {
                    why,
                    locked,
                    passes,
                })
            }
        }
    }

    /// How much of the log's area is in use.
    pub fn log_use(&self) -> Option<LogUse>
        ensures use_on { IfSome result (IsUseOn ⟦<D as Device>⟧ J.base) }
        ensures kernel { IsUseSeen self.now.kernel result }
    {
        match &self.standing {
            Standing::Stands(kernel) => Some(kernel.log_use()),
            Standing::Ended(_) => None,
        }
    }

    /// Whether more than half of the log's area is in use; false if a rotation left no kernel.
    pub fn is_half_used(&self) -> bool
        ensures { IsTrue result ↔ IsHalfUsed self.now.kernel }
    {
        match self.log_use() {
            Some(log) => log.is_above_half(),
            None => false,
        }
    }

    /// Whether new transactions are held back.
    pub fn holds_back(&self) -> bool
        ensures { IsTrue result ↔ (0 < self.now.holding) }
    {
        self.holding != 0
    }

    /// New transactions are held back, until as many calls of [`Locked::let_on`] have come.
    pub fn hold_back(&mut self)
        ensures { self.new ≡ with_one_holding self.old }
    {
        self.holding = self.holding.saturating_add(1);
    }

    /// Takes one [`Locked::hold_back`] back.
    pub fn let_on(&mut self)
        ensures { self.new ≡ with_one_fewer self.old }
    {
        self.holding = self.holding.saturating_sub(1);
    }

    /// What who rotates is to do. If the device has failed, that is to ask for a turn of the log, and to be refused.
    pub fn due(&self) -> Due
        ensures { result ≡ due_with (is_failed_in self.now.kernel) self.now.due }
    {
        match self.due {
            Due::Nothing if self.has_failed() => Due::Turn,
            due => due,
        }
    }

    /// A transaction has ended: the log is to be turned over if more than half of its area is in use. Whether that is
    /// so now, and was not due before.
    pub fn stir(&mut self) -> bool
        ensures is { IsTrue result ↔ (self.old.due ≡ Due.Nothing) × IsHalfUsed self.old.kernel }
        ensures due { self.new ≡ record self.old { due = cond result Due.Turn self.old.due } }
    {
        let is_first = self.due == Due::Nothing && self.is_half_used();
        if is_first {
            self.due = Due::Turn;
        }
        is_first
    }

    // The log was turned over, or could not be: that is not due again before a further transaction has ended.
    fn settle(&mut self)
        ensures { self.new ≡ once_settled self.old }
    {
        if self.due == Due::Turn {
            self.due = Due::Nothing;
        }
    }

    /// Who rotates is to come to an end, from now on.
    pub fn end_rotating(&mut self)
        ensures { self.new ≡ record self.old { due = Due.End } }
    {
        self.due = Due::End;
    }
}

impl<D: Device + Drop, J: Naming> Locked<D, J> {
    /// Turns the log over if each transaction of the book is entered and no transaction is active; whether it did.
    /// If it was too early for that, nothing has changed. Else who rotates is not to turn it over before a further
    /// transaction has ended.
    ///
    /// Refused with 1 for want of memory, and with 11 if the log cannot turn over: the kernel goes on as it was. Refused
    /// with 2 if the device has failed, or fails in this call: no kernel goes on then.
    pub fn rotate(&mut self, alloc: Global, frames: usize) -> Result<bool, Refusal>
        ensures why { IfErr result IsTurnFault }
        ensures did { result ≡ Ok true → TurnsLogOver ⟦<D as Device>⟧ frames J.base self.old.kernel self.new.kernel }
        ensures early { result ≡ Ok false → (self.new ≡ self.old) × IsTooEarlyIn self.old }
        ensures waits { is_failed_in self.old.kernel ≡ false → IsTooEarlyIn self.old → result ≡ Ok false }
        ensures gone { self.new.kernel ≡ None → IsErr result }
        // After 1 and 11 the kernel goes on as it was. After 2 none does.
        ensures refused { IfErr result (λ why. IsLeftAfter ⟦<D as Device>⟧ why self.old.kernel self.new.kernel) }
        ensures lost { IsLostByFault ⟦<D as Device>⟧ self.old.kernel self.old.left self.new.left }
        ensures failed { is_failed_in self.old.kernel ≡ true
            → (result ≡ Err Refusal.DeviceFailed) × (self.new.kernel ≡ self.old.kernel) }
        ensures book { self.new.book ≡ self.old.book }
        ensures beside { SameAround self.old self.new }
        ensures due { result ≢ Ok false → self.new.due ≡ settled self.old.due }
    {
        let entered = self.end.check();
        let outcome = replace_with(&mut self.standing, (entered, alloc, frames), turned);
        if outcome != Ok(false) {
            self.settle();
        }
        outcome
    }

    /// The device, of the kernel or as a rotation left it. What is active is gone with the kernel. Whatever a crash
    /// leaves of the device, a restart finds what the book leads to, or the book and commits that were under way.
    pub fn into_device(self) -> D
        ensures leaves { LeavesBook D.Device J.base self.book result }
        ensures device { IsDeviceSeen self result }
    {
        let Locked {
            standing,
            end: _,
            holding: _,
            due: _,
            of: _,
        } = self;
        standing.into_device()
    }
}

// Why a kernel cannot be closed under a history of so many commits, if it cannot.
fn kernel_cause<D: Device>(kernel: &Kernel<D>, commits: u64) -> Option<Refusal>
    ensures all { IfNone result (length (kernel_book kernel.now) ≡ commits) }
    ensures ended { IfNone result (IsInUse (Some (seen_of kernel.now)) → ⊥) }
    ensures busy { IfSome result (λ why. why ≡ Refusal.Busy) }
    ensures cause { IsSome result
        → (length (kernel_book kernel.now) ≢ commits) ⊎ IsInUse (Some (seen_of kernel.now)) }
{
    if !has_just(kernel, commits) {
        return Some(Refusal::Busy);
    }
    if !kernel.has_failed() && !kernel.has_nobody() {
        return Some(Refusal::Busy);
    }
    None
}

// Whether a book has this transaction at this position, from 0.
fn has_at(book: &[Committed], at: u64, entry: &Entry) -> bool
    ensures { IsTrue result ↔ (slice_get book.now at ≡ Some entry.now.done) }
{
    if at >= book.len() as u64 {
        return false;
    }
    book[at as usize].equals(&entry.done)
}

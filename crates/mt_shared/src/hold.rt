// The lock of what is shared, kept from one call of a thread to its next. So it is taken once for a few calls.
// All others wait meanwhile: a hold ends after 18 calls, and before a thread sleeps.
ghost use Rattle.std.specs.Prelude.{◌≡◌, ◌≢◌, ◌↔◌, ◌⊎◌, ◌≤◌, ℕ, Ok, Err, None, IfOk, IfErr, OnOk, OnErr, IfSome, length};
ghost use Rattle.mt_base.specs.declared.refusal.Refusal.TheVariants.{DeviceFailed, NoMemory, Stranger};
ghost use Rattle.mt_model.specs.declared.operations.Reply.{Reply};
ghost use Rattle.mt_locked.specs.Refusals.{IsAbortRefusal, IsBackRefusal, IsBeginRefusal, IsCommitRefusal, IsRoomRefusal};
ghost use Rattle.mt_locked.specs.Seen.{Extends};
ghost use Rattle.mt_locked.specs.Tokens.{entry_of, fresh, went_back, with_call};
ghost use Rattle.mt_shared.specs.Refusals.{IsSavepointCause};
ghost use Rattle.mt_txn.specs.Causes.{IsCallRefusal, size_cause};

use crate::gate::{Gate, Point};
use crate::shared::{Shared, lost};
use mt_base::{Refusal, TxnNo};
use mt_disk::Device;
use mt_locked::{
    Locked, Naming, Pass, Refused, Txn, give_token, put_calls, spend_token, take_calls,
};
use mt_model::{Op, Reply};
use mt_txn::{AbortStepped, Called, Stepped};
use std::alloc::Global;
use std::sync::{MutexGuard, Wait};

/// Calls that one hold of the lock has at most: a begin, 16 operations, and a commit or one operation more.
const CALLS: u8 = 18;

/// Steps of one operation, or of undoing, in one hold of the lock. Others may have it then, since a scan may take
/// thousands.
const STEPS: u64 = 64;

/// A thread's calls of what is shared, which keep its lock from one to the next. So a transaction of at most 16
/// operations is begun and run, and its commit appended, in one hold of the lock.
///
/// The lock is given back after as many calls, after 64 steps of one operation or of undoing, while a call waits or a
/// force is made, at the end of a transaction, if a call is refused, and if this is dropped. It is not kept if the
/// observer wants to be called at a point before a transaction's end. All others wait for it meanwhile, so who keeps it
/// makes its next call soon, or gives it back. The calls answer what those of [`Shared`] of the same names answer.
pub struct Hold<'a, D: Device, G: Gate + Drop, J: Naming> {
    shared: &'a Shared<D, G, J>,
    locked: Option<MutexGuard<'a, Locked<D, J>>>,
    // how many calls were made in this hold of the lock
    calls: u8,
    // whether an operation has ended in it, and nobody was woken since
    has_moved: bool,
}

/// The lock is given back.
impl<D: Device, G: Gate + Drop, J: Naming> Drop for Hold<'_, D, G, J> {
    fn drop(self) {
        let Hold {
            shared,
            locked,
            calls: _,
            has_moved,
        } = self;
        drop(locked);
        if has_moved {
            shared.moved.notify_all();
        }
    }
}

impl<'a, D: Device, G: Gate + Drop, J: Naming> Hold<'a, D, G, J> {
    pub(crate) fn of(shared: &'a Shared<D, G, J>) -> Hold<'a, D, G, J> {
        Hold {
            shared,
            locked: None,
            calls: 0,
            has_moved: false,
        }
    }

    // The lock, as it was kept, or else once it is free.
    fn lock<R: Wait>(&mut self, rt: &R) -> MutexGuard<'a, Locked<D, J>> {
        match self.locked.take() {
            Some(locked) => locked,
            None => {
                self.calls = 0;
                self.shared.locked.lock(rt)
            }
        }
    }

    // Keeps the lock for the next call, if this hold may have one.
    fn keep(&mut self, locked: MutexGuard<'a, Locked<D, J>>) {
        self.calls = self.calls.saturating_add(1);
        if self.calls < CALLS && !self.shared.wanted.has_within() {
            self.locked = Some(locked);
        } else {
            drop(locked);
            self.stir();
        }
    }

    // Wakes who waits for an operation that has ended in this hold.
    fn stir(&mut self) {
        if self.has_moved {
            self.has_moved = false;
            self.shared.moved.notify_all();
        }
    }

    /// Gives the lock back, if it is kept. It is for who has something else to do before its next call.
    pub fn give_back(&mut self) {
        self.locked = None;
        self.stir();
    }

    // Sleeps until an operation, or a transaction, has ended.
    fn sleep<R: Wait>(
        &mut self,
        rt: &R,
        locked: MutexGuard<'a, Locked<D, J>>,
    ) -> MutexGuard<'a, Locked<D, J>> {
        self.stir();
        self.shared.moved.wait(rt, locked)
    }

    /// Begins a transaction of this pass, for a session. Nothing enters the history.
    ///
    /// Refused, in this order: 16 if this pass has a transaction, then as
    /// [`Kernel::begin`](mt_txn::Kernel::begin). Nothing has changed then.
    pub fn begin<R: Wait>(
        &mut self,
        rt: &R,
        alloc: Global,
        pass: &mut Pass<J>,
        session: u32,
    ) -> Result<Txn<J>, Refusal>
        ensures pass { pass.new ≡ pass.old }
        ensures token { IfOk result (λ t. t ≡ fresh pass.old.number t.number session) }
        ensures why { IfErr result IsBeginRefusal }
    {
        if pass.is_busy() {
            self.give_back();
            return Err(Refusal::Busy);
        }
        let number = match self.begun(rt, session) {
            Ok(number) => number,
            Err(why) => {
                self.stir();
                return Err(self.shared.refusing(why));
            }
        };
        let txn = give_token(alloc, pass, number, session);
        self.shared.reach(session, Point::Began);
        Ok(txn)
    }

    // Begins a transaction once none is held back.
    fn begun<R: Wait>(&mut self, rt: &R, session: u32) -> Result<TxnNo, Refusal>
        ensures { IfErr result IsBeginRefusal }
    {
        let mut locked = self.lock(rt);
        for _ in rt.forever() {
            if !locked.holds_back() {
                let number = locked.begin(session)?;
                self.keep(locked);
                return Ok(number);
            }
            locked = self.sleep(rt, locked);
        }
        unreachable!()
    }

    /// Runs an operation to its end. The token keeps it with its reply, [`Txn::calls`].
    ///
    /// It waits if another transaction is in the way, and flushes pages if frames are wanted. A step that finds no
    /// memory is made again. Refused as [`Kernel::call`](mt_txn::Kernel::call), with 1 only before the operation has
    /// started, and with 2 if the device fails; the token is as before.
    pub fn run<R: Wait>(&mut self, rt: &R, txn: &mut Txn<J>, op: Op) -> Result<(), Refusal>
        ensures ok { OnOk result ((r : Reply) × (txn.new ≡ with_call txn.old op r)) }
        ensures err { OnErr result (txn.new ≡ txn.old) }
        ensures sized { OnOk result (size_cause op ≡ None) }
        ensures why { IfErr result (IsCallRefusal op) }
    {
        let (number, session) = (txn.number(), txn.session());
        // out of the token meanwhile, if it is known that there is room for one more
        let mut calls = take_calls(txn);
        if calls.reserve().is_err() {
            self.give_back();
            put_calls(txn, calls);
            return Err(Refusal::NoMemory);
        }
        match self.replied(rt, number, session, &op) {
            Ok(reply) => {
                calls.push(op, reply);
                put_calls(txn, calls);
                Ok(())
            }
            Err(why) => {
                put_calls(txn, calls);
                Err(why)
            }
        }
    }

    // The reply of an operation.
    fn replied<R: Wait>(
        &mut self,
        rt: &R,
        number: TxnNo,
        session: u32,
        op: &Op,
    ) -> Result<Reply, Refusal>
        ensures sized { OnOk result (size_cause op.now ≡ None) }
        ensures why { IfErr result (IsCallRefusal op.now) }
    {
        let mut locked = self.lock(rt);
        for _ in rt.forever() {
            match locked.call(number, op) {
                Ok(Called::Started) => return self.stepped(rt, locked, number, session),
                Ok(Called::Wait(_)) => locked = self.sleep(rt, locked),
                Err(why) => {
                    drop(locked);
                    self.stir();
                    return Err(self.shared.refusing(why));
                }
            }
        }
        unreachable!()
    }

    // The reply of an operation that has started. It is asked again after want of memory, and so is never refused with
    // 1.
    fn stepped<R: Wait>(
        &mut self,
        rt: &R,
        locked: MutexGuard<'a, Locked<D, J>>,
        number: TxnNo,
        session: u32,
    ) -> Result<Reply, Refusal>
        ensures { IfErr result IsAbortRefusal }
    {
        let mut locked = locked;
        let mut steps: u64 = 0;
        for _ in rt.forever() {
            match locked.step(number) {
                Ok(Stepped::Replied(reply)) => {
                    self.has_moved = true;
                    self.keep(locked);
                    self.shared.reach(session, Point::Replied);
                    return Ok(reply);
                }
                Ok(Stepped::Went) => {
                    steps = steps.wrapping_add(1);
                    locked = self.after_step(rt, locked, session, steps);
                }
                Ok(Stepped::Flush) => match locked.make_room() {
                    Ok(()) => self.shared.moved.notify_all(),
                    Err(why) => locked = self.outlast(rt, locked, why)?,
                },
                Ok(Stepped::Again) => {
                    self.has_moved = true;
                    locked = self.sleep(rt, locked);
                }
                Ok(Stepped::Wait(_)) => locked = self.sleep(rt, locked),
                Err(why) => locked = self.outlast(rt, locked, why)?,
            }
        }
        unreachable!()
    }

    // Between two steps of an operation: calls the observer without the lock, if it wants to be called, and lets others
    // have the lock after each few steps.
    fn after_step<R: Wait>(
        &mut self,
        rt: &R,
        locked: MutexGuard<'a, Locked<D, J>>,
        session: u32,
        steps: u64,
    ) -> MutexGuard<'a, Locked<D, J>> {
        if self.shared.wanted.has(Point::Stepped) {
            drop(locked);
            self.shared.gate.at(session, Point::Stepped);
            self.shared.locked.lock(rt)
        } else if steps % STEPS == 0 {
            self.let_others(rt, locked)
        } else {
            locked
        }
    }

    // Gives the lock to others, which may give memory back, and takes it again.
    fn let_others<R: Wait>(
        &mut self,
        rt: &R,
        locked: MutexGuard<'a, Locked<D, J>>,
    ) -> MutexGuard<'a, Locked<D, J>> {
        drop(locked);
        self.stir();
        self.shared.locked.lock(rt)
    }

    // Goes on after want of memory, once others had the lock. What else a step was refused with is answered.
    fn outlast<R: Wait>(
        &mut self,
        rt: &R,
        locked: MutexGuard<'a, Locked<D, J>>,
        why: Refusal,
    ) -> Result<MutexGuard<'a, Locked<D, J>>, Refusal>
        ensures is { IfErr result (λ answer. answer ≡ why) }
        ensures other { IfErr result (λ answer. answer ≢ NoMemory) }
        ensures goes_on { OnOk result (why ≡ NoMemory) }
    {
        match why {
            Refusal::NoMemory => Ok(self.let_others(rt, locked)),
            _ => Err(self.shared.refusing(why)),
        }
    }

    /// Takes a transaction back, and what it did. Nothing enters the history.
    ///
    /// Refused: 15 if the token is of another pass; 2 if the device failed, and then the token is gone.
    pub fn abort<R: Wait>(
        &mut self,
        rt: &R,
        pass: &mut Pass<J>,
        txn: Txn<J>,
    ) -> Result<(), Refused<J>>
        ensures same { pass.new ≡ pass.old }
        ensures own { OnOk result (txn.pass ≡ pass.old.number) }
        ensures stranger { IfErr result (λ r. txn.pass ≢ pass.old.number → r.why ≡ Stranger) }
        ensures back { IfErr result (λ r. IfSome r.txn (λ t. t ≡ txn)) }
        ensures gone { IfErr result (λ r. (r.txn ≡ None) ↔ (r.why ≡ DeviceFailed)) }
        ensures why { IfErr result (λ r. IsAbortRefusal r.why) }
    {
        if txn.pass() != pass.number() {
            self.give_back();
            return Err(Refused {
                why: Refusal::Stranger,
                txn: Some(txn),
            });
        }
        match self.undone(rt, txn.number()) {
            Ok(()) => {
                let session = txn.session();
                spend_token(pass, txn);
                self.shared.reach(session, Point::Aborted);
                Ok(())
            }
            Err(Refusal::DeviceFailed) => Err(lost(pass, txn)),
            Err(why) => {
                Err(Refused {
                    why,
                    txn: Some(txn),
                })
            }
        }
    }

    // Takes a transaction back.
    fn undone<R: Wait>(&mut self, rt: &R, number: TxnNo) -> Result<(), Refusal>
        ensures { IfErr result IsAbortRefusal }
    {
        let mut locked = self.lock(rt);
        if let Err(why) = locked.abort_begin(number) {
            drop(locked);
            self.stir();
            return Err(self.shared.refusing(why));
        }
        let mut steps: u64 = 0;
        for _ in rt.forever() {
            match locked.abort_step(number) {
                Ok(AbortStepped::Ended) => {
                    self.has_moved = false;
                    self.shared.taken_back(locked);
                    return Ok(());
                }
                stepped => {
                    steps = steps.wrapping_add(1);
                    locked = self.after_undo(rt, locked, stepped, steps)?;
                }
            }
        }
        unreachable!()
    }

    // Goes on after a step that undid something, but not the last. It flushes a page if a frame is wanted, and sleeps
    // while another transaction is in the way. Others have the lock after each few steps, and after want of memory.
    fn after_undo<R: Wait>(
        &mut self,
        rt: &R,
        mut locked: MutexGuard<'a, Locked<D, J>>,
        stepped: Result<AbortStepped, Refusal>,
        steps: u64,
    ) -> Result<MutexGuard<'a, Locked<D, J>>, Refusal>
        ensures is { IfErr result (λ why. (stepped ≡ Err why)
            ⊎ ((stepped ≡ Ok AbortStepped.Flush) × IsRoomRefusal why)) }
        ensures other { IfErr result (λ why. why ≢ NoMemory) }
    {
        match stepped {
            Ok(AbortStepped::Flush) => match locked.make_room() {
                Ok(()) => {
                    self.shared.moved.notify_all();
                    Ok(locked)
                }
                Err(why) => self.outlast(rt, locked, why),
            },
            Ok(AbortStepped::Again) => {
                self.has_moved = true;
                Ok(self.sleep(rt, locked))
            }
            Ok(AbortStepped::Wait(_)) => Ok(self.sleep(rt, locked)),
            Ok(_) => {
                self.shared.moved.notify_all();
                if steps % STEPS == 0 {
                    return Ok(self.let_others(rt, locked));
                }
                Ok(locked)
            }
            Err(why) => self.outlast(rt, locked, why),
        }
    }

    /// Goes back to where the first so many operations of a transaction had ended, of those that count
    /// ([`Txn::answered`]). What it did since is taken back by inverses, and its locks stay. The token keeps these
    /// inverses with their replies, after its other operations, and a commit enters them too. They do not count, and
    /// neither does what they took back.
    ///
    /// It waits if another transaction is in the way, and flushes pages if frames are wanted. A step that finds no
    /// memory is made again. Refused, in this order: 19 if fewer operations count; 1 for want of memory, before
    /// anything is taken back; 2 if the device has failed; 15 if the kernel has no such transaction; 16 if an operation
    /// of it is unfinished. The token is as before, and after 1 the call may be made again. If the device fails while it
    /// goes back, it is refused with 2, and so is each later call.
    pub fn back<R: Wait>(&mut self, rt: &R, txn: &mut Txn<J>, first: u16) -> Result<(), Refusal>
        ensures ok { OnOk result (txn.new ≡ went_back txn.old first) }
        ensures err { OnErr result (txn.new ≡ txn.old) }
        ensures may { OnOk result (first ≤ length txn.old.standing) }
        ensures savepoint { IfErr result (IsSavepointCause (length txn.old.standing) first) }
        ensures why { IfErr result IsBackRefusal }
    {
        if first > txn.answered() {
            self.give_back();
            return Err(Refusal::BadSavepoint);
        }
        let number = txn.number();
        // out of the token meanwhile, if it is known that there is room for the inverses
        let mut calls = take_calls(txn);
        let Ok(inverses) = calls.inverses(first) else {
            self.give_back();
            put_calls(txn, calls);
            return Err(Refusal::NoMemory);
        };
        match self.returned(rt, number, first) {
            Ok(()) => {
                calls.went_back(first, inverses);
                put_calls(txn, calls);
                Ok(())
            }
            Err(why) => {
                put_calls(txn, calls);
                Err(refused_to_one_that_counts(why))
            }
        }
    }

    // Brings a transaction back to the first so many of its operations that count.
    fn returned<R: Wait>(&mut self, rt: &R, number: TxnNo, first: u16) -> Result<(), Refusal>
        ensures { IfErr result IsBackRefusal }
    {
        let mut locked = self.lock(rt);
        if let Err(why) = locked.back_begin(number, first) {
            drop(locked);
            self.stir();
            return Err(self.shared.refusing(why));
        }
        let mut steps: u64 = 0;
        for _ in rt.forever() {
            match locked.back_step(number) {
                Ok(AbortStepped::Ended) => {
                    self.has_moved = true;
                    self.keep(locked);
                    return Ok(());
                }
                stepped => {
                    steps = steps.wrapping_add(1);
                    locked = self.after_undo(rt, locked, stepped, steps)?;
                }
            }
        }
        unreachable!()
    }

    /// Commits, and answers the position in the history, from 1. The transaction is durable then, and in the history.
    ///
    /// It waits until the commits before it are entered. If its own is not durable then, it makes force steps until
    /// it is; what others have appended meanwhile is forced with it. Refused: 15 if the token is of another pass,
    /// then as [`Kernel::commit_begin`](mt_txn::Kernel::commit_begin), and the token comes back. It is refused with 2
    /// if the device failed before the commit was durable, and then the token is gone.
    pub fn commit<R: Wait>(
        &mut self,
        rt: &R,
        pass: &mut Pass<J>,
        txn: Txn<J>,
    ) -> Result<u64, Refused<J>>
        ensures entered { IfOk result (λ p. Extends J.base pass.old (entry_of txn) p pass.new) }
        ensures same { OnErr result (pass.new ≡ pass.old) }
        ensures own { OnOk result (txn.pass ≡ pass.old.number) }
        ensures stranger { IfErr result (λ r. txn.pass ≢ pass.old.number → r.why ≡ Stranger) }
        ensures back { IfErr result (λ r. IfSome r.txn (λ t. t ≡ txn)) }
        ensures gone { IfErr result (λ r. (r.txn ≡ None) ↔ (r.why ≡ DeviceFailed)) }
        ensures why { IfErr result (λ r. IsCommitRefusal r.why) }
    {
        if txn.pass() != pass.number() {
            self.give_back();
            return Err(Refused {
                why: Refusal::Stranger,
                txn: Some(txn),
            });
        }
        let session = txn.session();
        let mut locked = self.lock(rt);
        let begun = locked.commit_begin(txn.number());
        self.stir();
        match begun {
            Ok(place) => {
                let place = self.shared.entered(rt, locked, pass, txn, place)?;
                self.shared.reach(session, Point::Committed);
                Ok(place)
            }
            Err(Refusal::DeviceFailed) => {
                self.shared.wake_all();
                Err(lost(pass, txn))
            }
            Err(why) => {
                Err(Refused {
                    why,
                    txn: Some(txn),
                })
            }
        }
    }
}

// What the refusal of going back comes to of a token with as many operations that count. A kernel that counts fewer has
// not this transaction.
fn refused_to_one_that_counts(why: Refusal) -> Refusal
    ensures savepoint { (count first : ℕ) → first ≤ count → IsSavepointCause count first result }
    ensures why { IsBackRefusal result }
    ensures same { IsBackRefusal why → why ≢ Refusal.BadSavepoint → result ≡ why }
{
    match why {
        Refusal::NoMemory => Refusal::NoMemory,
        Refusal::DeviceFailed => Refusal::DeviceFailed,
        Refusal::Busy => Refusal::Busy,
        _ => Refusal::Stranger,
    }
}

// What threads call of a kernel that they share, and how they sleep and are woken. The lock is taken here and in
// `hold`; what is done under it is in mt_locked.
ghost use Rattle.std.specs.Prelude.{◌≡◌, ◌≢◌, ◌+◌, ◌≤◌, ◌↔◌, All, false, length, None, IfOk, IfErr, OnOk, OnErr, IfSome, IsSome, List};
ghost use mathlib.Core.List.{IsPrefix};
ghost use Rattle.mt_base.specs.declared.refusal.Refusal.TheVariants.{DeviceFailed, Stranger};
ghost use Rattle.mt_mark.specs.Rule.{dones};
ghost use Rattle.mt_model.specs.declared.history.Committed.{Committed};
ghost use Rattle.mt_model.specs.declared.operations.Reply.{Reply};
ghost use Rattle.mt_locked.specs.Began.{BeganOn, IsIdle};
ghost use Rattle.mt_locked.specs.Refusals.{IsAbortRefusal, IsBackRefusal, IsBeginRefusal, IsCloseRefusal, IsCommitRefusal, IsRoomRefusal};
ghost use Rattle.mt_restart.specs.TurnFaults.{IsTurnFault};
ghost use Rattle.mt_shared.specs.Refusals.{IsSavepointCause, IsTurnRefusal};
ghost use Rattle.mt_locked.specs.Seen.{PassSeen, Extends, Looked};
ghost use Rattle.mt_locked.specs.Tokens.{entry_of, fresh, went_back, with_call};
ghost use Rattle.mt_locked.specs.Standings.{LeavesBook};
ghost use Rattle.mt_locked.specs.Turns.{HasTurned, IsUseOn};
ghost use Rattle.mt_txn.specs.Causes.{IsCallRefusal, size_cause};
ghost use Rattle.mt_txn.specs.Shown.{is_failed};
ghost use Rattle.mt_txn.specs.Words.{kernel_book};
ghost use Rattle.mt_locked.specs.Whole.{HasAllOf, all_own};

use crate::gate::{Gate, Point, Wanted};
use crate::hold::Hold;
use mt_base::Refusal;
use mt_disk::Device;
use mt_locked::{Due, Locked, Naming, Pass, Refused, Txn, Unclosed, spend_token};
use mt_model::{Op, Reply};
use mt_txn::{Flushed, Kernel, KernelForced, LogUse};
use std::alloc::Global;
use std::array;
use std::sync::{Condvar, Mutex, MutexGuard, Wait};

/// At how many positions of the book threads that commit are woken one by one. If more of them wait at once, some are
/// woken that go back to sleep.
const TURNS: usize = 64;

/// A kernel that threads share, with the commit mark beside it: one history for all.
pub struct Shared<D: Device, G: Gate + Drop, J: Naming> {
    pub(crate) locked: Mutex<Locked<D, J>>,
    // on which who waits for an operation, or for a transaction to end, sleeps
    pub(crate) moved: Condvar,
    // on which who commits sleeps until it is next, by its position in the book
    turns: [Condvar; TURNS],
    // on which who rotates sleeps until the log is to be turned over
    due: Condvar,
    pub(crate) gate: G,
    pub(crate) wanted: Wanted,
}

/// A close that was refused, with all that was handed in.
pub struct Closed<D: Device, G: Gate + Drop, J: Naming> {
    pub why: Refusal,
    pub shared: Shared<D, G, J>,
    pub passes: Vec<Pass<J>>,
}

/// What a call of [`Shared::tend`] did.
#[derive(Clone, Copy, PartialEq, Eq, Debug)]
pub enum Tended {
    /// A step of a force, or a page was flushed.
    Worked,
    /// Nothing: all that was appended is durable, and no page can be flushed.
    Idle,
}

impl<D: Device, G: Gate + Drop, J: Naming> Shared<D, G, J> {
    // Nothing is held back at first, and nothing is due.
    pub(crate) fn over(locked: Locked<D, J>, gate: G) -> Shared<D, G, J>
        requires none { (locked.holding ≡ 0) × (locked.due ≡ Due.Nothing) }
    {
        let wanted = Wanted::of(&gate);
        Shared {
            locked: Mutex::new(locked),
            moved: Condvar::new(),
            turns: array::from_fn(|_| Condvar::new()),
            due: Condvar::new(),
            gate,
            wanted,
        }
    }

    // Where who commits at this position sleeps.
    fn turn(&self, place: u64) -> &Condvar {
        &self.turns[(place % TURNS as u64) as usize]
    }

    // Calls the observer, if it wants this point.
    pub(crate) fn reach(&self, session: u32, point: Point) {
        if self.wanted.has(point) {
            self.gate.at(session, point);
        }
    }

    // A refusal that is to be answered. All that sleep are woken if the device has failed.
    pub(crate) fn refusing(&self, why: Refusal) -> Refusal
        ensures { result ≡ why }
    {
        if why == Refusal::DeviceFailed {
            self.wake_all();
        }
        why
    }

    // Wakes all that sleep, who rotates and who commits too.
    pub(crate) fn wake_all(&self) {
        self.moved.notify_all();
        self.due.notify_all();
        for turn in &self.turns {
            turn.notify_all();
        }
    }

    // A transaction was taken back. Wakes who waits for it, and who rotates if the log is to be turned over from now
    // on.
    pub(crate) fn taken_back(&self, mut locked: MutexGuard<'_, Locked<D, J>>) {
        let is_due = locked.stir();
        drop(locked);
        self.moved.notify_all();
        if is_due {
            self.due.notify_all();
        }
    }

    // A commit is in the history. Once the lock is free this wakes who commits at the next position, and who waits
    // until all are in the history. After the last that is durable it also wakes who rotates, if the log is to be
    // turned over from now on.
    fn has_entered(&self, mut locked: MutexGuard<'_, Locked<D, J>>, place: u64) {
        let is_due = locked.is_last(place) && locked.stir();
        let is_awaited = locked.holds_back();
        drop(locked);
        self.turn(place.wrapping_add(1)).notify_all();
        if is_awaited {
            self.moved.notify_all();
        }
        if is_due {
            self.due.notify_all();
        }
    }

    /// Sees the history as it is, and answers its length. It is one load of the mark: it takes no lock, waits for
    /// nobody, and takes no memory.
    pub fn look(&self, pass: &mut Pass<J>) -> u64
        ensures { Looked J.base pass.old result pass.new }
    {
        pass.look()
    }

    /// The calls of a thread that keep the lock from one to the next.
    pub fn hold(&self) -> Hold<'_, D, G, J> {
        Hold::of(self)
    }

    /// Begins a transaction of this pass, for a session, as [`Hold::begin`]. Nothing enters the history.
    ///
    /// Refused, in this order: 16 if this pass has a transaction, then as [`Kernel::begin`]. Nothing has changed
    /// then.
    pub fn begin<R: Wait>(
        &self,
        rt: &R,
        alloc: Global,
        pass: &mut Pass<J>,
        session: u32,
    ) -> Result<Txn<J>, Refusal>
        ensures pass { pass.new ≡ pass.old }
        ensures token { IfOk result (λ t. t ≡ fresh pass.old.number t.number session) }
        ensures why { IfErr result IsBeginRefusal }
    {
        let mut hold = self.hold();
        hold.begin(rt, alloc, pass, session)
    }

    /// Runs an operation to its end, as [`Hold::run`]. The token keeps it with its reply, [`Txn::calls`].
    ///
    /// Refused as [`Kernel::call`], with 1 only before the operation has started, and with 2 if the device fails; the
    /// token is as before.
    pub fn run<R: Wait>(&self, rt: &R, txn: &mut Txn<J>, op: Op) -> Result<(), Refusal>
        ensures ok { OnOk result ((r : Reply) × (txn.new ≡ with_call txn.old op r)) }
        ensures err { OnErr result (txn.new ≡ txn.old) }
        ensures sized { OnOk result (size_cause op ≡ None) }
        ensures why { IfErr result (IsCallRefusal op) }
    {
        let mut hold = self.hold();
        hold.run(rt, txn, op)
    }

    /// Goes back to where the first so many operations of a transaction had ended, of those that count, as
    /// [`Hold::back`]. The token keeps the inverses that took the others back, with their replies.
    ///
    /// Refused, in this order: 19 if fewer operations count; 1 for want of memory, before anything is taken back; 2 if
    /// the device has failed, or fails in this call; 15 if the kernel has no such transaction; 16 if an operation of it
    /// is unfinished. The token is as before, and after 1 the call may be made again.
    pub fn back<R: Wait>(&self, rt: &R, txn: &mut Txn<J>, first: u16) -> Result<(), Refusal>
        ensures ok { OnOk result (txn.new ≡ went_back txn.old first) }
        ensures err { OnErr result (txn.new ≡ txn.old) }
        ensures may { OnOk result (first ≤ length txn.old.standing) }
        ensures savepoint { IfErr result (IsSavepointCause (length txn.old.standing) first) }
        ensures why { IfErr result IsBackRefusal }
    {
        let mut hold = self.hold();
        hold.back(rt, txn, first)
    }

    /// Takes a transaction back, and what it did, as [`Hold::abort`]. Nothing enters the history.
    ///
    /// Refused: 15 if the token is of another pass; 2 if the device failed, and then the token is gone.
    pub fn abort<R: Wait>(&self, rt: &R, pass: &mut Pass<J>, txn: Txn<J>) -> Result<(), Refused<J>>
        ensures same { pass.new ≡ pass.old }
        ensures own { OnOk result (txn.pass ≡ pass.old.number) }
        ensures stranger { IfErr result (λ r. txn.pass ≢ pass.old.number → r.why ≡ Stranger) }
        ensures back { IfErr result (λ r. IfSome r.txn (λ t. t ≡ txn)) }
        ensures gone { IfErr result (λ r. (r.txn ≡ None) ↔ (r.why ≡ DeviceFailed)) }
        ensures why { IfErr result (λ r. IsAbortRefusal r.why) }
    {
        let mut hold = self.hold();
        hold.abort(rt, pass, txn)
    }

    /// One step of a force. One page is flushed if there is nothing to force, or a commit waits to be durable,
    /// which who commits forces. It waits for the lock alone.
    ///
    /// No call of another thread needs it, and nothing calls it in the background: an operation flushes a page itself
    /// if it finds no frame, and an opening or a turn of the log writes each page that has an image in the log. It is
    /// for who wants all that was appended to be durable, and the frames free, before many pages are read.
    ///
    /// Refused: 2 if the device has failed or fails in this call; 1 for want of memory.
    pub fn tend<R: Wait>(&self, rt: &R) -> Result<Tended, Refusal>
        ensures why { IfErr result IsRoomRefusal }
    {
        let mut locked = self.locked.lock(rt);
        if locked.is_committing() {
            return self.flushed(locked);
        }
        match locked.force_step() {
            Ok(KernelForced::More) => Ok(Tended::Worked),
            Ok(KernelForced::Durable(_)) => {
                self.moved.notify_all();
                Ok(Tended::Worked)
            }
            Ok(KernelForced::Idle) => self.flushed(locked),
            Err(why) => Err(self.refusing(why)),
        }
    }

    // Flushes a page, if one can be flushed.
    fn flushed(&self, mut locked: MutexGuard<'_, Locked<D, J>>) -> Result<Tended, Refusal>
        ensures { IfErr result IsRoomRefusal }
    {
        match locked.flush_step() {
            Ok(Flushed::Page(_)) => Ok(Tended::Worked),
            Ok(_) => Ok(Tended::Idle),
            Err(why) => Err(self.refusing(why)),
        }
    }

    /// Sleeps until the log is to be turned over, and answers true; false once [`Shared::end_rotating`] was called. It
    /// is for the thread that then calls [`Shared::turn_over`].
    ///
    /// That is due if more than half of the log's area is in use as a transaction is taken back, or as the last
    /// durable commit comes into the history. Once the log was turned over, or could not be, it is due after a
    /// further such end alone. The device that fails wakes it too; then `turn_over` answers 2.
    pub fn await_due<R: Wait>(&self, rt: &R) -> bool {
        let mut locked = self.locked.lock(rt);
        for _ in rt.forever() {
            match locked.due() {
                Due::Turn => return true,
                Due::End => return false,
                Due::Nothing => locked = self.due.wait(rt, locked),
            }
        }
        unreachable!()
    }

    /// Ends the sleep of each [`Shared::await_due`], now and from now on. It waits for the lock alone.
    pub fn end_rotating<R: Wait>(&self, rt: &R) {
        self.locked.lock(rt).end_rotating();
        self.due.notify_all();
    }

    /// How much of the log's area is in use; none if a rotation left no kernel. It waits for the lock alone.
    pub fn used<R: Wait>(&self, rt: &R) -> Option<LogUse>
        ensures { IfSome result (IsUseOn ⟦<D as Device>⟧ J.base) }
    {
        self.locked.lock(rt).log_use()
    }

    /// Whether more than half of the log's area is in use, so that it is time to [`turn_over`](Shared::turn_over). It
    /// waits for the lock alone.
    pub fn is_half_used<R: Wait>(&self, rt: &R) -> bool {
        self.locked.lock(rt).is_half_used()
    }

    /// Commits, and answers the position in the history, from 1, as [`Hold::commit`]. The transaction is durable then,
    /// and in the history.
    ///
    /// Refused: 15 if the token is of another pass, then as [`Kernel::commit_begin`], and the token comes back. It is
    /// refused with 2 if the device failed before the commit was durable, and then the token is gone.
    pub fn commit<R: Wait>(
        &self,
        rt: &R,
        pass: &mut Pass<J>,
        txn: Txn<J>,
    ) -> Result<u64, Refused<J>>
        ensures entered { IfOk result (λ p. Extends J.base pass.old (entry_of txn) p pass.new) }
        ensures same { OnErr result (pass.new ≡ pass.old) }
        ensures own { OnOk result (txn.pass ≡ pass.old.number) }
        ensures stranger { IfErr result (λ r. txn.pass ≢ pass.old.number → r.why ≡ Stranger) }
        ensures back { IfErr result (λ r. IfSome r.txn (λ t. t ≡ txn)) }
        ensures gone { IfErr result (λ r. (r.txn ≡ None) ↔ (r.why ≡ DeviceFailed)) }
        ensures why { IfErr result (λ r. IsCommitRefusal r.why) }
    {
        let mut hold = self.hold();
        hold.commit(rt, pass, txn)
    }

    // Enters a commit, once it is its turn and it is durable.
    pub(crate) fn entered<'a, R: Wait>(
        &'a self,
        rt: &R,
        locked: MutexGuard<'a, Locked<D, J>>,
        pass: &mut Pass<J>,
        txn: Txn<J>,
        place: u64,
    ) -> Result<u64, Refused<J>>
        requires own { txn.pass ≡ pass.old.number }
        ensures entered { IfOk result (λ p. Extends J.base pass.old (entry_of txn) p pass.new) }
        ensures same { OnErr result (pass.new ≡ pass.old) }
        ensures gone { IfErr result (λ r. (r.txn ≡ None) × (r.why ≡ DeviceFailed)) }
    {
        let mut locked = locked;
        let mut kept = txn;
        'turns: for _ in rt.forever() {
            match locked.enter(place, pass, kept) {
                Ok(()) => {
                    self.has_entered(locked, place);
                    return Ok(place);
                }
                Err(back) => kept = back,
            }
            match self.come_nearer(rt, locked, place) {
                Ok(next) => locked = next,
                Err(_) => return Err(lost(pass, kept)),
            }
        }
        unreachable!()
    }

    // Makes a step of a force if the commit at this position is the next to be entered. It waits for its turn before.
    fn come_nearer<'a, R: Wait>(
        &'a self,
        rt: &R,
        mut locked: MutexGuard<'a, Locked<D, J>>,
        place: u64,
    ) -> Result<MutexGuard<'a, Locked<D, J>>, Refusal> {
        if locked.is_to_force(place) {
            self.force_on(rt, locked, place)
        } else {
            Ok(self.turn(place).wait(rt, locked))
        }
    }

    // Makes a step of a force. The lock is dropped between two steps.
    fn force_on<'a, R: Wait>(
        &'a self,
        rt: &R,
        mut locked: MutexGuard<'a, Locked<D, J>>,
        place: u64,
    ) -> Result<MutexGuard<'a, Locked<D, J>>, Refusal> {
        match locked.force_step() {
            Ok(KernelForced::More) | Err(Refusal::NoMemory) => {
                drop(locked);
                Ok(self.locked.lock(rt))
            }
            Ok(KernelForced::Durable(_)) => {
                self.moved.notify_all();
                Ok(locked)
            }
            Ok(KernelForced::Idle) => Ok(self.turn(place).wait(rt, locked)),
            Err(why) => {
                self.wake_all();
                Err(why)
            }
        }
    }

    // A close that is refused, with all that was handed in.
    fn still_open(self, why: Refusal, passes: Vec<Pass<J>>) -> Closed<D, G, J>
        ensures { (result.passes ≡ passes) × (result.why ≡ why) }
    {
        Closed {
            why,
            shared: self,
            passes,
        }
    }

    /// The kernel, once all passes are back and none of them has a transaction. Its book begins with what each pass
    /// has seen, and has no further transaction of that pass. It has as many as stood when the mark was made and the
    /// passes have committed together, so no other. Unless it has failed, no transaction is active in it, and it
    /// holds no lock.
    ///
    /// Refused, in this order, with all that was handed in. It is 15 if a pass is missing, 16 if one of them
    /// has a transaction, 2 if a rotation left no kernel. Then 16 if a durable transaction is not in the
    /// history, or one is active in a kernel that has not failed.
    pub fn close(self, passes: Vec<Pass<J>>) -> Result<Kernel<D>, Closed<D, G, J>>
        ensures seen { IfOk result (λ k.
            All (λ (p : PassSeen). IsPrefix (dones p.seen) (kernel_book k)) passes.items) }
        ensures own { IfOk result (λ k. HasAllOf (kernel_book k) passes.items) }
        ensures count { IfOk result (λ k. length (kernel_book k) ≡ length J.book + all_own passes.items) }
        ensures began { IfOk result (λ k. BeganOn J.base k) }
        ensures idle { IfOk result (λ k. is_failed k ≡ false → IsIdle k) }
        ensures why { IfErr result (λ c. IsCloseRefusal c.why) }
        ensures back { IfErr result (λ c. c.passes.items ≡ passes.items) }
    {
        let mut shared = self;
        if shared.locked.get_mut().has_all(passes.as_slice())
            && passes.iter().any(|p| p.is_busy())
        {
            return Err(shared.still_open(Refusal::Busy, passes));
        }
        let Shared {
            locked,
            moved,
            turns,
            due,
            gate,
            wanted,
        } = shared;
        match locked.into_inner().close(passes) {
            Ok(kernel) => Ok(kernel),
            Err(
                Unclosed {
                    why,
                    locked,
                    passes,
                },
            ) => {
                let shared = Shared {
                    locked: Mutex::new(locked),
                    moved,
                    turns,
                    due,
                    gate,
                    wanted,
                };
                Err(shared.still_open(why, passes))
            }
        }
    }
}

impl<D: Device + Drop, G: Gate + Drop, J: Naming> Shared<D, G, J> {
    /// The device, for use after a close was refused: there is always one. What is active is gone with the kernel, and
    /// nothing of it is taken back. Whatever a crash leaves of the device, a restart finds what commits lead to, each
    /// alone, in their order, from the base that the kernel began on.
    pub fn abandon(self) -> Option<D>
        ensures there { IsSome result }
        ensures found { IfSome result (λ device.
            ∥ ((book : List Committed) × LeavesBook D.Device J.base book device) ∥₁) }
    {
        let Shared {
            locked,
            moved: _,
            turns: _,
            due: _,
            gate: _,
            wanted: _,
        } = self;
        Some(locked.into_inner().into_device())
    }

    /// Turns the kernel's log over, while no transaction is active. It waits for the lock alone. The history goes on,
    /// and so do the passes. The kernel then has so many pages in frames.
    ///
    /// Refused, in this order: 2 if the device has failed; 16 if a transaction is active, or one is durable and not
    /// yet in the history. Nothing has changed then. Further as [`mt_restart::rotate`]: 1, 11, 2. The kernel goes on
    /// after 1 and 11. After 2 each later call is refused so, and the device is to be opened again.
    pub fn rotate<R: Wait>(&self, rt: &R, alloc: Global, frames: usize) -> Result<(), Refusal>
        ensures turned { OnOk result (HasTurned ⟦<D as Device>⟧ frames J.base) }
        ensures why { IfErr result IsTurnRefusal }
    {
        let outcome = self.locked.lock(rt).rotate(alloc, frames);
        self.wake_all();
        match outcome {
            Ok(true) => Ok(()),
            Ok(false) => Err(Refusal::Busy),
            Err(why) => Err(why),
        }
    }

    // Lets new transactions begin again, and answers this.
    fn let_on(
        &self,
        mut locked: MutexGuard<'_, Locked<D, J>>,
        outcome: Result<(), Refusal>,
    ) -> Result<(), Refusal>
        ensures { result ≡ outcome }
    {
        locked.let_on();
        self.wake_all();
        outcome
    }

    /// Holds new transactions back until no transaction is active, turns the log over as [`Shared::rotate`], and lets
    /// them go on.
    ///
    /// Refused as that, but for 16.
    pub fn turn_over<R: Wait>(&self, rt: &R, alloc: Global, frames: usize) -> Result<(), Refusal>
        ensures turned { OnOk result (HasTurned ⟦<D as Device>⟧ frames J.base) }
        ensures why { IfErr result IsTurnFault }
    {
        let mut locked = self.locked.lock(rt);
        locked.hold_back();
        for _ in rt.forever() {
            match locked.rotate(alloc, frames) {
                Ok(false) => locked = self.moved.wait(rt, locked),
                Ok(true) => return self.let_on(locked, Ok(())),
                Err(why) => return self.let_on(locked, Err(why)),
            }
        }
        unreachable!()
    }
}

// A token that is spent, since the device failed.
pub(crate) fn lost<J: Naming>(pass: &mut Pass<J>, txn: Txn<J>) -> Refused<J>
    ensures pass { pass.new ≡ pass.old }
    ensures gone { (result.txn ≡ None) × (result.why ≡ DeviceFailed) }
{
    spend_token(pass, txn);
    Refused {
        why: Refusal::DeviceFailed,
        txn: None,
    }
}

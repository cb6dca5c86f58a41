// Grants semantic locks, or answers who is in the way.
ghost use Rattle.std.specs.Prelude.{◌≡◌, ◌<◌, ◌≤◌, IfOk, IfErr, OnOk, OnErr, Some, cond, None, [], ◌∷◌, true, false};
ghost use Rattle.std.specs.Map.{lookup};
ghost use Rattle.mt_base.specs.declared.refusal.Refusal.{Refusal};
ghost use Rattle.mt_model.specs.Model.{same_object, intents, locks_in};
ghost use Rattle.mt_model.specs.Locks.{no_locks, with_lock, without_lock, with_locks, without_locks, without_holder, IsFree, AreAllFree, AreTogether};
ghost use Rattle.mt_slock.specs.Answers.{IsAsked, IsRefused, fresh_in};
ghost use Rattle.mt_slock.specs.Standings.{Stand, StandsIntent};
ghost use Rattle.mt_slock.specs.Views.{held_of};
ghost use Rattle.mt_slock.specs.declared.table.Asked.TheVariants as asked;

use crate::locked::LockedObjects;
use crate::notes::Notes;
use crate::standings::{Standing, Standings};
use mt_base::{LockMode, Refusal, RelNo, TxnNo};
use mt_model::{Asks, Object};
use std::alloc::{AllocError, Global};
use std::marker::Model;

/// Which of the locks that were asked for a transaction did not hold before.
#[derive(Clone, Copy, PartialEq, Eq, Debug)]
pub struct Fresh {
    /// The relation's, if there is an intent.
    pub intent: bool,
    /// The one of what the operation is on.
    pub object: bool,
}

/// What is answered if locks are asked for and nothing is refused.
#[derive(Clone, Copy, PartialEq, Eq, Debug)]
pub enum Asked {
    /// The transaction holds them all now. Those that it held before have not changed.
    Granted(Fresh),
    /// This transaction, the oldest that is in the way, is younger than the asker, which is to wait for it.
    Wait(TxnNo),
}

/// The semantic locks that live transactions hold (Weikum 1991). Contracts see each object that is locked with
/// its holders in order of grant, and read by `held_of` which locks are held. An object that nobody holds is
/// not there. If two transactions hold an object, their modes are granted together.
///
/// Beside the objects it notes of each transaction its locks in order of grant, by which a release finds them.
/// A lock that is taken out after a later one was granted is noted on until the release.
#[derive(Drop)]
pub struct LockTable {
    objects: LockedObjects,
    notes: Notes,
}

impl Model for LockTable {
    ghost use Rattle.std.specs.Prelude.{List};
    ghost use Rattle.mt_model.specs.declared.objects.Object.{Object};
    ghost use Rattle.mt_slock.specs.declared.holders.Holder.{Holder};
    ghost use Rattle.mt_slock.specs.Views.{held_of, HasNoIdle};
    ghost use Rattle.mt_slock.specs.Noted.{notes_of, IsKept};

    ghost Value = { List (Object × List Holder) };

    ghost view = { λ t. t.objects };

    ghost invariant = { λ t. record {
      kept : IsKept (held_of t.objects) (notes_of t.notes);
      idle : HasNoIdle t.objects;
    } };
}

// What is answered if this transaction is the oldest that is in the way.
fn barred(txn: TxnNo, holder: TxnNo) -> Result<Asked, Refusal>
    ensures asked { IfOk result (λ outcome. (txn ≤ holder) × (outcome ≡ asked.Wait holder)) }
    ensures cause { IfErr result (λ why. (holder < txn) × (why ≡ Refusal.Die holder)) }
{
    if holder < txn {
        Err(Refusal::Die(holder))
    } else {
        Ok(Asked::Wait(holder))
    }
}

impl LockTable {
    /// A table in which nothing is held. It takes no memory.
    pub fn new(alloc: Global) -> LockTable
        ensures held { held_of result ≡ no_locks }
        ensures together { AreTogether (held_of result) }
    {
        LockTable {
            objects: LockedObjects::new(alloc),
            notes: Notes::new(alloc),
        }
    }

    /// Asks for the locks of an operation at once for a transaction. They are granted if and only if no other
    /// transaction holds one of their objects in a mode that conflicts, and else none of them is. What the
    /// transaction holds itself is never in its way. It holds them until [`LockTable::release`]; asking for what it
    /// holds changes nothing and takes no memory. The answer has which of them are fresh, for a call that a later
    /// test refuses.
    ///
    /// If somebody is in the way, the transactions' ages decide (wait-die). If the oldest of those that are in the
    /// way of any of the locks is younger than the asker, the answer is to wait for it. If it is older, the call is
    /// refused with 14, and the asker is to abort. Refused with 1 if all would be granted and a growth of memory was
    /// refused. Nothing is kept of locks that are not granted.
    ///
    /// It takes time in proportion to the holders of the objects.
    pub fn ask(&mut self, txn: TxnNo, asks: Asks) -> Result<Asked, Refusal>
        ensures asked { IfOk result (λ asked. IsAsked (held_of self.old) txn asks asked (held_of self.new)) }
        ensures cause { IfErr result (λ why. IsRefused (held_of self.old) txn asks why) }
        ensures err { OnErr result (held_of self.new ≡ held_of self.old) }
        ensures together { AreTogether (held_of self.new) }
    {
        let standings = self.objects.standings(txn, &asks);
        match standings.bar() {
            Some(holder) => barred(txn, holder),
            None => self.grant(txn, asks, standings),
        }
    }

    // The locks that are asked for, which nobody is in the way of.
    fn grant(&mut self, txn: TxnNo, asks: Asks, standings: Standings) -> Result<Asked, Refusal>
        requires free { AreAllFree (held_of self.old) txn (locks_in asks) }
        requires standings { Stand self.old txn asks standings }
        requires together { AreTogether (held_of self.old) }
        ensures asked { IfOk result (λ asked. IsAsked (held_of self.old) txn asks asked (held_of self.new)) }
        ensures cause { IfErr result (λ why. IsRefused (held_of self.old) txn asks why) }
        ensures err { OnErr result (held_of self.new ≡ held_of self.old) }
        ensures together { AreTogether (held_of self.new) }
    {
        let fresh = standings.fresh();
        // the relation that was locked may be the object
        let alone = standings.object.alone && !fresh.intent;
        let Asks {
            intent,
            object,
            mode,
        } = asks;
        // what is passed twice is copied first
        let kept = intent;
        self.grant_intent(txn, intent, standings.intent)?;
        match self.grant_one(txn, object, mode, fresh.object, alone) {
            Ok(()) => Ok(Asked::Granted(fresh)),
            Err(error) => {
                self.take_out_intent(txn, kept, fresh.intent);
                Err(error.into())
            }
        }
    }

    // The lock of a relation for an intent, if there is one, which nobody is in the way of.
    fn grant_intent(
        &mut self,
        txn: TxnNo,
        intent: Option<RelNo>,
        standing: Standing,
    ) -> Result<(), AllocError>
        requires free { AreAllFree (held_of self.old) txn (intents intent) }
        requires standing { StandsIntent self.old txn intent standing }
        requires together { AreTogether (held_of self.old) }
        ensures granted { OnOk result (held_of self.new ≡ with_locks (held_of self.old) txn (intents intent)) }
        ensures new { OnErr result (standing.fresh ≡ true) }
        ensures err { OnErr result (held_of self.new ≡ held_of self.old) }
        ensures same { standing.fresh ≡ false → self.new ≡ self.old }
        ensures together { AreTogether (held_of self.new) }
    {
        match intent {
            Some(relation) => self.grant_one(
                txn,
                Object::Relation(relation),
                LockMode::Intend,
                standing.fresh,
                standing.alone,
            ),
            None => Ok(()),
        }
    }

    // One lock, which nobody is in the way of. It is held already unless `fresh` is set, and nobody holds the object if
    // `alone` is.
    fn grant_one(
        &mut self,
        txn: TxnNo,
        object: Object,
        mode: LockMode,
        fresh: bool,
        alone: bool,
    ) -> Result<(), AllocError>
        requires free { IsFree (held_of self.old) txn object mode }
        requires fresh { fresh ≡ false → held_of self.old txn object mode ≡ true }
        requires alone { alone ≡ true → lookup (same_object object) self.old ≡ None }
        requires together { AreTogether (held_of self.old) }
        ensures granted { OnOk result (held_of self.new ≡ with_lock (held_of self.old) txn object mode) }
        ensures new { OnErr result (fresh ≡ true) }
        ensures err { OnErr result (held_of self.new ≡ held_of self.old) }
        ensures same { fresh ≡ false → self.new ≡ self.old }
        ensures together { AreTogether (held_of self.new) }
    {
        if fresh {
            self.put(txn, object, mode, alone)
        } else {
            Ok(())
        }
    }

    // One lock more, which nobody is in the way of. Nobody holds the object if `alone` is set.
    fn put(
        &mut self,
        txn: TxnNo,
        object: Object,
        mode: LockMode,
        alone: bool,
    ) -> Result<(), AllocError>
        requires free { IsFree (held_of self.old) txn object mode }
        requires alone { alone ≡ true → lookup (same_object object) self.old ≡ None }
        ensures granted { OnOk result (held_of self.new ≡ with_lock (held_of self.old) txn object mode) }
        ensures err { OnErr result (held_of self.new ≡ held_of self.old) }
        ensures together { AreTogether (held_of self.new) }
    {
        self.notes.add(txn, &object, mode)?;
        match self.objects.put(txn, object, mode, alone) {
            Ok(()) => Ok(()),
            Err(error) => {
                self.notes.drop_last(txn);
                Err(error)
            }
        }
    }

    /// Whether a transaction holds an object in a mode. It takes time in proportion to the holders of the
    /// object.
    pub fn holds(&self, txn: TxnNo, object: &Object, mode: LockMode) -> bool
        ensures { result ≡ held_of self.now txn object.now mode }
    {
        self.objects.has(txn, object, mode)
    }

    /// Takes locks back that were just granted and not held before, for a call that a later test refused. Those
    /// locks alone go, so that the locks are as before [`LockTable::ask`], by [`laws`](crate::laws); nothing
    /// changes if they were not held. It takes no memory, and time in proportion to the holders of the
    /// objects.
    pub fn take_out(&mut self, txn: TxnNo, asks: &Asks, fresh: Fresh)
        ensures taken { held_of self.new ≡ without_locks (held_of self.old) txn (fresh_in asks.now fresh) }
        ensures together { AreTogether (held_of self.new) }
    {
        // what is held is together, by the invariant of the fields
        let _ = &self.objects;
        // the last that was granted goes first, so that both leave the notes
        if fresh.object {
            self.take_out_one(txn, &asks.object, asks.mode);
        }
        self.take_out_intent(txn, asks.intent, fresh.intent);
    }

    // The lock of a relation for an intent goes, if it is fresh.
    fn take_out_intent(&mut self, txn: TxnNo, intent: Option<RelNo>, fresh: bool)
        requires { AreTogether (held_of self.old) }
        ensures taken { held_of self.new ≡ without_locks (held_of self.old) txn (cond fresh (intents intent) []) }
        ensures together { AreTogether (held_of self.new) }
    {
        match intent {
            Some(relation) if fresh => {
                self.take_out_one(txn, &Object::Relation(relation), LockMode::Intend)
            }
            _ => {}
        }
    }

    // One lock goes, if it was held.
    fn take_out_one(&mut self, txn: TxnNo, object: &Object, mode: LockMode)
        ensures taken { held_of self.new ≡ without_lock (held_of self.old) txn object.now mode }
        ensures together { AreTogether (held_of self.new) }
    {
        self.objects.remove(txn, object, mode);
        if self.notes.ends_with(txn, object, mode) {
            self.notes.drop_last(txn);
        }
    }

    /// All locks of a transaction go, and no other's. It takes no memory, and time in proportion to those
    /// locks and the other holders of their objects.
    pub fn release(&mut self, txn: TxnNo)
        ensures released { held_of self.new ≡ without_holder (held_of self.old) txn }
        ensures together { AreTogether (held_of self.new) }
    {
        let locks = self.notes.take(txn);
        self.objects.remove_all(txn, locks.as_slice());
    }
}

// Which objects are locked, each with its holders. `table` changes it and `notes` together.
ghost use Rattle.std.specs.Prelude.{◌≡◌, IfSome, OnOk, OnErr, None, true};
ghost use Rattle.std.specs.Map.{lookup};
ghost use Rattle.mt_model.specs.Model.{same_object};
ghost use Rattle.mt_model.specs.Locks.{no_locks, with_lock, without_lock, without_locks};
ghost use Rattle.mt_slock.specs.Standings.{Stands, StandsIntent, Stand};
ghost use Rattle.mt_slock.specs.Views.{held_of, HasNoIdle, IsAlone};

use crate::holders::{Holder, Holders};
use crate::standings::{Standing, Standings};
use indexmap::IndexMap;
use mt_base::{LockMode, RelNo, TxnNo};
use mt_model::{Asks, Lock, Object};
use std::alloc::{AllocError, Global};
use std::marker::Model;

/// The objects that are locked, each with its holders in order of grant.
#[derive(Drop)]
pub(crate) struct LockedObjects {
    alloc: Global,
    holders: IndexMap<Object, Holders>,
}

impl Model for LockedObjects {
    ghost use Rattle.std.specs.Prelude.{List};
    ghost use Rattle.mt_model.specs.declared.objects.Object.{Object};
    ghost use Rattle.mt_slock.specs.declared.holders.Holder.{Holder};

    ghost Value = { List (Object × List Holder) };

    ghost view = { λ l. l.holders.entries };
}

impl LockedObjects {
    /// No objects.
    pub(crate) fn new(alloc: Global) -> LockedObjects
        ensures held { held_of result ≡ no_locks }
        ensures idle { HasNoIdle result }
    {
        LockedObjects {
            alloc,
            holders: IndexMap::new(alloc),
        }
    }

    /// Whether a transaction holds an object in a mode.
    pub(crate) fn has(&self, txn: TxnNo, object: &Object, mode: LockMode) -> bool
        ensures { result ≡ held_of self.now txn object.now mode }
    {
        match self.holders.get(object) {
            Some(holders) => holders.has(txn, mode),
            None => false,
        }
    }

    /// How what a transaction asks for is held.
    pub(crate) fn standings(&self, txn: TxnNo, asks: &Asks) -> Standings
        ensures { Stand self.now txn asks.now result }
    {
        Standings {
            intent: self.standing_of_intent(txn, asks.intent),
            object: self.standing(txn, &asks.object, asks.mode),
        }
    }

    // How a relation is held, for a transaction that intends to write a row of it, if there is one.
    fn standing_of_intent(&self, txn: TxnNo, intent: Option<RelNo>) -> Standing
        ensures { StandsIntent self.now txn intent result }
    {
        match intent {
            Some(relation) => self.standing(txn, &Object::Relation(relation), LockMode::Intend),
            None => Standing {
                bar: None,
                fresh: false,
                alone: false,
            },
        }
    }

    // How an object is held, for a transaction that asks for it in this mode.
    fn standing(&self, txn: TxnNo, object: &Object, mode: LockMode) -> Standing
        ensures { Stands self.now txn object.now mode result }
    {
        match self.holders.get(object) {
            Some(holders) => Standing {
                bar: holders.barring(txn, mode),
                fresh: !holders.has(txn, mode),
                alone: false,
            },
            None => Standing {
                bar: None,
                fresh: true,
                alone: true,
            },
        }
    }

    /// One lock more. The only error is want of memory.
    pub(crate) fn add(
        &mut self,
        txn: TxnNo,
        object: Object,
        mode: LockMode,
    ) -> Result<(), AllocError>
        ensures added { OnOk result (held_of self.new ≡ with_lock (held_of self.old) txn object mode) }
        ensures err { OnErr result (held_of self.new ≡ held_of self.old) }
        ensures idle { HasNoIdle self.old → HasNoIdle self.new }
    {
        let holder = Holder { txn, mode };
        match self.holders.get_mut(&object) {
            Some(holders) => holders.add(holder),
            None => {
                let holders = Holders::one(self.alloc, holder);
                self.holders.insert(object, holders)?;
                Ok(())
            }
        }
    }

    // One lock more, on an object that nobody holds.
    fn add_first(&mut self, txn: TxnNo, object: Object, mode: LockMode) -> Result<(), AllocError>
        requires { lookup (same_object object) self.old ≡ None }
        ensures added { OnOk result (held_of self.new ≡ with_lock (held_of self.old) txn object mode) }
        ensures err { OnErr result (held_of self.new ≡ held_of self.old) }
        ensures idle { HasNoIdle self.old → HasNoIdle self.new }
    {
        let holders = Holders::one(self.alloc, Holder { txn, mode });
        self.holders.insert(object, holders)?;
        Ok(())
    }

    /// One lock more, on an object that nobody holds if `alone` is set. The only error is want of memory.
    pub(crate) fn put(
        &mut self,
        txn: TxnNo,
        object: Object,
        mode: LockMode,
        alone: bool,
    ) -> Result<(), AllocError>
        requires { alone ≡ true → lookup (same_object object) self.old ≡ None }
        ensures added { OnOk result (held_of self.new ≡ with_lock (held_of self.old) txn object mode) }
        ensures err { OnErr result (held_of self.new ≡ held_of self.old) }
        ensures idle { HasNoIdle self.old → HasNoIdle self.new }
    {
        if alone {
            self.add_first(txn, object, mode)
        } else {
            self.add(txn, object, mode)
        }
    }

    // The place of an object that nobody holds but this transaction in this mode.
    fn place_alone(&self, txn: TxnNo, object: &Object, mode: LockMode) -> Option<usize>
        ensures { IfSome result (IsAlone self.now txn object.now mode) }
    {
        let (place, _object, holders) = self.holders.get_full(object)?;
        if holders.ends_without(txn, mode) {
            Some(place)
        } else {
            None
        }
    }

    /// One lock less, if it was held. An object that nobody holds any more goes.
    pub(crate) fn remove(&mut self, txn: TxnNo, object: &Object, mode: LockMode)
        ensures removed { held_of self.new ≡ without_lock (held_of self.old) txn object.now mode }
        ensures idle { HasNoIdle self.old → HasNoIdle self.new }
    {
        match self.place_alone(txn, object, mode) {
            Some(place) => drop(self.holders.swap_remove_index(place)),
            None => self.remove_beside(txn, object, mode),
        }
    }

    // One lock less, if it was held, on an object that others may hold.
    fn remove_beside(&mut self, txn: TxnNo, object: &Object, mode: LockMode)
        ensures removed { held_of self.new ≡ without_lock (held_of self.old) txn object.now mode }
        ensures idle { HasNoIdle self.old → HasNoIdle self.new }
    {
        let Some(holders) = self.holders.get_mut(object) else {
            return;
        };
        holders.remove(txn, mode);
        if holders.is_empty() {
            drop(self.holders.swap_remove(object));
        }
    }

    /// These locks of a transaction less, those of them that were held.
    pub(crate) fn remove_all(&mut self, txn: TxnNo, locks: &[Lock])
        ensures removed { held_of self.new ≡ without_locks (held_of self.old) txn locks.now }
        ensures idle { HasNoIdle self.old → HasNoIdle self.new }
    {
        for lock in locks {
            self.remove(txn, &lock.object, lock.mode);
        }
    }
}

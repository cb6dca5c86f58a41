// Which locks each transaction has, by which they are dropped at its end.
ghost use Rattle.std.specs.Prelude.{◌≡◌, ◌&&◌, ◌++◌, ◌∷◌, [], ◌↔◌, IsTrue, IfOk, OnOk, OnErr};
ghost use Rattle.mt_model.specs.Model.{same_object};
ghost use Rattle.mt_model.specs.Locks.{same_mode};
ghost use Rattle.mt_slock.specs.Noted.{front, notes_of, EndsWith, no_notes, with_note, without_last, without_notes};

use indexmap::IndexMap;
use mt_base::{LockMode, TxnNo};
use mt_model::{Lock, Object};
use std::alloc::{AllocError, Global};
use std::marker::Model;

// Whether a lock is on this object, in this mode.
fn is_on(lock: &Lock, object: &Object, mode: LockMode) -> bool
    ensures { result ≡ (same_object lock.now.object object.now && same_mode lock.now.mode mode) }
{
    lock.object == *object && lock.mode == mode
}

// A copy of an object. The only error is want of memory.
fn copy_of(object: &Object) -> Result<Object, AllocError>
    ensures { IfOk result (λ copy. copy ≡ object.now) }
{
    match object {
        Object::Key(relation, key) => Ok(Object::Key(*relation, key.try_clone()?)),
        Object::Counter(counter) => Ok(Object::Counter(*counter)),
        Object::Relation(relation) => Ok(Object::Relation(*relation)),
    }
}

/// The locks of one transaction, in order of grant.
#[derive(Debug, Drop)]
pub(crate) struct LockList {
    list: Vec<Lock>,
}

impl Model for LockList {
    ghost use Rattle.std.specs.Prelude.{List};
    ghost use Rattle.mt_model.specs.declared.objects.Lock.{Lock};

    ghost Value = { List Lock };

    ghost view = { λ l. l.list.items };
}

impl LockList {
    /// No locks.
    pub(crate) fn new(alloc: Global) -> LockList
        ensures { result ≡ [] }
    {
        LockList {
            list: Vec::new(alloc),
        }
    }

    /// One lock more, last. The only error is want of memory.
    pub(crate) fn push(&mut self, lock: Lock) -> Result<(), AllocError>
        ensures added { OnOk result (self.new ≡ self.old ++ lock ∷ []) }
        ensures err { OnErr result (self.new ≡ self.old) }
    {
        self.list.push(lock)?;
        Ok(())
    }

    /// The last one goes.
    pub(crate) fn pop(&mut self)
        ensures { self.new ≡ front self.old }
    {
        self.list.pop();
    }

    /// Whether this lock is the last.
    pub(crate) fn ends_with(&self, object: &Object, mode: LockMode) -> bool
        ensures { IsTrue result ↔ EndsWith self.now object.now mode }
    {
        match self.list.last() {
            Some(lock) => is_on(lock, object, mode),
            None => false,
        }
    }

    /// The locks, lent.
    pub(crate) fn as_slice(&self) -> &[Lock]
        ensures { result.now ≡ self.now }
    {
        self.list.as_slice()
    }
}

/// The locks that each transaction holds, in order of grant, by which they are found when it ends.
#[derive(Drop)]
pub(crate) struct Notes {
    alloc: Global,
    locks: IndexMap<TxnNo, LockList>,
}

impl Model for Notes {
    ghost use Rattle.std.specs.Prelude.{ℕ, List};
    ghost use Rattle.mt_model.specs.declared.objects.Lock.{Lock};

    ghost Value = { List (ℕ × List Lock) };

    ghost view = { λ n. n.locks.entries };
}

impl Notes {
    /// No notes.
    pub(crate) fn new(alloc: Global) -> Notes
        ensures { notes_of result ≡ no_notes }
    {
        Notes {
            alloc,
            locks: IndexMap::new(alloc),
        }
    }

    /// Notes a lock, the last of its transaction. The only error is want of memory.
    pub(crate) fn add(
        &mut self,
        txn: TxnNo,
        object: &Object,
        mode: LockMode,
    ) -> Result<(), AllocError>
        ensures added { OnOk result (notes_of self.new ≡ with_note (notes_of self.old) txn object.now mode) }
        ensures err { OnErr result (notes_of self.new ≡ notes_of self.old) }
    {
        let object = copy_of(object)?;
        let lock = Lock { object, mode };
        match self.locks.get_mut(&txn) {
            Some(locks) => locks.push(lock),
            None => {
                let mut locks = LockList::new(self.alloc);
                locks.push(lock)?;
                self.locks.insert(txn, locks)?;
                Ok(())
            }
        }
    }

    /// Whether this lock is the last that is noted of a transaction.
    pub(crate) fn ends_with(&self, txn: TxnNo, object: &Object, mode: LockMode) -> bool
        ensures { IsTrue result ↔ EndsWith (notes_of self.now txn) object.now mode }
    {
        match self.locks.get(&txn) {
            Some(locks) => locks.ends_with(object, mode),
            None => false,
        }
    }

    /// The last lock of a transaction is noted no more.
    pub(crate) fn drop_last(&mut self, txn: TxnNo)
        ensures { notes_of self.new ≡ without_last (notes_of self.old) txn }
    {
        if let Some(locks) = self.locks.get_mut(&txn) {
            locks.pop();
        }
    }

    /// Takes what is noted of a transaction.
    pub(crate) fn take(&mut self, txn: TxnNo) -> LockList
        ensures locks { result ≡ notes_of self.old txn }
        ensures rest { notes_of self.new ≡ without_notes (notes_of self.old) txn }
    {
        match self.locks.swap_remove(&txn) {
            Some(locks) => locks,
            None => LockList::new(self.alloc),
        }
    }
}

// What an operation is on, a key, a counter or a relation, and which locks a transaction asks for it. mt_slock goes by
// these.
ghost use Rattle.std.specs.Prelude.{◌≡◌, IfOk};
ghost use Rattle.mt_model.specs.Model.{asks_of};

use crate::Op;
use mt_base::{Bytes, CtrNo, LockMode, RelNo};
use std::alloc::AllocError;

/// What a transaction locks: the row of a relation under a key, there or not, a counter, or a relation as a whole.
#[derive(PartialEq, Eq, Hash, Debug, Drop)]
pub enum Object {
    /// The row of a relation under a key.
    Key(RelNo, Bytes),
    /// A counter.
    Counter(CtrNo),
    /// All rows of a relation.
    Relation(RelNo),
}

/// A lock: an object, and the mode in which it is held.
#[derive(PartialEq, Eq, Debug, Drop)]
pub struct Lock {
    pub object: Object,
    pub mode: LockMode,
}

/// The locks that a transaction asks for at once, before an operation: of what the operation is on, and, if it writes a
/// row, of the row's relation with intent.
#[derive(PartialEq, Eq, Debug, Drop)]
pub struct Asks {
    /// The relation in which a row is to be written, if one is.
    pub intent: Option<RelNo>,
    /// What the operation is on.
    pub object: Object,
    /// The mode in which that is locked.
    pub mode: LockMode,
}

impl Op {
    /// The locks that a transaction asks for before this operation. The only error is want of memory.
    pub fn asks(&self) -> Result<Asks, AllocError>
        ensures { IfOk result (λ asks. asks ≡ asks_of self.now) }
    {
        match self {
            Op::Get(relation, key) => Ok(Asks {
                intent: None,
                object: Object::Key(*relation, key.try_clone()?),
                mode: LockMode::Read,
            }),
            Op::Insert(relation, key, _)
            | Op::Update(relation, key, _)
            | Op::Delete(relation, key) => Ok(Asks {
                intent: Some(*relation),
                object: Object::Key(*relation, key.try_clone()?),
                mode: LockMode::Write,
            }),
            Op::Add(counter, _) => Ok(Asks {
                intent: None,
                object: Object::Counter(*counter),
                mode: LockMode::Add,
            }),
            Op::Read(counter) => Ok(Asks {
                intent: None,
                object: Object::Counter(*counter),
                mode: LockMode::Read,
            }),
            Op::Scan(relation) => Ok(Asks {
                intent: None,
                object: Object::Relation(*relation),
                mode: LockMode::Read,
            }),
        }
    }

    /// The same locks, of an operation that is spent. It takes no memory.
    pub fn into_asks(self) -> Asks
        ensures { result ≡ asks_of self }
    {
        let (intent, object, mode) = match self {
            Op::Get(relation, key) => (None, Object::Key(relation, key), LockMode::Read),
            Op::Insert(relation, key, _value) | Op::Update(relation, key, _value) => {
                (Some(relation), Object::Key(relation, key), LockMode::Write)
            }
            Op::Delete(relation, key) => (
                Some(relation),
                Object::Key(relation, key),
                LockMode::Write,
            ),
            Op::Add(counter, _) => (None, Object::Counter(counter), LockMode::Add),
            Op::Read(counter) => (None, Object::Counter(counter), LockMode::Read),
            Op::Scan(relation) => (None, Object::Relation(relation), LockMode::Read),
        };
        Asks {
            intent,
            object,
            mode,
        }
    }
}

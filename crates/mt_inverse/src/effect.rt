// What an operation did, with what it is made of lent. The inverse is read off it.
ghost use Rattle.std.specs.Prelude.{◌≡◌, ◌↔◌, None, Some, IfNone, IfOk, IfSome, IsTrue};
ghost use Rattle.mt_model.specs.Backwards.{call_back};
ghost use Rattle.mt_model.specs.Model.{inverse_of};

use mt_base::{Bytes, CtrNo, RelNo};
use mt_model::{Op, Reply};
use std::alloc::AllocError;

/// What an operation did, and what it took away. Keys and values are lent.
#[derive(Clone, Copy)]
pub enum Effect<'a> {
    /// The key was put into the relation with this value.
    Inserted {
        relation: RelNo,
        key: &'a Bytes,
        value: &'a Bytes,
    },
    /// The key's value, which was `old`, was replaced.
    Updated {
        relation: RelNo,
        key: &'a Bytes,
        value: &'a Bytes,
        old: &'a Bytes,
    },
    /// The key, whose value was `old`, was taken out.
    Deleted {
        relation: RelNo,
        key: &'a Bytes,
        old: &'a Bytes,
    },
    /// The step was added to the counter.
    Added {
        counter: CtrNo,
        step: i64,
    },
}

impl<'a> Effect<'a> {
    ghost use Rattle.mt_inverse.specs.Effects.{op_with, reply_with, reply_back};
    ghost use Rattle.mt_inverse.specs.Steps.{IsWithinSteps};

    /// What the operation did, if it replied this. `None` if it did nothing. That is a read, an insert on a key that
    /// was there, or an update or a delete on one that was not.
    pub fn of(op: &'a Op, reply: &'a Reply) -> Option<Effect<'a>>
        ensures some { IfSome result (λ effect. (op.now ≡ op_with effect) × (reply.now ≡ reply_with effect)) }
        ensures none { IfNone result (inverse_of op.now reply.now ≡ None) }
    {
        match (op, reply) {
            (Op::Insert(relation, key, value), Reply::Done) => Some(Effect::Inserted {
                relation: *relation,
                key,
                value,
            }),
            (Op::Update(relation, key, value), Reply::Was(old)) => Some(Effect::Updated {
                relation: *relation,
                key,
                value,
                old,
            }),
            (Op::Delete(relation, key), Reply::Was(old)) => Some(Effect::Deleted {
                relation: *relation,
                key,
                old,
            }),
            (Op::Add(counter, step), Reply::Done) => Some(Effect::Added {
                counter: *counter,
                step: *step,
            }),
            _ => None,
        }
    }

    /// The effect of the operation that takes this one back (Weikum 1991). A delete takes back an insert. Putting the
    /// old value back takes back an update or a delete, and the opposite step an add.
    pub fn reversed(&self) -> Effect<'a>
        requires { IsWithinSteps (op_with self.now) }
        ensures inverse { inverse_of (op_with self.now) (reply_with self.now) ≡ Some (op_with result) }
        ensures reply { reply_with result ≡ reply_back self.now }
    {
        match *self {
            Effect::Inserted {
                relation,
                key,
                value,
            } => Effect::Deleted {
                relation,
                key,
                old: value,
            },
            Effect::Updated {
                relation,
                key,
                value,
                old,
            } => Effect::Updated {
                relation,
                key,
                value: old,
                old: value,
            },
            Effect::Deleted { relation, key, old } => Effect::Inserted {
                relation,
                key,
                value: old,
            },
            Effect::Added { counter, step } => Effect::Added {
                counter,
                step: -step,
            },
        }
    }

    // The operation that has this effect. The only error is want of memory.
    fn op(&self) -> Result<Op, AllocError>
        ensures { IfOk result (λ op. op ≡ op_with self.now) }
    {
        match *self {
            Effect::Inserted {
                relation,
                key,
                value,
            } => {
                let key = key.try_clone()?;
                Ok(Op::Insert(relation, key, value.try_clone()?))
            }
            Effect::Updated {
                relation,
                key,
                value,
                ..
            } => {
                let key = key.try_clone()?;
                Ok(Op::Update(relation, key, value.try_clone()?))
            }
            Effect::Deleted { relation, key, .. } => Ok(Op::Delete(relation, key.try_clone()?)),
            Effect::Added { counter, step } => Ok(Op::Add(counter, step)),
        }
    }

    /// The operation that takes this effect back, as [`Effect::reversed`] says. The only error is want of memory.
    pub fn inverse(&self) -> Result<Op, AllocError>
        requires { IsWithinSteps (op_with self.now) }
        ensures { IfOk result (λ op. inverse_of (op_with self.now) (reply_with self.now) ≡ Some op) }
    {
        self.reversed().op()
    }

    // What the operation that has this effect replied. The only error is want of memory.
    fn reply(&self) -> Result<Reply, AllocError>
        ensures { IfOk result (λ reply. reply ≡ reply_with self.now) }
    {
        match *self {
            Effect::Inserted { .. } => Ok(Reply::Done),
            Effect::Updated { old, .. } => Ok(Reply::Was(old.try_clone()?)),
            Effect::Deleted { old, .. } => Ok(Reply::Was(old.try_clone()?)),
            Effect::Added { .. } => Ok(Reply::Done),
        }
    }

    /// The call that takes this effect back: its inverse, with what that replies if it finds what the effect left. The
    /// only error is want of memory.
    pub fn call_back(&self) -> Result<(Op, Reply), AllocError>
        requires { IsWithinSteps (op_with self.now) }
        ensures { IfOk result (λ back. call_back (op_with self.now, reply_with self.now) ≡ Some back) }
    {
        let back = self.reversed();
        let op = back.op()?;
        Ok((op, back.reply()?))
    }

    /// Whether the inverse of this effect, if it replied this, found what the effect had left.
    pub fn is_taken_back_by(&self, reply: &Reply) -> bool
        ensures { IsTrue result ↔ (reply.now ≡ reply_back self.now) }
    {
        match (self, reply) {
            (Effect::Inserted { value, .. }, Reply::Was(found)) => found.as_slice()
                == value.as_slice(),
            (Effect::Updated { value, .. }, Reply::Was(found)) => found.as_slice()
                == value.as_slice(),
            (Effect::Deleted { .. }, Reply::Done) => true,
            (Effect::Added { .. }, Reply::Done) => true,
            _ => false,
        }
    }
}

// What is logged of an operation at its end: all that its inverse needs, and nothing if it has no effect.
ghost use Rattle.std.specs.Prelude.{◌≡◌, ◌≤◌, ℕ, Some, IfOk, IfErr, IfSome};
ghost use Rattle.mt_base.specs.declared.limits.TheConstants.{MAX_COUNTERS, MAX_RELATIONS};
ghost use Rattle.mt_base.specs.declared.refusal.Refusal.{Refusal};
ghost use Rattle.mt_frame.specs.Grammar.{IsOperation};
ghost use Rattle.mt_inverse.specs.Effects.{op_with, reply_with};
ghost use Rattle.mt_model.specs.Model.{IsWithin};
ghost use Rattle.mt_steps.specs.Logged.{logged_of, HasSmallReply};

use mt_base::Refusal;
use mt_frame::LoggedOp;
use mt_inverse::Effect;
use mt_model::{Op, Reply};
use std::alloc::AllocError;

/// What is logged of an operation that replied this: nothing if it did nothing.
pub fn logged(op: &Op, reply: &Reply) -> Result<Option<LoggedOp>, Refusal>
    ensures logged { IfOk result (λ done. done ≡ logged_of op.now reply.now) }
    ensures operation { (relations counters : ℕ) → relations ≤ MAX_RELATIONS → counters ≤ MAX_COUNTERS →
        IsWithin relations counters op.now → HasSmallReply reply.now → IfOk result (λ done. IfSome done IsOperation) }
    ensures only_memory { IfErr result (λ why. why ≡ Refusal.NoMemory) }
{
    match Effect::of(op, reply) {
        Some(effect) => Ok(Some(as_logged(&effect)?)),
        None => Ok(None),
    }
}

// What is logged of an effect: copies of all that it lends.
fn as_logged(effect: &Effect<'_>) -> Result<LoggedOp, AllocError>
    ensures { IfOk result (λ done. logged_of (op_with effect.now) (reply_with effect.now) ≡ Some done) }
{
    match *effect {
        Effect::Inserted {
            relation,
            key,
            value,
        } => Ok(LoggedOp::Insert {
            relation,
            key: key.try_clone()?,
            value: value.try_clone()?,
        }),
        Effect::Updated {
            relation,
            key,
            value,
            old,
        } => Ok(LoggedOp::Update {
            relation,
            key: key.try_clone()?,
            value: value.try_clone()?,
            old: old.try_clone()?,
        }),
        Effect::Deleted { relation, key, old } => Ok(LoggedOp::Delete {
            relation,
            key: key.try_clone()?,
            old: old.try_clone()?,
        }),
        Effect::Added { counter, step } => Ok(LoggedOp::Add { counter, step }),
    }
}

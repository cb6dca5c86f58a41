//! The operation that takes back what another did (Weikum 1991). An abort does not put old pages back; it makes the
//! inverses of its operations, the last one first.
//!
//! An inverse is chosen by the operation and its reply alone, so nothing else is kept for it. What it leads
//! to is a law of the model, `inverses_take_back` of `mt_model`.
#![tactic(auto)]

mod effect;

ghost use Rattle.std.specs.Prelude.{◌≡◌, IfOk, IfErr, is_some};
ghost use Rattle.mt_base.specs.declared.refusal.Refusal.{Refusal};
ghost use Rattle.mt_model.specs.Backwards.{call_back as back};
ghost use Rattle.mt_model.specs.Model.{inverse_of as inverse};
ghost use Rattle.mt_inverse.specs.Steps.{IsWithinSteps};

pub use effect::Effect;
use mt_base::Refusal;
use mt_model::{Op, Reply};
use std::alloc::AllocError;

/// Whether an operation that replied this did anything: if and only if it has an inverse.
pub fn has_effect(op: &Op, reply: &Reply) -> bool
    ensures { result ≡ is_some (inverse op.now reply.now) }
{
    Effect::of(op, reply).is_some()
}

/// The operation that takes back what this one did, if it replied this. It takes an insert back by a delete, an
/// update or a delete by putting the old value back, an add by the opposite step. `None` if it did nothing (Weikum
/// 1991). That is a read, an insert on a key that was there, or an update or a delete on one that was not.
///
/// The only refusal is [`Refusal::NoMemory`].
pub fn inverse_of(op: &Op, reply: &Reply) -> Result<Option<Op>, Refusal>
    requires { IsWithinSteps op.now }
    ensures inverse { IfOk result (λ inverse_op. inverse_op ≡ inverse op.now reply.now) }
    ensures only_memory { IfErr result (λ why. why ≡ Refusal.NoMemory) }
{
    match Effect::of(op, reply) {
        Some(effect) => Ok(Some(effect.inverse()?)),
        None => Ok(None),
    }
}

/// The call that takes this one back: its inverse, with what that replies if it finds what this one left. `None` if
/// this one did nothing, as [`inverse_of`] says.
///
/// The only error is want of memory.
pub fn call_back(op: &Op, reply: &Reply) -> Result<Option<(Op, Reply)>, AllocError>
    requires { IsWithinSteps op.now }
    ensures { IfOk result (λ call. call ≡ back (op.now, reply.now)) }
{
    match Effect::of(op, reply) {
        Some(effect) => Ok(Some(effect.call_back()?)),
        None => Ok(None),
    }
}

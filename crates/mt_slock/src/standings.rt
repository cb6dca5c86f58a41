// How locks stand that a transaction asks for: who is in the way, and which of them it does not hold yet.
ghost use Rattle.std.specs.Prelude.{◌≡◌, ℕ, List, MatchOption};
ghost use Rattle.mt_model.specs.Model.{locks_in};
ghost use Rattle.mt_model.specs.Locks.{AreAllFree, IsLeastBarOf};
ghost use Rattle.mt_model.specs.declared.objects.Asks.{Asks};
ghost use Rattle.mt_model.specs.declared.objects.Object.{Object};
ghost use Rattle.mt_slock.specs.Answers.{MarksFresh};
ghost use Rattle.mt_slock.specs.Standings.{Stand};
ghost use Rattle.mt_slock.specs.Views.{held_of, oldest_of};
ghost use Rattle.mt_slock.specs.declared.holders.Holder.{Holder};

use crate::holders::older;
use crate::table::Fresh;
use mt_base::TxnNo;

/// How an object is held, for a transaction that asks for it in a mode.
#[derive(Clone, Copy, Debug)]
pub(crate) struct Standing {
    /// The oldest of the other transactions that hold it in a mode that conflicts.
    pub(crate) bar: Option<TxnNo>,
    /// Whether the transaction does not hold it so itself.
    pub(crate) fresh: bool,
    /// Whether it has no entry, since nobody holds it.
    pub(crate) alone: bool,
}

/// How what a transaction asks for at once is held.
#[derive(Clone, Copy, Debug)]
pub(crate) struct Standings {
    /// The relation, for an intent. If there is none, nobody is in the way, and it is not fresh.
    pub(crate) intent: Standing,
    /// What the operation is on.
    pub(crate) object: Standing,
}

// The older of two transactions, if there are any.
fn oldest(one: Option<TxnNo>, other: Option<TxnNo>) -> Option<TxnNo>
    ensures { result ≡ oldest_of one other }
{
    match other {
        Some(second) => Some(older(one, second)),
        None => one,
    }
}

impl Standings {
    /// The oldest of those that are in the way of one of the locks.
    pub(crate) fn bar(&self) -> Option<TxnNo>
        ensures { (es : List (Object × List Holder)) (t : ℕ) (a : Asks) → Stand es t a self.now
            → MatchOption result (AreAllFree (held_of es) t (locks_in a)) (IsLeastBarOf (held_of es) t (locks_in a)) }
    {
        oldest(self.intent.bar, self.object.bar)
    }

    /// Which of the locks the transaction does not hold yet.
    pub(crate) fn fresh(&self) -> Fresh
        ensures { (es : List (Object × List Holder)) (t : ℕ) (a : Asks) → Stand es t a self.now
            → MarksFresh (held_of es) t a result }
    {
        Fresh {
            intent: self.intent.fresh,
            object: self.object.fresh,
        }
    }
}

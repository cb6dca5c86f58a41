// Why calls are refused before the core is asked for locks, adds, pages and log bytes. Nothing changes here.
ghost use Rattle.std.specs.Prelude.{◌≡◌, ◌≢◌, ◌<◌, ◌≤◌, ◌^◌, All, IfErr, IfNone, IfOk, IfSome, OnOk, None, Some, false, filter, length, true};
ghost use Rattle.mt_base.specs.declared.limits.TheConstants.{MAX_BEGUN, MAX_OPERATIONS};
ghost use Rattle.mt_op.specs.declared.scope.OpScope.{OpScope};
ghost use Rattle.mt_live.specs.declared.transactions.TxnState.TheVariants.{Open, Returning, Aborting};
ghost use Rattle.mt_live.specs.Lives.{calls_of, member_of};
ghost use Rattle.mt_live.specs.Machine.{State};
ghost use Rattle.mt_live.specs.Members.{forward_count};
ghost use Rattle.mt_live.specs.Undoing.{is_counted};
ghost use Rattle.mt_model.specs.Model.{Base};
ghost use Rattle.mt_base.specs.declared.refusal.Refusal.TheVariants.{BadSavepoint};
ghost use Rattle.mt_txn.specs.Shown.{Shows};
ghost use Rattle.mt_core.specs.Runs.{is_working};
ghost use Rattle.mt_txn.specs.Causes.{IsNamed, IsSized, abort_cause, call_cause, count_cause, name_cause, open_cause, size_cause};
ghost use Rattle.mt_txn.specs.Words.{kernel_state, kernel_count, kernel_members, kernel_running, kernel_call_cause, kernel_commit_cause, kernel_open_cause, kernel_abort_begin_cause, kernel_abort_cause, kernel_back_cause, kernel_return_cause};
ghost use Rattle.mt_core.specs.Seen.{core_last};

use crate::kernel::Kernel;
use mt_base::limits::{MAX_BEGUN, MAX_OPERATIONS, key_fits, step_fits, value_fits};
use mt_base::{Refusal, TxnNo};
use mt_disk::Device;
use mt_live::TxnState;
use mt_model::Op;

// Why a key, a value or a step is past its limits, if one is.
fn size_cause(op: &Op) -> Option<Refusal>
    ensures cause { result ≡ size_cause op.now }
    ensures sized { IfNone result (IsSized op.now) }
{
    match op {
        Op::Get(_, key) | Op::Delete(_, key) if !key_fits(key.as_slice()) => Some(
            Refusal::BadLength,
        ),
        Op::Insert(_, key, value) | Op::Update(_, key, value)
            if !key_fits(key.as_slice()) || !value_fits(value.as_slice()) => {
            Some(Refusal::BadLength)
        }
        Op::Add(_, step) if !step_fits(*step) => Some(Refusal::BadStep),
        _ => None,
    }
}

// Why the operation names no relation or counter of so many, if it names none.
fn name_cause(relations: u16, counters: u16, op: &Op) -> Option<Refusal>
    ensures cause { result ≡ name_cause relations counters op.now }
    ensures named { IfNone result (IsNamed relations counters op.now) }
{
    match op {
        Op::Get(relation, _)
        | Op::Insert(relation, _, _)
        | Op::Update(relation, _, _)
        | Op::Delete(relation, _)
        | Op::Scan(relation) => {
            if relation.get() < relations {
                None
            } else {
                Some(Refusal::NoSuchRelation)
            }
        }
        Op::Add(counter, _) | Op::Read(counter) => {
            if counter.get() < counters {
                None
            } else {
                Some(Refusal::NoSuchCounter)
            }
        }
    }
}

impl<D: Device> Kernel<D> {
    // Why a call that wants an open transaction is refused, if it is.
    pub(crate) fn open_cause(&self, txn: TxnNo) -> Option<Refusal>
        ensures cause { result ≡ kernel_open_cause self.now txn }
        ensures opened { IfNone result (kernel_state self.now txn ≡ Some Open) }
    {
        if self.has_failed() {
            return Some(Refusal::DeviceFailed);
        }
        match self.core.live().state(txn) {
            Some(TxnState::Open) => None,
            _ => Some(Refusal::Stranger),
        }
    }

    // Why a commit is refused, if it is. A call is refused for these causes first.
    pub(crate) fn commit_cause(&self, txn: TxnNo) -> Option<Refusal>
        ensures cause { result ≡ kernel_commit_cause self.now txn }
        ensures opened { IfNone result (kernel_state self.now txn ≡ Some Open) }
        ensures idle { IfNone result (All (λ (r : OpScope). r.txn ≢ txn) (kernel_running self.now)) }
    {
        if let Some(why) = self.open_cause(txn) {
            return Some(why);
        }
        if self.core.place_of(txn).is_some() {
            return Some(Refusal::Busy);
        }
        None
    }

    // Why the beginning of an abort is refused, if it is.
    pub(crate) fn abort_begin_cause(&self, txn: TxnNo) -> Option<Refusal>
        ensures cause { result ≡ kernel_abort_begin_cause self.now txn }
        ensures at_work { IfNone result (is_working (member_of (kernel_members self.now) txn) ≡ true) }
    {
        if self.has_failed() {
            return Some(Refusal::DeviceFailed);
        }
        match self.core.live().state(txn) {
            Some(TxnState::Open) | Some(TxnState::Returning(_)) => None,
            _ => Some(Refusal::Stranger),
        }
    }

    // To how many of its operations a transaction goes back; or why a step of that is refused.
    pub(crate) fn returning(&self, txn: TxnNo) -> Result<u16, Refusal>
        ensures first { IfOk result (λ first. kernel_state self.now txn ≡ Some (Returning first)) }
        ensures may { OnOk result (kernel_return_cause self.now txn ≡ None) }
        ensures cause { IfErr result (λ why. kernel_return_cause self.now txn ≡ Some why) }
    {
        if self.has_failed() {
            return Err(Refusal::DeviceFailed);
        }
        match self.core.live().state(txn) {
            Some(TxnState::Returning(first)) => Ok(first),
            _ => Err(Refusal::Stranger),
        }
    }

    // Why a transaction cannot go back to so many of its operations, if it cannot.
    pub(crate) fn back_cause(&self, txn: TxnNo, first: u16) -> Option<Refusal>
        ensures cause { result ≡ kernel_back_cause self.now txn first }
        ensures opened { IfNone result (kernel_state self.now txn ≡ Some Open) }
        ensures idle { IfNone result (All (λ (r : OpScope). r.txn ≢ txn) (kernel_running self.now)) }
        ensures few { IfNone result (IfSome (kernel_count self.now txn) (λ count. first ≤ count)) }
        ensures enough { (base : Base) (s : State) → Shows base s self.now
            → IfNone result (first ≤ length (filter (is_counted txn) s.standing)) }
        ensures fewer { (base : Base) (s : State) → Shows base s self.now → result ≡ Some BadSavepoint
            → length (filter (is_counted txn) s.standing) < first }
    {
        if let Some(why) = self.commit_cause(txn) {
            return Some(why);
        }
        if usize::from(first) <= self.core.live().answered(txn) {
            None
        } else {
            Some(Refusal::BadSavepoint)
        }
    }

    // Why a step of an abort is refused, if it is.
    pub(crate) fn abort_cause(&self, txn: TxnNo) -> Option<Refusal>
        ensures cause { result ≡ kernel_abort_cause self.now txn }
        ensures aborting { IfNone result (kernel_state self.now txn ≡ Some Aborting) }
    {
        if self.has_failed() {
            return Some(Refusal::DeviceFailed);
        }
        match self.core.live().state(txn) {
            Some(TxnState::Aborting) => None,
            _ => Some(Refusal::Stranger),
        }
    }

    // Why an open transaction can call no further operation, if it cannot.
    fn count_cause(&self, txn: TxnNo) -> Option<Refusal>
        requires opened { kernel_state self.now txn ≡ Some Open }
        ensures cause { result ≡ count_cause self.now.core txn }
        ensures few { IfNone result (core_last self.now.core < MAX_BEGUN) }
        ensures counted { IfNone result
            (forward_count (calls_of (kernel_members self.now) txn) < MAX_OPERATIONS) }
    {
        if MAX_OPERATIONS <= self.core.live().count_ended(txn) || MAX_BEGUN <= self.core.last() {
            Some(Refusal::TooManyOperations)
        } else {
            None
        }
    }

    // Why a call is refused before its lock is asked for, if it is.
    pub(crate) fn call_cause(&self, txn: TxnNo, op: &Op) -> Option<Refusal>
        ensures cause { result ≡ kernel_call_cause self.now txn op.now }
        ensures opened { IfNone result (kernel_state self.now txn ≡ Some Open) }
        ensures idle { IfNone result (All (λ (r : OpScope). r.txn ≢ txn) (kernel_running self.now)) }
        ensures few { IfNone result (core_last self.now.core < MAX_BEGUN) }
        ensures counted { IfNone result
            (forward_count (calls_of (kernel_members self.now) txn) < MAX_OPERATIONS) }
        ensures named { IfNone result (IsNamed self.now.relations self.now.counters op.now) }
        ensures sized { IfNone result (IsSized op.now) }
    {
        if let Some(why) = self.commit_cause(txn) {
            return Some(why);
        }
        if let Some(why) = self.count_cause(txn) {
            return Some(why);
        }
        if let Some(why) = name_cause(self.relations, self.counters, op) {
            return Some(why);
        }
        size_cause(op)
    }
}

// Who holds one object, in order of grant, and who of them is in the way of a lock. Nobody waits here.
ghost use Rattle.std.specs.Prelude.{◌≡◌, ◌++◌, ◌∷◌, [], List, filter, not, OnOk, OnErr, MatchOption, IsTrue, ◌↔◌, ◌||◌};
ghost use Rattle.std.specs.Bool.{OnTrue};
ghost use Rattle.mt_slock.specs.Views.{is_holder, is_among, conflicts, in_order, least_of, IsUnbarred, IsOldestBar};
ghost use Rattle.mt_slock.specs.declared.holders.Holder.{Holder};

use mt_base::{LockMode, TxnNo};
use std::alloc::{AllocError, Global};
use std::marker::Model;

/// The older of the two, if there are two.
pub(crate) fn older(one: Option<TxnNo>, other: TxnNo) -> TxnNo
    ensures { result ≡ least_of one other }
{
    match one {
        Some(first) if first <= other => first,
        _ => other,
    }
}

/// A transaction that holds an object, and the mode in which it does.
#[derive(Clone, Copy, Debug)]
pub struct Holder {
    pub txn: TxnNo,
    pub mode: LockMode,
}

impl Holder {
    // Whether it is this transaction, in this mode.
    fn is(&self, txn: TxnNo, mode: LockMode) -> bool
        ensures { result ≡ is_holder txn mode self.now }
    {
        txn == self.txn && self.mode == mode
    }

    // Whether it is in the way of this transaction's lock in this mode.
    fn bars(&self, txn: TxnNo, mode: LockMode) -> bool
        ensures { result ≡ conflicts txn mode self.now.txn self.now.mode }
    {
        txn != self.txn && !self.mode.is_granted_with(mode)
    }
}

// The first holder, if it is in the way of this transaction's lock in this mode.
fn barred_by(first: Option<Holder>, txn: TxnNo, mode: LockMode) -> Option<TxnNo>
    ensures { MatchOption result (IsUnbarred (in_order first []) txn mode) (IsOldestBar (in_order first []) txn mode) }
{
    match first {
        Some(holder) if holder.bars(txn, mode) => Some(holder.txn),
        _ => None,
    }
}

// The oldest of the holders that is in the way of this transaction's lock in this mode.
fn oldest_bar(first: Option<Holder>, others: &[Holder], txn: TxnNo, mode: LockMode) -> Option<TxnNo>
    ensures { MatchOption result (IsUnbarred (in_order first others.now) txn mode)
        (IsOldestBar (in_order first others.now) txn mode) }
{
    let mut oldest = barred_by(first, txn, mode);
    for holder in others {
        if holder.bars(txn, mode) {
            oldest = Some(older(oldest, holder.txn));
        }
    }
    oldest
}

// Whether the first holder is this transaction, in this mode.
fn is_first(first: Option<Holder>, txn: TxnNo, mode: LockMode) -> bool
    ensures { (hs : List Holder) → is_among (in_order first hs) txn mode ≡ (result || is_among hs txn mode) }
{
    match first {
        Some(holder) => holder.is(txn, mode),
        None => false,
    }
}

// Whether a transaction is among these holders, in a mode.
fn is_in(holders: &[Holder], txn: TxnNo, mode: LockMode) -> bool
    ensures { result ≡ is_among holders.now txn mode }
{
    holders.iter().any(|holder| holder.is(txn, mode))
}

// The first holder, but for this transaction in this mode.
fn without(first: Option<Holder>, txn: TxnNo, mode: LockMode) -> Option<Holder>
    ensures { (hs : List Holder) → in_order result (filter (λ h. not (is_holder txn mode h)) hs)
        ≡ filter (λ h. not (is_holder txn mode h)) (in_order first hs) }
{
    match first {
        Some(holder) if !holder.is(txn, mode) => Some(holder),
        _ => None,
    }
}

/// The holders of one object, in order of grant. One alone takes no memory.
#[derive(Debug, Drop)]
pub(crate) struct Holders {
    // if it still holds the object
    first: Option<Holder>,
    others: Vec<Holder>,
}

impl Model for Holders {
    ghost use Rattle.std.specs.Prelude.{List};
    ghost use Rattle.mt_slock.specs.Views.{in_order};
    ghost use Rattle.mt_slock.specs.declared.holders.Holder.{Holder};

    ghost Value = { List Holder };

    ghost view = { λ h. in_order h.first h.others.items };
}

impl Holders {
    /// One holder. It takes no memory.
    pub(crate) fn one(alloc: Global, holder: Holder) -> Holders
        ensures { result ≡ holder ∷ [] }
    {
        Holders {
            first: Some(holder),
            others: Vec::new(alloc),
        }
    }

    /// Whether a transaction is among them, in a mode.
    pub(crate) fn has(&self, txn: TxnNo, mode: LockMode) -> bool
        ensures { result ≡ is_among self.now txn mode }
    {
        is_first(self.first, txn, mode) || is_in(&self.others, txn, mode)
    }

    /// The oldest of the other transactions among them that hold the object in a mode that conflicts with this
    /// one.
    pub(crate) fn barring(&self, txn: TxnNo, mode: LockMode) -> Option<TxnNo>
        ensures { MatchOption result (IsUnbarred self.now txn mode) (IsOldestBar self.now txn mode) }
    {
        oldest_bar(self.first, &self.others, txn, mode)
    }

    /// One holder more, last. The only error is want of memory.
    pub(crate) fn add(&mut self, holder: Holder) -> Result<(), AllocError>
        ensures added { OnOk result (self.new ≡ self.old ++ holder ∷ []) }
        ensures err { OnErr result (self.new ≡ self.old) }
    {
        self.others.push(holder)?;
        Ok(())
    }

    /// All but a transaction in a mode, in their order.
    pub(crate) fn remove(&mut self, txn: TxnNo, mode: LockMode)
        ensures { self.new ≡ filter (λ h. not (is_holder txn mode h)) self.old }
    {
        self.first = without(self.first, txn, mode);
        self.others.retain(|holder| !holder.is(txn, mode));
    }

    /// Whether none is left without a transaction in a mode. It looks for that as the first of them alone, so `false`
    /// decides nothing.
    pub(crate) fn ends_without(&self, txn: TxnNo, mode: LockMode) -> bool
        ensures { OnTrue result (filter (λ h. not (is_holder txn mode h)) self.now ≡ []) }
    {
        without(self.first, txn, mode).is_none() && self.others.is_empty()
    }

    /// Whether there are none.
    pub(crate) fn is_empty(&self) -> bool
        ensures { IsTrue result ↔ (self.now ≡ []) }
    {
        self.first.is_none() && self.others.is_empty()
    }
}

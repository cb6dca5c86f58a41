// The token of an open transaction.
ghost use Rattle.std.specs.Prelude.{◌≡◌, [], length};
ghost use Rattle.mt_locked.specs.Tokens.{fresh, with_calls};
ghost use Rattle.mt_model.specs.Backwards.{no_calls};

use crate::names::Naming;
use crate::pass::Pass;
use crate::txn_calls::TxnCalls;
use core::mem::replace;
use mt_base::{Refusal, TxnNo};
use mt_mark::Entry;
use mt_model::{Calls, Committed, Op, Reply};
use std::alloc::Global;
use std::marker::{Model, PhantomData};

/// A transaction's token: what it has done so far, and which of that counts. It is spent by a commit or an abort
/// alone, so none is lost. Contracts see its number and the entry that it would be in the history, with the calls that
/// count.
pub struct Txn<J: Naming> {
    pub(crate) number: TxnNo,
    pub(crate) entry: Entry,
    // the positions of the calls that count, from 0, as they rise
    pub(crate) standing: Vec<usize>,
    pub(crate) of: PhantomData<J>,
}

impl<J: Naming> Model for Txn<J> {
    ghost use Rattle.mt_locked.specs.Tokens.{ArePositions, TxnSeen, calls_at};

    ghost Value = { TxnSeen };

    ghost view = { λ t. record {
      pass = t.entry.pass;
      number = t.number;
      done = t.entry.done;
      standing = calls_at t.entry.done.calls t.standing.items;
    } };

    ghost invariant = { λ t. ArePositions t.entry.done.calls t.standing.items };
}

/// Why a token was not spent, with the token if its transaction is still active.
pub struct Refused<J: Naming> {
    pub why: Refusal,
    pub txn: Option<Txn<J>>,
}

impl<J: Naming> Txn<J> {
    /// The operations so far with their replies, in the order in which they ended. The inverses that took some of them
    /// back are among them.
    pub fn calls(&self) -> &[(Op, Reply)]
        ensures { result.now ≡ self.now.done.calls }
    {
        self.entry.done.calls.as_slice()
    }

    /// How many of its operations count: those that it did not take back, with effect or without. Inverses that took
    /// some back do not count.
    pub fn answered(&self) -> u16
        ensures { result ≡ length self.now.standing }
    {
        self.standing.len() as u16
    }

    /// The number that the kernel gave it.
    pub fn number(&self) -> TxnNo
        ensures { result ≡ self.now.number }
    {
        self.number
    }

    /// The number of the pass with which it was begun.
    pub fn pass(&self) -> u64
        ensures { result ≡ self.now.pass }
    {
        self.entry.pass
    }

    /// The session for which it was begun.
    pub fn session(&self) -> u32
        ensures { result ≡ self.now.done.session }
    {
        self.entry.done.session
    }

    // Drops what it has, once its transaction has ended.
    pub(crate) fn spend(self) {
        let Txn {
            number: _,
            entry: _,
            standing: _,
            of: _,
        } = self;
    }
}

/// The token of a transaction that was begun under this number, with this pass and for this session. The pass is busy
/// then.
pub fn give_token<J: Naming>(
    alloc: Global,
    pass: &mut Pass<J>,
    number: TxnNo,
    session: u32,
) -> Txn<J>
    ensures token { result ≡ fresh pass.old.number number session }
    ensures pass { pass.new ≡ pass.old }
{
    pass.is_busy = true;
    let calls = Calls::new(Vec::new(alloc));
    let done = Committed { session, calls };
    Txn {
        number,
        entry: Entry {
            pass: pass.number,
            done,
        },
        standing: Vec::new(alloc),
        of: PhantomData,
    }
}

/// Spends the token of a transaction that has ended. With its pass another one may be begun.
pub fn spend_token<J: Naming>(pass: &mut Pass<J>, txn: Txn<J>)
    ensures { pass.new ≡ pass.old }
{
    txn.spend();
    pass.is_busy = false;
}

/// Takes the calls out of a token, so that more can be put after them. They go back by [`put_calls`].
pub fn take_calls<J: Naming>(txn: &mut Txn<J>) -> TxnCalls
    ensures calls { result.calls ≡ txn.old.done.calls }
    ensures standing { result.standing ≡ txn.old.standing }
    ensures rest { txn.new ≡ with_calls txn.old no_calls }
{
    let alloc = *txn.standing.allocator();
    let standing = replace(&mut txn.standing, Vec::new(alloc));
    let calls = replace(&mut txn.entry.done.calls, Calls::new(Vec::new(alloc)));
    TxnCalls::of(calls.into_vec(), standing)
}

/// Gives a token these calls, in place of those that it has.
pub fn put_calls<J: Naming>(txn: &mut Txn<J>, calls: TxnCalls)
    ensures { txn.new ≡ with_calls txn.old (record { all = calls.calls; counted = calls.standing }) }
{
    let TxnCalls { calls, standing } = calls;
    txn.entry.done.calls = Calls::new(calls);
    txn.standing = standing;
}

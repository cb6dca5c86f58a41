// The order in which calls ended: of each its transaction, and which of the transaction's calls it is.
// `live` keeps one such list. What is undone, or leaves with its transaction, is taken out of it.
ghost use Rattle.std.specs.Prelude.{◌≡◌, ◌≤◌, ◌==◌, ◌||◌, nat_lt, not, filter};
ghost use Rattle.std.specs.Vec.{vec_len, vec_capacity};

use mt_base::TxnNo;

/// A call in the order of ends: its transaction, and which of the transaction's calls it is, from 0.
#[derive(Clone, Copy, PartialEq, Eq, Debug)]
pub struct Place {
    pub txn: TxnNo,
    pub index: usize,
}

impl Place {
    // Whether it is another transaction's.
    fn is_apart(&self, txn: TxnNo) -> bool
        ensures { result ≡ not (self.now.txn == txn) }
    {
        self.txn != txn
    }

    // Whether it is another transaction's, or of one of the calls before a number.
    fn is_before(&self, txn: TxnNo, at: usize) -> bool
        ensures { result ≡ (not (self.now.txn == txn) || nat_lt self.now.index at) }
    {
        self.txn != txn || self.index < at
    }
}

/// Takes out a transaction's places. It takes no memory.
pub fn take_out(order: &mut Vec<Place>, txn: TxnNo)
    ensures places { order.new.items ≡ filter (λ o. not (o.txn == txn)) order.old.items }
    ensures len { vec_len order.new ≤ vec_len order.old }
    ensures capacity { vec_capacity order.new ≡ vec_capacity order.old }
{
    order.retain(|one| one.is_apart(txn));
}

/// Takes out a transaction's places from its call of a number on. It takes no memory.
pub fn cut_from(order: &mut Vec<Place>, txn: TxnNo, at: usize)
    ensures places { order.new.items
        ≡ filter (λ o. not (o.txn == txn) || nat_lt o.index at) order.old.items }
    ensures len { vec_len order.new ≤ vec_len order.old }
    ensures capacity { vec_capacity order.new ≡ vec_capacity order.old }
{
    order.retain(|one| one.is_before(txn, at));
}

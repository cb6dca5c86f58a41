// The numbers that name transactions, operations, pages and the like. Each is a type of its own, so
// that none is taken for another; contracts see each as the number that it holds.
ghost use Rattle.std.specs.Prelude.{◌≡◌, ℕ};

use std::marker::Model;

/// A transaction's number: from 1, in each opening of a device. A smaller number is older.
#[derive(Clone, Copy, PartialEq, Eq, PartialOrd, Ord, Hash, Debug)]
pub struct TxnNo(u64);

impl Model for TxnNo {
    ghost Value = { ℕ };

    ghost view = { λ n. n.0 };

    ghost inverse = { λ n. record { 0 = n } };
}

impl TxnNo {
    /// The transaction of this number.
    pub fn new(number: u64) -> TxnNo
        ensures { result ≡ number }
    {
        TxnNo(number)
    }

    /// The number.
    pub fn get(self) -> u64
        ensures { result ≡ self }
    {
        let TxnNo(value) = self;
        value
    }
}

/// An operation's number: from 1, in each opening of a device, the inverses of an abort included.
#[derive(Clone, Copy, PartialEq, Eq, PartialOrd, Ord, Hash, Debug)]
pub struct OpNo(u64);

impl Model for OpNo {
    ghost Value = { ℕ };

    ghost view = { λ n. n.0 };

    ghost inverse = { λ n. record { 0 = n } };
}

impl OpNo {
    /// The operation of this number.
    pub fn new(number: u64) -> OpNo
        ensures { result ≡ number }
    {
        OpNo(number)
    }

    /// The number.
    pub fn get(self) -> u64
        ensures { result ≡ self }
    {
        let OpNo(value) = self;
        value
    }
}

/// A page's number: its place among the page slots of the device, from 0.
#[derive(Clone, Copy, PartialEq, Eq, PartialOrd, Ord, Hash, Debug)]
pub struct PageNo(u16);

impl Model for PageNo {
    ghost Value = { ℕ };

    ghost view = { λ n. n.0 };

    ghost inverse = { λ n. record { 0 = n } };
}

impl PageNo {
    /// The page of this number.
    pub fn new(number: u16) -> PageNo
        ensures { result ≡ number }
    {
        PageNo(number)
    }

    /// The number.
    pub fn get(self) -> u16
        ensures { result ≡ self }
    {
        let PageNo(value) = self;
        value
    }
}

/// A relation's number, from 0. Whether there is such a relation, the schema says.
#[derive(Clone, Copy, PartialEq, Eq, PartialOrd, Ord, Hash, Debug)]
pub struct RelNo(u16);

impl Model for RelNo {
    ghost Value = { ℕ };

    ghost view = { λ n. n.0 };

    ghost inverse = { λ n. record { 0 = n } };
}

impl RelNo {
    /// The relation of this number.
    pub fn new(number: u16) -> RelNo
        ensures { result ≡ number }
    {
        RelNo(number)
    }

    /// The number.
    pub fn get(self) -> u16
        ensures { result ≡ self }
    {
        let RelNo(value) = self;
        value
    }
}

/// A counter's number, from 0. Whether there is such a counter, the schema says.
#[derive(Clone, Copy, PartialEq, Eq, PartialOrd, Ord, Hash, Debug)]
pub struct CtrNo(u16);

impl Model for CtrNo {
    ghost Value = { ℕ };

    ghost view = { λ n. n.0 };

    ghost inverse = { λ n. record { 0 = n } };
}

impl CtrNo {
    /// The counter of this number.
    pub fn new(number: u16) -> CtrNo
        ensures { result ≡ number }
    {
        CtrNo(number)
    }

    /// The number.
    pub fn get(self) -> u16
        ensures { result ≡ self }
    {
        let CtrNo(value) = self;
        value
    }
}

/// A log record's place: how many records were appended to its area up to it, itself included, so
/// that the first has place 1.
#[derive(Clone, Copy, PartialEq, Eq, PartialOrd, Ord, Hash, Debug)]
pub struct LogPos(u64);

impl Model for LogPos {
    ghost Value = { ℕ };

    ghost view = { λ n. n.0 };

    ghost inverse = { λ n. record { 0 = n } };
}

impl LogPos {
    /// The record of this number.
    pub fn new(number: u64) -> LogPos
        ensures { result ≡ number }
    {
        LogPos(number)
    }

    /// The number.
    pub fn get(self) -> u64
        ensures { result ≡ self }
    {
        let LogPos(value) = self;
        value
    }
}

/// The name of a record: the page that holds it, and its slot there. It is what the index keeps for
/// each key.
#[derive(Clone, Copy, PartialEq, Eq, Debug)]
pub struct RecordName {
    pub page: PageNo,
    pub slot: u16,
}

// Why calls are refused: the number, the name and the text of each cause.
ghost use Rattle.std.specs.Prelude.{◌≡◌, Some};
ghost use Rattle.mt_base.specs.Refusal.{number_of, name_of, place_of, text_of};

use crate::TxnNo;
use std::alloc::{AllocError, AllocFailed};
use std::error::Error;
use std::fmt;

/// Why a call was refused. Each call answers the first cause in its own order of tests. What was
/// called is then as it was before the call, but after [`Refusal::DeviceFailed`]: from then on it
/// answers that for good.
#[derive(Clone, Copy, PartialEq, Eq, Debug)]
pub enum Refusal {
    /// 1: a growth of memory was refused in this call.
    NoMemory,
    /// 2: the device failed in this call, or earlier in this opening.
    DeviceFailed,
    /// 3: the device is shorter than its two master slots, or neither of them is open.
    NotFormatted,
    /// 4: what begins at this place of the device breaks a rule of the format.
    BadFormat(u64),
    /// 5: a key, a value, a schema's number, a device's length or a number of scripts is outside its
    /// limits.
    BadLength,
    /// 6: the relation's number is too large.
    NoSuchRelation,
    /// 7: the counter's number is too large.
    NoSuchCounter,
    /// 8: a step's size is outside 1 to 10^12.
    BadStep,
    /// 9: with some choice of the pending adds to a counter, this one among them, it would leave its
    /// bounds (escrow, O'Neil 1986).
    Escrow,
    /// 10: fewer pages are free and not reserved than are needed.
    NoRoom,
    /// 11: the log area has too few bytes left, those in use and those reserved counted.
    LogFull,
    /// 12: this opening has as many commits or transactions as it may have.
    BookFull,
    /// 13: as many transactions live as may live at a time.
    TooManyTransactions,
    /// 14: an older transaction, this one, holds a semantic lock in the way; the asker is to abort
    /// (wait-die).
    Die(TxnNo),
    /// 15: the transaction does not live, or this call does not fit the state it is in.
    Stranger,
    /// 16: an operation of the transaction is unfinished, or something else is still under way.
    Busy,
    /// 17: the transaction has started as many operations as it may.
    TooManyOperations,
    /// 18: this line of a script is not in its grammar; lines count from 1.
    BadLine(u64),
    /// 19: a transaction cannot go back to after so many operations, since fewer of it stand.
    BadSavepoint,
    /// 20: the device is of another format than the call is for.
    WrongFormat,
}

impl Refusal {
    /// The refusal's number, 1 to 20.
    pub fn number(&self) -> u8
        ensures { result ≡ number_of self.now }
    {
        match self {
            Refusal::NoMemory => 1,
            Refusal::DeviceFailed => 2,
            Refusal::NotFormatted => 3,
            Refusal::BadFormat(_) => 4,
            Refusal::BadLength => 5,
            Refusal::NoSuchRelation => 6,
            Refusal::NoSuchCounter => 7,
            Refusal::BadStep => 8,
            Refusal::Escrow => 9,
            Refusal::NoRoom => 10,
            Refusal::LogFull => 11,
            Refusal::BookFull => 12,
            Refusal::TooManyTransactions => 13,
            Refusal::Die(_) => 14,
            Refusal::Stranger => 15,
            Refusal::Busy => 16,
            Refusal::TooManyOperations => 17,
            Refusal::BadLine(_) => 18,
            Refusal::BadSavepoint => 19,
            Refusal::WrongFormat => 20,
        }
    }

    /// The refusal's name, as its text gives it.
    pub fn name(&self) -> &'static str
        ensures { result.now ≡ name_of self.now }
    {
        match self {
            Refusal::NoMemory => "NoMemory",
            Refusal::DeviceFailed => "DeviceFailed",
            Refusal::NotFormatted => "NotFormatted",
            Refusal::BadFormat(_) => "BadFormat",
            Refusal::BadLength => "BadLength",
            Refusal::NoSuchRelation => "NoSuchRelation",
            Refusal::NoSuchCounter => "NoSuchCounter",
            Refusal::BadStep => "BadStep",
            Refusal::Escrow => "Escrow",
            Refusal::NoRoom => "NoRoom",
            Refusal::LogFull => "LogFull",
            Refusal::BookFull => "BookFull",
            Refusal::TooManyTransactions => "TooManyTransactions",
            Refusal::Die(_) => "Die",
            Refusal::Stranger => "Stranger",
            Refusal::Busy => "Busy",
            Refusal::TooManyOperations => "TooManyOperations",
            Refusal::BadLine(_) => "BadLine",
            Refusal::BadSavepoint => "BadSavepoint",
            Refusal::WrongFormat => "WrongFormat",
        }
    }
}

/// The refusal's text: `refused`, its number and its name, and after those of 4 and 18 the place or
/// the line. A holder is not named.
impl fmt::Display for Refusal {
    ghost output = { λ refusal. Some (text_of refusal) };

    fn fmt<W: fmt::Write>(&self, f: &mut fmt::Formatter<W>) -> fmt::Result {
        let number = self.number();
        let name = self.name();
        match self {
            Refusal::BadFormat(place) => write!(f, "refused {number} {name} {place}"),
            Refusal::BadLine(line) => write!(f, "refused {number} {name} {line}"),
            _ => write!(f, "refused {number} {name}"),
        }
    }
}

impl Error for Refusal {}

impl From<AllocError> for Refusal {
    ghost use Rattle.mt_base.specs.declared.refusal.Refusal.{Refusal};
    ghost use Rattle.std.specs.Prelude.{◌≡◌};

    ghost from_gives = { λ _ refusal. refusal ≡ Refusal.NoMemory };

    fn from(_error: AllocError) -> Refusal {
        Refusal::NoMemory
    }
}

impl<T: Drop> From<AllocFailed<T>> for Refusal {
    ghost use Rattle.mt_base.specs.declared.refusal.Refusal.{Refusal};
    ghost use Rattle.std.specs.Prelude.{◌≡◌};

    ghost from_gives = { λ _ refusal. refusal ≡ Refusal.NoMemory };

    fn from(_error: AllocFailed<T>) -> Refusal {
        Refusal::NoMemory
    }
}

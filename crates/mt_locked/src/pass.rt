// A thread's part in a shared kernel: its seat at the mark, and whether a transaction of it is open.
// Its calls take no lock, and wait for nobody.
ghost use Rattle.std.specs.Prelude.{◌≡◌};
ghost use Rattle.mt_locked.specs.Seen.{Looked};

use crate::names::Naming;
use mt_mark::Seat;
use std::marker::{Model, PhantomData};

/// What its holder has seen of the history. One transaction at a time is begun with it. Contracts see its number and
/// that beginning of the history.
#[derive(Drop)]
pub struct Pass<J: Naming> {
    pub(crate) number: u64,
    pub(crate) is_busy: bool,
    pub(crate) seat: Seat,
    pub(crate) of: PhantomData<J>,
}

impl<J: Naming> Model for Pass<J> {
    ghost use Rattle.std.specs.Prelude.{◌≡◌};
    ghost use Rattle.mt_locked.specs.Seen.{PassSeen};

    ghost Value = { PassSeen };

    ghost view = { λ p. record { number = p.number; seen = p.seat.view.list } };

    ghost invariant = { λ p. (p.seat.mark ≡ J.mark) × (p.seat.view.base ≡ J.base) × (p.seat.view.number ≡ p.number) };
}

impl<J: Naming> Pass<J> {
    /// Its number, from 1.
    pub fn number(&self) -> u64
        ensures { result ≡ self.now.number }
    {
        self.number
    }

    /// Whether a transaction of it is open.
    pub fn is_busy(&self) -> bool {
        self.is_busy
    }

    /// Sees the history as it is, and answers its length. It is one load of the mark: it takes no lock, waits for
    /// nobody, and takes no memory.
    pub fn look(&mut self) -> u64
        ensures { Looked J.base self.old result self.new }
    {
        self.seat.load()
    }
}

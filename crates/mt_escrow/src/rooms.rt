// How far a counter may go while adds to it are granted and not settled.
ghost use Rattle.std.specs.Prelude.{◌≡◌, ℕ, ◌↔◌, IsTrue, MatchOption, Contains, map};
ghost use Rattle.mt_base.specs.Limits.{IsStep};
ghost use Rattle.mt_model.specs.Pending.{pending_without, moved_by};
ghost use Rattle.mt_escrow.specs.Rooms.{IsModest, Fits, fresh, held, let_go, settled, room_at, count_of, AreKeptFor, KeepsBeside};
ghost use Rattle.mt_escrow.specs.Seen.{IsLastAdd};

use crate::arithmetic::{are_between, difference_of, part_above, part_below, sum_of};
use mt_base::TxnNo;
use mt_model::{Count, Pending};

/// A counter as it is committed, beside the sum of its granted steps down and that of its granted
/// steps up.
#[derive(Clone, Copy, Debug)]
pub struct Room {
    pub count: Count,
    pub lowest: i64,
    pub highest: i64,
}

impl Room {
    /// A counter to which no add is granted.
    pub fn new(count: Count) -> Room
        ensures { result ≡ fresh count }
    {
        Room {
            count,
            lowest: 0,
            highest: 0,
        }
    }

    /// The room with one more step granted.
    pub fn with(self, step: i64) -> Room
        requires modest { IsModest self }
        requires step { IsStep step }
        ensures { result ≡ held step self }
    {
        Room {
            count: self.count,
            lowest: sum_of(self.lowest, part_below(step)),
            highest: sum_of(self.highest, part_above(step)),
        }
    }

    /// The room with one of its steps no longer granted.
    pub fn without(self, step: i64) -> Room
        requires modest { IsModest self }
        requires step { IsStep step }
        ensures { result ≡ let_go step self }
    {
        Room {
            count: self.count,
            lowest: difference_of(self.lowest, part_below(step)),
            highest: difference_of(self.highest, part_above(step)),
        }
    }

    /// The room with one of its steps made for good.
    pub fn with_made(self, step: i64) -> Room
        requires modest { IsModest self }
        requires step { IsStep step }
        ensures { result ≡ settled step self }
    {
        let mut room = self.without(step);
        room.count.number = sum_of(self.count.number, step);
        room
    }

    /// Whether the counter stays in its bounds with all its granted steps down, and with all its
    /// granted steps up, ends included.
    pub fn fits(self) -> bool
        requires { IsModest self }
        ensures { IsTrue result ↔ Fits self }
    {
        let Count { low, high, number } = self.count;
        are_between(
            low,
            sum_of(number, self.lowest),
            sum_of(number, self.highest),
            high,
        )
    }
}

/// Makes the pending steps of one transaction for good, each in the room of its counter. The rooms
/// then keep the steps of the others.
pub fn settle(rooms: &mut [Room], pending: &[Pending], txn: TxnNo)
    requires { AreKeptFor rooms.old pending.now }
    ensures kept { KeepsBeside rooms.old pending.now rooms.new (pending_without txn pending.now) }
    ensures counts { (c : ℕ) →
        count_of (room_at rooms.new c) ≡ moved_by txn c pending.now (count_of (room_at rooms.old c)) }
{
    for add in pending {
        if add.txn == txn {
            let room = &mut rooms[usize::from(add.counter.get())];
            *room = room.with_made(add.step);
        }
    }
}

/// Takes the steps of one transaction among these out of the rooms of their counters. The rooms then keep the steps of
/// the others.
pub fn forget(rooms: &mut [Room], adds: &[Pending], txn: TxnNo)
    requires { AreKeptFor rooms.old adds.now }
    ensures kept { KeepsBeside rooms.old adds.now rooms.new (pending_without txn adds.now) }
    ensures counts { map count_of rooms.new ≡ map count_of rooms.old }
{
    for add in adds {
        if add.txn == txn {
            let room = &mut rooms[usize::from(add.counter.get())];
            *room = room.without(add.step);
        }
    }
}

/// The place of the last pending add that is this one.
pub fn last_place(pending: &[Pending], add: &Pending) -> Option<usize>
    ensures { MatchOption result
        (Contains pending.now add.now → ⊥)
        (λ i. IsLastAdd pending.now add.now i) }
{
    for i in (0..pending.len()).rev() {
        if pending[i] == *add {
            return Some(i);
        }
    }
    None
}

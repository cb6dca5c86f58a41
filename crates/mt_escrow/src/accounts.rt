// Admits adds to the counters, and settles, sets aside or drops those of a transaction.
ghost use Rattle.std.specs.Prelude.{◌≡◌, ◌<◌, ◌⊎◌, ℕ, [], length, OnOk, OnErr, IfOk, IfErr};
ghost use Rattle.mt_base.specs.Limits.{IsStep};
ghost use Rattle.mt_model.specs.Pending.{pending_without, moved_by, TakesOut};
ghost use Rattle.mt_model.specs.Tables.{AreLimited, count_at};
ghost use Rattle.mt_escrow.specs.Seen.{add_of, with_add, CanStand, LosesLast, JoinsAside, AreAdmissible};

use crate::rooms::{Room, forget, last_place, settle};
use mt_base::{CtrNo, Refusal, TxnNo};
use mt_model::{Count, Pending};
use std::alloc::Global;
use std::marker::Model;

/// The counters as they are committed, the adds that are pending, in order of grant, and those that were set aside.
/// Each add counts singly, beside the others of its own transaction too.
///
/// Contracts see the three lists.
#[derive(Debug, Drop)]
pub struct Escrow {
    rooms: Vec<Room>,
    pending: Vec<Pending>,
    // of each the room is kept until its transaction ends
    aside: Vec<Pending>,
}

impl Model for Escrow {
    ghost use Rattle.std.specs.Prelude.{map};
    ghost use Rattle.std.specs.Vec.{vec_len, vec_capacity};
    ghost use Rattle.mt_escrow.specs.Seen.{Escrowed};
    ghost use Rattle.mt_escrow.specs.Rooms.{IsWell, count_of};

    ghost Value = { Escrowed };

    ghost view = { λ e. record {
      committed = map count_of e.rooms.items;
      pending = e.pending.items;
      aside = e.aside.items;
    } };

    ghost invariant = { λ e.
        IsWell e.rooms.items e.pending.items e.aside.items (vec_len e.aside) (vec_capacity e.aside) };
}

impl Escrow {
    /// The escrow of these counters, with no add granted. The only error is [`Refusal::NoMemory`].
    pub fn new(alloc: Global, counters: &[Count]) -> Result<Escrow, Refusal>
        requires { AreLimited counters.now }
        ensures escrow { IfOk result (λ escrow.
            escrow ≡ record { committed = counters.now; pending = []; aside = [] }) }
        ensures only_memory { IfErr result (λ why. why ≡ Refusal.NoMemory) }
    {
        let mut rooms = Vec::with_capacity(alloc, counters.len())?;
        for count in counters {
            rooms.push(Room::new(*count))?;
        }
        Ok(Escrow {
            rooms,
            pending: Vec::new(alloc),
            aside: Vec::new(alloc),
        })
    }

    /// Asks leave for an add. It is granted if the counter stays in its bounds whichever of the granted adds are made,
    /// this one among them: those that are pending and those that were set aside. It is then the last of the pending
    /// adds.
    ///
    /// [`Refusal::NoMemory`] if the lists of adds could not grow; else
    /// [`Refusal::Escrow`] if some choice of them leaves the bounds. The escrow is then as before.
    pub fn ask(&mut self, txn: TxnNo, counter: CtrNo, step: i64) -> Result<(), Refusal>
        requires there { counter < length self.old.committed }
        requires step { IsStep step }
        ensures granted { OnOk result (self.new ≡ with_add (add_of txn counter step) self.old) }
        ensures admitted { OnOk result (CanStand self.old (add_of txn counter step)) }
        ensures cause { IfErr result (λ why.
            (why ≡ Refusal.NoMemory)
            ⊎ ((why ≡ Refusal.Escrow) × ¬ CanStand self.old (add_of txn counter step))) }
        ensures kept { OnErr result (self.new ≡ self.old) }
    {
        self.pending.reserve(1)?;
        self.aside.reserve(self.pending.len() + 1)?;
        let place = usize::from(counter.get());
        let room = self.rooms[place].with(step);
        if !room.fits() {
            return Err(Refusal::Escrow);
        }
        self.pending.push(Pending { txn, counter, step })?;
        self.rooms[place] = room;
        Ok(())
    }

    /// The end of a commit. The pending adds of the transaction move into the committed counters, which stay in their
    /// bounds, and none of them is pending any more. What it had set aside goes. The adds of others stay. It takes no
    /// memory.
    pub fn commit(&mut self, txn: TxnNo)
        ensures counters { length self.new.committed ≡ length self.old.committed }
        ensures moved { (c : ℕ) →
            count_at self.new.committed c
            ≡ moved_by txn c self.old.pending (count_at self.old.committed c) }
        ensures limited { AreLimited self.new.committed }
        ensures pending { self.new.pending ≡ pending_without txn self.old.pending }
        ensures aside { self.new.aside ≡ pending_without txn self.old.aside }
    {
        self.leave(txn);
        settle(&mut self.rooms, &self.pending, txn);
        self.pending.retain(|add| add.txn != txn);
    }

    /// The end of an add's inverse, or of an add that was given up. The last pending add of this transaction to this
    /// counter by this step goes, and nothing else changes. If none is pending nothing changes. It takes no
    /// memory.
    pub fn taken_back(&mut self, txn: TxnNo, counter: CtrNo, step: i64)
        ensures committed { self.new.committed ≡ self.old.committed }
        ensures gone { LosesLast (add_of txn counter step) self.old.pending self.new.pending }
        ensures taken { TakesOut (add_of txn counter step) self.old.pending self.new.pending }
        ensures aside { self.new.aside ≡ self.old.aside }
    {
        let add = Pending { txn, counter, step };
        if let Some(place) = last_place(&self.pending, &add) {
            self.pending.remove(place);
            let room = &mut self.rooms[usize::from(counter.get())];
            *room = room.without(step);
        }
    }

    /// The end of an add's inverse in a transaction that goes on. The last pending add of this transaction to this
    /// counter by this step is set aside: it is not pending, and a commit does not move it. The bounds have to suffice
    /// for it until its transaction ends, since a commit books both the add and its inverse. If none is pending
    /// nothing changes. It takes no memory.
    pub fn set_aside(&mut self, txn: TxnNo, counter: CtrNo, step: i64)
        ensures committed { self.new.committed ≡ self.old.committed }
        ensures taken { TakesOut (add_of txn counter step) self.old.pending self.new.pending }
        ensures aside { JoinsAside (add_of txn counter step) self.old self.new }
    {
        let add = Pending { txn, counter, step };
        if let Some(place) = last_place(&self.pending, &add) {
            self.pending.remove(place);
            self.aside.push_reserved(add);
        }
    }

    /// The end of an abort. What the transaction had set aside goes, and nothing else changes. It takes no memory.
    pub fn leave(&mut self, txn: TxnNo)
        ensures committed { self.new.committed ≡ self.old.committed }
        ensures pending { self.new.pending ≡ self.old.pending }
        ensures aside { self.new.aside ≡ pending_without txn self.old.aside }
    {
        forget(&mut self.rooms, &self.aside, txn);
        self.aside.retain(|add| add.txn != txn);
    }

    /// The pending adds in order of grant, lent. Whichever of them and of those set aside are made, each counter stays
    /// in its bounds.
    pub fn pending(&self) -> &[Pending]
        ensures pending { result.now ≡ self.now.pending }
        ensures admissible { AreAdmissible self.now }
    {
        self.pending.as_slice()
    }
}

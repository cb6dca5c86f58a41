// The active transactions, and what of their operations counts. Each change is an event of the laws.
// mt_core keeps one `Live`, and ties it to locks, escrow and pages, which are not known here.
ghost use Rattle.std.specs.Prelude.{ℕ, [], ◌∷◌, ◌++◌, ◌≡◌, ◌≢◌, ◌==◌, ◌<◌, ◌≤◌, ◌+◌, ◌^◌, true, false, None, Some, IfOk, IfErr, OnOk, OnErr, MatchOption, filter, is_some, length, map, slice_index_or};
ghost use Rattle.std.specs.List.{position};
ghost use Rattle.std.specs.Option.{option_map};
ghost use Rattle.mt_base.specs.declared.limits.TheConstants.{MAX_BEGUN};
ghost use Rattle.mt_base.specs.declared.refusal.Refusal.{Refusal};
ghost use Rattle.mt_model.specs.History.{Call};
ghost use Rattle.mt_live.specs.Entries.{Entry, calls, kept};
ghost use Rattle.mt_live.specs.declared.transactions.Role.{Role};
ghost use Rattle.mt_live.specs.Undoing.{only, others, is_counted, last_effect, after_first, cut_back, mark_last, settle_after};
ghost use Rattle.mt_live.specs.Machine.{put};
ghost use Rattle.mt_live.specs.Members.{Member, fresh, with_room, with_call, with_state, with_back, with_mark, settled_at, last_place, standing_count, forward_count, noted_after, noted_calls, taken_back, committed_of, last_operation};
ghost use Rattle.mt_live.specs.Lives.{entry_by, member_of, is_member, has_room, AreInOrder, AreNumbered, IsAbove, IsFirst, IsChanged};

use crate::places::{Place, cut_from, take_out};
use crate::transactions::{Ended, Role, Transaction, TxnState};
use mt_base::{OpNo, Refusal, TxnNo};
use mt_model::{Committed, Op, Reply};
use std::alloc::Global;
use std::marker::Model;

/// An operation that stands and did something.
#[derive(Clone, Copy, Debug)]
pub struct Effect<'a> {
    /// Its number.
    pub number: OpNo,
    /// The operation itself.
    pub op: &'a Op,
    /// What it replied.
    pub reply: &'a Reply,
}

/// The live transactions: each with its session, its state and what stands of its operations, and the
/// order in which these ended.
///
/// Contracts see the standing list: the operations of live transactions in the order of their ends. Of one that is
/// being undone it has only those before the earliest that is undone. What [`laws`](crate::laws) says of it is why
/// any set of live transactions may be undone at any time.
#[derive(Debug, Drop)]
pub struct Live {
    begun: u64,
    transactions: Vec<Transaction>,
    order: Vec<Place>,
}

impl Model for Live {
    ghost use Rattle.std.specs.Vec.{vec_len, vec_capacity};
    ghost use Rattle.mt_live.specs.Lives.{Lives, IsWell, calls_of, standing_by};

    ghost Value = { Lives };

    ghost view = { λ l. record {
      begun = l.begun;
      members = l.transactions.items;
      standing = standing_by (calls_of l.transactions.items) l.order.items;
    } };

    ghost invariant = { λ l.
        IsWell l.begun l.transactions.items l.order.items (vec_len l.order) (vec_capacity l.order) };
}

// A place before which the transaction of a number is not: as many as numbers lie between it and the last can stand
// after it.
fn first_place(transactions: &[Transaction], txn: TxnNo) -> usize
    requires { AreInOrder transactions.now }
    ensures within { result ≤ length transactions.now }
    ensures before { (k : ℕ) → k < result → (d : Member)
        → (slice_index_or transactions.now k d).number ≢ txn }
{
    let Some(last) = transactions.last() else {
        return 0;
    };
    match last.number().get().checked_sub(txn.get()) {
        Some(behind) => (transactions.len() - 1).saturating_sub(behind as usize),
        None => transactions.len(),
    }
}

// Where the transaction of a number is among these, if it is there.
fn place_among(transactions: &[Transaction], txn: TxnNo) -> Option<usize>
    ensures { result ≡ position (λ m. m.number == txn) transactions.now }
{
    transactions.iter().position(|one| one.number() == txn)
}

// Where the transaction of a number is, if it is there.
fn place_of(transactions: &[Transaction], txn: TxnNo) -> Option<usize>
    requires { AreInOrder transactions.now }
    ensures { result ≡ position (λ m. m.number == txn) transactions.now }
{
    let first = first_place(transactions, txn);
    let behind = place_among(&transactions[first..], txn)?;
    Some(first + behind)
}

// Where a transaction is that is there.
fn place_in(transactions: &[Transaction], txn: TxnNo) -> usize
    requires rising { AreInOrder transactions.now }
    requires there { is_member transactions.now txn ≡ true }
    ensures { IsFirst transactions.now txn result }
{
    let Some(place) = place_of(transactions, txn) else {
        unreachable!()
    };
    place
}

impl Live {
    /// No live transactions. It takes no memory.
    pub fn new(alloc: Global) -> Live
        ensures begun { result.begun ≡ 0 }
        ensures members { length result.members ≡ 0 }
        ensures numbered { AreNumbered result.begun result.members }
        ensures standing { length result.standing ≡ 0 }
    {
        Live {
            begun: 0,
            transactions: Vec::new(alloc),
            order: Vec::new(alloc),
        }
    }

    /// How many transactions have begun. The numbers of those that live are from 1 up to this one.
    pub fn begun(&self) -> u64
        ensures begun { result ≡ self.now.begun }
        ensures numbered { AreNumbered result self.now.members }
    {
        self.begun
    }

    /// Begins a transaction of this session, open and without operations. Its number is the next one,
    /// from 1; at most 2^40 transactions begin.
    ///
    /// Refused 1 for want of memory; nothing has changed then.
    pub fn begin(&mut self, session: u32) -> Result<TxnNo, Refusal>
        requires { self.old.begun < MAX_BEGUN }
        ensures number { IfOk result (λ txn. txn ≡ self.old.begun + 1) }
        ensures begun { OnOk result (self.new.begun ≡ self.old.begun + 1) }
        ensures numbered { OnOk result (AreNumbered self.new.begun self.new.members) }
        ensures unused { IfOk result (λ txn. member_of self.old.members txn ≡ None) }
        ensures member { IfOk result (λ txn. (u : ℕ) →
            member_of self.new.members u ≡ put (member_of self.old.members) txn (Some (fresh txn session)) u) }
        ensures count { OnOk result (length self.new.members ≡ length self.old.members + 1) }
        ensures standing { OnOk result (self.new.standing ≡ self.old.standing) }
        ensures only_memory { IfErr result (λ why. why ≡ Refusal.NoMemory) }
        ensures err { OnErr result (self.new ≡ self.old) }
    {
        let number = TxnNo::new(self.begun + 1);
        let alloc = *self.transactions.allocator();
        self.transactions
            .push(Transaction::new(alloc, number, session))?;
        self.begun += 1;
        Ok(number)
    }

    /// How many transactions live.
    pub fn count(&self) -> usize
        ensures { result ≡ length self.now.members }
    {
        self.transactions.len()
    }

    /// How many operations of a live transaction have ended. Those that it took back count too, and their inverses do
    /// not.
    pub fn count_ended(&self, txn: TxnNo) -> usize
        requires { is_member self.now.members txn ≡ true }
        ensures { Some result ≡ option_map (λ m. forward_count m.calls) (member_of self.now.members txn) }
    {
        let at = place_in(&self.transactions, txn);
        self.transactions[at].count_forward()
    }

    /// The state of a transaction, if it lives.
    pub fn state(&self, txn: TxnNo) -> Option<TxnState>
        ensures { result ≡ option_map (λ m. m.state) (member_of self.now.members txn) }
    {
        let place = place_of(&self.transactions, txn)?;
        Some(self.transactions[place].state())
    }

    /// Sets the state of a live transaction.
    pub fn set_state(&mut self, txn: TxnNo, state: TxnState)
        requires { is_member self.old.members txn ≡ true }
        ensures member { IsChanged self.old.members self.new.members txn (λ m. with_state m state) }
        ensures numbered { AreNumbered self.new.begun self.new.members }
        ensures count { length self.new.members ≡ length self.old.members }
        ensures begun { self.new.begun ≡ self.old.begun }
        ensures standing { self.new.standing ≡ self.old.standing }
    {
        let place = place_in(&self.transactions, txn);
        self.transactions[place].set_state(state);
    }

    /// Makes room for one [`Live::note`] of a live transaction. If there is room already, it stays.
    ///
    /// Refused 1 for want of memory; nothing has changed then.
    pub fn room(&mut self, txn: TxnNo) -> Result<(), Refusal>
        requires { is_member self.old.members txn ≡ true }
        ensures member { OnOk result (IsChanged self.old.members self.new.members txn with_room) }
        ensures numbered { OnOk result (AreNumbered self.new.begun self.new.members) }
        ensures count { OnOk result (length self.new.members ≡ length self.old.members) }
        ensures begun { OnOk result (self.new.begun ≡ self.old.begun) }
        ensures standing { OnOk result (self.new.standing ≡ self.old.standing) }
        ensures only_memory { IfErr result (λ why. why ≡ Refusal.NoMemory) }
        ensures err { OnErr result (self.new ≡ self.old) }
    {
        self.order.reserve(self.transactions.len())?;
        let place = place_in(&self.transactions, txn);
        self.transactions[place].make_room()?;
        Ok(())
    }

    /// The operation of this number, of a live transaction, has ended with this reply: it stands after all
    /// others. Its number is above those of the transaction's others. It takes the room that [`Live::room`]
    /// made, and no memory.
    pub fn note(&mut self, txn: TxnNo, operation: OpNo, op: Op, reply: Reply)
        requires room { has_room (member_of self.old.members txn) ≡ true }
        requires above { IsAbove operation (member_of self.old.members txn) }
        ensures standing { self.new.standing
            ≡ self.old.standing ++ record { txn = txn; op = op; reply = reply; role = Role.Stands } ∷ [] }
        ensures member { IsChanged self.old.members self.new.members txn (λ m. with_call m operation (op, reply)) }
        ensures numbered { AreNumbered self.new.begun self.new.members }
        ensures count { length self.new.members ≡ length self.old.members }
        ensures begun { self.new.begun ≡ self.old.begun }
    {
        let place = place_in(&self.transactions, txn);
        let index = self.transactions[place].len();
        self.transactions[place].note(operation, op, reply, Role::Stands);
        self.order.push_reserved(Place { txn, index });
    }

    /// The inverse of [`Live::last_to_undo`] has ended with this reply, and the transaction goes on. Both stay: that
    /// operation as taken back, and its inverse after all others, under a number above those of the transaction's
    /// others. If there is nothing to undo, the inverse alone is noted. It takes the room that [`Live::room`]
    /// made, and no memory.
    pub fn note_back(&mut self, txn: TxnNo, operation: OpNo, op: Op, reply: Reply)
        requires room { has_room (member_of self.old.members txn) ≡ true }
        requires above { IsAbove operation (member_of self.old.members txn) }
        ensures standing { self.new.standing
            ≡ mark_last txn self.old.standing
            ++ record { txn = txn; op = op; reply = reply; role = Role.Back } ∷ [] }
        ensures member { IsChanged self.old.members self.new.members txn (λ m. with_back m operation (op, reply)) }
        ensures numbered { AreNumbered self.new.begun self.new.members }
        ensures count { length self.new.members ≡ length self.old.members }
        ensures begun { self.new.begun ≡ self.old.begun }
        // An effect stands after the first so many of the list if one does of the transaction's own calls.
        ensures after { (first : ℕ) → Some (is_some (last_effect txn (after_first txn first self.old.standing)))
            ≡ option_map (λ m. is_some (last_place (noted_after first m.calls))) (member_of self.old.members txn) }
    {
        self.mark_last(txn);
        let place = place_in(&self.transactions, txn);
        let index = self.transactions[place].len();
        self.transactions[place].note(operation, op, reply, Role::Back);
        self.order.push_reserved(Place { txn, index });
    }

    // Marks what is to be undone next of a live transaction as taken back.
    fn mark_last(&mut self, txn: TxnNo)
        requires { is_member self.old.members txn ≡ true }
        ensures standing { self.new.standing ≡ mark_last txn self.old.standing }
        ensures member { IsChanged self.old.members self.new.members txn (λ m. with_mark m (last_place m.calls)) }
        ensures numbered { AreNumbered self.new.begun self.new.members }
        ensures count { length self.new.members ≡ length self.old.members }
        ensures begun { self.new.begun ≡ self.old.begun }
        ensures after { (first : ℕ) → Some (is_some (last_effect txn (after_first txn first self.old.standing)))
            ≡ option_map (λ m. is_some (last_place (noted_after first m.calls))) (member_of self.old.members txn) }
    {
        let place = place_in(&self.transactions, txn);
        if let Some(at) = self.transactions[place].last_place() {
            self.transactions[place].mark(at);
        }
    }

    /// How many operations of a live transaction have ended and stand: those that it took back count no more, and
    /// neither do their inverses.
    pub fn answered(&self, txn: TxnNo) -> usize
        requires { is_member self.now.members txn ≡ true }
        ensures standing { result ≡ length (filter (is_counted txn) self.now.standing) }
        ensures member { Some result ≡ option_map (λ m. standing_count m.calls) (member_of self.now.members txn) }
    {
        let at = place_in(&self.transactions, txn);
        self.transactions[at].count_standing()
    }

    /// A live transaction is back where its first `first` operations had ended. Those after them count no more. It
    /// takes no memory.
    pub fn settle(&mut self, txn: TxnNo, first: usize)
        requires { is_member self.old.members txn ≡ true }
        ensures standing { self.new.standing ≡ settle_after txn first self.old.standing }
        ensures member { IsChanged self.old.members self.new.members txn (settled_at first) }
        ensures numbered { AreNumbered self.new.begun self.new.members }
        ensures count { length self.new.members ≡ length self.old.members }
        ensures begun { self.new.begun ≡ self.old.begun }
    {
        let place = place_in(&self.transactions, txn);
        self.transactions[place].settle(first);
    }

    /// The last operation that stands of a transaction and did something. Its inverse is the next to run in
    /// an abort, and is logged as one that takes back this number.
    pub fn last_to_undo(&self, txn: TxnNo) -> Option<Effect<'_>>
        ensures last { option_map {U = Call} (λ r. (r.op.now, r.reply.now)) result
            ≡ option_map (λ e. (e.op, e.reply)) (last_effect txn self.now.standing) }
        ensures number { option_map (λ r. r.number) result ≡ last_operation (member_of self.now.members txn) }
    {
        let place = place_of(&self.transactions, txn)?;
        let at = self.transactions[place].last_place()?;
        let (op, reply) = self.transactions[place].call(at);
        let number = self.transactions[place].operation(at);
        Some(Effect { number, op, reply })
    }

    /// Whether an operation of a live transaction after its first `first` that stand stands and did something. Then
    /// [`Live::last_to_undo`] is one of them.
    pub fn has_effect_after(&self, txn: TxnNo, first: usize) -> bool
        requires { is_member self.now.members txn ≡ true }
        ensures effects { result ≡ is_some (last_effect txn (after_first txn first self.now.standing)) }
        ensures member { Some result
            ≡ option_map (λ m. is_some (last_place (noted_after first m.calls))) (member_of self.now.members txn) }
    {
        let place = place_in(&self.transactions, txn);
        self.transactions[place].has_effect_after(first)
    }

    /// The operations of a live transaction that ended, each with its role, in the order of their ends.
    pub fn ended(&self, txn: TxnNo) -> Ended<'_>
        requires { is_member self.now.members txn ≡ true }
        ensures many { length result.roles.now ≡ length result.calls.now }
        ensures entries { kept (only txn) self.now.standing
            ≡ map (entry_by txn) (noted_calls result.calls.now result.roles.now) }
    {
        let place = place_in(&self.transactions, txn);
        self.transactions[place].ended()
    }

    /// The inverse of [`Live::last_to_undo`] has ended. Neither that operation stands any more, nor the transaction's
    /// later ones, which did nothing but may have seen what is undone. If there is nothing to undo, nothing
    /// changes. It takes no memory.
    pub fn undone(&mut self, txn: TxnNo)
        requires { is_member self.old.members txn ≡ true }
        ensures standing { self.new.standing ≡ cut_back txn self.old.standing }
        ensures member { IsChanged self.old.members self.new.members txn taken_back }
        ensures numbered { AreNumbered self.new.begun self.new.members }
        ensures count { length self.new.members ≡ length self.old.members }
        ensures begun { self.new.begun ≡ self.old.begun }
    {
        let place = place_in(&self.transactions, txn);
        if let Some(at) = self.transactions[place].last_place() {
            self.transactions[place].cut(at);
            cut_from(&mut self.order, txn, at);
        }
    }

    /// A live transaction leaves, with its session and what stands of its operations, in the order in
    /// which they ended. It takes no memory.
    pub fn leave(&mut self, txn: TxnNo) -> Committed
        requires { is_member self.old.members txn ≡ true }
        ensures session { Some result.session ≡ option_map (λ m. m.session) (member_of self.old.members txn) }
        ensures calls { result.calls ≡ calls (kept (only txn) self.old.standing) }
        ensures standing { self.new.standing ≡ kept (others txn) self.old.standing }
        ensures member { (u : ℕ) → member_of self.new.members u ≡ put (member_of self.old.members) txn None u }
        ensures numbered { AreNumbered self.new.begun self.new.members }
        ensures count { length self.new.members + 1 ≡ length self.old.members }
        ensures begun { self.new.begun ≡ self.old.begun }
    {
        let place = place_in(&self.transactions, txn);
        take_out(&mut self.order, txn);
        self.transactions.remove(place).into_committed()
    }
}

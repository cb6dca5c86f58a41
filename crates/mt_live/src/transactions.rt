// What is kept of one active transaction: its session, its state, and its calls with their replies.
// `live` keeps the list of them. Locks, pages and log are not known here.
ghost use Rattle.std.specs.Prelude.{ℕ, ◌≡◌, ◌<◌, ◌≤◌, IfSome, IfNone, OnOk, OnErr, length, true, is_some, slice_index_or};
ghost use Rattle.mt_live.specs.Members.{Noted, noted, noted_calls, plain_call, fresh, with_room, with_noted, with_role_at, with_state, cut_at, committed_of, has_inverse, last_place, standing_count, forward_count, noted_after, settled_at};
ghost use Rattle.mt_live.specs.Entries.{is_standing, is_forward};
ghost use Rattle.mt_live.specs.Roles.{standing_roles, forward_roles, settled_role, left_after, settle_roles};

use mt_base::{OpNo, TxnNo};
use mt_inverse::has_effect;
use mt_model::{Calls, Committed, Op, Reply};
use std::alloc::{AllocError, Global};
use std::marker::Model;

/// What a live transaction is about.
#[derive(Clone, Copy, PartialEq, Eq, Debug)]
pub enum TxnState {
    /// Operations may be called in it.
    Open,
    /// Its commit is under way, and not yet durable.
    Committing,
    /// It goes back to where its first operations had ended, and then goes on.
    Returning(u16),
    /// It is being undone.
    Aborting,
}

/// What an operation that ended is to its transaction.
#[derive(Clone, Copy, PartialEq, Eq, Debug)]
pub enum Role {
    /// It stands.
    Stands,
    /// Its transaction went back to before it.
    TakenBack,
    /// It is the inverse of one that was taken back.
    Back,
}

/// The operations of a live transaction that ended, in the order of their ends.
#[derive(Clone, Copy, Debug)]
pub struct Ended<'a> {
    /// Each with its reply.
    pub calls: &'a [(Op, Reply)],
    /// The role of each.
    pub roles: &'a [Role],
}

/// A live transaction.
#[derive(Debug, Drop)]
pub struct Transaction {
    number: TxnNo,
    session: u32,
    state: TxnState,
    // what counts of its operations with their replies, in the order of their ends
    calls: Vec<(Op, Reply)>,
    // the role of each one
    roles: Vec<Role>,
    // the number of each one's operation
    operations: Vec<OpNo>,
    // there is room for one more call
    has_room: bool,
}

impl Model for Transaction {
    ghost use Rattle.std.specs.Vec.{vec_len, vec_capacity};
    ghost use Rattle.mt_live.specs.Members.{Member, HasRoomFor, noted_calls};

    ghost Value = { Member };

    ghost view = { λ t. record {
      number = t.number;
      session = t.session;
      state = t.state;
      calls = noted_calls t.calls.items t.roles.items;
      operations = t.operations.items;
      has_room = t.has_room;
    } };

    ghost invariant = { λ t.
        HasRoomFor t.has_room (vec_len t.calls) (vec_capacity t.calls) (vec_len t.roles) (vec_capacity t.roles)
        (vec_len t.operations) (vec_capacity t.operations) };
}

// Whether it stands.
fn stands(role: Role) -> bool
    ensures { result ≡ is_standing role }
{
    role == Role::Stands
}

// Whether a call of this role stands and did something.
fn is_effect(role: Role, op: &Op, reply: &Reply) -> bool
    ensures { result ≡ has_inverse (noted role (op.now, reply.now)) }
{
    stands(role) && has_effect(op, reply)
}

// The number of the last call that stands and did something.
fn last_place(calls: &[(Op, Reply)], roles: &[Role]) -> Option<usize>
    requires { length roles.now ≡ length calls.now }
    ensures place { result ≡ last_place (noted_calls calls.now roles.now) }
    ensures within { IfSome result (λ at. at < length calls.now) }
{
    let mut last = None;
    for (at, (op, reply)) in calls.iter().enumerate() {
        if is_effect(roles[at], op, reply) {
            last = Some(at);
        }
    }
    last
}

// How many of these stand.
fn count_standing(roles: &[Role]) -> usize
    ensures count { result ≡ standing_roles roles.now }
    ensures within { result ≤ length roles.now }
{
    let mut count = 0;
    for role in roles {
        if stands(*role) {
            count += 1;
        }
    }
    count
}

// Whether an operation of this role is no inverse.
fn is_forward(role: Role) -> bool
    ensures { result ≡ is_forward role }
{
    role != Role::Back
}

// How many of these are no inverses.
fn count_forward(roles: &[Role]) -> usize
    ensures count { result ≡ forward_roles roles.now }
    ensures within { result ≤ length roles.now }
{
    let mut count = 0;
    for role in roles {
        if is_forward(*role) {
            count += 1;
        }
    }
    count
}

// Whether one after the first so many that stand stands and did something.
fn has_effect_after(calls: &[(Op, Reply)], roles: &[Role], first: usize) -> bool
    requires { length roles.now ≡ length calls.now }
    ensures { result ≡ is_some (last_place (noted_after first (noted_calls calls.now roles.now))) }
{
    match last_place(calls, roles) {
        Some(at) => first <= count_standing(&roles[..at]),
        None => false,
    }
}

// A role, and how many that stand may follow, once so many may with it. With none left it is taken back if it stands.
fn settled(role: Role, left: usize) -> (Role, usize)
    ensures role { result.0 ≡ settled_role left role }
    ensures left { result.1 ≡ left_after left role }
{
    match (role, left) {
        (Role::Stands, 0) => (Role::TakenBack, 0),
        (Role::Stands, _) => (role, left - 1),
        _ => (role, left),
    }
}

// Those that stand, but for the first so many, are taken back.
fn settle(roles: &mut [Role], first: usize)
    ensures { roles.new ≡ settle_roles first roles.old }
{
    let mut left = first;
    for role in roles.iter_mut() {
        let (next, rest) = settled(*role, left);
        *role = next;
        left = rest;
    }
}

impl Transaction {
    /// An open transaction without calls. It takes no memory.
    pub fn new(alloc: Global, number: TxnNo, session: u32) -> Transaction
        ensures { result ≡ fresh number session }
    {
        Transaction {
            number,
            session,
            state: TxnState::Open,
            calls: Vec::new(alloc),
            roles: Vec::new(alloc),
            operations: Vec::new(alloc),
            has_room: false,
        }
    }

    /// Its number.
    pub fn number(&self) -> TxnNo
        ensures { result ≡ self.now.number }
    {
        self.number
    }

    /// What it is about.
    pub fn state(&self) -> TxnState
        ensures { result ≡ self.now.state }
    {
        self.state
    }

    /// Sets what it is about.
    pub fn set_state(&mut self, state: TxnState)
        ensures { self.new ≡ with_state self.old state }
    {
        self.state = state;
    }

    /// Makes room for one more call. The only error is want of memory.
    pub fn make_room(&mut self) -> Result<(), AllocError>
        ensures ok { OnOk result (self.new ≡ with_room self.old) }
        ensures err { OnErr result (self.new ≡ self.old) }
    {
        self.calls.reserve(1)?;
        self.roles.reserve(1)?;
        self.operations.reserve(1)?;
        self.has_room = true;
        Ok(())
    }

    /// Puts a call of this role after the others, in the room that was made for it.
    pub fn note(&mut self, operation: OpNo, op: Op, reply: Reply, role: Role)
        requires { self.old.has_room ≡ true }
        ensures { self.new ≡ with_noted self.old operation (noted role (op, reply)) }
    {
        self.calls.push_reserved((op, reply));
        self.roles.push_reserved(role);
        self.operations.push_reserved(operation);
        self.has_room = false;
    }

    /// The call of this number is taken back.
    pub fn mark(&mut self, at: usize)
        requires { at < length self.old.calls }
        ensures { self.new ≡ with_role_at self.old at Role.TakenBack }
    {
        self.roles[at] = Role::TakenBack;
    }

    /// How many calls stand.
    pub fn count_standing(&self) -> usize
        ensures { result ≡ standing_count self.now.calls }
    {
        count_standing(&self.roles)
    }

    /// How many calls are no inverses.
    pub fn count_forward(&self) -> usize
        ensures { result ≡ forward_count self.now.calls }
    {
        count_forward(&self.roles)
    }

    /// The calls that stand, but for the first so many, are taken back.
    pub fn settle(&mut self, first: usize)
        ensures { self.new ≡ settled_at first self.old }
    {
        settle(&mut self.roles, first);
    }

    /// How many calls there are.
    pub fn len(&self) -> usize
        ensures { result ≡ length self.now.calls }
    {
        self.calls.len()
    }

    /// The call of this number, from 0.
    pub fn call(&self, at: usize) -> &(Op, Reply)
        requires { at < length self.now.calls }
        ensures { (d : Noted) → result.now ≡ plain_call (slice_index_or self.now.calls at d) }
    {
        &self.calls[at]
    }

    /// The number of the operation that the call of this number was.
    pub fn operation(&self, at: usize) -> OpNo
        requires { at < length self.now.calls }
        ensures { (d : ℕ) → result ≡ slice_index_or self.now.operations at d }
    {
        self.operations[at]
    }

    /// The number of the last call that stands and did something.
    pub fn last_place(&self) -> Option<usize>
        ensures place { result ≡ last_place self.now.calls }
        ensures within { IfSome result (λ at. at < length self.now.calls) }
    {
        last_place(&self.calls, &self.roles)
    }

    /// Whether a call after the first so many that stand stands and did something.
    pub fn has_effect_after(&self, first: usize) -> bool
        ensures { result ≡ is_some (last_place (noted_after first self.now.calls)) }
    {
        has_effect_after(&self.calls, &self.roles, first)
    }

    /// The calls, each with its role.
    pub fn ended(&self) -> Ended<'_>
        ensures many { length result.roles.now ≡ length result.calls.now }
        ensures calls { noted_calls result.calls.now result.roles.now ≡ self.now.calls }
    {
        Ended {
            calls: &self.calls,
            roles: &self.roles,
        }
    }

    /// The calls from this number on are none any more. It takes no memory.
    pub fn cut(&mut self, at: usize)
        ensures { self.new ≡ cut_at self.old at }
    {
        self.calls.truncate(at);
        self.roles.truncate(at);
        self.operations.truncate(at);
    }

    /// The transaction with its calls, as one that committed. It takes no memory.
    pub fn into_committed(self) -> Committed
        ensures { result ≡ committed_of self }
    {
        Committed {
            session: self.session,
            calls: Calls::new(self.calls),
        }
    }
}

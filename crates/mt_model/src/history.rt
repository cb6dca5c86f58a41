// Operations with their replies in a list, and a committed transaction: such a list with its session.
// Books are lists of these.
ghost use Rattle.std.specs.Prelude.{◌≡◌, ◌↔◌, ◌++◌, ◌∷◌, [], IfOk, OnOk, OnErr, IsTrue, length};

use crate::{Op, Reply};
use std::alloc::AllocError;
use std::marker::Model;

/// Operations with what each replied, in the order in which they ended. Contracts see the list of
/// the pairs.
#[derive(Debug, Drop)]
pub struct Calls {
    list: Vec<(Op, Reply)>,
}

impl Model for Calls {
    ghost use Rattle.std.specs.Prelude.{List};
    ghost use Rattle.mt_model.specs.declared.operations.Op.{Op};
    ghost use Rattle.mt_model.specs.declared.operations.Reply.{Reply};

    ghost Value = { List (Op × Reply) };

    ghost view = { λ c. c.list.items };
}

/// A transaction that committed: the session that ran it, and its operations with their replies.
#[derive(Debug, Drop)]
pub struct Committed {
    pub session: u32,
    pub calls: Calls,
}

impl Calls {
    /// These calls, with the memory that holds them.
    pub fn new(list: Vec<(Op, Reply)>) -> Calls
        ensures { result ≡ list.items }
    {
        Calls { list }
    }

    /// The memory that holds the calls, given back.
    pub fn into_vec(self) -> Vec<(Op, Reply)>
        ensures { result.items ≡ self }
    {
        let Calls { list } = self;
        list
    }

    /// The calls, lent.
    pub fn as_slice(&self) -> &[(Op, Reply)]
        ensures { result.now ≡ self.now }
    {
        self.list.as_slice()
    }

    /// How many calls there are.
    pub fn len(&self) -> usize
        ensures { result ≡ length self.now }
    {
        self.list.len()
    }

    /// Puts a call after the others. The only error is want of memory; the calls are then as
    /// before.
    pub fn push(&mut self, op: Op, reply: Reply) -> Result<(), AllocError>
        ensures ok { OnOk result (self.new ≡ self.old ++ (op, reply) ∷ []) }
        ensures err { OnErr result (self.new ≡ self.old) }
    {
        self.list.push((op, reply))?;
        Ok(())
    }

    /// A copy of the calls. The only error is want of memory.
    pub fn try_clone(&self) -> Result<Calls, AllocError>
        ensures { IfOk result (λ copy. copy ≡ self.now) }
    {
        let mut list = Vec::with_capacity(*self.list.allocator(), self.list.len())?;
        for (op, reply) in &self.list {
            let op = op.try_clone()?;
            let reply = reply.try_clone()?;
            list.push((op, reply))?;
        }
        Ok(Calls { list })
    }

    /// Whether the two are the same calls, with the same replies, in the same order.
    pub fn equals(&self, other: &Calls) -> bool
        ensures { IsTrue result ↔ (self.now ≡ other.now) }
    {
        same_calls(self.as_slice(), other.as_slice())
    }
}

impl Committed {
    /// Whether the two are the same session's transaction, with the same calls and replies.
    pub fn equals(&self, other: &Committed) -> bool
        ensures { IsTrue result ↔ (self.now ≡ other.now) }
    {
        self.session == other.session && self.calls.equals(&other.calls)
    }
}

// Whether two lists of calls are the same.
fn same_calls(first: &[(Op, Reply)], second: &[(Op, Reply)]) -> bool
    ensures { IsTrue result ↔ (first.now ≡ second.now) }
{
    if first.len() != second.len() {
        return false;
    }
    for i in 0..first.len() {
        if !first[i].0.equals(&second[i].0) || !first[i].1.equals(&second[i].1) {
            return false;
        }
    }
    true
}

// The calls of a token while they are out of it, so that more can be put after them. Memory is taken before a kernel is
// called, and what it did is then noted without any.
ghost use Rattle.std.specs.Prelude.{◌≡◌, ◌≤◌, ◌++◌, ◌∷◌, [], IfOk, OnOk, drop, length, take, vec_len};
ghost use Rattle.mt_inverse.specs.Steps.{IsWithinSteps};
ghost use Rattle.mt_locked.specs.Tokens.{ArePositions, HasRoom, calls_at};
ghost use Rattle.mt_model.specs.Backwards.{calls_back};

use mt_inverse::call_back;
use mt_model::{Op, Reply};
use std::alloc::AllocError;
use std::marker::Model;

/// The calls of a token, and which of them count. Contracts see for how many more there is memory, too.
pub struct TxnCalls {
    pub(crate) calls: Vec<(Op, Reply)>,
    // the positions of the calls that count, from 0, as they rise
    pub(crate) standing: Vec<usize>,
}

impl Model for TxnCalls {
    ghost use Rattle.std.specs.Prelude.{◌-◌, min, vec_capacity, vec_len};
    ghost use Rattle.mt_locked.specs.Tokens.{ArePositions, CallsSeen, calls_at};

    ghost Value = { CallsSeen };

    ghost view = { λ c. record {
      calls = c.calls.items;
      standing = calls_at c.calls.items c.standing.items;
      spare = vec_capacity c.calls - vec_len c.calls;
      countable = min (vec_capacity c.standing - vec_len c.standing) (65535 - vec_len c.standing);
    } };

    ghost invariant = { λ c. ArePositions c.calls.items c.standing.items };
}

impl TxnCalls {
    // The calls, with the positions of those that count.
    pub(crate) fn of(calls: Vec<(Op, Reply)>, standing: Vec<usize>) -> TxnCalls
        requires { ArePositions calls.items standing.items }
        ensures calls { result.calls ≡ calls.items }
        ensures standing { result.standing ≡ calls_at calls.items standing.items }
    {
        TxnCalls { calls, standing }
    }

    /// Makes room for one more call, which is to count. The only error is want of memory, or that 65,535 calls count.
    /// A kernel lets no transaction make as many.
    pub fn reserve(&mut self) -> Result<(), AllocError>
        ensures room { OnOk result (HasRoom self.new) }
        ensures calls { self.new.calls ≡ self.old.calls }
        ensures standing { self.new.standing ≡ self.old.standing }
    {
        if self.standing.len() >= u16::MAX as usize {
            return Err(AllocError);
        }
        self.calls.reserve(1)?;
        self.standing.reserve(1)
    }

    /// Puts an operation with its reply after the others. It counts.
    pub fn push(&mut self, op: Op, reply: Reply)
        requires room { HasRoom self.old }
        requires steps { IsWithinSteps op }
        ensures calls { self.new.calls ≡ self.old.calls ++ (op, reply) ∷ [] }
        ensures standing { self.new.standing ≡ self.old.standing ++ (op, reply) ∷ [] }
    {
        self.standing.push_reserved(self.calls.len());
        self.calls.push_reserved((op, reply));
    }

    /// The inverses of the calls that count, after the first so many, with what each replies if it finds what its call
    /// left. The last one's comes first. Room is made for them. The only error is want of memory.
    pub fn inverses(&mut self, first: u16) -> Result<Vec<(Op, Reply)>, AllocError>
        requires first { first ≤ length self.old.standing }
        ensures inverses { IfOk result (λ v. v.items ≡ calls_back (drop first self.old.standing)) }
        ensures room { IfOk result (λ v. vec_len v ≤ self.new.spare) }
        ensures calls { self.new.calls ≡ self.old.calls }
        ensures standing { self.new.standing ≡ self.old.standing }
    {
        let inverses = self.calls_back(first)?;
        self.calls.reserve(inverses.len())?;
        Ok(inverses)
    }

    // The inverses of the calls that count, after the first so many, the last one's first.
    fn calls_back(&self, first: u16) -> Result<Vec<(Op, Reply)>, AllocError>
        requires first { first ≤ length self.now.standing }
        ensures { IfOk result (λ v. v.items ≡ calls_back (drop first self.now.standing)) }
    {
        let first = first as usize;
        let mut inverses = Vec::new(*self.calls.allocator());
        let mut left = self.standing.len();
        'calls: while left > first {
            left -= 1;
            let (op, reply) = &self.calls[self.standing[left]];
            if let Some(inverse) = call_back(op, reply)? {
                inverses.push(inverse)?;
            }
        }
        Ok(inverses)
    }

    /// Notes that the transaction went back to the first so many calls that count, by these inverses. Only those first
    /// ones count then.
    pub fn went_back(&mut self, first: u16, inverses: Vec<(Op, Reply)>)
        requires room { vec_len inverses ≤ self.old.spare }
        ensures calls { self.new.calls ≡ self.old.calls ++ inverses.items }
        ensures standing { self.new.standing ≡ take first self.old.standing }
    {
        let mut inverses = inverses;
        // There is room for them.
        drop(self.calls.append(&mut inverses));
        self.standing.truncate(first as usize);
    }
}

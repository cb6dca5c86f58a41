// The operations, and what they reply.
ghost use Rattle.std.specs.Prelude.{◌≡◌, ◌↔◌, IfOk, IsTrue};

use mt_base::{Bytes, CtrNo, RelNo};
use mt_rows::Rows;
use std::alloc::AllocError;

/// An operation on a base: on the row of a relation under a key, on a counter, or on all rows of a relation.
#[derive(PartialEq, Eq, Debug, Drop)]
pub enum Op {
    /// Reads the value under a key.
    Get(RelNo, Bytes),
    /// Puts a value under a key that has none.
    Insert(RelNo, Bytes, Bytes),
    /// Replaces the value under a key that has one.
    Update(RelNo, Bytes, Bytes),
    /// Takes away the value under a key.
    Delete(RelNo, Bytes),
    /// Adds a step, up or down, to a counter, within the counter's bounds.
    Add(CtrNo, i64),
    /// Reads a counter's number.
    Read(CtrNo),
    /// Reads all rows of a relation.
    Scan(RelNo),
}

/// What an operation answers.
#[derive(PartialEq, Eq, Debug, Drop)]
pub enum Reply {
    /// `Get`: this value is under the key.
    Found(Bytes),
    /// `Get`, `Update` and `Delete`: no value is under the key.
    Missing,
    /// `Insert`: a value is under the key already, and stays.
    Exists,
    /// `Insert` and `Add`: it was done.
    Done,
    /// `Update` and `Delete`: it was done, and this value was under the key before.
    Was(Bytes),
    /// `Read`: the counter's number.
    Value(i64),
    /// `Scan`: the relation's rows, in order of key bytes.
    Rows(Rows),
    /// `Add`: the sum would lie outside the counter's bounds, and the counter stays. A kernel with
    /// escrow never ends an operation with this reply, since it refuses such an add first.
    OutOfBounds,
}

impl Op {
    /// A copy of the operation. The only error is want of memory.
    pub fn try_clone(&self) -> Result<Op, AllocError>
        ensures { IfOk result (λ copy. copy ≡ self.now) }
    {
        match self {
            Op::Get(relation, key) => Ok(Op::Get(*relation, key.try_clone()?)),
            Op::Insert(relation, key, value) => {
                let key = key.try_clone()?;
                Ok(Op::Insert(*relation, key, value.try_clone()?))
            }
            Op::Update(relation, key, value) => {
                let key = key.try_clone()?;
                Ok(Op::Update(*relation, key, value.try_clone()?))
            }
            Op::Delete(relation, key) => Ok(Op::Delete(*relation, key.try_clone()?)),
            Op::Add(counter, step) => Ok(Op::Add(*counter, *step)),
            Op::Read(counter) => Ok(Op::Read(*counter)),
            Op::Scan(relation) => Ok(Op::Scan(*relation)),
        }
    }

    /// Whether the two are the same operation with the same arguments.
    pub fn equals(&self, other: &Op) -> bool
        ensures { IsTrue result ↔ (self.now ≡ other.now) }
    {
        match (self, other) {
            (Op::Get(relation, key), Op::Get(its_relation, its_key)) => {
                relation == its_relation && key == its_key
            }
            (Op::Insert(relation, key, value), Op::Insert(its_relation, its_key, its_value)) => {
                relation == its_relation && key == its_key && value == its_value
            }
            (Op::Update(relation, key, value), Op::Update(its_relation, its_key, its_value)) => {
                relation == its_relation && key == its_key && value == its_value
            }
            (Op::Delete(relation, key), Op::Delete(its_relation, its_key)) => {
                relation == its_relation && key == its_key
            }
            (Op::Add(counter, step), Op::Add(its_counter, its_step)) => {
                counter == its_counter && step == its_step
            }
            (Op::Read(counter), Op::Read(its_counter)) => counter == its_counter,
            (Op::Scan(relation), Op::Scan(its_relation)) => relation == its_relation,
            _ => false,
        }
    }
}

impl Reply {
    /// A copy of the reply. The only error is want of memory.
    pub fn try_clone(&self) -> Result<Reply, AllocError>
        ensures { IfOk result (λ copy. copy ≡ self.now) }
    {
        match self {
            Reply::Found(value) => Ok(Reply::Found(value.try_clone()?)),
            Reply::Missing => Ok(Reply::Missing),
            Reply::Exists => Ok(Reply::Exists),
            Reply::Done => Ok(Reply::Done),
            Reply::Was(value) => Ok(Reply::Was(value.try_clone()?)),
            Reply::Value(number) => Ok(Reply::Value(*number)),
            Reply::Rows(rows) => Ok(Reply::Rows(rows.try_clone()?)),
            Reply::OutOfBounds => Ok(Reply::OutOfBounds),
        }
    }

    /// Whether the two are the same reply with the same value, number or rows.
    pub fn equals(&self, other: &Reply) -> bool
        ensures { IsTrue result ↔ (self.now ≡ other.now) }
    {
        match (self, other) {
            (Reply::Found(value), Reply::Found(its_value)) => value == its_value,
            (Reply::Missing, Reply::Missing) => true,
            (Reply::Exists, Reply::Exists) => true,
            (Reply::Done, Reply::Done) => true,
            (Reply::Was(value), Reply::Was(its_value)) => value == its_value,
            (Reply::Value(number), Reply::Value(its_number)) => number == its_number,
            (Reply::Rows(rows), Reply::Rows(its_rows)) => rows.equals(its_rows),
            (Reply::OutOfBounds, Reply::OutOfBounds) => true,
            _ => false,
        }
    }
}

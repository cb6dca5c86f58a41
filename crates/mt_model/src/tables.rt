// The map that a kernel represents, and what each operation does to it. No page, lock or log is known here.
ghost use Rattle.std.specs.Prelude.{◌≡◌, ◌≤◌, ◌<◌, IfOk, OnOk, IfErr, OnErr, All, map, length};
ghost use Rattle.mt_base.specs.declared.limits.TheConstants.{MAX_COUNTERS, MAX_RELATIONS};
ghost use Rattle.mt_base.specs.Limits.{IsCounter, IsStep};
ghost use Rattle.mt_rows.specs.Rows.{IsOrdered};
ghost use Rattle.mt_model.specs.Model.{IsWithin, IsBase, IsInBounds, reply_of, base_after};
ghost use Rattle.mt_model.specs.Performing.{Performs};
ghost use Rattle.mt_model.specs.Tables.{AreLimited, IsLimited, started};
ghost use Rattle.mt_model.specs.Views.{base_of, rows_of, counters_of, relations_of};

use crate::counters::Counters;
use crate::{Count, Op, Reply};
use mt_base::{Bytes, CtrNo, Refusal, RelNo};
use mt_rows::{Row, Rows};
use std::alloc::{AllocError, Global};

/// A base: the rows of some relations, each a value under a key, and some counters in their bounds.
/// Rows stand in order of relation and key bytes, each key once.
///
/// Contracts see its two look-ups, `base_of`: the value under each key, and each counter.
#[derive(Debug, Drop)]
pub struct Base {
    relations: u16,
    rows: Rows,
    counters: Counters,
}

impl Base {
    /// A base of so many relations, with no rows, and of counters with these bounds and starts: low,
    /// high and start of each. The only error is want of memory.
    pub fn new(
        alloc: Global,
        relations: u16,
        counters: &[(i64, i64, i64)],
    ) -> Result<Base, AllocError>
        requires relations { relations ≤ MAX_RELATIONS }
        requires count { length counters.now ≤ MAX_COUNTERS }
        requires bounds { All (λ t. IsCounter t.0 t.1 t.2) counters.now }
        ensures relations { IfOk result (λ base. relations_of base ≡ relations) }
        ensures rows { IfOk result (λ base. length (rows_of base) ≡ 0) }
        ensures counters { IfOk result (λ base. counters_of base ≡ map started counters.now) }
        ensures bounds { IfOk result (λ base. IsBase (base_of base)) }
    {
        let counters = Counters::new(alloc, counters)?;
        Ok(Base {
            relations,
            rows: Rows::empty(alloc),
            counters,
        })
    }

    /// The base with these rows in place of its own. It takes no memory.
    pub fn with_rows(mut self, rows: Rows) -> Base
        ensures rows { rows_of result ≡ rows }
        ensures counters { counters_of result ≡ counters_of self }
        ensures relations { relations_of result ≡ relations_of self }
    {
        self.rows = rows;
        self
    }

    /// How many relations there are; they are numbered from 0.
    pub fn relations(&self) -> u16
        ensures { result ≡ relations_of self.now }
    {
        self.relations
    }

    /// The rows in order of relation and key bytes, each key once.
    pub fn rows(&self) -> &[Row]
        ensures rows { result.now ≡ rows_of self.now }
        ensures ordered { IsOrdered result.now }
        ensures listed { result.now ≡ (base_of self.now).listing.sorted }
    {
        self.rows.as_slice()
    }

    /// The counters; they are numbered from 0. Each lies in its bounds.
    pub fn counters(&self) -> &[Count]
        ensures counters { result.now ≡ counters_of self.now }
        ensures limited { AreLimited result.now }
    {
        self.counters.as_slice()
    }

    /// Makes one operation on the base, and answers its reply.
    ///
    /// | operation | a value is under the key | none is |
    /// |---|---|---|
    /// | `Get` | `Found(value)` | `Missing` |
    /// | `Insert` | `Exists` | `Done` |
    /// | `Update` | `Was(old)` | `Missing` |
    /// | `Delete` | `Was(old)` | `Missing` |
    ///
    /// `Add` answers `Done`, or `OutOfBounds` if the sum would lie outside the counter's bounds,
    /// and changes nothing then; `Read` answers `Value` of the counter's number, and `Scan` the
    /// relation's `Rows`. The operation's relation or counter is there, and its key, value or step
    /// within the limits.
    ///
    /// The only error is [`Refusal::NoMemory`]; the base is then as before.
    pub fn act(&mut self, op: &Op) -> Result<Reply, Refusal>
        requires { IsWithin (relations_of self.old) (length (counters_of self.old)) op.now }
        ensures reply { IfOk result (λ reply. reply ≡ reply_of (base_of self.old) op.now) }
        ensures base { OnOk result (base_of self.new ≡ base_after (base_of self.old) op.now) }
        ensures only_memory { IfErr result (λ why. why ≡ Refusal.NoMemory) }
        ensures kept { OnErr result (self.new ≡ self.old) }
        ensures relations { relations_of self.new ≡ relations_of self.old }
        ensures counters { length (counters_of self.new) ≡ length (counters_of self.old) }
    {
        match op {
            Op::Get(relation, key) => self.get(*relation, key),
            Op::Insert(relation, key, value) => self.insert(*relation, key, value),
            Op::Update(relation, key, value) => self.update(*relation, key, value),
            Op::Delete(relation, key) => Ok(self.delete(*relation, key)),
            Op::Add(counter, step) => Ok(self.add(*counter, *step)),
            Op::Read(counter) => Ok(Reply::Value(self.counters.get(*counter).number)),
            Op::Scan(relation) => self.scan(*relation),
        }
    }

    /// A base keeps each counter in its bounds. The call does nothing but say so to its caller.
    pub fn keeps_bounds(&self)
        ensures { IsBase (base_of self.now) }
    {
        let _counters = self.counters();
    }

    /// A copy of the base. The only error is want of memory.
    pub fn try_clone(&self) -> Result<Base, AllocError>
        ensures { IfOk result (λ copy. copy ≡ self.now) }
    {
        let Base {
            relations,
            rows,
            counters,
        } = self;
        let rows = rows.try_clone()?;
        let counters = counters.try_clone()?;
        Ok(Base {
            relations: *relations,
            rows,
            counters,
        })
    }

    /// The reply to a `Get`.
    fn get(&self, relation: RelNo, key: &Bytes) -> Result<Reply, Refusal>
        ensures reply { IfOk result (λ reply.
            reply ≡ reply_of (base_of self.now) (Op.Get relation key.now)) }
        ensures only_memory { IfErr result (λ why. why ≡ Refusal.NoMemory) }
    {
        match self.rows.get(relation, key) {
            Some(value) => Ok(Reply::Found(value.try_clone()?)),
            None => Ok(Reply::Missing),
        }
    }

    /// The reply to a `Scan`.
    fn scan(&self, relation: RelNo) -> Result<Reply, Refusal>
        ensures reply { IfOk result (λ reply.
            reply ≡ reply_of (base_of self.now) (Op.Scan relation)) }
        ensures only_memory { IfErr result (λ why. why ≡ Refusal.NoMemory) }
    {
        let rows = self.rows.of_relation(relation)?;
        Ok(Reply::Rows(rows))
    }

    /// An `Insert`.
    fn insert(&mut self, relation: RelNo, key: &Bytes, value: &Bytes) -> Result<Reply, Refusal>
        ensures { Performs self.old self.new (Op.Insert relation key.now value.now) result }
    {
        if self.rows.insert(relation, key, value)? {
            Ok(Reply::Done)
        } else {
            Ok(Reply::Exists)
        }
    }

    /// An `Update`.
    fn update(&mut self, relation: RelNo, key: &Bytes, value: &Bytes) -> Result<Reply, Refusal>
        ensures { Performs self.old self.new (Op.Update relation key.now value.now) result }
    {
        match self.rows.update(relation, key, value)? {
            Some(old) => Ok(Reply::Was(old)),
            None => Ok(Reply::Missing),
        }
    }

    /// A `Delete`.
    fn delete(&mut self, relation: RelNo, key: &Bytes) -> Reply
        ensures reply { result ≡ reply_of (base_of self.old) (Op.Delete relation key.now) }
        ensures base { base_of self.new
            ≡ base_after (base_of self.old) (Op.Delete relation key.now) }
        ensures relations { relations_of self.new ≡ relations_of self.old }
        ensures counters { counters_of self.new ≡ counters_of self.old }
    {
        match self.rows.delete(relation, key) {
            Some(old) => Reply::Was(old),
            None => Reply::Missing,
        }
    }

    /// An `Add`.
    fn add(&mut self, counter: CtrNo, step: i64) -> Reply
        requires there { counter < length (counters_of self.old) }
        requires step { IsStep step }
        ensures reply { result ≡ reply_of (base_of self.old) (Op.Add counter step) }
        ensures base { base_of self.new ≡ base_after (base_of self.old) (Op.Add counter step) }
        ensures relations { relations_of self.new ≡ relations_of self.old }
        ensures counters { length (counters_of self.new) ≡ length (counters_of self.old) }
    {
        if self.counters.add(counter, step) {
            Reply::Done
        } else {
            Reply::OutOfBounds
        }
    }
}

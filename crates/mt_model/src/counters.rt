// The counters of a base: numbers within bounds, and adds that leave them there. `tables` adds through it.
ghost use Rattle.std.specs.Prelude.{◌≡◌, ◌<◌, ◌+ℤ◌, ◌≤ℤ◌, ◌&&◌, ◌↔◌, IsTrue, int_le, IfOk, All, map, length, slice_set};
ghost use Rattle.mt_base.specs.Limits.{IsStep, IsCounter};
ghost use Rattle.mt_model.specs.Model.{added, stays};
ghost use Rattle.mt_model.specs.Tables.{AreLimited, IsLimited, IsNear, count_at, started};

use mt_base::CtrNo;
use std::alloc::{AllocError, Global};
use std::marker::Model;

/// A counter: its two bounds, and its number, which lies between them, ends included. The counters
/// of a [`Base`](crate::Base) keep that; a `Count` by itself may be any three numbers.
#[derive(Clone, Copy, PartialEq, Eq, Debug)]
pub struct Count {
    pub low: i64,
    pub high: i64,
    pub number: i64,
}

/// The counters of a base, each in its bounds. Contracts see the list.
#[derive(Debug, Drop)]
pub struct Counters {
    list: Vec<Count>,
}

impl Model for Counters {
    ghost use Rattle.std.specs.Prelude.{List};
    ghost use Rattle.mt_model.specs.declared.counters.Count.{Count};
    ghost use Rattle.mt_model.specs.Tables.{AreLimited};

    ghost Value = { List Count };

    ghost view = { λ c. c.list.items };

    ghost invariant = { λ c. AreLimited c.list.items };
}

/// The sum of a counter's number and a step.
fn sum_of(number: i64, step: i64) -> i64
    requires number { IsNear number }
    requires step { IsStep step }
    ensures { result ≡ number +ℤ step }
{
    number + step
}

/// Whether a number lies between two bounds, ends included.
fn is_between(low: i64, number: i64, high: i64) -> bool
    ensures test { result ≡ (int_le low number && int_le number high) }
    ensures order { IsTrue result ↔ ((low ≤ℤ number) × (number ≤ℤ high)) }
{
    low <= number && number <= high
}

impl Count {
    /// Whether a step leaves the counter in its bounds, ends included.
    pub fn takes(&self, step: i64) -> bool
        requires limited { IsLimited self.now }
        requires step { IsStep step }
        ensures { result ≡ stays self.now step }
    {
        is_between(self.low, sum_of(self.number, step), self.high)
    }

    /// Adds a step if the sum lies in the bounds, and says whether it does.
    fn add(&mut self, step: i64) -> bool
        requires limited { IsLimited self.old }
        requires step { IsStep step }
        ensures added { result ≡ stays self.old step }
        ensures count { self.new ≡ added step self.old }
        ensures limited { IsLimited self.new }
    {
        let sum = sum_of(self.number, step);
        let fits = is_between(self.low, sum, self.high);
        if fits {
            self.number = sum;
        }
        fits
    }
}

impl Counters {
    /// Counters of these bounds and starts: low, high and start of each. The only error is want of
    /// memory.
    pub fn new(alloc: Global, bounds: &[(i64, i64, i64)]) -> Result<Counters, AllocError>
        requires { All (λ t. IsCounter t.0 t.1 t.2) bounds.now }
        ensures counters { IfOk result (λ counters. counters ≡ map started bounds.now) }
        ensures limited { IfOk result AreLimited }
    {
        let mut list = Vec::with_capacity(alloc, bounds.len())?;
        for &(low, high, number) in bounds {
            list.push(Count { low, high, number })?;
        }
        Ok(Counters { list })
    }

    /// The counters in order, lent.
    pub fn as_slice(&self) -> &[Count]
        ensures counters { result.now ≡ self.now }
        ensures limited { AreLimited result.now }
    {
        self.list.as_slice()
    }

    /// A counter.
    pub fn get(&self, counter: CtrNo) -> Count
        requires { counter < length self.now }
        ensures counter { result ≡ count_at self.now counter }
        ensures limited { IsLimited result }
    {
        self.list[usize::from(counter.get())]
    }

    /// Adds a step to a counter if the sum lies in its bounds, and says whether it does.
    pub fn add(&mut self, counter: CtrNo, step: i64) -> bool
        requires there { counter < length self.old }
        requires step { IsStep step }
        ensures added { result ≡ stays (count_at self.old counter) step }
        ensures counters { self.new
            ≡ slice_set self.old counter (added step (count_at self.old counter)) }
        ensures limited { AreLimited self.new }
    {
        let count = &mut self.list[usize::from(counter.get())];
        count.add(step)
    }

    /// A copy of the counters. The only error is want of memory.
    pub fn try_clone(&self) -> Result<Counters, AllocError>
        ensures { IfOk result (λ copy. copy ≡ self.now) }
    {
        let list = self.list.clone()?;
        Ok(Counters { list })
    }
}

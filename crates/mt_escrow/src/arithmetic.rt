// Sums of amounts, none of which leaves the numbers of the machine.
ghost use Rattle.std.specs.Prelude.{◌≡◌, ◌+ℤ◌, ◌-ℤ◌, ◌≤ℤ◌, ◌↔◌, IsTrue};
ghost use Rattle.mt_base.specs.Limits.{IsStep};
ghost use Rattle.mt_model.specs.Escrow.{below, above};
ghost use Rattle.mt_escrow.specs.Rooms.{IsBroad};

/// The sum of two numbers far from the largest.
pub fn sum_of(one: i64, other: i64) -> i64
    requires first { IsBroad one }
    requires second { IsBroad other }
    ensures { result ≡ one +ℤ other }
{
    one + other
}

/// The difference of two numbers far from the largest.
pub fn difference_of(one: i64, other: i64) -> i64
    requires first { IsBroad one }
    requires second { IsBroad other }
    ensures { result ≡ one -ℤ other }
{
    one - other
}

/// A step's part below zero: the step if it goes down, and else nothing.
pub fn part_below(step: i64) -> i64
    requires { IsStep step }
    ensures part { result ≡ below step }
    ensures broad { IsBroad result }
{
    if step < 0 { step } else { 0 }
}

/// A step's part above zero: the step if it goes up, and else nothing.
pub fn part_above(step: i64) -> i64
    requires { IsStep step }
    ensures part { result ≡ above step }
    ensures broad { IsBroad result }
{
    if step < 0 { 0 } else { step }
}

/// Whether two numbers lie between two bounds, ends included; the first is the lesser.
pub fn are_between(low: i64, lesser: i64, greater: i64, high: i64) -> bool
    ensures { IsTrue result ↔ ((low ≤ℤ lesser) × (greater ≤ℤ high)) }
{
    low <= lesser && greater <= high
}

//! Mistakes that a kernel could make, each a state that is not explained. Each is a function with an
//! empty body, whose contract is the counterexample.
ghost use Rattle.mt_live.specs.Counterexamples.{EarlyReleaseFails, PresentNumberFails, OldNumberFails, ReadLeftOverFails, PhantomFails, ForgottenAddFails};

/// A lock that is given up before its transaction ends lets another read what an abort takes away.
pub fn early_release_fails()
    ensures { EarlyReleaseFails }
{}

/// An add that is admitted by the counter's present number alone may leave the bounds once another
/// add is undone.
pub fn present_number_fails()
    ensures { PresentNumberFails }
{}

/// An abort that puts back a counter's old number, in place of adding the step's negative, loses the
/// adds that others made since.
pub fn old_number_fails()
    ensures { OldNumberFails }
{}

/// A read that still stood after the write that it saw is undone would be explained by no base.
pub fn read_left_over_fails()
    ensures { ReadLeftOverFails }
{}

/// A scan that does not lock its relation may answer a row that an abort takes away. The lock of a key does not keep it
/// from that, since it is on each row that is there, and the row was not.
pub fn phantom_fails()
    ensures { PhantomFails }
{}

/// An add that escrow forgets as soon as it is taken back leaves the bounds to others. Once one of these commits, the
/// transaction's own calls reply otherwise than they did.
pub fn forgotten_add_fails()
    ensures { ForgottenAddFails }
{}

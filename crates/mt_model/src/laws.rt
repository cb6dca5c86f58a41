//! Laws of the model. Each is a function with an empty body, whose contract is the law.
ghost use Rattle.mt_model.specs.Laws.{OperationsCommute, InversesTakeBack, NoInverseNoEffect, InversesAskTheSame, BoundsAreKept, TwoNumbersDecide, RepliesAppend, ActedIsAlone, RunIsAlone, LegalAppends, AfterAppends, CallsGoBack};

/// Operations commute if two transactions may hold their locks at once. Each two of these locks are then on different
/// objects, or in modes that are granted together. Both orders give the same replies and the same base, unless one
/// order leaves a counter's bounds (Weikum 1991).
pub fn operations_commute()
    ensures { OperationsCommute }
{}

/// An operation that has an inverse is taken back by it, and one that has none did nothing. An
/// inverse is on the same object, and asks for the same locks.
pub fn inverses_take_back()
    ensures back { InversesTakeBack }
    ensures nothing { NoInverseNoEffect }
    ensures asks { InversesAskTheSame }
{}

/// Calls that are followed by their inverses, the last one's first, leave the base. Each inverse gives the reply that
/// its call foretells.
pub fn calls_go_back()
    ensures { CallsGoBack }
{}

/// Operations keep each counter in its bounds.
pub fn bounds_are_kept()
    ensures { BoundsAreKept }
{}

/// Two numbers decide whether a counter stays in its bounds whichever of some steps are made (escrow,
/// O'Neil 1986). They are the counter with all the steps down, and with all the steps up.
pub fn two_numbers_decide()
    ensures { TwoNumbersDecide }
{}

/// The replies and the base of operations that follow others are those from the base that the
/// others leave.
pub fn replies_append()
    ensures { RepliesAppend }
{}

/// Calls are acted if and only if their replies are those of their operations run alone, and they
/// leave the same base.
pub fn acted_is_alone()
    ensures replies { ActedIsAlone }
    ensures base { RunIsAlone }
{}

/// Transactions after others are legal if and only if the others are, and they themselves from the
/// base that the others leave.
pub fn legal_appends()
    ensures { LegalAppends }
{}

/// The base that transactions after others leave is theirs from the base that the others leave.
pub fn after_appends()
    ensures { AfterAppends }
{}

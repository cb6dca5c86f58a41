//! The laws of the table. Each is a function with an empty body, whose contract is the law.
ghost use Rattle.mt_slock.specs.Laws.{HeldOperationsCommute, TakingOutGivesBack, GrantsOnce};

/// Operations of two transactions, each of which holds the locks of its operation, commute (Weikum 1991). Both orders give
/// the same replies and the same base, wherever neither order leaves a counter's bounds.
pub fn held_operations_commute()
    ensures { HeldOperationsCommute }
{}

/// Locks of which those are taken out after the grant that were not held before are as they were. If all were held
/// before, the grant changed nothing.
pub fn taking_out_gives_back()
    ensures back { TakingOutGivesBack }
    ensures once { GrantsOnce }
{}

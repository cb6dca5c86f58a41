//! Laws of live transactions: why strict commuting locks, escrow and inverses explain every state.
//! Each is a function with an empty body, whose contract is the law.
ghost use Rattle.mt_live.specs.Laws.{BeginKeeps, CallKeeps, EndKeeps, DropKeeps, GivingBackKeeps, CommitKeeps, CommitMovesCounters, InverseKeeps, ReturnKeeps, SettleKeeps, AbortKeeps, AbortLeavesNoTrace, KeptIsExplained, SoundIsExplained, SetMovesInFront, TransactionsMoveInFront, StartIsKept, EventKeeps, EveryScheduleIsRight, EmptyHoldsBook, NobodyLeavesNothing};
ghost use Rattle.mt_live.specs.Alone.{BeginsAlone, AloneHolds, AloneIsFree, AloneActs, AloneReturns, AloneSettles, AloneCommits, AloneLeaves};
ghost use Rattle.mt_live.specs.Witness.{RunTakesPlace};

/// A transaction that begins changes nothing of what is kept.
pub fn begin_keeps()
    ensures { BeginKeeps }
{}

/// A call that is granted keeps what is kept. It is granted if no other transaction's lock bars one that it
/// asks for. Each counter has room then for whichever of the pending adds and this one (Weikum 1991, O'Neil 1986).
pub fn call_keeps()
    ensures { CallKeeps }
{}

/// An operation that ends as one act on the held base, under its locks and admitted by escrow, keeps what is kept.
pub fn end_keeps()
    ensures { EndKeeps }
{}

/// An operation that is taken back unfinished, its add with it, keeps what is kept. So does a call that is refused
/// once its add was granted, and gives that back.
pub fn drop_keeps()
    ensures dropped { DropKeeps }
    ensures given_back { GivingBackKeeps }
{}

/// A commit moves its transaction's entries after the book, whatever others did in between. The book stays legal,
/// and what stands is explained on the base that it leaves. That base's counters move by what the transaction had
/// pending.
pub fn commit_keeps()
    ensures kept { CommitKeeps }
    ensures counters { CommitMovesCounters }
{}

/// The inverse of a transaction's last effect, as one act on the held base, keeps what is kept. The state is as if
/// the undone operation, and what its transaction read after it, had never been.
pub fn inverse_keeps()
    ensures { InverseKeeps }
{}

/// The inverse of a transaction's last effect, run by a transaction that goes on, keeps what is kept: both stay, and
/// bounds suffice still for an add that it took back.
pub fn return_keeps()
    ensures { ReturnKeeps }
{}

/// The end of a return keeps what is kept. What did nothing since the savepoint counts no more.
pub fn settle_keeps()
    ensures { SettleKeeps }
{}

/// If nothing is left to undo, a transaction leaves no trace. What stands is the list without it, on the same
/// book, and the held base is that of a run without it.
pub fn abort_keeps()
    ensures kept { AbortKeeps }
    ensures trace { AbortLeavesNoTrace }
{}

/// What is kept explains the state. Whichever set of live transactions is struck out, the rest has the model's
/// replies. With nobody struck out it leads to the held base.
pub fn kept_is_explained()
    ensures kept { KeptIsExplained }
    ensures sound { SoundIsExplained }
{}

/// The entries of a set of transactions may be moved in front of the others'. So may whole transactions, one after
/// the other, in any order, with every reply as it was.
pub fn entries_move_in_front()
    ensures set { SetMovesInFront }
    ensures transactions { TransactionsMoveInFront }
{}

/// Whatever the schedule, from an empty kernel on counters within their bounds: each state is explained,
/// and its book is legal. For what is kept holds at the start, and each event keeps it.
pub fn every_schedule_is_right()
    ensures start { StartIsKept }
    ensures event { EventKeeps }
    ensures schedule { EveryScheduleIsRight }
{}

/// If nothing stands, the held base is what the book leaves. If nobody is live, nothing stands, no add is
/// pending, and no lock is held.
pub fn an_empty_kernel_holds_its_book()
    ensures base { EmptyHoldsBook }
    ensures nobody { NobodyLeavesNothing }
{}

/// A transaction that lives alone acts as the model: nobody is in its way. Each of its operations replies as on the
/// base that the book and its calls before leave. It goes back by the inverses of those that count past its first so
/// many, the last one first, and the first count then. Its commit puts just its calls after the book, and when it is
/// gone no transaction is active.
pub fn one_alone_acts_as_the_model()
    ensures begins { BeginsAlone }
    ensures holds { AloneHolds }
    ensures free { AloneIsFree }
    ensures acts { AloneActs }
    ensures returns { AloneReturns }
    ensures settles { AloneSettles }
    ensures commits { AloneCommits }
    ensures leaves { AloneLeaves }
{}

/// The conditions of the events can be met: a run in which each takes place.
pub fn a_run_takes_place()
    ensures { RunTakesPlace }
{}

// A kernel over pages: its type, how it is put together, and laws of whatever state it shows.
// Its calls are in the other files. Each tests for refusals first, and then calls the core.
ghost use Rattle.std.specs.Prelude.{◌≡◌, ◌≢◌, ◌↔◌, ℕ, List, [], None, Some, Err, IsTrue, true, false, is_some};
ghost use Rattle.mt_base.specs.declared.refusal.Refusal.{Refusal};
ghost use Rattle.mt_live.specs.Machine.{State, start, IsKept, is_live};
ghost use Rattle.mt_live.specs.declared.transactions.TxnState.TheVariants.{Open, Committing};
ghost use Rattle.mt_log.specs.Words.{has_failed};
ghost use Rattle.mt_model.specs.History.{IsLegal};
ghost use Rattle.mt_model.specs.Model.{Base};
ghost use Rattle.mt_model.specs.declared.operations.Op.{Op};
ghost use Rattle.mt_base.specs.Limits.{IsRelationCount};
ghost use Rattle.mt_frame.specs.declared.slots.MasterSlot.{MasterSlot};
ghost use Rattle.mt_core.specs.Consistent.{IsFresh};
ghost use Rattle.mt_core.specs.Seen.{core_last};
ghost use Rattle.mt_txn.specs.Well.{IsWell, Opens, RestartsFrom};
ghost use Rattle.mt_op.specs.Operations.{operation_log};

use mt_base::Refusal;
use mt_core::Core;
use mt_disk::Device;
use mt_escrow::Escrow;
use mt_model::Committed;
use mt_op::Operations;
use std::alloc::Global;

// Whether a call was refused with 2.
pub(crate) fn is_failure<T>(outcome: &Result<T, Refusal>) -> bool
    ensures { IsTrue result ↔ (outcome.now ≡ Err Refusal.DeviceFailed) }
{
    matches!(outcome, Err(Refusal::DeviceFailed))
}

/// A kernel over its pages.
///
/// Whatever the schedule of its calls, each state that it shows is one that the laws of mt_live keep. The book is
/// legal from the first base on. What stands of the live transactions is explained, and the pages hold the base that
/// it leads to.
pub struct Kernel<D: Device> {
    pub(crate) core: Core<D>,
    pub(crate) alloc: Global,
    // how many there are
    pub(crate) relations: u16,
    pub(crate) counters: u16,
    // whether a call was refused with 2
    pub(crate) failed: bool,
    // whatever the base that the pages hold
    ghost well: { IsWell D.Device relations counters core },
    // it can be restarted, whatever base it began on
    ghost starts: { ∥ ((first : Base) × RestartsFrom D.Device relations counters first core) ∥₁ },
    ghost schema: { IsRelationCount relations },
}

impl<D: Device> Kernel<D> {
    ghost use Rattle.mt_txn.specs.Shown.{Restarts, Shows, is_failed};
    ghost use Rattle.mt_txn.specs.Words.{kernel_book, kernel_commits, kernel_state, kernel_is_busy};

    /// A kernel without transactions, over operations of a log area without records but the images that it began
    /// with. Their pages hold a base, which is the first of its history. The escrow has that base's counters. It
    /// takes no memory.
    pub fn assemble(
        alloc: Global,
        operations: Operations<D>,
        escrow: Escrow,
        relations: u16,
        counters: u16,
    ) -> Kernel<D>
        requires fresh { IsFresh operations escrow }
        requires schema { IsRelationCount relations }
        requires opens { ∥ ((first : Base)
            × Opens D.Device operations escrow relations counters first) ∥₁ }
        ensures shows { (first : Base) → Opens D.Device operations escrow relations counters first
            → Shows first (start first) result }
        ensures restarts { (first : Base) → Opens D.Device operations escrow relations counters first
            → Restarts first result }
        ensures schema { (result.relations ≡ relations) × (result.counters ≡ counters) }
        ensures fails { is_failed result ≡ has_failed (operation_log operations) }
        ensures operations { result.core.operations ≡ operations }
        ensures numbers { core_last result.core ≡ 0 }
    {
        Kernel {
            core: Core::new(alloc, operations, escrow),
            alloc,
            relations,
            counters,
            failed: false,
        }
    }

    /// Whether the device has failed in a call of this kernel. Each later call is refused with 2 then, and the device
    /// is to be opened again.
    pub fn has_failed(&self) -> bool
        ensures { result ≡ is_failed self.now }
    {
        self.failed || self.core.log().has_failed()
    }

    /// The durable commits of this opening, in their order. They are those of the state that the kernel shows, and
    /// legal from its first base on. Each transaction replied as it does alone after those before it.
    pub fn book(&self) -> &[Committed]
        ensures book { result.now ≡ kernel_book self.now }
        ensures legal { (first : Base) (s : State) → Shows first s self.now
            → ∥ ((s.book ≡ result.now) × IsLegal first result.now) ∥₁ }
    {
        self.core.book()
    }

    /// Whatever state a kernel shows, the laws of mt_live keep it. Its book is legal. What stands of its live
    /// transactions is explained on what the book leaves, whoever is struck out. It leads to the base that the pages
    /// hold.
    pub fn shows_what_is_kept(&self)
        ensures { (first : Base) (s : State) → Shows first s self.now
            → ∥ IsKept first s ∥₁ }
    {}

    /// Whatever state a kernel shows has the transactions that are active, and those that run an operation. If none
    /// commits, no commit is under way.
    pub fn shows_who_lives(&self)
        ensures lives { (first : Base) (s : State) → Shows first s self.now
            → (t : ℕ) → is_live s t ≡ is_some (kernel_state self.now t) }
        ensures runs { (first : Base) (s : State) → Shows first s self.now
            → (t : ℕ) (op : Op) → s.running t ≡ Some op → kernel_is_busy self.now t ≡ true }
        ensures idle { (first : Base) (s : State) → Shows first s self.now
            → (t : ℕ) → kernel_state self.now t ≡ Some Open → s.running t ≡ None
            → kernel_is_busy self.now t ≡ false }
        ensures commits { ((t : ℕ) → kernel_state self.now t ≢ Some Committing)
            → kernel_commits self.now ≡ [] }
    {}
}

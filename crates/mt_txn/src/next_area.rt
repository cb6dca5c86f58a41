// A kernel that goes on over the other area of its log: it is taken apart, and joined to other operations.
// mt_restart calls it in a rotation, in which the book and the numbers go on.
ghost use Rattle.std.specs.Prelude.{◌≡◌, ◌<◌, ◌↔◌, ℕ, List, IsTrue, length};
ghost use Rattle.mt_core.specs.Consistent.{IsFresh};
ghost use Rattle.mt_core.specs.Seen.{core_last, rest_last};
ghost use Rattle.mt_log.specs.Words.{has_failed};
ghost use Rattle.mt_model.specs.History.{after};
ghost use Rattle.mt_model.specs.Model.{Base};
ghost use Rattle.mt_replay.specs.Stands.{CanRestart};
ghost use Rattle.mt_txn.specs.Shown.{IsFoundIn, Restarts, is_failed, kernel_device, kernel_log};
ghost use Rattle.mt_txn.specs.Turned.{CanGoOn, HasNobody, IsForced, Resumes};
ghost use Rattle.mt_txn.specs.Words.{kernel_book, kernel_commits};
ghost use Rattle.mt_op.specs.Operations.{operation_log};

use crate::kernel::Kernel;
use crate::kernel_rest::KernelRest;
use mt_core::Core;
use mt_disk::Device;
use mt_escrow::Escrow;
use mt_op::Operations;

impl<D: Device> Kernel<D> {
    /// Whether no transaction is active.
    pub fn has_nobody(&self) -> bool
        ensures { IsTrue result ↔ HasNobody self.now }
    {
        self.core.live().count() == 0
    }

    /// Whether a commit was appended that is not in the book yet.
    pub fn is_committing(&self) -> bool
        ensures { IsTrue result ↔ (0 < length (kernel_commits self.now)) }
    {
        self.core.count_commits() > 0
    }

    /// If no transaction is active and all that was appended is durable, a restart finds what the whole book leads
    /// to, whatever a crash leaves.
    pub fn rests_on_its_book(&self)
        ensures { (first : Base) (c : List ℕ) → Restarts first self.now → HasNobody self.now
            → IsForced self.now → D.may_leave (kernel_device self.now) c
            → ∥ CanRestart self.now.relations self.now.counters c (after first (kernel_book self.now)) ∥₁ }
    {}

    /// The kernel goes on over other operations and another escrow, which have what its book leads to: the laws see
    /// nothing of it. The operations are those of a log area without records but the images that it began with. It
    /// takes no memory.
    pub fn join(rest: KernelRest, operations: Operations<D>, escrow: Escrow) -> Kernel<D>
        requires fresh { IsFresh operations escrow }
        requires goes_on { CanGoOn D.Device rest operations escrow }
        ensures resumed { Resumes rest operations escrow result }
        ensures schema { (result.relations ≡ rest.relations) × (result.counters ≡ rest.counters) }
        ensures fails { is_failed result ≡ has_failed (operation_log operations) }
        ensures operations { result.core.operations ≡ operations }
        ensures book { result.core.book ≡ rest.rest.book }
        ensures numbers { core_last result.core ≡ rest_last rest.rest }
    {
        let KernelRest {
            rest,
            alloc,
            relations,
            counters,
        } = rest;
        Kernel {
            core: Core::join(rest, operations, escrow),
            alloc,
            relations,
            counters,
            failed: false,
        }
    }
}

impl<D: Device + Drop> Kernel<D> {
    /// The device, for another opening. What lived is gone, and nothing of it is taken back. It takes no memory.
    ///
    /// Whatever a crash leaves of it, a restart finds what some of the first commits lead to, each alone, in their
    /// order. They are those of the book, and after them those under way. Each commit of the book is one of them, and
    /// each whose record is durable.
    pub fn into_device(self) -> D
        ensures device { result ≡ kernel_device self }
        ensures found { IsFoundIn self result }
    {
        let Kernel {
            core,
            alloc: _,
            relations: _,
            counters: _,
            failed: _,
        } = self;
        let (device, _rest) = core.part();
        device
    }
}

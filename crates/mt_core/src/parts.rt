// The parts of `Core`, and the core of a kernel that begins.
// Each other file of this crate has some of the events, which change the parts together.
ghost use Rattle.std.specs.Prelude.{◌≡◌};
ghost use Rattle.mt_live.specs.Machine.{start};
ghost use Rattle.mt_model.specs.Model.{IsBase};
ghost use Rattle.mt_op.specs.Operations.{IsRight};
ghost use Rattle.mt_steps.specs.Held.{Holds};
ghost use Rattle.mt_core.specs.Consistent.{Origin, IsSchema, IsFirstArea, IsEscrowed, IsFresh, IsIn};
ghost use Rattle.mt_core.specs.Restartable.{IsRestartable};

use mt_base::{LogPos, TxnNo};
use mt_disk::Device;
use mt_escrow::Escrow;
use mt_live::Live;
use mt_model::Committed;
use mt_op::{OpScope, Operations};
use mt_slock::LockTable;
use std::alloc::Global;

/// A commit under way: its record is appended, and is not yet known to be durable.
#[derive(Clone, Copy, PartialEq, Eq, Debug)]
pub struct Commit {
    /// Its transaction.
    pub txn: TxnNo,
    /// The position of its record.
    pub place: LogPos,
}

/// The core of a kernel over pages. Its parts are the operations over their pages, the transactions that live, their
/// semantic locks and pending adds, and the durable commits.
pub struct Core<D: Device> {
    pub(crate) operations: Operations<D>,
    pub(crate) live: Live,
    pub(crate) locks: LockTable,
    pub(crate) escrow: Escrow,
    pub(crate) running: Vec<OpScope>,
    // in the order of their records
    pub(crate) commits: Vec<Commit>,
    pub(crate) book: Vec<Committed>,
    // the number of the last operation that began
    pub(crate) last: u64,
    // log bytes kept for ends of transactions and for inverses
    pub(crate) reserved: u64,
}

impl<D: Device> Core<D> {
    /// The core of a kernel that begins: no transaction is active, and no commit is in the book. The operations are
    /// those of a log area without records but the images that it began with. The escrow has the counters as page 2
    /// has them. It takes no memory.
    pub fn new(alloc: Global, operations: Operations<D>, escrow: Escrow) -> Core<D>
        requires fresh { IsFresh operations escrow }
        ensures state { (origin : Origin) → IsSchema origin → IsBase origin.first → Holds origin.pages origin.first
            → IsRight D.Device origin.pages origin.relations origin.counters operations
            → IsEscrowed origin.counters origin.first escrow
            → IsIn D.Device origin origin.first (start origin.first) result }
        ensures restartable { (origin : Origin) → IsSchema origin → IsFirstArea origin → IsBase origin.first
            → Holds origin.pages origin.first
            → IsRight D.Device origin.pages origin.relations origin.counters operations
            → IsEscrowed origin.counters origin.first escrow → IsRestartable origin result }
        ensures operations { result.operations ≡ operations }
        ensures numbers { result.last ≡ 0 }
    {
        Core {
            operations,
            live: Live::new(alloc),
            locks: LockTable::new(alloc),
            escrow,
            running: Vec::new(alloc),
            commits: Vec::new(alloc),
            book: Vec::new(alloc),
            last: 0,
            reserved: 0,
        }
    }
}

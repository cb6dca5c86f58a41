// The core taken apart at a rotation of the log, and put together over the next area.
ghost use Rattle.std.specs.Prelude.{◌≡◌};
ghost use Rattle.mt_core.specs.Consistent.{IsFresh};
ghost use Rattle.mt_core.specs.Turned.{IsRestOf, Resumes};
ghost use Rattle.mt_core.specs.Seen.{core_device};

use crate::parts::Core;
use mt_disk::Device;
use mt_escrow::Escrow;
use mt_live::Live;
use mt_model::Committed;
use mt_op::Operations;
use mt_slock::LockTable;

/// What a kernel has beside its operations and its escrow: the book, and the numbers of transactions and operations.
/// While no transaction is active it outlasts the area of the log.
#[derive(Drop)]
pub struct Rest {
    live: Live,
    locks: LockTable,
    book: Vec<Committed>,
    last: u64,
    reserved: u64,
}

impl<D: Device + Drop> Core<D> {
    /// The device, and the rest beside operations and escrow. What is under way is gone, and nothing of it is taken
    /// back. It takes no memory.
    pub fn part(self) -> (D, Rest)
        ensures device { result.0 ≡ core_device self }
        ensures rest { IsRestOf self result.1 }
    {
        let Core {
            operations,
            live,
            locks,
            escrow: _,
            running,
            commits: _,
            book,
            last,
            reserved,
        } = self;
        let device = operations.into_device(running);
        let rest = Rest {
            live,
            locks,
            book,
            last,
            reserved,
        };
        (device, rest)
    }
}

impl<D: Device> Core<D> {
    /// The core of a kernel over another area of the log, which has no record but the images that it began with. The
    /// book and the numbers go on: the laws see nothing of it. It takes no memory.
    pub fn join(rest: Rest, operations: Operations<D>, escrow: Escrow) -> Core<D>
        requires fresh { IsFresh operations escrow }
        ensures resumed { Resumes D.Device rest operations escrow result }
        ensures operations { result.operations ≡ operations }
        ensures book { result.book ≡ rest.book }
        ensures numbers { result.last ≡ rest.last }
    {
        let Rest {
            live,
            locks,
            book,
            last,
            reserved,
        } = rest;
        let alloc = *book.allocator();
        Core {
            operations,
            live,
            locks,
            escrow,
            running: Vec::new(alloc),
            commits: Vec::new(alloc),
            book,
            last,
            reserved,
        }
    }
}

// What mt_txn reads of the core: its transactions, its log, its book and what is under way. Nothing changes here.
ghost use Rattle.std.specs.Prelude.{◌≡◌, ◌==◌, ◌<◌, ◌≢◌, ℕ, length, Some, true, not};
ghost use Rattle.mt_core.specs.Consistent.{AtPlace, IsOwnerOf};
ghost use Rattle.mt_op.specs.declared.scope.OpScope.{OpScope};
ghost use Rattle.mt_core.specs.Seen.{core_log};
ghost use Rattle.mt_op.specs.World.{undoes_of};

use crate::parts::Core;
use mt_base::{OpNo, TxnNo};
use mt_disk::Device;
use mt_live::Live;
use mt_log::Log;
use mt_model::Committed;
use mt_op::OpScope;

// The transaction whose operation under way has this number, if there is one.
fn owner_in(running: &[OpScope], op: OpNo) -> Option<TxnNo>
    ensures { IsOwnerOf running.now op result }
{
    for (place, one) in running.iter().enumerate() {
        if one.number() == op {
            return Some(running[place].txn());
        }
    }
    None
}

impl<D: Device> Core<D> {
    /// The transactions that live, lent.
    pub fn live(&self) -> &Live
        ensures { result.now ≡ self.now.live }
    {
        &self.live
    }

    /// The log, lent.
    pub fn log(&self) -> &Log
        ensures { result.now ≡ core_log self.now }
    {
        self.operations.log()
    }

    /// The number of the operation that began last.
    pub fn last(&self) -> u64
        ensures { result ≡ self.now.last }
    {
        self.last
    }

    /// How many commits are under way.
    pub fn count_commits(&self) -> usize
        ensures { result ≡ length self.now.commits.items }
    {
        self.commits.len()
    }

    /// Whether the operation at a place is an inverse.
    pub fn is_inverse(&self, place: usize) -> bool
        requires { place < length self.now.running.items }
        ensures { AtPlace self.now.running.items place (λ r. result ≡ not (undoes_of r == 0)) }
    {
        self.running[place].undoes() != 0
    }

    /// The durable commits, in their order.
    pub fn book(&self) -> &[Committed]
        ensures { result.now ≡ self.now.book.items }
    {
        self.book.as_slice()
    }

    /// The transaction whose operation under way has this number, if there is one.
    pub fn owner(&self, op: OpNo) -> Option<TxnNo>
        ensures owner { IsOwnerOf self.now.running.items op result }
    {
        owner_in(self.running.as_slice(), op)
    }
}

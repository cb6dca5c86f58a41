// What changes in the core once an operation or an inverse has ended: what counts, claims, log bytes, pending adds.
// `steps` calls this after the last step. No page and no record of the log changes here.
ghost use Rattle.std.specs.Prelude.{ℕ, ◌≡◌, IfSome, IfNone, Some, ◌≢◌, ◌<◌, ◌++◌, [], List, length};
ghost use Rattle.mt_live.specs.Adds.{GivesBack, add_before};
ghost use Rattle.mt_live.specs.declared.transactions.TxnState.TheVariants.{Returning};
ghost use Rattle.mt_model.specs.Pending.{pending_of};
ghost use Rattle.mt_model.specs.declared.pending_add.Pending.{Pending};
ghost use Rattle.mt_model.specs.Model.{Base, inverse_of};
ghost use Rattle.mt_inverse.specs.Steps.{IsWithinSteps};
ghost use Rattle.mt_model.specs.declared.operations.Op.{Op};
ghost use Rattle.mt_model.specs.declared.operations.Reply.{Reply};
ghost use Rattle.mt_core.specs.Consistent.{IsReadyAt, AtPlace, Origin, state_in};
ghost use Rattle.mt_op.specs.declared.scope.OpScope.{OpScope};
ghost use Rattle.mt_core.specs.Advancing.{EndsInverse, EndsReady, EndsReturned, EndsUndone};
ghost use Rattle.mt_op.specs.World.{undoes_of};

use crate::parts::Core;
use crate::reservations::{bytes_kept, pages_kept};
use mt_base::TxnNo;
use mt_disk::Device;
use mt_escrow::Escrow;
use mt_live::TxnState;
use mt_model::{Op, Reply};
use mt_op::log_bytes_for;
use mt_steps::pages_to_undo;

// If the operation is an add, the last such add of the transaction is pending no more.
pub(crate) fn let_go(escrow: &mut Escrow, txn: TxnNo, op: &Op)
    ensures given { GivesBack txn op.now escrow.old.pending escrow.new.pending }
    ensures last { (ps : List Pending) → escrow.old.pending ≡ ps ++ add_before txn op.now []
        → escrow.new.pending ≡ ps }
    ensures committed { escrow.new.committed ≡ escrow.old.committed }
    ensures aside { escrow.new.aside ≡ escrow.old.aside }
{
    if let Op::Add(counter, step) = op {
        escrow.taken_back(txn, *counter, *step);
    }
}

// If the inverse is an add, so is what it takes back, and the last such add of the transaction is pending no more.
fn let_inverted_go(escrow: &mut Escrow, txn: TxnNo, inverse: &Op)
    requires { IsWithinSteps inverse.now }
    ensures given { (op : Op) (reply : Reply) → inverse_of op reply ≡ Some inverse.now
        → GivesBack txn op escrow.old.pending escrow.new.pending }
    ensures committed { escrow.new.committed ≡ escrow.old.committed }
    ensures aside { escrow.new.aside ≡ escrow.old.aside }
{
    if let Op::Add(counter, step) = inverse {
        escrow.taken_back(txn, *counter, -*step);
    }
}

// If the inverse is an add, so is what it takes back, and the last such add of the transaction is set aside.
fn let_inverted_aside(escrow: &mut Escrow, txn: TxnNo, inverse: &Op)
    requires { IsWithinSteps inverse.now }
    ensures given { (op : Op) (reply : Reply) → inverse_of op reply ≡ Some inverse.now
        → GivesBack txn op escrow.old.pending escrow.new.pending }
    ensures committed { escrow.new.committed ≡ escrow.old.committed }
    ensures aside { (op : Op) (reply : Reply) → inverse_of op reply ≡ Some inverse.now → (ps : List Pending)
        → pending_of txn escrow.old.pending ≡ ps ++ add_before txn op []
        → escrow.new.aside ≡ escrow.old.aside ++ add_before txn op [] }
{
    if let Op::Add(counter, step) = inverse {
        escrow.set_aside(txn, *counter, -*step);
    }
}

// To how many of its operations a transaction of this state goes back, if it goes on then.
fn first_of(state: Option<TxnState>) -> Option<u16>
    ensures some { IfSome result (λ first. state ≡ Some (Returning first)) }
    ensures none { IfNone result ((first : ℕ) → state ≢ Some (Returning first)) }
{
    match state {
        Some(TxnState::Returning(first)) => Some(first),
        _ => None,
    }
}

impl<D: Device> Core<D> {
    // Ends an operation that is ready and no inverse: it stands after all others, with this reply. If it did
    // nothing, what was kept for its inverse is free.
    pub(crate) fn note_end(&mut self, place: usize, reply: Reply)
        requires ready { ∥ ((origin : Origin) × (base : Base)
            × IsReadyAt D.Device origin base self.old place reply) ∥₁ }
        requires within { place < length self.old.running.items }
        requires forward { AtPlace self.old.running.items place (λ r. undoes_of r ≡ 0) }
        ensures { EndsReady D.Device self.old self.new place reply }
    {
        let scope = self.running.remove(place);
        let txn = scope.txn();
        let number = scope.number();
        let op = self.operations.end(scope);
        self.operations
            .give_back(pages_to_undo(&op) - pages_kept(&op, &reply));
        self.reserved -= log_bytes_for(&op) - bytes_kept(&op, &reply);
        self.live.note(txn, number, op, reply);
    }

    // Ends an inverse that is ready, of a transaction that goes on: it is noted after all others, with this reply. What
    // it takes back counts no more. The pages and the log bytes that were kept for it are used.
    fn note_back(&mut self, place: usize, reply: Reply)
        requires ready { ∥ ((origin : Origin) × (base : Base)
            × IsReadyAt D.Device origin base self.old place reply) ∥₁ }
        requires within { place < length self.old.running.items }
        requires back { AtPlace self.old.running.items place (λ r. undoes_of r ≢ 0) }
        requires returning { (first : ℕ) × AtPlace self.old.running.items place
            (λ r. state_in self.old.live.members r.txn ≡ Some (Returning first)) }
        ensures { EndsReturned D.Device self.old self.new place reply }
    {
        let scope = self.running.remove(place);
        let txn = scope.txn();
        let number = scope.number();
        let inverse = self.operations.end(scope);
        let_inverted_aside(&mut self.escrow, txn, &inverse);
        self.live.note_back(txn, number, inverse, reply);
    }

    // Ends an inverse that is ready, of an abort: what it takes back stands no more, nor what its transaction did after
    // it.
    fn note_undone(&mut self, place: usize)
        requires ready { ∥ ((origin : Origin) × (base : Base) × (reply : Reply)
            × IsReadyAt D.Device origin base self.old place reply) ∥₁ }
        requires within { place < length self.old.running.items }
        requires back { AtPlace self.old.running.items place (λ r. undoes_of r ≢ 0) }
        requires aborting { AtPlace self.old.running.items place
            (λ r. (first : ℕ) → state_in self.old.live.members r.txn ≢ Some (Returning first)) }
        ensures { EndsUndone D.Device self.old self.new place }
    {
        let scope = self.running.remove(place);
        let txn = scope.txn();
        let inverse = self.operations.end(scope);
        self.live.undone(txn);
        let_inverted_go(&mut self.escrow, txn, &inverse);
    }

    // Ends an inverse that is ready, with this reply, as its transaction is to be undone or goes on.
    pub(crate) fn note_inverse(&mut self, place: usize, reply: Reply)
        requires ready { ∥ ((origin : Origin) × (base : Base)
            × IsReadyAt D.Device origin base self.old place reply) ∥₁ }
        requires within { place < length self.old.running.items }
        requires back { AtPlace self.old.running.items place (λ r. undoes_of r ≢ 0) }
        ensures { EndsInverse D.Device self.old self.new place reply }
    {
        match first_of(self.live.state(self.running[place].txn())) {
            Some(_) => self.note_back(place, reply),
            None => {
                self.note_undone(place);
                drop(reply);
            }
        }
    }
}

// The rules over all records of a log area, tested record by record. The first batch has images alone.
// No record follows the end of its transaction, and no page record that of its operation. An inverse names a finished
// operation, once. Of a page the first record has the image, and no other. mt_log's scan asks it about each batch.
ghost use Rattle.std.specs.Prelude.{◌≡◌, ◌==◌, ◌&&◌, ◌||◌, ◌∷◌, ◌++◌, ℕ, List, [], true, false, not, if◌then◌else◌, IfOk, IfErr, OnOk, OnErr};
ghost use Rattle.std.specs.BTreeSet.{contains, IsUnchanged};
ghost use Rattle.std.specs.Ordering.{nat_cmp};
ghost use Rattle.mt_base.specs.declared.refusal.Refusal.{Refusal};
ghost use Rattle.mt_frame.specs.declared.records.Record.{Record};
ghost use Rattle.mt_frame.specs.Grammar.{txn_of};
ghost use Rattle.mt_area_rules.specs.History.{ends_txn, ends_op, finishes, undoes_op, is_of_page, is_in_its_batch, txn_is_open, op_is_open, inverse_is_due, image_is_first, may_stand, MayFollow};
ghost use Rattle.mt_area_rules.specs.Known.{pair_cmp, Knows};

use mt_base::Refusal;
use mt_frame::Record;
use std::alloc::{AllocError, Global};
use std::collections::BTreeSet;

/// What the records of a log area so far say of those that may follow. Which transactions and operations have ended,
/// which operations are finished and which of them are undone, and which pages have their image. Each record costs a
/// few look-ups in ordered sets.
#[derive(Drop)]
pub struct AreaRules {
    ended: BTreeSet<u64>,
    imaged: BTreeSet<u16>,
    over: BTreeSet<u64>,
    finished: BTreeSet<(u64, u64)>,
    undone: BTreeSet<(u64, u64)>,
}

/// Puts an operation into a set of them, each of which is after its transaction. It is refused for want of memory
/// alone, and the set has the same ones then.
pub fn note_operation(set: &mut BTreeSet<(u64, u64)>, txn: u64, op: u64) -> Result<(), AllocError>
    ensures ok { OnOk result ((t o : ℕ) → contains pair_cmp set.new (t, o) ≡
        (contains pair_cmp set.old (t, o) || ((txn == t) && (op == o)))) }
    ensures err { OnErr result (IsUnchanged set.old set.new) }
{
    match set.insert((txn, op)) {
        Ok(_) => Ok(()),
        Err(_) => Err(AllocError),
    }
}

// Notes the transaction that a record ends: no later record may be of it.
fn note_end(set: &mut BTreeSet<u64>, entry: &Record) -> Result<(), AllocError>
    ensures { OnOk result ((t : ℕ) → contains nat_cmp set.new t ≡
        (contains nat_cmp set.old t || ends_txn t entry.now)) }
{
    match entry {
        Record::Commit { txn } => match set.insert(txn.get()) {
            Ok(_) => Ok(()),
            Err(_) => Err(AllocError),
        },
        Record::AbortEnd { txn } => match set.insert(txn.get()) {
            Ok(_) => Ok(()),
            Err(_) => Err(AllocError),
        },
        _ => Ok(()),
    }
}

// Notes the page of a record: the area has its image then, so no later record may carry one.
fn note_page(set: &mut BTreeSet<u16>, entry: &Record) -> Result<(), AllocError>
    ensures { OnOk result ((p : ℕ) → contains nat_cmp set.new p ≡
        (contains nat_cmp set.old p || is_of_page p entry.now)) }
{
    match entry {
        Record::Page { page, .. } => match set.insert(page.get()) {
            Ok(_) => Ok(()),
            Err(_) => Err(AllocError),
        },
        _ => Ok(()),
    }
}

// Notes the operation that a record ends: no later page record may be of it.
fn note_op_end(set: &mut BTreeSet<u64>, entry: &Record) -> Result<(), AllocError>
    ensures { OnOk result ((o : ℕ) → contains nat_cmp set.new o ≡
        (contains nat_cmp set.old o || ends_op o entry.now)) }
{
    match entry {
        Record::OpEnd { op, .. } => match set.insert(op.get()) {
            Ok(_) => Ok(()),
            Err(_) => Err(AllocError),
        },
        Record::OpDropped { op, .. } => match set.insert(op.get()) {
            Ok(_) => Ok(()),
            Err(_) => Err(AllocError),
        },
        _ => Ok(()),
    }
}

// Notes an operation that has finished and is no inverse: an inverse may name it from then on.
fn note_finish(set: &mut BTreeSet<(u64, u64)>, entry: &Record) -> Result<(), AllocError>
    ensures { OnOk result ((t o : ℕ) → contains pair_cmp set.new (t, o) ≡
        (contains pair_cmp set.old (t, o) || finishes t o entry.now)) }
{
    match entry {
        Record::OpEnd {
            txn,
            op,
            undoes,
            ..
        } => {
            if *undoes != 0 {
                return Ok(());
            }
            note_operation(set, txn.get(), op.get())
        }
        _ => Ok(()),
    }
}

// Notes the operation that an inverse took back: no other inverse may name it.
fn note_undoing(set: &mut BTreeSet<(u64, u64)>, entry: &Record) -> Result<(), AllocError>
    ensures { OnOk result ((t o : ℕ) → contains pair_cmp set.new (t, o) ≡
        (contains pair_cmp set.old (t, o) || undoes_op t o entry.now)) }
{
    match entry {
        Record::OpEnd { txn, undoes, .. } => {
            if *undoes == 0 {
                return Ok(());
            }
            note_operation(set, txn.get(), *undoes)
        }
        _ => Ok(()),
    }
}

// Whether a record of this transaction may be in its batch: transaction 0 has the images of the first batch alone.
fn is_in_place(first: bool, txn: u64) -> bool
    ensures { result ≡ (if first then txn == 0 else not (txn == 0)) }
{
    if first { txn == 0 } else { txn != 0 }
}

impl AreaRules {
    /// What is known before the first record: nothing.
    pub fn new(alloc: Global) -> AreaRules
        ensures { Knows result [] }
    {
        AreaRules {
            ended: BTreeSet::new(alloc),
            imaged: BTreeSet::new(alloc),
            over: BTreeSet::new(alloc),
            finished: BTreeSet::new(alloc),
            undone: BTreeSet::new(alloc),
        }
    }

    // Whether no record has ended the record's transaction.
    fn txn_is_open(&self, entry: &Record) -> bool
        ensures { (earlier : List Record) → Knows self.now earlier → result ≡ txn_is_open earlier entry.now }
    {
        !self.ended.contains(&entry.txn().get())
    }

    // Whether no record has ended the operation of a page record.
    fn op_is_open(&self, entry: &Record) -> bool
        ensures { (earlier : List Record) → Knows self.now earlier → result ≡ op_is_open earlier entry.now }
    {
        match entry {
            Record::Page { op, .. } => !self.over.contains(&op.get()),
            _ => true,
        }
    }

    // Whether an inverse names an operation that has finished and was not taken back.
    fn inverse_is_due(&self, entry: &Record) -> bool
        ensures { (earlier : List Record) → Knows self.now earlier → result ≡ inverse_is_due earlier entry.now }
    {
        match entry {
            Record::OpEnd { txn, undoes, .. } => {
                if *undoes == 0 {
                    return true;
                }
                let name = (txn.get(), *undoes);
                self.finished.contains(&name) && !self.undone.contains(&name)
            }
            _ => true,
        }
    }

    // Whether a page record has an image if and only if none of that page was before it.
    fn image_is_first(&self, entry: &Record) -> bool
        ensures { (earlier : List Record) → Knows self.now earlier → result ≡ image_is_first earlier entry.now }
    {
        match entry {
            Record::Page { page, image, .. } => {
                let seen = self.imaged.contains(&page.get());
                if image.is_some() { !seen } else { seen }
            }
            _ => true,
        }
    }

    // Whether the record may stand after those that are known.
    fn may_stand(&self, first: bool, entry: &Record) -> bool
        ensures { (earlier : List Record) → Knows self.now earlier → result ≡ may_stand first earlier entry.now }
    {
        is_in_place(first, entry.txn().get())
            && self.txn_is_open(entry)
            && self.op_is_open(entry)
            && self.inverse_is_due(entry)
            && self.image_is_first(entry)
    }

    // Takes the record to those that are known.
    fn note(&mut self, entry: &Record) -> Result<(), AllocError>
        ensures { OnOk result ((earlier : List Record) → Knows self.old earlier
            → Knows self.new (earlier ++ entry.now ∷ [])) }
    {
        note_end(&mut self.ended, entry)?;
        note_page(&mut self.imaged, entry)?;
        note_op_end(&mut self.over, entry)?;
        note_finish(&mut self.finished, entry)?;
        note_undoing(&mut self.undone, entry)
    }

    /// Whether each of the records may stand after those known before and those before it in this list. `first` says
    /// that they are the area's first batch. If they may, they are known from then on. After `false` and after the
    /// only refusal, [`Refusal::NoMemory`], some of them may be known, so the rules are then to be dropped.
    pub fn admit(&mut self, first: bool, records: &[Record]) -> Result<bool, Refusal>
        ensures yes { IfOk result (λ ok. (earlier : List Record) → Knows self.old earlier → ok ≡ true
            → MayFollow first earlier records.now) }
        ensures known { IfOk result (λ ok. (earlier : List Record) → Knows self.old earlier → ok ≡ true
            → Knows self.new (earlier ++ records.now)) }
        ensures no { IfOk result (λ ok. (earlier : List Record) → Knows self.old earlier → ok ≡ false
            → MayFollow first earlier records.now → ⊥) }
        ensures only_memory { IfErr result (λ refusal. refusal ≡ Refusal.NoMemory) }
    {
        for entry in records {
            if !self.may_stand(first, entry) {
                return Ok(false);
            }
            self.note(entry)?;
        }
        Ok(true)
    }
}

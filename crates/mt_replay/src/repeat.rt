// History repeated in memory: the records of a log's area over the pages that the area found.
ghost use Rattle.std.specs.Prelude.{◌≡◌, ◌+◌, ◌<◌, ◌≤◌, ◌∷◌, [], length, get_or, map, OnOk, IfErr, IfOk};
ghost use Rattle.std.specs.List.{AllByRecursion};
ghost use Rattle.mt_base.specs.declared.limits.TheConstants.{PAGE_BYTES};
ghost use Rattle.mt_base.specs.Edits.{splice};
ghost use Rattle.mt_base.specs.declared.refusal.Refusal.{Refusal};
ghost use Rattle.mt_frame.specs.Grammar.{IsRecord};
ghost use Rattle.mt_log.specs.Batch.{joined};
ghost use Rattle.mt_log.specs.Found.{records_of};
ghost use Rattle.mt_log.specs.Holds.{HasItsPage, AreRecords, AreBatches};
ghost use Rattle.mt_space.specs.Changes.{PageBytes};
ghost use Rattle.mt_steps.specs.Repeated.{changed, dropped, finished, held, logged, repeat, repeated};
ghost use Rattle.mt_space.specs.PageLists.{AreWhole};
ghost use Rattle.mt_replay.specs.Memory.{AreFirst, Sets};
ghost use Rattle.mt_replay.specs.Passes.{Backs, Fits, IsShown, IsWhole, Notes, PutsBack, Repeats, Takes, before_of, change_of};

use mt_base::{OpNo, PageNo, Refusal};
use mt_frame::Record;
use mt_log::Batch;
use std::alloc::{AllocError, Global};
use std::collections::{BTreeMap, BTreeSet};

/// What a change replaced that an operation has made and not ended. The bytes are those of its record.
#[derive(Clone, Copy)]
pub(crate) struct Unfinished<'a> {
    // the number alone: a list takes no value that has both a model and lent bytes
    pub(crate) page: u16,
    pub(crate) start: u16,
    pub(crate) old: &'a [u8],
}

/// All pages, as the records so far make them, and by its number the changes of each operation that has not ended, in
/// their order.
#[derive(Drop)]
pub(crate) struct Repeating<'a> {
    pub(crate) alloc: Global,
    pub(crate) pages: Vec<[u8; 4096]>,
    pub(crate) unfinished: BTreeMap<u64, Vec<Unfinished<'a>>>,
}

/// All pages with what records from an index on leave unfinished put back. With them are the numbers of the operations
/// that are unfinished and do not end there.
#[derive(Drop)]
pub(crate) struct TakingBack {
    pub(crate) pages: Vec<[u8; 4096]>,
    pub(crate) open: BTreeSet<u64>,
}

// Puts bytes into a page at an offset.
fn put(pages: &mut Vec<[u8; 4096]>, page: PageNo, start: u16, bytes: &[u8])
    requires whole { AreWhole pages.old.items }
    requires inside { page < length pages.old.items }
    requires range { start + length bytes.now ≤ PAGE_BYTES }
    ensures { Sets pages.old.items pages.new.items page (splice start bytes.now (get_or pages.old.items page [])) }
{
    let from = usize::from(start);
    pages[usize::from(page.get())][from..from + bytes.len()].copy_from_slice(bytes);
}

// Puts the old bytes of changes back, those of the last one first.
fn put_all_back(pages: &mut Vec<[u8; 4096]>, list: &[Unfinished<'_>])
    requires whole { AreWhole pages.old.items }
    requires fits { AllByRecursion (Fits (length pages.old.items)) list.now }
    ensures { PutsBack (map before_of list.now) pages.old.items pages.new.items }
{
    let mut i = list.len();
    while i > 0 {
        i -= 1;
        let change = &list[i];
        put(pages, PageNo::new(change.page), change.start, change.old);
    }
}

impl<'a> Repeating<'a> {
    // The pages that an area found, with nothing unfinished.
    pub(crate) fn over(alloc: Global, pages: Vec<[u8; 4096]>) -> Repeating<'a>
        requires whole { AreWhole pages.items }
        ensures whole { IsWhole result }
        ensures pages { result.pages ≡ pages }
        ensures shown { (f : PageBytes) → AreFirst pages.items f
            → IsShown result (record { pages = f; unfinished = [] }) }
    {
        Repeating {
            alloc,
            pages,
            unfinished: BTreeMap::new(alloc),
        }
    }

    // The changes of an operation, which are no longer among those that are unfinished.
    fn taken(&mut self, op: OpNo) -> Vec<Unfinished<'a>>
        requires { IsWhole self.old }
        ensures { Takes op result.items self.old self.new }
    {
        match self.unfinished.remove(&op.get()) {
            Some(list) => list,
            None => Vec::new(self.alloc),
        }
    }

    // A change of an operation is among those that are unfinished.
    fn note(&mut self, op: OpNo, change: Unfinished<'a>) -> Result<(), AllocError>
        requires whole { IsWhole self.old }
        requires fits { Fits (length self.old.pages.items) change }
        ensures { OnOk result (Notes op change.entry self.old self.new) }
    {
        let mut list = self.taken(op);
        list.push(change)?;
        self.unfinished.insert(op.get(), list)?;
        Ok(())
    }

    // An operation changes bytes of a page to these.
    fn change(&mut self, op: OpNo, change: Unfinished<'a>, new: &[u8]) -> Result<(), AllocError>
        requires whole { IsWhole self.old }
        requires fits { Fits (length self.old.pages.items) change }
        requires same { length new.now ≡ length change.old.now }
        ensures { OnOk result (Repeats (λ x. changed x (change_of op change.entry new.now ∷ [])) self.old self.new) }
    {
        let page = PageNo::new(change.page);
        let start = change.start;
        put(&mut self.pages, page, start, new);
        self.note(op, change)
    }

    // An operation has ended.
    fn finish(&mut self, op: OpNo)
        requires { IsWhole self.old }
        ensures { Repeats (λ x. finished x op) self.old self.new }
    {
        drop(self.taken(op));
    }

    // An operation was taken back: its old bytes are put back, those of its last change first.
    fn drop_back(&mut self, op: OpNo)
        requires { IsWhole self.old }
        ensures { Repeats (λ x. dropped x op) self.old self.new }
    {
        let list = self.taken(op);
        put_all_back(&mut self.pages, &list);
    }

    // The next record.
    fn repeat_one(&mut self, entry: &'a Record) -> Result<(), Refusal>
        requires whole { IsWhole self.old }
        requires grammar { IsRecord entry.now }
        requires inside { HasItsPage (length self.old.pages.items) entry.now }
        ensures repeated { OnOk result (Repeats (λ x. repeated x entry.now) self.old self.new) }
        ensures only_memory { IfErr result (λ why. why ≡ Refusal.NoMemory) }
    {
        match entry {
            Record::Page { txn, .. } if txn.get() == 0 => Ok(()),
            Record::Page {
                op,
                page,
                start,
                old,
                new,
                ..
            } => {
                let change = Unfinished {
                    page: page.get(),
                    start: *start,
                    old: old.as_slice(),
                };
                self.change(*op, change, new.as_slice())?;
                Ok(())
            }
            Record::OpEnd { op, .. } => {
                self.finish(*op);
                Ok(())
            }
            Record::OpDropped { op, .. } => {
                self.drop_back(*op);
                Ok(())
            }
            _ => Ok(()),
        }
    }

    // The records of a batch.
    fn repeat_records(&mut self, records: &'a [Record]) -> Result<(), Refusal>
        requires whole { IsWhole self.old }
        requires each { AreRecords (length self.old.pages.items) records.now }
        ensures repeated { OnOk result (Repeats (λ x. repeat x records.now) self.old self.new) }
        ensures only_memory { IfErr result (λ why. why ≡ Refusal.NoMemory) }
    {
        for entry in records {
            self.repeat_one(entry)?;
        }
        Ok(())
    }

    // The records of an area's batches, in their order.
    pub(crate) fn repeat_all(&mut self, batches: &'a [Batch]) -> Result<(), Refusal>
        requires whole { IsWhole self.old }
        requires each { AreBatches (length self.old.pages.items) (records_of batches.now) }
        ensures repeated { OnOk result (Repeats (λ x. repeat x (joined (records_of batches.now))) self.old self.new) }
        ensures only_memory { IfErr result (λ why. why ≡ Refusal.NoMemory) }
    {
        for batch in batches {
            self.repeat_records(&batch.records)?;
        }
        Ok(())
    }

    // The pages held, after all records of the batches: the changes that are unfinished are put back, the last one
    // first. The records are gone over again for that order. The lists have each operation's changes apart, and in
    // any bytes two unfinished operations may have changed the same ones.
    pub(crate) fn take_back(self, batches: &[Batch]) -> Result<Vec<[u8; 4096]>, AllocError>
        requires whole { AreWhole self.pages.items }
        requires each { AreBatches (length self.pages.items) (records_of batches.now) }
        ensures whole { IfOk result (λ pages. AreWhole pages.items) }
        ensures count { IfOk result (λ pages. length pages.items ≡ length self.entry.pages.items) }
        ensures held { IfOk result (λ pages. (opening : PageBytes)
            → IsShown self.entry (logged opening (joined (records_of batches.now)))
            → AreFirst pages.items (held (logged opening (joined (records_of batches.now))))) }
    {
        let Repeating {
            alloc,
            pages,
            unfinished,
        } = self;
        let open = unfinished.into_keys().collect(alloc)?;
        let mut back = TakingBack { pages, open };
        let mut i = batches.len();
        while i > 0 {
            i -= 1;
            back.pass_records(&batches[i].records);
        }
        let TakingBack { pages, open: _ } = back;
        Ok(pages)
    }
}

impl TakingBack {
    // The record before those that were passed. The last changes of an operation that is unfinished are those that it
    // has not ended: no end of it stands after them.
    fn pass_one(&mut self, entry: &Record)
        requires whole { AreWhole self.old.pages.items }
        requires grammar { IsRecord entry.now }
        requires inside { HasItsPage (length self.old.pages.items) entry.now }
        ensures { Backs (entry.now ∷ []) self.old self.new }
    {
        match entry {
            Record::Page { txn, .. } if txn.get() == 0 => {}
            Record::Page {
                op,
                page,
                start,
                old,
                ..
            } => {
                if self.open.contains(&op.get()) {
                    put(&mut self.pages, *page, *start, old.as_slice());
                }
            }
            Record::OpEnd { op, .. } => {
                self.open.remove(&op.get());
            }
            Record::OpDropped { op, .. } => {
                self.open.remove(&op.get());
            }
            _ => {}
        }
    }

    // The records of a batch, from its last one on.
    fn pass_records(&mut self, records: &[Record])
        requires whole { AreWhole self.old.pages.items }
        requires each { AreRecords (length self.old.pages.items) records.now }
        ensures { Backs records.now self.old self.new }
    {
        let mut i = records.len();
        while i > 0 {
            i -= 1;
            self.pass_one(&records[i]);
        }
    }
}

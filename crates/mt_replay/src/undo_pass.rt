// The last pass of a restart: inverses of the losers, on pages in memory. Nothing of it is logged.
ghost use Rattle.std.specs.Prelude.{◌≡◌, ◌↔◌, ◌⊎◌, ◌<◌, ◌≤◌, ◌+◌, ◌*◌, [], ℕ, All, true, false, length, get_or, Ok, Err, IsTrue, IfOk, IfErr, OnErr};
ghost use Rattle.std.specs.List.{AllByRecursion};
ghost use Rattle.mt_base.specs.declared.limits.TheConstants.{MASTER_BYTES, MAX_PAGES, PAGE_BYTES};
ghost use Rattle.mt_base.specs.Edits.{patched};
ghost use Rattle.mt_base.specs.declared.refusal.Refusal.{Refusal};
ghost use Rattle.mt_frame.specs.Grammar.{IsOperation};
ghost use Rattle.mt_inverse.specs.Effects.{op_with, reply_with, reply_back as back};
ghost use Rattle.mt_space.specs.Changes.{PageBytes, AreShort};
ghost use Rattle.mt_space.specs.PageLists.{AreWhole};
ghost use Rattle.mt_replay.specs.Memory.{AreFirst, AreGood, Sets, Makes};
ghost use Rattle.mt_page_rules.specs.Checks.{AreBroken, AreCheckedIn};
ghost use Rattle.mt_page_rules.specs.Faults.{IsFaulty};
ghost use Rattle.mt_replay.specs.Recoverable.{IsOf};
ghost use Rattle.mt_replay.specs.Recorded.{op_of, reply_in, reply_back};
ghost use Rattle.mt_replay.specs.Undoing.{IsRoom, IsUndoPlan, Misses, Undoes};

use crate::losers::Loser;
use mt_base::limits::MASTER_BYTES;
use mt_base::{Edit, Format, PageNo, Refusal};
use mt_counters::{SchemaSizes, sizes};
use mt_file::fits;
use mt_frame::LoggedOp;
use mt_index::Search;
use mt_inverse::Effect;
use mt_page_rules::AllPages;
use mt_pool::slot_at;
use mt_space::pages::{COUNTERS, MAP, RECORDS};
use mt_space::{Changes, Pages, patch};
use mt_steps::{Act, bytes_put, plan};
use std::alloc::Global;

/// All pages of a device in memory, which break no rule of their formats. Each of them is at hand, so a plan over
/// them asks for none.
#[derive(Drop)]
pub struct Restored {
    /// The bytes of each page, by its number.
    pub pages: Vec<[u8; 4096]>,
    ghost whole: { AreWhole pages.items },
    ghost few: { length pages.items ≤ MAX_PAGES },
    ghost good: { AreGood pages.items },
}

impl Pages for Restored {
    ghost use Rattle.std.specs.Prelude.{length, slice_get};
    ghost use Rattle.mt_replay.specs.Memory.{whole_at};

    ghost is_sound = { λ restored. Unit {0} };

    ghost total = { λ restored. length restored.pages.items };

    ghost at_hand = { λ restored p. slice_get restored.pages.items p };

    ghost whole = { λ restored sound p bytes there. whole_at restored.pages.items p bytes restored.whole there };

    fn count(&self) -> u16 {
        self.pages.len() as u16
    }

    fn page(&self, page: PageNo) -> Option<&[u8; 4096]> {
        self.pages.get(usize::from(page.get()))
    }
}

/// What an operation did, by what is logged of it.
pub fn effect_of(done: &LoggedOp) -> Effect<'_>
    ensures op { op_with result ≡ op_of done.now }
    ensures reply { reply_with result ≡ reply_in done.now }
    ensures back { back result ≡ reply_back done.now }
{
    match done {
        LoggedOp::Insert {
            relation,
            key,
            value,
        } => Effect::Inserted {
            relation: *relation,
            key,
            value,
        },
        LoggedOp::Update {
            relation,
            key,
            value,
            old,
        } => Effect::Updated {
            relation: *relation,
            key,
            value,
            old,
        },
        LoggedOp::Delete { relation, key, old } => Effect::Deleted {
            relation: *relation,
            key,
            old,
        },
        LoggedOp::Add { counter, step } => Effect::Added {
            counter: *counter,
            step: *step,
        },
    }
}

// Whether what is logged is of a relation or counter of the schema.
fn is_of(counted: SchemaSizes, done: &LoggedOp) -> bool
    ensures { IsTrue result ↔ IsOf counted.relations counted.counters done.now }
{
    match done {
        LoggedOp::Insert { relation, .. }
        | LoggedOp::Update { relation, .. }
        | LoggedOp::Delete { relation, .. } => relation.get() < counted.relations,
        LoggedOp::Add { counter, .. } => counter.get() < counted.counters,
    }
}

// Makes edits in one page.
fn patch_one(pages: &mut Vec<[u8; 4096]>, page: PageNo, edits: &[Edit])
    requires whole { AreWhole pages.old.items }
    requires inside { page < length pages.old.items }
    requires fits { All (λ e. e.start + length e.bytes ≤ PAGE_BYTES) edits.now }
    ensures { Sets pages.old.items pages.new.items page (patched edits.now (get_or pages.old.items page [])) }
{
    patch(&mut pages[usize::from(page.get())], edits);
}

// Makes changes in pages in memory.
fn make_all(pages: &mut Vec<[u8; 4096]>, changes: &Changes)
    requires whole { AreWhole pages.old.items }
    requires inside { AllByRecursion (λ c. c.page < length pages.old.items) changes.now.list.items }
    requires short { ∥ ((f : PageBytes) × AreFirst pages.old.items f × AreShort changes.now.list.items f) ∥₁ }
    ensures { Makes changes.now.list.items pages.old.items pages.new.items }
{
    for change in &changes.list {
        patch_one(pages, change.page, change.edits.as_slice());
    }
}

impl Restored {
    ghost use Rattle.mt_replay.specs.Losers.{HasUndone, StopsAt};

    /// Takes all pages of a device of this format, if they break no rule of their formats and of the index. Each entry
    /// names a record of its relation and key, and each record has one entry. Each bucket page stands in the chain of
    /// its keys. No value is longer than the device's format lets one be.
    ///
    /// Else they are refused with [`Refusal::BadFormat`] and the offset of the slot of a page that breaks one, and let
    /// go. The page is named whose own rule is broken first, in the order of the tests. They are page 2 as the
    /// schema's, the pages of the index, and pages of records by their bytes. Then come bucket pages by an entry that
    /// names no such record, and pages of records by one that the index does not name. The only other refusal is
    /// [`Refusal::NoMemory`].
    pub(crate) fn checked(
        alloc: Global,
        format: Format,
        pages: Vec<[u8; 4096]>,
    ) -> Result<Restored, Refusal>
        requires whole { AreWhole pages.items }
        requires some { 16 ≤ length pages.items }
        requires few { length pages.items ≤ MAX_PAGES }
        ensures pages { IfOk result (λ restored. restored.pages.items ≡ pages.items) }
        ensures good { IfOk result (λ restored. AreCheckedIn format restored.pages.items) }
        ensures bad { (at : ℕ) → result ≡ Err (Refusal.BadFormat at) → AreBroken format pages.items }
        ensures cause { IfErr result (λ why. (why ≡ Refusal.NoMemory)
            ⊎ ((p : ℕ) × (why ≡ Refusal.BadFormat (MASTER_BYTES + PAGE_BYTES * p)) × IsFaulty format pages.items p)) }
    {
        let all = AllPages { pages, format };
        let broken = all.first_broken(alloc)?;
        match broken {
            Some(page) => Err(Refusal::BadFormat(slot_at(MASTER_BYTES, page))),
            None => {
                let AllPages { pages, .. } = all;
                Ok(Restored { pages })
            }
        }
    }

    // A page of records that takes a record of so many bytes; `None` if none does, and if there is no record. mt_op
    // keeps a tree of what each page takes. Losers are few, and a tree would have to be noted anew after each of them.
    fn room_for(&self, bytes: u16) -> Option<PageNo>
        ensures { (f : PageBytes) → AreFirst self.now.pages.items f
            → IsRoom (length self.now.pages.items) bytes f result }
    {
        if bytes == 0 {
            return None;
        }
        for number in 0..self.pages.len() {
            if self.pages[usize::from(MAP)][number] == RECORDS
                && bytes <= fits(&self.pages[number])
            {
                return Some(PageNo::new(number as u16));
            }
        }
        None
    }

    // The changes of the inverse of what is logged; `None` if it does not find what the record says.
    fn plan_undo(&self, alloc: Global, done: &LoggedOp) -> Result<Option<Changes>, Refusal>
        requires { IsOperation done.now }
        ensures planned { IfOk result (λ plan. IsUndoPlan self.now.pages.items done.now plan) }
        ensures only_memory { IfErr result (λ why. why ≡ Refusal.NoMemory) }
    {
        if !is_of(sizes(&self.pages[usize::from(COUNTERS)]), done) {
            return Ok(None);
        }
        let effect = effect_of(done);
        let act = {
            let inverse = effect.inverse()?;
            let room = self.room_for(bytes_put(&inverse));
            plan(alloc, self, room, &inverse, false, &mut Search::Start)?
        };
        match act {
            Act::Made(changes, reply) => {
                if !effect.is_taken_back_by(&reply) {
                    return Ok(None);
                }
                Ok(Some(changes))
            }
            Act::Full => Ok(None),
            Act::Lock(_, _) => unreachable!(),
            Act::Broken => unreachable!(),
        }
    }

    // Undoes a finished operation by its inverse, which splits no bucket of the index. Its record goes into a page
    // of records with room, and into a new page only if no page has room. It gives back each page that it leaves
    // without a record, and changes eight pages at most.
    //
    // `false` means that the inverse does not find what the record says, or too few free pages. It means too that
    // the relation or counter is not there. The pages, or the record, are none that a kernel left. The only refusal
    // is [`Refusal::NoMemory`]. The pages are as before in both cases.
    fn undo(&mut self, alloc: Global, done: &LoggedOp) -> Result<bool, Refusal>
        requires { IsOperation done.now }
        ensures undone { result ≡ Ok true → Undoes self.old.pages.items done.now self.new.pages.items }
        ensures missed { result ≡ Ok false → Misses self.old.pages.items done.now }
        ensures same { result ≡ Ok false → self.new ≡ self.old }
        ensures err { OnErr result (self.new ≡ self.old) }
        ensures only_memory { IfErr result (λ why. why ≡ Refusal.NoMemory) }
    {
        let plan = self.plan_undo(alloc, done)?;
        match plan {
            Some(changes) => {
                make_all(&mut self.pages, &changes);
                Ok(true)
            }
            None => Ok(false),
        }
    }

    /// Undoes the losers, the latest end first, each on the pages that the later ones left (Weikum 1991).
    ///
    /// It is refused with [`Refusal::BadFormat`] at the batch of a record whose inverse does not find what it says,
    /// or too few free pages. The only other refusal is [`Refusal::NoMemory`]. The pages are dropped then.
    pub(crate) fn undo_all(self, alloc: Global, losers: &[Loser]) -> Result<Restored, Refusal>
        requires { AllByRecursion (λ loser. IsOperation loser.done) losers.now }
        ensures undone { IfOk result (λ restored. HasUndone self.pages.items losers.now restored.pages.items) }
        ensures bad { (at : ℕ) → result ≡ Err (Refusal.BadFormat at) → StopsAt self.pages.items losers.now at }
        ensures cause { IfErr result (λ why. (why ≡ Refusal.NoMemory)
            ⊎ ((at : ℕ) × (why ≡ Refusal.BadFormat at))) }
    {
        let mut restored = self;
        let mut i = losers.len();
        while i > 0 {
            i -= 1;
            let loser = &losers[i];
            if !restored.undo(alloc, &loser.done)? {
                return Err(Refusal::BadFormat(loser.place));
            }
        }
        Ok(restored)
    }
}

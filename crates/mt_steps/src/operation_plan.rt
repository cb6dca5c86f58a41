// The plan of an operation of any kind, the bytes of its record, and how many free pages it and its inverse may take.
ghost use Rattle.std.specs.Prelude.{◌≡◌, ◌⊎◌, ◌^◌, ◌<◌, ◌≤◌, ℕ, [], length, false, None, Some, IfOk};
ghost use Rattle.mt_base.specs.declared.limits.TheConstants.{MAX_RELATIONS, MAX_WRITTEN_PAGES};
ghost use Rattle.mt_model.specs.Model.{IsWithin, inverse_of};
ghost use Rattle.mt_model.specs.declared.operations.Op.{Op};
ghost use Rattle.mt_model.specs.declared.operations.Reply.{Reply};
ghost use Rattle.mt_space.specs.Changes.{after};
ghost use Rattle.mt_overlay.specs.Overlays.{AreAtHand};
ghost use Rattle.mt_steps.specs.Acts.{IfLock, IfMade, IfFull, IfBroken};
ghost use Rattle.mt_steps.specs.Asks.{AsksFor, HasSearched};
ghost use Rattle.mt_steps.specs.Plans.{free_pages, own_needs, undo_pages, record_bytes, TakesPages, IsTight, CanPlan, InPages, IsPlanned};
ghost use Rattle.mt_steps.specs.Logged.{logged_of};

use crate::act::Act;
use crate::counter_plan::{add_to, read_from};
use crate::delete_plan::delete;
use crate::get_plan::get;
use crate::insert_plan::insert;
use crate::scan_plan::scan;
use crate::scan_progress::ScanProgress;
use crate::update_plan::update;
use mt_base::PageNo;
use mt_base::limits::{
    DELETE_INVERSE_PAGES, INSERT_PAGES, UNSPLIT_INSERT_PAGES, UPDATE_INVERSE_PAGES, UPDATE_PAGES,
};
use mt_index::Search;
use mt_model::Op;
use mt_slots::row_bytes;
use mt_space::Pages;
use std::alloc::{AllocError, Global};

/// Plans an operation over the pages at hand. [`Act::Lock`] names a page that is not at hand and has to be locked and
/// shown first; then the plan is made anew. [`Act::Made`] says what changes, in pages that are all at hand, and the
/// operation's reply. An operation that only reads changes nothing, and asks for no page but for read. One that is
/// not logged changes nothing. [`Act::Full`] says that the operation cannot be done without more free pages, or
/// without another page for its record than `room`. Of pages that break no rule it is never answered that they do
/// ([`Act::Broken`]).
///
/// A row's operation asks for the directory and for the pages of its key's bucket, until it is known what the key
/// has. Then a get asks to read the record's page. A delete asks to write it, and for the map only if the page is
/// given back. An update asks to write it, and for another page, the map and the bucket only if it has no room for
/// the new value. An insert asks to write the page for its record, with the map if none is named. It asks for the
/// map, the directory to write and further pages only if the bucket has no room for the entry.
///
/// A scan asks to read the directory and all pages of buckets, until the records of its relation are known. Then it
/// asks to read their pages. It reads what is at hand anew in each plan, unless it is planned by [`plan_over`].
///
/// [`plan_over`]: crate::plan_over
///
/// A record goes into the page `room`, which holds records, or into a new page if none is named. An insert splits
/// a bucket of the index at most if `split` is set. No operation takes more free pages than [`pages_for`] says of it.
/// The only error is want of memory, and there is no plan then.
///
/// The plan goes on with the search for the key, which has come so far in plans over fewer pages: pages of the
/// bucket that are passed are not looked at again.
pub fn plan<V: Pages>(
    alloc: Global,
    views: &V,
    room: Option<PageNo>,
    op: &Op,
    split: bool,
    search: &mut Search,
) -> Result<Act, AllocError>
    requires sound { V.is_sound views.now }
    requires good { CanPlan (V.at_hand views.now) room (V.total views.now) op.now }
    requires searched { HasSearched (V.at_hand views.now) (V.total views.now) op.now search.old }
    ensures lock { IfOk result (λ act. IfLock act (λ p _. (V.at_hand views.now p ≡ None) × (p < V.total views.now))) }
    ensures asks { IfOk result (λ act. IfLock act
        (AsksFor (V.at_hand views.now) room (V.total views.now) split op.now)) }
    ensures made { (relations counters : ℕ) → relations ≤ MAX_RELATIONS → IsWithin relations counters op.now →
        IfOk result (λ act. IfMade act (λ changes reply.
        InPages (V.at_hand views.now) room relations counters (V.total views.now) (λ pages.
        IsPlanned relations counters (V.total views.now) (V.at_hand views.now) pages changes op.now split reply))) }
    ensures takes { (relations counters : ℕ) → relations ≤ MAX_RELATIONS → IsWithin relations counters op.now →
        IfOk result (λ act. IfMade act (λ changes reply.
        InPages (V.at_hand views.now) room relations counters (V.total views.now) (λ pages.
        TakesPages room op.now pages (after changes pages)))) }
    ensures there { IfOk result (λ act. IfMade act (λ changes reply. AreAtHand (V.at_hand views.now) changes)) }
    ensures few { IfOk result (λ act. IfMade act (λ changes reply. length changes ≤ MAX_WRITTEN_PAGES)) }
    ensures idle { IfOk result (λ act. IfMade act (λ changes reply. logged_of op.now reply ≡ None → changes ≡ [])) }
    ensures full { (relations counters : ℕ) → relations ≤ MAX_RELATIONS → IsWithin relations counters op.now →
        IfOk result (λ act. IfFull act (
        InPages (V.at_hand views.now) room relations counters (V.total views.now) (λ pages.
        (free_pages (V.total views.now) pages < own_needs op.now split) ⊎ IsTight room pages (record_bytes op.now)))) }
    ensures broken { IfOk result (λ act. IfBroken act ⊥) }
    ensures searched { HasSearched (V.at_hand views.now) (V.total views.now) op.now search.new }
{
    match op {
        Op::Get(relation, key) => get(alloc, views, *relation, key.as_slice(), search),
        Op::Insert(relation, key, value) => insert(
            alloc,
            views,
            room,
            *relation,
            key.as_slice(),
            value.as_slice(),
            split,
            search,
        ),
        Op::Update(relation, key, value) => update(
            alloc,
            views,
            room,
            *relation,
            key.as_slice(),
            value.as_slice(),
            search,
        ),
        Op::Delete(relation, key) => delete(alloc, views, *relation, key.as_slice(), search),
        Op::Add(counter, step) => add_to(alloc, views, *counter, *step),
        Op::Read(counter) => Ok(read_from(alloc, views, *counter)),
        Op::Scan(relation) => scan(alloc, views, *relation, &mut ScanProgress::new(alloc)),
    }
}

/// The bytes of the record that an operation puts, 0 if it puts none.
pub fn bytes_put(op: &Op) -> u16
    requires { record_bytes op.now < 2 ^ 16 }
    ensures { result ≡ record_bytes op.now }
{
    match op {
        Op::Insert(_, key, value) | Op::Update(_, key, value) => {
            row_bytes(key.as_slice(), value.as_slice()) as u16
        }
        _ => 0,
    }
}

/// How many free pages an operation may take for itself. An insert takes one more if it may split a bucket of the
/// index.
pub fn pages_for(op: &Op, split: bool) -> u16
    ensures { result ≡ own_needs op.now split }
{
    match op {
        Op::Insert(_, _, _) if split => INSERT_PAGES,
        Op::Insert(_, _, _) => UNSPLIT_INSERT_PAGES,
        Op::Update(_, _, _) => UPDATE_PAGES,
        _ => 0,
    }
}

/// How many free pages the inverse of an operation may take, which splits no bucket of the index.
pub fn pages_to_undo(op: &Op) -> u16
    ensures pages { result ≡ undo_pages op.now }
    ensures enough { (reply : Reply) (inverse : Op) → inverse_of op.now reply ≡ Some inverse →
        own_needs inverse false ≤ undo_pages op.now }
{
    match op {
        Op::Update(_, _, _) => UPDATE_INVERSE_PAGES,
        Op::Delete(_, _) => DELETE_INVERSE_PAGES,
        _ => 0,
    }
}

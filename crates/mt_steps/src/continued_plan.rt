// The plan of an operation over its copies of pages. A scan goes on from where its plan over fewer copies has come.
ghost use Rattle.std.specs.Prelude.{◌≡◌, ◌⊎◌, ◌<◌, ◌≤◌, ℕ, List, [], length, None, Some, IfOk};
ghost use Rattle.mt_base.specs.declared.limits.TheConstants.{MAX_RELATIONS, MAX_WRITTEN_PAGES, PAGE_BYTES};
ghost use Rattle.mt_model.specs.Model.{IsWithin};
ghost use Rattle.mt_space.specs.Changes.{after};
ghost use Rattle.mt_overlay.specs.Overlays.{AreAtHand, copied};
ghost use Rattle.mt_steps.specs.Acts.{HasGood, IfLock, IfMade, IfFull, IfBroken};
ghost use Rattle.mt_steps.specs.Asks.{AsksFor, HasSearched};
ghost use Rattle.mt_steps.specs.Plans.{free_pages, own_needs, record_bytes, TakesPages, IsTight, CanPlan, InPages, IsPlanned};
ghost use Rattle.mt_steps.specs.Logged.{logged_of};
ghost use Rattle.mt_steps.specs.Planners.{PlansScan};
ghost use Rattle.mt_steps.specs.Scanned.{IsScannedTo};

use crate::act::Act;
use crate::copies::Copies;
use crate::operation_plan::plan;
use crate::scan_plan::scan;
use crate::scan_progress::ScanProgress;
use mt_base::{PageNo, RelNo};
use mt_index::Search;
use mt_model::Op;
use mt_overlay::{PageCopies, PlacedCopies};
use std::alloc::{AllocError, Global};

/// Plans an operation over the copies of the pages that it has looked at, as [`plan`](crate::plan) does. A scan goes on
/// from where the plan over fewer of these copies has come: a bucket's pages and the pages of records are looked at
/// once.
pub fn plan_over(
    alloc: Global,
    copies: &mut Copies,
    room: Option<PageNo>,
    op: &Op,
    split: bool,
    search: &mut Search,
) -> Result<Act, AllocError>
    requires sound { (p : ℕ) (bytes : List ℕ) → copied copies.old.list.items p ≡ Some bytes
        → length bytes ≡ PAGE_BYTES }
    requires good { CanPlan (copied copies.old.list.items) room copies.old.total op.now }
    requires searched { HasSearched (copied copies.old.list.items) copies.old.total op.now search.old }
    ensures same { copies.new ≡ copies.old }
    ensures lock { IfOk result (λ act. IfLock act (λ p _. (copied copies.old.list.items p ≡ None)
        × (p < copies.old.total))) }
    ensures asks { IfOk result (λ act. IfLock act
        (AsksFor (copied copies.old.list.items) room copies.old.total split op.now)) }
    ensures made { (relations counters : ℕ) → relations ≤ MAX_RELATIONS → IsWithin relations counters op.now →
        IfOk result (λ act. IfMade act (λ changes reply.
        InPages (copied copies.old.list.items) room relations counters copies.old.total (λ pages.
        IsPlanned relations counters copies.old.total (copied copies.old.list.items) pages changes op.now split
        reply))) }
    ensures takes { (relations counters : ℕ) → relations ≤ MAX_RELATIONS → IsWithin relations counters op.now →
        IfOk result (λ act. IfMade act (λ changes reply.
        InPages (copied copies.old.list.items) room relations counters copies.old.total (λ pages.
        TakesPages room op.now pages (after changes pages)))) }
    ensures there { IfOk result (λ act. IfMade act (λ changes reply.
        AreAtHand (copied copies.old.list.items) changes)) }
    ensures few { IfOk result (λ act. IfMade act (λ changes reply. length changes ≤ MAX_WRITTEN_PAGES)) }
    ensures idle { IfOk result (λ act. IfMade act (λ changes reply. logged_of op.now reply ≡ None → changes ≡ [])) }
    ensures full { (relations counters : ℕ) → relations ≤ MAX_RELATIONS → IsWithin relations counters op.now →
        IfOk result (λ act. IfFull act (
        InPages (copied copies.old.list.items) room relations counters copies.old.total (λ pages.
        (free_pages copies.old.total pages < own_needs op.now split) ⊎ IsTight room pages (record_bytes op.now)))) }
    ensures broken { IfOk result (λ act. IfBroken act ⊥) }
    ensures searched { HasSearched (copied copies.old.list.items) copies.old.total op.now search.new }
{
    match op {
        Op::Scan(relation) => scan_over(alloc, &copies.pages, *relation, &mut copies.scan),
        _ => plan(alloc, &copies.pages, room, op, split, search),
    }
}

// Plans to read all rows of a relation over copies, of which each is found at once.
fn scan_over(
    alloc: Global,
    copies: &PageCopies,
    relation: RelNo,
    progress: &mut ScanProgress,
) -> Result<Act, AllocError>
    requires sound { (p : ℕ) (bytes : List ℕ) → copied copies.now.list.items p ≡ Some bytes
        → length bytes ≡ PAGE_BYTES }
    requires good { ∥ ((relations : ℕ) × HasGood (copied copies.now.list.items) relations copies.now.total) ∥₁ }
    requires so_far { IsScannedTo (copied copies.now.list.items) copies.now.total progress.old }
    ensures plans { PlansScan (copied copies.now.list.items) copies.now.total relation result }
    ensures so_far { IsScannedTo (copied copies.now.list.items) copies.now.total progress.new }
{
    let placed = PlacedCopies::new(copies);
    scan(alloc, &placed, relation, progress)
}

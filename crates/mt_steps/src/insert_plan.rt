// The plan of an insert: a record more, and its entry in the index. Pages at hand are read, and none is written.
ghost use Rattle.std.specs.Prelude.{◌≡◌, ◌⊎◌, ◌≤◌, ◌<◌, ℕ, List, Option, length, None, IfOk, IsSome, cond};
ghost use Rattle.mt_base.specs.declared.limits.TheConstants.{MAX_KEY_BYTES};
ghost use Rattle.mt_base.specs.Limits.{IsKey, IsValue};
ghost use Rattle.mt_slots.specs.Page.{row_length};
ghost use Rattle.mt_space.specs.Changes.{PageBytes, Agrees, after};
ghost use Rattle.mt_model.specs.declared.operations.Op.TheVariants.{Insert};
ghost use Rattle.mt_index.specs.Answers.{InMaps, IsDueInAdd, IsSearched};
ghost use Rattle.mt_overlay.specs.Overlays.{AreAtHand};
ghost use Rattle.mt_steps.specs.Acts.{HasRoomy, InRoomy, IsPlaced};
ghost use Rattle.mt_steps.specs.Asks.{IsForInsert};
ghost use Rattle.mt_steps.specs.Plans.{free_pages, IsTight, TakesPages};
ghost use Rattle.mt_steps.specs.PlanAnswers.{PlanAnswers, IsWanted, IsDone, HasRoom, TakesRow, TakesAlone, HasPlaced};
ghost use Rattle.mt_index.specs.Maps.{Map};
ghost use Rattle.mt_steps.specs.Held.{AreRows};
ghost use Rattle.mt_steps.specs.Planners.{PlansInsert};

use crate::act::Act;
use crate::joined_plan::{join, mode_to_write};
use mt_base::{Mode, PageNo, RelNo};
use mt_file::{Plan, Step, plan_put};
use mt_index::{Add, Find, Search, plan_add, plan_find};
use mt_model::Reply;
use mt_overlay::Overlay;
use mt_space::{Changes, Pages};
use std::alloc::{AllocError, Global};

/// Plans to put a value under a key that has none. The record goes into the page `room`, which holds records, or into
/// a new page if none is named. Its entry goes into the index, which splits a bucket at most if `split` is set.
/// If the key has a value nothing changes. Pages that may change are needed for write, the directory for read as
/// long as no split is due.
pub(crate) fn insert<V: Pages>(
    alloc: Global,
    views: &V,
    room: Option<PageNo>,
    relation: RelNo,
    key: &[u8],
    value: &[u8],
    split: bool,
    search: &mut Search,
) -> Result<Act, AllocError>
    requires sound { V.is_sound views.now }
    requires good { ∥ ((relations : ℕ) × HasRoomy (V.at_hand views.now) room relations (V.total views.now)) ∥₁ }
    requires relation_fits { relation < 256 }
    requires key_fits { IsKey key.now }
    requires value_fits { IsValue value.now }
    requires searched { IsSearched (V.at_hand views.now) (V.total views.now) relation key.now search.old }
    ensures plans { PlansInsert (V.at_hand views.now) (V.total views.now) room split relation key.now value.now result }
    ensures searched { IsSearched (V.at_hand views.now) (V.total views.now) relation key.now search.new }
{
    match plan_find(views, relation, key, search) {
        Find::Need(page) => Ok(Act::Lock(page, mode_to_write(page))),
        Find::Found(_) => Ok(Act::Made(Changes::new(alloc), Reply::Exists)),
        Find::Missing => insert_new(alloc, views, room, relation, key, value, split),
        Find::Endless => Ok(Act::Broken),
    }
}

// Plans to insert a key that has no value.
fn insert_new<V: Pages>(
    alloc: Global,
    views: &V,
    room: Option<PageNo>,
    relation: RelNo,
    key: &[u8],
    value: &[u8],
    split: bool,
) -> Result<Act, AllocError>
    requires sound { V.is_sound views.now }
    requires good { ∥ ((relations : ℕ) × HasRoomy (V.at_hand views.now) room relations (V.total views.now)) ∥₁ }
    requires relation_fits { relation < 256 }
    requires key_fits { IsKey key.now }
    requires value_fits { IsValue value.now }
    requires missing { InMaps (V.at_hand views.now) (V.total views.now) (λ pages m. m relation key.now ≡ None) }
    ensures { IfOk result (PlanAnswers (V.at_hand views.now) (V.total views.now)
        (IsWanted (V.at_hand views.now) (V.total views.now) (HasRoom room) (IsForInsert room (V.total views.now) split
        (record { relation = relation; key = key.now; value = value.now })))
        (IsDone (V.at_hand views.now) (V.total views.now) (cond split 3 2) split (Insert relation key.now value.now)
        (TakesPages room (Insert relation key.now value.now))
        (TakesRow room (record { relation = relation; key = key.now; value = value.now })))
        ((relations : ℕ) → InRoomy (V.at_hand views.now) room relations (V.total views.now) (λ pages m.
        (free_pages (V.total views.now) pages < cond split 3 2) ⊎ IsTight room pages (row_length
        (record { relation = relation; key = key.now; value = value.now }))))) }
{
    let plan = match plan_put(alloc, views, room, relation, key, value)? {
        Step::Need(page) => return Ok(Act::Lock(page, Mode::Write)),
        Step::Full => return Ok(Act::Full),
        Step::Done(plan) => plan,
    };
    add_entry(alloc, views, relation, key, plan, split)
}

// The entry of a record that has been put.
fn add_entry<V: Pages>(
    alloc: Global,
    views: &V,
    relation: RelNo,
    key: &[u8],
    plan: Plan,
    split: bool,
) -> Result<Act, AllocError>
    requires sound { V.is_sound views.now }
    requires there { AreAtHand (V.at_hand views.now) plan.changes.list.items }
    requires few { length plan.changes.list.items ≤ 2 }
    requires seen { IsSome (V.at_hand views.now plan.name.page) }
    requires relation_fits { relation < 256 }
    requires short { length key.now ≤ MAX_KEY_BYTES }
    requires good { ∥ ((relations : ℕ) × (room : Option ℕ) × (value : List ℕ)
        × HasRoomy (V.at_hand views.now) room relations (V.total views.now)
        × InRoomy (V.at_hand views.now) room relations (V.total views.now) (λ pages m.
        IsPlaced (V.total views.now) pages plan.changes.list.items plan.name
        (record { relation = relation; key = key.now; value = value }))) ∥₁ }
    ensures { (value : List ℕ) → IfOk result (PlanAnswers (V.at_hand views.now) (V.total views.now)
        (IsWanted (V.at_hand views.now) (V.total views.now) (λ relations pages m.
        IsPlaced (V.total views.now) pages plan.changes.list.items plan.name
        (record { relation = relation; key = key.now; value = value }))
        (λ pages. IsDueInAdd split key.now (V.total views.now) (after plan.changes.list.items pages)))
        (IsDone (V.at_hand views.now) (V.total views.now) (cond split 3 2) split (Insert relation key.now value)
        (TakesAlone plan.name.page relation key.now (Insert relation key.now value))
        (HasPlaced (V.total views.now) plan.changes.list.items plan.name
        (record { relation = relation; key = key.now; value = value })))
        ((relations : ℕ) (pages : PageBytes) → Agrees (V.at_hand views.now) pages → (m : Map) →
        AreRows relations (V.total views.now) pages m →
        IsPlaced (V.total views.now) pages plan.changes.list.items plan.name
        (record { relation = relation; key = key.now; value = value }) →
        free_pages (V.total views.now) pages < cond split 3 2)) }
{
    let overlay = Overlay::over(alloc, views, &plan.changes)?;
    match plan_add(alloc, &overlay, relation, key, plan.name, split)? {
        Add::Need(page, mode) => Ok(Act::Lock(page, mode)),
        Add::Full => Ok(Act::Full),
        Add::Endless => Ok(Act::Broken),
        Add::Changes(changes) => join(alloc, views, plan.changes, changes, Reply::Done),
    }
}

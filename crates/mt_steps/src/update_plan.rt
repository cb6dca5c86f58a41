// The plan of an update: the record gets the value in its page, or moves, and then its entry names it anew.
// Pages at hand are read, and none is written.
ghost use Rattle.std.specs.Prelude.{◌≡◌, ◌≢◌, ◌⊎◌, ◌≤◌, ◌<◌, ℕ, List, Option, length, Some, IfOk, IsSome, MatchBool, false};
ghost use Rattle.mt_base.specs.declared.limits.TheConstants.{MAX_KEY_BYTES};
ghost use Rattle.mt_base.specs.Limits.{IsValue};
ghost use Rattle.mt_base.specs.declared.numbers.RecordName.{RecordName};
ghost use Rattle.mt_slots.specs.Page.{row_length};
ghost use Rattle.mt_base.specs.declared.modes.Mode.TheVariants.{Write as ToWrite};
ghost use Rattle.mt_index.specs.Answers.{InMaps, IsInBucket, IsSearched};
ghost use Rattle.mt_model.specs.declared.operations.Op.TheVariants.{Update};
ghost use Rattle.mt_overlay.specs.Overlays.{AreAtHand};
ghost use Rattle.mt_steps.specs.Acts.{HasRoomy, InRoomy, IsMoved};
ghost use Rattle.mt_steps.specs.Asks.{IsForUpdate};
ghost use Rattle.mt_steps.specs.Plans.{free_pages, IsTight, TakesPages};
ghost use Rattle.mt_steps.specs.PlanAnswers.{PlanAnswers, IsWanted, IsDone, HasRoom, TakesRow, TakesAlone, HasMoved};
ghost use Rattle.mt_steps.specs.Planners.{PlansUpdate};

use crate::act::Act;
use crate::joined_plan::join;
use mt_base::{Bytes, Mode, PageNo, RecordName, RelNo};
use mt_file::{Lookup, Plan, Step, plan_read, plan_replace};
use mt_index::{Amend, Find, Search, plan_find, plan_set};
use mt_model::Reply;
use mt_overlay::Overlay;
use mt_space::{Changes, Pages};
use std::alloc::{AllocError, Global};

/// Plans to replace the value under a key that has one. The record stays under its name if its page has room for
/// it. Else it moves into the page `room`, which holds records, or into a new page if none is named; then its
/// entry names it anew. If the key has no value nothing changes, nor if it has this one. The directory and the
/// key's bucket are needed for read, and for write if the record moves; pages of records for write.
pub(crate) fn update<V: Pages>(
    alloc: Global,
    views: &V,
    room: Option<PageNo>,
    relation: RelNo,
    key: &[u8],
    value: &[u8],
    search: &mut Search,
) -> Result<Act, AllocError>
    requires sound { V.is_sound views.now }
    requires good { ∥ ((relations : ℕ) × HasRoomy (V.at_hand views.now) room relations (V.total views.now)) ∥₁ }
    requires short { length key.now ≤ MAX_KEY_BYTES }
    requires value_fits { IsValue value.now }
    requires searched { IsSearched (V.at_hand views.now) (V.total views.now) relation key.now search.old }
    ensures plans { PlansUpdate (V.at_hand views.now) (V.total views.now) room relation key.now value.now result }
    ensures searched { IsSearched (V.at_hand views.now) (V.total views.now) relation key.now search.new }
{
    match plan_find(views, relation, key, search) {
        Find::Need(page) => Ok(Act::Lock(page, Mode::Read)),
        Find::Missing => Ok(Act::Made(Changes::new(alloc), Reply::Missing)),
        Find::Found(name) => update_row(alloc, views, room, relation, key, value, &name),
        Find::Endless => Ok(Act::Broken),
    }
}

// Plans to update a key that has the record of this name.
fn update_row<V: Pages>(
    alloc: Global,
    views: &V,
    room: Option<PageNo>,
    relation: RelNo,
    key: &[u8],
    value: &[u8],
    name: &RecordName,
) -> Result<Act, AllocError>
    requires sound { V.is_sound views.now }
    requires good { ∥ ((relations : ℕ) × HasRoomy (V.at_hand views.now) room relations (V.total views.now)) ∥₁ }
    requires short { length key.now ≤ MAX_KEY_BYTES }
    requires value_fits { IsValue value.now }
    requires named { InMaps (V.at_hand views.now) (V.total views.now) (λ pages m. m relation key.now ≡ Some name.now) }
    ensures { IfOk result (PlanAnswers (V.at_hand views.now) (V.total views.now)
        (IsWanted (V.at_hand views.now) (V.total views.now) (HasRoom room)
        (IsForUpdate room (V.total views.now) relation key.now value.now))
        (IsDone (V.at_hand views.now) (V.total views.now) 1 false (Update relation key.now value.now)
        (TakesPages room (Update relation key.now value.now))
        (TakesRow room (record { relation = relation; key = key.now; value = value.now })))
        ((relations : ℕ) → InRoomy (V.at_hand views.now) room relations (V.total views.now) (λ pages m.
        (free_pages (V.total views.now) pages < 1) ⊎ IsTight room pages (row_length
        (record { relation = relation; key = key.now; value = value.now }))))) }
{
    let old = match plan_read(views, *name) {
        Lookup::Need(page) => return Ok(Act::Lock(page, Mode::Write)),
        Lookup::Record(row) => Bytes::copy_of(alloc, row.value)?,
        Lookup::Nothing => return Ok(Act::Broken),
    };
    let plan = match plan_replace(alloc, views, *name, value, room)? {
        Step::Need(page) => return Ok(Act::Lock(page, Mode::Write)),
        Step::Full => return Ok(Act::Full),
        Step::Done(plan) => plan,
    };
    if is_name(&plan.name, name) {
        return Ok(Act::Made(plan.changes, Reply::Was(old)));
    }
    set_entry(alloc, views, relation, key, plan, old)
}

// Whether two names are the same.
fn is_name(one: &RecordName, other: &RecordName) -> bool
    ensures { MatchBool result (one.now ≡ other.now) ((one.now.page ≢ other.now.page) ⊎
        (one.now.slot ≢ other.now.slot)) }
{
    one.page == other.page && one.slot == other.slot
}

// The entry of a record that has moved.
fn set_entry<V: Pages>(
    alloc: Global,
    views: &V,
    relation: RelNo,
    key: &[u8],
    plan: Plan,
    old: Bytes,
) -> Result<Act, AllocError>
    requires sound { V.is_sound views.now }
    requires there { AreAtHand (V.at_hand views.now) plan.changes.list.items }
    requires few { length plan.changes.list.items ≤ 3 }
    requires seen { IsSome (V.at_hand views.now plan.name.page) }
    requires short { length key.now ≤ MAX_KEY_BYTES }
    requires good { ∥ ((relations : ℕ) × (room : Option ℕ) × (name : RecordName) × (value : List ℕ)
        × HasRoomy (V.at_hand views.now) room relations (V.total views.now)
        × InRoomy (V.at_hand views.now) room relations (V.total views.now) (λ pages m.
        (m relation key.now ≡ Some name) × IsMoved
        (V.total views.now) pages plan.changes.list.items name plan.name
        (record { relation = relation; key = key.now; value = old })
        (record { relation = relation; key = key.now; value = value }))) ∥₁ }
    ensures { (name : RecordName) (value : List ℕ) → IsSome (V.at_hand views.now name.page) →
        IfOk result (PlanAnswers (V.at_hand views.now) (V.total views.now)
        (IsWanted (V.at_hand views.now) (V.total views.now) (λ relations pages m.
        IsMoved (V.total views.now) pages plan.changes.list.items name plan.name
        (record { relation = relation; key = key.now; value = old })
        (record { relation = relation; key = key.now; value = value })) (IsInBucket key.now ToWrite))
        (IsDone (V.at_hand views.now) (V.total views.now) 1 false (Update relation key.now value)
        (TakesAlone plan.name.page relation key.now (Update relation key.now value))
        (HasMoved (V.total views.now) plan.changes.list.items name plan.name
        (record { relation = relation; key = key.now; value = old })
        (record { relation = relation; key = key.now; value = value }))) ⊥) }
{
    let overlay = Overlay::over(alloc, views, &plan.changes)?;
    match plan_set(alloc, &overlay, relation, key, plan.name)? {
        Amend::Need(page, mode) => Ok(Act::Lock(page, mode)),
        Amend::Missing => Ok(Act::Broken),
        Amend::Endless => Ok(Act::Broken),
        Amend::Changes(second) => join(alloc, views, plan.changes, second, Reply::Was(old)),
    }
}

// The plan of a delete: the record goes, and its entry in the index. Pages at hand are read, and none is written.
ghost use Rattle.std.specs.Prelude.{◌≡◌, ◌≤◌, ◌<◌, ℕ, length, Some, IfOk, IsSome, false};
ghost use Rattle.mt_base.specs.declared.limits.TheConstants.{MAX_KEY_BYTES};
ghost use Rattle.mt_base.specs.declared.modes.Mode.TheVariants.{Write as ToWrite};
ghost use Rattle.mt_index.specs.Answers.{InMaps, IsInBucket, IsSearched};
ghost use Rattle.mt_model.specs.declared.operations.Op.TheVariants.{Delete};
ghost use Rattle.mt_overlay.specs.Overlays.{AreAtHand};
ghost use Rattle.mt_steps.specs.Acts.{HasGood, InGood, IsTaken};
ghost use Rattle.mt_steps.specs.Asks.{IsForDelete};
ghost use Rattle.mt_steps.specs.PlanAnswers.{PlanAnswers, IsWanted, IsDone, IsAny, TakesNone, HasTaken};
ghost use Rattle.mt_steps.specs.Planners.{PlansDelete};

use crate::act::Act;
use crate::joined_plan::{join, mode_to_write};
use mt_base::{Bytes, Mode, RecordName, RelNo};
use mt_file::{Lookup, Step, plan_read, plan_remove};
use mt_index::{Amend, Find, Search, plan_drop, plan_find};
use mt_model::Reply;
use mt_overlay::Overlay;
use mt_space::{Changes, Pages};
use std::alloc::{AllocError, Global};

/// Plans to take away the value under a key. That is its record, whose page is given back if it was the last
/// there, and its entry in the index. If the key has no value nothing changes. Pages that may change are needed
/// for write, the directory for read.
pub(crate) fn delete<V: Pages>(
    alloc: Global,
    views: &V,
    relation: RelNo,
    key: &[u8],
    search: &mut Search,
) -> Result<Act, AllocError>
    requires sound { V.is_sound views.now }
    requires good { ∥ ((relations : ℕ) × HasGood (V.at_hand views.now) relations (V.total views.now)) ∥₁ }
    requires short { length key.now ≤ MAX_KEY_BYTES }
    requires searched { IsSearched (V.at_hand views.now) (V.total views.now) relation key.now search.old }
    ensures plans { PlansDelete (V.at_hand views.now) (V.total views.now) relation key.now result }
    ensures searched { IsSearched (V.at_hand views.now) (V.total views.now) relation key.now search.new }
{
    match plan_find(views, relation, key, search) {
        Find::Need(page) => Ok(Act::Lock(page, mode_to_write(page))),
        Find::Missing => Ok(Act::Made(Changes::new(alloc), Reply::Missing)),
        Find::Found(name) => delete_row(alloc, views, relation, key, &name),
        Find::Endless => Ok(Act::Broken),
    }
}

// Plans to delete a key that has the record of this name.
fn delete_row<V: Pages>(
    alloc: Global,
    views: &V,
    relation: RelNo,
    key: &[u8],
    name: &RecordName,
) -> Result<Act, AllocError>
    requires sound { V.is_sound views.now }
    requires good { ∥ ((relations : ℕ) × HasGood (V.at_hand views.now) relations (V.total views.now)) ∥₁ }
    requires short { length key.now ≤ MAX_KEY_BYTES }
    requires named { InMaps (V.at_hand views.now) (V.total views.now) (λ pages m. m relation key.now ≡ Some name.now) }
    ensures { IfOk result (PlanAnswers (V.at_hand views.now) (V.total views.now)
        (IsWanted (V.at_hand views.now) (V.total views.now) IsAny (IsForDelete relation key.now))
        (IsDone (V.at_hand views.now) (V.total views.now) 0 false (Delete relation key.now) TakesNone IsAny) ⊥) }
{
    let old = match plan_read(views, *name) {
        Lookup::Need(page) => return Ok(Act::Lock(page, Mode::Write)),
        Lookup::Record(row) => Bytes::copy_of(alloc, row.value)?,
        Lookup::Nothing => return Ok(Act::Broken),
    };
    let plan = match plan_remove(alloc, views, *name)? {
        Step::Need(page) => return Ok(Act::Lock(page, Mode::Write)),
        Step::Full => return Ok(Act::Broken),
        Step::Done(plan) => plan,
    };
    drop_entry(alloc, views, relation, key, name, plan.changes, old)
}

// The entry of a record that has been taken away.
fn drop_entry<V: Pages>(
    alloc: Global,
    views: &V,
    relation: RelNo,
    key: &[u8],
    name: &RecordName,
    first: Changes,
    old: Bytes,
) -> Result<Act, AllocError>
    requires sound { V.is_sound views.now }
    requires there { AreAtHand (V.at_hand views.now) first.list.items }
    requires few { length first.list.items ≤ 1 }
    requires seen { IsSome (V.at_hand views.now name.now.page) }
    requires short { length key.now ≤ MAX_KEY_BYTES }
    requires good { ∥ ((relations : ℕ) × HasGood (V.at_hand views.now) relations (V.total views.now)
        × InGood (V.at_hand views.now) relations (V.total views.now) (λ pages m. (m relation key.now ≡ Some name.now)
        × IsTaken pages first.list.items name.now (record { relation = relation; key = key.now; value = old }))) ∥₁ }
    ensures { IfOk result (PlanAnswers (V.at_hand views.now) (V.total views.now)
        (IsWanted (V.at_hand views.now) (V.total views.now)
        (HasTaken first.list.items name.now (record { relation = relation; key = key.now; value = old }))
        (IsInBucket key.now ToWrite))
        (IsDone (V.at_hand views.now) (V.total views.now) 0 false (Delete relation key.now) TakesNone
        (HasTaken first.list.items name.now (record { relation = relation; key = key.now; value = old }))) ⊥) }
{
    let overlay = Overlay::over(alloc, views, &first)?;
    match plan_drop(alloc, &overlay, relation, key)? {
        Amend::Need(page, mode) => Ok(Act::Lock(page, mode)),
        Amend::Missing => Ok(Act::Broken),
        Amend::Endless => Ok(Act::Broken),
        Amend::Changes(second) => join(alloc, views, first, second, Reply::Was(old)),
    }
}

// The plan to take one record away. A page that loses its last record becomes free.
ghost use Rattle.std.specs.Prelude.{◌≡◌, ℕ, [], Some, IfOk, IsSome};
ghost use Rattle.mt_space.specs.Changes.{PageBytes, Agrees};
ghost use Rattle.mt_slots.specs.Page.{Row};
ghost use Rattle.mt_file.specs.File.{IsFile, record_in};
ghost use Rattle.mt_file.specs.Plans.{IsRemoval, IsShortPlan, IfDone, IsFew, IsSeen};

use crate::insertion::with_kind;
use crate::step::{Plan, Step};
use mt_base::{PageNo, RecordName};
use mt_slots::{live, remove};
use mt_space::pages::{FREE, MAP};
use mt_space::{Changes, Pages, kind_byte};
use std::alloc::{AllocError, Global};

/// Plans to take away the record under a name. That name holds nothing then, and no other changes. If it was the
/// last record of its page, the page is given back. Its kind is that of a free page, and its own bytes, which are
/// open from then on, are left. Never `Full`. The only error is want of memory.
pub fn plan_remove<V: Pages>(alloc: Global, views: &V, name: RecordName) -> Result<Step, AllocError>
    requires sound { V.is_sound views.now }
    requires good { ∥ ((pages : PageBytes) × (r : Row) × Agrees (V.at_hand views.now) pages × IsFile pages
        × (record_in pages name.page name.slot ≡ Some r)) ∥₁ }
    ensures removal { IfOk result (λ step. (pages : PageBytes) (r : Row) → Agrees (V.at_hand views.now) pages →
        IsFile pages → record_in pages name.page name.slot ≡ Some r → IsRemoval
        (V.at_hand views.now) pages name.page name.slot step) }
    ensures short { IfOk result (λ step. (pages : PageBytes) (r : Row) → Agrees (V.at_hand views.now) pages →
        IsFile pages → record_in pages name.page name.slot ≡ Some r → IsShortPlan pages step) }
    ensures few { IfOk result (IsFew 1) }
    ensures seen { IfOk result (λ step. IfDone step (λ plan. IsSome (V.at_hand views.now name.page))) }
    ensures there { IfOk result (IsSeen (V.at_hand views.now) []) }
{
    let Some(old) = views.page(name.page) else {
        return Ok(Step::Need(name.page));
    };
    let mut new = *old;
    let touched = remove(&mut new, name.slot);
    let mut changes = Changes::new(alloc);
    if live(&new) != 0 {
        changes.note(name.page, old, &new, touched)?;
        return Ok(Step::Done(Plan { changes, name }));
    }
    let map_page = PageNo::new(MAP);
    let Some(map) = views.page(map_page) else {
        return Ok(Step::Need(map_page));
    };
    let new_map = with_kind(map, name.page, FREE);
    changes.note(map_page, map, &new_map, kind_byte(name.page))?;
    Ok(Step::Done(Plan { changes, name }))
}

// The plan to give a record another value: in its own page, or else in another page under a new name.
ghost use Rattle.std.specs.Prelude.{◌≡◌, ◌≢◌, ◌+◌, ◌<◌, ◌≤◌, [], length, Some, IfOk, IsSome};
ghost use Rattle.std.specs.Bool.{OnTrue, OnFalse};
ghost use Rattle.mt_base.specs.declared.limits.TheConstants.{MAX_VALUE_BYTES};
ghost use Rattle.mt_base.specs.Limits.{IsValue};
ghost use Rattle.mt_space.specs.Changes.{PageBytes, Agrees};
ghost use Rattle.mt_slots.specs.Page.{Row, IsShaped, slot as held, room_of, row_length};
ghost use Rattle.mt_file.specs.File.{IsFile, record_in};
ghost use Rattle.mt_file.specs.Plans.{IsNamed, IsReplacement, IsShortPlan, IfDone, IsFew, IsSeen};
ghost use Rattle.mt_file.specs.Puts.{MovesRecord, WritesWhole};

use crate::insertion::{page_of_one, put};
use crate::step::{Plan, Step};
use mt_base::{PageNo, RecordName, RelNo, TouchedBytes};
use mt_slots::{get, live, remove, replace};
use mt_space::{Changes, Pages};
use std::alloc::{AllocError, Global};

/// Plans to give the record under a name another value. It stays under its name if its page has room for it. That
/// is so if its new length is no more than the page's room and its old length. Else it moves. It is taken away
/// there, and put into the page `room`, which holds records, or into a new one if no page is named. The same bytes
/// change nothing. `Full` if and only if it would move, and the page that is named has no room, or none is named and
/// none is free. The only error is want of memory.
///
/// A record that is alone in its page has room there but for a table of slots longer than its records can
/// have made it. Then the page is given back and at once taken again: it is written whole.
pub fn plan_replace<V: Pages>(
    alloc: Global,
    views: &V,
    name: RecordName,
    value: &[u8],
    room: Option<PageNo>,
) -> Result<Step, AllocError>
    requires sound { V.is_sound views.now }
    requires good { ∥ ((pages : PageBytes) × (r : Row) × Agrees (V.at_hand views.now) pages × IsFile pages
        × IsNamed room pages × (record_in pages name.page name.slot ≡ Some r)) ∥₁ }
    requires value_fits { IsValue value.now }
    ensures replacement { IfOk result (λ step. (pages : PageBytes) (r : Row) → Agrees (V.at_hand views.now) pages →
        IsFile pages → IsNamed room pages → record_in pages name.page name.slot ≡ Some r →
        IsReplacement (V.at_hand views.now) room (V.total views.now) pages name.page name.slot r
        (record r { value = value.now }) step) }
    ensures short { IfOk result (λ step. (pages : PageBytes) (r : Row) → Agrees (V.at_hand views.now) pages →
        IsFile pages → IsNamed room pages → record_in pages name.page name.slot ≡ Some r → IsShortPlan pages step) }
    ensures few { IfOk result (IsFew 3) }
    ensures seen { IfOk result (λ step. IfDone step (λ plan. IsSome (V.at_hand views.now name.page) ×
        IsSome (V.at_hand views.now plan.name.page))) }
    ensures there { IfOk result (IsSeen (V.at_hand views.now) []) }
{
    let Some(old) = views.page(name.page) else {
        return Ok(Step::Need(name.page));
    };
    let mut changes = Changes::new(alloc);
    if has_value(old, name.slot, value) {
        return Ok(Step::Done(Plan { changes, name }));
    }
    let mut new = *old;
    if let Some(touched) = replace(&mut new, name.slot, value) {
        changes.note(name.page, old, &new, touched)?;
        return Ok(Step::Done(Plan { changes, name }));
    }
    plan_move(views, changes, name, old, value, room)
}

// Whether the record in a slot has this value.
fn has_value(page: &[u8], slot: u16, value: &[u8]) -> bool
    requires { IsShaped page.now }
    ensures yes { OnTrue result ((r : Row) → held page.now slot ≡ Some r → r.value ≡ value.now) }
    ensures no { OnFalse result ((r : Row) → held page.now slot ≡ Some r → r.value ≢ value.now) }
{
    match get(page, slot) {
        Some(row) => row.value == value,
        None => false,
    }
}

// Plans to move the record out of its page, which has no room for the new value.
fn plan_move<V: Pages>(
    views: &V,
    mut changes: Changes,
    name: RecordName,
    old: &[u8; 4096],
    value: &[u8],
    room: Option<PageNo>,
) -> Result<Step, AllocError>
    requires sound { V.is_sound views.now }
    requires none { changes.list.items ≡ [] }
    requires there { V.at_hand views.now name.page ≡ Some old.now }
    requires good { ∥ ((pages : PageBytes) × (r : Row) × Agrees (V.at_hand views.now) pages × IsFile pages
        × IsNamed room pages × (record_in pages name.page name.slot ≡ Some r)) ∥₁ }
    requires value_fits { length value.now ≤ MAX_VALUE_BYTES }
    requires outgrown { (r : Row) → held old.now name.slot ≡ Some r → room_of old.now + row_length r < row_length
        (record r { value = value.now }) }
    requires other { (r : Row) → held old.now name.slot ≡ Some r → r.value ≢ value.now }
    ensures { MovesRecord (V.at_hand views.now) (V.total views.now) room name.page name.slot value.now result }
{
    let RecordName { page, slot } = name;
    let Some(row) = get(old, slot) else {
        return Ok(Step::Full); // the name holds a record
    };
    let relation = row.relation;
    let key = row.key;
    let mut new = *old;
    let touched = remove(&mut new, slot);
    if live(&new) == 0 {
        let plan = write_whole(changes, page, old, relation, key, value)?;
        return Ok(Step::Done(plan));
    }
    if room == Some(page) {
        return Ok(Step::Full);
    }
    changes.note(page, old, &new, touched)?;
    put(views, changes, room, relation, key, value)
}

// Writes a page whole, with the record and its new value alone in it.
fn write_whole(
    mut changes: Changes,
    page: PageNo,
    old: &[u8; 4096],
    relation: RelNo,
    key: &[u8],
    value: &[u8],
) -> Result<Plan, AllocError>
    requires none { changes.list.items ≡ [] }
    requires relation_fits { relation < 256 }
    requires key_fits { length key.now < 256 }
    requires value_fits { length value.now ≤ MAX_VALUE_BYTES }
    ensures { IfOk result
        (WritesWhole page old.now (record { relation = relation; key = key.now; value = value.now })) }
{
    let (new, slot) = page_of_one(relation, key, value);
    changes.note(page, old, &new, TouchedBytes::whole())?;
    Ok(Plan {
        changes,
        name: RecordName { page, slot },
    })
}

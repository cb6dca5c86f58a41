// The plan to put one record more: into a page that is named, or into the smallest free page.
// It reads pages at hand and answers what changes; it writes none.
ghost use Rattle.std.specs.Prelude.{◌≡◌, ◌≢◌, ◌<◌, ◌≤◌, ℕ, [], length, get_or, Option, Some, None, IfOk, IsSome};
ghost use Rattle.mt_base.specs.declared.limits.TheConstants.{MAX_VALUE_BYTES, PAGE_BYTES};
ghost use Rattle.mt_base.specs.Limits.{IsKey, IsValue};
ghost use Rattle.mt_space.specs.Changes.{PageBytes, Agrees};
ghost use Rattle.mt_slots.specs.Page.{IsShaped, slot as held};
ghost use Rattle.mt_space.specs.Kinds.{kind};
ghost use Rattle.mt_file.specs.File.{IsFile};
ghost use Rattle.mt_file.specs.Plans.{IsNamed, IsReady, IsPut, IsShortPlan, IfDone, IsFew, IsSeen};
ghost use Rattle.mt_file.specs.Puts.{PutsRecord};

use crate::step::{Plan, Step};
use mt_base::{PageNo, RecordName, RelNo, TouchedBytes};
use mt_slots::{empty, insert};
use mt_space::pages::{MAP, RECORDS};
use mt_space::{Changes, Pages, first_free, kind_byte};
use std::alloc::{AllocError, Global};

/// Plans to put a record into the page `room`, which holds records; into a new page, the smallest free one,
/// if no page is named. One record more stands under a name that held nothing, and no other changes.
/// `Full` if and only if the page that is named has no room, or none is named and none is free. A page that
/// is taken is written whole, since the bytes of a free page are open. The only error is want of memory.
pub fn plan_put<V: Pages>(
    alloc: Global,
    views: &V,
    room: Option<PageNo>,
    relation: RelNo,
    key: &[u8],
    value: &[u8],
) -> Result<Step, AllocError>
    requires sound { V.is_sound views.now }
    requires good { ∥ ((pages : PageBytes) × Agrees (V.at_hand views.now) pages × IsFile pages
        × IsNamed room pages) ∥₁ }
    requires relation_fits { relation < 256 }
    requires key_fits { IsKey key.now }
    requires value_fits { IsValue value.now }
    ensures put { IfOk result (λ step. (pages : PageBytes) → Agrees (V.at_hand views.now) pages → IsFile pages →
        IsNamed room pages → IsPut (V.at_hand views.now) room (V.total views.now) [] pages
        (record { relation = relation; key = key.now; value = value.now }) step) }
    ensures short { IfOk result (λ step. (pages : PageBytes) → Agrees (V.at_hand views.now) pages → IsFile pages →
        IsNamed room pages → IsShortPlan pages step) }
    ensures few { IfOk result (IsFew (2)) }
    ensures seen { IfOk result (λ step. IfDone step (λ plan. IsSome (V.at_hand views.now plan.name.page))) }
    ensures there { IfOk result (IsSeen (V.at_hand views.now) []) }
{
    put(views, Changes::new(alloc), room, relation, key, value)
}

// Plans to put a record after some changes, none of which is of a page that changes here.
pub(crate) fn put<V: Pages>(
    views: &V,
    changes: Changes,
    room: Option<PageNo>,
    relation: RelNo,
    key: &[u8],
    value: &[u8],
) -> Result<Step, AllocError>
    requires sound { V.is_sound views.now }
    requires ready { ∥ ((pages : PageBytes) × IsReady (V.at_hand views.now) room pages) ∥₁ }
    requires relation_fits { relation < 256 }
    requires key_fits { length key.now < 256 }
    requires value_fits { length value.now ≤ MAX_VALUE_BYTES }
    ensures { PutsRecord (V.at_hand views.now) (V.total views.now) room changes.list.items
        (record { relation = relation; key = key.now; value = value.now }) result }
{
    match room {
        Some(page) => put_into(views, changes, page, relation, key, value),
        None => put_new(views, changes, relation, key, value),
    }
}

// Into a page of records.
fn put_into<V: Pages>(
    views: &V,
    mut changes: Changes,
    page: PageNo,
    relation: RelNo,
    key: &[u8],
    value: &[u8],
) -> Result<Step, AllocError>
    requires sound { V.is_sound views.now }
    requires ready { ∥ ((pages : PageBytes) × IsReady (V.at_hand views.now) (Some page) pages) ∥₁ }
    requires relation_fits { relation < 256 }
    requires key_fits { length key.now < 256 }
    requires value_fits { length value.now ≤ MAX_VALUE_BYTES }
    ensures { PutsRecord (V.at_hand views.now) (V.total views.now) (Some page) changes.list.items
        (record { relation = relation; key = key.now; value = value.now }) result }
{
    let Some(old) = views.page(page) else {
        return Ok(Step::Need(page));
    };
    let mut new = *old;
    let Some(insertion) = insert(&mut new, relation, key, value) else {
        return Ok(Step::Full);
    };
    changes.note(page, old, &new, insertion.touched)?;
    Ok(Step::Done(Plan {
        changes,
        name: RecordName {
            page,
            slot: insertion.slot,
        },
    }))
}

// Into the smallest free page, which becomes one of records.
fn put_new<V: Pages>(
    views: &V,
    mut changes: Changes,
    relation: RelNo,
    key: &[u8],
    value: &[u8],
) -> Result<Step, AllocError>
    requires sound { V.is_sound views.now }
    requires relation_fits { relation < 256 }
    requires key_fits { length key.now < 256 }
    requires value_fits { length value.now ≤ MAX_VALUE_BYTES }
    ensures { PutsRecord (V.at_hand views.now) (V.total views.now) None changes.list.items
        (record { relation = relation; key = key.now; value = value.now }) result }
{
    let map_page = PageNo::new(MAP);
    let Some(map) = views.page(map_page) else {
        return Ok(Step::Need(map_page));
    };
    let Some(page) = first_free(map, views.count()) else {
        return Ok(Step::Full);
    };
    let Some(old) = views.page(page) else {
        return Ok(Step::Need(page));
    };
    let new_map = with_kind(map, page, RECORDS);
    let (new, slot) = page_of_one(relation, key, value);
    changes.note(map_page, map, &new_map, kind_byte(page))?;
    changes.note(page, old, &new, TouchedBytes::whole())?;
    Ok(Step::Done(Plan {
        changes,
        name: RecordName { page, slot },
    }))
}

// The map with another kind of one page.
pub(crate) fn with_kind(map: &[u8; 4096], page: PageNo, kind: u8) -> [u8; 4096]
    requires { page < PAGE_BYTES }
    ensures whole { length result ≡ PAGE_BYTES }
    ensures here { get_or result page 0 ≡ kind }
    ensures others { (p : ℕ) → p ≢ page → get_or result p 0 ≡ get_or map.now p 0 }
{
    let mut new = *map;
    new[usize::from(page.get())] = kind;
    new
}

// A page that holds one record, and the record's slot there.
pub(crate) fn page_of_one(relation: RelNo, key: &[u8], value: &[u8]) -> ([u8; 4096], u16)
    requires relation_fits { relation < 256 }
    requires key_fits { length key.now < 256 }
    requires value_fits { length value.now ≤ MAX_VALUE_BYTES }
    ensures shaped { IsShaped result.0 }
    ensures one { held result.0 result.1 ≡ Some (record { relation = relation; key = key.now; value = value.now }) }
    ensures alone { (s : ℕ) → s ≢ result.1 → held result.0 s ≡ None }
{
    let mut page = [0u8; 4096];
    empty(&mut page);
    match insert(&mut page, relation, key, value) {
        Some(insertion) => (page, insertion.slot),
        None => (page, 0), // an empty page has room
    }
}

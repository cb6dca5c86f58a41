// An entry comes in without a split: into a page of its bucket, or onto a new overflow page.
// `insertion_plan` chooses which of the two, or a split.
ghost use Rattle.std.specs.Prelude.{ℕ, ◌≡◌, ◌≤◌, ◌<◌, length, true, IfOk, Bool};
ghost use Rattle.mt_base.specs.declared.limits.TheConstants.{MAX_KEY_BYTES, PAGE_BYTES};
ghost use Rattle.mt_bucket.specs.Page.{IsBucket};
ghost use Rattle.mt_index.specs.Rule.{MaySplit};
ghost use Rattle.mt_index.specs.Pages.{state_of, TakesPage, HasOne};
ghost use Rattle.mt_index.specs.Answers.{InMaps, HasRoom, IsEnd, IsPlanned};

use crate::answers::Add;
use crate::page_change::change_of;
use mt_base::limits::PAGE_BYTES;
use mt_base::ranges::put;
use mt_base::{Mode, PageNo, RecordName, RelNo, TouchedBytes};
use mt_bucket::{depth, empty, push, set_next};
use mt_space::pages::{BUCKET, MAP};
use mt_space::{Changes, Pages, first_free, kind_byte};
use std::alloc::{AllocError, Global};

// Puts the entry into a page of its bucket with room.
pub(crate) fn plan_put<V: Pages>(
    alloc: Global,
    views: &V,
    relation: RelNo,
    key: &[u8],
    name: RecordName,
    page: PageNo,
) -> Result<Add, AllocError>
    requires sound { V.is_sound views.now }
    requires relation_fits { relation < 256 }
    requires short { length key.now ≤ MAX_KEY_BYTES }
    requires room { InMaps (V.at_hand views.now) (V.total views.now) (λ pages m. HasRoom key.now pages page) }
    ensures { (split : Bool) → IfOk result (IsPlanned (V.at_hand views.now) (V.total views.now) split
        (record { relation = relation; key = key.now; name = name })) }
{
    let Some(old) = views.page(page) else {
        return Ok(Add::Need(page, Mode::Write));
    };
    let mut new = *old;
    let touched = push(&mut new, relation, key, name);
    Ok(Add::Changes(change_of(alloc, page, old, &new, touched)?))
}

// Chains an overflow page with the entry after the last page of its bucket.
pub(crate) fn plan_chain<V: Pages>(
    alloc: Global,
    views: &V,
    relation: RelNo,
    key: &[u8],
    name: RecordName,
    last: PageNo,
) -> Result<Add, AllocError>
    requires sound { V.is_sound views.now }
    requires relation_fits { relation < 256 }
    requires short { length key.now ≤ MAX_KEY_BYTES }
    requires end { InMaps (V.at_hand views.now) (V.total views.now) (λ pages m. (alone : Bool) ×
        IsEnd key.now pages last alone) }
    ensures { (split : Bool) → InMaps (V.at_hand views.now) (V.total views.now) (λ pages m. split ≡ true →
        MaySplit key.now (state_of pages) → ⊥)
        → IfOk result (IsPlanned (V.at_hand views.now) (V.total views.now) split
        (record { relation = relation; key = key.now; name = name })) }
{
    let Some(space) = views.page(PageNo::new(MAP)) else {
        return Ok(Add::Need(PageNo::new(MAP), Mode::Write));
    };
    let Some(old) = views.page(last) else {
        return Ok(Add::Need(last, Mode::Write));
    };
    let Some(fresh) = first_free(space, views.count()) else {
        return Ok(Add::Full);
    };
    let Some(spare) = views.page(fresh) else {
        return Ok(Add::Need(fresh, Mode::Write));
    };
    let taken = taken_from(space, fresh);
    let new = overflow_page(spare, depth(old), relation, key, name);
    let mut end = *old;
    set_next(&mut end, fresh);
    let mut changes = Changes::new(alloc);
    changes.note(PageNo::new(MAP), space, &taken, kind_byte(fresh))?;
    changes.note(fresh, spare, &new, TouchedBytes::whole())?;
    changes.note(last, old, &end, TouchedBytes::whole())?;
    Ok(Add::Changes(changes))
}

// The map of the space once a page is taken for a bucket.
pub(crate) fn taken_from(space: &[u8; PAGE_BYTES], page: PageNo) -> [u8; PAGE_BYTES]
    requires { page < PAGE_BYTES }
    ensures { TakesPage page space.now result }
{
    let mut taken = *space;
    put(&mut taken, usize::from(page.get()), &[BUCKET]);
    taken
}

// A page with this entry alone, whatever its bytes were.
pub(crate) fn overflow_page(
    spare: &[u8; PAGE_BYTES],
    depth: u8,
    relation: RelNo,
    key: &[u8],
    name: RecordName,
) -> [u8; PAGE_BYTES]
    requires relation_fits { relation < 256 }
    requires short { length key.now ≤ MAX_KEY_BYTES }
    ensures one { HasOne depth (record { relation = relation; key = key.now; name = name }) result }
    ensures bucket { (relations pages : ℕ) → depth ≤ 9 → relation < relations → 1 ≤ length key.now →
        name.page < pages → IsBucket relations pages result }
{
    let mut page = *spare;
    empty(&mut page, depth);
    push(&mut page, relation, key, name);
    page
}

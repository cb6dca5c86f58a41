// The plans that rename an entry that is there, or take it out. Each changes one page of the key's bucket.
ghost use Rattle.std.specs.Prelude.{◌≡◌, ◌≤◌, ◌<◌, ℕ, length, Some, None, IfOk};
ghost use Rattle.mt_base.specs.declared.limits.TheConstants.{MAX_KEY_BYTES};
ghost use Rattle.mt_base.specs.declared.modes.Mode.TheVariants.{Write};
ghost use Rattle.mt_space.specs.Changes.{after};
ghost use Rattle.mt_index.specs.Pages.{AreFormed};
ghost use Rattle.mt_index.specs.Answers.{InMaps, IsInBucket, Asks, AmendNeeds, IfAmended, AmendMissing, AmendEndless, Amends, AreSeen};

use crate::answers::{Amend, Held};
use crate::chain::holder_of;
use crate::page_change::change_of;
use mt_base::{Mode, RecordName, RelNo};
use mt_bucket::{remove, set};
use mt_space::Pages;
use std::alloc::{AllocError, Global};

/// The changes that give the record under a relation and a key another name: of one page of its bucket, by
/// that entry alone. If there is no such record, nothing is to change. The directory is needed for read, pages of
/// the bucket for write. The only error is want of memory.
pub fn plan_set<V: Pages>(
    alloc: Global,
    views: &V,
    relation: RelNo,
    key: &[u8],
    name: RecordName,
) -> Result<Amend, AllocError>
    requires sound { V.is_sound views.now }
    requires short { length key.now ≤ MAX_KEY_BYTES }
    ensures need { IfOk result (λ amend. AmendNeeds amend (Asks (V.at_hand views.now) (V.total views.now)
        (IsInBucket key.now Write))) }
    ensures set { IfOk result (λ amend. IfAmended amend (λ changes. InMaps (V.at_hand views.now) (V.total views.now)
        (λ pages m. Amends (V.total views.now) pages changes m relation key.now (Some name)))) }
    ensures formed { IfOk result (λ amend. IfAmended amend (λ changes.
        InMaps (V.at_hand views.now) (V.total views.now) (λ pages m.
        (relations : ℕ) → name.page < V.total views.now → AreFormed relations (V.total views.now) pages →
        AreFormed relations (V.total views.now) (after changes pages)))) }
    ensures seen { IfOk result (λ amend. IfAmended amend (AreSeen (V.at_hand views.now))) }
    ensures missing { IfOk result (λ amend. AmendMissing amend (InMaps (V.at_hand views.now) (V.total views.now)
        (λ pages m. m relation key.now ≡ None))) }
    ensures endless { IfOk result (λ amend. AmendEndless amend (InMaps (V.at_hand views.now) (V.total views.now)
        (λ pages m. ⊥))) }
{
    let page = match holder_of(views, relation, key, Mode::Write) {
        Held::Need(page, mode) => return Ok(Amend::Need(page, mode)),
        Held::In(page, _) => page,
        Held::Nowhere => return Ok(Amend::Missing),
        Held::Endless => return Ok(Amend::Endless),
    };
    let Some(old) = views.page(page) else {
        return Ok(Amend::Need(page, Mode::Write));
    };
    let mut new = *old;
    let touched = set(&mut new, relation, key, name);
    Ok(Amend::Changes(change_of(alloc, page, old, &new, touched)?))
}

/// The changes that take the entry of a relation and a key out: of one page of its bucket, by that entry
/// alone. If there is no such record, nothing is to change. The directory is needed for read, pages of the
/// bucket for write. The only error is want of memory.
pub fn plan_drop<V: Pages>(
    alloc: Global,
    views: &V,
    relation: RelNo,
    key: &[u8],
) -> Result<Amend, AllocError>
    requires sound { V.is_sound views.now }
    requires short { length key.now ≤ MAX_KEY_BYTES }
    ensures need { IfOk result (λ amend. AmendNeeds amend (Asks (V.at_hand views.now) (V.total views.now)
        (IsInBucket key.now Write))) }
    ensures dropped { IfOk result (λ amend. IfAmended amend (λ changes.
        InMaps (V.at_hand views.now) (V.total views.now) (λ pages m. Amends
        (V.total views.now) pages changes m relation key.now None))) }
    ensures formed { IfOk result (λ amend. IfAmended amend (λ changes.
        InMaps (V.at_hand views.now) (V.total views.now) (λ pages m.
        (relations : ℕ) → AreFormed relations (V.total views.now) pages →
        AreFormed relations (V.total views.now) (after changes pages)))) }
    ensures seen { IfOk result (λ amend. IfAmended amend (AreSeen (V.at_hand views.now))) }
    ensures missing { IfOk result (λ amend. AmendMissing amend (InMaps (V.at_hand views.now) (V.total views.now)
        (λ pages m. m relation key.now ≡ None))) }
    ensures endless { IfOk result (λ amend. AmendEndless amend (InMaps (V.at_hand views.now) (V.total views.now)
        (λ pages m. ⊥))) }
{
    let page = match holder_of(views, relation, key, Mode::Write) {
        Held::Need(page, mode) => return Ok(Amend::Need(page, mode)),
        Held::In(page, _) => page,
        Held::Nowhere => return Ok(Amend::Missing),
        Held::Endless => return Ok(Amend::Endless),
    };
    let Some(old) = views.page(page) else {
        return Ok(Amend::Need(page, Mode::Write));
    };
    let mut new = *old;
    let touched = remove(&mut new, relation, key);
    Ok(Amend::Changes(change_of(alloc, page, old, &new, touched)?))
}

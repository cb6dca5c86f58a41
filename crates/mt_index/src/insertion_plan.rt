// Which way the insertion of an entry goes: into its bucket, by a split, or onto an overflow page.
ghost use Rattle.std.specs.Prelude.{◌≡◌, ◌≤◌, ◌<◌, length, Some, None, IfOk};
ghost use Rattle.mt_base.specs.declared.limits.TheConstants.{MAX_KEY_BYTES};
ghost use Rattle.mt_space.specs.Changes.{after};
ghost use Rattle.mt_index.specs.Maps.{alter};
ghost use Rattle.mt_index.specs.Pages.{AreMap};
ghost use Rattle.mt_index.specs.Answers.{InMaps, Asks, IsInAdd, IsDueInAdd, Adds, TakesSeen, AreSeen, Shortage, IsPlanned, AddNeeds, IfAdded, AddFull, AddEndless};

use crate::answers::{Add, Spot};
use crate::bucket_split::plan_split;
use crate::chain::room_in;
use crate::directory::MAX_DEPTH;
use crate::entry_insertion::{plan_chain, plan_put};
use mt_base::{Mode, RecordName, RelNo};
use mt_bucket::depth;
use mt_space::Pages;
use std::alloc::{AllocError, Global};

/// The changes that add the entry of a relation and a key that have none. The first page of the key's bucket with
/// room takes it. If none has room, splits are allowed, the bucket is of one page and its keys share fewer than 9
/// bits, it is split once. It is then over its page and the free page of the smallest number. The directory doubles
/// before if it goes by no more bits than the bucket. The entry then goes into its half, or as if no split were
/// due: into the free page of the smallest number, chained after. So at most two pages are taken, and five change.
/// Each bucket page stands in a chain then, if each did before.
///
/// The directory is needed for read, and for write if it is to change. Pages of the bucket are needed for write.
/// The map of the space and pages to be taken are needed only if the bucket has no room. `Full` is answered just
/// if the bucket has none, and no page is free; or just one is, a split takes it, and its half has no room either. A
/// relation's number is below 256. The only error is want of memory.
pub fn plan_add<V: Pages>(
    alloc: Global,
    views: &V,
    relation: RelNo,
    key: &[u8],
    name: RecordName,
    split: bool,
) -> Result<Add, AllocError>
    requires sound { V.is_sound views.now }
    requires relation_fits { relation < 256 }
    requires short { length key.now ≤ MAX_KEY_BYTES }
    ensures need { IfOk result (λ add. AddNeeds add (Asks (V.at_hand views.now) (V.total views.now)
        (IsInAdd split key.now (V.total views.now)))) }
    ensures due { IfOk result (λ add. AddNeeds add (Asks (V.at_hand views.now) (V.total views.now)
        (IsDueInAdd split key.now (V.total views.now)))) }
    ensures added { IfOk result (λ add. IfAdded add (λ changes. InMaps (V.at_hand views.now) (V.total views.now)
        (λ pages m.
        Adds split (V.total views.now) (record { relation = relation; key = key.now; name = name }) pages changes))) }
    ensures map { IfOk result (λ add. IfAdded add (λ changes. InMaps (V.at_hand views.now) (V.total views.now)
        (λ pages m.
        m relation key.now ≡ None → AreMap (V.total views.now) (after changes pages) (alter m relation key.now
        (Some name))))) }
    ensures seen { IfOk result (λ add. IfAdded add (λ changes. InMaps (V.at_hand views.now) (V.total views.now)
        (λ pages m. TakesSeen (V.at_hand views.now) pages changes))) }
    ensures there { IfOk result (λ add. IfAdded add (AreSeen (V.at_hand views.now))) }
    ensures full { IfOk result (λ add. AddFull add (InMaps (V.at_hand views.now) (V.total views.now) (λ pages m.
        Shortage split (V.total views.now) (record { relation = relation; key = key.now; name = name }) pages))) }
    ensures endless { IfOk result (λ add. AddEndless add (InMaps (V.at_hand views.now) (V.total views.now)
        (λ pages m. ⊥))) }
{
    plan_by_rule(alloc, views, relation, key, name, split)
}

// Plans to add a record's name, with one clause for every answer.
fn plan_by_rule<V: Pages>(
    alloc: Global,
    views: &V,
    relation: RelNo,
    key: &[u8],
    name: RecordName,
    split: bool,
) -> Result<Add, AllocError>
    requires sound { V.is_sound views.now }
    requires relation_fits { relation < 256 }
    requires short { length key.now ≤ MAX_KEY_BYTES }
    ensures { IfOk result (IsPlanned (V.at_hand views.now) (V.total views.now) split
        (record { relation = relation; key = key.now; name = name })) }
{
    let (last, alone) = match room_in(views, key) {
        Spot::Need(page, mode) => return Ok(Add::Need(page, mode)),
        Spot::In(page) => return plan_put(alloc, views, relation, key, name, page),
        Spot::Behind { last, alone } => (last, alone),
        Spot::Endless => return Ok(Add::Endless),
    };
    let Some(page) = views.page(last) else {
        return Ok(Add::Need(last, Mode::Write));
    };
    if split && alone && depth(page) < MAX_DEPTH {
        return plan_split(alloc, views, relation, key, name, last, page);
    }
    plan_chain(alloc, views, relation, key, name, last)
}

// The walk along the pages of a key's bucket: to the page with the key's entry, or to one that takes an entry more.
ghost use Rattle.std.specs.Prelude.{◌≤◌, length};
ghost use Rattle.mt_base.specs.declared.limits.TheConstants.{MAX_KEY_BYTES};
ghost use Rattle.mt_index.specs.Answers.{FindsHolder, FindsSpot, HeldNeeds, IsSearchedTo};

use crate::answers::{Held, Spot};
use crate::directory::pointer;
use mt_base::{Mode, PageNo, RelNo};
use mt_bucket::{MAX_ENTRIES, count, find, hash, next};
use mt_space::Pages;
use mt_space::pages::DIRECTORY;

// The page of the key's bucket with an entry of the key. The bucket's pages are needed in this mode.
pub(crate) fn holder_of<V: Pages>(views: &V, relation: RelNo, key: &[u8], mode: Mode) -> Held
    requires sound { V.is_sound views.now }
    requires short { length key.now ≤ MAX_KEY_BYTES }
    ensures { FindsHolder (V.at_hand views.now) (V.total views.now) relation key.now mode result }
{
    let Some(directory) = views.page(PageNo::new(DIRECTORY)) else {
        return Held::Need(PageNo::new(DIRECTORY), Mode::Read);
    };
    holder_from(views, pointer(directory, hash(key)), relation, key, mode)
}

// The same from a page of the bucket on, if those before it have no entry of the key.
pub(crate) fn holder_from<V: Pages>(
    views: &V,
    from: PageNo,
    relation: RelNo,
    key: &[u8],
    mode: Mode,
) -> Held
    requires sound { V.is_sound views.now }
    requires short { length key.now ≤ MAX_KEY_BYTES }
    requires lacks { IsSearchedTo (V.at_hand views.now) (V.total views.now) relation key.now from }
    ensures holder { FindsHolder (V.at_hand views.now) (V.total views.now) relation key.now mode result }
    ensures lacks { HeldNeeds result (IsSearchedTo (V.at_hand views.now) (V.total views.now) relation key.now) }
{
    let mut at = from;
    for _step in 0..views.count() {
        let Some(page) = views.page(at) else {
            return Held::Need(at, mode);
        };
        if let Some(name) = find(page, relation, key) {
            return Held::In(at, name);
        }
        let behind = next(page);
        if behind.get() == 0 {
            return Held::Nowhere;
        }
        at = behind;
    }
    Held::Endless
}

// The first page of the key's bucket with room for an entry, or else its last page.
pub(crate) fn room_in<V: Pages>(views: &V, key: &[u8]) -> Spot
    requires sound { V.is_sound views.now }
    ensures { FindsSpot (V.at_hand views.now) (V.total views.now) key.now result }
{
    let Some(directory) = views.page(PageNo::new(DIRECTORY)) else {
        return Spot::Need(PageNo::new(DIRECTORY), Mode::Read);
    };
    let mut at = pointer(directory, hash(key));
    for step in 0..views.count() {
        let Some(page) = views.page(at) else {
            return Spot::Need(at, Mode::Write);
        };
        if count(page) < MAX_ENTRIES {
            return Spot::In(at);
        }
        let behind = next(page);
        if behind.get() == 0 {
            return Spot::Behind {
                last: at,
                alone: step == 0,
            };
        }
        at = behind;
    }
    Spot::Endless
}

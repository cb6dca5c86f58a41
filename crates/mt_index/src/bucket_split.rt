// A full bucket of one page becomes two, by the next bit of the hash (Fagin 1979). The new entry goes into its half,
// or onto an overflow page if that half is full. `insertion_plan` chooses a split.
ghost use Rattle.std.specs.Prelude.{ℕ, ◌≡◌, ◌≢◌, ◌≤◌, ◌<◌, ◌++◌, ◌∷◌, [], length, true, false, IfOk, Some};
ghost use Rattle.std.specs.Bool.{OnTrue, OnFalse};
ghost use Rattle.mt_base.specs.declared.limits.TheConstants.{MAX_KEY_BYTES, PAGE_BYTES};
ghost use Rattle.mt_bucket.specs.Hash.{hash as hash_of};
ghost use Rattle.mt_bucket.specs.Page.{depth_of, count_of, entries, KeepsHead, IsBucket};
ghost use Rattle.mt_space.specs.Changes.{PageBytes, IsUntouched};
ghost use Rattle.mt_index.specs.Index.{named};
ghost use Rattle.mt_index.specs.Rule.{MaySplit};
ghost use Rattle.mt_index.specs.Pages.{state_of, TakesPage, Rewired, Parted};
ghost use Rattle.mt_index.specs.Answers.{InMaps, IsPlanned};
ghost use Rattle.mt_index.specs.Halves.{changed, AreHalves, Apart, PutsInHalf, Links, Notes};

use crate::answers::Add;
use crate::directory::rewired;
use crate::entry_insertion::{overflow_page, taken_from};
use mt_base::limits::PAGE_BYTES;
use mt_base::{Mode, PageNo, RecordName, RelNo, TouchedBytes};
use mt_bucket::{depth, empty, has_bit, hash, partition, push, set_depth, set_next};
use mt_space::pages::{DIRECTORY, MAP};
use mt_space::{Changes, Pages, first_free};
use std::alloc::{AllocError, Global};

// The pages that a split changes, once it is made.
#[derive(Clone, Copy)]
pub(crate) struct Halves {
    bucket: PageNo,
    fresh: PageNo,
    space: [u8; PAGE_BYTES],
    directory: [u8; PAGE_BYTES],
    low: [u8; PAGE_BYTES],
    up: [u8; PAGE_BYTES],
}

// The two pages that the bucket is to be.
fn parted(old: &[u8; PAGE_BYTES], spare: &[u8; PAGE_BYTES]) -> ([u8; PAGE_BYTES], [u8; PAGE_BYTES])
    requires { depth_of old.now < 9 }
    ensures { Parted old.now result.0 result.1 }
{
    let bit = depth(old);
    let mut low = *old;
    let mut up = *spare;
    empty(&mut up, bit + 1);
    partition(&mut low, bit, &mut up);
    set_depth(&mut low, bit + 1);
    (low, up)
}

impl Halves {
    // Puts an entry into the one half or the other, and answers true. If that one is full it answers
    // false, and they are as before.
    fn put(&mut self, upper: bool, relation: RelNo, key: &[u8], name: RecordName) -> bool
        requires relation_fits { relation < 256 }
        requires short { length key.now ≤ MAX_KEY_BYTES }
        ensures { PutsInHalf upper result
            (record { relation = relation; key = key.now; name = name }) self.old self.new }
    {
        if upper {
            push(&mut self.up, relation, key, name).is_some()
        } else {
            push(&mut self.low, relation, key, name).is_some()
        }
    }

    // Chains a page after the one half or the other.
    fn link(&mut self, upper: bool, overflow: PageNo)
        requires { overflow < PAGE_BYTES }
        ensures { Links upper overflow self.old self.new }
    {
        self.space = taken_from(&self.space, overflow);
        if upper {
            set_next(&mut self.up, overflow);
        } else {
            set_next(&mut self.low, overflow);
        }
    }

    // The changes that make the pages so.
    fn changes(
        &self,
        alloc: Global,
        space: &[u8; PAGE_BYTES],
        directory: &[u8; PAGE_BYTES],
        old: &[u8; PAGE_BYTES],
        spare: &[u8; PAGE_BYTES],
    ) -> Result<Changes, AllocError>
        ensures notes { IfOk result (λ changes. (pages : PageBytes) → pages 0 ≡ space.now → pages 1 ≡ directory.now →
            pages self.now.bucket ≡ old.now → pages self.now.fresh ≡ spare.now
            → Apart self.now.bucket self.now.fresh → Notes (changed self.now) pages changes.list.items) }
        ensures others { IfOk result (λ changes. (p : ℕ) → p ≢ 0 → p ≢ 1 → p ≢ self.now.bucket → p ≢ self.now.fresh
            → IsUntouched changes.list.items p) }
    {
        let whole = TouchedBytes::whole();
        let mut changes = Changes::new(alloc);
        changes.note(PageNo::new(MAP), space, &self.space, whole)?;
        changes.note(PageNo::new(DIRECTORY), directory, &self.directory, whole)?;
        changes.note(self.bucket, old, &self.low, whole)?;
        changes.note(self.fresh, spare, &self.up, whole)?;
        Ok(changes)
    }
}

// The bucket split over its page and the new one.
fn halve(
    space: &[u8; PAGE_BYTES],
    directory: &[u8; PAGE_BYTES],
    old: &[u8; PAGE_BYTES],
    spare: &[u8; PAGE_BYTES],
    bucket: PageNo,
    fresh: PageNo,
) -> Halves
    requires shallow { depth_of old.now < 9 }
    requires inside { fresh < PAGE_BYTES }
    ensures { AreHalves bucket fresh space.now directory.now old.now result }
{
    let (low, up) = parted(old, spare);
    Halves {
        bucket,
        fresh,
        space: taken_from(space, fresh),
        directory: rewired(directory, bucket, fresh, depth(old)),
        low,
        up,
    }
}

// Splits a bucket of one page that is full, and adds the entry to its half.
pub(crate) fn plan_split<V: Pages>(
    alloc: Global,
    views: &V,
    relation: RelNo,
    key: &[u8],
    name: RecordName,
    bucket: PageNo,
    old: &[u8; PAGE_BYTES],
) -> Result<Add, AllocError>
    requires sound { V.is_sound views.now }
    requires relation_fits { relation < 256 }
    requires short { length key.now ≤ MAX_KEY_BYTES }
    requires there { V.at_hand views.now bucket ≡ Some old.now }
    requires shallow { depth_of old.now < 9 }
    requires due { InMaps (V.at_hand views.now) (V.total views.now) (λ pages m. MaySplit key.now (state_of pages) ×
        (named (state_of pages) (hash_of key.now) ≡ bucket)) }
    ensures { IfOk result (IsPlanned (V.at_hand views.now) (V.total views.now) true
        (record { relation = relation; key = key.now; name = name })) }
{
    let Some(space) = views.page(PageNo::new(MAP)) else {
        return Ok(Add::Need(PageNo::new(MAP), Mode::Write));
    };
    let Some(directory) = views.page(PageNo::new(DIRECTORY)) else {
        return Ok(Add::Need(PageNo::new(DIRECTORY), Mode::Write));
    };
    let Some(fresh) = first_free(space, views.count()) else {
        return Ok(Add::Full);
    };
    let Some(spare) = views.page(fresh) else {
        return Ok(Add::Need(fresh, Mode::Write));
    };
    let mut halves = halve(space, directory, old, spare, bucket, fresh);
    let upper = has_bit(hash(key), depth(old));
    let first = name; // a name goes whole into a call, and it may take a second one
    if halves.put(upper, relation, key, first) {
        let changes = halves.changes(alloc, space, directory, old, spare)?;
        return Ok(Add::Changes(changes));
    }
    let Some(overflow) = first_free(&halves.space, views.count()) else {
        return Ok(Add::Full);
    };
    let Some(blank) = views.page(overflow) else {
        return Ok(Add::Need(overflow, Mode::Write));
    };
    halves.link(upper, overflow);
    let page = overflow_page(blank, depth(old) + 1, relation, key, name);
    let mut changes = halves.changes(alloc, space, directory, old, spare)?;
    changes.note(overflow, blank, &page, TouchedBytes::whole())?;
    Ok(Add::Changes(changes))
}

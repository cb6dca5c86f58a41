// The names of all records of a relation, gathered from all buckets. Pages at hand are read, and nothing is changed.
ghost use Rattle.std.specs.Prelude.{ℕ, ◌≡◌, ◌++◌, List, Option, length, IfOk, OnOk, OnErr};
ghost use Rattle.mt_base.specs.declared.limits.TheConstants.{PAGE_BYTES};
ghost use Rattle.mt_bucket.specs.Page.{entries};
ghost use Rattle.mt_index.specs.Answers.{InMaps, Asks};
ghost use Rattle.mt_index.specs.Index.{named};
ghost use Rattle.mt_index.specs.Names.{IsInIndex, NamesNeed, IfNamed, NamesEndless, AreNames, AreNamesOnce, IsGatheredTo, names_in, HasChain, HasBucket, GrowsTo, UnlessWhole, Gathers};
ghost use Rattle.mt_index.specs.Pages.{state_of};

use crate::answers::{Gathered, Names};
use crate::directory::{MAX_DEPTH, depth, pointer_of};
use mt_base::{PageNo, RecordName, RelNo};
use mt_bucket::{count, name_in, next};
use mt_space::Pages;
use mt_space::pages::DIRECTORY;
use std::alloc::{AllocError, Global};

/// The names of a relation's records so far. They are gathered bucket by bucket, as the directory's pointers name
/// them.
#[derive(Debug, Drop)]
pub struct Gathering {
    // the pointers before this one are done with
    pointer: usize,
    names: Vec<RecordName>,
}

impl Gathering {
    /// No name yet, of any relation.
    pub fn new(alloc: Global) -> Gathering
        ensures { (at_hand : ℕ → Option (List ℕ)) (total relation : ℕ) → IsGatheredTo at_hand total relation result }
    {
        Gathering {
            pointer: 0,
            names: Vec::new(alloc),
        }
    }

    /// Forgets all names, and keeps their memory.
    pub fn clear(&mut self)
        ensures { (at_hand : ℕ → Option (List ℕ)) (total relation : ℕ) → IsGatheredTo at_hand total relation self.new }
    {
        self.pointer = 0;
        self.names.clear();
    }

    /// The names so far.
    pub fn names(&self) -> &[RecordName]
        ensures { result.now ≡ self.now.names.items }
    {
        self.names.as_slice()
    }
}

/// Gathers the names of a relation's records, by the pages at hand: each key's once, and no other. The directory is
/// needed for read, and then each page of each bucket. In pages that are an index it never answers that they are none.
/// The only error is want of memory.
///
/// It goes on with the names so far, which were gathered from fewer pages. At a bucket with a page that is not at
/// hand it stops, and the next call begins with that bucket.
pub fn plan_names<V: Pages>(
    views: &V,
    relation: RelNo,
    gathering: &mut Gathering,
) -> Result<Names, AllocError>
    requires sound { V.is_sound views.now }
    requires so_far { IsGatheredTo (V.at_hand views.now) (V.total views.now) relation gathering.old }
    ensures so_far { IsGatheredTo (V.at_hand views.now) (V.total views.now) relation gathering.new }
    ensures need { IfOk result (λ names. NamesNeed names (Asks (V.at_hand views.now) (V.total views.now) IsInIndex)) }
    ensures named { IfOk result (λ names. IfNamed names (InMaps (V.at_hand views.now) (V.total views.now)
        (λ pages m. AreNames relation m gathering.new.names.items))) }
    ensures once { IfOk result (λ names. IfNamed names (InMaps (V.at_hand views.now) (V.total views.now)
        (λ pages m. AreNamesOnce relation m gathering.new.names.items))) }
    ensures endless { IfOk result (λ names. NamesEndless names (InMaps (V.at_hand views.now) (V.total views.now)
        (λ pages m. ⊥))) }
{
    let Some(directory) = views.page(PageNo::new(DIRECTORY)) else {
        return Ok(Names::Need(PageNo::new(DIRECTORY)));
    };
    for pointer in gathering.pointer..1usize << depth(directory) {
        let bucket = pointer_of(directory, pointer);
        match gather_bucket(views, bucket, pointer, relation, &mut gathering.names)? {
            Gathered::Whole => gathering.pointer = pointer + 1,
            Gathered::Need(page) => return Ok(Names::Need(page)),
            Gathered::Endless => return Ok(Names::Endless),
        }
    }
    Ok(Names::Named)
}

// Gathers the names of the bucket that a pointer names, if no pointer before it does. They are as before if not all
// pages of the bucket are gathered.
fn gather_bucket<V: Pages>(
    views: &V,
    bucket: PageNo,
    pointer: usize,
    relation: RelNo,
    names: &mut Vec<RecordName>,
) -> Result<Gathered, AllocError>
    requires sound { V.is_sound views.now }
    requires named { InMaps (V.at_hand views.now) (V.total views.now) (λ pages m.
        named (state_of pages) pointer ≡ bucket) }
    ensures gathers { IfOk result (Gathers (V.at_hand views.now) (V.total views.now)
        (HasBucket bucket pointer relation names.old.items names.new.items)) }
    ensures part { IfOk result (λ gathered. UnlessWhole gathered (names.new.items ≡ names.old.items)) }
    ensures unchanged { OnErr result (names.new.items ≡ names.old.items) }
{
    let Some(page) = views.page(bucket) else {
        return Ok(Gathered::Need(bucket));
    };
    // the pointers of a bucket share so many low bits, and the first has no other bit
    if pointer >= 1usize << mt_bucket::depth(page).min(MAX_DEPTH) {
        return Ok(Gathered::Whole);
    }
    let before = names.len();
    let gathered = gather_chain(views, bucket, relation, names);
    match gathered {
        Ok(Gathered::Whole) => {}
        Ok(Gathered::Need(_) | Gathered::Endless) | Err(_) => names.truncate(before),
    }
    gathered
}

// Gathers the names in all pages of a bucket.
fn gather_chain<V: Pages>(
    views: &V,
    bucket: PageNo,
    relation: RelNo,
    names: &mut Vec<RecordName>,
) -> Result<Gathered, AllocError>
    requires sound { V.is_sound views.now }
    requires named { InMaps (V.at_hand views.now) (V.total views.now) (λ pages m.
        (h : ℕ) × (named (state_of pages) h ≡ bucket)) }
    ensures gathers { IfOk result (Gathers (V.at_hand views.now) (V.total views.now)
        (HasChain bucket relation names.old.items names.new.items)) }
    ensures longer { GrowsTo names.old.items names.new.items }
{
    let mut at = bucket;
    for _step in 0..views.count() {
        let Some(page) = views.page(at) else {
            return Ok(Gathered::Need(at));
        };
        gather_page(page, relation, names)?;
        let following = next(page);
        if following.get() == 0 {
            return Ok(Gathered::Whole);
        }
        at = following;
    }
    Ok(Gathered::Endless)
}

// Gathers the names in one page.
fn gather_page(page: &[u8], relation: RelNo, names: &mut Vec<RecordName>) -> Result<(), AllocError>
    requires whole { length page.now ≡ PAGE_BYTES }
    ensures names { OnOk result (names.new.items ≡ names.old.items ++ names_in relation (entries page.now)) }
    ensures longer { GrowsTo names.old.items names.new.items }
{
    for i in 0..count(page) {
        if let Some(name) = name_in(page, i, relation) {
            names.push(name)?;
        }
    }
    Ok(())
}

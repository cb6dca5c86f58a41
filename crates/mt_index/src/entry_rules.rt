// Whether each entry is in the bucket of its hash, and its key in no other.
ghost use Rattle.std.specs.Prelude.{◌≡◌, ◌≢◌, ◌<◌, ◌^◌, ℕ, List, length, IfOk, MatchOption};
ghost use Rattle.mt_bucket.specs.Page.{next_of, IsBucket};
ghost use Rattle.mt_space.specs.Kinds.{kind};
ghost use Rattle.mt_index.specs.Pages.{depth_in, IsOn};
ghost use Rattle.mt_index.specs.Checks.{AreWhole, AreKinds, AreBuckets, IsMarked, AreMarked, IsFinite, AreAlone, IsSettled, Settles, holder_in, ArePassed, IsMisplaced};
ghost use Rattle.mt_space.specs.PageLists.{bytes_of};

use crate::directory::pointer;
use crate::index_rules::{is_bucket, page_at};
use mt_base::PageNo;
use mt_bucket::{count, entry, hash, next};
use mt_space::pages::DIRECTORY;
use std::alloc::{AllocError, Global};
use std::collections::BTreeMap;

// The number of the page that has an entry, by the entry's relation and key.
type Holders<'a> = BTreeMap<(u16, &'a [u8]), u16>;

// A bucket page that is in no bucket, or has an entry that is in a wrong one or twice there.
pub(crate) fn find_unsettled(
    alloc: Global,
    pages: &[[u8; 4096]],
    homes: &[u16],
) -> Result<Option<PageNo>, AllocError>
    requires whole { AreWhole pages.now }
    requires kinds { AreKinds (length pages.now) (bytes_of pages.now) }
    requires buckets { (relations : ℕ) × AreBuckets relations (length pages.now) (bytes_of pages.now) }
    requires size { length homes.now ≡ length pages.now }
    requires marked { AreMarked (bytes_of pages.now) homes.now (2 ^ depth_in (bytes_of pages.now 1)) }
    ensures { IfOk result (λ found. MatchOption found ((p : ℕ) → p < length pages.now →
        Settles (bytes_of pages.now) homes.now p) (λ p. (kind (bytes_of pages.now) p ≡ 2) ×
        (IsSettled (bytes_of pages.now) homes.now p → ⊥))) }
{
    for number in 0..pages.len() as u16 {
        if let Some(page) = unsettled_from(alloc, pages, homes, PageNo::new(number))? {
            return Ok(Some(page));
        }
    }
    Ok(None)
}

// This page, if it is a bucket page in no bucket. Else a page of the bucket that it begins with an entry in a
// wrong place.
fn unsettled_from(
    alloc: Global,
    pages: &[[u8; 4096]],
    homes: &[u16],
    page: PageNo,
) -> Result<Option<PageNo>, AllocError>
    requires whole { AreWhole pages.now }
    requires kinds { AreKinds (length pages.now) (bytes_of pages.now) }
    requires buckets { (relations : ℕ) × AreBuckets relations (length pages.now) (bytes_of pages.now) }
    requires size { length homes.now ≡ length pages.now }
    requires marked { AreMarked (bytes_of pages.now) homes.now (2 ^ depth_in (bytes_of pages.now 1)) }
    ensures { IfOk result (λ found. MatchOption found (Settles (bytes_of pages.now) homes.now page) (λ p.
        (kind (bytes_of pages.now) p ≡ 2) × (IsSettled (bytes_of pages.now) homes.now p → ⊥))) }
{
    if !is_bucket(pages, page) {
        return Ok(None);
    }
    let home = homes[usize::from(page.get())];
    if home == 0 {
        return Ok(Some(page));
    }
    if home != page.get() {
        return Ok(None);
    }
    find_misplaced(alloc, pages, page)
}

// A page of this bucket with an entry that belongs elsewhere, or whose key stands after it too.
fn find_misplaced(
    alloc: Global,
    pages: &[[u8; 4096]],
    bucket: PageNo,
) -> Result<Option<PageNo>, AllocError>
    requires whole { AreWhole pages.now }
    requires kinds { AreKinds (length pages.now) (bytes_of pages.now) }
    requires buckets { (relations : ℕ) × AreBuckets relations (length pages.now) (bytes_of pages.now) }
    requires marked { (homes : List ℕ) × IsMarked (bytes_of pages.now) homes bucket }
    ensures { IfOk result (λ found. MatchOption found ((p : ℕ) → IsOn (bytes_of pages.now) bucket p →
        AreAlone (bytes_of pages.now) bucket p) (λ p. IsMisplaced (bytes_of pages.now) bucket p)) }
{
    let mut holders = Holders::new(alloc);
    let mut at = bucket;
    for _step in 0..pages.len() {
        if at.get() == 0 {
            return Ok(None);
        }
        if let Some(page) = pass(pages, bucket, at, &mut holders)? {
            return Ok(Some(page));
        }
        at = next(page_at(pages, at));
    }
    Ok(None)
}

// Notes the entries of a page of a bucket. Answers a page with an entry in a wrong place: this one, or one that
// has a key of this one's too.
fn pass<'a>(
    pages: &'a [[u8; 4096]],
    bucket: PageNo,
    at: PageNo,
    holders: &mut Holders<'a>,
) -> Result<Option<PageNo>, AllocError>
    requires whole { AreWhole pages.now }
    requires inside { at < length pages.now }
    requires real { at ≢ 0 }
    requires bucket { (relations : ℕ) × IsBucket relations (length pages.now) (bytes_of pages.now at) }
    requires finite { IsFinite (length pages.now) (bytes_of pages.now) at }
    requires passed { ArePassed (bytes_of pages.now) bucket at 0 (holder_in holders.old) }
    ensures { IfOk result (λ found. MatchOption found (ArePassed (bytes_of pages.now) bucket
        (next_of (bytes_of pages.now at)) 0 (holder_in holders.new)) (λ p. IsMisplaced (bytes_of pages.now) bucket
        p)) }
{
    let bytes = page_at(pages, at);
    let directory = page_at(pages, PageNo::new(DIRECTORY));
    for i in 0..count(bytes) {
        let entry = entry(bytes, i);
        if pointer(directory, hash(entry.key)) != bucket {
            return Ok(Some(at));
        }
        let name = (entry.relation.get(), entry.key);
        if let Some(holder) = holders.insert(name, at.get())? {
            return Ok(Some(PageNo::new(holder)));
        }
    }
    Ok(None)
}

// A reading of any pages: whether they are an index.
ghost use Rattle.std.specs.Prelude.{◌≡◌, ◌+◌, ◌<◌, ◌≤◌, ℕ, [], length, get_or, IfOk, IfSome, MatchBool, MatchOption};
ghost use Rattle.mt_base.specs.declared.limits.TheConstants.{PAGE_BYTES};
ghost use Rattle.mt_bucket.specs.Page.{IsBucket};
ghost use Rattle.mt_space.specs.Kinds.{kind};
ghost use Rattle.mt_index.specs.Pages.{IsDirectory};
ghost use Rattle.mt_index.specs.Checks.{AreWhole, IsSound, AreKinds, AreBuckets, AreNexts, ArePointers, HasNext};
ghost use Rattle.mt_space.specs.PageLists.{bytes_of};
ghost use Rattle.mt_index.specs.Broken.{IsBroken};

use crate::bucket_marks::mark_buckets;
use crate::directory_rules::{are_zero, check_directory};
use crate::entry_rules::find_unsettled;
use crate::pointer_rules::are_pointers;
use mt_base::PageNo;
use mt_base::limits::PAGE_BYTES;
use mt_space::pages::{BUCKET, DIRECTORY, FIXED, MAP};
use std::alloc::{AllocError, Global};

/// Reads any pages, all of a device of a schema of so many relations. `None` if they are an index, each byte of
/// the directory and of the bucket pages as it has to be. Else it is a page that breaks a rule.
///
/// Each bucket page stands once in one chain. A bucket is named by just the pointers of its pattern, and holds keys
/// of that pattern. No relation and key is there twice. The only error is want of memory.
pub fn check(
    alloc: Global,
    pages: &[[u8; 4096]],
    relations: u16,
) -> Result<Option<PageNo>, AllocError>
    requires whole { AreWhole pages.now }
    ensures found { IfOk result (λ broken. MatchOption broken (IsSound relations (length pages.now)
        (bytes_of pages.now)) (λ p. IsSound relations (length pages.now) (bytes_of pages.now) → ⊥)) }
    ensures named { IfOk result (λ broken. IfSome broken (λ p. IsBroken relations (length pages.now)
        (bytes_of pages.now) p)) }
{
    if !are_kinds(pages) {
        return Ok(Some(PageNo::new(MAP)));
    }
    if !check_directory(page_at(pages, PageNo::new(DIRECTORY))) {
        return Ok(Some(PageNo::new(DIRECTORY)));
    }
    if let Some(page) = first_malformed(pages, relations) {
        return Ok(Some(page));
    }
    if let Some(page) = first_misled(pages) {
        return Ok(Some(page));
    }
    if !are_pointers(pages) {
        return Ok(Some(PageNo::new(DIRECTORY)));
    }
    let mut homes = vec![in alloc; 0; pages.len()]?;
    first_misplaced(alloc, pages, &mut homes, relations)
}

// A bucket page that is in no bucket's chain or in two, or has an entry that belongs elsewhere.
// Of each page it notes the bucket.
fn first_misplaced(
    alloc: Global,
    pages: &[[u8; 4096]],
    homes: &mut [u16],
    relations: u16,
) -> Result<Option<PageNo>, AllocError>
    requires whole { AreWhole pages.now }
    requires kinds { AreKinds (length pages.now) (bytes_of pages.now) }
    requires directory { IsDirectory (bytes_of pages.now 1) }
    requires buckets { AreBuckets relations (length pages.now) (bytes_of pages.now) }
    requires nexts { AreNexts (bytes_of pages.now) }
    requires pointers { ArePointers (bytes_of pages.now) }
    requires size { length homes.old ≡ length pages.now }
    requires none { (n : ℕ) → get_or homes.old n 0 ≡ 0 }
    ensures found { IfOk result (λ broken. MatchOption broken (IsSound relations (length pages.now)
        (bytes_of pages.now)) (λ p. IsSound relations (length pages.now) (bytes_of pages.now) → ⊥)) }
    ensures named { IfOk result (λ broken. IfSome broken (λ p. IsBroken relations (length pages.now)
        (bytes_of pages.now) p)) }
{
    if let Some(page) = mark_buckets(pages, homes) {
        return Ok(Some(page));
    }
    find_unsettled(alloc, pages, homes)
}

// One of the pages.
pub(crate) fn page_at(pages: &[[u8; 4096]], page: PageNo) -> &[u8; 4096]
    requires whole { AreWhole pages.now }
    requires inside { page < length pages.now }
    ensures is { result.now ≡ bytes_of pages.now page }
    ensures size { length result.now ≡ PAGE_BYTES }
{
    &pages[usize::from(page.get())]
}

// Whether a page is a bucket's, by the space map.
pub(crate) fn is_bucket(pages: &[[u8; 4096]], page: PageNo) -> bool
    requires whole { AreWhole pages.now }
    requires kinds { AreKinds (length pages.now) (bytes_of pages.now) }
    ensures { MatchBool result ((kind (bytes_of pages.now) page ≡ 2) ×
        (page < length pages.now)) (kind (bytes_of pages.now) page ≡ 2 → ⊥) }
{
    let number = usize::from(page.get());
    number < pages.len() && page_at(pages, PageNo::new(MAP))[number] == BUCKET
}

// Whether the space map has the fixed pages, and nothing past the last page.
fn are_kinds(pages: &[[u8; 4096]]) -> bool
    requires whole { AreWhole pages.now }
    ensures { MatchBool result (AreKinds (length pages.now) (bytes_of pages.now)) (AreKinds (length pages.now)
        (bytes_of pages.now) → ⊥) }
{
    let map = page_at(pages, PageNo::new(MAP));
    map[0] == FIXED && map[1] == FIXED && are_zero(map, pages.len(), PAGE_BYTES)
}

// The first bucket page whose bytes are none.
fn first_malformed(pages: &[[u8; 4096]], relations: u16) -> Option<PageNo>
    requires whole { AreWhole pages.now }
    requires kinds { AreKinds (length pages.now) (bytes_of pages.now) }
    ensures { MatchOption result (AreBuckets relations (length pages.now) (bytes_of pages.now)) (λ p.
        (kind (bytes_of pages.now) p ≡ 2) × (IsBucket relations (length pages.now) (bytes_of pages.now p) → ⊥)) }
{
    let total = pages.len() as u16;
    for number in 0..total {
        let page = PageNo::new(number);
        if is_bucket(pages, page) && !mt_bucket::check(page_at(pages, page), relations, total) {
            return Some(page);
        }
    }
    None
}

// Whether a bucket page names a bucket page as the next one of its chain, or none.
fn has_next(pages: &[[u8; 4096]], page: PageNo) -> bool
    requires whole { AreWhole pages.now }
    requires kinds { AreKinds (length pages.now) (bytes_of pages.now) }
    requires inside { page < length pages.now }
    ensures { MatchBool result (HasNext (bytes_of pages.now) page) (HasNext (bytes_of pages.now) page → ⊥) }
{
    let next = mt_bucket::next(page_at(pages, page));
    next.get() == 0 || is_bucket(pages, next)
}

// The first bucket page that names a page of another kind as its next one.
fn first_misled(pages: &[[u8; 4096]]) -> Option<PageNo>
    requires whole { AreWhole pages.now }
    requires kinds { AreKinds (length pages.now) (bytes_of pages.now) }
    ensures { MatchOption result (AreNexts (bytes_of pages.now)) (λ p.
        (kind (bytes_of pages.now) p ≡ 2) × (HasNext (bytes_of pages.now) p → ⊥)) }
{
    let total = pages.len() as u16;
    for number in 0..total {
        let bucket = PageNo::new(number);
        if is_bucket(pages, bucket) && !has_next(pages, bucket) {
            return Some(bucket);
        }
    }
    None
}

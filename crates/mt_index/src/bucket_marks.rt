// Which bucket each bucket page is of. `index_rules` asks this of pages in memory that may have any bytes.
ghost use Rattle.std.specs.Prelude.{◌≡◌, ◌≢◌, ◌<◌, ◌≤◌, ◌^◌, ℕ, length, get_or, MatchOption, MatchBool};
ghost use Rattle.mt_index.specs.Pages.{depth_in, pointer_at};
ghost use Rattle.mt_index.specs.Checks.{AreWhole, AreKinds, ArePointers, IsMarked, AreMarked, Marks, IsStuck, IsSound, AreNexts, CanFollow, CannotFollow};
ghost use Rattle.mt_space.specs.PageLists.{bytes_of};
ghost use Rattle.mt_space.specs.Kinds.{kind};
ghost use Rattle.mt_index.specs.Broken.{IsAstray};

use crate::directory::{depth, pointer_of};
use crate::index_rules::page_at;
use mt_base::PageNo;
use mt_space::pages::DIRECTORY;

// Marks each page of a bucket with the bucket's first page. Answers a page that cannot stand where a chain has it.
pub(crate) fn mark_buckets(pages: &[[u8; 4096]], homes: &mut [u16]) -> Option<PageNo>
    requires whole { AreWhole pages.now }
    requires kinds { AreKinds (length pages.now) (bytes_of pages.now) }
    requires nexts { AreNexts (bytes_of pages.now) }
    requires pointers { ArePointers (bytes_of pages.now) }
    requires size { length homes.old ≡ length pages.now }
    requires none { (n : ℕ) → get_or homes.old n 0 ≡ 0 }
    ensures size { length homes.new ≡ length homes.old }
    ensures done { MatchOption result (AreMarked (bytes_of pages.now) homes.new (2 ^ depth_in
        (bytes_of pages.now 1))) (λ p. IsAstray (length pages.now) (bytes_of pages.now) p × ((relations : ℕ) →
        IsSound relations (length pages.now) (bytes_of pages.now) → ⊥)) }
{
    let directory = page_at(pages, PageNo::new(DIRECTORY));
    for i in 0..1usize << depth(directory) {
        if let Some(page) = mark_bucket(pages, homes, pointer_of(directory, i)) {
            return Some(page);
        }
    }
    None
}

// Marks the pages of one bucket, if they are not.
fn mark_bucket(pages: &[[u8; 4096]], homes: &mut [u16], bucket: PageNo) -> Option<PageNo>
    requires whole { AreWhole pages.now }
    requires kinds { AreKinds (length pages.now) (bytes_of pages.now) }
    requires nexts { AreNexts (bytes_of pages.now) }
    requires kind { kind (bytes_of pages.now) bucket ≡ 2 }
    requires inside { bucket < length pages.now }
    requires real { bucket ≢ 0 }
    requires size { length homes.old ≡ length pages.now }
    requires marked { (done : ℕ) × AreMarked (bytes_of pages.now) homes.old done }
    ensures size { length homes.new ≡ length homes.old }
    ensures marks { Marks (bytes_of pages.now) bucket homes.old homes.new }
    ensures done { MatchOption result (IsMarked (bytes_of pages.now) homes.new bucket) (λ p.
        (get_or homes.old bucket 0 ≢ bucket) × IsStuck (length pages.now) (bytes_of pages.now) homes.old bucket p) }
{
    if homes[usize::from(bucket.get())] == bucket.get() {
        return None;
    }
    mark_chain(pages, homes, bucket)
}

// Walks along a bucket, and marks its pages.
fn mark_chain(pages: &[[u8; 4096]], homes: &mut [u16], bucket: PageNo) -> Option<PageNo>
    requires whole { AreWhole pages.now }
    requires kinds { AreKinds (length pages.now) (bytes_of pages.now) }
    requires nexts { AreNexts (bytes_of pages.now) }
    requires kind { kind (bytes_of pages.now) bucket ≡ 2 }
    requires inside { bucket < length pages.now }
    requires size { length homes.old ≡ length pages.now }
    ensures size { length homes.new ≡ length homes.old }
    ensures marks { Marks (bytes_of pages.now) bucket homes.old homes.new }
    ensures done { MatchOption result (IsMarked (bytes_of pages.now) homes.new bucket) (λ p.
        IsStuck (length pages.now) (bytes_of pages.now) homes.old bucket p) }
{
    let bits = mt_bucket::depth(page_at(pages, bucket));
    let mut at = bucket;
    for _step in 0..pages.len() {
        if at.get() == 0 {
            return None;
        }
        if !is_next(pages, homes, at, bits) {
            return Some(at);
        }
        homes[usize::from(at.get())] = bucket.get();
        at = mt_bucket::next(page_at(pages, at));
    }
    if at.get() == 0 { None } else { Some(at) }
}

// Whether a bucket page can be the next one of a bucket of this depth.
fn is_next(pages: &[[u8; 4096]], homes: &[u16], page: PageNo, bits: u8) -> bool
    requires whole { AreWhole pages.now }
    requires kinds { AreKinds (length pages.now) (bytes_of pages.now) }
    requires kind { kind (bytes_of pages.now) page ≡ 2 }
    requires size { length homes.now ≡ length pages.now }
    ensures { MatchBool result (CanFollow (length pages.now) (bytes_of pages.now) homes.now page bits) (CannotFollow
        (bytes_of pages.now) homes.now page bits) }
{
    mt_bucket::depth(page_at(pages, page)) == bits && homes[usize::from(page.get())] == 0
}

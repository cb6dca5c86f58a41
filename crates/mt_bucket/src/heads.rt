// The head of a bucket page: its depth, the count of its entries, and the overflow page after it.
// Also how long the head is, and each entry after it.
ghost use Rattle.std.specs.Prelude.{ℕ, ◌≡◌, ◌≤◌, ◌<◌, [], length};
ghost use Rattle.mt_bucket.specs.declared.heads.TheConstants.{CELL_BYTES, HEAD_BYTES, MAX_ENTRIES};
ghost use Rattle.mt_base.specs.declared.limits.TheConstants.{PAGE_BYTES};
ghost use Rattle.mt_base.specs.Ranges.{u16_at as number_at, Torn};
ghost use Rattle.mt_bucket.specs.Page.{depth_of, count_of, next_of, entries, IsBucket, KeepsBucket};

use mt_base::PageNo;
use mt_base::ranges::{put, put_u16, u16_at};

/// The most entries of a page.
pub const MAX_ENTRIES: usize = 58;

/// Bytes of a page's head.
pub const HEAD_BYTES: usize = 8;

/// Bytes of an entry.
pub const CELL_BYTES: usize = 70;

/// How many bits of the hash the bucket's keys share.
pub fn depth(page: &[u8]) -> u8
    requires whole { length page.now ≡ PAGE_BYTES }
    ensures { result ≡ depth_of page.now }
{
    page[0]
}

/// How many entries the page has.
pub fn count(page: &[u8]) -> usize
    requires whole { length page.now ≡ PAGE_BYTES }
    ensures { result ≡ count_of page.now }
{
    usize::from(u16_at(page, 2)).min(MAX_ENTRIES)
}

/// The overflow page after this one; page 0 if there is none.
pub fn next(page: &[u8]) -> PageNo
    requires whole { length page.now ≡ PAGE_BYTES }
    ensures { result ≡ next_of page.now }
{
    PageNo::new(u16_at(page, 4))
}

/// Makes the bytes a page of this depth without entries and without an overflow page, whatever they were.
pub fn empty(page: &mut [u8], depth: u8)
    requires whole { length page.old ≡ PAGE_BYTES }
    ensures size { length page.new ≡ PAGE_BYTES }
    ensures depth { depth_of page.new ≡ depth }
    ensures next { next_of page.new ≡ 0 }
    ensures entries { entries page.new ≡ [] }
    ensures bucket { (relations pages : ℕ) → depth ≤ 9 → 0 < pages → IsBucket relations pages page.new }
{
    put(page, 0, &[depth, 0, 0, 0, 0, 0, 0, 0]);
}

/// Gives the page another depth.
pub fn set_depth(page: &mut [u8], depth: u8)
    requires whole { length page.old ≡ PAGE_BYTES }
    ensures size { length page.new ≡ PAGE_BYTES }
    ensures depth { depth_of page.new ≡ depth }
    ensures next { next_of page.new ≡ next_of page.old }
    ensures entries { entries page.new ≡ entries page.old }
    ensures kept { depth ≤ 9 → KeepsBucket page.old page.new }
{
    put(page, 0, &[depth]);
}

/// Gives the page another overflow page.
pub fn set_next(page: &mut [u8], next: PageNo)
    requires whole { length page.old ≡ PAGE_BYTES }
    ensures size { length page.new ≡ PAGE_BYTES }
    ensures depth { depth_of page.new ≡ depth_of page.old }
    ensures next { next_of page.new ≡ next }
    ensures entries { entries page.new ≡ entries page.old }
    ensures kept { (relations pages : ℕ) → next < pages → IsBucket relations pages page.old →
        IsBucket relations pages page.new }
{
    put_u16(page, 4, next.get());
}

// Sets how many entries the page has.
pub(crate) fn set_count(page: &mut [u8], count: usize)
    requires whole { length page.old ≡ PAGE_BYTES }
    requires few { count ≤ MAX_ENTRIES }
    ensures number { number_at page.new 2 ≡ count }
    ensures rest { Torn 2 2 page.old page.new }
{
    put_u16(page, 2, count as u16);
}

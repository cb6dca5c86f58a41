// Whether the directory's pointers name each bucket by its pattern.
ghost use Rattle.std.specs.Prelude.{◌≡◌, ◌<◌, ◌≤◌, ◌^◌, ℕ, length, MatchBool};
ghost use Rattle.mt_base.specs.declared.limits.TheConstants.{PAGE_BYTES};
ghost use Rattle.mt_index.specs.Pages.{depth_in, pointer_at};
ghost use Rattle.mt_index.specs.Checks.{AreWhole, AreKinds, IsPattern, IsPointer, ArePointers};
ghost use Rattle.mt_space.specs.PageLists.{bytes_of};

use crate::directory::{depth, pointer_of};
use crate::index_rules::{is_bucket, page_at};
use mt_base::PageNo;
use mt_space::pages::DIRECTORY;

// Whether each pointer is right.
pub(crate) fn are_pointers(pages: &[[u8; 4096]]) -> bool
    requires whole { AreWhole pages.now }
    requires kinds { AreKinds (length pages.now) (bytes_of pages.now) }
    ensures { MatchBool result (ArePointers (bytes_of pages.now)) (ArePointers (bytes_of pages.now) → ⊥) }
{
    let directory = page_at(pages, PageNo::new(DIRECTORY));
    for i in 0..1usize << depth(directory) {
        if !is_pointer(pages, directory, i) {
            return false;
        }
    }
    true
}

// Whether this pointer is.
fn is_pointer(pages: &[[u8; 4096]], directory: &[u8], i: usize) -> bool
    requires whole { AreWhole pages.now }
    requires kinds { AreKinds (length pages.now) (bytes_of pages.now) }
    requires directory { directory.now ≡ bytes_of pages.now 1 }
    requires there { i < 2 ^ depth_in directory.now }
    ensures { MatchBool result (IsPointer (bytes_of pages.now) i) (IsPointer (bytes_of pages.now) i → ⊥) }
{
    let bucket = pointer_of(directory, i);
    if !is_bucket(pages, bucket) {
        return false;
    }
    let bits = mt_bucket::depth(page_at(pages, bucket));
    bits <= depth(directory) && is_pattern(directory, i, bucket, bits)
}

// Whether just the pointers with these low bits name this bucket.
fn is_pattern(directory: &[u8], i: usize, bucket: PageNo, bits: u8) -> bool
    requires whole { length directory.now ≡ PAGE_BYTES }
    requires there { i < 2 ^ depth_in directory.now }
    requires few { bits ≤ 9 }
    ensures { MatchBool result (IsPattern directory.now i bucket bits) (IsPattern directory.now i bucket bits → ⊥) }
{
    let size = 1usize << bits;
    for j in 0..1usize << depth(directory) {
        let named = pointer_of(directory, j) == bucket;
        if named != (j % size == i % size) {
            return false;
        }
    }
    true
}

// A reading of any bytes: whether they are a directory page.
ghost use Rattle.std.specs.Prelude.{◌≡◌, ◌≤◌, ◌<◌, length, MatchBool};
ghost use Rattle.mt_base.specs.declared.limits.TheConstants.{PAGE_BYTES};
ghost use Rattle.mt_index.specs.Pages.{AreZero, IsDirectory};

use crate::directory::{DIRECTORY_HEAD_BYTES, MAX_DEPTH, POINTER_BYTES};
use mt_base::limits::PAGE_BYTES;

/// Whether these 4,096 bytes are a directory page. It goes by at most 9 bits of a hash. The bytes between their
/// number and the pointers are zero, and so are those after the pointers. That each pointer names a bucket is no
/// matter of this page alone.
pub fn check_directory(page: &[u8]) -> bool
    requires whole { length page.now ≡ PAGE_BYTES }
    ensures { MatchBool result (IsDirectory page.now) (IsDirectory page.now → ⊥) }
{
    if page[0] > MAX_DEPTH {
        return false;
    }
    let end = DIRECTORY_HEAD_BYTES + POINTER_BYTES * (1 << page[0]);
    if !are_zero(page, 1, DIRECTORY_HEAD_BYTES) {
        return false;
    }
    are_zero(page, end, PAGE_BYTES)
}

// Whether the bytes from one place up to another are zero.
pub(crate) fn are_zero(page: &[u8], from: usize, to: usize) -> bool
    requires whole { length page.now ≡ PAGE_BYTES }
    requires within { to ≤ PAGE_BYTES }
    ensures { MatchBool result (AreZero page.now from to) (AreZero page.now from to → ⊥) }
{
    for i in from..to {
        if page[i] != 0 {
            return false;
        }
    }
    true
}

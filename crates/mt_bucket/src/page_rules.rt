// A reading of any bytes: whether they are a bucket page.
ghost use Rattle.std.specs.Prelude.{◌≡◌, ◌+◌, ◌*◌, ◌<◌, ◌≤◌, ℕ, length, get_or, MatchBool};
ghost use Rattle.mt_bucket.specs.declared.heads.TheConstants.{CELL_BYTES, HEAD_BYTES, MAX_ENTRIES};
ghost use Rattle.mt_base.specs.declared.limits.TheConstants.{MAX_KEY_BYTES, PAGE_BYTES};
ghost use Rattle.mt_bucket.specs.Page.{IsBucket, IsCell};

use crate::heads::{CELL_BYTES, HEAD_BYTES, MAX_ENTRIES};
use mt_base::limits::MAX_KEY_BYTES;
use mt_base::ranges::u16_at;

/// Whether these 4,096 bytes are a bucket page of a schema of so many relations and pages. Its depth is at most 9, it
/// has at most 58 entries, and its overflow page is of the device or none. Zeros stand where the head has them. Each
/// entry has a relation, a key and a page within their limits, and zeros after its key.
pub fn check(page: &[u8], relations: u16, pages: u16) -> bool
    requires whole { length page.now ≡ PAGE_BYTES }
    ensures { MatchBool result (IsBucket relations pages page.now) (IsBucket relations pages page.now → ⊥) }
{
    if page[0] > 9 || page[1] != 0 || u16_at(page, 6) != 0 || u16_at(page, 4) >= pages {
        return false;
    }
    let count = usize::from(u16_at(page, 2));
    if count > MAX_ENTRIES {
        return false;
    }
    for i in 0..count {
        if !is_cell(page, relations, pages, HEAD_BYTES + CELL_BYTES * i) {
            return false;
        }
    }
    true
}

// Whether the cell at a place is an entry of the schema.
fn is_cell(page: &[u8], relations: u16, pages: u16, at: usize) -> bool
    requires whole { length page.now ≡ PAGE_BYTES }
    requires within { at + CELL_BYTES ≤ PAGE_BYTES }
    ensures { MatchBool result (IsCell relations pages page.now at) (IsCell relations pages page.now at → ⊥) }
{
    if u16::from(page[at]) >= relations || u16_at(page, at + 66) >= pages {
        return false;
    }
    let key = usize::from(page[at + 1]);
    if key < 1 || key > MAX_KEY_BYTES {
        return false;
    }
    is_filled(page, at + 2, key)
}

// Whether the bytes after a key, up to the 64th, are zero.
fn is_filled(page: &[u8], at: usize, key: usize) -> bool
    requires whole { length page.now ≡ PAGE_BYTES }
    requires within { at + MAX_KEY_BYTES ≤ PAGE_BYTES }
    requires short { key ≤ MAX_KEY_BYTES }
    ensures { MatchBool result ((i : ℕ) → key ≤ i → i < MAX_KEY_BYTES → get_or page.now (at + i) 0 ≡ 0)
        (((i : ℕ) → key ≤ i → i < MAX_KEY_BYTES → get_or page.now (at + i) 0 ≡ 0) → ⊥) }
{
    for i in key..MAX_KEY_BYTES {
        if page[at + i] != 0 {
            return false;
        }
    }
    true
}

// A reading of any bytes: whether they are a page of records.
ghost use Rattle.std.specs.Prelude.{◌≡◌, ◌+◌, ◌*◌, ◌<◌, ◌≤◌, ℕ, length, get_or, MatchBool};
ghost use Rattle.mt_base.specs.declared.limits.TheConstants.{PAGE_BYTES};
ghost use Rattle.mt_slots.specs.Page.{IsPage, IsRow, IsSlot, IsFree, Fits, count, row_size, row_at};
ghost use Rattle.mt_slots.specs.Parts.{IsGood};

use crate::contents::view_at;
use crate::heads::{PAGE_HEAD_BYTES, SLOT_BYTES, offset_of, size_of, slot_count};
use crate::placement::ROW_HEAD_BYTES;
use mt_base::limits::{PAGE_BYTES, key_fits};
use mt_base::ranges::u16_at;

/// Whether these 4,096 bytes are a page of records of a schema of so many relations, with no value longer than this.
/// The page's six zero bytes are there, and empty slots are zeros. Each record lies after the table and within the
/// page, and is of the length that its own head says. Its relation, key and value are within their limits. No two
/// overlap, and table and records together are no longer than the page.
pub fn check(page: &[u8], relations: u16, longest: usize) -> bool
    requires whole { length page.now ≡ PAGE_BYTES }
    ensures { MatchBool result (IsPage relations longest page.now) (IsPage relations longest page.now → ⊥) }
{
    let slots = slot_count(page);
    if PAGE_HEAD_BYTES + SLOT_BYTES * slots > PAGE_BYTES {
        return false;
    }
    if !has_zeros(page) {
        return false;
    }
    let mut live = 0;
    for i in 0..slots {
        if !is_good(
            page,
            relations,
            longest,
            PAGE_HEAD_BYTES + SLOT_BYTES * slots,
            i,
        ) {
            return false;
        }
        if !is_free(page, i, offset_of(page, i), size_of(page, i)) {
            return false;
        }
        live += size_of(page, i);
    }
    if PAGE_HEAD_BYTES + SLOT_BYTES * slots + live > PAGE_BYTES {
        return false;
    }
    true
}

// Whether the bytes 2 to 7 are zero.
fn has_zeros(page: &[u8]) -> bool
    requires whole { length page.now ≡ PAGE_BYTES }
    ensures { MatchBool result ((i : ℕ) → 2 ≤ i → i < 8 → get_or page.now i 0 ≡ 0) (((i : ℕ) → 2 ≤ i → i < 8 →
        get_or page.now i 0 ≡ 0) → ⊥) }
{
    for k in 2..PAGE_HEAD_BYTES {
        if page[k] != 0 {
            return false;
        }
    }
    true
}

// Whether slot i is empty, or holds a record of the schema after the table, which ends at `low`.
fn is_good(page: &[u8], relations: u16, longest: usize, low: usize, i: usize) -> bool
    requires whole { length page.now ≡ PAGE_BYTES }
    requires there { 12 + 4 * i ≤ PAGE_BYTES }
    ensures { MatchBool result (IsGood relations longest page.now low i) (IsGood relations longest page.now low i → ⊥) }
{
    if !is_slot(page, low, i) {
        return false;
    }
    if size_of(page, i) == 0 {
        return true;
    }
    fits(page, offset_of(page, i), relations, longest)
}

// Whether slot i is empty, or a record stands where its head says, after `low`.
fn is_slot(page: &[u8], low: usize, i: usize) -> bool
    requires whole { length page.now ≡ PAGE_BYTES }
    requires there { 12 + 4 * i ≤ PAGE_BYTES }
    ensures { MatchBool result (IsSlot page.now low i) (IsSlot page.now low i → ⊥) }
{
    let at = offset_of(page, i);
    let bytes = size_of(page, i);
    if bytes == 0 {
        return at == 0;
    }
    if at < low {
        return false;
    }
    is_row(page, at, bytes)
}

// Whether a record of so many bytes stands at a place.
#[tactic(auto, unfolding(crate::specs::Page::row_size))]
fn is_row(page: &[u8], at: usize, bytes: usize) -> bool
    requires whole { length page.now ≡ PAGE_BYTES }
    requires at_fits { at < 65536 }
    requires fits { bytes < 65536 }
    ensures { MatchBool result (IsRow page.now at bytes) (IsRow page.now at bytes → ⊥) }
{
    if at + bytes > PAGE_BYTES || bytes < ROW_HEAD_BYTES {
        return false;
    }
    bytes == ROW_HEAD_BYTES + usize::from(page[at + 1]) + usize::from(u16_at(page, at + 2))
}

// Whether the record at a place is one of the schema.
fn fits(page: &[u8], at: usize, relations: u16, longest: usize) -> bool
    requires { at + row_size page.now at ≤ length page.now }
    ensures { MatchBool result (Fits relations longest (row_at page.now at)) (Fits relations longest
        (row_at page.now at) → ⊥) }
{
    let row = view_at(page, at);
    row.relation.get() < relations && key_fits(row.key) && row.value.len() <= longest
}

// Whether no record but that of slot i has a byte of a range.
pub(crate) fn is_free(page: &[u8], i: usize, at: usize, bytes: usize) -> bool
    requires whole { length page.now ≡ PAGE_BYTES }
    requires table { 8 + 4 * count page.now ≤ PAGE_BYTES }
    requires at_fits { at < 65536 }
    requires fits { bytes < 65536 }
    ensures { MatchBool result (IsFree page.now i at bytes) (IsFree page.now i at bytes → ⊥) }
{
    for j in 0..slot_count(page) {
        if j != i {
            let from = offset_of(page, j);
            if at < from + size_of(page, j) && from < at + bytes {
                return false;
            }
        }
    }
    true
}

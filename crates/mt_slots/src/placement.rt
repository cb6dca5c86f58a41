// Where in its page a record's bytes go: below all others, into a gap, or after the others are packed.
ghost use Rattle.std.specs.Prelude.{◌≡◌, ◌≢◌, ◌+◌, ◌*◌, ◌^◌, ◌<◌, ◌≤◌, ℕ, length, IfSome, IfNone};
ghost use Rattle.mt_base.specs.declared.limits.TheConstants.{PAGE_BYTES};
ghost use Rattle.mt_base.specs.Ranges.{Wrote};
ghost use Rattle.mt_slots.specs.Page.{IsShaped, IsFree, Opens, count, offset, size, live_bytes};
ghost use Rattle.mt_slots.specs.Parts.{IsPlace, HasPlace, StaysPut, Begins, row_text, PutsRow, TouchesRow};

use crate::compaction::compact;
use crate::contents::Survey;
use crate::heads::{
    PAGE_HEAD_BYTES, SLOT_BYTES, offset_of, set_count, set_head, size_of, slot_count,
};
use crate::page_rules::is_free;
use mt_base::limits::PAGE_BYTES;
use mt_base::ranges::put;
use mt_base::{RelNo, TouchedBytes};

/// Bytes of a record before its key and value.
pub(crate) const ROW_HEAD_BYTES: usize = 4;

/// The bytes that a record of this key and value takes in a page.
pub fn row_bytes(key: &[u8], value: &[u8]) -> usize
    requires { 4 + length key.now + length value.now < 2 ^ 64 }
    ensures { result ≡ 4 + length key.now + length value.now }
{
    ROW_HEAD_BYTES + key.len() + value.len()
}

// Writes a record's bytes.
fn write_row(page: &mut [u8], at: usize, relation: RelNo, key: &[u8], value: &[u8])
    requires range { at + 4 + length key.now + length value.now ≤ length page.old }
    requires relation_fits { relation < 256 }
    requires key_fits { length key.now < 256 }
    requires value_fits { length value.now ≤ PAGE_BYTES }
    ensures { Wrote at (row_text (record { relation = relation; key = key.now; value = value.now })) page.old page.new }
{
    let length = value.len();
    let head = [
        relation.get() as u8,
        key.len() as u8,
        (length / 256) as u8,
        (length % 256) as u8,
    ];
    put(page, at, &head);
    put(page, at + ROW_HEAD_BYTES, key);
    put(page, at + ROW_HEAD_BYTES + key.len(), value);
}

// Puts a record into slot i, at a place that is free. Answers which bytes that touched, the slot's head among them.
pub(crate) fn place_row(
    page: &mut [u8],
    i: usize,
    slots: usize,
    at: usize,
    relation: RelNo,
    key: &[u8],
    value: &[u8],
) -> TouchedBytes
    requires shaped { IsShaped page.old }
    requires place { IsPlace page.old i slots at (4 + length key.now + length value.now) }
    requires relation_fits { relation < 256 }
    requires key_fits { length key.now < 256 }
    ensures puts { PutsRow page.old page.new i slots
        (record { relation = relation; key = key.now; value = value.now }) }
    ensures stays { StaysPut page.old page.new i }
    ensures touched { TouchesRow result i page.old page.new }
{
    let count = row_bytes(key, value);
    write_row(page, at, relation, key, value);
    set_head(page, i, at, count);
    set_count(page, slots);
    TouchedBytes {
        head: PAGE_HEAD_BYTES + SLOT_BYTES * slots,
        start: at,
        count,
    }
}

// How many slots the table has once the slot `empty` is taken.
pub(crate) fn slots_after(page: &[u8], empty: usize) -> usize
    requires size { 8 ≤ length page.now }
    requires reached { empty ≤ count page.now }
    requires few { count page.now < 65536 }
    requires first { empty < count page.now → size page.now empty ≡ 0 }
    ensures { Opens page.now empty result }
{
    let slots = slot_count(page);
    if empty == slots { slots + 1 } else { slots }
}

// The first free place after `low` for so many bytes: there itself, or right after some record.
fn gap(page: &[u8], i: usize, low: usize, bytes: usize) -> Option<usize>
    requires shaped { IsShaped page.now }
    requires table { low ≤ PAGE_BYTES }
    requires fits { bytes ≤ PAGE_BYTES }
    ensures found { IfSome result (λ at. (low ≤ at) × (at + bytes ≤ PAGE_BYTES) × IsFree page.now i at bytes) }
    ensures none { IfNone result ((at : ℕ) → low ≤ at → at + bytes ≤ PAGE_BYTES → IsFree page.now i at bytes → ⊥) }
{
    if low + bytes <= PAGE_BYTES && is_free(page, i, low, bytes) {
        return Some(low);
    }
    for j in 0..slot_count(page) {
        let at = offset_of(page, j) + size_of(page, j);
        if j != i && low <= at && at + bytes <= PAGE_BYTES && is_free(page, i, at, bytes) {
            return Some(at);
        }
    }
    None
}

// Puts a record into slot i, for which there is room: below all records, into a gap, or after a
// compaction if there is none. Answers which bytes that touched, the slot's head among them.
pub(crate) fn settle(
    page: &mut [u8],
    i: usize,
    found: Survey,
    slots: usize,
    relation: RelNo,
    key: &[u8],
    value: &[u8],
) -> TouchedBytes
    requires shaped { IsShaped page.old }
    requires live { found.live ≡ live_bytes page.old (count page.old) }
    requires lowest { (j : ℕ) → j < count page.old → size page.old j ≢ 0 → found.low ≤ offset page.old j }
    requires high { found.low ≤ PAGE_BYTES }
    requires begins { found.low < PAGE_BYTES → Begins page.old (count page.old) found.low }
    requires opens { Opens page.old i slots }
    requires room { 8 + 4 * slots + found.live + (4 + length key.now + length value.now) ≤ PAGE_BYTES }
    requires relation_fits { relation < 256 }
    requires key_fits { length key.now < 256 }
    ensures puts { PutsRow page.old page.new i slots
        (record { relation = relation; key = key.now; value = value.now }) }
    ensures stays { HasPlace page.old i slots (4 + length key.now + length value.now) → StaysPut page.old page.new i }
    ensures touched { TouchesRow result i page.old page.new }
{
    let bytes = row_bytes(key, value);
    let table = PAGE_HEAD_BYTES + SLOT_BYTES * slots;
    if table + bytes <= found.low {
        return place_row(page, i, slots, found.low - bytes, relation, key, value);
    }
    if table <= found.low {
        if let Some(at) = gap(page, i, table, bytes) {
            return place_row(page, i, slots, at, relation, key, value);
        }
    }
    compact(page, i, slots, bytes);
    place_row(
        page,
        i,
        slots,
        PAGE_BYTES - found.live - bytes,
        relation,
        key,
        value,
    );
    TouchedBytes::whole()
}

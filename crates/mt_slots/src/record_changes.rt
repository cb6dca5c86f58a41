// Puts, takes out and replaces records of one page in place. A slot's number stays, since the index names it.
// Plans of mt_file call this on copies of pages. Neither log nor lock is known here.
ghost use Rattle.std.specs.Prelude.{◌≡◌, ◌≢◌, ◌+◌, ◌*◌, ◌<◌, ◌≤◌, ℕ, length, set, Some, None, IsSome, IfSome, IfNone};
ghost use Rattle.mt_base.specs.declared.limits.TheConstants.{PAGE_BYTES};
ghost use Rattle.mt_base.specs.Ranges.{Torn};
ghost use Rattle.mt_base.specs.Touched.{TouchesOnly};
ghost use Rattle.mt_slots.specs.Page.{Row, IsShaped, Sets, Inserted, IsFull, count, offset, size, slot as held, slots, row_at, row_length, live_bytes, room_of, put_at, Opens};
ghost use Rattle.mt_slots.specs.Parts.{HasPlace, KeepsKey, StaysPut};

use crate::contents::{view_at, walk};
use crate::heads::{PAGE_HEAD_BYTES, SLOT_BYTES, offset_of, set_head, size_of, slot_count};
use crate::page_rules::is_free;
use crate::placement::{place_row, row_bytes, settle, slots_after};
use mt_base::limits::PAGE_BYTES;
use mt_base::ranges::{part_of, put};
use mt_base::{RelNo, TouchedBytes};

/// Where a record was put, and which bytes of the page that touched.
#[derive(Clone, Copy, Debug)]
pub struct Insertion {
    /// The record's slot.
    pub slot: u16,
    /// The bytes that may have changed.
    pub touched: TouchedBytes,
}

/// Makes the bytes a page without slots, whatever they were.
pub fn empty(page: &mut [u8])
    requires whole { length page.old ≡ PAGE_BYTES }
    ensures shaped { IsShaped page.new }
    ensures count { count page.new ≡ 0 }
{
    put(page, 0, &[0u8; PAGE_HEAD_BYTES]);
}

/// Puts a record into the lowest empty slot, or into a new one if there is none, and answers which. The other
/// records stay where they are, unless no place of the page takes it; then all are packed at the page's end. `None`
/// if it does not fit, however the records lie, and the page is as before then. In a page a relation has one byte,
/// as has a key's length, and no value is longer than the page. A schema's limits are narrower.
pub fn insert(page: &mut [u8], relation: RelNo, key: &[u8], value: &[u8]) -> Option<Insertion>
    requires shaped { IsShaped page.old }
    requires relation_fits { relation < 256 }
    requires key_fits { length key.now < 256 }
    requires value_fits { length value.now ≤ PAGE_BYTES }
    ensures shaped { IsShaped page.new }
    ensures done { IfSome result (λ to. Inserted page.old page.new to.slot
        (record { relation = relation; key = key.now; value = value.now })) }
    ensures list { IfSome result (λ to. slots page.new ≡ put_at (slots page.old) to.slot (Some
        (record { relation = relation; key = key.now; value = value.now }))) }
    ensures stays { IfSome result (λ to. (n : ℕ) → Opens page.old to.slot n →
        HasPlace page.old to.slot n (4 + length key.now + length value.now) → StaysPut page.old page.new to.slot) }
    ensures touched { IfSome result (λ to. TouchesOnly to.touched page.old page.new) }
    ensures unchanged { IfNone result (page.new ≡ page.old) }
    ensures full { IfNone result (IsFull page.old (4 + length key.now + length value.now)) }
{
    let found = walk(page);
    let slots = slots_after(page, found.empty);
    if PAGE_HEAD_BYTES + SLOT_BYTES * slots + found.live + row_bytes(key, value) > PAGE_BYTES {
        return None;
    }
    let touched = settle(page, found.empty, found, slots, relation, key, value);
    Some(Insertion {
        slot: found.empty as u16,
        touched,
    })
}

/// Empties a slot, and answers which bytes that touched. The table does not get shorter, so that every other slot
/// keeps its number.
pub fn remove(page: &mut [u8], slot: u16) -> TouchedBytes
    requires shaped { IsShaped page.old }
    requires there { slot < count page.old }
    ensures shaped { IsShaped page.new }
    ensures sets { Sets page.old page.new slot None (count page.old) }
    ensures list { slots page.new ≡ set (slots page.old) slot None }
    ensures freed { (r : Row) → held page.old slot ≡ Some r → room_of page.new ≡ room_of page.old + row_length r }
    ensures touched { TouchesOnly result page.old page.new }
{
    let i = usize::from(slot);
    clear(page, i);
    TouchedBytes {
        head: 0,
        start: PAGE_HEAD_BYTES + SLOT_BYTES * i,
        count: SLOT_BYTES,
    }
}

// Empties a slot by its place in the table.
fn clear(page: &mut [u8], i: usize)
    requires shaped { IsShaped page.old }
    requires there { i < count page.old }
    ensures shaped { IsShaped page.new }
    ensures sets { Sets page.old page.new i None (count page.old) }
    ensures empty { size page.new i ≡ 0 }
    ensures freed { live_bytes page.new (count page.new) + size page.old i ≡ live_bytes page.old (count page.old) }
    ensures rest { Torn (8 + 4 * i) 4 page.old page.new }
{
    set_head(page, i, 0, 0);
}

/// Gives the record in a slot another value, in that slot, and answers which bytes that touched. `None` if its new
/// length is more than the page's room and its old length, and the page is as before then. The record's bytes stay in
/// place if they can.
pub fn replace(page: &mut [u8], slot: u16, value: &[u8]) -> Option<TouchedBytes>
    requires shaped { IsShaped page.old }
    requires live { IsSome (held page.old slot) }
    requires value_fits { length value.now ≤ PAGE_BYTES }
    ensures shaped { IsShaped page.new }
    ensures done { IfSome result (λ touched. (r : Row) → held page.old slot ≡ Some r →
        Sets page.old page.new slot (Some (record r { value = value.now })) (count page.old)) }
    ensures list { IfSome result (λ touched. (r : Row) → held page.old slot ≡ Some r →
        slots page.new ≡ set (slots page.old) slot (Some (record r { value = value.now }))) }
    ensures touched { IfSome result (λ touched. TouchesOnly touched page.old page.new) }
    ensures unchanged { IfNone result (page.new ≡ page.old) }
    ensures full { IfNone result ((r : Row) → held page.old slot ≡ Some r →
        room_of page.old + row_length r < row_length (record r { value = value.now })) }
{
    replace_live(page, usize::from(slot), value)
}

// Gives a record another value, by its slot's place in the table.
fn replace_live(page: &mut [u8], i: usize, value: &[u8]) -> Option<TouchedBytes>
    requires shaped { IsShaped page.old }
    requires there { i < count page.old }
    requires live { size page.old i ≢ 0 }
    requires value_fits { length value.now ≤ PAGE_BYTES }
    ensures shaped { IsShaped page.new }
    ensures done { IfSome result (λ touched. Sets page.old page.new i (Some (record (row_at page.old
        (offset page.old i)) { value = value.now })) (count page.old)) }
    ensures touched { IfSome result (λ touched. TouchesOnly touched page.old page.new) }
    ensures unchanged { IfNone result (page.new ≡ page.old) }
    ensures full { IfNone result (PAGE_BYTES + size page.old i < 8 + 4 * count page.old + live_bytes page.old
        (count page.old) + (4 + length (row_at page.old (offset page.old i)).key + length value.now)) }
{
    let mut buffer = [0u8; 256];
    let (relation, length) = keep(page, i, &mut buffer);
    let key = part_of(&buffer, 0, length);
    let bytes = row_bytes(key, value);
    let slots = slot_count(page);
    let live = walk(page).live;
    if PAGE_HEAD_BYTES + SLOT_BYTES * slots + live + bytes > PAGE_BYTES + size_of(page, i) {
        return None;
    }
    let at = offset_of(page, i);
    clear(page, i);
    if at + bytes <= PAGE_BYTES && is_free(page, i, at, bytes) {
        return Some(place_row(page, i, slots, at, relation, key, value));
    }
    Some(settle(page, i, walk(page), slots, relation, key, value))
}

// The relation of the record in slot i and how long its key is; the key goes into the buffer.
#[tactic(auto, unfolding(crate::specs::Page::row_at, crate::specs::Page::row_size))]
fn keep(page: &[u8], i: usize, buffer: &mut [u8]) -> (RelNo, usize)
    requires shaped { IsShaped page.now }
    requires there { i < count page.now }
    requires live { size page.now i ≢ 0 }
    requires whole { length buffer.old ≡ 256 }
    ensures { KeepsKey (row_at page.now (offset page.now i)) buffer.new result.0 result.1 }
{
    let view = view_at(page, offset_of(page, i));
    put(buffer, 0, view.key);
    (view.relation, view.key.len())
}

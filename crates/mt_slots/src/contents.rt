// What a page of records has: the record of a slot, how many slots have one, and its free bytes. Nothing is written.
ghost use Rattle.std.specs.Prelude.{◌≡◌, ◌+◌, ◌*◌, ◌<◌, ◌≤◌, length, Some, None, IfSome, IfNone};
ghost use Rattle.mt_slots.specs.Page.{IsShaped, count, slot as held, row_size, row_at, live_slots, room_of};
ghost use Rattle.mt_slots.specs.Parts.{Surveyed};

use crate::heads::{PAGE_HEAD_BYTES, SLOT_BYTES, offset_of, size_of, slot_count};
use mt_base::RelNo;
use mt_base::limits::PAGE_BYTES;
use mt_base::ranges::{part_of, u16_at};

/// The record in a slot, lent from its page.
#[derive(Clone, Copy, Debug)]
pub struct RecordView<'a> {
    /// The relation that it belongs to.
    pub relation: RelNo,
    /// Its key.
    pub key: &'a [u8],
    /// The value under its key.
    pub value: &'a [u8],
}

// What a walk over the slots finds.
#[derive(Clone, Copy)]
pub(crate) struct Survey {
    /// The bytes of all records.
    pub(crate) live: usize,
    /// The lowest empty slot, or how many slots there are.
    pub(crate) empty: usize,
    /// Where the lowest record begins, or the page's end.
    pub(crate) low: usize,
}

// Walks over the slots once.
pub(crate) fn walk(page: &[u8]) -> Survey
    requires shaped { IsShaped page.now }
    ensures { Surveyed page.now (count page.now) result.live result.empty result.low }
{
    let mut live = 0;
    let mut empty = 0;
    let mut low = PAGE_BYTES;
    for i in 0..slot_count(page) {
        let bytes = size_of(page, i);
        if bytes != 0 {
            live += bytes;
            if empty == i {
                empty = i + 1;
            }
            low = low.min(offset_of(page, i));
        }
    }
    Survey { live, empty, low }
}

/// The bytes of the page that are neither its head nor a slot nor a record: 4,088 at most. A record fits
/// if it takes no more of them than there are, 4 more counted if it needs a new slot.
#[tactic(auto, unfolding(crate::specs::Page::room_of))]
pub fn room(page: &[u8]) -> u16
    requires shaped { IsShaped page.now }
    ensures room { result ≡ room_of page.now }
    ensures small { result ≤ 4088 }
{
    (PAGE_BYTES - PAGE_HEAD_BYTES - SLOT_BYTES * slot_count(page) - walk(page).live) as u16
}

/// How many slots hold a record.
pub fn live(page: &[u8]) -> u16
    requires shaped { IsShaped page.now }
    ensures { result ≡ live_slots page.now (count page.now) }
{
    let mut live = 0;
    for i in 0..slot_count(page) {
        if size_of(page, i) != 0 {
            live += 1;
        }
    }
    live
}

/// The record in a slot; `None` if the slot is empty or past the table.
pub fn get(page: &[u8], slot: u16) -> Option<RecordView<'_>>
    requires shaped { IsShaped page.now }
    ensures found { IfSome result (λ v. held page.now slot ≡ Some
        (record { relation = v.relation; key = v.key.now; value = v.value.now })) }
    ensures none { IfNone result (held page.now slot ≡ None) }
{
    let i = usize::from(slot);
    if i >= slot_count(page) {
        return None;
    }
    if size_of(page, i) == 0 {
        return None;
    }
    Some(view_at(page, offset_of(page, i)))
}

// The record at a place.
#[tactic(auto, unfolding(crate::specs::Page::row_size, crate::specs::Page::row_at))]
pub(crate) fn view_at(page: &[u8], at: usize) -> RecordView<'_>
    requires { at + row_size page.now at ≤ length page.now }
    ensures { row_at page.now at ≡ record {
      relation = result.relation;
      key = result.key.now;
      value =
          result.value.now;
    } }
{
    let key = usize::from(page[at + 1]);
    let value = usize::from(u16_at(page, at + 2));
    RecordView {
        relation: RelNo::new(u16::from(page[at])),
        key: part_of(page, at + 4, key),
        value: part_of(page, at + 4 + key, value),
    }
}

// Looks for an entry of one bucket page by its relation and key, cell by cell. Nothing is written.
ghost use Rattle.std.specs.Prelude.{◌≡◌, ◌+◌, ◌*◌, ◌≤◌, ◌<◌, length, get_or, IfSome, IfNone};
ghost use Rattle.mt_bucket.specs.declared.heads.TheConstants.{CELL_BYTES, HEAD_BYTES};
ghost use Rattle.mt_base.specs.declared.limits.TheConstants.{MAX_KEY_BYTES, PAGE_BYTES};
ghost use Rattle.mt_bucket.specs.Entries.{is_at, look, name_under};
ghost use Rattle.mt_bucket.specs.Page.{cell, entry_of, count_of, entries, IsFirst, HasNone};

use crate::heads::{CELL_BYTES, HEAD_BYTES, count};
use mt_base::ranges::{part_of, u16_at};
use mt_base::{PageNo, RecordName, RelNo};

/// The name of the record under a relation and a key; `None` if the page has no entry of them.
pub fn find(page: &[u8], relation: RelNo, key: &[u8]) -> Option<RecordName>
    requires whole { length page.now ≡ PAGE_BYTES }
    requires short { length key.now ≤ MAX_KEY_BYTES }
    ensures { result ≡ look relation key.now (entries page.now) }
{
    match place_of(page, relation, key) {
        Some(i) => Some(name_at(page, HEAD_BYTES + CELL_BYTES * i)),
        None => None,
    }
}

/// An entry, lent from its page.
#[derive(Clone, Copy, Debug)]
pub struct EntryView<'a> {
    /// The relation that it belongs to.
    pub relation: RelNo,
    /// Its key.
    pub key: &'a [u8],
    /// The name of the record under its relation and key.
    pub name: RecordName,
}

/// The entry at a place, from 0.
pub fn entry(page: &[u8], i: usize) -> EntryView<'_>
    requires whole { length page.now ≡ PAGE_BYTES }
    requires there { i < count_of page.now }
    requires fits { get_or page.now (HEAD_BYTES + CELL_BYTES * i + 1) 0 ≤ MAX_KEY_BYTES }
    ensures is { entry_of (cell page.now
        (8 + 70 * i)) ≡ record { relation = result.relation; key = result.key.now; name = result.name } }
    ensures short { length result.key.now ≤ MAX_KEY_BYTES }
{
    let at = HEAD_BYTES + CELL_BYTES * i;
    EntryView {
        relation: RelNo::new(u16::from(page[at])),
        key: part_of(page, at + 2, usize::from(page[at + 1])),
        name: name_at(page, at),
    }
}

/// The place of the first entry of a relation and a key, from 0; `None` if the page has none of them.
pub fn place_of(page: &[u8], relation: RelNo, key: &[u8]) -> Option<usize>
    requires whole { length page.now ≡ PAGE_BYTES }
    requires short { length key.now ≤ MAX_KEY_BYTES }
    ensures found { IfSome result (λ i. IsFirst relation key.now page.now i) }
    ensures none { IfNone result (HasNone relation key.now page.now) }
{
    for i in 0..count(page) {
        if holds(page, HEAD_BYTES + CELL_BYTES * i, relation, key) {
            return Some(i);
        }
    }
    None
}

/// The name in the entry at a place, from 0, if the entry is of this relation.
pub fn name_in(page: &[u8], i: usize, relation: RelNo) -> Option<RecordName>
    requires whole { length page.now ≡ PAGE_BYTES }
    requires there { i < count_of page.now }
    ensures { result ≡ name_under relation (entry_of (cell page.now (HEAD_BYTES + CELL_BYTES * i))) }
{
    let at = HEAD_BYTES + CELL_BYTES * i;
    if u16::from(page[at]) == relation.get() {
        Some(name_at(page, at))
    } else {
        None
    }
}

// Whether the cell at a place is of a relation and a key.
fn holds(page: &[u8], at: usize, relation: RelNo, key: &[u8]) -> bool
    requires whole { length page.now ≡ PAGE_BYTES }
    requires within { at + CELL_BYTES ≤ PAGE_BYTES }
    requires short { length key.now ≤ MAX_KEY_BYTES }
    ensures { result ≡ is_at relation key.now (entry_of (cell page.now at)) }
{
    if u16::from(page[at]) != relation.get() {
        return false;
    }
    if usize::from(page[at + 1]) != key.len() {
        return false;
    }
    // keys often begin alike, so the last byte is looked at first
    if !key.is_empty() && page[at + 1 + key.len()] != key[key.len() - 1] {
        return false;
    }
    part_of(page, at + 2, key.len()) == key
}

// The name in the cell at a place.
fn name_at(page: &[u8], at: usize) -> RecordName
    requires whole { length page.now ≡ PAGE_BYTES }
    requires within { at + CELL_BYTES ≤ PAGE_BYTES }
    ensures { result ≡ (entry_of (cell page.now at)).name }
{
    RecordName {
        page: PageNo::new(u16_at(page, at + 66)),
        slot: u16_at(page, at + 68),
    }
}

// Puts, renames and takes out entries of one bucket page in place, and parts a page in two by a bit of the hash.
// Plans of mt_index call this on copies of pages. No other page is known here, and neither log nor lock.
ghost use Rattle.std.specs.Prelude.{ℕ, ◌≡◌, ◌+◌, ◌-◌, ◌*◌, ◌≤◌, ◌<◌, ◌++◌, ◌∷◌, [], length, true, false, not, Some, None, IfSome, IfNone, filter};
ghost use Rattle.mt_bucket.specs.declared.heads.TheConstants.{CELL_BYTES, HEAD_BYTES, MAX_ENTRIES};
ghost use Rattle.mt_base.specs.declared.limits.TheConstants.{MAX_KEY_BYTES, PAGE_BYTES};
ghost use Rattle.mt_base.specs.Ranges.{u16_at as number_at, Torn};
ghost use Rattle.mt_base.specs.Touched.{TouchesOnly};
ghost use Rattle.mt_bucket.specs.Entries.{look, renamed, without};
ghost use Rattle.mt_bucket.specs.Page.{entry_of, entries, count_of, KeepsHead, goes_over, IsCell, IsBucket, KeepsBucket, TakesCell};
ghost use Rattle.mt_bucket.specs.Steps.{Pushed, Closed, Sorted};

use crate::heads::{CELL_BYTES, HEAD_BYTES, MAX_ENTRIES, count, set_count};
use crate::key_hash::{has_bit, hash};
use crate::lookup::place_of;
use mt_base::limits::PAGE_BYTES;
use mt_base::ranges::{part_of, put, put_u16};
use mt_base::{RecordName, RelNo, TouchedBytes};

/// Puts an entry after the others and answers which bytes that touched. `None` if the page has 58 already, and the
/// page is as before then. In a page a relation has one byte, and a key at most 64.
pub fn push(page: &mut [u8], relation: RelNo, key: &[u8], name: RecordName) -> Option<TouchedBytes>
    requires whole { length page.old ≡ PAGE_BYTES }
    requires relation_fits { relation < 256 }
    requires short { length key.now ≤ MAX_KEY_BYTES }
    ensures head { KeepsHead page.old page.new }
    ensures pushed { IfSome result (λ touched.
        entries page.new ≡ entries page.old ++ record { relation = relation; key = key.now; name = name } ∷ []) }
    ensures touched { IfSome result (λ touched. TouchesOnly touched page.old page.new) }
    ensures full { IfNone result (count_of page.old ≡ MAX_ENTRIES) }
    ensures kept { (relations pages : ℕ) → relation < relations → 1 ≤ length key.now → name.page < pages →
        IsBucket relations pages page.old → IsBucket relations pages page.new }
    ensures unchanged { IfNone result (page.new ≡ page.old) }
{
    if count(page) == MAX_ENTRIES {
        return None;
    }
    Some(push_cell(page, &cell_of(relation, key, name)))
}

/// Gives the entry of a relation and a key another record name, and answers which bytes that touched. `None` if there
/// is no such entry, and the page is as before then.
pub fn set(page: &mut [u8], relation: RelNo, key: &[u8], name: RecordName) -> Option<TouchedBytes>
    requires whole { length page.old ≡ PAGE_BYTES }
    requires short { length key.now ≤ MAX_KEY_BYTES }
    ensures head { KeepsHead page.old page.new }
    ensures set { IfSome result (λ touched. entries page.new ≡ renamed relation key.now name (entries page.old)) }
    ensures found { IfSome result (λ touched. look relation key.now (entries page.new) ≡ Some name) }
    ensures touched { IfSome result (λ touched. TouchesOnly touched page.old page.new) }
    ensures kept { (relations pages : ℕ) → name.page < pages → IsBucket relations pages page.old →
        IsBucket relations pages page.new }
    ensures none { IfNone result (look relation key.now (entries page.old) ≡ None) }
    ensures unchanged { IfNone result (page.new ≡ page.old) }
{
    let Some(i) = place_of(page, relation, key) else {
        return None;
    };
    let start = HEAD_BYTES + CELL_BYTES * i + 66;
    write_name(page, start, name);
    Some(TouchedBytes {
        head: 0,
        start,
        count: 4,
    })
}

/// Takes the entry of a relation and a key out, and answers which bytes that touched; the last entry takes its place.
/// `None` if there is no such entry, and the page is as before then.
pub fn remove(page: &mut [u8], relation: RelNo, key: &[u8]) -> Option<TouchedBytes>
    requires whole { length page.old ≡ PAGE_BYTES }
    requires short { length key.now ≤ MAX_KEY_BYTES }
    ensures head { KeepsHead page.old page.new }
    ensures removed { IfSome result (λ touched. entries page.new ≡ without relation key.now (entries page.old)) }
    ensures touched { IfSome result (λ touched. TouchesOnly touched page.old page.new) }
    ensures kept { KeepsBucket page.old page.new }
    ensures none { IfNone result (look relation key.now (entries page.old) ≡ None) }
    ensures unchanged { IfNone result (page.new ≡ page.old) }
{
    let Some(i) = place_of(page, relation, key) else {
        return None;
    };
    Some(close_gap(page, i))
}

/// Moves the entries whose hash has a bit, in their order, after those of another page, which has room for them. The
/// others stay, in their order.
pub fn partition(page: &mut [u8], bit: u8, to: &mut [u8])
    requires whole { length page.old ≡ PAGE_BYTES }
    requires to_whole { length to.old ≡ PAGE_BYTES }
    requires bit { bit < 64 }
    requires room { count_of to.old + count_of page.old ≤ MAX_ENTRIES }
    ensures head { KeepsHead page.old page.new }
    ensures to_head { KeepsHead to.old to.new }
    ensures stay { entries page.new ≡ filter (λ e. not (goes_over bit e)) (entries page.old) }
    ensures go { entries to.new ≡ entries to.old ++ filter (goes_over bit) (entries page.old) }
    ensures kept { KeepsBucket page.old page.new }
    ensures to_kept { (relations pages : ℕ) → IsBucket relations pages page.old → IsBucket relations pages to.old →
        IsBucket relations pages to.new }
{
    let mut copy = [0u8; PAGE_BYTES];
    copy.copy_from_slice(page);
    set_count(page, 0);
    for i in 0..count(&copy) {
        let bytes = part_of(&copy, HEAD_BYTES + CELL_BYTES * i, CELL_BYTES);
        sort_cell(page, bit, to, bytes);
    }
}

// Puts a cell after the others of the page that its hash's bit names.
fn sort_cell(page: &mut [u8], bit: u8, to: &mut [u8], bytes: &[u8])
    requires whole { length page.old ≡ PAGE_BYTES }
    requires to_whole { length to.old ≡ PAGE_BYTES }
    requires cell { length bytes.now ≡ CELL_BYTES }
    requires bit_fits { bit < 64 }
    requires room { count_of page.old < MAX_ENTRIES }
    requires to_room { count_of to.old < MAX_ENTRIES }
    ensures sorted { Sorted (goes_over bit (entry_of bytes.now)) (entry_of bytes.now) page.old page.new to.old to.new }
    ensures kept { TakesCell bytes.now page.old page.new }
    ensures to_kept { TakesCell bytes.now to.old to.new }
{
    let length = usize::from(bytes[1]).min(bytes.len() - 2);
    if has_bit(hash(part_of(bytes, 2, length)), bit) {
        push_cell(to, bytes);
    } else {
        push_cell(page, bytes);
    }
}

// Puts a cell after the others. Answers which bytes that touched.
fn push_cell(page: &mut [u8], bytes: &[u8]) -> TouchedBytes
    requires whole { length page.old ≡ PAGE_BYTES }
    requires cell { length bytes.now ≡ CELL_BYTES }
    requires room { count_of page.old < MAX_ENTRIES }
    ensures pushed { Pushed (entry_of bytes.now) page.old page.new }
    ensures kept { TakesCell bytes.now page.old page.new }
    ensures touched { TouchesOnly result page.old page.new }
{
    let count = count(page);
    let start = HEAD_BYTES + CELL_BYTES * count;
    put(page, start, bytes);
    set_count(page, count + 1);
    TouchedBytes {
        head: HEAD_BYTES,
        start,
        count: CELL_BYTES,
    }
}

// Moves the last cell into the place of one. Answers which bytes that touched.
fn close_gap(page: &mut [u8], i: usize) -> TouchedBytes
    requires whole { length page.old ≡ PAGE_BYTES }
    requires there { i < count_of page.old }
    ensures closed { Closed i page.old page.new }
    ensures kept { KeepsBucket page.old page.new }
    ensures touched { TouchesOnly result page.old page.new }
{
    let count = count(page);
    let mut last = [0u8; CELL_BYTES];
    last.copy_from_slice(part_of(page, HEAD_BYTES + CELL_BYTES * (count - 1), CELL_BYTES));
    let start = HEAD_BYTES + CELL_BYTES * i;
    put(page, start, &last);
    set_count(page, count - 1);
    TouchedBytes {
        head: HEAD_BYTES,
        start,
        count: CELL_BYTES,
    }
}

// The bytes of an entry.
fn cell_of(relation: RelNo, key: &[u8], name: RecordName) -> [u8; CELL_BYTES]
    requires relation_fits { relation < 256 }
    requires short { length key.now ≤ MAX_KEY_BYTES }
    ensures entry { entry_of result ≡ record { relation = relation; key = key.now; name = name } }
    ensures cell { (relations pages : ℕ) → relation < relations → 1 ≤ length key.now → name.page < pages →
        IsCell relations pages result 0 }
{
    let mut bytes = [0u8; CELL_BYTES];
    put(&mut bytes, 0, &[relation.get() as u8, key.len() as u8]);
    put(&mut bytes, 2, key);
    write_name(&mut bytes, 66, name);
    bytes
}

// Writes a record's name.
fn write_name(bytes: &mut [u8], at: usize, name: RecordName)
    requires { at + 4 ≤ length bytes.old }
    ensures page { number_at bytes.new at ≡ name.page }
    ensures slot { number_at bytes.new (at + 2) ≡ name.slot }
    ensures rest { Torn at 4 bytes.old bytes.new }
{
    put_u16(bytes, at, name.page.get());
    put_u16(bytes, at + 2, name.slot);
}

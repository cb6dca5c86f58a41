// A change of a page as ranges of bytes, as short as a log wants them.
ghost use Rattle.std.specs.Prelude.{◌≡◌, ◌≢◌, ◌+◌, ◌*◌, ◌<◌, ◌≤◌, length, get_or, IfOk, All, IsTrue};
ghost use Rattle.std.specs.Int.{w64, to_le_bytes};
ghost use Rattle.mt_base.specs.declared.limits.TheConstants.{PAGE_BYTES};
ghost use Rattle.mt_base.specs.Ranges.{part, Same};
ghost use Rattle.mt_base.specs.Touched.{TouchesOnly};
ghost use Rattle.mt_base.specs.Edits.{patched, log_size, IsShortest, AreEqual, FirstDiffers, LastDiffers, DiffersWithin, EndsRun, Edited};

use crate::edit_bytes::EditBytes;
use crate::ranges::part_of;
use crate::touched::TouchedBytes;
use std::alloc::{AllocError, Global};

// The bytes that are compared at once.
const BLOCK_BYTES: usize = 32;

// The bytes of one number.
const WORD_BYTES: usize = 8;

// Equal bytes that end a range: a log record's fields and head take 29 bytes, and each byte within a
// range is logged twice.
const QUIET_BYTES: usize = 15;

/// New bytes of a page from a place on.
#[derive(Debug, Drop)]
pub struct Edit {
    /// The place of the first one.
    pub start: u16,
    /// The bytes.
    pub bytes: EditBytes,
}

/// The edits that make the one page to the other. Each begins and ends with a byte that changes, and a range ends
/// where fifteen bytes in a row stay. So together they take no more of a log than one edit of the whole page would.
/// No byte differs: no edit. The only error is want of memory.
///
/// Of the bytes that were not touched, only those right after an edit are compared.
pub fn edits_of(
    alloc: Global,
    old: &[u8],
    new: &[u8],
    touched: TouchedBytes,
) -> Result<Vec<Edit>, AllocError>
    requires touched { TouchesOnly touched old.now new.now }
    requires fits { length old.now ≤ PAGE_BYTES }
    ensures made { IfOk result (λ edits. patched edits.items old.now ≡ new.now) }
    ensures short { IfOk result (λ edits. All (IsShortest old.now new.now) edits.items) }
    ensures size { IfOk result (λ edits. log_size edits.items ≤ 29 + 2 * length old.now) }
{
    let mut edits = Vec::new(alloc);
    let mut last = 0;
    while last < old.len() {
        last = step(alloc, &mut edits, old, new, touched, last)?;
    }
    Ok(edits)
}

// The next edit, after the last one's end, if a byte differs there. Answers where it ends, or the length.
fn step(
    alloc: Global,
    edits: &mut Vec<Edit>,
    old: &[u8],
    new: &[u8],
    touched: TouchedBytes,
    last: usize,
) -> Result<usize, AllocError>
    requires touched { TouchesOnly touched old.now new.now }
    requires fits { length old.now ≤ PAGE_BYTES }
    requires so_far { Edited old.now new.now edits.old.items last }
    requires there { last < length old.now }
    ensures edited { IfOk result (λ end. Edited old.now new.now edits.new.items end) }
    ensures further { IfOk result (λ end. last < end) }
{
    let start = first_difference(old, new, touched, last);
    if start == old.len() {
        return Ok(start);
    }
    let end = run_end(old, new, start);
    let bytes = EditBytes::copy_of(alloc, part_of(new, start, end - start))?;
    edits.push(Edit {
        start: start as u16,
        bytes,
    })?;
    Ok(end)
}

// The first place from one on at which a byte differs, or the length. Only bytes that may have been touched are
// compared.
fn first_difference(old: &[u8], new: &[u8], touched: TouchedBytes, from: usize) -> usize
    requires touched { TouchesOnly touched old.now new.now }
    requires fits { length old.now ≤ PAGE_BYTES }
    requires there { from ≤ length old.now }
    ensures { FirstDiffers old.now new.now from result }
{
    let head = difference_within(old, new, from, touched.head);
    if head < touched.head {
        return head;
    }
    let end = touched.start + touched.count;
    let at = difference_within(old, new, from.max(touched.start), end);
    if at < end { at } else { old.len() }
}

// The first place from one on at which a byte differs, looked for up to an end.
fn difference_within(old: &[u8], new: &[u8], from: usize, end: usize) -> usize
    requires same { length old.now ≡ length new.now }
    requires fits { length old.now ≤ PAGE_BYTES }
    requires there { from ≤ length old.now }
    requires within { end ≤ length old.now }
    ensures { DiffersWithin old.now new.now from end result }
{
    let mut at = equal_words(old, new, from, end);
    while at < end && old[at] == new[at] {
        at += 1;
    }
    at
}

// Where the words from a place on that are equal end, after blocks that are, looked for up to an end.
fn equal_words(old: &[u8], new: &[u8], from: usize, end: usize) -> usize
    requires same { length old.now ≡ length new.now }
    requires fits { length old.now ≤ PAGE_BYTES }
    requires there { from ≤ length old.now }
    requires within { end ≤ length old.now }
    ensures { AreEqual old.now new.now from result }
{
    let mut at = equal_blocks(old, new, from, end);
    while at + WORD_BYTES <= end && same_word(old, new, at) {
        at += WORD_BYTES;
    }
    at
}

// Where the blocks from a place on that are equal end, looked for up to an end.
fn equal_blocks(old: &[u8], new: &[u8], from: usize, end: usize) -> usize
    requires same { length old.now ≡ length new.now }
    requires fits { length old.now ≤ PAGE_BYTES }
    requires there { from ≤ length old.now }
    requires within { end ≤ length old.now }
    ensures { AreEqual old.now new.now from result }
{
    let mut at = from;
    while at + BLOCK_BYTES <= end && same_block(old, new, at) {
        at += BLOCK_BYTES;
    }
    at
}

// Whether the blocks at a place are equal, looked at by words.
fn same_block(old: &[u8], new: &[u8], at: usize) -> bool
    requires old_there { at + BLOCK_BYTES ≤ length old.now }
    requires new_there { at + BLOCK_BYTES ≤ length new.now }
    ensures { IsTrue result → Same at BLOCK_BYTES old.now new.now }
{
    if !same_word(old, new, at) {
        return false;
    }
    if !same_word(old, new, at + 8) {
        return false;
    }
    if !same_word(old, new, at + 16) {
        return false;
    }
    same_word(old, new, at + 24)
}

// Whether the words at a place are equal.
fn same_word(old: &[u8], new: &[u8], at: usize) -> bool
    requires old_there { at + 8 ≤ length old.now }
    requires new_there { at + 8 ≤ length new.now }
    ensures { IsTrue result → Same at 8 old.now new.now }
{
    word_at(old, at) == word_at(new, at)
}

// The eight bytes at a place as one number.
fn word_at(page: &[u8], at: usize) -> u64
    requires { at + 8 ≤ length page.now }
    ensures { to_le_bytes w64 result ≡ part page.now at 8 }
{
    u64::from_le_bytes([
        page[at],
        page[at + 1],
        page[at + 2],
        page[at + 3],
        page[at + 4],
        page[at + 5],
        page[at + 6],
        page[at + 7],
    ])
}

// Where the range that begins at a byte that differs ends.
fn run_end(old: &[u8], new: &[u8], i: usize) -> usize
    requires same { length old.now ≡ length new.now }
    requires there { i < length old.now }
    requires differs { get_or old.now i 0 ≢ get_or new.now i 0 }
    requires fits { length old.now ≤ PAGE_BYTES }
    ensures { EndsRun old.now new.now i result }
{
    let mut end = i + 1;
    let mut next = last_difference(old, new, end);
    while end < next {
        end = next;
        next = last_difference(old, new, end);
    }
    end
}

// Where the last byte that differs ends, of those that would go on with a range that ends at a place; or that place.
// From the last one on, since a record's bytes mostly all differ.
fn last_difference(old: &[u8], new: &[u8], from: usize) -> usize
    requires same { length old.now ≡ length new.now }
    requires there { from ≤ length old.now }
    requires fits { length old.now ≤ PAGE_BYTES }
    ensures { LastDiffers old.now new.now from result }
{
    if from + QUIET_BYTES <= old.len() && is_quiet(old, new, from) {
        return from;
    }
    let mut at = old.len().min(from + QUIET_BYTES);
    while from < at && old[at - 1] == new[at - 1] {
        at -= 1;
    }
    at
}

// Whether so many bytes stay as end a range, looked at as two words that have one byte in common.
fn is_quiet(old: &[u8], new: &[u8], at: usize) -> bool
    requires old_there { at + QUIET_BYTES ≤ length old.now }
    requires new_there { at + QUIET_BYTES ≤ length new.now }
    ensures { IsTrue result → Same at QUIET_BYTES old.now new.now }
{
    if !same_word(old, new, at) {
        return false;
    }
    same_word(old, new, at + 7)
}

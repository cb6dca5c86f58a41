// The page's own head and those of its slots: where each record begins, and how long it is.
ghost use Rattle.std.specs.Prelude.{◌≡◌, ◌+◌, ◌*◌, ◌<◌, ◌≤◌, length};
ghost use Rattle.mt_base.specs.Ranges.{Torn};
ghost use Rattle.mt_slots.specs.Page.{count, offset, size};

use mt_base::ranges::{put_u16, u16_at};

// Bytes of the page's head, and of a slot's.
pub(crate) const PAGE_HEAD_BYTES: usize = 8;

pub(crate) const SLOT_BYTES: usize = 4;

// How many slots the table has.
#[tactic(auto, unfolding(crate::specs::Page::count))]
pub(crate) fn slot_count(page: &[u8]) -> usize
    requires { 8 ≤ length page.now }
    ensures is { result ≡ count page.now }
    ensures fits { result < 65536 }
{
    usize::from(u16_at(page, 0))
}

// Where the record of slot i begins; 0 if it is empty.
#[tactic(auto, unfolding(crate::specs::Page::offset))]
pub(crate) fn offset_of(page: &[u8], i: usize) -> usize
    requires { 12 + 4 * i ≤ length page.now }
    ensures is { result ≡ offset page.now i }
    ensures fits { result < 65536 }
{
    usize::from(u16_at(page, PAGE_HEAD_BYTES + SLOT_BYTES * i))
}

// How many bytes the record of slot i has; 0 if it is empty.
#[tactic(auto, unfolding(crate::specs::Page::size))]
pub(crate) fn size_of(page: &[u8], i: usize) -> usize
    requires { 12 + 4 * i ≤ length page.now }
    ensures is { result ≡ size page.now i }
    ensures fits { result < 65536 }
{
    usize::from(u16_at(page, PAGE_HEAD_BYTES + SLOT_BYTES * i + 2))
}

// Sets the head of slot i.
#[tactic(auto, unfolding(crate::specs::Page::offset, crate::specs::Page::size))]
pub(crate) fn set_head(page: &mut [u8], i: usize, at: usize, bytes: usize)
    requires range { 12 + 4 * i ≤ length page.old }
    requires at_fits { at < 65536 }
    requires fits { bytes < 65536 }
    ensures points { offset page.new i ≡ at }
    ensures sized { size page.new i ≡ bytes }
    ensures rest { Torn (8 + 4 * i) 4 page.old page.new }
{
    put_u16(page, PAGE_HEAD_BYTES + SLOT_BYTES * i, at as u16);
    put_u16(page, PAGE_HEAD_BYTES + SLOT_BYTES * i + 2, bytes as u16);
}

// Sets how many slots the table has.
#[tactic(auto, unfolding(crate::specs::Page::count))]
pub(crate) fn set_count(page: &mut [u8], slots: usize)
    requires range { 2 ≤ length page.old }
    requires fits { slots < 65536 }
    ensures counted { count page.new ≡ slots }
    ensures rest { Torn 0 2 page.old page.new }
{
    put_u16(page, 0, slots as u16);
}

// What pages of records take, by their bytes: of all pages at a beginning, and of one page once changes are made.
// mt_op notes it in `Rooms`.
ghost use Rattle.std.specs.Prelude.{◌≡◌, ◌≢◌, ◌<◌, ◌≤◌, length, get_or, IfOk};
ghost use Rattle.mt_base.specs.declared.limits.TheConstants.{MAX_PAGES, PAGE_BYTES};
ghost use Rattle.mt_slots.specs.Page.{IsShaped};
ghost use Rattle.mt_space.specs.Changes.{PageBytes, after, AreShort};
ghost use Rattle.mt_space.specs.PageLists.{bytes_of};
ghost use Rattle.mt_file.specs.File.{IsFile};
ghost use Rattle.mt_file.specs.Rooms.{fits_of, AreRooms};

use crate::rooms::{Rooms, fits};
use mt_base::PageNo;
use mt_space::pages::{MAP, RECORDS};
use mt_space::{Changes, patch};
use std::alloc::{AllocError, Global};

/// What each of these pages takes. The only error is want of memory.
pub fn rooms_of(alloc: Global, pages: &[[u8; 4096]]) -> Result<Rooms, AllocError>
    requires file { ∥ IsFile (bytes_of pages.now) ∥₁ }
    requires few { length pages.now ≤ MAX_PAGES }
    ensures size { IfOk result (λ rooms. length rooms ≡ length pages.now) }
    ensures noted { IfOk result (λ rooms. AreRooms rooms (bytes_of pages.now)) }
{
    let map = &pages[usize::from(MAP)];
    let mut rooms = Rooms::of(alloc, pages.len() as u16)?;
    for number in 0..pages.len() {
        if map[number] == RECORDS {
            rooms.noted(PageNo::new(number as u16), fits(&pages[number]));
        }
    }
    Ok(rooms)
}

/// What a page takes once these changes are made: nothing if it does not hold records, by this map.
pub fn room_after(map: &[u8; 4096], changes: &Changes, page: PageNo, before: &[u8; 4096]) -> u16
    requires inside { page < PAGE_BYTES }
    requires whole { length before.now ≡ PAGE_BYTES }
    requires pages { ∥ ((pages : PageBytes) × (pages page ≡ before.now) × AreShort changes.now.list.items pages
        × (get_or map.now page 0 ≡ 3 → IsShaped (after changes.now.list.items pages page))) ∥₁ }
    ensures records { (pages : PageBytes) → pages page ≡ before.now → AreShort changes.now.list.items pages
        → get_or map.now page 0 ≡ 3 → result ≡ fits_of (after changes.now.list.items pages page) }
    ensures others { get_or map.now page 0 ≢ 3 → result ≡ 0 }
{
    if map[usize::from(page.get())] != RECORDS {
        return 0;
    }
    let mut bytes = *before;
    for change in &changes.list {
        if change.page == page {
            patch(&mut bytes, change.edits.as_slice());
        }
    }
    fits(&bytes)
}

// The space map by its bytes: its smallest free page, and the byte of a page. Plans ask for them; claims are counted
// in `space`.
ghost use Rattle.std.specs.Prelude.{◌≡◌, ◌≢◌, ◌<◌, ℕ, List, length, get_or, false, IfSome, IfNone};
ghost use Rattle.mt_base.specs.declared.limits.TheConstants.{PAGE_BYTES};
ghost use Rattle.mt_base.specs.Touched.{TouchesOnly};
ghost use Rattle.mt_space.specs.Rooms.{mapped, IsFirstFree};

use crate::pages::FREE;
use mt_base::{PageNo, TouchedBytes};

// Bytes of the map, one for each page.
const MAP_BYTES: u16 = 4096;

/// The free page with the smallest number, of so many pages of a map; `None` if none is free.
pub fn first_free(map: &[u8], pages: u16) -> Option<PageNo>
    requires map { length map.now ≡ PAGE_BYTES }
    ensures first { IfSome result (λ p. IsFirstFree (mapped map.now pages) p) }
    ensures none { IfNone result ((p : ℕ) → get_or (mapped map.now pages) p false ≡ false) }
{
    for page in 0..pages.min(MAP_BYTES) {
        if map[usize::from(page)] == FREE {
            return Some(PageNo::new(page));
        }
    }
    None
}

/// The byte of a map that says the kind of a page: what a change of that kind touches.
pub fn kind_byte(page: PageNo) -> TouchedBytes
    requires { page < PAGE_BYTES }
    ensures { (old new : List ℕ) → length old ≡ PAGE_BYTES → length new ≡ PAGE_BYTES → ((p : ℕ) → p ≢ page →
        get_or new p 0 ≡ get_or old p 0) → TouchesOnly result old new }
{
    TouchedBytes {
        head: 0,
        start: usize::from(page.get()),
        count: 1,
    }
}

// Copies of pages with a table of their places, by which a page is found at once.
ghost use Rattle.std.specs.Prelude.{◌≡◌};
ghost use Rattle.mt_overlay.specs.Places.{ArePlaced};

use crate::overlay::{PageCopy, copy_of};
use crate::page_copies::PageCopies;
use mt_base::PageNo;
use mt_base::limits::MAX_PAGES;
use mt_space::Pages;

// What the table has for a page without a copy.
const NOWHERE: u16 = u16::MAX;

/// Copies of some of a device's pages, and of each page the place of its copy. The table is made in a walk over all
/// copies, so it is for who looks at many pages.
#[derive(Drop)]
pub struct PlacedCopies<'a> {
    copies: &'a PageCopies,
    places: [u16; MAX_PAGES as usize],
}

impl<'a> PlacedCopies<'a> {
    /// These copies, with the table of their places.
    pub fn new(copies: &'a PageCopies) -> PlacedCopies<'a>
        ensures copies { result.copies.now ≡ copies.now }
        ensures placed { ArePlaced copies.now.list.items result.places }
    {
        PlacedCopies {
            copies,
            places: places_of(copies.list.as_slice()),
        }
    }
}

impl<'a> Pages for PlacedCopies<'a> {
    ghost use Rattle.std.specs.Prelude.{◌≡◌, ℕ, List, length, Some};
    ghost use Rattle.mt_base.specs.declared.limits.TheConstants.{PAGE_BYTES};
    ghost use Rattle.mt_overlay.specs.Overlays.{copied};
    ghost use Rattle.mt_overlay.specs.Places.{ArePlaced};

    ghost is_sound = { λ placed. ((p : ℕ) (bytes : List ℕ) → copied placed.copies.now.list.items p ≡ Some bytes
        → length bytes ≡ PAGE_BYTES) × ArePlaced placed.copies.now.list.items placed.places };

    ghost total = { λ placed. placed.copies.now.total };

    ghost at_hand = { λ placed. copied placed.copies.now.list.items };

    ghost whole = { λ placed sound. sound.0 };

    fn count(&self) -> u16 {
        self.copies.count()
    }

    fn page(&self, page: PageNo) -> Option<&[u8; 4096]> {
        let at = usize::from(page.get());
        if at < self.places.len() && self.places[at] != NOWHERE {
            return Some(&self.copies.list[usize::from(self.places[at])].bytes);
        }
        copy_of(self.copies.list.as_slice(), page)
    }
}

// The place of the first copy of each page.
fn places_of(copies: &[PageCopy]) -> [u16; MAX_PAGES as usize]
    ensures { ArePlaced copies.now result }
{
    let mut places = [NOWHERE; MAX_PAGES as usize];
    for i in 0..copies.len().min(usize::from(NOWHERE)) {
        let page = usize::from(copies[i].page.get());
        if page < places.len() && places[page] == NOWHERE {
            places[page] = i as u16;
        }
    }
    places
}

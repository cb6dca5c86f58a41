// Copies of pages in the order in which they were taken. No other page is at hand.
use crate::overlay::{PageCopy, copy_of};
use mt_base::PageNo;
use mt_space::Pages;

/// Copies of some of a device's pages, of which there are so many in total. A copy is found by a walk over all: it is
/// for the few pages of one operation. If a page has two copies, the first counts.
#[derive(Drop)]
pub struct PageCopies {
    pub total: u16,
    pub list: Vec<PageCopy>,
}

impl Pages for PageCopies {
    ghost use Rattle.std.specs.Prelude.{◌≡◌, ℕ, List, length, Some};
    ghost use Rattle.mt_base.specs.declared.limits.TheConstants.{PAGE_BYTES};
    ghost use Rattle.mt_overlay.specs.Overlays.{copied};

    ghost is_sound = { λ copies. (p : ℕ) (bytes : List ℕ) → copied copies.list.items p ≡ Some bytes
        → length bytes ≡ PAGE_BYTES };

    ghost total = { λ copies. copies.total };

    ghost at_hand = { λ copies. copied copies.list.items };

    ghost whole = { λ copies sound. sound };

    fn count(&self) -> u16 {
        self.total
    }

    fn page(&self, page: PageNo) -> Option<&[u8; 4096]> {
        copy_of(self.list.as_slice(), page)
    }
}

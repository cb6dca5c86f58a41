// Copies of the pages that one operation has looked at: its plan reads these, and no other page is at hand.
// Their memory goes to a later operation.
ghost use Rattle.std.specs.Prelude.{◌≡◌, ◌<◌, ◌++◌, ◌∷◌, [], OnOk};
ghost use Rattle.std.specs.Vec.{vec_len, vec_capacity};
ghost use Rattle.mt_base.specs.declared.limits.TheConstants.{PAGE_BYTES};
ghost use Rattle.mt_overlay.specs.Overlays.{copied};
ghost use Rattle.mt_steps.specs.Scanned.{IsScannedTo};
ghost use Rattle.mt_overlay.specs.declared.overlay.PageCopy.{PageCopy};
ghost use Rattle.mt_overlay.specs.declared.page_copies.PageCopies.{PageCopies};

use crate::scan_progress::ScanProgress;
use mt_base::PageNo;
use mt_overlay::{PageCopies, PageCopy};
use mt_space::Pages;
use std::alloc::{AllocError, Global};
use std::marker::Model;
use std::mem::swap;

// Most operations look at no more pages: the directory, a bucket's, and one of records or the map, or two.
const USUAL_PAGES: usize = 4;

// The memory of more copies is given back when they are done with.
const SPARE_PAGES: usize = 8;

/// The memory of copies that are done with, for those of the next operation. Contracts see nothing of it.
#[derive(Drop)]
pub struct SpareCopies {
    list: Vec<PageCopy>,
}

impl Model for SpareCopies {
    ghost Value = { Unit {0} };

    ghost view = { λ spare. tt };

    ghost invariant = { λ spare. spare.list.items ≡ [] };
}

impl SpareCopies {
    /// No memory yet.
    pub fn new(alloc: Global) -> SpareCopies {
        SpareCopies {
            list: Vec::new(alloc),
        }
    }

    /// Keeps the memory of these copies, which are done with. It does so if there is more of it than is kept so
    /// far, and not more than most operations want.
    pub fn keep(&mut self, copies: Copies) {
        let Copies { pages, scan: _ } = copies;
        let mut list = pages.list;
        let room = list.capacity();
        if self.list.capacity() < room && room <= SPARE_PAGES {
            list.clear();
            swap(&mut self.list, &mut list);
        }
    }
}

/// Copies of some of a device's pages, those that an operation has looked at: no other page is at hand. And how far
/// a scan has come over them, of which contracts see nothing.
#[derive(Drop)]
pub struct Copies {
    pub(crate) pages: PageCopies,
    pub(crate) scan: ScanProgress,
}

impl Model for Copies {
    ghost Value = { PageCopies };

    ghost view = { λ copies. copies.pages };

    ghost invariant = { λ copies. IsScannedTo (copied copies.pages.list.items) copies.pages.total copies.scan };
}

impl Copies {
    /// No copy yet, of a device of so many pages.
    pub fn new(alloc: Global, total: u16) -> Copies
        ensures total { result.total ≡ total }
        ensures none { result.list.items ≡ [] }
    {
        Copies {
            pages: PageCopies {
                total,
                list: Vec::new(alloc),
            },
            scan: ScanProgress::new(alloc),
        }
    }

    /// Makes room for one copy more, and with the first for as many as most operations want. The first takes the
    /// memory that is kept, if there is any. The only error is want of memory.
    pub fn reserve(&mut self, spare: &mut SpareCopies) -> Result<(), AllocError>
        ensures total { self.new.total ≡ self.old.total }
        ensures same { self.new.list.items ≡ self.old.list.items }
        ensures room { OnOk result (vec_len self.new.list < vec_capacity self.new.list) }
    {
        if !self.pages.list.is_empty() {
            return self.pages.list.reserve(1);
        }
        if self.pages.list.capacity() < spare.list.capacity() {
            swap(&mut self.pages.list, &mut spare.list);
        }
        self.pages.list.reserve(USUAL_PAGES)
    }

    /// Puts a page's bytes after the other copies, in the room that was made for them.
    pub fn put(&mut self, page: PageNo, bytes: &[u8; 4096])
        requires room { vec_len self.old.list < vec_capacity self.old.list }
        ensures total { self.new.total ≡ self.old.total }
        ensures put { self.new.list.items ≡ self.old.list.items ++ record { page = page; bytes = bytes.now } ∷ [] }
    {
        self.pages.list.push_reserved(PageCopy {
            page,
            bytes: *bytes,
        });
    }

    /// Forgets all copies, and how far a scan has come.
    pub fn clear(&mut self)
        ensures total { self.new.total ≡ self.old.total }
        ensures none { self.new.list.items ≡ [] }
    {
        self.pages.list.clear();
        self.scan.clear();
    }
}

impl Pages for Copies {
    ghost use Rattle.std.specs.Prelude.{◌≡◌, ℕ, List, length, Some};
    ghost use Rattle.mt_overlay.specs.Overlays.{copied};

    ghost is_sound = { λ copies. (p : ℕ) (bytes : List ℕ) → copied copies.list.items p ≡ Some bytes
        → length bytes ≡ PAGE_BYTES };

    ghost total = { λ copies. copies.total };

    ghost at_hand = { λ copies. copied copies.list.items };

    ghost whole = { λ copies sound. sound };

    fn count(&self) -> u16 {
        self.pages.count()
    }

    fn page(&self, page: PageNo) -> Option<&[u8; 4096]> {
        self.pages.page(page)
    }
}

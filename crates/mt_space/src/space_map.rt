// The space map as somebody holds it, with the claims on its free pages. mt_op keeps one beside its store: it differs
// from page 0 while an operation has written there and not ended. A page that it frees may be put back, and so cannot
// be claimed yet.
ghost use Rattle.std.specs.Prelude.{◌≡◌, ◌≤◌, ◌+◌, ℕ, length, false, IfOk};
ghost use Rattle.mt_base.specs.declared.limits.TheConstants.{MAX_PAGES, PAGE_BYTES};
ghost use Rattle.mt_space.specs.Changes.{PageBytes, after, AreShort};
ghost use Rattle.mt_space.specs.Rooms.{mapped, free_in, free_of, reserved_of};

use crate::changes::Changes;
use crate::pages::MAP;
use crate::patches::patch;
use crate::space::Space;
use std::alloc::{AllocError, Global};

/// The space map in memory, and the free pages by it, with the claims on them. The bytes are on the heap, so that who
/// keeps a map is small to move.
#[derive(Drop)]
pub struct SpaceMap {
    /// The kind of each page, a byte for each.
    pub kinds: Box<[u8; 4096]>,
    /// The free pages, and how many of them are claimed.
    pub space: Space,
}

impl SpaceMap {
    /// The map of so many pages, by these bytes. No page is claimed. The only error is want of memory.
    pub fn of(alloc: Global, kinds: &[u8; 4096], count: u16) -> Result<SpaceMap, AllocError>
        requires whole { length kinds.now ≡ PAGE_BYTES }
        requires few { count ≤ MAX_PAGES }
        ensures kinds { IfOk result (λ map. map.kinds.value ≡ kinds.now) }
        ensures free { IfOk result (λ map. map.space.0 ≡ mapped kinds.now count) }
        ensures none { IfOk result (λ map. reserved_of map.space ≡ 0) }
    {
        Ok(SpaceMap {
            kinds: Box::new(alloc, *kinds)?,
            space: Space::of(alloc, kinds, count)?,
        })
    }

    /// An operation has ended: its claim is given back, and its changes of page 0 are made here too. So the pages held
    /// before and after differ by its changes (`short`), and it has taken no more free pages than it had claimed. It
    /// takes no memory.
    pub fn settle(&mut self, changes: &Changes, claim: u16)
        requires short { ∥ ((pages : PageBytes) × (pages 0 ≡ self.old.kinds.value)
            × AreShort changes.now.list.items pages × (length self.old.kinds.value ≡ PAGE_BYTES)
            × (reserved_of self.old.space ≤ free_in (mapped (after changes.now.list.items pages 0)
            (length self.old.space.0)) + claim)) ∥₁ }
        requires claimed { claim ≤ reserved_of self.old.space }
        requires mapped { self.old.space.0 ≡ mapped self.old.kinds.value (length self.old.space.0) }
        ensures kinds { (pages : PageBytes) → pages 0 ≡ self.old.kinds.value → AreShort changes.now.list.items pages
            → self.new.kinds.value ≡ after changes.now.list.items pages 0 }
        ensures free { self.new.space.0 ≡ mapped self.new.kinds.value (length self.old.space.0) }
        ensures claims { reserved_of self.new.space + claim ≡ reserved_of self.old.space }
        ensures room { reserved_of self.new.space ≤ free_of self.new.space }
    {
        self.space.give_back(claim);
        if self.follow(changes) {
            self.space.follow(&*self.kinds);
        }
    }

    // Makes the changes that are of the map; `false` if none is.
    fn follow(&mut self, changes: &Changes) -> bool
        requires short { ∥ ((pages : PageBytes) × (pages 0 ≡ self.old.kinds.value)
            × AreShort changes.now.list.items pages × (length self.old.kinds.value ≡ PAGE_BYTES)) ∥₁ }
        ensures kinds { (pages : PageBytes) → pages 0 ≡ self.old.kinds.value → AreShort changes.now.list.items pages
            → self.new.kinds.value ≡ after changes.now.list.items pages 0 }
        ensures whole { length self.new.kinds.value ≡ PAGE_BYTES }
        ensures none { result ≡ false → self.new.kinds.value ≡ self.old.kinds.value }
        ensures space { self.new.space ≡ self.old.space }
    {
        let mut followed = false;
        for change in &changes.list {
            if change.page.get() == MAP {
                patch(&mut *self.kinds, change.edits.as_slice());
                followed = true;
            }
        }
        followed
    }
}

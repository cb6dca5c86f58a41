// Pages as they will be once some changes are made: copies of those that change, over all pages as they are.
// An operation that plans twice makes its second plan over it.
ghost use Rattle.std.specs.Prelude.{◌≡◌, ◌+◌, ◌≤◌, ℕ, List, [], All, length, IfSome, IfNone, IfOk, OnOk, OnErr, IsSome, Some, None};
ghost use Rattle.mt_base.specs.declared.limits.TheConstants.{PAGE_BYTES};
ghost use Rattle.mt_base.specs.Edits.{patched};
ghost use Rattle.mt_space.specs.Changes.{PageBytes, Agrees, AreShort, after};
ghost use Rattle.mt_overlay.specs.Overlays.{copied, shown, AreApart, AreCopies, AreAtHand, ComeTo, IsCopyAt, Keeps, MakesChanges};

use mt_base::{PageNo, TouchedBytes};
use mt_space::{Changes, PageChange, Pages, patch};
use std::alloc::{AllocError, Global};

// The bytes stand before the number, so that they are copied once when a copy is put into a list. A store of the
// number first would have them copied aside.
/// A copy of a page: its bytes, and its number.
#[derive(Drop)]
pub struct PageCopy {
    pub bytes: [u8; 4096],
    pub page: PageNo,
}

/// Pages as they will be once some changes are made: copies of the pages that change, which lie over
/// all pages as they are. An operation that plans twice makes its second plan over an overlay with the
/// changes of the first. It is for the few pages of one operation: a copy is found by a walk over all.
#[derive(Drop)]
pub struct Overlay<'a, V: Pages> {
    views: &'a V,
    copies: Vec<PageCopy>,
}

impl<'a, V: Pages> Overlay<'a, V> {
    /// The pages as they will be once these changes are made. Each page that changes is to be at hand, and each edit to
    /// lie within its page, as in the changes that a plan answers. The only error is want of memory.
    pub fn over(
        alloc: Global,
        views: &'a V,
        changes: &Changes,
    ) -> Result<Overlay<'a, V>, AllocError>
        requires sound { V.is_sound views.now }
        requires there { AreAtHand (V.at_hand views.now) changes.now.list.items }
        requires short { ∥ ((pages : PageBytes) × Agrees (V.at_hand views.now) pages
            × AreShort changes.now.list.items pages) ∥₁ }
        ensures copies { IfOk result (λ d. AreCopies (V.at_hand views.now) d.copies.items) }
        ensures views { IfOk result (λ d. d.views.now ≡ views.now) }
        ensures none { IfOk result (λ d. (p : ℕ) → shown d.copies.items (V.at_hand views.now) p ≡ None →
            V.at_hand views.now p ≡ None) }
        ensures agrees { IfOk result (λ d. (pages : PageBytes) → Agrees (V.at_hand views.now) pages →
            Agrees (shown d.copies.items (V.at_hand views.now)) (after changes.now.list.items pages)) }
    {
        let mut overlay = Overlay::new(alloc, views);
        overlay.apply(changes)?;
        Ok(overlay)
    }

    // The pages as they are: no change is made so far.
    fn new(alloc: Global, views: &'a V) -> Overlay<'a, V>
        ensures none { result.copies.items ≡ [] }
        ensures views { result.views.now ≡ views.now }
    {
        Overlay {
            views,
            copies: Vec::new(alloc),
        }
    }

    // Makes changes of pages as the overlay shows them, one page after the other. If memory is refused, a first part of
    // the changes is made, and the overlay is still sound.
    fn apply(&mut self, changes: &Changes) -> Result<(), AllocError>
        requires sound { V.is_sound self.old.views.now }
        requires copies { AreCopies (V.at_hand self.old.views.now) self.old.copies.items }
        requires there { AreAtHand (shown self.old.copies.items (V.at_hand self.old.views.now)) changes.now.list.items }
        requires short { ∥ ((pages : PageBytes) × Agrees (shown self.old.copies.items
            (V.at_hand self.old.views.now)) pages × AreShort changes.now.list.items pages) ∥₁ }
        ensures { MakesChanges (V.at_hand self.old.views.now) self.old.views.now self.new.views.now
            self.old.copies.items self.new.copies.items changes.now.list.items result }
    {
        for change in &changes.list {
            self.make(change)?;
        }
        Ok(())
    }

    // Makes the change of one page.
    fn make(&mut self, change: &PageChange) -> Result<(), AllocError>
        requires sound { V.is_sound self.old.views.now }
        requires copies { AreCopies (V.at_hand self.old.views.now) self.old.copies.items }
        requires there { IsSome (V.at_hand self.old.views.now change.now.page) }
        requires fit { All (λ e. e.start + length e.bytes ≤ PAGE_BYTES) change.now.edits.items }
        ensures copies { AreCopies (V.at_hand self.old.views.now) self.new.copies.items }
        ensures views { self.new.views.now ≡ self.old.views.now }
        ensures few { OnOk result (length self.new.copies.items ≤ length self.old.copies.items + 1) }
        ensures kept { OnOk result ((bytes : List ℕ) → shown self.old.copies.items
            (V.at_hand self.old.views.now) change.now.page ≡ Some bytes → Keeps change.now.page
            (patched change.now.edits.items bytes) self.old.copies.items self.new.copies.items) }
    {
        let mut bytes = match self.page(change.page) {
            Some(shown) => *shown,
            // Not reached, since the page is at hand.
            None => return Ok(()),
        };
        patch(&mut bytes, change.edits.as_slice());
        keep(&mut self.copies, change.page, bytes)
    }

    // What all changes so far come to, against the pages as they are. It is one list that names each page once, and
    // none that is as before.
    fn changes(&self) -> Result<Changes, AllocError>
        requires sound { V.is_sound self.now.views.now }
        requires copies { AreCopies (V.at_hand self.now.views.now) self.now.copies.items }
        ensures made { IfOk result (λ changes.
            ComeTo (V.at_hand self.now.views.now) self.now.copies.items changes.list.items) }
        ensures there { IfOk result (λ changes. AreAtHand (V.at_hand self.now.views.now) changes.list.items) }
    {
        let mut changes = Changes::new(*self.copies.allocator());
        for copy in &self.copies {
            if let Some(old) = self.views.page(copy.page) {
                changes.note(copy.page, old, &copy.bytes, TouchedBytes::whole())?;
            }
        }
        Ok(changes)
    }
}

impl<'a, V: Pages> Pages for Overlay<'a, V> {
    ghost use Rattle.mt_overlay.specs.Overlays.{shown_whole};

    ghost is_sound = { λ overlay. V.is_sound overlay.views.now
        × AreCopies (V.at_hand overlay.views.now) overlay.copies.items };

    ghost total = { λ overlay. V.total overlay.views.now };

    ghost at_hand = { λ overlay. shown overlay.copies.items (V.at_hand overlay.views.now) };

    ghost whole = { λ overlay sound. shown_whole overlay.copies.items (V.at_hand overlay.views.now) sound.1
        (V.whole overlay.views.now sound.0) };

    fn count(&self) -> u16 {
        self.views.count()
    }

    fn page(&self, page: PageNo) -> Option<&[u8; 4096]> {
        match copy_of(self.copies.as_slice(), page) {
            Some(bytes) => Some(bytes),
            None => self.views.page(page),
        }
    }
}

/// Two plans' changes as one list, of which the second plan was made over the changes of the first. Each
/// page that changes is to be at hand. The only error is want of memory.
pub fn merged<V: Pages>(
    alloc: Global,
    views: &V,
    first: &Changes,
    second: &Changes,
) -> Result<Changes, AllocError>
    requires sound { V.is_sound views.now }
    requires first_there { AreAtHand (V.at_hand views.now) first.now.list.items }
    requires second_there { AreAtHand (V.at_hand views.now) second.now.list.items }
    requires short { ∥ ((pages : PageBytes) × Agrees (V.at_hand views.now) pages × AreShort first.now.list.items pages
        × AreShort second.now.list.items (after first.now.list.items pages)) ∥₁ }
    ensures made { IfOk result (λ changes. (pages : PageBytes) → Agrees (V.at_hand views.now) pages →
        after changes.list.items pages ≡ after second.now.list.items (after first.now.list.items pages)) }
    ensures short { IfOk result (λ changes. (pages : PageBytes) → Agrees (V.at_hand views.now) pages →
        AreShort changes.list.items pages) }
    ensures there { IfOk result (λ changes. AreAtHand (V.at_hand views.now) changes.list.items) }
    ensures few { IfOk result (λ changes.
        length changes.list.items ≤ length first.now.list.items + length second.now.list.items) }
{
    let mut overlay = Overlay::new(alloc, views);
    overlay.apply(first)?;
    overlay.apply(second)?;
    overlay.changes()
}

// The copy of a page, lent.
pub(crate) fn copy_of(copies: &[PageCopy], page: PageNo) -> Option<&[u8; 4096]>
    ensures some { IfSome result (λ bytes. copied copies.now page ≡ Some bytes.now) }
    ensures none { IfNone result (copied copies.now page ≡ None) }
{
    match place_of(copies, page) {
        Some(i) => Some(&copies[i].bytes),
        None => None,
    }
}

// The place of a page's copy among all.
fn place_of(copies: &[PageCopy], page: PageNo) -> Option<usize>
    ensures some { IfSome result (λ i. IsCopyAt copies.now page i) }
    ensures none { IfNone result (copied copies.now page ≡ None) }
{
    for i in 0..copies.len() {
        if copies[i].page == page {
            return Some(i);
        }
    }
    None
}

// Makes the bytes a page's copy, in place of the one that there is.
fn keep(copies: &mut Vec<PageCopy>, page: PageNo, bytes: [u8; 4096]) -> Result<(), AllocError>
    ensures kept { OnOk result (Keeps page bytes copies.old.items copies.new.items) }
    ensures apart { AreApart copies.old.items → AreApart copies.new.items }
    ensures few { OnOk result (length copies.new.items ≤ length copies.old.items + 1) }
    ensures unchanged { OnErr result (copies.new.items ≡ copies.old.items) }
{
    match place_of(copies.as_slice(), page) {
        Some(i) => copies[i] = PageCopy { page, bytes },
        None => copies.push(PageCopy { page, bytes })?,
    }
    Ok(())
}

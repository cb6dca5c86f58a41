// Changes of pages as data: what a plan over pages answers.
ghost use Rattle.std.specs.Prelude.{◌≡◌, ◌≢◌, ◌≤◌, ◌+◌, ℕ, List, [], length, IfOk, OnOk};
ghost use Rattle.mt_base.specs.declared.limits.TheConstants.{PAGE_BYTES};

use mt_base::{Edit, PageNo, TouchedBytes, edits_of};
use std::alloc::{AllocError, Global};

/// What changes in one page.
#[derive(Debug, Drop)]
pub struct PageChange {
    /// The page.
    pub page: PageNo,
    /// The ranges of its bytes that change, from its beginning on.
    pub edits: Vec<Edit>,
}

/// What changes in some pages, each of which is named once.
#[derive(Debug, Drop)]
pub struct Changes {
    /// The pages that change.
    pub list: Vec<PageChange>,
}

impl Changes {
    ghost use Rattle.mt_base.specs.Touched.{TouchesOnly};
    ghost use Rattle.mt_space.specs.Changes.{PageBytes, replaced, after, IsUntouched, AreShort};

    /// No change so far.
    pub fn new(alloc: Global) -> Changes
        ensures { result.list.items ≡ [] }
    {
        Changes {
            list: Vec::new(alloc),
        }
    }

    /// Notes what changes in a page that no earlier change names, in ranges as short as a log wants them.
    /// If no byte differs nothing is noted. Who changed the page says which bytes were touched, and only these are
    /// compared. The only error is want of memory.
    pub fn note(
        &mut self,
        page: PageNo,
        old: &[u8],
        new: &[u8],
        touched: TouchedBytes,
    ) -> Result<(), AllocError>
        requires old_whole { length old.now ≡ PAGE_BYTES }
        requires touched { TouchesOnly touched old.now new.now }
        ensures noted { OnOk result ((pages : PageBytes) → after self.old.list.items pages page ≡ old.now
            → after self.new.list.items pages ≡ replaced page new.now (after self.old.list.items pages)) }
        ensures short { OnOk result ((pages : PageBytes) → pages page ≡ old.now → IsUntouched self.old.list.items page
            → AreShort self.old.list.items pages → AreShort self.new.list.items pages) }
        ensures others { OnOk result ((p : ℕ) → p ≢ page → IsUntouched self.old.list.items p
            → IsUntouched self.new.list.items p) }
        ensures count { OnOk result (length self.new.list.items ≤ length self.old.list.items + 1) }
        ensures same { OnOk result (new.now ≡ old.now → self.new ≡ self.old) }
    {
        let edits = edits_of(*self.list.allocator(), old, new, touched)?;
        if edits.is_empty() {
            return Ok(());
        }
        self.list.push(PageChange { page, edits })?;
        Ok(())
    }
}

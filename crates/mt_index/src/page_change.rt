// What a plan does to one page, as the edits between its bytes before and after.
ghost use Rattle.std.specs.Prelude.{◌≡◌, ◌≢◌, ◌≤◌, ℕ, length, IfOk, IfSome, IfNone};
ghost use Rattle.mt_base.specs.declared.limits.TheConstants.{PAGE_BYTES};
ghost use Rattle.mt_base.specs.Touched.{TouchesOnly};
ghost use Rattle.mt_space.specs.Changes.{PageBytes, after, IsUntouched, AreShort};
ghost use Rattle.mt_index.specs.Pages.{Turns};

use mt_base::{PageNo, TouchedBytes};
use mt_space::Changes;
use std::alloc::{AllocError, Global};

// The change of one page, of which these bytes were touched, or none.
pub(crate) fn change_of(
    alloc: Global,
    page: PageNo,
    old: &[u8],
    new: &[u8],
    touched: Option<TouchedBytes>,
) -> Result<Changes, AllocError>
    requires old_whole { length old.now ≡ PAGE_BYTES }
    requires touched { IfSome touched (λ bytes. TouchesOnly bytes old.now new.now) }
    requires unchanged { IfNone touched (new.now ≡ old.now) }
    ensures turned { IfOk result (λ changes. (pages : PageBytes) → pages page ≡ old.now →
        Turns page new.now pages (after changes.list.items pages)) }
    ensures short { IfOk result (λ changes. (pages : PageBytes) → pages page ≡ old.now →
        AreShort changes.list.items pages) }
    ensures others { IfOk result (λ changes. (p : ℕ) → p ≢ page → IsUntouched changes.list.items p) }
    ensures one { IfOk result (λ changes. length changes.list.items ≤ 1) }
{
    let mut changes = Changes::new(alloc);
    let Some(bytes) = touched else {
        return Ok(changes);
    };
    changes.note(page, old, new, bytes)?;
    Ok(changes)
}

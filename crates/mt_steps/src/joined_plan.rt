// Two plans of one operation, the second made over the changes of the first.
ghost use Rattle.std.specs.Prelude.{◌≡◌, ◌≢◌, ◌+◌, ◌++◌, ◌<◌, ◌≤◌, ℕ, All, false, length, None, IfOk};
ghost use Rattle.std.specs.Bool.{OnTrue};
ghost use Rattle.mt_base.specs.declared.modes.Mode.TheVariants.{Read as ToRead, Write as ToWrite};
ghost use Rattle.mt_space.specs.Changes.{PageBytes, Agrees, after, AreShort};
ghost use Rattle.mt_overlay.specs.Overlays.{AreAtHand, names_page};
ghost use Rattle.mt_steps.specs.PlanAnswers.{PlanAnswers, AsksForNone, IsJoined};

use crate::act::Act;
use mt_base::{Mode, PageNo};
use mt_model::Reply;
use mt_overlay::merged;
use mt_space::pages::DIRECTORY;
use mt_space::{Changes, Pages};
use std::alloc::{AllocError, Global};

// How a page of the index is locked by who is to change an entry: a page of a bucket is written, the directory read.
pub(crate) fn mode_to_write(page: PageNo) -> Mode
    ensures directory { page ≡ 1 → result ≡ ToRead }
    ensures others { page ≢ 1 → result ≡ ToWrite }
{
    if page.get() == DIRECTORY {
        Mode::Read
    } else {
        Mode::Write
    }
}

// The changes of both plans, and the reply.
pub(crate) fn join<V: Pages>(
    alloc: Global,
    views: &V,
    first: Changes,
    second: Changes,
    reply: Reply,
) -> Result<Act, AllocError>
    requires sound { V.is_sound views.now }
    requires there { AreAtHand (V.at_hand views.now) first.list.items }
    requires second_there { AreAtHand (V.at_hand views.now) second.list.items }
    requires short { ∥ ((pages : PageBytes) × Agrees (V.at_hand views.now) pages × AreShort first.list.items pages
        × AreShort second.list.items (after first.list.items pages)) ∥₁ }
    ensures { IfOk result (PlanAnswers (V.at_hand views.now) (V.total views.now) AsksForNone
        (IsJoined (V.at_hand views.now) first.list.items second.list.items reply) ⊥) }
{
    if are_apart(&first, &second) {
        let changes = chained(first, second)?;
        return Ok(Act::Made(changes, reply));
    }
    Ok(Act::Made(merged(alloc, views, &first, &second)?, reply))
}

// Whether these changes name a page.
#[tactic(auto, unfolding(mt_overlay::specs::Overlays::names_page))]
fn name_page(changes: &Changes, page: PageNo) -> bool
    ensures { result ≡ names_page changes.now.list.items page }
{
    changes.list.iter().any(|change| change.page == page)
}

// Whether no page is named by both.
fn are_apart(first: &Changes, second: &Changes) -> bool
    ensures { OnTrue result (All (λ c. names_page first.now.list.items c.page ≡ false) second.now.list.items) }
{
    for change in &second.list {
        if name_page(first, change.page) {
            return false;
        }
    }
    true
}

// The changes of both, one list after the other.
fn chained(first: Changes, mut second: Changes) -> Result<Changes, AllocError>
    ensures { IfOk result (λ all. all.list.items ≡ first.list.items ++ second.list.items) }
{
    let mut all = first;
    all.list.append(&mut second.list)?;
    Ok(all)
}

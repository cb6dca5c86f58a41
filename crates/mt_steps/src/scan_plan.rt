// The plan of a scan: the index names the records of a relation, and their pages have its rows. Nothing changes.
ghost use Rattle.std.specs.Prelude.{◌≡◌, ℕ, None, Contains, IfNone, IfSome, length};
ghost use Rattle.mt_index.specs.Answers.{InMaps};
ghost use Rattle.mt_index.specs.Names.{AreNames, AreNamesOnce};
ghost use Rattle.mt_steps.specs.Acts.{HasGood};
ghost use Rattle.mt_steps.specs.Planners.{PlansScan};
ghost use Rattle.mt_steps.specs.Scanned.{AreReady, IsScannedTo};

use crate::act::Act;
use crate::scan_progress::ScanProgress;
use mt_base::limits::MAX_PAGES;
use mt_base::{Bytes, Mode, PageNo, RecordName, RelNo};
use mt_file::{Lookup, plan_read};
use mt_index::{Names, plan_names};
use mt_model::Reply;
use mt_rows::{Row, Rows};
use mt_space::{Changes, Pages};
use std::alloc::{AllocError, Global};

/// Plans to read all rows of a relation: the directory, each page of each bucket and each page with a record of the
/// relation is needed for read, and nothing changes.
///
/// It goes on from where the plans over fewer pages have come.
pub(crate) fn scan<V: Pages>(
    alloc: Global,
    views: &V,
    relation: RelNo,
    progress: &mut ScanProgress,
) -> Result<Act, AllocError>
    requires sound { V.is_sound views.now }
    requires good { ∥ ((relations : ℕ) × HasGood (V.at_hand views.now) relations (V.total views.now)) ∥₁ }
    requires so_far { IsScannedTo (V.at_hand views.now) (V.total views.now) progress.old }
    ensures plans { PlansScan (V.at_hand views.now) (V.total views.now) relation result }
    ensures so_far { IsScannedTo (V.at_hand views.now) (V.total views.now) progress.new }
{
    progress.turn_to(relation);
    match plan_names(views, relation, &mut progress.gathering)? {
        Names::Need(page) => Ok(Act::Lock(page, Mode::Read)),
        Names::Named => {
            let names = progress.gathering.names();
            if let Some(page) = first_missing(views, names, &mut progress.ready) {
                return Ok(Act::Lock(page, Mode::Read));
            }
            rows_named(alloc, views, relation, names)
        }
        Names::Endless => Ok(Act::Broken),
    }
}

// The plan once the names of all records of the relation are known.
fn rows_named<V: Pages>(
    alloc: Global,
    views: &V,
    relation: RelNo,
    names: &[RecordName],
) -> Result<Act, AllocError>
    requires sound { V.is_sound views.now }
    requires good { ∥ ((relations : ℕ) × HasGood (V.at_hand views.now) relations (V.total views.now)) ∥₁ }
    requires named { InMaps (V.at_hand views.now) (V.total views.now) (λ pages m. AreNames relation m names.now) }
    requires once { InMaps (V.at_hand views.now) (V.total views.now) (λ pages m. AreNamesOnce relation m names.now) }
    ensures { PlansScan (V.at_hand views.now) (V.total views.now) relation result }
{
    let mut rows = Vec::new(alloc);
    for name in names {
        match plan_read(views, *name) {
            Lookup::Need(page) => return Ok(Act::Lock(page, Mode::Read)),
            Lookup::Record(record) => {
                let key = Bytes::copy_of(alloc, record.key)?;
                let value = Bytes::copy_of(alloc, record.value)?;
                rows.push(Row {
                    relation,
                    key,
                    value,
                })?;
            }
            Lookup::Nothing => return Ok(Act::Broken),
        }
    }
    Ok(Act::Made(Changes::new(alloc), Reply::Rows(Rows::sorted(rows))))
}

// The page of the first record that is not at hand, from a place on that it moves there. It is looked for before any
// row is copied, and in each page once, since a scan asks so with each page that it needs.
fn first_missing<V: Pages>(views: &V, names: &[RecordName], ready: &mut usize) -> Option<PageNo>
    requires sound { V.is_sound views.now }
    ensures missing { IfSome result (λ p. V.at_hand views.now p ≡ None) }
    ensures named { IfSome result (λ p. (s : ℕ) × Contains names.now (record { page = p; slot = s })) }
    // Up to where it has moved the place no page is missing. If it answers none, that is the end of the names.
    ensures ready { AreReady (V.at_hand views.now) names.now ready.old ready.new }
    ensures none { IfNone result (ready.new ≡ length names.now) }
{
    let mut seen = [false; MAX_PAGES as usize];
    for i in *ready..names.len() {
        let page = names[i].page;
        let place = page.get() as usize;
        if place < seen.len() && !seen[place] {
            if views.page(page).is_none() {
                *ready = i;
                return Some(page);
            }
            seen[place] = true;
        }
    }
    *ready = names.len();
    None
}

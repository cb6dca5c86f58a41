// The plans of an add and of a read. Both look at the counters page alone.
ghost use Rattle.std.specs.Prelude.{◌<◌, ℕ, None};
ghost use Rattle.mt_base.specs.declared.limits.TheConstants.{MAX_COUNTERS};
ghost use Rattle.mt_base.specs.Limits.{IsStep};
ghost use Rattle.mt_model.specs.declared.operations.Op.TheVariants.{Read};
ghost use Rattle.mt_steps.specs.Acts.{HasCounters};
ghost use Rattle.mt_steps.specs.Planners.{PlansAdd, PlansRead};

use crate::act::Act;
use mt_base::{CtrNo, Mode, PageNo};
use mt_counters::{add, counter, number_bytes};
use mt_model::Reply;
use mt_space::pages::COUNTERS;
use mt_space::{Changes, Pages};
use std::alloc::{AllocError, Global};

/// Plans to add a step to a counter, if the sum lies in the counter's bounds; else nothing changes, which
/// escrow rules out before. The counters page is needed for write.
pub(crate) fn add_to<V: Pages>(
    alloc: Global,
    views: &V,
    number: CtrNo,
    step: i64,
) -> Result<Act, AllocError>
    requires sound { V.is_sound views.now }
    requires good { ∥ ((relations counters : ℕ) × (number < counters)
        × HasCounters (V.at_hand views.now) relations counters) ∥₁ }
    requires step { IsStep step }
    requires inside { 2 < V.total views.now }
    ensures { PlansAdd (V.at_hand views.now) (V.total views.now) number step result }
{
    let page = PageNo::new(COUNTERS);
    let Some(old) = views.page(page) else {
        return Ok(Act::Lock(page, Mode::Write));
    };
    let mut new = *old;
    let mut changes = Changes::new(alloc);
    if !add(&mut new, number, step) {
        return Ok(Act::Made(changes, Reply::OutOfBounds));
    }
    changes.note(page, old, &new, number_bytes(number))?;
    Ok(Act::Made(changes, Reply::Done))
}

/// Plans to read a counter: the counters page is needed for read, and nothing changes.
pub(crate) fn read_from<V: Pages>(alloc: Global, views: &V, number: CtrNo) -> Act
    requires sound { V.is_sound views.now }
    requires there { number < MAX_COUNTERS }
    requires inside { 2 < V.total views.now }
    ensures { PlansRead (V.at_hand views.now) (V.total views.now) number result }
{
    let page = PageNo::new(COUNTERS);
    match views.page(page) {
        Some(bytes) => Act::Made(
            Changes::new(alloc),
            Reply::Value(counter(bytes, number).number),
        ),
        None => Act::Lock(page, Mode::Read),
    }
}

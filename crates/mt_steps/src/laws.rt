// Laws of pages, for all pages there are.
ghost use Rattle.std.specs.Prelude.{ℕ};
ghost use Rattle.mt_space.specs.Changes.{PageBytes};
ghost use Rattle.mt_steps.specs.Formatted.{IsFormatted, first_base};
ghost use Rattle.mt_steps.specs.Held.{Holds};
ghost use Rattle.mt_steps.specs.Plans.{IsGood};

/// Pages as a device is formatted with them break no rule, and hold the base without rows, with the counters of
/// page 2.
pub fn formatted_pages_are_good()
    ensures good { (relations counters total : ℕ) (pages : PageBytes) → IsFormatted relations counters total pages →
        IsGood relations counters total pages }
    ensures base { (relations counters total : ℕ) (pages : PageBytes) → IsFormatted relations counters total pages →
        Holds pages (first_base pages) }
{}

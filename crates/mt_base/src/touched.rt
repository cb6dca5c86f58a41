// Which bytes of a page a change may touch.
ghost use Rattle.std.specs.Prelude.{◌≡◌, ℕ, List, length};
ghost use Rattle.mt_base.specs.declared.limits.TheConstants.{PAGE_BYTES};
ghost use Rattle.mt_base.specs.Touched.{TouchesOnly};

use crate::limits::PAGE_BYTES;

/// The bytes of a page that a change may touch: those of its head, and those of one range.
#[derive(Clone, Copy, Debug, PartialEq, Eq)]
pub struct TouchedBytes {
    /// How many bytes the head has.
    pub head: usize,
    /// Where the range begins.
    pub start: usize,
    /// How many bytes the range has.
    pub count: usize,
}

impl TouchedBytes {
    /// All bytes of a page.
    pub fn whole() -> TouchedBytes
        ensures { (old new : List ℕ) → length old ≡ PAGE_BYTES → length new ≡ PAGE_BYTES → TouchesOnly result old new }
    {
        TouchedBytes {
            head: PAGE_BYTES,
            start: 0,
            count: 0,
        }
    }
}

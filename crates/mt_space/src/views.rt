// What pages are read from: frames of a device, or copies of its pages.
ghost use Rattle.std.specs.Prelude.{◌≡◌, ℕ, List, length, Option, IfSome, IfNone, Some, None};
ghost use Rattle.mt_base.specs.declared.limits.TheConstants.{PAGE_BYTES};

use mt_base::PageNo;

/// Pages by their numbers, each of which may be at hand or not.
pub trait Pages {
    /// What holds of it wherever it is read.
    ghost is_sound: { Self → Type 0 };

    /// How many pages there are: their numbers are below this.
    ghost total: { Self → ℕ };

    /// The bytes of the page, if it is at hand.
    ghost at_hand: { Self → ℕ → Option (List ℕ) };

    /// A page that is at hand is whole.
    ghost whole: { (pages : Self) → is_sound pages → (p : ℕ) (bytes : List ℕ) → at_hand pages p ≡ Some bytes
        → length bytes ≡ PAGE_BYTES };

    /// How many pages there are.
    fn count(&self) -> u16
        requires sound { is_sound self.now }
        ensures { result ≡ total self.now };

    /// The bytes of the page, lent, or `None` if it is not at hand, as a page past the last one never
    /// is.
    fn page(&self, page: PageNo) -> Option<&[u8; 4096]>
        requires sound { is_sound self.now }
        ensures some { IfSome result (λ bytes. at_hand self.now page ≡ Some bytes.now) }
        ensures none { IfNone result (at_hand self.now page ≡ None) };
}

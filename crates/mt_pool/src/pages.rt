// The pages of the pool, as plans read them. A page in no frame is not at hand.
ghost use Rattle.std.specs.Prelude.{◌≡◌, List, ℕ, IfSome, IfNone, Some, None};

use crate::Pool;
use crate::slots::index_of;
use mt_base::PageNo;
use mt_space::Pages;

/// The pages of a pool that are in frames.
impl Pages for Pool {
    ghost use Rattle.mt_pool.specs.Views.{IsPool, pages, in_frame, frame_whole, view};

    ghost is_sound = { λ pool. IsPool pool };

    ghost total = { λ pool. pages pool };

    ghost at_hand = { λ pool p. in_frame pool p };

    ghost whole = { frame_whole };

    fn count(&self) -> u16
        requires sound { IsPool self.now }
        ensures { result ≡ pages self.now }
    {
        self.of_page.len() as u16
    }

    fn page(&self, page: PageNo) -> Option<&[u8; 4096]>
        requires sound { IsPool self.now }
        ensures some { IfSome result (λ bytes. in_frame self.now page ≡ Some bytes.now) }
        ensures none { IfNone result (in_frame self.now page ≡ None) }
        ensures view { IfSome result (λ bytes. (seen : List ℕ) → bytes.now ≡ view self.now seen page) }
    {
        if index_of(page) >= self.of_page.len() {
            return None;
        }
        match self.frame_of(page) {
            Some(frame) => Some(&self.bytes[frame]),
            None => None,
        }
    }
}

// Which page leaves its frame for another: second chance.
ghost use Rattle.std.specs.Prelude.{◌≡◌, ◌≤◌, ℕ, length, IfSome, None};

use crate::Pool;

/// What the hand came to in some of the frames.
enum Passed {
    /// This frame, whose page is not to be flushed, and was not used since the hand passed it. The hand
    /// stands after it.
    Unused(usize),
    /// None such; this is the last one whose page is not to be flushed.
    Used(usize),
    /// Frames with pages to be flushed alone.
    Dirty,
}

impl Pool {
    ghost use Rattle.mt_pool.specs.Chance.{IsClean, Passes};
    ghost use Rattle.mt_pool.specs.Views.{IsPool, IsFull, frames};

    /// The hand passes the frames from one to before another, up to the first that it can take.
    fn pass(&mut self, from: usize, to: usize) -> Passed
        requires pool { IsPool self.old }
        requires inside { to ≤ frames self.old }
        ensures { Passes self.old self.new from to result }
    {
        let mut clean = None;
        for frame in from..to {
            if !self.dirty[frame] {
                if !self.used[frame] {
                    self.hand = frame + 1;
                    return Passed::Unused(frame);
                }
                self.used[frame] = false;
                clean = Some(frame);
            }
        }
        match clean {
            Some(frame) => Passed::Used(frame),
            None => Passed::Dirty,
        }
    }

    /// A frame without a page yet to be flushed. It is the first from the hand on that was not used since the hand
    /// passed it, else the last of them. `None` if there is none.
    pub(crate) fn victim(&mut self) -> Option<usize>
        requires pool { IsPool self.old }
        ensures some { IfSome result (IsClean self.old) }
        ensures none { result ≡ None → (IsFull self.old) × (self.new ≡ self.old) }
        ensures rest { (u : _) × (h : ℕ) × (self.new ≡ record self.old { used = u; hand = h })
            × (length u.items ≡ frames self.old) × (h ≤ frames self.old) }
    {
        let start = self.hand;
        let end = self.dirty.len();
        let behind = match self.pass(start, end) {
            Passed::Unused(frame) => return Some(frame),
            Passed::Used(frame) => Some(frame),
            Passed::Dirty => None,
        };
        match self.pass(0, start) {
            Passed::Unused(frame) => Some(frame),
            Passed::Used(frame) => Some(frame),
            Passed::Dirty => behind,
        }
    }
}

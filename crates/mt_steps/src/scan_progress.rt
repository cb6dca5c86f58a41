// How far a scan has come. It goes on from there as more pages come to hand.
ghost use Rattle.std.specs.Prelude.{◌≡◌, ℕ, List, Option};
ghost use Rattle.mt_steps.specs.Scanned.{IsScannedTo};

use mt_base::RelNo;
use mt_index::Gathering;
use std::alloc::Global;

/// The names of a relation's records so far.
#[derive(Drop)]
pub(crate) struct ScanProgress {
    pub(crate) relation: RelNo,
    pub(crate) gathering: Gathering,
    // the pages of the names before this place are at hand, and are not looked for again
    pub(crate) ready: usize,
}

impl ScanProgress {
    /// No scan has begun.
    pub(crate) fn new(alloc: Global) -> ScanProgress
        ensures { (at_hand : ℕ → Option (List ℕ)) (total : ℕ) → IsScannedTo at_hand total result }
    {
        ScanProgress {
            relation: RelNo::new(0),
            gathering: Gathering::new(alloc),
            ready: 0,
        }
    }

    /// Forgets all names.
    pub(crate) fn clear(&mut self)
        ensures { (at_hand : ℕ → Option (List ℕ)) (total : ℕ) → IsScannedTo at_hand total self.new }
    {
        self.gathering.clear();
        self.ready = 0;
    }

    /// Goes over to the scan of a relation: the names of another one are forgotten.
    pub(crate) fn turn_to(&mut self, relation: RelNo)
        ensures relation { self.new.relation ≡ relation }
        ensures so_far { (at_hand : ℕ → Option (List ℕ)) (total : ℕ) → IsScannedTo at_hand total self.old
            → IsScannedTo at_hand total self.new }
    {
        if self.relation != relation {
            self.gathering.clear();
            self.ready = 0;
            self.relation = relation;
        }
    }
}

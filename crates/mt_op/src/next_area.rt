// What operations keep beside their store. It is made for pages in memory, as a restart or a format has them, and
// joined to a store over those.
ghost use Rattle.std.specs.Prelude.{◌≡◌, ◌≤◌, [], ℕ, length, IfOk, IfErr};
ghost use Rattle.mt_base.specs.declared.limits.TheConstants.{MAX_PAGES};
ghost use Rattle.mt_base.specs.declared.refusal.Refusal.{Refusal};
ghost use Rattle.mt_space.specs.PageLists.{bytes_of};
ghost use Rattle.mt_log.specs.Words.{appended};
ghost use Rattle.mt_pool.specs.Kept.{IsKept};
ghost use Rattle.mt_pool.specs.Views.{pages};
ghost use Rattle.mt_space.specs.Changes.{PageBytes};
ghost use Rattle.mt_steps.specs.Plans.{IsGood};
ghost use Rattle.mt_op.specs.Begun.{AreImages, ShowsOpening, FitsPages, idle_claims};
ghost use Rattle.mt_op.specs.Operations.{IsRight, claimed};

use crate::operations::Operations;
use mt_base::Refusal;
use mt_disk::Device;
use mt_file::{Rooms, rooms_of};
use mt_plock::PageLocks;
use mt_pool::Store;
use mt_space::SpaceMap;
use mt_space::pages::MAP;
use mt_steps::SpareCopies;
use std::alloc::Global;

/// What operations keep beside their store.
#[derive(Drop)]
pub struct Idle {
    pub(crate) locks: PageLocks,
    pub(crate) rooms: Rooms,
    pub(crate) map: SpaceMap,
    pub(crate) spare: SpareCopies,
}

impl Idle {
    /// What operations keep beside a store over these pages, if none is under way. That is what each page of
    /// records takes, and the map of the space without a claim. The only refusal is [`Refusal::NoMemory`].
    pub fn of(alloc: Global, pages: &[[u8; 4096]]) -> Result<Idle, Refusal>
        requires good { ∥ ((relations : ℕ) × (counters : ℕ)
            × IsGood relations counters (length pages.now) (bytes_of pages.now)) ∥₁ }
        requires few { length pages.now ≤ MAX_PAGES }
        ensures fits { IfOk result (FitsPages (length pages.now) (bytes_of pages.now)) }
        ensures claimed { IfOk result (λ idle. idle_claims idle ≡ 0) }
        ensures only_memory { IfErr result (λ why. why ≡ Refusal.NoMemory) }
    {
        let rooms = rooms_of(alloc, pages)?;
        let map = SpaceMap::of(alloc, &pages[usize::from(MAP)], pages.len() as u16)?;
        let locks = PageLocks::new(alloc);
        let spare = SpareCopies::new(alloc);
        Ok(Idle {
            locks,
            rooms,
            map,
            spare,
        })
    }
}

impl<D: Device> Operations<D> {
    /// Operations over a store whose log has no record but the images that its area began with. None is under way.
    /// They keep beside it what was made for its pages. No page is looked at, and it takes no memory.
    pub fn join(store: Store<D>, idle: Idle) -> Operations<D>
        ensures right { (opening : PageBytes) (relations counters : ℕ) → IsKept D.Device opening store
            → AreImages (appended store.log) → IsGood relations counters (pages store.pool) opening
            → ShowsOpening D.Device opening store → FitsPages (pages store.pool) opening idle
            → IsRight D.Device opening relations counters result }
        ensures store { result.store ≡ store }
        ensures locks { result.locks ≡ idle.locks }
        ensures claimed { claimed result ≡ idle_claims idle }
    {
        let Idle {
            locks,
            rooms,
            map,
            spare,
        } = idle;
        Operations {
            store,
            locks,
            rooms,
            map,
            spare,
        }
    }
}

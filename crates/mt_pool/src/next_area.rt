// The store goes on over an area that begins with images.
ghost use Rattle.std.specs.Prelude.{◌≡◌, ◌+◌, ◌*◌, ◌<◌, ◌≤◌, [], ℕ, List, length};
ghost use Rattle.std.specs.List.{AllByRecursion};
ghost use Rattle.mt_base.specs.declared.limits.TheConstants.{MAX_PAGES, PAGE_BYTES};
ghost use Rattle.mt_frame.specs.declared.records.Record.{Record};
ghost use Rattle.mt_log.specs.Masters.{IsRuling};
ghost use Rattle.mt_log.specs.Sound.{IsSound};
ghost use Rattle.mt_log.specs.Words.{durable, in_flight, waiting, area_start, IsOn};
ghost use Rattle.mt_pool.specs.Images.{IsSafe};
ghost use Rattle.mt_pool.specs.Kept.{IsKept, Names, carried, store_frames};
ghost use Rattle.mt_pool.specs.Turns.{IsImageOnly};
ghost use Rattle.mt_pool.specs.Views.{IsPool, Shows, view, waits_for, pages as pages_of};
ghost use Rattle.mt_pool.specs.Moves.{IsStoreOver, NotesImages};

use crate::{Pool, Store};
use mt_base::LogPos;
use mt_disk::Device;
use mt_frame::{MasterSlot, Record};
use mt_log::Log;

// Notes in the pool the images with which an area begins.
fn note_images(pool: &mut Pool, images: &[Record])
    requires pool { IsPool pool.old }
    requires new { (q : ℕ) → waits_for pool.old q ≡ 0 }
    requires images { AllByRecursion (IsImageOnly (pages_of pool.old)) images.now }
    ensures { NotesImages pool.old pool.new images.now }
{
    let mut position = 0;
    for entry in images {
        position += 1;
        if let Record::Page { page, .. } = entry {
            pool.note_image(*page, LogPos::new(position));
        }
    }
}

impl<D: Device> Store<D> {
    /// A store over an area that has just begun with these images of pages. Each page's slot, or its frame, has its
    /// bytes as they are at that moment. The master slot that names the area rules the device. No page waits for a
    /// record then but for its image. It takes no memory.
    pub fn over_images(
        device: D,
        log: Log,
        pool: Pool,
        ruling: MasterSlot,
        images: &[Record],
    ) -> Store<D>
        requires on { IsOn D.Device log device }
        requires sound { IsSound (pages_of pool) log }
        requires durable { (durable log ≡ images.now) × (in_flight log ≡ []) × (waiting log ≡ []) }
        requires images { AllByRecursion (IsImageOnly (pages_of pool)) images.now }
        requires apart { pool.place + PAGE_BYTES * pages_of pool ≤ area_start log }
        requires few { pages_of pool ≤ MAX_PAGES }
        requires names { Names ruling pool log }
        requires rules { (c : List ℕ) → D.may_leave device c → IsRuling c ruling }
        requires pool { IsPool pool × Shows pool (D.seen device) × ((q : ℕ) → waits_for pool q ≡ 0) }
        ensures kept { (opening : ℕ → List ℕ)
            → IsSafe pool.place (pages_of pool) opening (carried images.now) (length images.now) (D.may_leave device)
            → ((q : ℕ) → q < pages_of pool → view pool (D.seen device) q ≡ opening q)
            → IsKept D.Device opening result }
        ensures over { IsStoreOver device log pool ruling result }
    {
        let mut pool = pool;
        note_images(&mut pool, images);
        Store {
            device,
            log,
            pool,
            ruling,
            settled: LogPos::new(images.len() as u64),
        }
    }
}

// What a kernel has beside its device and its log: pool, escrow, and what operations keep. It is made of the pages
// that a restart restored, before anything is written, so that nothing wants memory afterwards.
ghost use Rattle.std.specs.Prelude.{◌≡◌, ◌≤◌, length, IfOk, IfErr};
ghost use Rattle.mt_base.specs.declared.limits.TheConstants.{MAX_PAGES};
ghost use Rattle.mt_base.specs.declared.refusal.Refusal.{Refusal};
ghost use Rattle.mt_page_rules.specs.Checks.{AreChecked};
ghost use Rattle.mt_restart.specs.Beside.{IsBeside};

use mt_base::Refusal;
use mt_base::limits::MASTER_BYTES;
use mt_escrow::Escrow;
use mt_op::Idle;
use mt_pool::Pool;
use mt_space::pages::COUNTERS;
use mt_steps::base_without_rows;
use std::alloc::Global;

/// What a kernel has beside its device and its log.
#[derive(Drop)]
pub(crate) struct Beside {
    pub(crate) pool: Pool,
    pub(crate) idle: Idle,
    pub(crate) escrow: Escrow,
    pub(crate) relations: u16,
    pub(crate) counters: u16,
}

// Makes what a kernel over these pages has beside its device and its log, with so many frames.
pub(crate) fn beside_of(
    alloc: Global,
    pages: &[[u8; 4096]],
    frames: usize,
) -> Result<Beside, Refusal>
    requires checked { AreChecked pages.now }
    requires few { length pages.now ≤ MAX_PAGES }
    ensures beside { IfOk result (IsBeside pages.now frames) }
    ensures only_memory { IfErr result (λ why. why ≡ Refusal.NoMemory) }
{
    let base = base_without_rows(alloc, &pages[usize::from(COUNTERS)])?;
    let escrow = Escrow::new(alloc, base.counters())?;
    let pool = Pool::new(alloc, frames, pages.len() as u16, MASTER_BYTES)?;
    let idle = Idle::of(alloc, pages)?;
    Ok(Beside {
        pool,
        idle,
        escrow,
        relations: base.relations(),
        counters: base.counters().len() as u16,
    })
}

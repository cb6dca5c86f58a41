// Forces, and room in the frames.
ghost use Rattle.std.specs.Prelude.{◌≡◌, ◌↔◌, Err, IfErr, IsTrue};
ghost use Rattle.mt_base.specs.declared.refusal.Refusal.{Refusal};
ghost use Rattle.mt_txn.specs.Shown.{SameSchema, StaysRestarting};
ghost use Rattle.mt_alone.specs.Driven.{Eases, Fails, HasCommitted, IsForcing, NobodyCommits};

use mt_base::{Refusal, TxnNo};
use mt_disk::Device;
use mt_txn::{FORCE_STEPS, Flushed, Kernel, KernelForced};

/// How often a step that found no memory, or no frame, is asked again.
pub(crate) const ASKED_AGAIN: usize = 8;

/// Whether a step was refused for want of memory.
pub(crate) fn wants_memory<T>(answer: &Result<T, Refusal>) -> bool
    ensures { IsTrue result ↔ (answer.now ≡ Err Refusal.NoMemory) }
{
    matches!(answer, Err(Refusal::NoMemory))
}

/// A force step, asked for again if it finds no memory.
pub(crate) fn ask_force<D: Device>(kernel: &mut Kernel<D>) -> Result<KernelForced, Refusal>
    ensures forcing { IsForcing kernel.old result kernel.new }
    ensures schema { SameSchema kernel.old kernel.new }
    ensures restarts { StaysRestarting kernel.old kernel.new }
{
    for _ in 0..ASKED_AGAIN {
        let answer = kernel.force_step();
        if !wants_memory(&answer) {
            return answer;
        }
    }
    kernel.force_step()
}

/// Makes force steps until a commit is durable. If it is the only one, each step leaves one less.
pub(crate) fn force_commit<D: Device>(kernel: &mut Kernel<D>, txn: TxnNo) -> Result<(), Refusal>
    ensures committed { HasCommitted kernel.old txn result kernel.new }
    ensures schema { SameSchema kernel.old kernel.new }
    ensures restarts { StaysRestarting kernel.old kernel.new }
{
    for _step in 0..FORCE_STEPS {
        match ask_force(kernel)? {
            KernelForced::Durable(named) => {
                if named.contains(&txn) {
                    return Ok(());
                }
            }
            KernelForced::More => {}
            KernelForced::Idle => return Err(Refusal::Busy),
        }
    }
    Err(Refusal::Busy)
}

/// Makes sure that some frame has no page that is yet to be flushed. A page is flushed, and the log is forced before
/// that if each of them waits for it.
pub(crate) fn make_room<D: Device>(kernel: &mut Kernel<D>) -> Result<(), Refusal>
    ensures eases { NobodyCommits kernel.old → Eases kernel.old kernel.new }
    ensures cause { IfErr result (Fails kernel.new) }
    ensures schema { SameSchema kernel.old kernel.new }
    ensures restarts { StaysRestarting kernel.old kernel.new }
{
    for _ in 0..=FORCE_STEPS {
        match kernel.flush_step()? {
            Flushed::Page(_) | Flushed::Clean => return Ok(()),
            Flushed::Force => {
                let _forced = ask_force(kernel)?;
            }
        }
    }
    Ok(())
}

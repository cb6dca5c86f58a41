// Turns the log of a kernel over that stands under the lock, by `rotate` of mt_restart. `locked` alone calls it.
ghost use Rattle.std.specs.Prelude.{◌≡◌, ◌↔◌, Ok, Err, true, false, length, IfOk, IfErr, IsErr, IsOk, IsTrue};
ghost use Rattle.mt_locked.specs.Turns.{IsRotation};
ghost use Rattle.mt_restart.specs.TurnFaults.{IsTurnFault};
ghost use Rattle.mt_restart.specs.declared.standing.Standing.TheVariants.{Stands};
ghost use Rattle.mt_txn.specs.Words.{kernel_book};

use mt_base::Refusal;
use mt_disk::Device;
use mt_restart::{Standing, rotate};
use mt_txn::Kernel;
use std::alloc::Global;

// What a refusal with the kernel comes to. But for these, a transaction is active.
fn answer_to(why: Refusal) -> Result<bool, Refusal>
    ensures why { IfErr result IsTurnFault }
    ensures not { IfOk result (λ did. did ≡ false) }
    ensures fault { IsTurnFault why → IsErr result }
    ensures same { IfErr result (λ answer. answer ≡ why) }
{
    match why {
        Refusal::NoMemory | Refusal::DeviceFailed | Refusal::LogFull => Err(why),
        _ => Ok(false),
    }
}

// Whether a rotation turned the log over.
fn has_turned(outcome: Result<(), Refusal>) -> Result<bool, Refusal>
    ensures why { IfErr result IsTurnFault }
    ensures did { result ≡ Ok true → IsOk outcome }
    ensures so { IsOk outcome → result ≡ Ok true }
    ensures fault { IfErr outcome (λ why. IsTurnFault why → IsErr result) }
    ensures same { IfErr result (λ why. outcome ≡ Err why) }
{
    match outcome {
        Ok(()) => Ok(true),
        Err(why) => answer_to(why),
    }
}

// Whether a kernel's book has just so many commits.
pub(crate) fn has_just<D: Device>(kernel: &Kernel<D>, commits: u64) -> bool
    ensures { IsTrue result ↔ (length (kernel_book kernel.now) ≡ commits) }
{
    kernel.book().len() as u64 == commits
}

// Turns a kernel's log over, if its book has so many commits and no transaction is active; whether it did.
fn turned_over<D: Device + Drop>(
    kernel: Kernel<D>,
    commits: u64,
    alloc: Global,
    frames: usize,
) -> (Standing<D>, Result<bool, Refusal>)
    ensures { IsRotation ⟦<D as Device>⟧ commits frames (Stands kernel) result.0 result.1 }
{
    if kernel.has_failed() {
        return (Standing::Stands(kernel), Err(Refusal::DeviceFailed));
    }
    if !has_just(&kernel, commits) {
        return (Standing::Stands(kernel), Ok(false));
    }
    let (standing, outcome) = rotate(alloc, kernel, frames);
    (standing, has_turned(outcome))
}

// The same of what stands. It is refused with 2 if that is no kernel.
pub(crate) fn turned<D: Device + Drop>(
    standing: Standing<D>,
    at: (u64, Global, usize),
) -> (Standing<D>, Result<bool, Refusal>)
    ensures { IsRotation ⟦<D as Device>⟧ at.0 at.2 standing result.0 result.1 }
{
    let (commits, alloc, frames) = at;
    match standing {
        Standing::Stands(kernel) => turned_over(kernel, commits, alloc, frames),
        Standing::Ended(device) => (Standing::Ended(device), Err(Refusal::DeviceFailed)),
    }
}

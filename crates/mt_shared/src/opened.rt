// A device or a kernel that becomes one which threads share, with an observer and as many passes as are asked for.
ghost use Rattle.std.specs.Prelude.{◌≡◌, ◌<◌, ◌^◌, [], ℕ, List, All, IfOk, IfErr, MatchResult, vec_len};
ghost use Rattle.mt_base.specs.declared.refusal.Refusal.{Refusal};
ghost use Rattle.mt_mark.specs.Legal.{IsLegal};
ghost use Rattle.mt_mark.specs.Rule.{dones};
ghost use Rattle.mt_model.specs.Model.{Base as ModelBase};
ghost use Rattle.mt_model.specs.Views.{base_of};
ghost use Rattle.mt_replay.specs.Stands.{CanRestart};
ghost use Rattle.mt_disk.specs.Disk.{LeavesOnly};
ghost use Rattle.mt_restart.specs.Frames.{IsFrameCount};
ghost use Rattle.mt_restart.specs.Recovered.{StandsStill};
ghost use Rattle.mt_restart.specs.Resumed.{HasTurnedOver, IsRestoredBase};
ghost use Rattle.mt_locked.specs.Began.{BeganOn};
ghost use Rattle.mt_shared.specs.Opens.{HasBegunWith, IsBaseOf, IsJustOpened, IsMarked, IsUnshared};
ghost use Rattle.mt_locked.specs.Seen.{PassSeen};
ghost use Rattle.mt_locked.specs.Whole.{IsNew};
ghost use Rattle.mt_core.specs.Seen.{core_device};
ghost use Rattle.mt_txn.specs.Seen.{seen_of};
ghost use Rattle.mt_txn.specs.Shown.{kernel_frames};
ghost use Rattle.mt_txn.specs.Words.{kernel_book};

use crate::gate::Gate;
use crate::shared::Shared;
use mt_base::Refusal;
use mt_disk::Device;
use mt_frame::slots_are_read_back;
use mt_locked::{Locked, Naming, Pass, passes_of};
use mt_mark::{About, End, Seat};
use mt_model::{Base, Committed};
use mt_restart::open_with_survey;
use mt_txn::Kernel;
use std::alloc::{AllocError, Global};
use std::marker::Model;
use std::snapshot::Snapshot;

/// A kernel with its mark, which has no name yet. Contracts see which mark it is, the kernel, the base that it began
/// on, and its book.
pub struct Opened<D: Device> {
    kernel: Kernel<D>,
    end: End,
    seats: Vec<Seat>,
}

impl<D: Device> Model for Opened<D> {
    ghost use Rattle.std.specs.Prelude.{◌≡◌, ◌+◌, All, vec_len};
    ghost use Rattle.mt_mark.specs.Rule.{labelled, IsConfirmed};
    ghost use Rattle.mt_mark.specs.Held.{Held};
    ghost use Rattle.mt_locked.specs.Began.{BeganOn};
    ghost use Rattle.mt_locked.specs.Seen.{Beside};
    ghost use Rattle.mt_shared.specs.Opens.{OpenedSeen};
    ghost use Rattle.mt_txn.specs.Seen.{seen_of};
    ghost use Rattle.mt_txn.specs.Shown.{kernel_frames};
    ghost use Rattle.mt_txn.specs.Words.{kernel_book};

    ghost Value = { OpenedSeen D };

    ghost view = { λ o. record {
      mark = o.end.mark;
      kernel = seen_of o.kernel;
      base = o.end.view.base;
      book = kernel_book o.kernel;
      frames = kernel_frames o.kernel;
      count = vec_len o.seats;
    } };

    ghost invariant = { λ o. BeganOn o.end.view.base o.kernel × IsConfirmed o.end.view
        × (o.end.view.list ≡ labelled o.end.view.book) × (o.end.view.book ≡ kernel_book o.kernel)
        × All (Beside o.end) o.seats.items × (o.end.view.made ≡ vec_len o.seats + 1) };
}

impl<D: Device> Opened<D> {
    /// A mark beside the kernel, with seats for this many passes. The history begins with the kernel's book. Of the
    /// base that the kernel began on nothing is kept but for contracts; of the book a copy is made, and dropped.
    ///
    /// If memory is short, the kernel comes back as it was.
    pub fn new(
        alloc: Global,
        kernel: Kernel<D>,
        base: &Base,
        count: usize,
    ) -> Result<Opened<D>, Kernel<D>>
        requires count { count < 2 ^ 32 }
        requires began { BeganOn base.now kernel }
        ensures ok { IfOk result (λ o. (o.base ≡ base.now) × (o.book ≡ kernel_book kernel)) }
        ensures many { IfOk result (λ o. o.count ≡ count) }
        ensures frames { IfOk result (λ o. o.frames ≡ kernel_frames kernel) }
        ensures kernel { IfOk result (λ o. o.kernel ≡ seen_of kernel) }
        ensures book { IfErr result (λ k. kernel_book k ≡ kernel_book kernel) }
        ensures began { IfErr result (λ k. BeganOn base.now k) }
        ensures same { IfErr result (λ k. k ≡ kernel) }
    {
        match marked(alloc, base, kernel.book(), count) {
            Ok((end, seats)) => Ok(Opened { kernel, end, seats }),
            Err(_) => Err(kernel),
        }
    }

    /// The same under a name, shared, with as many passes as were asked for. Each has seen the book, in which nothing
    /// is its own. If memory is short, the kernel comes back as it was.
    pub fn named<G: Gate + Drop, J: Naming>(
        self,
        alloc: Global,
        gate: G,
    ) -> Result<(Shared<D, G, J>, Vec<Pass<J>>), Kernel<D>>
        requires name { (self.mark ≡ J.mark) × (self.base ≡ J.base) × (self.book ≡ J.book) }
        ensures passes { IfOk result (λ r. All (λ (p : PassSeen). dones p.seen ≡ self.book) r.1.items) }
        ensures fresh { IfOk result (λ r. All (IsNew J.book) r.1.items) }
        ensures many { IfOk result (λ r. vec_len r.1 ≡ self.count) }
        ensures opened { IfOk result (λ _. HasBegunWith ⟦<D as Device>⟧ self.frames self.base) }
        ensures same { IfErr result (λ k. seen_of k ≡ self.kernel) }
        ensures began { IfErr result (λ k. BeganOn self.base k) }
    {
        let Opened { kernel, end, seats } = self;
        let Ok(passes) = passes_of::<J>(alloc, &end, seats) else {
            return Err(kernel);
        };
        let shared = Shared::over(Locked::over(kernel, end), gate);
        Ok((shared, passes))
    }
}

impl<D: Device + Drop> Opened<D> {
    /// Opens a device with so many pages in frames, 32 to 4096. It makes the mark of its kernel, with a seat for each
    /// of so many passes. The history is empty, and begins on the base that the bytes represented.
    ///
    /// Refused as [`open_with_survey`], and with 1 if the mark finds no memory. A refusal is 2 if and only if the device
    /// failed in this call. Bytes that are not formatted are refused with 3, unless it failed. The device is handed
    /// back, and represents what it did before, unless it failed.
    pub fn open(
        alloc: Global,
        device: D,
        frames: usize,
        count: usize,
    ) -> Result<Opened<D>, (Refusal, D)>
        requires frames { IsFrameCount frames }
        requires count { count < 2 ^ 32 }
        ensures base { IfOk result (λ opened. IsBaseOf (D.seen device) opened.base) }
        ensures first { IfOk result (λ opened. opened.book ≡ []) }
        ensures many { IfOk result (λ opened. opened.count ≡ count) }
        ensures frames { IfOk result (λ opened. opened.frames ≡ frames) }
        // Nothing has happened in its kernel yet: no transaction is active, and it has not failed.
        ensures opened { IfOk result (λ opened. IsJustOpened D.Device (base_of opened.base) opened.kernel) }
        // Of any bytes it begins on the base that the passes of a restart leave in memory.
        ensures restored { IfOk result (λ opened. IsRestoredBase (D.seen device) (base_of opened.base)) }
        // The log turns over once.
        ensures once { IfOk result (λ opened. HasTurnedOver (D.seen device) opened.kernel.core) }
        // Whenever a crash comes in this call, it leaves what it might have left before, or what represents the same.
        ensures moments { (relations counters : ℕ) (b : ModelBase) → CanRestart relations counters (D.seen device) b
            → MatchResult result
            (λ opened. LeavesOnly D.moment D.left_since device (core_device opened.kernel.core)
            (StandsStill D.Device relations counters b device))
            (λ gone. LeavesOnly D.moment D.left_since device gone.1
            (StandsStill D.Device relations counters b device)) }
        ensures refused { IfErr result (λ gone.
            IsUnshared (D.seen device) (D.faults device < D.faults gone.1) gone.0) }
        // Whatever a crash leaves of the device then, it represents what it did before.
        ensures settled { (relations counters : ℕ) (b : ModelBase) → CanRestart relations counters (D.seen device) b
            → IfErr result (λ gone. (gone.0 ≡ Refusal.DeviceFailed → ⊥) → (c : List ℕ) → D.may_leave gone.1 c
            → ∥ CanRestart relations counters c b ∥₁) }
        // The device failed in no call of this one, unless it is refused with 2.
        ensures quiet { MatchResult result (λ opened. D.faults (core_device opened.kernel.core) ≡ D.faults device)
            (λ gone. (gone.0 ≡ Refusal.DeviceFailed → ⊥) → D.faults gone.1 ≡ D.faults device) }
    {
        slots_are_read_back();
        let (kernel, survey) = match open_with_survey(alloc, device, frames) {
            Ok(opened) => opened,
            Err((why, device)) => return Err((why, device)),
        };
        match Opened::new(alloc, kernel, &survey.base, count) {
            Ok(opened) => Ok(opened),
            Err(kernel) => Err((Refusal::NoMemory, kernel.into_device())),
        }
    }
}

// A mark about a kernel that began on this base and has this book, and the seats of so many passes.
fn marked(
    alloc: Global,
    base: &Base,
    book: &[Committed],
    count: usize,
) -> Result<(End, Vec<Seat>), AllocError>
    requires count { count < 2 ^ 32 }
    requires legal { IsLegal base.now book.now }
    ensures { IfOk result (λ r. IsMarked base.now book.now count r.0 r.1.items) }
{
    let copy = copy_of(alloc, book)?;
    let from = copy.len() as u64;
    let about = About {
        base: Snapshot::of(base),
        book: Snapshot::of(&copy),
    };
    mt_mark::new(alloc, &about, from, count)
}

// A copy of a book.
fn copy_of(alloc: Global, book: &[Committed]) -> Result<Vec<Committed>, AllocError>
    ensures { IfOk result (λ copy. copy.items ≡ book.now) }
{
    let mut copy = Vec::with_capacity(alloc, book.len())?;
    for done in book {
        let calls = done.calls.try_clone()?;
        copy.push(Committed {
            session: done.session,
            calls,
        })?;
    }
    Ok(copy)
}

// A device, the log of its area and the pool of its pages, each of which keeps to the others' rules.
ghost use Rattle.std.specs.Prelude.{◌≡◌, ◌≢◌, ◌⊎◌, ◌<◌, ◌≤◌, ◌+◌, ◌++◌, [], ℕ, List, length, take, drop, false, true, OnOk, OnErr, IfOk, IfErr, Ok};
ghost use Rattle.mt_base.specs.declared.limits.TheConstants.{MASTER_BYTES, PAGE_BYTES};
ghost use Rattle.mt_base.specs.Edits.{log_size};
ghost use Rattle.mt_base.specs.declared.refusal.Refusal.{Refusal};
ghost use Rattle.mt_disk.specs.Disk.{Torn, LeavesOnly, HasCause};
ghost use Rattle.mt_log.specs.Area.{TornFrom};
ghost use Rattle.mt_log.specs.Masters.{IsRuling, area_size as size_of, area_start as start_of};
ghost use Rattle.mt_frame.specs.Grammar.{IsRecord, IsOfPage, IsTxn, IsOp};
ghost use Rattle.mt_area_rules.specs.History.{may_stand};
ghost use Rattle.mt_frame.specs.Lengths.{record_length};
ghost use Rattle.mt_disk.specs.Calls.{MakesOneCall};
ghost use Rattle.mt_pool.specs.Reads.{ReadsOnce};
ghost use Rattle.mt_log.specs.Forcing.{ReportsFault};
ghost use Rattle.mt_log.specs.Seen.{with_record};
ghost use Rattle.mt_log.specs.Steps.{ForceSteps};
ghost use Rattle.mt_log.specs.Words.{seen_of, durable, appended, used, area_size};
ghost use Rattle.mt_pool.specs.FlushSteps.{FlushSteps};
ghost use Rattle.mt_pool.specs.Images.{slot};

use crate::{Fetched, Flushed, Pool};
use mt_base::limits::MASTER_BYTES;
use mt_base::{LogPos, OpNo, PageNo, Refusal, TxnNo};
use mt_disk::{Device, DeviceFault};
use mt_frame::{MasterSlot, Record};
use mt_log::{Forced, Log};
use mt_space::PageChange;
use std::alloc::Global;

/// A device with the log of its ruling area and the pool of its pages.
///
/// Each call keeps what contracts call `IsKept`, for the pages as they were when the area began. At every moment of
/// the call whatever a crash leaves explains these pages. The area holds a beginning of the appended records with all
/// durable ones. A page is its first image in them, or else what its slot has.
#[derive(Drop)]
pub struct Store<D: Device> {
    pub device: D,
    pub log: Log,
    pub pool: Pool,
    /// The master slot that rules the device: it names the pages and the log's area.
    pub ruling: MasterSlot,
    /// The place of the last record that is durable, or 0.
    pub settled: LogPos,
}

impl<D: Device> Store<D> {
    ghost use Rattle.mt_space.specs.Changes.{IsShort};
    ghost use Rattle.mt_pool.specs.Kept.{IsOpen, Keeps};
    ghost use Rattle.mt_pool.specs.FetchSteps.{FetchSteps, OnlyMoves};
    ghost use Rattle.mt_pool.specs.Writes.{IsUnfinished};
    ghost use Rattle.mt_pool.specs.WriteSteps.{WriteSteps};
    ghost use Rattle.mt_pool.specs.Views.{AreClean, IsThere, SamePlaces, view, pages, waits_for};
    ghost use Rattle.mt_pool.specs.declared.fetches.Fetched.TheVariants as fetched;
    ghost use Rattle.mt_pool.specs.declared.flushes.Flushed.TheVariants as flushed;

    /// A step of the log's force, as [`Log::force_step`] makes it: at most one device call, and no memory. It answers
    /// [`Forced::Idle`] only if every record is durable.
    ///
    /// The only refusal is [`Refusal::DeviceFailed`], if the device failed in this call or in an earlier force. What
    /// is durable stays.
    pub fn force_step(&mut self) -> Result<Forced, Refusal>
        requires open { IsOpen D.Device self.old self.old.device }
        ensures keeps { Keeps D.Device self.old self.new self.old.device self.new.device }
        ensures once { MakesOneCall D.Device self.old.device self.new.device }
        ensures steps { ForceSteps (seen_of self.old.log) (seen_of self.new.log) result }
        ensures views { (q : ℕ) → q < pages self.old.pool
            → view self.new.pool (D.seen self.new.device) q ≡ view self.old.pool (D.seen self.old.device) q }
        ensures pool { self.new.pool ≡ self.old.pool }
        ensures ruling { self.new.ruling ≡ self.old.ruling }
        ensures cause { ReportsFault D.Device (seen_of self.old.log) self.old.device self.new.device result }
    {
        let forced = self.log.force_step(&mut self.device)?;
        if let Forced::Durable(place) = forced {
            self.settled = place;
        }
        Ok(forced)
    }

    /// Writes one page into its slot, as [`Pool::flush_step`] does, once all its records are durable: at most one
    /// device call, and no memory. The only error is the device's; the pool is as before then, and the slot
    /// may hold anything.
    pub fn flush_step(&mut self) -> Result<Flushed, DeviceFault>
        requires open { IsOpen D.Device self.old self.old.device }
        ensures keeps { Keeps D.Device self.old self.new self.old.device self.new.device }
        ensures once { MakesOneCall D.Device self.old.device self.new.device }
        ensures views { (q : ℕ) → view self.new.pool (D.seen self.new.device) q ≡ view self.old.pool
            (D.seen self.old.device) q }
        ensures log { self.new.log ≡ self.old.log }
        ensures steps { FlushSteps (length (durable self.old.log)) self.old.pool self.new.pool result }
        ensures exact { AreClean self.old.pool → result ≡ Ok flushed.Clean }
        // No call, and a force has something to do then.
        ensures forced { result ≡ Ok flushed.Force → (self.new ≡ self.old)
            × (length (durable self.old.log) < length (appended self.old.log)) }
        ensures cause { HasCause (D.faults self.old.device) (D.faults self.new.device) result }
    {
        self.pool.flush_step(self.settled.get(), &mut self.device)
    }

    /// Brings the page into a frame, as [`Pool::fetch`] does. The only error is the device's, and all views stand
    /// then.
    pub fn fetch(&mut self, page: PageNo) -> Result<Fetched, DeviceFault>
        requires open { IsOpen D.Device self.old self.old.device }
        requires inside { page < pages self.old.pool }
        ensures keeps { Keeps D.Device self.old self.new self.old.device self.new.device }
        ensures reads { ReadsOnce D.Device self.old.device self.new.device }
        ensures views { (q : ℕ) → view self.new.pool (D.seen self.new.device) q ≡ view self.old.pool
            (D.seen self.old.device) q }
        ensures steps { FetchSteps page self.old.pool self.new.pool result }
        ensures moves { OnlyMoves self.old.pool self.new.pool }
        ensures nothing { result ≡ Ok fetched.Flush → self.new ≡ self.old }
        ensures log { self.new.log ≡ self.old.log }
        ensures cause { HasCause (D.faults self.old.device) (D.faults self.new.device) result }
    {
        self.pool.fetch(&mut self.device, page)
    }

    /// Copies a page's bytes as they are, as [`Pool::copy`] does: no frame is taken, and it takes no memory. The only
    /// error is the device's; all views stand then, and `bytes` may hold anything.
    pub fn copy(&mut self, page: PageNo, bytes: &mut [u8; 4096]) -> Result<(), DeviceFault>
        requires open { IsOpen D.Device self.old self.old.device }
        requires inside { page < pages self.old.pool }
        ensures keeps { Keeps D.Device self.old self.new self.old.device self.new.device }
        ensures reads { ReadsOnce D.Device self.old.device self.new.device }
        ensures copied { OnOk result (bytes.new ≡ view self.old.pool (D.seen self.old.device) page) }
        ensures whole { length bytes.new ≡ PAGE_BYTES }
        ensures pool { self.new.pool ≡ self.old.pool }
        ensures log { self.new.log ≡ self.old.log }
        ensures cause { HasCause (D.faults self.old.device) (D.faults self.new.device) result }
    {
        self.pool.copy(&mut self.device, page, bytes)
    }

    /// Puts a page's bytes from before a change back without a record, as [`Pool::restore`] does. It cannot fail.
    pub fn restore(&mut self, page: PageNo, start: usize, before: &[u8])
        requires open { IsOpen D.Device self.old self.old.device }
        requires there { IsThere self.old.pool page }
        requires inside { page < pages self.old.pool }
        requires range { start + length before.now ≤ PAGE_BYTES }
        requires logged { 0 < waits_for self.old.pool page }
        ensures keeps { Keeps D.Device self.old self.new self.old.device self.new.device }
        ensures view { (seen : List ℕ) → view self.new.pool seen page ≡ take start (view self.old.pool seen page)
            ++ before.now ++ drop (start + length before.now) (view self.old.pool seen page) }
        ensures others { (seen : List ℕ) (q : ℕ) → q ≢ page → view self.new.pool seen q ≡ view self.old.pool seen q }
        ensures there { self.new.pool.of_page ≡ self.old.pool.of_page }
        ensures waits { self.new.pool.waits ≡ self.old.pool.waits }
        ensures log { self.new.log ≡ self.old.log }
        ensures device { self.new.device ≡ self.old.device }
    {
        self.pool.restore(page, start, before);
    }

    /// Appends a record that is of no page, as [`Log::append`] does; those of pages come by [`Store::write`]. The
    /// only refusal is [`Refusal::NoMemory`], and nothing is appended then.
    pub fn append(&mut self, entry: Record) -> Result<LogPos, Refusal>
        requires open { IsOpen D.Device self.old self.old.device }
        requires grammar { IsRecord entry }
        requires no_page { IsOfPage entry → ⊥ }
        requires rules { may_stand false (appended self.old.log) entry ≡ true }
        requires fits { used self.old.log + 5 + record_length entry < area_size self.old.log }
        ensures keeps { Keeps D.Device self.old self.new self.old.device self.new.device }
        ensures log { OnOk result (seen_of self.new.log ≡ with_record (seen_of self.old.log) entry) }
        ensures err { OnErr result (seen_of self.new.log ≡ seen_of self.old.log) }
        ensures place { IfOk result (λ place. place ≡ length (appended self.new.log)) }
        ensures only_log { self.new ≡ record self.old { log = self.new.log } }
        ensures only_memory { IfErr result (λ why. why ≡ Refusal.NoMemory) }
    {
        self.log.append(entry)
    }

    /// Writes a change of a page that is in a frame. First comes a log record for each of its ranges, with the page's
    /// old bytes and its new ones. The first of them has the page's image if the area has none yet. Then come the
    /// bytes in the frame. The page waits for the last of these records.
    ///
    /// The only refusal is [`Refusal::NoMemory`], and nothing is appended or written then.
    pub fn write(&mut self, txn: TxnNo, op: OpNo, change: &PageChange) -> Result<(), Refusal>
        requires open { IsOpen D.Device self.old self.old.device }
        requires there { IsThere self.old.pool change.now.page }
        requires inside { change.now.page < pages self.old.pool }
        requires short { IsShort (view self.old.pool (D.seen self.old.device) change.now.page) change.now }
        requires numbers { IsTxn txn × IsOp op }
        requires unfinished { IsUnfinished txn op (appended self.old.log) }
        requires fits { used self.old.log + log_size change.now.edits.items + PAGE_BYTES < area_size self.old.log }
        ensures keeps { Keeps D.Device self.old self.new self.old.device self.new.device }
        ensures others { (seen : List ℕ) (q : ℕ) → q ≢ change.now.page
            → view self.new.pool seen q ≡ view self.old.pool seen q }
        ensures steps { WriteSteps (D.seen self.old.device) txn op change.now self.old.pool self.new.pool
            self.old.log self.new.log result }
        // These records end neither a transaction nor an operation.
        ensures ends_none { (t o : ℕ) → IsUnfinished t o (appended self.old.log)
            → IsUnfinished t o (appended self.new.log) }
        ensures there { SamePlaces self.old.pool self.new.pool }
        ensures device { self.new.device ≡ self.old.device }
    {
        let place = self.pool.append_change(&mut self.log, txn, op, change)?;
        self.pool.change_all(change.page, &change.edits, place);
        Ok(())
    }
}

// The log of one area: records wait in memory for a force, which makes them durable a batch at a time.
// Appending calls no device. The calls of a force are in `forces`.
ghost use Rattle.std.specs.Prelude.{◌≡◌, ◌+◌, ◌-◌, ◌*◌, ◌<◌, ◌≤◌, ◌++◌, ◌∷◌, [], ℕ, true, false, length, map, drop, vec_len, vec_capacity, IfOk, IfErr, OnOk, OnErr, IsOk};
ghost use Rattle.mt_base.specs.declared.limits.TheConstants.{MAX_AREA_MIB, MIB_BYTES};
ghost use Rattle.mt_base.specs.declared.refusal.Refusal.{Refusal};
ghost use Rattle.mt_frame.specs.Grammar.{IsRecord, body_text};
ghost use Rattle.mt_frame.specs.Lengths.{record_length};
ghost use Rattle.mt_frame.specs.PageRecords.{represented};
ghost use Rattle.mt_log.specs.Batch.{joined};
ghost use Rattle.mt_log.specs.Seen.{new_log, with_record};
ghost use Rattle.mt_log.specs.Texts.{IsAtRest, IsUnderWay, PushesText};
ghost use Rattle.mt_log.specs.declared.stage.Stage.TheVariants.{Idle};

use crate::area::AreaPlace;
use crate::stage::Stage;
use mt_base::limits::BATCH_HEAD_BYTES;
use mt_base::{History, LogPos, Refusal};
use mt_frame::{PageRecord, Record, push_page_record, push_record};
use std::alloc::{AllocError, Global};

/// What a step of a force did.
#[derive(Clone, Copy, Debug, PartialEq, Eq)]
pub enum Forced {
    /// A device call of a force, which needs more of them.
    More,
    /// The last call of a force: the records up to this place are durable.
    Durable(LogPos),
    /// Nothing, since every record that was appended is durable.
    Idle,
}

/// The log of one area, from the area's first batch on, which it has no record of.
#[derive(Drop)]
pub struct Log {
    pub(crate) place: AreaPlace,
    /// The gate of the batch that is being forced, or of the next one.
    pub(crate) next: u64,
    /// The gate after that batch.
    pub(crate) behind: u64,
    pub(crate) stage: Stage,
    /// Four bytes, and the texts of the records that wait.
    pub(crate) pending: Vec<u8>,
    /// Length, body and closed gate of the batch that is being forced; else four bytes.
    pub(crate) flight: Vec<u8>,
    /// How many records are in a batch.
    pub(crate) batched: u64,
    pub(crate) waiting_count: u64,
    pub(crate) waiting: History<Record>,
    pub(crate) in_flight: History<Record>,
    pub(crate) batches: History<History<Record>>,
    ghost in_order: { place.start ≤ behind },
    ghost fits: { behind + (5 * waiting_count + vec_len pending) < place.end + 4 },
    ghost head: { 4 ≤ vec_len pending },
    ghost gate_room: { vec_len pending < vec_capacity pending },
    ghost flight_room: { 5 ≤ vec_capacity flight },
    ghost text: { drop 4 pending.items ≡ body_text waiting.items },
    ghost counted: { waiting_count ≡ length waiting.items },
    ghost few_waiting: { waiting_count + 4 ≤ vec_len pending },
    ghost counted_batched: { batched ≡ length (joined (map (λ batch. batch.items) batches.items))
        + length in_flight.items },
    ghost few_batched: { batched + place.start ≤ behind },
    ghost at_rest: { stage ≡ Idle → IsAtRest next behind (vec_len flight) in_flight.items },
    ghost under_way: { (stage ≡ Idle → ⊥) → IsUnderWay next behind flight.items in_flight.items },
}

// Four bytes for a length, with room for a gate after them.
pub(crate) fn head_alone(alloc: Global) -> Result<Vec<u8>, AllocError>
    ensures len { IfOk result (λ text. vec_len text ≡ 4) }
    ensures capacity { IfOk result (λ text. 5 ≤ vec_capacity text) }
{
    let mut text = Vec::from_elem(alloc, 0u8, 4)?;
    text.reserve(1)?;
    Ok(text)
}

// Puts a record's text after the others, and keeps room for a gate after it.
pub(crate) fn push_text(text: &mut Vec<u8>, entry: &Record) -> Result<(), AllocError>
    requires { IsRecord entry.now }
    ensures { PushesText text.old text.new entry.now result }
{
    text.reserve(entry.length() + 1)?;
    push_record(text, entry)
}

// Puts a page record's text there, as `push_text` does.
fn push_page_text(text: &mut Vec<u8>, entry: &PageRecord<'_>) -> Result<(), AllocError>
    requires { IsRecord (represented entry.now) }
    ensures { PushesText text.old text.new (represented entry.now) result }
{
    text.reserve(entry.length() + 1)?;
    push_page_record(text, entry)
}

#[tactic(auto, unfolding(crate::specs::Words::seen_of, crate::specs::Words::room))]
impl Log {
    ghost use Rattle.mt_log.specs.Words.{seen_of, appended, used, area_size, room, has_failed};

    /// The log of an area that has nothing but its first batch, with no record in it. The only refusal
    /// is [`Refusal::NoMemory`].
    pub fn new(alloc: Global, place: AreaPlace) -> Result<Log, Refusal>
        ensures log { IfOk result (λ log. seen_of log ≡ new_log place) }
        ensures only_memory { IfErr result (λ why. why ≡ Refusal.NoMemory) }
    {
        let pending = head_alone(alloc)?;
        let flight = head_alone(alloc)?;
        let next = place.start + BATCH_HEAD_BYTES;
        Ok(Log {
            place,
            next,
            behind: next,
            stage: Stage::Idle,
            pending,
            flight,
            batched: 0,
            waiting_count: 0,
            waiting: History::new(),
            in_flight: History::new(),
            batches: History::new().and(&History::new()),
        })
    }

    /// Whether the device has failed under it.
    pub fn has_failed(&self) -> bool
        ensures { result ≡ has_failed self.now }
    {
        match self.stage {
            Stage::Failed => true,
            Stage::Idle => false,
            Stage::Forcing(_) => false,
        }
    }

    /// The bytes of the area in use. They are those before the place of the next batch. Each record that is in no
    /// batch yet takes 5 more and its own length.
    pub fn used(&self) -> u64
        ensures { result ≡ used self.now }
    {
        self.behind - self.place.start + 5 * self.waiting_count + (self.pending.len() - 4) as u64
    }

    /// The bytes of the area.
    pub fn area_size(&self) -> u64
        ensures size { result ≡ area_size self.now }
        ensures small { result ≤ MAX_AREA_MIB * MIB_BYTES }
    {
        self.place.size()
    }

    /// Makes room for so many bytes of text, so that the records that they are of can be appended
    /// without memory. The only refusal is [`Refusal::NoMemory`], and the log is as before in any case.
    pub fn reserve(&mut self, text: usize) -> Result<(), Refusal>
        requires { text ≤ MAX_AREA_MIB * MIB_BYTES }
        ensures room { OnOk result (text ≤ room self.new) }
        ensures room_kept { room self.old ≤ room self.new }
        ensures same { seen_of self.new ≡ seen_of self.old }
        ensures only_memory { IfErr result (λ why. why ≡ Refusal.NoMemory) }
    {
        self.pending.reserve(text + 1)?;
        Ok(())
    }

    /// Appends a record, which the next force takes along, and answers its place: how many records
    /// have been appended to the area, this one counted. The only refusal is [`Refusal::NoMemory`],
    /// and nothing is appended then; with room for the record's text there is none.
    pub fn append(&mut self, entry: Record) -> Result<LogPos, Refusal>
        requires grammar { IsRecord entry }
        requires fits { used self.old + 5 + record_length entry < area_size self.old }
        ensures log { OnOk result (seen_of self.new ≡ with_record (seen_of self.old) entry) }
        ensures err { OnErr result (seen_of self.new ≡ seen_of self.old) }
        ensures place { IfOk result (λ place. place ≡ length (appended self.new)) }
        ensures room { 0 < record_length entry → record_length entry ≤ room self.old → IsOk result }
        ensures room_left { room self.old ≤ room self.new + record_length entry }
        ensures only_memory { IfErr result (λ why. why ≡ Refusal.NoMemory) }
    {
        push_text(&mut self.pending, &entry)?;
        self.waiting = self.waiting.and(&entry);
        self.waiting_count += 1;
        Ok(LogPos::new(self.batched + self.waiting_count))
    }

    /// Appends the record that the entry represents, as [`Log::append`] does. It takes no memory beyond what the
    /// record's text needs.
    pub fn append_page(&mut self, entry: &PageRecord<'_>) -> Result<LogPos, Refusal>
        requires grammar { IsRecord (represented entry.now) }
        requires fits { used self.old + 5 + record_length (represented entry.now) < area_size self.old }
        ensures log { OnOk result (seen_of self.new ≡ with_record (seen_of self.old) (represented entry.now)) }
        ensures err { OnErr result (seen_of self.new ≡ seen_of self.old) }
        ensures place { IfOk result (λ place. place ≡ length (appended self.new)) }
        ensures room { record_length (represented entry.now) ≤ room self.old → IsOk result }
        ensures room_left { room self.old ≤ room self.new + record_length (represented entry.now) }
        ensures only_memory { IfErr result (λ why. why ≡ Refusal.NoMemory) }
    {
        push_page_text(&mut self.pending, entry)?;
        self.waiting = self.waiting.and_as(entry);
        self.waiting_count += 1;
        Ok(LogPos::new(self.batched + self.waiting_count))
    }
}

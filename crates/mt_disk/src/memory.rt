// A device in memory, with what a crash may leave of it. It is the model of the trait, and a file's copy.
ghost use Rattle.std.specs.Prelude.{◌≡◌, ℕ, ◌+◌, ◌≤◌, ◌++◌, length, vec_len, vec_capacity, IfOk, IsTrue, ◌↔◌, All, replicate};
ghost use Rattle.mt_disk.specs.Unsynced.{Unsynced, IsInside};
ghost use Rattle.mt_disk.specs.Disk.{Wrote};
ghost use Rattle.mt_disk.specs.Crash.{InTurn, front_half, all_bytes};

use crate::{Device, DeviceFault};
use mt_base::History;
use std::alloc::{AllocError, Global};

/// A write that no sync has followed: its range on the device, and where its own bytes stand among
/// those of all such writes.
#[derive(Clone, Copy, Debug)]
pub(crate) struct Write {
    pub(crate) at: usize,
    pub(crate) len: usize,
    pub(crate) from: usize,
}

/// What a crash leaves in the range of each write that no sync has followed.
#[derive(Clone, Copy, Debug, PartialEq, Eq)]
pub enum Fill {
    /// The bytes that stood there before the write.
    Old,
    /// The write's own bytes.
    New,
    /// The first half of the write's own bytes, its length divided by two and rounded down. After
    /// them stand the bytes from before.
    FrontHalf,
    /// This byte at each place.
    Byte(u8),
}

/// What a device in memory holds at one moment.
#[derive(Drop)]
pub(crate) struct State {
    /// What a read returns.
    bytes: Vec<u8>,
    /// What the last sync left.
    synced: Vec<u8>,
    /// The writes since then, the oldest first.
    writes: Vec<Write>,
    /// Their own bytes, one write's after the other's. What a crash may leave of a write can be its bytes, where a
    /// later one has overwritten them.
    written: Vec<u8>,
    /// How many of them there may be, and how many bytes they may have.
    writes_room: usize,
    bytes_room: usize,

    ghost present: { Unsynced synced.items writes.items bytes.items },
    ghost inside: { All (λ w. IsInside w (length bytes.items) (vec_len written)) writes.items },
    ghost writes_used: { vec_len writes ≤ writes_room },
    ghost writes_fit: { writes_room ≤ vec_capacity writes },
    ghost bytes_used: { vec_len written ≤ bytes_room },
    ghost bytes_fit: { bytes_room ≤ vec_capacity written },
}

impl State {
    ghost use Rattle.mt_disk.specs.Memory.{HasRoom, PutsBytes, Settles};
    ghost use Rattle.mt_disk.specs.LeftBy.{LeftInTurn};

    /// Whether one write more of this many bytes fits.
    fn has_room(&self, len: usize) -> bool
        ensures { IsTrue result ↔ HasRoom self.now len }
    {
        self.writes.len() < self.writes_room && len <= self.bytes_room - self.written.len()
    }

    /// Writes, and notes the write.
    fn put(&mut self, at: usize, new: &[u8])
        requires range { at + length new.now ≤ length self.old.bytes.items }
        requires room { HasRoom self.old (length new.now) }
        ensures { PutsBytes self.old self.new at new.now }
    {
        let from = self.written.len();
        append(&mut self.written, new);
        stamp(&mut self.bytes, at, new);
        self.writes.push_reserved(Write {
            at,
            len: new.len(),
            from,
        });
    }

    /// Makes what was written the content of the last sync. It copies the ranges of the writes since
    /// the one before, and no other byte.
    fn settle(&mut self)
        ensures { Settles self.old self.new }
    {
        copy_ranges(
            &mut self.synced,
            self.bytes.as_slice(),
            self.writes.as_slice(),
        );
        self.writes.clear();
        self.written.clear();
    }

    /// The bytes of the last sync, with the first half of each write since then put over them.
    fn fronts(&self, alloc: Global) -> Result<Vec<u8>, AllocError>
        ensures { IfOk result (λ left. LeftInTurn self.now Fill.FrontHalf left.items) }
    {
        let mut left = self.synced.to_vec(alloc)?;
        put_fronts(&mut left, self.writes.as_slice(), self.written.as_slice());
        Ok(left)
    }

    /// The bytes of the last sync, with this byte at each place that was written since then.
    fn blotted(&self, alloc: Global, byte: u8) -> Result<Vec<u8>, AllocError>
        ensures { IfOk result (λ left. LeftInTurn self.now (Fill.Byte byte) left.items) }
    {
        let mut left = self.synced.to_vec(alloc)?;
        blot_ranges(&mut left, self.writes.as_slice(), byte);
        Ok(left)
    }
}

/// Adds these bytes after the others, in room that is there.
fn append(bytes: &mut Vec<u8>, more: &[u8])
    requires { vec_len bytes.old + length more.now ≤ vec_capacity bytes.old }
    ensures items { bytes.new.items ≡ bytes.old.items ++ more.now }
    ensures len { vec_len bytes.new ≡ vec_len bytes.old + length more.now }
    ensures capacity { vec_capacity bytes.old ≤ vec_capacity bytes.new }
{
    match bytes.extend_from_slice(more) {
        Ok(()) => {}
        Err(_) => unreachable!(),
    }
}

/// Puts these bytes at that place.
fn stamp(bytes: &mut Vec<u8>, at: usize, new: &[u8])
    requires { at + length new.now ≤ length bytes.old.items }
    ensures { Wrote at new.now bytes.old.items bytes.new.items }
{
    bytes[at..at + new.len()].copy_from_slice(new);
}

/// Copies each write's range from `bytes`, if the two agree everywhere else.
fn copy_ranges(synced: &mut Vec<u8>, bytes: &[u8], writes: &[Write])
    requires agree { Unsynced synced.old.items writes.now bytes.now }
    requires inside { (n : ℕ) × All (λ w. IsInside w (length bytes.now) n) writes.now }
    ensures { synced.new.items ≡ bytes.now }
{
    for write in writes {
        let end = write.at + write.len;
        stamp(synced, write.at, &bytes[write.at..end]);
    }
}

/// Puts the first half of each write's own bytes at its place, the oldest write first.
fn put_fronts(bytes: &mut Vec<u8>, writes: &[Write], written: &[u8])
    requires { All (λ w. IsInside w (length bytes.old.items) (length written.now)) writes.now }
    ensures { InTurn (front_half written.now) writes.now bytes.old.items bytes.new.items }
{
    for write in writes {
        let end = write.from + write.len / 2;
        stamp(bytes, write.at, &written[write.from..end]);
    }
}

/// Puts this byte at each place of each write's range.
fn blot_ranges(bytes: &mut Vec<u8>, writes: &[Write], byte: u8)
    requires { (n : ℕ) × All (λ w. IsInside w (length bytes.old.items) n) writes.now }
    ensures { InTurn (all_bytes byte) writes.now bytes.old.items bytes.new.items }
{
    for write in writes {
        blot(bytes, write.at, write.len, byte);
    }
}

/// Puts this byte at each of `len` places.
fn blot(bytes: &mut Vec<u8>, at: usize, len: usize, byte: u8)
    requires { at + len ≤ length bytes.old.items }
    ensures { Wrote at (replicate len byte) bytes.old.items bytes.new.items }
{
    bytes[at..at + len].fill(byte);
}

/// A device in memory. It is the model of a device. Until a sync, a crash may leave any bytes in each range that was
/// written since the last one. Outside of them it leaves what that sync left.
///
/// It fails only if a write is one too many. It has room for a number of writes without a sync and for a number of
/// bytes in them, both fixed when it is made. Such a write changes nothing. Reads and syncs never fail. A write costs
/// the copying of its own bytes, a sync that of the bytes written since the last one.
#[derive(Drop)]
pub struct MemDevice {
    state: State,
    past: History<State>,
    failures: History<DeviceFault>,
}

impl MemDevice {
    ghost use Rattle.mt_disk.specs.Disk.{Only};
    ghost use Rattle.mt_disk.specs.Memory.{content, MayLeave, failures_of, writes_left, bytes_left};
    ghost use Rattle.mt_disk.specs.LeftBy.{LeftBy, synced_content};

    /// A device with these bytes, all of them synced, that has not failed. It has room for so many writes without a
    /// sync and for so many bytes in them. The only error is want of memory, and then the bytes are dropped.
    pub fn new(
        alloc: Global,
        bytes: Vec<u8>,
        writes: usize,
        written: usize,
    ) -> Result<MemDevice, AllocError>
        ensures content { IfOk result (λ device. content device ≡ bytes.items) }
        ensures synced { IfOk result (λ device. Only bytes.items (MayLeave device)) }
        ensures failures { IfOk result (λ device. failures_of device ≡ 0) }
        ensures writes { IfOk result (λ device. writes_left device ≡ writes) }
        ensures written { IfOk result (λ device. bytes_left device ≡ written) }
    {
        let synced = bytes.to_vec(alloc)?;
        let state = State {
            bytes,
            synced,
            writes: Vec::with_capacity(alloc, writes)?,
            written: Vec::with_capacity(alloc, written)?,
            writes_room: writes,
            bytes_room: written,
        };
        Ok(MemDevice {
            state,
            past: History::new(),
            failures: History::new(),
        })
    }

    /// The content, as reads return it.
    pub fn bytes(&self) -> &[u8]
        ensures { result.now ≡ content self.now }
    {
        self.state.bytes.as_slice()
    }

    /// The content, with the memory that holds it. What a crash might have left is forgotten.
    pub fn into_bytes(self) -> Vec<u8>
        ensures { result.items ≡ content self }
    {
        let State { bytes, .. } = self.state;
        bytes
    }

    /// One of the contents that a crash may leave now, and the device stays as it is. Over the bytes of
    /// the last sync each write since then, the oldest first, leaves in its range what `fill` says. The
    /// only error is want of memory.
    pub fn crash(&self, alloc: Global, fill: Fill) -> Result<Vec<u8>, AllocError>
        ensures may { IfOk result (λ left. MayLeave self.now left.items) }
        ensures exact { IfOk result (λ left. LeftBy self.now fill left.items) }
        ensures old { fill ≡ Fill.Old → IfOk result (λ left. left.items ≡ synced_content self.now) }
        ensures new { fill ≡ Fill.New → IfOk result (λ left. left.items ≡ content self.now) }
    {
        match fill {
            Fill::Old => self.state.synced.to_vec(alloc),
            Fill::New => self.state.bytes.to_vec(alloc),
            Fill::FrontHalf => self.state.fronts(alloc),
            Fill::Byte(byte) => self.state.blotted(alloc, byte),
        }
    }

    /// Notes a failure.
    fn fail(&mut self) -> DeviceFault
        ensures failures { failures_of self.new ≡ failures_of self.old + 1 }
        ensures rest { (noted : _) × (self.new ≡ record self.old { failures = noted }) }
    {
        self.failures = self.failures.and(&DeviceFault);
        DeviceFault
    }
}

impl Device for MemDevice {
    ghost use Rattle.std.specs.Prelude.{◌<◌, List, ◌-◌, OnOk, OnErr, IsOk};
    ghost use Rattle.std.proofs.Common.{inl};
    ghost use Rattle.mt_disk.specs.Disk.{Has, Only, Follows, Torn, Elapses, HasCause};
    ghost use Rattle.mt_disk.specs.Memory.{MayLeave, failures_of, moment_of, left_by, writes_left, bytes_left, writes_room, bytes_room, content, only_present, same_size};

    ghost seen = { λ m. content m };

    ghost may_leave = { λ m c. MayLeave m c };

    ghost moment = { λ m. moment_of m };

    ghost left_since = { λ m t c. left_by m t c };

    ghost faults = { λ m. failures_of m };

    ghost present = { λ m. m.state.present };

    ghost sized = { λ m c left. same_size m.state c left };

    ghost counts_now = { λ m t c le now. inl now };

    ghost only_now = { λ m c left. only_present m.state m.past.items c left };

    fn len(&self) -> u64 {
        self.state.bytes.len() as u64
    }

    /// Never fails, and leaves the device as it was.
    fn read(&mut self, at: u64, buf: &mut [u8]) -> Result<(), DeviceFault>
        requires { at + length buf.old ≤ length (content self.old) }
        ensures bytes { Has (content self.old) at buf.new }
        ensures succeeds { IsOk result }
        ensures same { self.new ≡ self.old }
    {
        let start = at as usize;
        buf.copy_from_slice(&self.state.bytes[start..start + buf.len()]);
        Ok(())
    }

    /// Fails just if the room is used up, and then changes nothing but the count of failures.
    fn write_at(&mut self, at: u64, bytes: &[u8]) -> Result<(), DeviceFault>
        requires { at + length bytes.now ≤ length (content self.old) }
        ensures written { OnOk result (Wrote at bytes.now (content self.old) (content self.new)) }
        ensures rest { Torn at (length bytes.now) (content self.old) (content self.new) }
        ensures crash { Follows (Torn at (length bytes.now)) (MayLeave self.old) (MayLeave self.new) }

        // Nothing that this write's tear makes of an outcome is left out.
        ensures torn { OnOk result ((c d : List ℕ) → MayLeave self.old d → Torn at (length bytes.now) d c
            → MayLeave self.new c) }
        ensures time { Elapses (moment_of self.old) (moment_of self.new) (left_by self.old) (left_by self.new)
            (MayLeave self.new) }
        ensures cause { HasCause (failures_of self.old) (failures_of self.new) result }

        ensures room { IsOk result ↔ (0 < writes_left self.old) × (length bytes.now ≤ bytes_left self.old) }
        ensures one_fewer { OnOk result (writes_left self.old ≡ writes_left self.new + 1) }
        ensures fewer { OnOk result (bytes_left self.old ≡ bytes_left self.new + length bytes.now) }
        ensures full { OnErr result ((content self.new ≡ content self.old)
            × (writes_left self.new ≡ writes_left self.old) × (bytes_left self.new ≡ bytes_left self.old)) }
    {
        if !self.state.has_room(bytes.len()) {
            return Err(self.fail());
        }
        self.past = self.past.and(&self.state);
        self.state.put(at as usize, bytes);
        Ok(())
    }

    /// Never fails. All of the room is there again.
    fn sync(&mut self) -> Result<(), DeviceFault>
        ensures durable { Only (content self.old) (MayLeave self.new) }
        ensures seen { content self.new ≡ content self.old }
        ensures crash { (c : List ℕ) → MayLeave self.new c → MayLeave self.old c }
        ensures time { Elapses (moment_of self.old) (moment_of self.new) (left_by self.old) (left_by self.new)
            (MayLeave self.new) }
        ensures succeeds { IsOk result }
        ensures quiet { failures_of self.new ≡ failures_of self.old }
        ensures writes { writes_left self.new ≡ writes_room self.old }
        ensures written { bytes_left self.new ≡ bytes_room self.old }
    {
        self.past = self.past.and(&self.state);
        self.state.settle();
        Ok(())
    }
}

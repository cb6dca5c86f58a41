//! The limits of everything that has one, each as a constant or a test. What is past a limit is
//! refused by the call that meets it; nothing is cut.
ghost use Rattle.std.specs.Prelude.{◌≡◌, ◌+◌, ◌*◌, ◌↔◌, ℤ, length, IsTrue};
ghost use Rattle.mt_base.specs.Limits.{IsKey, IsValue, IsStep, IsCounter, IsPageCount, IsAreaSize, IsRelationCount, IsCounterCount, device_bytes_of};

/// Bytes of a page.
pub const PAGE_BYTES: usize = 4096;

/// The fewest pages of a device.
pub const MIN_PAGES: u16 = 16;

/// The most pages of a device.
pub const MAX_PAGES: u16 = 4000;

/// The most bytes of a key; a key has at least one.
pub const MAX_KEY_BYTES: usize = 64;

/// The most bytes of a value; a value may be empty.
pub const MAX_VALUE_BYTES: usize = 3000;

/// The most bytes of a value on a device of format 1.
pub const FIRST_VALUE_BYTES: usize = 1024;

/// The most relations; there is at least one.
pub const MAX_RELATIONS: u16 = 64;

/// The most counters; there may be none.
pub const MAX_COUNTERS: u16 = 128;

/// A counter's bounds lie between minus this and this.
pub const MAX_BOUND: i64 = 1_000_000_000_000_000;

/// The largest size of a step, up or down; the smallest is 1.
pub const MAX_STEP: u64 = 1_000_000_000_000;

/// Transactions that may live at a time.
pub const MAX_LIVE: usize = 64;

/// Operations that a transaction may start.
pub const MAX_OPERATIONS: usize = 256;

/// The smallest log area, in MiB.
pub const MIN_AREA_MIB: u8 = 4;

/// The largest log area, in MiB.
pub const MAX_AREA_MIB: u8 = 64;

/// Bytes of a MiB.
pub const MIB_BYTES: u64 = 1_048_576;

/// The fewest frames of a pool.
pub const MIN_FRAMES: u16 = 32;

/// The most frames of a pool.
pub const MAX_FRAMES: u16 = 4096;

/// The most worker threads of a server; there is at least one.
pub const MAX_WORKERS: usize = 16;

/// The most sessions of a server, and so its scripts and passes; there is at least one.
pub const MAX_SESSIONS: usize = 64;

/// Commits of one opening, the transactions that live counted too.
pub const MAX_COMMITS: usize = 1_000_000;

/// Transactions begun in one opening.
pub const MAX_BEGUN: u64 = 1_099_511_627_776;

/// Pages that one operation may write.
pub const MAX_WRITTEN_PAGES: usize = 8;

/// Lines of a script.
pub const MAX_LINES: usize = 100_000;

/// Bytes of a script's line, its end not counted.
pub const MAX_LINE_BYTES: usize = 4096;

/// The largest epoch of a master slot. A device of this epoch is opened and rotated no more.
pub const MAX_EPOCH: u64 = 9_223_372_036_854_775_808;

/// Bytes of a master slot's fields.
pub const MASTER_SLOT_BYTES: usize = 17;

/// Bytes before the first page slot: a page's bytes for each of the two master slots.
pub const MASTER_BYTES: u64 = 8192;

/// Bytes of a batch's head: its gate and its body's length.
pub const BATCH_HEAD_BYTES: u64 = 5;

/// Bytes of the largest page record: its head, and three times a page for the image, the old bytes
/// and the new ones.
pub const LARGEST_PAGE_RECORD: u64 = 12_312;

/// Bytes of the largest record of an operation's end: its head, and an update's tag, relation, key and two values, with
/// the lengths of these.
pub const LARGEST_OP_END: u64 = 6_096;

/// Log bytes that an operation which may write reserves for itself, and as many again for its
/// inverse: more than the largest operation takes.
pub const OPERATION_LOG_BYTES: u64 = 106_496;

/// Log bytes that a transaction reserves when it begins, for the record that ends it.
pub const TRANSACTION_LOG_BYTES: u64 = 128;

/// Free pages that an insert reserves for itself; its inverse needs none.
pub const INSERT_PAGES: u16 = 3;

/// Free pages that an insert reserves for itself if it may not split a bucket.
pub const UNSPLIT_INSERT_PAGES: u16 = 2;

/// Free pages that an update reserves for itself.
pub const UPDATE_PAGES: u16 = 1;

/// Free pages that an update reserves for its inverse.
pub const UPDATE_INVERSE_PAGES: u16 = 1;

/// Free pages that a delete reserves for its inverse; it needs none itself.
pub const DELETE_INVERSE_PAGES: u16 = 2;

// The largest operation: a record for each page that it may write, its end, and a head for each.
const _: () = prove!(MAX_WRITTEN_PAGES == 8);

const LARGEST_OPERATION: u64 = 8 * LARGEST_PAGE_RECORD + LARGEST_OP_END + 9 * BATCH_HEAD_BYTES;

const _: () = prove!(LARGEST_OP_END as usize == 25 + 7 + MAX_KEY_BYTES + 2 * MAX_VALUE_BYTES);

const _: () = prove!(LARGEST_OPERATION == 104_637 && LARGEST_OPERATION <= OPERATION_LOG_BYTES);

/// Whether a key has a length within its limits: 1 to 64 bytes.
pub fn key_fits(key: &[u8]) -> bool
    ensures { IsTrue result ↔ IsKey key.now }
{
    !key.is_empty() && key.len() <= MAX_KEY_BYTES
}

/// Whether a value has a length within its limit: at most 3000 bytes.
pub fn value_fits(value: &[u8]) -> bool
    ensures { IsTrue result ↔ IsValue value.now }
{
    value.len() <= MAX_VALUE_BYTES
}

/// Whether a step has a size within its limits: 1 to 10^12, up or down.
pub fn step_fits(step: i64) -> bool
    ensures { IsTrue result ↔ IsStep step }
{
    let size = step.unsigned_abs();
    1 <= size && size <= MAX_STEP
}

/// Whether a counter's bounds lie within 10^15 of zero, with its start between them, ends included.
pub fn counter_fits(low: i64, high: i64, start: i64) -> bool
    ensures { IsTrue result ↔ IsCounter low high start }
{
    -MAX_BOUND <= low && low <= start && start <= high && high <= MAX_BOUND
}

/// Whether a device may have this many pages: 16 to 4000.
pub fn page_count_fits(pages: u16) -> bool
    ensures { IsTrue result ↔ IsPageCount pages }
{
    MIN_PAGES <= pages && pages <= MAX_PAGES
}

/// Whether a log area may have this many MiB: 4 to 64.
pub fn area_size_fits(mib: u8) -> bool
    ensures { IsTrue result ↔ IsAreaSize mib }
{
    MIN_AREA_MIB <= mib && mib <= MAX_AREA_MIB
}

/// Whether a schema may have this many relations: 1 to 64.
pub fn relation_count_fits(relations: u16) -> bool
    ensures { IsTrue result ↔ IsRelationCount relations }
{
    1 <= relations && relations <= MAX_RELATIONS
}

/// Whether a schema may have this many counters: at most 128.
pub fn counter_count_fits(counters: usize) -> bool
    ensures { IsTrue result ↔ IsCounterCount counters }
{
    counters <= usize::from(MAX_COUNTERS)
}

/// The bytes of a log area of this many MiB.
pub fn area_bytes(mib: u8) -> u64
    ensures { result ≡ mib * 1048576 }
{
    u64::from(mib) * MIB_BYTES
}

/// The bytes that a device of this many pages and two areas of this many MiB needs.
pub fn device_bytes(pages: u16, mib: u8) -> u64
    ensures { result ≡ device_bytes_of pages mib }
{
    MASTER_BYTES + 4096 * u64::from(pages) + 2 * area_bytes(mib)
}

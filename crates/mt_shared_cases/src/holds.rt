// Others have the lock in the midst of a long operation.
ghost use Rattle.std.specs.Prelude.{◌≡◌};

use crate::kernels::{Memory, Outcome, opened_of, reported_behind, shared_of};
use crate::sessions::{end, run_insert};
use mt_base::{Refusal, RelNo};
use mt_disk::MemDevice;
use mt_model::Op;
use mt_shared::{Naming, Opened, Pass, Txn};
use std::alloc::Global;
use std::marker::Brand;
use std::sync::Wait;
use std::sync::atomic::{AtomicBool, AtomicU64, Ordering};
use std::test::Fail;
use std::thread;
use std::thread::{Threads, join};

/// Transactions that insert rows, and rows of each. Their values are long, so that a scan looks at a hundred pages.
const FILLS: u32 = 20;

const ROWS: u8 = 20;

const VALUE: [u8; 1000] = [b'x'; 1000];

/// The most scans until another had the lock in the midst of one: far more than it takes on a busy machine.
const SCANS: u64 = 20_000;

/// What two threads say to one another: the number of the scan under way, that of the last one in whose midst the lock
/// was had, and whether there are no more.
#[derive(Drop)]
struct Turns {
    scan: AtomicU64,
    had: AtomicU64,
    is_over: AtomicBool,
}

// Inserts the rows of one transaction.
fn run_rows<J: Naming, R: Wait>(
    rt: &R,
    alloc: Global,
    shared: &Memory<J>,
    txn: &mut Txn<J>,
    fill: u32,
) -> Result<(), Refusal> {
    let [first, _, _, _] = fill.to_le_bytes();
    for row in 0..ROWS {
        run_insert(rt, alloc, shared, txn, (&[first, row], &VALUE))?;
    }
    Ok(())
}

// Commits all rows.
fn fill_all<J: Naming, R: Wait>(
    rt: &R,
    alloc: Global,
    shared: &Memory<J>,
    pass: &mut Pass<J>,
) -> Result<(), Refusal> {
    for fill in 0..FILLS {
        let mut txn = shared.begin(rt, alloc, pass, 1)?;
        let ran = run_rows(rt, alloc, shared, &mut txn, fill);
        end(rt, shared, pass, txn);
        ran?;
    }
    Ok(())
}

// Scans all rows in a hold of the lock that has begun before another asks for the lock; whether that had it before the
// scan's end. The hold keeps the lock until then.
fn scans<J: Naming, R: Wait>(
    rt: &R,
    alloc: Global,
    shared: &Memory<J>,
    pass: &mut Pass<J>,
    (turns, number): (&Turns, u64),
) -> Result<bool, Refusal> {
    let mut hold = shared.hold();
    let mut txn = hold.begin(rt, alloc, pass, 1)?;
    turns.scan.store(number, Ordering::SeqCst);
    let ran = hold.run(rt, &mut txn, Op::Scan(RelNo::new(0)));
    let is_had = turns.had.load(Ordering::SeqCst) == number;
    hold.give_back();
    end(rt, shared, pass, txn);
    ran?;
    Ok(is_had)
}

// Scans until another had the lock in the midst of one; whether it had.
fn scan_on<J: Naming, R: Wait>(
    rt: &R,
    alloc: Global,
    shared: &Memory<J>,
    pass: &mut Pass<J>,
    turns: &Turns,
) -> Result<bool, Refusal> {
    fill_all(rt, alloc, shared, pass)?;
    for before in 0..SCANS {
        if scans(rt, alloc, shared, pass, (turns, before + 1))? {
            return Ok(true);
        }
    }
    Ok(false)
}

// Takes the lock in each scan, and says in which it was had.
fn takes<J: Naming, R: Wait>(rt: &R, shared: &Memory<J>, turns: &Turns) {
    for _ in rt.forever() {
        if turns.is_over.load(Ordering::SeqCst) {
            return;
        }
        let scan = turns.scan.load(Ordering::SeqCst);
        if scan != turns.had.load(Ordering::SeqCst) {
            shared.is_half_used(rt);
            turns.had.store(scan, Ordering::SeqCst);
        }
        thread::yield_now();
    }
    unreachable!()
}

// Each in a thread of its own; whether the lock was had in the midst of a scan.
fn both<J: Naming + Send + Sync, R: Threads + Wait + Sync>(
    rt: &R,
    alloc: Global,
    shared: &Memory<J>,
    pass: &mut Pass<J>,
) -> Result<bool, Refusal> {
    let turns = Turns {
        scan: AtomicU64::new(0),
        had: AtomicU64::new(0),
        is_over: AtomicBool::new(false),
    };
    let (is_had, ()) = join(
        rt,
        || {
            let is_had = scan_on(rt, alloc, shared, pass, &turns);
            turns.is_over.store(true, Ordering::SeqCst);
            is_had
        },
        || takes(rt, shared, &turns),
    );
    is_had
}

// The same under a name, and what a survey of the kernel answers after it.
fn named_scans<J: Naming + Send + Sync, R: Threads + Wait + Sync>(
    rt: &R,
    alloc: Global,
    opened: Opened<MemDevice>,
) -> Result<(bool, Outcome), Refusal>
    requires { (opened.mark ≡ J.mark) × (opened.base ≡ J.base) × (opened.book ≡ J.book) }
{
    let (shared, passes) = shared_of::<J>(alloc, opened)?;
    let mut passes = passes;
    let is_had = match passes.as_mut_slice().first_mut() {
        Some(pass) => both(rt, alloc, &shared, pass),
        None => Ok(false),
    };
    let outcome = reported_behind(shared, passes)?;
    Ok((is_had?, outcome))
}

// Of a kernel in memory.
fn scan<R: Threads + Wait + Sync>(rt: &R, alloc: Global) -> Result<(bool, Outcome), Refusal> {
    let opened = opened_of(alloc, 256, &[], 1)?;
    named_scans::<Brand, R>(rt, alloc, opened)
}

/// A thread that keeps the lock gives it back within a scan of a hundred pages, so another has it before the scan's
/// end.
#[test]
fn another_has_the_lock_within_a_long_scan(rt: HostRuntime) -> Result<(), Fail> {
    let (is_had, outcome) = scan(&rt, rt.alloc())?;
    assert!(rt; is_had && outcome.rows == 400);
    Ok(())
}

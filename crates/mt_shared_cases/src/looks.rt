// One thread sees another's commit while its own transaction is open.
ghost use Rattle.std.specs.Prelude.{◌≡◌};

use crate::kernels::{Memory, Outcome, opened_of, reported_behind, shared_of};
use crate::sessions::{end, has_replied, run_insert, take_back};
use mt_base::Refusal;
use mt_disk::MemDevice;
use mt_model::Reply;
use mt_shared::{Naming, Opened, Pass};
use std::alloc::Global;
use std::marker::Brand;
use std::sync::Wait;
use std::sync::atomic::{AtomicBool, AtomicU64, Ordering};
use std::test::Fail;
use std::thread;
use std::thread::Threads;
use std::time::{Clock, Duration};

/// The most turns in which a thread waits for what the other does, each with a pause.
const TURNS: u32 = 10_000;

fn pause<R: Clock>(rt: &R) {
    thread::sleep(rt, Duration::from_millis(1));
}

// Waits for a flag; whether it is up.
fn await_flag<R: Clock>(rt: &R, flag: &AtomicBool) -> bool {
    for _turn in 0..TURNS {
        if flag.load(Ordering::SeqCst) {
            return true;
        }
        pause(rt);
    }
    false
}

// Looks until the history has one commit; whether it has.
fn await_commit<J: Naming, R: Clock>(rt: &R, shared: &Memory<J>, pass: &mut Pass<J>) -> bool {
    for _turn in 0..TURNS {
        if shared.look(pass) == 1 {
            return true;
        }
        pause(rt);
    }
    false
}

// Inserts a row, says so, looks until another has committed, and commits; its place, or 0 if it saw no commit.
fn first<J: Naming, R: Wait + Clock>(
    rt: &R,
    alloc: Global,
    shared: &Memory<J>,
    pass: &mut Pass<J>,
    inserted: &AtomicBool,
) -> u64 {
    let Ok(mut txn) = shared.begin(rt, alloc, pass, 1) else {
        return 0;
    };
    let ran = run_insert(rt, alloc, shared, &mut txn, (b"a", b"x"));
    let is_done = ran.is_ok() && has_replied(&txn, &Reply::Done);
    inserted.store(true, Ordering::SeqCst);
    let saw = await_commit(rt, shared, pass);
    let place = end(rt, shared, pass, txn);
    if is_done && saw { place } else { 0 }
}

// Once the other has inserted its row, inserts one too and commits; its place, or 0.
fn second<J: Naming, R: Wait + Clock>(
    rt: &R,
    alloc: Global,
    shared: &Memory<J>,
    pass: &mut Pass<J>,
    inserted: &AtomicBool,
) -> u64 {
    if !await_flag(rt, inserted) {
        return 0;
    }
    let Ok(mut txn) = shared.begin(rt, alloc, pass, 2) else {
        return 0;
    };
    match run_insert(rt, alloc, shared, &mut txn, (b"b", b"y")) {
        Ok(()) => end(rt, shared, pass, txn),
        Err(_) => {
            take_back(rt, shared, pass, txn);
            0
        }
    }
}

// Each in a thread of its own. Their places.
fn both<J: Naming + Send + Sync, R: Threads + Wait + Clock + Sync>(
    rt: &R,
    alloc: Global,
    shared: &Memory<J>,
    passes: &mut [Pass<J>],
) -> (u64, u64) {
    let inserted = AtomicBool::new(false);
    let (one, two) = (AtomicU64::new(0), AtomicU64::new(0));
    thread::for_each_mut(
        rt,
        passes,
        2,
        &|which, pass| {
            if which == 0 {
                one.store(first(rt, alloc, shared, pass, &inserted), Ordering::SeqCst);
            } else {
                two.store(second(rt, alloc, shared, pass, &inserted), Ordering::SeqCst);
            }
        },
    );
    (one.load(Ordering::SeqCst), two.load(Ordering::SeqCst))
}

// The same under a name, and what a survey of the kernel answers after it.
fn named_looks<J: Naming + Send + Sync, R: Threads + Wait + Clock + Sync>(
    rt: &R,
    alloc: Global,
    opened: Opened<MemDevice>,
) -> Result<((u64, u64), Outcome), Refusal>
    requires { (opened.mark ≡ J.mark) × (opened.base ≡ J.base) × (opened.book ≡ J.book) }
{
    let (shared, passes) = shared_of::<J>(alloc, opened)?;
    let mut passes = passes;
    let places = both(rt, alloc, &shared, passes.as_mut_slice());
    Ok((places, reported_behind(shared, passes)?))
}

// Of a kernel in memory.
fn look_on<R: Threads + Wait + Clock + Sync>(
    rt: &R,
    alloc: Global,
) -> Result<((u64, u64), Outcome), Refusal> {
    let opened = opened_of(alloc, 64, &[(0, 10, 5)], 2)?;
    named_looks::<Brand, R>(rt, alloc, opened)
}

/// A thread that has inserted a row sees the other's commit, at place 1, before it commits, at place 2.
#[test]
fn a_look_shows_the_other_commit(rt: HostRuntime) -> Result<(), Fail> {
    let ((first, second), outcome) = look_on(&rt, rt.alloc())?;
    assert!(rt; first == 2 && second == 1 && outcome.commits == 2 && outcome.rows == 2);
    Ok(())
}

// When a close is refused: if a pass is missing, or has a transaction.
ghost use Rattle.std.specs.Prelude.{◌≡◌};

use crate::kernels::{Memory, Outcome, give_up, opened_of, reported_behind, shared_of};
use crate::sessions::take_back;
use mt_base::Refusal;
use mt_disk::MemDevice;
use mt_shared::{Closed, Naming, Opened, Pass, Txn};
use std::alloc::Global;
use std::marker::Brand;
use std::sync::Wait;
use std::test::Fail;

// Comes to no end, since a token is spent by a commit or an abort alone. The test fails then.
fn hang<J: Naming, R: Wait>(rt: &R, _txn: Txn<J>) -> ! {
    for _ in rt.forever() {}
    unreachable!()
}

// A transaction of the first of these passes.
fn begun<J: Naming, R: Wait>(
    rt: &R,
    alloc: Global,
    shared: &Memory<J>,
    passes: &mut [Pass<J>],
) -> Result<Txn<J>, Refusal> {
    match passes.first_mut() {
        Some(pass) => shared.begin(rt, alloc, pass, 1),
        None => Err(Refusal::Stranger),
    }
}

// Takes it back.
fn undo<J: Naming, R: Wait>(rt: &R, shared: &Memory<J>, passes: &mut [Pass<J>], txn: Txn<J>) {
    match passes.first_mut() {
        Some(pass) => take_back(rt, shared, pass, txn),
        None => hang(rt, txn),
    }
}

// A close without any of the passes: what it is refused with, and what is shared.
fn without_passes<J: Naming>(
    alloc: Global,
    shared: Memory<J>,
) -> Result<(Refusal, Memory<J>), Refusal> {
    match shared.close(Vec::new(alloc)) {
        Ok(kernel) => {
            let _device = kernel.into_device();
            Err(Refusal::BadLength)
        }
        Err(closed) => {
            let Closed {
                why,
                shared,
                passes: _,
            } = closed;
            Ok((why, shared))
        }
    }
}

// A close while a transaction is open: what it is refused with, and what a survey of the kernel answers once the
// transaction is taken back.
fn with_open<J: Naming, R: Wait>(
    rt: &R,
    shared: Memory<J>,
    passes: Vec<Pass<J>>,
    txn: Txn<J>,
) -> Result<(Refusal, Outcome), Refusal> {
    match shared.close(passes) {
        Ok(kernel) => {
            let _device = kernel.into_device();
            hang(rt, txn)
        }
        Err(closed) => {
            let Closed {
                why,
                shared,
                passes,
            } = closed;
            let mut passes = passes;
            undo(rt, &shared, passes.as_mut_slice(), txn);
            Ok((why, reported_behind(shared, passes)?))
        }
    }
}

// What the two are refused with, under a name, and what a survey of the kernel answers at last.
fn named_closes<J: Naming, R: Wait>(
    rt: &R,
    alloc: Global,
    opened: Opened<MemDevice>,
) -> Result<([Refusal; 2], Outcome), Refusal>
    requires { (opened.mark ≡ J.mark) × (opened.base ≡ J.base) × (opened.book ≡ J.book) }
{
    let (shared, passes) = shared_of::<J>(alloc, opened)?;
    let mut passes = passes;
    let (missing, shared) = without_passes(alloc, shared)?;
    match begun(rt, alloc, &shared, passes.as_mut_slice()) {
        Ok(txn) => {
            let (busy, outcome) = with_open(rt, shared, passes, txn)?;
            Ok(([missing, busy], outcome))
        }
        Err(why) => {
            give_up(shared);
            Err(why)
        }
    }
}

// Of a kernel in memory.
fn close<R: Wait>(rt: &R, alloc: Global) -> Result<([Refusal; 2], Outcome), Refusal> {
    let opened = opened_of(alloc, 64, &[(0, 10, 0)], 2)?;
    named_closes::<Brand, R>(rt, alloc, opened)
}

/// It is refused with 15 without the passes, and with 16 while one of them has a transaction. With all of them, and no
/// transaction, it is not refused.
#[test]
fn a_close_is_refused_for_a_pass_alone(rt: HostRuntime) -> Result<(), Fail> {
    let (refused, outcome) = close(&rt, rt.alloc())?;
    assert!(rt; refused == [Refusal::Stranger, Refusal::Busy] && outcome.commits == 0);
    Ok(())
}

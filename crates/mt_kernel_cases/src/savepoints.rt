// Transactions that go back to savepoints, over a counter from 0 to 10 that starts at 5.
use mt_base::{Refusal, TxnNo};
use mt_disk::MemDevice;
use mt_test_kit::devices::{
    FILLS, crashed, empty_device, inspected, kernel_over, put_away, recovered,
};
use mt_test_kit::kernel_rows::{Ask, Row, asked, first_other};
use mt_test_kit::whole_operations::{Outcome, kernel_of};
use mt_txn::{Flushed, Kernel, KernelForced};
use std::alloc::Global;
use std::test::Fail;

const COUNTERS: [(i64, i64, i64); 1] = [(0, 10, 5)];

// ---- crashes

/// A transaction before it goes back.
const BEFORE: [Row; 6] = [
    (1, Ask::Begin, Outcome::Number(1)),
    (1, Ask::Insert(b'a', b"x"), Outcome::Done),
    (1, Ask::Save, Outcome::Number(1)),
    (1, Ask::Add(2), Outcome::Done),
    (1, Ask::Insert(b'b', b"y"), Outcome::Done),
    (1, Ask::Save, Outcome::Number(3)),
];

/// What a device holds on which nothing was committed.
const EMPTY: &[u8] = b" 5";

// Makes each record durable, and writes each page into its slot. Whether it came to an end.
fn settled(kernel: &mut Kernel<MemDevice>) -> Result<bool, Refusal> {
    for _call in 0..1000u16 {
        let is_forced = matches!(kernel.force_step()?, KernelForced::Idle);
        if is_forced && kernel.flush_step()? == Flushed::Clean {
            return Ok(true);
        }
    }
    Ok(false)
}

// Goes back for so many steps, and settles if that is asked for. It answers what the last step did.
fn gone_back(
    alloc: Global,
    kernel: &mut Kernel<MemDevice>,
    steps: u16,
    settles: bool,
) -> Result<Outcome, Refusal> {
    if first_other(alloc, kernel, &BEFORE)?.is_some() {
        return Ok(Outcome::Stuck);
    }
    let txn = TxnNo::new(1);
    let mut outcome = asked(alloc, kernel, txn, &Ask::BackBegin(1))?;
    for _step in 0..steps {
        outcome = asked(alloc, kernel, txn, &Ask::BackStep)?;
    }
    if settles && !settled(kernel)? {
        return Ok(Outcome::Stuck);
    }
    Ok(outcome)
}

// Whether each of five crashes leaves nothing, before it is opened and after that.
fn leaves_nothing(alloc: Global, device: &MemDevice) -> Result<bool, Refusal> {
    for fill in FILLS {
        let mut left = crashed(alloc, device, fill)?;
        let is_empty = inspected(alloc, &mut left)?.as_slice() == EMPTY;
        let (refused, mut left) = recovered(alloc, left);
        let stays = inspected(alloc, &mut left)?.as_slice() == EMPTY;
        if !is_empty || refused.is_some() || !stays {
            return Ok(false);
        }
    }
    Ok(true)
}

// After how many steps a transaction has gone back, if crashes leave nothing after each of them and before the first.
fn steps_back(alloc: Global, settles: bool) -> Result<Option<u16>, Refusal> {
    for steps in 0..1000u16 {
        let mut kernel = kernel_over(alloc, empty_device(alloc, 64)?)?;
        let outcome = gone_back(alloc, &mut kernel, steps, settles);
        let device = kernel.into_device();
        if !leaves_nothing(alloc, &device)? {
            return Ok(None);
        }
        match outcome? {
            Outcome::Started | Outcome::Went => {}
            Outcome::Ended => return Ok(Some(steps)),
            _ => return Ok(None),
        }
    }
    Ok(None)
}

/// A force or a flush changes nothing of the steps.
#[test]
fn a_crash_leaves_nothing_of_who_goes_back(rt: HostRuntime) -> Result<(), Fail> {
    let steps = steps_back(rt.alloc(), false)?;
    let settled_steps = steps_back(rt.alloc(), true)?;
    assert!(rt; steps.is_some() && steps == settled_steps);
    Ok(())
}

// ---- aborts

/// A transaction that begins to go back over a row that takes most of a page.
const LARGE: [Row; 4] = [
    (1, Ask::Begin, Outcome::Number(1)),
    (1, Ask::Add(2), Outcome::Done),
    (1, Ask::Fill(b'a', 3000), Outcome::Done),
    (1, Ask::BackBegin(0), Outcome::Started),
];

/// Its abort, and what another one finds then.
const GIVEN_UP: [Row; 5] = [
    (1, Ask::Abort, Outcome::Ended),
    (2, Ask::Begin, Outcome::Number(2)),
    (2, Ask::Get(b'a'), Outcome::Missing),
    (2, Ask::Read, Outcome::Value(5)),
    (2, Ask::Abort, Outcome::Ended),
];

// Goes back for so many steps and aborts: what the last step answered, if all else is answered as is due.
fn given_up(alloc: Global, kernel: &mut Kernel<MemDevice>, steps: u16) -> Result<Outcome, Refusal> {
    let before = first_other(alloc, kernel, &LARGE)?;
    let mut outcome = Outcome::Started;
    for _step in 0..steps {
        outcome = asked(alloc, kernel, TxnNo::new(1), &Ask::BackStep)?;
    }
    let after = first_other(alloc, kernel, &GIVEN_UP)?;
    if before.is_some() || after.is_some() || !kernel.book().is_empty() {
        return Ok(Outcome::Stuck);
    }
    Ok(outcome)
}

// Does so after no step, after one, and so on, up to the end: after how many steps that comes, and what the last one
// answered.
fn given_up_in_turn(alloc: Global) -> Result<(u16, Outcome), Refusal> {
    for steps in 0..1000u16 {
        let mut kernel = kernel_of(alloc, 16, 4, 32, &COUNTERS)?;
        let outcome = given_up(alloc, &mut kernel, steps);
        put_away(kernel);
        match outcome? {
            Outcome::Started | Outcome::Went => {}
            other => return Ok((steps, other)),
        }
    }
    Ok((1000, Outcome::Stuck))
}

/// Each of the two inverses takes three steps at least: it begins, writes a page, and ends. The last step is the end.
#[test]
fn an_abort_ends_what_goes_back(rt: HostRuntime) -> Result<(), Fail> {
    let (steps, outcome) = given_up_in_turn(rt.alloc())?;
    assert!(rt; 6 < steps && outcome == Outcome::Ended);
    Ok(())
}

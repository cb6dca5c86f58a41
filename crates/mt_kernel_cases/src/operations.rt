// An operation that splits a bucket: taken back after each of its steps, and over refused memory.
use mt_base::{Bytes, Refusal, RelNo, TxnNo};
use mt_disk::MemDevice;
use mt_model::{Base, Op, Row};
use mt_test_kit::devices::put_away;
use mt_test_kit::whole_operations::{Outcome, aborted, called, committed, kernel_of, run, stepped};
use mt_txn::{Kernel, Survey};
use std::alloc::Global;
use std::test::Fail;

/// Low bound, high bound and start of each counter.
const COUNTERS: [(i64, i64, i64); 2] = [(-1000, 1000, 0), (0, 1_000_000_000_000, 5)];

// ---- an insert that splits

// The insert of the key of a number; 58 of them fill the only bucket.
fn insert_of(alloc: Global, number: u8) -> Result<Op, Refusal> {
    let key = Bytes::copy_of(alloc, &[number, 7])?;
    let value = Bytes::copy_of(alloc, b"v")?;
    Ok(Op::Insert(RelNo::new(0), key, value))
}

// Commits the first 58 keys, each in a transaction of its own: how the last one ends.
fn fill(alloc: Global, kernel: &mut Kernel<MemDevice>) -> Result<Outcome, Refusal> {
    let mut outcome = Outcome::Stuck;
    for number in 0..58u8 {
        let txn = kernel.begin(1)?;
        let _done = run(kernel, txn, insert_of(alloc, number)?);
        outcome = committed(kernel, txn);
    }
    Ok(outcome)
}

// Calls the insert of key 58, makes so many steps of it, and aborts it: what it answered last.
fn give_up_behind(
    alloc: Global,
    kernel: &mut Kernel<MemDevice>,
    steps: u8,
) -> Result<Outcome, Refusal> {
    let txn = kernel.begin(1)?;
    let mut outcome = called(kernel, txn, &insert_of(alloc, 58)?);
    for _step in 0..steps {
        outcome = stepped(kernel, txn);
    }
    let _aborted = aborted(kernel, txn);
    Ok(outcome)
}

fn is_same_row(first: &Row, second: &Row) -> bool {
    first.relation == second.relation && first.key == second.key && first.value == second.value
}

// Whether the two have the same rows.
fn are_same_rows(first: &[Row], second: &[Row]) -> bool {
    if first.len() != second.len() {
        return false;
    }
    for (row, other) in first.iter().zip(second) {
        if !is_same_row(row, other) {
            return false;
        }
    }
    true
}

// Whether the two have the same rows and the same counters.
fn is_same_base(first: &Base, second: &Base) -> bool {
    are_same_rows(first.rows(), second.rows()) && first.counters() == second.counters()
}

// Whether a kernel's pages hold the base and as many free pages as at a survey, and the directory has its depth.
fn is_as_at(kernel: &mut Kernel<MemDevice>, before: &Survey) -> Result<bool, Refusal> {
    let now = kernel.survey()?;
    let same = is_same_base(&now.base, &before.base);
    Ok(same && now.depth == before.depth && now.free == before.free)
}

// Gives the insert of key 58 up after no step, after one, and so on, until it has replied. It answers after how many
// it has, and whether all was as before each time until then.
fn give_up_in_turn(alloc: Global, kernel: &mut Kernel<MemDevice>) -> Result<(u8, bool), Refusal> {
    let before = kernel.survey()?;
    let mut are = true;
    for steps in 0..40u8 {
        let outcome = give_up_behind(alloc, kernel, steps)?;
        if outcome == Outcome::Done {
            return Ok((steps, are));
        }
        are = are && is_as_at(kernel, &before)?;
    }
    Ok((40, are))
}

/// It locks the directory to read and then to write, the bucket, the page of the record, the map and the new bucket.
/// It writes each of the five, and ends.
#[test]
fn a_split_is_taken_back_behind_each_step(rt: HostRuntime) -> Result<(), Fail> {
    let mut kernel = kernel_of(rt.alloc(), 64, 4, 64, &COUNTERS)?;
    let filled = fill(rt.alloc(), &mut kernel);
    let outcome = give_up_in_turn(rt.alloc(), &mut kernel);
    put_away(kernel);
    assert!(rt; filled? == Outcome::Committed(58) && outcome? == (12, true));
    Ok(())
}

const NO_MEMORY: Outcome = Outcome::Refused(Refusal::NoMemory);

// Calls the insert of key 58, once more if memory was refused.
fn call_again(
    alloc: Global,
    kernel: &mut Kernel<MemDevice>,
    txn: TxnNo,
) -> Result<Outcome, Refusal> {
    match called(kernel, txn, &insert_of(alloc, 58)?) {
        NO_MEMORY => Ok(called(kernel, txn, &insert_of(alloc, 58)?)),
        other => Ok(other),
    }
}

// Makes the insert of key 58, and goes on if memory was refused.
fn insert_over_refusals(alloc: Global, kernel: &mut Kernel<MemDevice>) -> Result<Outcome, Refusal> {
    let txn = kernel.begin(1)?;
    let mut outcome = call_again(alloc, kernel, txn)?;
    for _step in 0..40u8 {
        match outcome {
            Outcome::Started | Outcome::Went | NO_MEMORY => {}
            other => return Ok(other),
        }
        outcome = stepped(kernel, txn);
    }
    Ok(outcome)
}

// With an allocation refused in it (`rt try --test --fail-alloc N`) it shows that a refused step is made when it is
// asked for again.
#[test]
fn a_split_goes_where_memory_was_refused(rt: HostRuntime) -> Result<(), Fail> {
    let mut kernel = kernel_of(rt.alloc(), 64, 4, 64, &COUNTERS)?;
    let filled = fill(rt.alloc(), &mut kernel);
    let outcome = insert_over_refusals(rt.alloc(), &mut kernel);
    put_away(kernel);
    assert!(rt; filled? == Outcome::Committed(58) && outcome? == Outcome::Done);
    Ok(())
}

// Each beginning of a device, with zeros after it. An inspection answers it with a base, that there is no format, or
// with a place where a rule is broken.
use mt_base::Refusal;
use mt_disk::{Fill, MemDevice};
use mt_restart::inspect;
use mt_test_kit::devices::{device_of, log_end, put, row_schema};
use mt_test_kit::events::{A_ROW, events_of};
use mt_world::crash_run;
use std::alloc::Global;
use std::test::Fail;

/// How often an inspection answered with a base, that there is no format, that a rule is broken, and anything else.
#[derive(Clone, Copy, PartialEq, Eq, Debug)]
struct Tally {
    bases: u32,
    unformatted: u32,
    broken: u32,
    others: u32,
}

const NONE: Tally = Tally {
    bases: 0,
    unformatted: 0,
    broken: 0,
    others: 0,
};

// Inspects a device, and counts the answer.
fn count(alloc: Global, device: &mut MemDevice, tally: &mut Tally) {
    match inspect(alloc, device) {
        Ok(_survey) => tally.bases = tally.bases.saturating_add(1),
        Err(Refusal::NotFormatted) => tally.unformatted = tally.unformatted.saturating_add(1),
        Err(Refusal::BadFormat(_)) => tally.broken = tally.broken.saturating_add(1),
        Err(_) => tally.others = tally.others.saturating_add(1),
    }
}

// A device of 64 pages on which a row was committed.
fn with_a_row(alloc: Global) -> Result<MemDevice, Refusal> {
    let events = events_of(alloc, &A_ROW)?;
    let run = crash_run(
        alloc,
        &row_schema(alloc, 64)?,
        events.as_slice(),
        1000,
        Fill::New,
    )?;
    Ok(device_of(alloc, run.content)?)
}

// Makes the bytes from `from` on zero, the last one before `to` first, and counts what an inspection answers each
// time.
fn cut_down(
    alloc: Global,
    device: &mut MemDevice,
    from: usize,
    to: usize,
    tally: &mut Tally,
) -> Result<(), Refusal> {
    for at in (from..to).rev() {
        put(device, at, &[0])?;
        count(alloc, device, tally);
    }
    Ok(())
}

// Makes bytes zero.
fn wipe(alloc: Global, device: &mut MemDevice, from: usize, to: usize) -> Result<(), Refusal> {
    let zeros = vec![in alloc; 0u8; to.saturating_sub(from)]?;
    put(device, from, zeros.as_slice())
}

/// Where the ruling area begins: an opening leaves the second one.
const AREA: usize = 4_464_640;

// Cuts a device of 64 pages at each byte of its ruling area's batches and of its master slots, from the end on.
fn cut_each(alloc: Global, device: &mut MemDevice) -> Result<Tally, Refusal> {
    let mut tally = NONE;
    let end = log_end(device, AREA);
    count(alloc, device, &mut tally);
    cut_down(alloc, device, AREA, end, &mut tally)?;
    wipe(alloc, device, 4113, AREA)?;
    cut_down(alloc, device, 4096, 4113, &mut tally)?;
    wipe(alloc, device, 17, 4096)?;
    cut_down(alloc, device, 0, 17, &mut tally)?;
    Ok(tally)
}

fn cuts(alloc: Global) -> Result<Tally, Refusal> {
    let mut device = with_a_row(alloc)?;
    cut_each(alloc, &mut device)
}

// The whole content has a base. So has each cut from the second-last byte of the second batch's length back to the
// byte after the empty first batch's gate. That is a batch of no bytes, or none. The batches have 12,511 bytes, and
// each slot 17.
const CUTS: Tally = Tally {
    bases: 9,
    unformatted: 1,
    broken: 12_511 + 17 + 17 + 1 - 9 - 1,
    others: 0,
};

/// Only if nothing is left is no slot open.
#[test]
fn each_beginning_of_a_device_is_answered(rt: HostRuntime) -> Result<(), Fail> {
    let outcome = cuts(rt.alloc())?;
    assert!(rt; outcome == CUTS);
    Ok(())
}

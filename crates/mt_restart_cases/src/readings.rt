// How often a report, a check and a survey call the device, which they only read: each of their calls fails in turn.
use mt_base::Refusal;
use mt_disk::{FaultDevice, Fill, MemDevice};
use mt_restart::{check, open, report};
use mt_test_kit::devices::{device_of, put_away, row_schema};
use mt_test_kit::events::{FOUR_TRANSACTIONS, events_of};
use mt_world::crash_run;
use std::alloc::Global;
use std::test::Fail;

/// Calls of an opening of what four transactions leave.
const OPENING: u64 = 48;

/// A device that fails from a call on.
type Failing = FaultDevice<MemDevice>;

// What four transactions leave.
fn content(alloc: Global) -> Result<Vec<u8>, Refusal> {
    let events = events_of(alloc, &FOUR_TRANSACTIONS)?;
    let run = crash_run(
        alloc,
        &row_schema(alloc, 16)?,
        events.as_slice(),
        1000,
        Fill::New,
    )?;
    Ok(run.content)
}

// A reading of a device that is of no use but for its refusal.
fn checked(alloc: Global, device: &mut Failing) -> Result<(), Refusal> {
    check(alloc, device)?;
    Ok(())
}

fn reported(alloc: Global, device: &mut Failing) -> Result<(), Refusal> {
    report(alloc, device)?;
    Ok(())
}

// Whether a call went well, or its device failed. What else it was refused with is answered.
fn went_well(outcome: Result<(), Refusal>) -> Result<bool, Refusal> {
    match outcome {
        Ok(()) => Ok(true),
        Err(Refusal::DeviceFailed) => Ok(false),
        Err(why) => Err(why),
    }
}

// How many calls a check makes, or a report.
fn calls_of(alloc: Global, is_check: bool) -> Result<u64, Refusal> {
    let mut device = device_of(alloc, content(alloc)?)?;
    for calls in 0..1000u64 {
        let mut failing = FaultDevice::new(device, calls + 1);
        let outcome = if is_check {
            checked(alloc, &mut failing)
        } else {
            reported(alloc, &mut failing)
        };
        if went_well(outcome)? {
            return Ok(calls);
        }
        device = failing.into_inner();
    }
    Err(Refusal::Busy)
}

// What a survey answers after an opening, over a device that fails at its n-th call. The kernel is dropped.
fn surveyed(alloc: Global, bytes: &[u8], n: u64) -> Result<(), Refusal> {
    let device = device_of(alloc, bytes.to_vec(alloc)?)?;
    let mut kernel = match open(alloc, FaultDevice::new(device, n), 64) {
        Ok(kernel) => kernel,
        Err((_why, _device)) => return Err(Refusal::Busy),
    };
    let outcome = kernel.survey();
    put_away(kernel);
    outcome?;
    Ok(())
}

// How many calls a survey makes after an opening.
fn calls_of_survey(alloc: Global) -> Result<u64, Refusal> {
    let bytes = content(alloc)?;
    for calls in 0..1000u64 {
        if went_well(surveyed(alloc, bytes.as_slice(), OPENING + calls + 1))? {
            return Ok(calls);
        }
    }
    Err(Refusal::Busy)
}

/// Both slots are read, and the log once: three reads for each of four batches, and one after them. A check reads the
/// slots of the twelve pages of which the log has no image, too.
#[test]
fn a_check_reads_the_log_once(rt: HostRuntime) -> Result<(), Fail> {
    let (report, check) = (calls_of(rt.alloc(), false)?, calls_of(rt.alloc(), true)?);
    assert!(rt; report == 15 && check == 27);
    Ok(())
}

/// It reads the directory, the counters and the page of records.
#[test]
fn a_survey_reads_each_page_of_records_once(rt: HostRuntime) -> Result<(), Fail> {
    let calls = calls_of_survey(rt.alloc())?;
    assert!(rt; calls == 3);
    Ok(())
}

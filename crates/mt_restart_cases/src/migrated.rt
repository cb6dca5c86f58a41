// A migration that is stopped, over a device of format 1 on which transactions had committed while others were under
// way.
use mt_base::{Format, Refusal};
use mt_disk::{Device, FaultDevice, Fill, MemDevice};
use mt_restart::{migrate, report};
use mt_test_kit::devices::{FILLS, crashed, device_of, inspected, put, row_schema};
use mt_test_kit::events::{FOUR_TRANSACTIONS, events_of};
use mt_world::crash_run;
use std::alloc::Global;
use std::test::Fail;

/// What the committed transactions of [`FOUR_TRANSACTIONS`] lead to, and that with a counter more.
const OLD: &[u8] = b"0 a=x;0 b=y;0 d=v; 7";

const NEW: &[u8] = b"0 a=x;0 b=y;0 d=v; 7 0";

/// The counter more.
const COUNTER: [(i64, i64, i64); 1] = [(-5, 5, 0)];

// A device of format 1: the letters of the slots are all in which it differs from one of format 2 with such values.
fn first_device(alloc: Global) -> Result<MemDevice, Refusal> {
    let events = events_of(alloc, &FOUR_TRANSACTIONS)?;
    let run = crash_run(
        alloc,
        &row_schema(alloc, 16)?,
        events.as_slice(),
        1000,
        Fill::New,
    )?;
    let mut device = device_of(alloc, run.content)?;
    put(&mut device, 4, b"1")?;
    put(&mut device, 4100, b"1")?;
    Ok(device)
}

// Migrates a device, and hands it back with what that was refused with, if at all.
fn migrated<D: Device + Drop>(alloc: Global, device: D) -> (Option<Refusal>, D) {
    match migrate(alloc, device, 64, 1, &COUNTER) {
        Ok(kernel) => (None, kernel.into_device()),
        Err((why, device)) => (Some(why), device),
    }
}

// Whether a device is of format 1 with the old base and can be migrated, or of format 2 with the new one, and is
// refused as such.
fn is_old_or_new(alloc: Global, mut device: MemDevice) -> Result<bool, Refusal> {
    let text = inspected(alloc, &mut device)?;
    let report = report(alloc, &mut device)?;
    let (refused, mut device) = migrated(alloc, device);
    let then = inspected(alloc, &mut device)?;
    let is_new = then.as_slice() == NEW;
    match report.format {
        Format::One => Ok(is_new && text.as_slice() == OLD && refused == None),
        Format::Two => {
            Ok(is_new && text.as_slice() == NEW && refused == Some(Refusal::WrongFormat))
        }
    }
}

// Stops a migration at each call in turn: at how many, if each crash then leaves the one or the other.
fn stops_of(alloc: Global, bytes: &[u8], fill: Fill) -> Result<Option<u64>, Refusal> {
    for n in 1..1000u64 {
        let device = device_of(alloc, bytes.to_vec(alloc)?)?;
        let (refused, stopped) = migrated(alloc, FaultDevice::new(device, n));
        let left = crashed(alloc, &stopped.into_inner(), fill)?;
        if !is_old_or_new(alloc, left)? {
            return Ok(None);
        }
        match refused {
            None => return Ok(Some(n)),
            Some(Refusal::DeviceFailed) => {}
            Some(why) => return Err(why),
        }
    }
    Ok(None)
}

fn stopped_in_turn(alloc: Global) -> Result<[Option<u64>; 5], Refusal> {
    let device = first_device(alloc)?;
    let mut stops = [None; 5];
    for (outcome, fill) in stops.iter_mut().zip(FILLS) {
        *outcome = stops_of(alloc, device.bytes(), fill)?;
    }
    Ok(stops)
}

/// It makes the 48 calls of an opening of the same log, and reads the slot of page 2 once more. Each of them fails in
/// turn, and the next one goes well.
#[test]
fn whenever_a_migration_stops_it_can_be_made_or_is_done(rt: HostRuntime) -> Result<(), Fail> {
    let stops = stopped_in_turn(rt.alloc())?;
    assert!(rt; stops == [Some(50); 5]);
    Ok(())
}

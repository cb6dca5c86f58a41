// Lists of events that are stopped at each call of the device after the first event. What each crash leaves then is
// opened, and each opening is stopped at each of its own calls.
use mt_base::Refusal;
use mt_disk::{FaultDevice, Fill, MemDevice};
use mt_restart::Schema;
use mt_test_kit::devices::{
    FILLS, crashed, device_of, empty_device, inspected, recovered, row_schema,
};
use mt_test_kit::events::{
    A_ROTATION, A_ROW, A_SAVEPOINT, A_SPLIT_AND_AN_ABORT, AN_UNFINISHED_ABORT,
    AN_UNFINISHED_INSERT, AN_UNFINISHED_RETURN, Act, TWO_ADDS, events_of,
};
use mt_txn::KernelForced;
use mt_world::{Answer, CrashRun, Event, crash_run, run_schedule};
use std::alloc::Global;
use std::test::Fail;

/// Pages of the device.
const PAGES: u16 = 16;

// Openings of a content, if the ruling area has so many batches and the other master slot is open. One for each of
// its device calls, which fails, and one that goes well. docs/PROVED.md says which calls these are.
const ONE_BATCH: u64 = 40;

const TWO_BATCHES: u64 = 43;

const THREE_BATCHES: u64 = 46;

const FOUR_BATCHES: u64 = 49;

// If the other slot is closed: its gate is not to be closed first.
const TWO_BATCHES_ALONE: u64 = 41;

// ---- openings that are stopped

// Opens a device that fails at its n-th call: whether it went well, and the device then.
fn opened_until(alloc: Global, device: MemDevice, n: u64) -> Result<(bool, MemDevice), Refusal> {
    let (refused, device) = recovered(alloc, FaultDevice::new(device, n));
    match refused {
        None => Ok((true, device.into_inner())),
        Some(Refusal::DeviceFailed) => Ok((false, device.into_inner())),
        Some(why) => Err(why),
    }
}

/// Stops an opening of these bytes at each call in turn: at how many, if what is left then stands each time for this
/// base. If nothing was written yet the device serves for the next turn.
pub fn stops_of(
    alloc: Global,
    bytes: &[u8],
    base: &[u8],
    fill: Fill,
) -> Result<Option<u64>, Refusal> {
    let mut device = device_of(alloc, bytes.to_vec(alloc)?)?;
    for n in 1..1000u64 {
        let (went_well, stopped) = opened_until(alloc, device, n)?;
        if !went_well && stopped.bytes() == bytes {
            device = stopped;
            continue;
        }
        let mut left = crashed(alloc, &stopped, fill)?;
        if inspected(alloc, &mut left)?.as_slice() != base {
            return Ok(None);
        }
        if went_well {
            return Ok(Some(n));
        }
        device = device_of(alloc, bytes.to_vec(alloc)?)?;
    }
    Err(Refusal::Busy)
}

// ---- what is found

// Whether that is the base after some of the first commits, at least so many of them and at most so many.
fn is_due(bases: &[&[u8]], least: usize, most: usize, text: &[u8]) -> bool {
    for (count, base) in bases.iter().enumerate() {
        if least <= count && count <= most && *base == text {
            return true;
        }
    }
    false
}

/// What was looked at: contents that a crash left, and stops of their openings.
#[derive(Clone, Copy, PartialEq, Eq, Debug)]
struct Tally {
    contents: u64,
    stops: u64,
    acked: usize,
    is_due: bool,
}

// Counts a content, and the stops of its opening.
fn look(
    alloc: Global,
    bases: &[&[u8]],
    run: &CrashRun,
    fill: Fill,
    tally: &mut Tally,
) -> Result<(), Refusal> {
    let mut device = device_of(alloc, run.content.to_vec(alloc)?)?;
    let text = inspected(alloc, &mut device)?;
    let is_due = is_due(bases, run.acked, run.order.len(), text.as_slice());
    tally.is_due = tally.is_due && is_due;
    match stops_of(alloc, run.content.as_slice(), text.as_slice(), fill)? {
        Some(stops) => tally.stops = tally.stops.saturating_add(stops),
        None => tally.is_due = false,
    }
    tally.contents = tally.contents.saturating_add(1);
    tally.acked = run.acked;
    Ok(())
}

/// What is done, what the first of its commits lead to, none of them first, and how many calls it makes.
#[derive(Clone, Copy)]
struct Run {
    acts: &'static [Act],
    bases: &'static [&'static [u8]],
    calls: u64,
}

// Stops the events after so many calls, and looks at what the fills leave, but for one that is as the last one before
// it.
fn stop(
    alloc: Global,
    schema: &Schema,
    events: &[Event],
    bases: &[&[u8]],
    stop_at: u64,
    last: &mut Vec<u8>,
    tally: &mut Tally,
) -> Result<(), Refusal> {
    for fill in FILLS {
        let run = crash_run(alloc, schema, events, stop_at, fill)?;
        tally.acked = run.acked;
        if run.content.as_slice() != last.as_slice() {
            look(alloc, bases, &run, fill, tally)?;
            *last = run.content;
        }
    }
    Ok(())
}

// Does so before the first call of a run, and after each.
fn each_stop(alloc: Global, run: &Run) -> Result<Tally, Refusal> {
    let schema = row_schema(alloc, PAGES)?;
    let events = events_of(alloc, run.acts)?;
    let mut last = Vec::new(alloc);
    let mut tally = due(0, 0, 0);
    for stop_at in 0..=run.calls {
        stop(
            alloc, &schema, &events, run.bases, stop_at, &mut last, &mut tally,
        )?;
    }
    Ok(tally)
}

// Of a force: before its gate is open four contents of the body, one that is synced, and two of the gate; and then
// two.
const BEFORE_GATE: u64 = 7;

const BEHIND_GATE: u64 = 2;

// What is found where each content is due.
fn due(contents: u64, stops: u64, acked: usize) -> Tally {
    Tally {
        contents,
        stops,
        acked,
        is_due: true,
    }
}

// Openings of what a force leaves, and of the content before it.
const ROW_OPENINGS: u64 = (1 + BEFORE_GATE) * ONE_BATCH + BEHIND_GATE * TWO_BATCHES;

/// A force of four calls, and the content before it.
#[test]
fn a_row_stands_wherever_its_run_stops(rt: HostRuntime) -> Result<(), Fail> {
    let run = Run {
        acts: &A_ROW,
        bases: &[b" 5", b"0 a=x; 5"],
        calls: 4,
    };
    let outcome = each_stop(rt.alloc(), &run)?;
    assert!(rt; outcome == due(10, ROW_OPENINGS, 1));
    Ok(())
}

const TWO_FORCES_OPENINGS: u64 = ROW_OPENINGS
    + BEFORE_GATE * TWO_BATCHES
    + BEHIND_GATE * THREE_BATCHES;

/// Two forces.
#[test]
fn adds_of_two_stand_wherever_their_run_stops(rt: HostRuntime) -> Result<(), Fail> {
    let run = Run {
        acts: &TWO_ADDS,
        bases: &[b" 5", b" 8"],
        calls: 8,
    };
    let outcome = each_stop(rt.alloc(), &run)?;
    assert!(rt; outcome == due(19, TWO_FORCES_OPENINGS, 1));
    Ok(())
}

#[test]
fn an_insert_under_way_leaves_nothing_wherever_it_stops(rt: HostRuntime) -> Result<(), Fail> {
    let run = Run {
        acts: &AN_UNFINISHED_INSERT,
        bases: &[b" 5"],
        calls: 4,
    };
    let outcome = each_stop(rt.alloc(), &run)?;
    assert!(rt; outcome == due(10, ROW_OPENINGS, 0));
    Ok(())
}

#[test]
fn an_abort_under_way_leaves_the_number_wherever_it_stops(rt: HostRuntime) -> Result<(), Fail> {
    let run = Run {
        acts: &AN_UNFINISHED_ABORT,
        bases: &[b" 5"],
        calls: 4,
    };
    let outcome = each_stop(rt.alloc(), &run)?;
    assert!(rt; outcome == due(10, ROW_OPENINGS, 0));
    Ok(())
}

#[test]
fn what_counts_stands_wherever_its_run_stops(rt: HostRuntime) -> Result<(), Fail> {
    let run = Run {
        acts: &A_SAVEPOINT,
        bases: &[b" 5", b"0 a=x; 5"],
        calls: 4,
    };
    let outcome = each_stop(rt.alloc(), &run)?;
    assert!(rt; outcome == due(10, ROW_OPENINGS, 1));
    Ok(())
}

#[test]
fn going_back_leaves_nothing_wherever_it_stops(rt: HostRuntime) -> Result<(), Fail> {
    let run = Run {
        acts: &AN_UNFINISHED_RETURN,
        bases: &[b" 5"],
        calls: 4,
    };
    let outcome = each_stop(rt.alloc(), &run)?;
    assert!(rt; outcome == due(10, ROW_OPENINGS, 0));
    Ok(())
}

// After a force the page, the rotation's pages and the other area's first batch leave 29 contents. From the closing
// of the other slot's gate to its opening it is closed in ten, and open in two. The new area rules in two. Another
// force follows.
const ROTATION_OPENINGS: u64 = ROW_OPENINGS
    + (29 + 2) * TWO_BATCHES
    + (3 + 5 + 2) * TWO_BATCHES_ALONE
    + 2 * ONE_BATCH
    + BEFORE_GATE * ONE_BATCH
    + BEHIND_GATE * TWO_BATCHES;

// What the two commits of the rotation's list lead to.
const ROTATION_BASES: [&[u8]; 3] = [b" 5", b"0 a=x; 5", b"0 a=x;0 b=x; 5"];

/// The forces take eight calls, a page one, and the rotation eighteen. These are a sync, three pages and a sync, the
/// other area's gate closed and synced, and its first force. Then the other slot's gate is closed, its text written
/// and its gate opened, each with a sync, and a last sync is made.
#[test]
fn rows_stand_wherever_a_rotation_stops(rt: HostRuntime) -> Result<(), Fail> {
    let run = Run {
        acts: &A_ROTATION,
        bases: &ROTATION_BASES,
        calls: 27,
    };
    let outcome = each_stop(rt.alloc(), &run)?;
    assert!(rt; outcome == due(62, ROTATION_OPENINGS, 2));
    Ok(())
}

// After the first force the pages leave four contents and five, and four after the second one.
const SPLIT_OPENINGS: u64 = ROW_OPENINGS
    + (4 + 5 + 1 + BEFORE_GATE) * TWO_BATCHES
    + (BEHIND_GATE + 4 + 1 + BEFORE_GATE) * THREE_BATCHES
    + BEHIND_GATE * FOUR_BATCHES;

// What its two commits lead to.
const SPLIT_BASES: [&[u8]; 3] = [
    b" 5",
    b"0 k000=v;0 k001=v;0 k002=v;0 k003=v;0 k004=v;0 k005=v;0 k006=v;0 k007=v;0 k008=v;0 k009=v;\
        0 k010=v;0 k011=v;0 k012=v;0 k013=v;0 k014=v;0 k015=v;0 k016=v;0 k017=v;0 k018=v;0 k019=v;\
        0 k020=v;0 k021=v;0 k022=v;0 k023=v;0 k024=v;0 k025=v;0 k026=v;0 k027=v;0 k028=v;0 k029=v; 5",
    b"0 bee=x;0 k000=v;0 k001=v;0 k002=v;0 k003=v;0 k004=v;0 k005=v;0 k006=v;0 k007=v;0 k008=v;0 k009=v;\
        0 k010=v;0 k011=v;0 k012=v;0 k013=v;0 k014=v;0 k015=v;0 k016=v;0 k017=v;0 k018=v;0 k019=v;\
        0 k020=v;0 k021=v;0 k022=v;0 k023=v;0 k024=v;0 k025=v;0 k026=v;0 k027=v;0 k028=v;0 k029=v; 5",
];

/// Three forces of four calls, and three pages. What was not synced before a force is left in five kinds then, not
/// four.
#[test]
fn rows_stand_wherever_a_split_and_an_abort_stop(rt: HostRuntime) -> Result<(), Fail> {
    let run = Run {
        acts: &A_SPLIT_AND_AN_ABORT,
        bases: &SPLIT_BASES,
        calls: 15,
    };
    let outcome = each_stop(rt.alloc(), &run)?;
    assert!(rt; outcome == due(43, SPLIT_OPENINGS, 2));
    Ok(())
}

// ---- one commit

// Whether the row is in the base that each of the fills leaves after so many calls of its commit.
fn has_row_after(alloc: Global, events: &[Event], stop_at: u64) -> Result<[bool; 5], Refusal> {
    let schema = row_schema(alloc, PAGES)?;
    let mut each = [false; 5];
    for (has_row, fill) in each.iter_mut().zip(FILLS) {
        let run = crash_run(alloc, &schema, events, stop_at, fill)?;
        let mut device = device_of(alloc, run.content)?;
        *has_row = inspected(alloc, &mut device)?.as_slice() == b"0 a=x; 5".as_slice();
    }
    Ok(each)
}

fn has_row_in_turn(alloc: Global) -> Result<[[bool; 5]; 5], Refusal> {
    let events = events_of(alloc, &A_ROW)?;
    let mut each = [[false; 5]; 5];
    for (stop_at, has_row) in each.iter_mut().enumerate() {
        *has_row = has_row_after(alloc, &events, stop_at as u64)?;
    }
    Ok(each)
}

/// Four calls: the body, a sync, the gate, a sync. The gate is one byte, of which a front half has none.
#[test]
fn a_stopped_commit_stands_once_its_gate_is_open(rt: HostRuntime) -> Result<(), Fail> {
    let stands = has_row_in_turn(rt.alloc())?;
    assert!(rt; stands[..3] == [[false; 5]; 3]);
    assert!(rt; stands[3] == [false, true, false, false, true] && stands[4] == [true; 5]);
    Ok(())
}

// ---- a device that fails

/// What the answers of a run say: whether each after the first refusal 2 is that, and whether there is one. Then
/// how many commits were acknowledged.
#[derive(Clone, Copy)]
struct Heard {
    stays_failed: bool,
    has_failed: bool,
    acked: usize,
}

fn hear_all(answers: &[Answer]) -> Heard {
    let mut heard = Heard {
        stays_failed: true,
        has_failed: false,
        acked: 0,
    };
    for answer in answers {
        let fails = matches!(answer, Answer::Refused(Refusal::DeviceFailed));
        heard.stays_failed = heard.stays_failed && (fails || !heard.has_failed);
        heard.has_failed = heard.has_failed || fails;
        if let Answer::Forced(KernelForced::Durable(names)) = answer {
            heard.acked = heard.acked.saturating_add(names.len());
        }
    }
    heard
}

// Makes the events over a device that fails at its n-th call, reads counted too, and opens that again. It answers
// whether all was well, and whether it ever failed; None if it failed before the first event.
fn failing_at(alloc: Global, events: &[Event], n: u64) -> Result<Option<(bool, bool)>, Refusal> {
    let schema = row_schema(alloc, PAGES)?;
    let device = FaultDevice::new(empty_device(alloc, PAGES)?, n);
    let (standing, answers) = match run_schedule(alloc, device, &schema, events) {
        Ok(made) => made,
        Err((Refusal::DeviceFailed, _device)) => return Ok(None),
        Err((why, _device)) => return Err(why),
    };
    let device = standing.into_device().into_inner();
    let heard = hear_all(answers.as_slice());
    let (refused, mut device) = recovered(alloc, device);
    let text = inspected(alloc, &mut device)?;
    let most = heard.acked.saturating_add(1);
    let is_due = is_due(&ROTATION_BASES, heard.acked, most, text.as_slice());
    let is_well = heard.stays_failed && refused.is_none() && is_due;
    Ok(Some((is_well, heard.has_failed)))
}

// Of the calls of a run, each failing in turn: how many come after the first event, if all was well each time.
fn each_failing(alloc: Global) -> Result<Option<u64>, Refusal> {
    let events = events_of(alloc, &A_ROTATION)?;
    let mut count = 0u64;
    for n in 1..2000u64 {
        match failing_at(alloc, events.as_slice(), n)? {
            None => {}
            Some((false, _has_failed)) => return Ok(None),
            Some((true, false)) => return Ok(Some(count)),
            Some((true, true)) => count = count.saturating_add(1),
        }
    }
    Err(Refusal::Busy)
}

/// There are two forces of four calls each, a page is written, and the log turns over, in 42 calls. The first insert
/// reads the slots of the directory, the bucket, the map and a free page. The second one reads those of the
/// directory, the bucket and the page of records.
#[test]
fn whatever_call_fails_each_later_event_is_refused(rt: HostRuntime) -> Result<(), Fail> {
    let count = each_failing(rt.alloc())?;
    assert!(rt; count == Some(58));
    Ok(())
}

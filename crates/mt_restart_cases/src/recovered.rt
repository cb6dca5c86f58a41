// An opening that is stopped, over a device on which transactions had committed while others were under way.
use crate::scheduled::stops_of;
use mt_base::Refusal;
use mt_disk::Fill;
use mt_test_kit::devices::{FILLS, row_schema};
use mt_test_kit::events::{FOUR_TRANSACTIONS, events_of};
use mt_world::crash_run;
use std::alloc::Global;
use std::test::Fail;

/// What the committed transactions of [`FOUR_TRANSACTIONS`] lead to.
const BASE: &[u8] = b"0 a=x;0 b=y;0 d=v; 7";

// At how many calls an opening of what they leave is stopped, if each of five crashes then leaves the base each time.
fn stopped_in_turn(alloc: Global) -> Result<[Option<u64>; 5], Refusal> {
    let events = events_of(alloc, &FOUR_TRANSACTIONS)?;
    let run = crash_run(
        alloc,
        &row_schema(alloc, 16)?,
        events.as_slice(),
        1000,
        Fill::New,
    )?;
    let mut stops = [None; 5];
    for (outcome, fill) in stops.iter_mut().zip(FILLS) {
        *outcome = stops_of(alloc, run.content.as_slice(), BASE, fill)?;
    }
    Ok(stops)
}

/// The log has four batches: an empty one, those of two commits, and that of the unfinished insert. So the opening
/// makes 48 calls (docs/PROVED.md has the rule), each of which fails, and goes well the next time.
#[test]
fn whenever_an_opening_stops_the_base_stands(rt: HostRuntime) -> Result<(), Fail> {
    let stops = stopped_in_turn(rt.alloc())?;
    assert!(rt; stops == [Some(49); 5]);
    Ok(())
}

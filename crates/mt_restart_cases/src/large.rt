// Two transactions of 200 inserts over log areas of 64 MiB. The second is taken back, while a row of another session
// is committed between its inserts.
use mt_base::Refusal;
use mt_disk::Fill;
use mt_model::Row;
use mt_restart::{Schema, inspect};
use mt_test_kit::devices::device_of;
use mt_test_kit::events::{A_LARGE_SPLIT, events_of};
use mt_world::crash_run;
use std::alloc::Global;
use std::test::Fail;

// Whether the row has this key.
fn has_key(row: Option<&Row>, key: &[u8]) -> bool {
    row.is_some_and(|row| row.key.as_slice() == key)
}

// How many commits are acknowledged and how many rows there are then. Then whether the first row is the other
// session's, the last one is the last of the first transaction, and the directory has doubled.
fn found(alloc: Global) -> Result<([usize; 2], [bool; 3]), Refusal> {
    let schema = Schema::new(alloc, 64, 64, 2, &[(0, 10, 5)])?;
    let events = events_of(alloc, &A_LARGE_SPLIT)?;
    let run = crash_run(alloc, &schema, events.as_slice(), 1000, Fill::New)?;
    let mut device = device_of(alloc, run.content)?;
    let survey = inspect(alloc, &mut device)?;
    let rows = survey.base.rows();
    let ends = [
        has_key(rows.first(), b"bee"),
        has_key(rows.last(), b"k199"),
        0 < survey.depth,
    ];
    Ok(([run.acked, rows.len()], ends))
}

#[test]
fn a_split_bucket_stands_behind_an_abort(rt: HostRuntime) -> Result<(), Fail> {
    let (counts, ends) = found(rt.alloc())?;
    assert!(rt; counts == [2, 201] && ends == [true; 3]);
    Ok(())
}

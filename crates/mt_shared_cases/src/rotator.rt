// When who rotates is to turn the log over.
ghost use Rattle.std.specs.Prelude.{◌≡◌};

use crate::kernels::{Memory, Outcome, opened_of, reported_behind, shared_of};
use crate::sessions::{end, insert};
use mt_base::{Bytes, Refusal, RelNo};
use mt_disk::MemDevice;
use mt_model::Op;
use mt_shared::{Naming, Opened, Pass};
use std::alloc::{AllocError, Global};
use std::marker::Brand;
use std::sync::Wait;
use std::test::Fail;

/// The most commits until half of the log's area of 4 MiB is in use.
const MOST: u64 = 10_000;

/// Two values of the row, which are long, so that each update logs much.
const VALUES: [[u8; 1000]; 2] = [[b'x'; 1000], [b'y'; 1000]];

// What the commit at this place does: it makes the row, or gives it its other value.
fn operation(alloc: Global, place: u64) -> Result<Op, AllocError> {
    let value = &VALUES[(place % 2) as usize];
    if place == 1 {
        insert(alloc, b"a", value)
    } else {
        let key = Bytes::copy_of(alloc, b"a")?;
        Ok(Op::Update(RelNo::new(0), key, Bytes::copy_of(alloc, value)?))
    }
}

// Commits that; whether it comes to this place.
fn commits<J: Naming, R: Wait>(
    rt: &R,
    alloc: Global,
    shared: &Memory<J>,
    pass: &mut Pass<J>,
    place: u64,
) -> Result<bool, Refusal> {
    let op = operation(alloc, place)?;
    let mut txn = shared.begin(rt, alloc, pass, 1)?;
    let ran = shared.run(rt, &mut txn, op);
    let at = end(rt, shared, pass, txn);
    ran?;
    Ok(at == place)
}

// Commits until more than half of the log's area is in use; how many commits that takes, or 0.
fn fills<J: Naming, R: Wait>(
    rt: &R,
    alloc: Global,
    shared: &Memory<J>,
    pass: &mut Pass<J>,
) -> Result<u64, Refusal> {
    for before in 0..MOST {
        if shared.is_half_used(rt) {
            return Ok(before);
        }
        if !commits(rt, alloc, shared, pass, before + 1)? {
            return Ok(0);
        }
    }
    Ok(0)
}

// Fills half of the log. Then who rotates is awake, turns the log over, and comes to its end. The commits that it took,
// or 0.
fn rotates<J: Naming, R: Wait>(
    rt: &R,
    alloc: Global,
    shared: &Memory<J>,
    pass: &mut Pass<J>,
) -> Result<u64, Refusal> {
    let made = fills(rt, alloc, shared, pass)?;
    let is_due = shared.await_due(rt);
    shared.turn_over(rt, alloc, 64)?;
    let is_turned = !shared.is_half_used(rt);
    shared.end_rotating(rt);
    let is_over = !shared.await_due(rt);
    Ok(if is_due && is_turned && is_over {
        made
    } else {
        0
    })
}

// The same under a name, and what the kernel shows after it.
fn named_rotates<J: Naming, R: Wait>(
    rt: &R,
    alloc: Global,
    opened: Opened<MemDevice>,
) -> Result<(u64, Outcome), Refusal>
    requires { (opened.mark ≡ J.mark) × (opened.base ≡ J.base) × (opened.book ≡ J.book) }
{
    let (shared, passes) = shared_of::<J>(alloc, opened)?;
    let mut passes = passes;
    let made = match passes.as_mut_slice().first_mut() {
        Some(pass) => rotates(rt, alloc, &shared, pass),
        None => Ok(0),
    };
    let outcome = reported_behind(shared, passes)?;
    Ok((made?, outcome))
}

// Of a kernel in memory.
fn rotate<R: Wait>(rt: &R, alloc: Global) -> Result<(u64, Outcome), Refusal> {
    let opened = opened_of(alloc, 64, &[(0, 10, 0)], 1)?;
    named_rotates::<Brand, R>(rt, alloc, opened)
}

/// The commit with which more than half of the log's area is in use wakes who rotates. That turns the log over, and all
/// stands.
#[test]
fn a_half_used_log_wakes_who_rotates(rt: HostRuntime) -> Result<(), Fail> {
    let (made, outcome) = rotate(&rt, rt.alloc())?;
    assert!(rt; 500 < made && outcome.commits as u64 == made && outcome.rows == 1);
    Ok(())
}

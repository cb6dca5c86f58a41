// What a pass finds of its own transactions.
ghost use Rattle.std.specs.Prelude.{◌≡◌};

use crate::kernels::{Memory, Outcome, opened_of, reported_behind, shared_of};
use crate::sessions::{end, has_replied, insert, run_insert, take_back};
use mt_base::{Bytes, CtrNo, Refusal, RelNo};
use mt_disk::MemDevice;
use mt_model::{Op, Reply};
use mt_shared::{Naming, Opened, Pass, Tended, Txn};
use std::alloc::{AllocError, Global};
use std::marker::Brand;
use std::sync::Wait;
use std::test::Fail;

/// The most steps until nothing is left to be forced or flushed.
const STEPS: u32 = 1000;

// A get of a key of relation 0.
fn get(alloc: Global, key: &[u8]) -> Result<Op, AllocError> {
    Ok(Op::Get(RelNo::new(0), Bytes::copy_of(alloc, key)?))
}

// An update of the first row.
fn update(alloc: Global) -> Result<Op, AllocError> {
    let key = Bytes::copy_of(alloc, b"a")?;
    Ok(Op::Update(RelNo::new(0), key, Bytes::copy_of(alloc, b"y")?))
}

// The operation of the transaction at this place.
fn operation(alloc: Global, place: u64) -> Result<Op, AllocError> {
    match place {
        1 => insert(alloc, b"a", b"x"),
        2 => update(alloc),
        3 => get(alloc, b"a"),
        4 => get(alloc, b"b"),
        _ => insert(alloc, b"b", b"y"),
    }
}

// Whether that is to be replied so.
fn is_due(place: u64, reply: &Reply) -> bool {
    match reply {
        Reply::Done => place == 1 || place == 5,
        Reply::Was(value) => place == 2 && value.as_slice() == b"x".as_slice(),
        Reply::Found(value) => place == 3 && value.as_slice() == b"y".as_slice(),
        Reply::Missing => place == 4,
        _ => false,
    }
}

// Whether the transaction at this place was replied what is due.
fn has_due<J: Naming>(txn: &Txn<J>, place: u64) -> bool {
    match txn.calls().last() {
        Some((_op, reply)) => is_due(place, reply),
        None => false,
    }
}

// Runs it in a transaction of its own; whether it is replied so, and committed at its place.
fn does<J: Naming, R: Wait>(
    rt: &R,
    alloc: Global,
    shared: &Memory<J>,
    pass: &mut Pass<J>,
    place: u64,
) -> Result<bool, Refusal> {
    let op = operation(alloc, place)?;
    let mut txn = shared.begin(rt, alloc, pass, 1)?;
    let ran = shared.run(rt, &mut txn, op);
    let is_wanted = ran.is_ok() && has_due(&txn, place);
    let at = end(rt, shared, pass, txn);
    Ok(is_wanted && at == place)
}

// A row that is inserted and taken back enters no history.
fn takes_back<J: Naming, R: Wait>(
    rt: &R,
    alloc: Global,
    shared: &Memory<J>,
    pass: &mut Pass<J>,
) -> Result<bool, Refusal> {
    let mut txn = shared.begin(rt, alloc, pass, 1)?;
    let ran = run_insert(rt, alloc, shared, &mut txn, (b"b", b"y"));
    take_back(rt, shared, pass, txn);
    Ok(ran.is_ok() && shared.look(pass) == 3)
}

// Inserts two rows about an add, goes back to the first of them, and reads on; whether all is replied so.
fn goes_back<J: Naming, R: Wait>(
    rt: &R,
    alloc: Global,
    shared: &Memory<J>,
    txn: &mut Txn<J>,
) -> Result<bool, Refusal> {
    run_insert(rt, alloc, shared, txn, (b"c", b"x"))?;
    let first = txn.answered();
    shared.run(rt, txn, Op::Add(CtrNo::new(0), 2))?;
    run_insert(rt, alloc, shared, txn, (b"d", b"y"))?;
    shared.back(rt, txn, first)?;
    let is_refused = matches!(shared.back(rt, txn, 2), Err(Refusal::BadSavepoint));
    shared.run(rt, txn, get(alloc, b"d")?)?;
    let is_missing = has_replied(txn, &Reply::Missing);
    shared.run(rt, txn, get(alloc, b"c")?)?;
    shared.run(rt, txn, Op::Read(CtrNo::new(0)))?;
    Ok(is_refused && is_missing && has_replied(txn, &Reply::Value(5)) && has_inverses(txn.calls()))
}

// Whether there are eight calls, with the inverses of the second insert and of the add as the fourth and the fifth.
fn has_inverses(calls: &[(Op, Reply)]) -> bool {
    let [
        _,
        _,
        _,
        (Op::Delete(_, key), Reply::Was(value)),
        (add, Reply::Done),
        _,
        _,
        _,
    ] = calls
    else {
        return false;
    };
    key.as_slice() == b"d".as_slice()
        && value.as_slice() == b"y".as_slice()
        && *add == Op::Add(CtrNo::new(0), -2)
}

// The same, committed at this place.
fn goes_on<J: Naming, R: Wait>(
    rt: &R,
    alloc: Global,
    shared: &Memory<J>,
    pass: &mut Pass<J>,
    place: u64,
) -> Result<bool, Refusal> {
    let mut txn = shared.begin(rt, alloc, pass, 1)?;
    let went = goes_back(rt, alloc, shared, &mut txn);
    let at = end(rt, shared, pass, txn);
    Ok(went? && at == place)
}

// Forces and flushes until nothing is left to be; whether there was something.
fn rests<J: Naming, R: Wait>(rt: &R, shared: &Memory<J>) -> Result<bool, Refusal> {
    for step in 0..STEPS {
        if shared.tend(rt)? == Tended::Idle {
            return Ok(step > 0);
        }
    }
    Ok(false)
}

// How many bytes of the log's area are in use, if they are not more than half.
fn used<J: Naming, R: Wait>(rt: &R, shared: &Memory<J>) -> u64 {
    if shared.is_half_used(rt) {
        return 0;
    }
    match shared.used(rt) {
        Some(log) => log.used,
        None => 0,
    }
}

// The log is turned over, though not while a transaction is active. Fewer bytes of its area are in use then.
fn turns<J: Naming, R: Wait>(
    rt: &R,
    alloc: Global,
    shared: &Memory<J>,
    pass: &mut Pass<J>,
) -> Result<bool, Refusal> {
    let txn = shared.begin(rt, alloc, pass, 1)?;
    let early = shared.rotate(rt, alloc, 64);
    take_back(rt, shared, pass, txn);
    let before = used(rt, shared);
    shared.rotate(rt, alloc, 64)?;
    shared.turn_over(rt, alloc, 64)?;
    let behind = used(rt, shared);
    Ok(matches!(early, Err(Refusal::Busy)) && 0 < behind && behind < before)
}

// All of it, by one pass.
fn find<J: Naming, R: Wait>(
    rt: &R,
    alloc: Global,
    shared: &Memory<J>,
    pass: &mut Pass<J>,
) -> Result<bool, Refusal> {
    for place in 1..4u64 {
        if !does(rt, alloc, shared, pass, place)? {
            return Ok(false);
        }
    }
    let is_back = takes_back(rt, alloc, shared, pass)? && does(rt, alloc, shared, pass, 4)?;
    let is_turned = rests(rt, shared)? && turns(rt, alloc, shared, pass)?;
    let is_on = does(rt, alloc, shared, pass, 5)? && goes_on(rt, alloc, shared, pass, 6)?;
    Ok(is_back && is_turned && is_on)
}

// Whether all went so, under a name, and what a survey of the kernel answers after it.
fn named_rows<J: Naming, R: Wait>(
    rt: &R,
    alloc: Global,
    opened: Opened<MemDevice>,
) -> Result<(bool, Outcome), Refusal>
    requires { (opened.mark ≡ J.mark) × (opened.base ≡ J.base) × (opened.book ≡ J.book) }
{
    let (shared, passes) = shared_of::<J>(alloc, opened)?;
    let mut passes = passes;
    let found = match passes.as_mut_slice().first_mut() {
        Some(pass) => find(rt, alloc, &shared, pass),
        None => Ok(false),
    };
    let outcome = reported_behind(shared, passes)?;
    Ok((matches!(found, Ok(true)), outcome))
}

// Of a kernel in memory.
fn find_rows<R: Wait>(rt: &R, alloc: Global) -> Result<(bool, Outcome), Refusal> {
    let opened = opened_of(alloc, 64, &[(0, 10, 5)], 1)?;
    named_rows::<Brand, R>(rt, alloc, opened)
}

/// A transaction finds what the pass's last one committed, and not what another took back. One that goes back commits
/// with the inverses.
#[test]
fn a_pass_finds_what_it_committed(rt: HostRuntime) -> Result<(), Fail> {
    let (is_found, outcome) = find_rows(&rt, rt.alloc())?;
    assert!(rt; is_found && outcome.commits == 6 && outcome.rows == 3);
    Ok(())
}

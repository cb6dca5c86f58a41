// Lists of events, as what is done in them. More steps may be made than an operation or an abort has; those are
// refused and change nothing.
use mt_base::{Bytes, CtrNo, Refusal, RelNo, TxnNo};
use mt_model::Op;
use mt_world::Event;
use std::alloc::{AllocError, Global};

/// What is done, in one event or several. A transaction is named by its number.
#[derive(Clone, Copy)]
pub enum Act {
    /// A transaction begins.
    Begin,
    /// It inserts a row of relation 0, in so many steps.
    Insert(u64, &'static [u8], &'static [u8], u16),
    /// It updates one.
    Update(u64, &'static [u8], &'static [u8]),
    /// It deletes one.
    Delete(u64, &'static [u8]),
    /// It inserts the rows of the numbers from one to below another.
    Rows(u64, u16, u16),
    /// It adds to counter 0.
    Add(u64, i64),
    /// It begins its commit, and the log is forced.
    Commit(u64),
    /// It goes back to its first so many operations, in so many steps.
    Back(u64, u16, u16),
    /// It is taken back, in so many steps.
    Abort(u64, u16),
    /// The log is forced, in four steps.
    Force,
    /// A page is written.
    Flush,
    /// The log turns over.
    Rotate,
}

/// Inserts a row and commits it.
pub const A_ROW: [Act; 3] = [Act::Begin, Act::Insert(1, b"a", b"x", 20), Act::Commit(1)];

/// Adds of two transactions, of which one commits and the other is taken back.
pub const TWO_ADDS: [Act; 7] = [
    Act::Begin,
    Act::Begin,
    Act::Add(1, 2),
    Act::Add(2, 3),
    Act::Commit(2),
    Act::Abort(1, 8),
    Act::Force,
];

/// An insert that is stepped to its second page write.
pub const AN_UNFINISHED_INSERT: [Act; 3] = [Act::Begin, Act::Insert(1, b"a", b"x", 6), Act::Force];

/// An add that is taken back, up to the end of its abort.
pub const AN_UNFINISHED_ABORT: [Act; 4] = [
    Act::Begin,
    Act::Add(1, 2),
    Act::Abort(1, 4),
    Act::Force,
];

/// Two rows and an add between them. All but the first are taken back, and that commits.
pub const A_SAVEPOINT: [Act; 6] = [
    Act::Begin,
    Act::Insert(1, b"a", b"x", 20),
    Act::Add(1, 2),
    Act::Insert(1, b"b", b"y", 20),
    Act::Back(1, 1, 20),
    Act::Commit(1),
];

/// The same, up to the end of the first inverse, which is that of the last row.
pub const AN_UNFINISHED_RETURN: [Act; 6] = [
    Act::Begin,
    Act::Insert(1, b"a", b"x", 20),
    Act::Add(1, 2),
    Act::Insert(1, b"b", b"y", 20),
    Act::Back(1, 1, 7),
    Act::Force,
];

/// Two rows, each committed, between which a page is written and the log turned over.
pub const A_ROTATION: [Act; 8] = [
    Act::Begin,
    Act::Insert(1, b"a", b"x", 20),
    Act::Commit(1),
    Act::Flush,
    Act::Rotate,
    Act::Begin,
    Act::Insert(2, b"b", b"x", 20),
    Act::Commit(2),
];

/// Thirty rows are committed; of as many others, between which another row is committed, none stays. Pages are
/// written meanwhile, and a bucket splits.
pub const A_SPLIT_AND_AN_ABORT: [Act; 14] = [
    Act::Begin,
    Act::Rows(1, 0, 30),
    Act::Commit(1),
    Act::Flush,
    Act::Flush,
    Act::Begin,
    Act::Rows(2, 30, 45),
    Act::Begin,
    Act::Insert(3, b"bee", b"x", 20),
    Act::Commit(3),
    Act::Flush,
    Act::Rows(2, 45, 60),
    Act::Abort(2, 600),
    Act::Force,
];

/// The same of 200 rows, without the pages.
pub const A_LARGE_SPLIT: [Act; 11] = [
    Act::Begin,
    Act::Rows(1, 0, 200),
    Act::Commit(1),
    Act::Begin,
    Act::Rows(2, 200, 300),
    Act::Begin,
    Act::Insert(3, b"bee", b"y", 20),
    Act::Commit(3),
    Act::Rows(2, 300, 400),
    Act::Abort(2, 4000),
    Act::Force,
];

/// Two transactions commit. One of four effects is open then, and an insert of another one is unfinished. Two pages
/// are written into their slots.
pub const FOUR_TRANSACTIONS: [Act; 18] = [
    Act::Begin,
    Act::Insert(1, b"a", b"x", 20),
    Act::Insert(1, b"b", b"y", 20),
    Act::Add(1, 2),
    Act::Commit(1),
    Act::Begin,
    Act::Update(2, b"a", b"longer"),
    Act::Delete(2, b"b"),
    Act::Insert(2, b"c", b"w", 20),
    Act::Add(2, 1),
    Act::Begin,
    Act::Insert(3, b"d", b"v", 20),
    Act::Commit(3),
    Act::Begin,
    Act::Insert(4, b"e", b"u", 5),
    Act::Force,
    Act::Flush,
    Act::Flush,
];

fn insert(alloc: Global, key: &[u8], value: &[u8]) -> Result<Op, AllocError> {
    let key = Bytes::copy_of(alloc, key)?;
    let value = Bytes::copy_of(alloc, value)?;
    Ok(Op::Insert(RelNo::new(0), key, value))
}

fn update(alloc: Global, key: &[u8], value: &[u8]) -> Result<Op, AllocError> {
    let key = Bytes::copy_of(alloc, key)?;
    let value = Bytes::copy_of(alloc, value)?;
    Ok(Op::Update(RelNo::new(0), key, value))
}

// The key of the row of this number, as `k007`.
fn key_of(number: u16) -> [u8; 4] {
    let digit = |of: u16| b'0'.wrapping_add((of % 10) as u8);
    [b'k', digit(number / 100), digit(number / 10), digit(number)]
}

// An event, so often.
fn repeat(events: &mut Vec<Event>, kind: &Act, txn: TxnNo, steps: u16) -> Result<(), AllocError> {
    for _step in 0..steps {
        events.push(match kind {
            Act::Abort(_, _) => Event::AbortStep(txn),
            Act::Back(_, _, _) => Event::BackStep(txn),
            Act::Commit(_) | Act::Force => Event::Force,
            _ => Event::Step(txn),
        })?;
    }
    Ok(())
}

// The rows of these numbers.
fn rows(
    alloc: Global,
    events: &mut Vec<Event>,
    act: &Act,
    txn: TxnNo,
    numbers: [u16; 2],
) -> Result<(), AllocError> {
    let [from, to] = numbers;
    for number in from..to {
        events.push(Event::Call(txn, insert(alloc, &key_of(number), b"v")?))?;
        repeat(events, act, txn, 24)?;
    }
    Ok(())
}

// The transaction of what is done, and how many steps follow its first event.
fn txn_and_steps(act: &Act) -> (TxnNo, u16) {
    let (txn, steps) = match act {
        Act::Insert(txn, _, _, steps) | Act::Abort(txn, steps) => (*txn, *steps),
        Act::Back(txn, _, steps) => (*txn, *steps),
        Act::Update(txn, _, _) | Act::Delete(txn, _) => (*txn, 20),
        Act::Rows(txn, _, _) => (*txn, 0),
        Act::Add(txn, _) => (*txn, 6),
        Act::Commit(txn) => (*txn, 4),
        Act::Force => (0, 4),
        Act::Begin | Act::Flush | Act::Rotate => (0, 0),
    };
    (TxnNo::new(txn), steps)
}

// The first event of what is done, if it has one of its own.
fn first(alloc: Global, act: &Act, txn: TxnNo) -> Result<Option<Event>, AllocError> {
    let event = match act {
        Act::Begin => Event::Begin(1),
        Act::Insert(_, key, value, _) => Event::Call(txn, insert(alloc, key, value)?),
        Act::Update(_, key, value) => Event::Call(txn, update(alloc, key, value)?),
        Act::Delete(_, key) => {
            let key = Bytes::copy_of(alloc, key)?;
            Event::Call(txn, Op::Delete(RelNo::new(0), key))
        }
        Act::Add(_, step) => Event::Call(txn, Op::Add(CtrNo::new(0), *step)),
        Act::Commit(_) => Event::Commit(txn),
        Act::Abort(_, _) => Event::AbortBegin(txn),
        Act::Back(_, first, _) => Event::Back(txn, *first),
        Act::Flush => Event::Flush,
        Act::Rotate => Event::Rotate,
        Act::Rows(_, _, _) | Act::Force => return Ok(None),
    };
    Ok(Some(event))
}

/// The events in which these are done, one after the other.
pub fn events_of(alloc: Global, acts: &[Act]) -> Result<Vec<Event>, Refusal> {
    let mut events = Vec::new(alloc);
    for act in acts {
        let (txn, steps) = txn_and_steps(act);
        if let Some(event) = first(alloc, act, txn)? {
            events.push(event)?;
        }
        if let Act::Rows(_, from, to) = act {
            rows(alloc, &mut events, act, txn, [*from, *to])?;
        }
        repeat(&mut events, act, txn, steps)?;
    }
    Ok(events)
}

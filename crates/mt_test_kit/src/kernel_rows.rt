// Rows of what a kernel is asked for a transaction, and of what it answers then. Keys are single bytes of relation 0,
// and adds are to counter 0.
use crate::whole_operations::{Outcome, aborted, reported_of_abort, run};
use mt_base::{Bytes, CtrNo, Refusal, RelNo, TxnNo};
use mt_disk::Device;
use mt_model::Op;
use mt_txn::{AbortStepped, Kernel};
use std::alloc::{AllocError, Global};

/// What a kernel is asked.
#[derive(Clone, Copy)]
pub enum Ask {
    Begin,
    /// An insert of a value under a key. Each operation is made from its call to its reply.
    Insert(u8, &'static [u8]),
    /// An insert of so many zeros.
    Fill(u8, usize),
    Get(u8),
    Add(i64),
    Read,
    Save,
    BackBegin(u16),
    BackStep,
    /// From its begin to its end.
    Abort,
}

/// A transaction, what is asked for it, and the answer that is due.
pub type Row = (u64, Ask, Outcome);

fn key_of(alloc: Global, key: u8) -> Result<Bytes, AllocError> {
    Bytes::copy_of(alloc, &[key])
}

// An insert of a value under a key.
fn insert_of(alloc: Global, key: u8, value: &[u8]) -> Result<Op, AllocError> {
    let key = key_of(alloc, key)?;
    Ok(Op::Insert(RelNo::new(0), key, Bytes::copy_of(alloc, value)?))
}

// The operation that is asked for, if it is one.
fn op_of(alloc: Global, ask: &Ask) -> Result<Option<Op>, AllocError> {
    let op = match ask {
        Ask::Insert(key, value) => insert_of(alloc, *key, value)?,
        Ask::Fill(key, len) => {
            let key = key_of(alloc, *key)?;
            let zeros = vec![in alloc; 0u8; *len]?;
            Op::Insert(RelNo::new(0), key, Bytes::new(zeros))
        }
        Ask::Get(key) => Op::Get(RelNo::new(0), key_of(alloc, *key)?),
        Ask::Add(step) => Op::Add(CtrNo::new(0), *step),
        Ask::Read => Op::Read(CtrNo::new(0)),
        _ => return Ok(None),
    };
    Ok(Some(op))
}

// The outcome of a call that answers nothing.
fn begun(outcome: Result<(), Refusal>) -> Outcome {
    match outcome {
        Ok(()) => Outcome::Started,
        Err(why) => Outcome::Refused(why),
    }
}

fn step_reported(outcome: Result<AbortStepped, Refusal>) -> Outcome {
    match outcome {
        Ok(stepped) => reported_of_abort(stepped),
        Err(why) => Outcome::Refused(why),
    }
}

fn began<D: Device>(kernel: &mut Kernel<D>) -> Outcome {
    match kernel.begin(1) {
        Ok(txn) => Outcome::Number(txn.get()),
        Err(why) => Outcome::Refused(why),
    }
}

fn saved<D: Device>(kernel: &Kernel<D>, txn: TxnNo) -> Outcome {
    match kernel.save(txn) {
        Ok(count) => Outcome::Number(u64::from(count)),
        Err(why) => Outcome::Refused(why),
    }
}

/// Asks a kernel, and reports what it answers.
pub fn asked<D: Device>(
    alloc: Global,
    kernel: &mut Kernel<D>,
    txn: TxnNo,
    ask: &Ask,
) -> Result<Outcome, Refusal> {
    if let Some(op) = op_of(alloc, ask)? {
        return Ok(run(kernel, txn, op));
    }
    Ok(match ask {
        Ask::Begin => began(kernel),
        Ask::Save => saved(kernel, txn),
        Ask::BackBegin(first) => begun(kernel.back_begin(txn, *first)),
        Ask::BackStep => step_reported(kernel.back_step(txn)),
        Ask::Abort => aborted(kernel, txn),
        _ => Outcome::Stuck,
    })
}

/// Asks row by row: the first one that is answered otherwise, with the answer.
pub fn first_other<D: Device>(
    alloc: Global,
    kernel: &mut Kernel<D>,
    rows: &[Row],
) -> Result<Option<(usize, Outcome)>, Refusal> {
    for (place, (txn, ask, due)) in rows.iter().enumerate() {
        let outcome = asked(alloc, kernel, TxnNo::new(*txn), ask)?;
        if outcome != *due {
            return Ok(Some((place, outcome)));
        }
    }
    Ok(None)
}

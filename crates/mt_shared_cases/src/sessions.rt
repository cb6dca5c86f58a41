// Transactions of a pass, each spent in any case.
use crate::kernels::Memory;
use mt_base::{Bytes, Refusal, RelNo};
use mt_model::{Op, Reply};
use mt_shared::{Naming, Pass, Refused, Txn};
use std::alloc::{AllocError, Global};
use std::sync::Wait;

/// Takes a transaction back.
pub fn take_back<J: Naming, R: Wait>(rt: &R, shared: &Memory<J>, pass: &mut Pass<J>, txn: Txn<J>) {
    let mut kept = txn;
    for _ in rt.forever() {
        match shared.abort(rt, pass, kept) {
            Ok(()) => return,
            Err(Refused { why: _, txn: None }) => return,
            Err(
                Refused {
                    why: _,
                    txn: Some(back),
                },
            ) => kept = back,
        }
    }
    unreachable!()
}

/// Commits a transaction, and answers its place; 0 if that is refused, and the transaction is taken back.
pub fn end<J: Naming, R: Wait>(rt: &R, shared: &Memory<J>, pass: &mut Pass<J>, txn: Txn<J>) -> u64 {
    match shared.commit(rt, pass, txn) {
        Ok(place) => place,
        Err(Refused { why: _, txn: None }) => 0,
        Err(
            Refused {
                why: _,
                txn: Some(back),
            },
        ) => {
            take_back(rt, shared, pass, back);
            0
        }
    }
}

/// An insert of a value under a key of relation 0.
pub fn insert(alloc: Global, key: &[u8], value: &[u8]) -> Result<Op, AllocError> {
    let key = Bytes::copy_of(alloc, key)?;
    Ok(Op::Insert(RelNo::new(0), key, Bytes::copy_of(alloc, value)?))
}

/// Runs an insert of a value under a key of relation 0.
pub fn run_insert<J: Naming, R: Wait>(
    rt: &R,
    alloc: Global,
    shared: &Memory<J>,
    txn: &mut Txn<J>,
    (key, value): (&[u8], &[u8]),
) -> Result<(), Refusal> {
    shared.run(rt, txn, insert(alloc, key, value)?)
}

/// Whether a transaction's last operation was replied so.
pub fn has_replied<J: Naming>(txn: &Txn<J>, want: &Reply) -> bool {
    match txn.calls().last() {
        Some((_op, reply)) => reply == want,
        None => false,
    }
}

// Locks that are asked for at once: all are granted or none, and the oldest in the way of any decides.
use mt_base::{Bytes, LockMode, Refusal, RelNo, TxnNo};
use mt_model::{Asks, Object, Op};
use mt_slock::{Asked, Fresh, LockTable};
use std::alloc::Global;
use std::process::Abort;
use std::test::Fail;

/// The relation of all rows.
fn relation() -> RelNo {
    RelNo::new(0)
}

/// The key of one letter.
fn key(rt: &impl Abort, alloc: Global, letter: u8) -> Bytes {
    match Bytes::copy_of(alloc, &[letter]) {
        Ok(key) => key,
        Err(_) => panic!(rt; "no memory"),
    }
}

/// What a read of a relation as a whole asks for.
fn whole() -> Asks {
    Asks {
        intent: None,
        object: Object::Relation(relation()),
        mode: LockMode::Read,
    }
}

/// What a get under a key asks for.
fn get(rt: &impl Abort, alloc: Global, letter: u8) -> Asks {
    Asks {
        intent: None,
        object: Object::Key(relation(), key(rt, alloc, letter)),
        mode: LockMode::Read,
    }
}

/// What a delete under a key asks for.
fn delete(rt: &impl Abort, alloc: Global, letter: u8) -> Asks {
    match Op::Delete(relation(), key(rt, alloc, letter)).asks() {
        Ok(asks) => asks,
        Err(_) => panic!(rt; "no memory"),
    }
}

/// Asks for locks that are to be granted: which of them are fresh.
fn grants(rt: &impl Abort, locks: &mut LockTable, txn: u64, asks: Asks) -> (bool, bool) {
    match locks.ask(TxnNo::new(txn), asks) {
        Ok(Asked::Granted(Fresh { intent, object })) => (intent, object),
        _ => panic!(rt; "{txn}: not granted"),
    }
}

/// Asks for locks: whether this transaction is to be waited for.
fn waits(locks: &mut LockTable, txn: u64, asks: Asks, holder: u64) -> bool {
    locks.ask(TxnNo::new(txn), asks) == Ok(Asked::Wait(TxnNo::new(holder)))
}

/// Asks for locks: whether this transaction is to be died for.
fn dies(locks: &mut LockTable, txn: u64, asks: Asks, holder: u64) -> bool {
    locks.ask(TxnNo::new(txn), asks) == Err(Refusal::Die(TxnNo::new(holder)))
}

/// Whether a transaction intends to write in the relation, and whether it holds a key for write.
fn holds(rt: &impl Abort, alloc: Global, locks: &LockTable, txn: u64, letter: u8) -> (bool, bool) {
    let key = Object::Key(relation(), key(rt, alloc, letter));
    (
        locks.holds(
            TxnNo::new(txn),
            &Object::Relation(relation()),
            LockMode::Intend,
        ),
        locks.holds(TxnNo::new(txn), &key, LockMode::Write),
    )
}

#[test]
fn two_writers_of_different_keys_are_both_granted(rt: HostRuntime) -> Result<(), Fail> {
    let alloc = rt.alloc();
    let mut locks = LockTable::new(alloc);
    assert!(rt; grants(&rt, &mut locks, 1, delete(&rt, alloc, b'a')) == (true, true));
    assert!(rt; grants(&rt, &mut locks, 2, delete(&rt, alloc, b'b')) == (true, true));
    assert!(rt; grants(&rt, &mut locks, 1, delete(&rt, alloc, b'c')) == (false, true));
    assert!(rt; dies(&mut locks, 3, whole(), 1));
    Ok(())
}

#[test]
fn one_object_in_the_way_leaves_nothing_held(rt: HostRuntime) -> Result<(), Fail> {
    let alloc = rt.alloc();
    let mut locks = LockTable::new(alloc);
    assert!(rt; grants(&rt, &mut locks, 3, get(&rt, alloc, b'a')) == (false, true));
    assert!(rt; waits(&mut locks, 1, delete(&rt, alloc, b'a'), 3));
    assert!(rt; holds(&rt, alloc, &locks, 1, b'a') == (false, false));
    assert!(rt; grants(&rt, &mut locks, 3, whole()) == (false, true));
    assert!(rt; waits(&mut locks, 1, delete(&rt, alloc, b'b'), 3));
    assert!(rt; holds(&rt, alloc, &locks, 1, b'b') == (false, false));
    Ok(())
}

#[test]
fn the_oldest_in_the_way_of_either_decides(rt: HostRuntime) -> Result<(), Fail> {
    let alloc = rt.alloc();
    let mut locks = LockTable::new(alloc);
    assert!(rt; grants(&rt, &mut locks, 3, whole()) == (false, true));
    assert!(rt; grants(&rt, &mut locks, 2, get(&rt, alloc, b'a')) == (false, true));
    assert!(rt; waits(&mut locks, 1, delete(&rt, alloc, b'a'), 2));
    assert!(rt; dies(&mut locks, 4, delete(&rt, alloc, b'a'), 2));
    assert!(rt; dies(&mut locks, 4, delete(&rt, alloc, b'b'), 3));
    Ok(())
}

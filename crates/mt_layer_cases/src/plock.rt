// A page lock for read that becomes one for write.
use mt_base::{Mode, OpNo, PageNo};
use mt_plock::{Asked, PageGuard, PageLocks};
use std::process::Abort;
use std::test::Fail;

/// Asks for a lock that is to be granted.
fn grants(rt: &impl Abort, locks: &mut PageLocks, op: u64, page: u16, mode: Mode) -> PageGuard {
    match locks.ask(OpNo::new(op), PageNo::new(page), mode) {
        Ok(Asked::Granted(guard)) => guard,
        _ => panic!(rt; "{op} {page}: not granted"),
    }
}

/// Asks for a write that is not to be granted: whether to wait, or else to begin again, and who is in the way.
fn barred(rt: &impl Abort, locks: &mut PageLocks, op: u64, page: u16) -> (bool, u64) {
    let Ok(asked) = locks.ask(OpNo::new(op), PageNo::new(page), Mode::Write) else {
        panic!(rt; "no memory")
    };
    match asked {
        Asked::Wait(holder) => (true, holder.get()),
        Asked::Again(holder) => (false, holder.get()),
        Asked::Granted(_guard) => panic!(rt; "{op} {page}: granted"),
    }
}

#[test]
fn a_read_becomes_a_write_of_its_only_holder(rt: HostRuntime) -> Result<(), Fail> {
    let mut locks = PageLocks::new(rt.alloc());
    let one = grants(&rt, &mut locks, 1, 7, Mode::Read);
    let two = grants(&rt, &mut locks, 2, 7, Mode::Read);
    assert!(rt; barred(&rt, &mut locks, 1, 7) == (true, 2));
    assert!(rt; barred(&rt, &mut locks, 2, 7) == (false, 1));
    locks.release(two);
    let more = grants(&rt, &mut locks, 1, 7, Mode::Write);
    locks.release(more);
    locks.release(one);
    Ok(())
}

// A rotation that is refused with 11 leaves the very kernel, which goes on. One that is refused with 1 is for
// `tests/memory/run`, which refuses each of its requests of memory in turn.
use mt_base::{CtrNo, Refusal};
use mt_disk::MemDevice;
use mt_model::Op;
use mt_restart::{Standing, format, open, rotate};
use mt_test_kit::devices::{empty_device, put, put_away, row_schema};
use mt_test_kit::whole_operations::{Outcome, committed, run};
use mt_txn::Kernel;
use std::alloc::Global;
use std::test::Fail;

/// The offset of the epoch of the first master slot.
const EPOCH_OFFSET: usize = 5;

/// The last epoch but one.
const LAST_BUT_ONE: [u8; 8] = [0x7F, 0xFF, 0xFF, 0xFF, 0xFF, 0xFF, 0xFF, 0xFF];

// A kernel of the last epoch, whose log cannot be turned over.
fn last_kernel(alloc: Global) -> Result<Kernel<MemDevice>, Refusal> {
    let schema = row_schema(alloc, 64)?;
    let mut device = empty_device(alloc, 64)?;
    format(&mut device, &schema)?;
    put(&mut device, EPOCH_OFFSET, &LAST_BUT_ONE)?;
    match open(alloc, device, 64) {
        Ok(kernel) => Ok(kernel),
        Err((why, _device)) => Err(why),
    }
}

// Adds 1 in a transaction of its own, and commits it.
fn add_one(kernel: &mut Kernel<MemDevice>) -> Outcome {
    let txn = match kernel.begin(1) {
        Ok(txn) => txn,
        Err(why) => return Outcome::Refused(why),
    };
    match run(kernel, txn, Op::Add(CtrNo::new(0), 1)) {
        Outcome::Done => committed(kernel, txn),
        other => other,
    }
}

// Adds 1 to what a rotation leaves, if that is refused with 11.
fn add_one_after(alloc: Global, kernel: Kernel<MemDevice>) -> Outcome {
    let (standing, refused) = rotate(alloc, kernel, 64);
    match standing {
        Standing::Ended(_device) => Outcome::Refused(Refusal::DeviceFailed),
        Standing::Stands(kernel) => {
            let mut kernel = kernel;
            let outcome = add_one(&mut kernel);
            put_away(kernel);
            if refused == Err(Refusal::LogFull) {
                outcome
            } else {
                Outcome::Stuck
            }
        }
    }
}

/// The commit after the rotation is the second of the same book.
#[test]
fn a_log_that_cannot_be_turned_over_leaves_the_kernel(rt: HostRuntime) -> Result<(), Fail> {
    let mut kernel = last_kernel(rt.alloc())?;
    let first = add_one(&mut kernel);
    let second = add_one_after(rt.alloc(), kernel);
    assert!(rt; first == Outcome::Committed(1) && second == Outcome::Committed(2));
    Ok(())
}

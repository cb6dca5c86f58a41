//! Two threads that move amounts between two counters of one kernel: the program of docs/EMBEDDING.md.
#![tactic(auto)]

ghost use Rattle.std.specs.Prelude.{◌≡◌};

use mt_base::{CtrNo, Refusal};
use mt_disk::MemDevice;
use mt_model::Op;
use mt_restart::{Schema, format};
use mt_shared::{Closed, Gate, Naming, Opened, Pass, Point, Refused, Shared, Txn};
use mt_txn::Kernel;
use std::alloc::Global;
use std::io;
use std::marker::Brand;
use std::sync::Wait;
use std::thread::{self, Threads};

/// An observer that wants no point.
#[derive(Drop)]
struct NoGate;

impl Gate for NoGate {
    fn at(&self, _session: u32, _point: Point) {}

    fn wants(&self, _point: Point) -> bool {
        false
    }
}

/// The kernel that both threads share.
type Both<J> = Shared<MemDevice, NoGate, J>;

/// Takes a transaction back, and asks again as long as that is refused. Of its own pass it is refused with 2 alone,
/// as far as is known, and is gone then.
fn take_back<J: Naming, R: Wait>(rt: &R, shared: &Both<J>, pass: &mut Pass<J>, txn: Txn<J>) {
    let mut kept = txn;
    for _ in rt.forever() {
        match shared.abort(rt, pass, kept) {
            Ok(()) => return,
            Err(Refused { why: _, txn }) => match txn {
                Some(back) => kept = back,
                None => return,
            },
        }
    }
    unreachable!()
}

/// Commits a transaction, and answers its place in the history. One that is refused is taken back.
fn end<J: Naming, R: Wait>(
    rt: &R,
    shared: &Both<J>,
    pass: &mut Pass<J>,
    txn: Txn<J>,
) -> Result<u64, Refusal> {
    match shared.commit(rt, pass, txn) {
        Ok(place) => Ok(place),
        Err(Refused { why, txn }) => {
            if let Some(back) = txn {
                take_back(rt, shared, pass, back);
            }
            Err(why)
        }
    }
}

/// Moves 1 from counter 0 to counter 1 in a transaction of its own.
fn transfer<J: Naming, R: Wait>(
    rt: &R,
    alloc: Global,
    shared: &Both<J>,
    pass: &mut Pass<J>,
) -> Result<u64, Refusal> {
    let mut txn = shared.begin(rt, alloc, pass, 1)?;
    let taken = shared.run(rt, &mut txn, Op::Add(CtrNo::new(0), -1));
    let ran = taken.and_then(|()| shared.run(rt, &mut txn, Op::Add(CtrNo::new(1), 1)));
    match ran {
        Ok(()) => end(rt, shared, pass, txn),
        Err(why) => {
            take_back(rt, shared, pass, txn);
            Err(why)
        }
    }
}

/// Transfers of each thread.
const TRANSFERS: u32 = 100;

/// Each pass makes its transfers in a thread of its own.
fn transfer_all<J: Naming + Send + Sync, R: Threads + Wait + Sync>(
    rt: &R,
    alloc: Global,
    shared: &Both<J>,
    passes: &mut [Pass<J>],
) {
    thread::for_each_mut(
        rt,
        passes,
        2,
        &|_number, pass| {
            for _ in 0..TRANSFERS {
                let _reported = transfer(rt, alloc, shared, pass);
            }
        },
    );
}

/// Shares an opened kernel under a name, and gives it back after all transfers.
fn shared_transfers<J: Naming + Send + Sync, R: Threads + Wait + Sync>(
    rt: &R,
    alloc: Global,
    opened: Opened<MemDevice>,
) -> Result<Kernel<MemDevice>, Refusal>
    requires { (opened.mark ≡ J.mark) × (opened.base ≡ J.base) × (opened.book ≡ J.book) }
{
    let (shared, mut passes) = match opened.named::<NoGate, J>(alloc, NoGate) {
        Ok(made) => made,
        Err(kernel) => {
            let _device = kernel.into_device();
            return Err(Refusal::NoMemory);
        }
    };
    transfer_all(rt, alloc, &shared, passes.as_mut_slice());
    match shared.close(passes) {
        Ok(kernel) => Ok(kernel),
        Err(
            Closed {
                why,
                shared,
                passes: _,
            },
        ) => {
            drop(shared.abandon());
            Err(why)
        }
    }
}

/// A device in memory with two counters, formatted and opened for two threads.
fn opened(alloc: Global) -> Result<Opened<MemDevice>, Refusal> {
    let schema = Schema::new(alloc, 64, 4, 1, &[(0, 1000, 500), (0, 1000, 0)])?;
    let bytes = vec![in alloc; 0u8; schema.device_len() as usize]?;
    let mut device = MemDevice::new(alloc, bytes, 4200, 8_400_000)?;
    format(&mut device, &schema)?;
    match Opened::open(alloc, device, 64, 2) {
        Ok(opened) => Ok(opened),
        Err((why, _device)) => Err(why),
    }
}

/// Where the two counters stand after all transfers.
fn transferred<R: Threads + Wait + Sync>(rt: &R, alloc: Global) -> Result<[i64; 2], Refusal> {
    let mut kernel = shared_transfers::<Brand, R>(rt, alloc, opened(alloc)?)?;
    let survey = kernel.survey();
    let _device = kernel.into_device();
    let base = survey?.base;
    let mut numbers = [0; 2];
    for (number, counter) in numbers.iter_mut().zip(base.counters()) {
        *number = counter.number;
    }
    Ok(numbers)
}

fn main(rt: HostRuntime) -> io::Result<()> {
    let (from, to) = match transferred(&rt, rt.alloc()) {
        Ok(numbers) => (numbers[0], numbers[1]),
        Err(why) => return println!(rt; "{why}"),
    };
    println!(rt; "counter 0 stands at {from}, counter 1 at {to}")
}

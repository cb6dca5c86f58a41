// Operations, commits and aborts of the kernel over pages, each from its begin to its end.
ghost use Rattle.std.specs.Prelude.{◌<◌};

use mt_base::{Refusal, TxnNo};
use mt_disk::{Device, MemDevice};
use mt_model::{Op, Reply};
use mt_restart::{Schema, fresh};
use mt_txn::{AbortStepped, Called, Flushed, Kernel, KernelForced, Stepped};
use std::alloc::Global;

/// What a call answered, values by their lengths.
#[derive(Clone, Copy, PartialEq, Eq)]
pub enum Outcome {
    Started,
    Went,
    Again,
    Flush,
    Wait(u64),
    Found(usize),
    Missing,
    Exists,
    Done,
    Was(usize),
    Value(i64),
    Rows(usize),
    OutOfBounds,
    Committed(u64),
    /// Nothing is left to undo.
    Ended,
    /// The number of a transaction, or of those of its operations that count.
    Number(u64),
    Refused(Refusal),
    /// It comes to no end.
    Stuck,
}

/// A kernel over a device in memory of two relations, which was formatted, in so many frames.
pub fn kernel_of(
    alloc: Global,
    pages: u16,
    mib: u8,
    frames: usize,
    counters: &[(i64, i64, i64)],
) -> Result<Kernel<MemDevice>, Refusal>
    requires { 0 < frames }
{
    let schema = Schema::new(alloc, pages, mib, 2, counters)?;
    let bytes = vec![in alloc; 0u8; schema.device_len() as usize]?;
    let device = MemDevice::new(alloc, bytes, 4096, 67_108_864)?;
    match fresh(alloc, device, &schema, frames) {
        Ok(kernel) => Ok(kernel),
        Err((why, _device)) => Err(why),
    }
}

fn reported_of(reply: &Reply) -> Outcome {
    match reply {
        Reply::Found(value) => Outcome::Found(value.len()),
        Reply::Missing => Outcome::Missing,
        Reply::Exists => Outcome::Exists,
        Reply::Done => Outcome::Done,
        Reply::Was(value) => Outcome::Was(value.len()),
        Reply::Value(number) => Outcome::Value(*number),
        Reply::Rows(rows) => Outcome::Rows(rows.as_slice().len()),
        Reply::OutOfBounds => Outcome::OutOfBounds,
    }
}

fn reported_of_call(called: Called) -> Outcome {
    match called {
        Called::Started => Outcome::Started,
        Called::Wait(holder) => Outcome::Wait(holder.get()),
    }
}

/// Calls an operation.
pub fn called<D: Device>(kernel: &mut Kernel<D>, txn: TxnNo, op: &Op) -> Outcome {
    match kernel.call(txn, op) {
        Ok(called) => reported_of_call(called),
        Err(why) => Outcome::Refused(why),
    }
}

fn reported_of_step(stepped: &Stepped) -> Outcome {
    match stepped {
        Stepped::Went => Outcome::Went,
        Stepped::Wait(other) => Outcome::Wait(other.get()),
        Stepped::Again => Outcome::Again,
        Stepped::Flush => Outcome::Flush,
        Stepped::Replied(reply) => reported_of(reply),
    }
}

/// Makes a step of an operation.
pub fn stepped<D: Device>(kernel: &mut Kernel<D>, txn: TxnNo) -> Outcome {
    match kernel.step(txn) {
        Ok(stepped) => reported_of_step(&stepped),
        Err(why) => Outcome::Refused(why),
    }
}

// Writes a page into its slot, after the log's force if it waits for one. Answers `Went` if one was written.
fn flushed<D: Device>(kernel: &mut Kernel<D>) -> Outcome {
    for _step in 0..16u8 {
        match kernel.flush_step() {
            Ok(Flushed::Page(_)) => return Outcome::Went,
            Ok(Flushed::Force) => {}
            Ok(Flushed::Clean) => return Outcome::Stuck,
            Err(why) => return Outcome::Refused(why),
        }
        if let Err(why) = kernel.force_step() {
            return Outcome::Refused(why);
        }
    }
    Outcome::Stuck
}

// Makes a step of an operation, or makes room for it.
fn stepped_or_flushed<D: Device>(kernel: &mut Kernel<D>, txn: TxnNo) -> Outcome {
    match stepped(kernel, txn) {
        Outcome::Flush => flushed(kernel),
        other => other,
    }
}

// Makes an operation on from its call, which was answered so, to its reply or to what is in its way.
fn finished<D: Device>(kernel: &mut Kernel<D>, txn: TxnNo, called: Outcome) -> Outcome {
    let mut outcome = called;
    for _step in 0..1000u16 {
        match outcome {
            Outcome::Started | Outcome::Went | Outcome::Again => {}
            other => return other,
        }
        outcome = stepped_or_flushed(kernel, txn);
    }
    Outcome::Stuck
}

/// Makes an operation from its call to its reply, or to what is in its way.
pub fn run<D: Device>(kernel: &mut Kernel<D>, txn: TxnNo, op: Op) -> Outcome {
    let called = called(kernel, txn, &op);
    finished(kernel, txn, called)
}

/// Commits a transaction, and makes the commit durable.
pub fn committed<D: Device>(kernel: &mut Kernel<D>, txn: TxnNo) -> Outcome {
    let place = match kernel.commit_begin(txn) {
        Ok(place) => place,
        Err(why) => return Outcome::Refused(why),
    };
    for _step in 0..8u8 {
        match kernel.force_step() {
            Ok(KernelForced::Durable(names)) => {
                if names.as_slice() == [txn].as_slice() {
                    return Outcome::Committed(place);
                }
            }
            Ok(_) => {}
            Err(why) => return Outcome::Refused(why),
        }
    }
    Outcome::Stuck
}

/// What a step of an abort answered, or of going back.
pub fn reported_of_abort(stepped: AbortStepped) -> Outcome {
    match stepped {
        AbortStepped::More => Outcome::Went,
        AbortStepped::Wait(other) => Outcome::Wait(other.get()),
        AbortStepped::Again => Outcome::Again,
        AbortStepped::Flush => Outcome::Flush,
        AbortStepped::Ended => Outcome::Ended,
    }
}

// Makes a step of an abort, or makes room for it.
fn abort_stepped<D: Device>(kernel: &mut Kernel<D>, txn: TxnNo) -> Outcome {
    let outcome = match kernel.abort_step(txn) {
        Ok(stepped) => reported_of_abort(stepped),
        Err(why) => Outcome::Refused(why),
    };
    match outcome {
        Outcome::Flush => flushed(kernel),
        other => other,
    }
}

/// Aborts a transaction.
pub fn aborted<D: Device>(kernel: &mut Kernel<D>, txn: TxnNo) -> Outcome {
    if let Err(why) = kernel.abort_begin(txn) {
        return Outcome::Refused(why);
    }
    for _step in 0..10_000u16 {
        match abort_stepped(kernel, txn) {
            Outcome::Went | Outcome::Again => {}
            other => return other,
        }
    }
    Outcome::Stuck
}

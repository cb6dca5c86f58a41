// Scripts that run alone on a kernel, over a writer or a device that fails in the middle.
use mt_alone::{RunFault, run_alone};
use mt_base::Refusal;
use mt_disk::FaultDevice;
use mt_script::{Script, read_script};
use mt_test_kit::devices::{empty_device, kernel_over, put_away};
use std::io::{self, ErrorKind, Write};
use std::process::Abort;
use std::test::Fail;

/// A writer that has room for so many bytes and then fails; nor is it flushed once it is full.
#[derive(Drop)]
struct Narrow {
    room: usize,
    taken: Vec<u8>,
}

impl Write for Narrow {
    fn write(&mut self, buf: &[u8]) -> io::Result<usize> {
        let count = buf.len().min(self.room);
        if count == 0 || self.taken.extend_from_slice(&buf[..count]).is_err() {
            return Err(io::Error::from(ErrorKind::Other));
        }
        self.room -= count;
        Ok(count)
    }

    fn flush(&mut self) -> io::Result<()> {
        if self.room == 0 {
            return Err(io::Error::from(ErrorKind::Other));
        }
        Ok(())
    }
}

/// What two scripts left that were run one after the other, the first over a writer with little room.
#[derive(Drop)]
struct Both {
    unheard: Result<(), RunFault>,
    front: Vec<u8>,
    heard: Result<(), RunFault>,
    out: Vec<u8>,
}

/// Runs both on one kernel.
fn run_both(
    rt: &(impl Abort + AllocGlobal),
    first: &Script,
    second: &Script,
) -> Result<Both, Fail> {
    let alloc = rt.alloc();
    let mut kernel = kernel_over(alloc, empty_device(alloc, 64)?)?;
    let taken = Vec::new(alloc);
    let mut narrow = Narrow { room: 12, taken };
    let unheard = run_alone(&mut kernel, 1, first, &mut narrow);
    let mut out = Vec::new(alloc);
    let heard = run_alone(&mut kernel, 1, second, &mut out);
    put_away(kernel);
    let Narrow { room: _, taken } = narrow;
    Ok(Both {
        unheard,
        front: taken,
        heard,
        out,
    })
}

/// That the first was cut short, and the second met nothing of it.
fn expect_unheard(rt: &(impl Abort + AllocGlobal), both: &Both) {
    assert!(rt; matches!(both.unheard, Err(RunFault::Output)));
    assert_eq!(rt; both.front.as_slice(), b"begun\ndone\nd".as_slice());
    assert!(rt; both.heard.is_ok());
    assert_eq!(rt;
        both.out.as_slice(),
        b"begun\nmissing\ncommitted 1\n".as_slice()
    );
}

#[test]
fn a_transaction_that_nobody_hears_is_aborted(rt: HostRuntime) -> Result<(), Fail> {
    let alloc = rt.alloc();
    let mut first = b"begin\ninsert 0 a x\ninsert 0 b y\n".as_slice();
    let mut second = b"begin\nget 0 a\ncommit\n".as_slice();
    let first = read_script(alloc, &mut first)?;
    let second = read_script(alloc, &mut second)?;
    let both = run_both(&rt, &first, &second)?;
    expect_unheard(&rt, &both);
    Ok(())
}

/// How a run ended, and what was written.
#[derive(Drop)]
struct Failing {
    ran: Result<(), RunFault>,
    out: Vec<u8>,
}

/// Runs a script over a device that fails at a call, which may be one of the format.
fn run_failing(
    rt: &(impl Abort + AllocGlobal),
    script: &Script,
    call: u64,
) -> Result<Failing, Fail> {
    let alloc = rt.alloc();
    let device = FaultDevice::new(empty_device(alloc, 64)?, call);
    let mut out = Vec::new(alloc);
    let mut kernel = match kernel_over(alloc, device) {
        Ok(kernel) => kernel,
        Err(why) => {
            let ran = Err(RunFault::Refused(why));
            return Ok(Failing { ran, out });
        }
    };
    let ran = run_alone(&mut kernel, 1, script, &mut out);
    put_away(kernel);
    Ok(Failing { ran, out })
}

/// That the device's failure ended the run, and is the last line.
fn expect_failed(rt: &(impl Abort + AllocGlobal), failing: &Failing) {
    assert!(rt; matches!(failing.ran, Err(RunFault::Refused(Refusal::DeviceFailed))));
    assert_eq!(rt;
        failing.out.as_slice(),
        b"begun\ndone\nrefused 2 DeviceFailed\n".as_slice()
    );
}

/// That the run ended well.
fn expect_committed(rt: &(impl Abort + AllocGlobal), failing: &Failing) {
    assert!(rt; failing.ran.is_ok());
    assert_eq!(rt;
        failing.out.as_slice(),
        b"begun\ndone\ncommitted 1\n".as_slice()
    );
}

/// The first call of the device that is made no more. Those of the format, which are 73 for 64 pages, and those of
/// the run are before it.
fn first_unmade(rt: &(impl Abort + AllocGlobal), script: &Script) -> Result<u64, Fail> {
    for call in 74..120u64 {
        if run_failing(rt, script, call)?.ran.is_ok() {
            return Ok(call);
        }
    }
    Ok(74)
}

#[test]
fn a_failing_device_ends_the_run(rt: HostRuntime) -> Result<(), Fail> {
    let mut bytes = b"begin\ninsert 0 a x\ncommit\n".as_slice();
    let script = read_script(rt.alloc(), &mut bytes)?;
    let unmade = first_unmade(&rt, &script)?;
    // the last four make the commit durable
    for call in unmade.saturating_sub(4)..unmade {
        let failing = run_failing(&rt, &script, call)?;
        expect_failed(&rt, &failing);
    }
    let well = run_failing(&rt, &script, unmade)?;
    expect_committed(&rt, &well);
    Ok(())
}

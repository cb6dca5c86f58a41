// Scripts that two threads serve to a device in memory.
use crate::kernels::empty_device;
use mt_base::Refusal;
use mt_restart::{Schema, format};
use mt_script::{Script, read_script};
use mt_server::{Served, Transcript, serve};
use mt_shared::{Gate, Point};
use std::alloc::Global;
use std::sync::Wait;
use std::sync::atomic::{AtomicBool, Ordering};
use std::test::Fail;
use std::thread;
use std::thread::Threads;

// The scripts of these texts.
fn scripts_of(alloc: Global, texts: &[&[u8]]) -> Result<Vec<Script>, Refusal> {
    let mut scripts = Vec::with_capacity(alloc, texts.len())?;
    for text in texts {
        let mut bytes: &[u8] = text;
        match read_script(alloc, &mut bytes) {
            Ok(script) => scripts.push(script)?,
            Err(_) => return Err(Refusal::BadLine(0)),
        }
    }
    Ok(scripts)
}

/// How often who is held looks whether it may go on, and the pauses of each time.
const LOOKS: u32 = 10_000;

const PAUSES: u32 = 100;

// Holds the first session after its operation's first step, until another session has committed.
#[derive(Drop)]
struct HoldsFirst {
    committed: AtomicBool,
}

impl Gate for HoldsFirst {
    fn at(&self, session: u32, point: Point) {
        if point == Point::Committed {
            self.committed.store(true, Ordering::SeqCst);
        }
        if session == 1 && point == Point::Stepped {
            hold(&self.committed);
        }
    }

    fn wants(&self, point: Point) -> bool {
        point == Point::Stepped || point == Point::Committed
    }
}

// Waits until the flag is set, but not for ever.
fn hold(flag: &AtomicBool) {
    for _ in 0..LOOKS {
        if flag.load(Ordering::SeqCst) {
            return;
        }
        pause();
    }
}

fn pause() {
    for _ in 0..PAUSES {
        thread::yield_now();
    }
}

// The transcripts of these scripts, and how many commits there are.
fn served<G: Gate + Drop + Send + Sync, R: Threads + Wait + Sync>(
    rt: &R,
    alloc: Global,
    scripts: Vec<Script>,
    workers: usize,
    gate: G,
) -> Result<(Vec<Transcript>, usize), Refusal> {
    let schema = Schema::new(alloc, 64, 4, 2, &[(0i64, 1000i64, 5i64)])?;
    let mut device = empty_device(alloc, schema.device_len())?;
    format(&mut device, &schema)?;
    let Served {
        kernel,
        transcripts,
    } = serve(rt, alloc, device, 64, scripts, workers, gate)?;
    let commits = kernel.book().len();
    let _device = kernel.into_device();
    Ok((transcripts, commits))
}

// How many of the transcripts are these texts, place by place.
fn alike(transcripts: &[Transcript], texts: &[&[u8]]) -> usize {
    let pairs = transcripts.iter().zip(texts.iter());
    pairs.filter(|pair| pair.0.as_bytes() == *pair.1).count()
}

/// While one session is held within its operation, another runs and commits.
#[test]
fn another_commits_while_one_is_held(rt: HostRuntime) -> Result<(), Fail> {
    let texts: [&[u8]; 2] = [
        b"begin\nadd 0 1\ncommit\n",
        b"begin\ninsert 0 a x\ncommit\n",
    ];
    let scripts = scripts_of(rt.alloc(), &texts)?;
    let gate = HoldsFirst {
        committed: AtomicBool::new(false),
    };
    let (outcome, commits) = served(&rt, rt.alloc(), scripts, 2, gate)?;
    let due: [&[u8]; 2] = [b"begun\ndone\ncommitted 2\n", b"begun\ndone\ncommitted 1\n"];
    assert!(rt; commits == 2 && alike(outcome.as_slice(), &due) == 2);
    Ok(())
}

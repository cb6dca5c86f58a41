//! The program `mtk`: the command line, with the standard streams and the files of the system.
#![tactic(auto)]

mod progress;

use crate::progress::Progress;
use mt_cli::{DiskFolder, perform_words};
use std::env;
use std::fs::{File, OpenOptions};
use std::io::{self, BufWriter, ErrorKind, IsTerminal, Write};
use std::os::fd::AsRawFd;
use std::process::ExitCode;
use std::rt::{Files, Runtime};
use std::sync::Wait;
use std::thread::Threads;

/// The status of a program that found no memory for the words of its command line.
const REFUSED: u8 = 1;

/// The status of a command line with a word that is no text.
const MISUSED: u8 = 2;

/// A file that is nothing, which stands in for a standard stream.
const NOTHING: &str = "/dev/null";

/// The number of the standard input, and of the last of the standard streams.
const INPUT: i32 = 0;

const LAST_STREAM: i32 = 2;

/// Opens nothing under the lowest free number if that is one of a standard stream. It is opened the wrong way round,
/// so that a stream which the program was started without is still one that cannot be read or written.
fn stand_in<R: Files<File = File>>(rt: &R) -> Option<File> {
    let to_write = OpenOptions::new().write(true).open(rt, NOTHING).ok()?;
    if to_write.as_raw_fd() == INPUT {
        return Some(to_write);
    }
    drop(to_write);
    let to_read = OpenOptions::new().read(true).open(rt, NOTHING).ok()?;
    if to_read.as_raw_fd() <= LAST_STREAM {
        Some(to_read)
    } else {
        None
    }
}

/// Does what the command line asks for, with this output and error output and the input and files of the system. It
/// gives the status. How far a run has come is printed as `progress` says. It fails if a word is not UTF-8, and if
/// there is no memory for the words.
fn done<
    R: Runtime + Files<File = File> + AllocGlobal + Threads + Wait + Sync,
    O: Write + Drop,
    E: Write,
    P: Write + Copy + Send + Sync,
>(rt: &R, out: O, err: &mut E, progress: Progress<P>) -> io::Result<u8> {
    let alloc = rt.alloc();
    let own: Vec<String> = env::args(rt)?.skip(1).collect(alloc)?;
    let mut words = Vec::with_capacity(alloc, own.len())?;
    for word in &own {
        words.push(word.as_str())?;
    }
    let mut folder = DiskFolder::new(rt);
    let mut input = rt.reader();
    // a script that runs alone flushes it at the end of each transaction, so a commit is reported once it is durable
    let mut out = BufWriter::new(alloc, out)?;
    Ok(perform_words(
        rt,
        alloc,
        words.as_slice(),
        &mut folder,
        &mut input,
        &mut out,
        err,
        progress,
    ))
}

/// Prints why the command line is not read, and gives the status.
fn unread<W: Write>(err: &mut W, why: ErrorKind) -> u8 {
    let text: &[u8] = match why {
        ErrorKind::OutOfMemory => { b"refused 1 NoMemory\nmtk: there is not enough memory\n" }
        _ => b"error: a word of the command line is not UTF-8\n",
    };
    // if that cannot be printed either, the status alone says it
    let _reported = err.write(text);
    match why {
        ErrorKind::OutOfMemory => REFUSED,
        _ => MISUSED,
    }
}

fn main(rt: HostRuntime) -> io::Result<ExitCode> {
    // no file of ours gets the number of a standard stream, so nothing that is printed goes into a device
    let _streams = (stand_in(&rt), stand_in(&rt), stand_in(&rt));
    let progress = Progress::new(rt.stderr(), rt.stderr().is_terminal());
    match done(&rt, rt.stdout(), &mut rt.stderr(), progress) {
        Ok(status) => Ok(ExitCode::from(status)),
        Err(fault) => Ok(ExitCode::from(unread(&mut rt.stderr(), fault.kind()))),
    }
}

// How far a run has come, printed on a terminal.
use itoa::Buffer;
use mt_cli::{Gate, Point};
use std::io::Write;
use std::sync::atomic::{AtomicU64, Ordering};

/// The line is drawn anew after so many commits.
const EACH: u64 = 64;

/// Goes back to the line's begin and deletes what stands there.
const CLEARED: &[u8] = b"\r\x1b[K";

/// Prints on a terminal how many transactions have committed, in a line that is drawn anew and deleted at the end. If
/// it is none, nothing is printed. What cannot be written is left out.
pub(crate) struct Progress<E: Write + Copy> {
    err: E,
    is_terminal: bool,
    commits: AtomicU64,
}

impl<E: Write + Copy> Progress<E> {
    /// Prints on this output, if that is a terminal.
    pub(crate) fn new(err: E, is_terminal: bool) -> Progress<E> {
        Progress {
            err,
            is_terminal,
            commits: AtomicU64::new(0),
        }
    }

    /// Draws the line, and goes back to its begin. So a program that is ended leaves no line before the prompt.
    fn draw(&self, commits: u64) {
        let mut digits = Buffer::new();
        let digits = digits.format(commits);
        let mut err = self.err;
        let _cleared = err.write(CLEARED);
        let _number = err.write(digits.as_bytes());
        let _what = err.write(b" committed\r");
    }
}

impl<E: Write + Copy> Gate for Progress<E> {
    fn at(&self, _session: u32, _point: Point) {
        let commits = self.commits.fetch_add(1, Ordering::SeqCst);
        if commits % EACH == 0 {
            self.draw(commits.wrapping_add(1));
        }
    }

    fn wants(&self, point: Point) -> bool {
        self.is_terminal && point == Point::Committed
    }
}

impl<E: Write + Copy> Drop for Progress<E> {
    fn drop(self) {
        let Progress {
            err,
            is_terminal,
            commits: _,
        } = self;
        if is_terminal {
            let mut err = err;
            let _cleared = err.write(CLEARED);
        }
    }
}

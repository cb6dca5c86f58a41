// Why a script or a schedule was not read.
ghost use Rattle.std.specs.Prelude.{◌≡◌};
ghost use Rattle.mt_report.specs.ReadFaults.{refusal_in};

use mt_base::Refusal;
use mt_script::LineFault;

/// What is wrong with a text that has a line outside of its grammar.
#[derive(Clone, Copy, PartialEq, Eq, Debug)]
pub enum TextFault<W> {
    /// It has more bytes than any script or schedule.
    Overlong,
    /// It begins as a device does, and is none.
    Device,
    /// This is wrong with the line.
    Line(LineFault<W>),
}

/// Why a script or a schedule was not read.
#[derive(Clone, Copy, PartialEq, Eq, Debug)]
pub enum ReadFault<W> {
    /// It could not be had: refused by `NoMemory` or `DeviceFailed`.
    Refused(Refusal),
    /// The line of this number, counted from 1, is the first that is not in the grammar.
    BadLine(u64, TextFault<W>),
}

impl<W: Copy> ReadFault<W> {
    /// The refusal.
    pub(crate) fn refusal(&self) -> Refusal
        ensures { result ≡ refusal_in self.now }
    {
        match self {
            ReadFault::Refused(refusal) => *refusal,
            ReadFault::BadLine(number, _) => Refusal::BadLine(*number),
        }
    }
}

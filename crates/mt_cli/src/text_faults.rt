// What is wrong with a text that is not read as lines.
ghost use Rattle.std.specs.Prelude.{◌≡◌};
ghost use Rattle.mt_cli.specs.Reads.{is_device, text_fault};

use mt_base::limits::{MAX_LINE_BYTES, MAX_LINES};
use mt_frame::OPEN_GATE;
use mt_report::TextFault;
use mt_script::{Grammar, line_fault};

/// The most bytes of a text: no script and no schedule is longer.
pub(crate) const MAX_TEXT_BYTES: usize = MAX_LINES * (MAX_LINE_BYTES + 1);

/// What a device of format 1 begins with: an open gate, and letters.
const FIRST_DEVICE_LETTERS: [u8; 5] = [OPEN_GATE, b'M', b'T', b'K', b'1'];

/// What one of format 2 begins with.
const DEVICE_LETTERS: [u8; 5] = [OPEN_GATE, b'M', b'T', b'K', b'2'];

/// Whether a text begins as a device does.
fn is_device(bytes: &[u8]) -> bool
    ensures { result ≡ is_device bytes.now }
{
    bytes.starts_with(&FIRST_DEVICE_LETTERS) || bytes.starts_with(&DEVICE_LETTERS)
}

/// What is wrong with a text whose line of this number, counted from 1, is its first that is not in the grammar.
pub(crate) fn text_fault<G: Grammar>(bytes: &[u8], number: u64) -> TextFault<G::Word>
    ensures { result ≡ text_fault G.word_at bytes.now number }
{
    if bytes.len() > MAX_TEXT_BYTES {
        TextFault::Overlong
    } else if is_device(bytes) {
        TextFault::Device
    } else {
        TextFault::Line(line_fault::<G>(bytes, number))
    }
}

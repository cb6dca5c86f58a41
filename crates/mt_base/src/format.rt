// Which format a device has.
ghost use Rattle.std.specs.Prelude.{◌≡◌};
ghost use Rattle.mt_base.specs.Limits.{limit_of, number_of_format};

use crate::limits::{FIRST_VALUE_BYTES, MAX_VALUE_BYTES};

/// The format of a device, by the letters of its master slot: `MTK1` or `MTK2`. All texts of format 1 are texts of
/// format 2. They differ in how long a value may be.
#[derive(Clone, Copy, PartialEq, Eq, Debug)]
pub enum Format {
    /// 1: a value has at most 1024 bytes. A device of this format is read, and never written.
    One,
    /// 2: a value has at most 3000 bytes.
    Two,
}

impl Format {
    /// The format's number, 1 or 2.
    pub fn number(self) -> u8
        ensures { result ≡ number_of_format self }
    {
        match self {
            Format::One => 1,
            Format::Two => 2,
        }
    }

    /// The most bytes of a value: 1024 or 3000.
    pub fn value_limit(self) -> usize
        ensures { result ≡ limit_of self }
    {
        match self {
            Format::One => FIRST_VALUE_BYTES,
            Format::Two => MAX_VALUE_BYTES,
        }
    }
}

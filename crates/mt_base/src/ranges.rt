// Numbers and ranges of a page's bytes, read and put in place. Formats of pages go by it.
ghost use Rattle.std.specs.Prelude.{◌≡◌, ◌+◌, ◌≤◌, length};
ghost use Rattle.mt_base.specs.Ranges.{i64_at, u16_at, part, Torn, Wrote};

use byteorder::{BigEndian, ByteOrder};

/// The number in the two bytes of a page at a place, the higher one first.
pub fn u16_at(page: &[u8], at: usize) -> u16
    requires { at + 2 ≤ length page.now }
    ensures { result ≡ u16_at page.now at }
{
    BigEndian::read_u16(&page[at..at + 2])
}

/// The number in the eight bytes of a page at a place, the highest one first, as two's complement.
#[tactic(auto, unfolding(crate::specs::Ranges::i64_at))]
pub fn i64_at(page: &[u8], at: usize) -> i64
    requires { at + 8 ≤ length page.now }
    ensures { result ≡ i64_at page.now at }
{
    BigEndian::read_i64(part_of(page, at, 8))
}

/// So many bytes of a page from a place on, lent.
pub fn part_of(page: &[u8], at: usize, bytes: usize) -> &[u8]
    requires { at + bytes ≤ length page.now }
    ensures { result.now ≡ part page.now at bytes }
{
    &page[at..at + bytes]
}

/// Puts bytes into a page at a place; all others stay.
pub fn put(page: &mut [u8], at: usize, bytes: &[u8])
    requires { at + length bytes.now ≤ length page.old }
    ensures { Wrote at bytes.now page.old page.new }
{
    page[at..at + bytes.len()].copy_from_slice(bytes);
}

/// Puts a number into the two bytes of a page at a place, the higher one first; all others stay.
pub fn put_u16(page: &mut [u8], at: usize, number: u16)
    requires { at + 2 ≤ length page.old }
    ensures number { u16_at page.new at ≡ number }
    ensures rest { Torn at 2 page.old page.new }
{
    let mut text = [0; 2];
    BigEndian::write_u16(&mut text, number);
    put(page, at, &text);
}

/// Puts a number into the eight bytes of a page at a place, as two's complement, the highest one first; all others
/// stay.
pub fn put_i64(page: &mut [u8], at: usize, number: i64)
    requires { at + 8 ≤ length page.old }
    ensures number { i64_at page.new at ≡ number }
    ensures rest { Torn at 8 page.old page.new }
{
    let mut text = [0; 8];
    BigEndian::write_u64(&mut text, number.cast_unsigned());
    put(page, at, &text);
}

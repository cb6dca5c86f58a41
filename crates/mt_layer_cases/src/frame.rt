// Batches worked out by hand from the format, which are read and written again.
use mt_base::{Format, Refusal};
use mt_frame::{decode_batch, encode_batch};
use std::alloc::Global;
use std::test::Fail;

// How many records the batch of this format that the bytes begin with has, and its size, if these records, written
// again, are its bytes.
fn read_again(
    alloc: Global,
    format: Format,
    bytes: &[u8],
) -> Result<Option<(usize, usize)>, Refusal> {
    let Some((records, size)) = decode_batch(alloc, format, bytes)? else {
        return Ok(None);
    };
    let again = encode_batch(alloc, format, records.as_slice())?;
    let is = size <= bytes.len() && again.as_slice() == &bytes[..size];
    Ok(if is {
        Some((records.len(), size))
    } else {
        None
    })
}

// The ends of an insert, an update, a delete and of adds of 1 and of -10^12. Then one of an operation that was taken
// back, a commit, the end of an abort, and the closed gate after them.
const EVERY_KIND: [u8; 209] = [
    0xa5, 0, 0, 0, 203, //
    2, 0, 0, 0, 0, 0, 0, 0, 1, 0, 0, 0, 0, 0, 0, 0, 2, 0, 0, 0, 0, 0, 0, 0, 0, //
    1, 63, 1, 0x61, 0, 1, 0x78, //
    2, 0, 0, 0, 0, 0, 0, 0, 1, 0, 0, 0, 0, 0, 0, 0, 2, 0, 0, 0, 0, 0, 0, 0, 0, //
    2, 0, 1, 0x61, 0, 0, 0, 1, 0x78, //
    2, 0, 0, 0, 0, 0, 0, 0, 1, 0, 0, 0, 0, 0, 0, 0, 2, 0, 0, 0, 0, 0, 0, 0, 0, //
    3, 0, 1, 0x61, 0, 1, 0x78, //
    2, 0, 0, 0, 0, 0, 0, 0, 1, 0, 0, 0, 0, 0, 0, 0, 2, 0, 0, 0, 0, 0, 0, 0, 0, //
    4, 127, 0, 0, 0, 0, 0, 0, 0, 1, //
    2, 0, 0, 0, 0, 0, 0, 0, 1, 0, 0, 0, 0, 0, 0, 0, 2, 0, 0, 0, 0, 0, 0, 0, 0, //
    4, 0, 0xff, 0xff, 0xff, 0x17, 0x2b, 0x5a, 0xf0, 0x00, //
    3, 0, 0, 0, 0, 0, 0, 0, 1, 0, 0, 0, 0, 0, 0, 0, 2, //
    4, 0, 0, 1, 0, 0, 0, 0, 0, //
    5, 0, 0, 0, 0, 0, 0, 0, 9, //
    0,
];

#[test]
fn every_kind_is_read_again(rt: HostRuntime) -> Result<(), Fail> {
    let first = read_again(rt.alloc(), Format::One, &EVERY_KIND)?;
    let read = read_again(rt.alloc(), Format::Two, &EVERY_KIND)?;
    assert!(rt; first == Some((8, 208)) && read == Some((8, 208)));
    Ok(())
}

// The record of a whole page with its image, in a batch of its own.
fn largest_page() -> [u8; 12_317] {
    let mut batch = [5u8; 12_317];
    batch[..29].copy_from_slice(&[
        0xa5, 0, 0, 0x30, 0x18, //
        1, 0, 0, 0, 0, 0, 0, 0, 1, 0, 0, 0, 0, 0, 0, 0, 1, 0x0f, 0x9f, 1, 0, 0, 0x10, 0,
    ]);
    batch[29..4125].copy_from_slice(&[3; 4096]);
    batch[4125..8221].copy_from_slice(&[4; 4096]);
    batch
}

// The end of an update, of the longest key and values of format 2, in a batch of its own.
fn longest_end() -> [u8; 6101] {
    let mut batch = [6u8; 6101];
    batch[..33].copy_from_slice(&[
        0xa5, 0, 0, 0x17, 0xd0, //
        2, 0, 0, 0, 0, 0, 0, 0, 1, 0, 0, 0, 0, 0, 0, 0, 1, 0, 0, 0, 0, 0, 0, 0, 0, 2, 63, 64,
    ]);
    batch[97..99].copy_from_slice(&[0x0b, 0xb8]);
    batch[3099..3101].copy_from_slice(&[0x0b, 0xb8]);
    batch
}

// The same of format 1.
fn longest_first_end() -> [u8; 2149] {
    let mut batch = [6u8; 2149];
    batch[..33].copy_from_slice(&[
        0xa5, 0, 0, 0x08, 0x60, //
        2, 0, 0, 0, 0, 0, 0, 0, 1, 0, 0, 0, 0, 0, 0, 0, 1, 0, 0, 0, 0, 0, 0, 0, 0, 2, 63, 64,
    ]);
    batch[97..99].copy_from_slice(&[4, 0]);
    batch[1123..1125].copy_from_slice(&[4, 0]);
    batch
}

// Eight records of a whole page each and the longest end, each in a batch of its own.
#[test]
fn the_largest_operation_has_its_size(rt: HostRuntime) -> Result<(), Fail> {
    let page = read_again(rt.alloc(), Format::Two, &largest_page())?;
    let end = read_again(rt.alloc(), Format::Two, &longest_end())?;
    assert!(rt; page == Some((1, 12_317)) && end == Some((1, 6_101)));
    assert!(rt; 8 * 12_317 + 6_101 == 104_637);
    Ok(())
}

// A value of more than 1,024 bytes is no text of format 1.
#[test]
fn the_first_format_has_shorter_values(rt: HostRuntime) -> Result<(), Fail> {
    let longest = read_again(rt.alloc(), Format::One, &longest_first_end())?;
    let longer = read_again(rt.alloc(), Format::One, &longest_end())?;
    assert!(rt; longest == Some((1, 2_149)) && longer == None);
    Ok(())
}

// A format of a device that fails.
use mt_base::Refusal;
use mt_disk::{FaultDevice, MemDevice};
use mt_restart::{Schema, format};
use std::alloc::{AllocError, Global};
use std::test::Fail;

/// A device of so many bytes, each of them an open gate, with room for one format of 64 pages.
fn full_device(alloc: Global, len: usize) -> Result<MemDevice, AllocError> {
    MemDevice::new(alloc, vec![in alloc; 0xA5u8; len]?, 65, 262_150)
}

/// Whether these bytes stand at a place.
fn holds(bytes: &[u8], at: usize, text: &[u8]) -> bool {
    match bytes.get(at..) {
        Some(rest) => rest.starts_with(text),
        None => false,
    }
}

/// Formats a device of 16 pages that fails at its n-th call: whether it went well, and whether the first gate is
/// open.
fn failing_at(alloc: Global, n: u64) -> Result<(bool, bool), Refusal> {
    let mut device = FaultDevice::new(full_device(alloc, 8_462_336)?, n);
    let done = format(&mut device, &Schema::new(alloc, 16, 4, 1, &[])?);
    Ok((done.is_ok(), holds(device.into_inner().bytes(), 0, b"\xa5")))
}

/// Three calls close the gates, 18 write the content, and two the slot; the 24th opens its gate, and the 25th is the
/// last.
#[test]
fn a_format_fails_where_its_device_does(rt: HostRuntime) -> Result<(), Fail> {
    for n in [1, 4, 24, 25, 26u64] {
        let (is_done, is_open) = failing_at(rt.alloc(), n)?;
        assert!(rt;
            is_done == (n == 26) && is_open == (n == 1 || n > 24),
            "at {n}"
        );
    }
    Ok(())
}

// Refusals' texts, and sizes that were computed by hand.
use mt_base::limits::{
    BATCH_HEAD_BYTES, LARGEST_OP_END, LARGEST_PAGE_RECORD, area_bytes, device_bytes,
};
use mt_base::{Refusal, TxnNo};
use std::alloc::AllocError;
use std::test::Fail;

#[test]
fn refusals_have_their_texts(rt: HostRuntime) -> Result<(), Fail> {
    for (refusal, text) in [
        (Refusal::NoMemory, "refused 1 NoMemory"),
        (Refusal::DeviceFailed, "refused 2 DeviceFailed"),
        (Refusal::BadFormat(270336), "refused 4 BadFormat 270336"),
        (Refusal::Escrow, "refused 9 Escrow"),
        (Refusal::Die(TxnNo::new(1)), "refused 14 Die"),
        (Refusal::BadLine(2), "refused 18 BadLine 2"),
        (Refusal::BadSavepoint, "refused 19 BadSavepoint"),
        (Refusal::WrongFormat, "refused 20 WrongFormat"),
        (Refusal::from(AllocError), "refused 1 NoMemory"),
    ] {
        let printed = format!(in rt.alloc(); "{refusal}")?;
        assert_eq!(rt; printed.as_str(), text);
    }
    Ok(())
}

#[test]
fn sizes_are_as_recomputed(rt: HostRuntime) {
    let largest = 8 * LARGEST_PAGE_RECORD + LARGEST_OP_END + 9 * BATCH_HEAD_BYTES;
    assert!(rt; LARGEST_PAGE_RECORD == 24 + 3 * 4096 && largest == 104_637);
    assert!(rt; area_bytes(4) == 4_194_304 && device_bytes(64, 4) == 8_658_944);
}

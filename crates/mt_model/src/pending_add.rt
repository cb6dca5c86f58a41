// An add that was admitted, of a transaction that has not ended.
use mt_base::{CtrNo, TxnNo};

/// An add of a live transaction that was granted and not taken back. It counts singly beside every other, of its own
/// transaction too (escrow, O'Neil 1986).
#[derive(Clone, Copy, PartialEq, Eq, Debug)]
pub struct Pending {
    pub txn: TxnNo,
    pub counter: CtrNo,
    pub step: i64,
}

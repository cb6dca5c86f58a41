// The figures of a report, which `log_report` makes.
use mt_base::Format;

/// What is reported of a device's log.
#[derive(Clone, Copy, PartialEq, Eq, Debug)]
pub struct Report {
    /// The format of the device: that of the master slot that rules.
    pub format: Format,
    /// The epoch of the master slot that rules.
    pub epoch: u64,
    /// The area that it names: 0 or 1.
    pub area: u8,
    /// All open batches of that area, the first one among them.
    pub batches: u64,
    /// All records in them.
    pub records: u64,
    /// The commits among these.
    pub commits: u64,
}

// What a scan reads back of one force.
use mt_frame::Record;

/// A batch of a log area.
#[derive(Debug, Drop)]
pub struct Batch {
    /// The place of its gate on the device.
    pub place: u64,
    pub records: Vec<Record>,
}

//! The pages that are fixed, and what the space map says of each page.

/// The page of the space map, with a byte for each page.
pub const MAP: u16 = 0;

/// The page of the index's directory.
pub const DIRECTORY: u16 = 1;

/// The page of the counters.
pub const COUNTERS: u16 = 2;

/// What the map says of a free page.
pub const FREE: u8 = 0;

/// What it says of the three fixed pages.
pub const FIXED: u8 = 1;

/// What it says of a page of the index's buckets.
pub const BUCKET: u8 = 2;

/// What it says of a page of records.
pub const RECORDS: u8 = 3;

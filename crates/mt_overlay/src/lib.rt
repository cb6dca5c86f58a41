//! Copies of pages, in the order in which they were taken, with a table of their places or without; and pages as they
//! will be once some changes are made, which are such copies over all pages as they are. All three are [`Pages`], so a
//! plan over them is the plan over any pages.
//!
//! [`Pages`]: mt_space::Pages
#![tactic(auto)]

mod overlay;
mod page_copies;
mod placed_copies;

pub use overlay::{Overlay, PageCopy, merged};
pub use page_copies::PageCopies;
pub use placed_copies::PlacedCopies;

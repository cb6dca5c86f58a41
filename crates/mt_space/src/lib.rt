//! The pages of a device: how they are read and what changes in them. Some of them are fixed, and the space map says
//! which are free. Of the free ones some are reserved for operations under way and their inverses.
//!
//! A reservation names no page: it says that so many free pages are kept for who asked. Reserved pages are
//! never more than the free ones, so a page can always be taken for a reservation.
#![tactic(auto)]

mod changes;
mod map;
pub mod pages;
mod patches;
mod space;
mod space_map;
mod views;

pub use changes::{Changes, PageChange};
pub use map::{first_free, kind_byte};
pub use patches::patch;
pub use space::Space;
pub use space_map::SpaceMap;
pub use views::Pages;

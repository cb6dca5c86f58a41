//! The tests of what a crash leaves of a device, and of devices that are opened again, through public calls. Lists of
//! events are stopped at a call of the device, and openings of what is left then are stopped too. What a base holds is
//! compared as text. Worked rows are files of `tests/rows`, which the program runs.
#![tactic(auto)]

#[cfg(test)]
mod cut;
#[cfg(test)]
mod formats;
#[cfg(test)]
mod large;
#[cfg(test)]
mod migrated;
#[cfg(test)]
mod readings;
#[cfg(test)]
mod recovered;
#[cfg(test)]
mod rotations;
#[cfg(test)]
mod scheduled;

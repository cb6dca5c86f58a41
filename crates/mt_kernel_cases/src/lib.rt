//! The tests of operations and of the kernel, through public calls. A split is taken back, transactions go back to
//! savepoints, and devices and writers fail under a script. Worked rows are files of `tests/rows`, which the program
//! runs.
#![tactic(auto)]

#[cfg(test)]
mod alone;
#[cfg(test)]
mod operations;
#[cfg(test)]
mod savepoints;

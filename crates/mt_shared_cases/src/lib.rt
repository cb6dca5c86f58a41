//! The tests of threads that share a kernel, through public calls of `mt_shared` and `mt_server`. One thread sees
//! another's commit while its own transaction is open, and a pass finds what its last transaction left. Of two scripts
//! that are served one is held while the other commits. Who rotates is woken once half of the log is used. A close is
//! refused for its passes, and another has the lock within a long scan.
#![tactic(auto)]

#[cfg(test)]
mod closes;
#[cfg(test)]
mod holds;
#[cfg(test)]
mod kernels;
#[cfg(test)]
mod looks;
#[cfg(test)]
mod rotator;
#[cfg(test)]
mod rows;
#[cfg(test)]
mod served;
#[cfg(test)]
mod sessions;

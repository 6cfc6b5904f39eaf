//! Rows of inputs and answers of mounts of a store of blocks and of its end: logs that were made by
//! hand, mounts that are stopped at each of their calls and mounted again, laps and open counts,
//! logs that are refused, and what a store leaves that was closed. The crate has tests and what they
//! share, and no more.
#![tactic(auto)]

#[cfg(test)]
mod closing;
#[cfg(test)]
mod failing;
#[cfg(test)]
mod logs;
#[cfg(test)]
mod mounting;
#[cfg(test)]
mod refusing;
#[cfg(test)]
mod sessions;
#[cfg(test)]
mod stopping;

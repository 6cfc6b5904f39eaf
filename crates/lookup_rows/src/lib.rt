//! Rows of inputs and answers of a mounted volume: what refuses a mount, what a new volume answers
//! to operations that look, and calls of the device that fail. The crate has tests and what they
//! share, and no more.
#![tactic(auto)]

#[cfg(test)]
mod looks;
#[cfg(test)]
mod mounts;
#[cfg(test)]
mod volume;

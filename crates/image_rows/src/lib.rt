//! Rows of inputs and answers of the calls over a device: a scan, a check, the reading of a journal
//! and a format, and of what a crash leaves of them. The crate has tests and what they share, and
//! no more.
#![tactic(auto)]

#[cfg(test)]
mod crashes;
#[cfg(test)]
mod devices;
#[cfg(test)]
mod formats;
#[cfg(test)]
mod refusals;

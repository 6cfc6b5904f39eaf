//! Rows of inputs and answers of the blocks of a device: what is read of each kind, what a write
//! puts there and under which check word, writes that fail and are tried again, and what is read
//! ahead. The crate has tests and what they share, and no more.
#![tactic(auto)]

#[cfg(test)]
mod ahead;
#[cfg(test)]
mod blocks;
#[cfg(test)]
mod reading;
#[cfg(test)]
mod retrying;
#[cfg(test)]
mod writing;

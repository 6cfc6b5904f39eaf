//! Rows of streams that a plan may change, at each bound: runs that have a spelling, a file table
//! that may grow, bitmaps and how many bits they have. The crate has tests and what they share, and
//! no more.
#![tactic(auto)]

#[cfg(test)]
mod records;
#[cfg(test)]
mod streams;

//! Rows of a file table that grows in a draft over records in memory: where its bitmaps stand, where
//! one ends with its cluster, and what may lack. The crate has tests and what they share, and no
//! more.
#![tactic(auto)]

#[cfg(test)]
mod growing;
#[cfg(test)]
mod records;
#[cfg(test)]
mod tables;

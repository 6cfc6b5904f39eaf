//! Rows of the records of files that are made, written and cut, in memory: a new file's record and
//! the key by which its directory lists it, and the record of a file that changed at a time. The
//! crate has tests and what they share, and no more.
#![tactic(auto)]

#[cfg(test)]
mod making;
#[cfg(test)]
mod parts;
#[cfg(test)]
mod timing;

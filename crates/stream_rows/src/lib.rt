//! Rows of inputs and answers of the streams in a volume: where they lie, their attribute lists,
//! what they keep, and who owns their clusters. The crate has tests and what they share, and no
//! more.
#![tactic(auto)]

#[cfg(test)]
mod keeping;
#[cfg(test)]
mod lists;
#[cfg(test)]
mod owners;
#[cfg(test)]
mod streams;

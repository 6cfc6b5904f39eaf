//! Rows of what an operation that makes, writes or cuts a file comes to on a tree that is asked:
//! each refusal and its place in the order, the file or the place that is found, and calls that
//! fail. The crate has tests and what they share, and no more.
#![tactic(auto)]

#[cfg(test)]
mod changes;
#[cfg(test)]
mod failing;
#[cfg(test)]
mod trees;

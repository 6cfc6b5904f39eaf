//! Rows of inputs and answers of drafts of plans. The crate has tests and what they share, and no
//! more.
#![tactic(auto)]

#[cfg(test)]
mod changes;
#[cfg(test)]
mod records;

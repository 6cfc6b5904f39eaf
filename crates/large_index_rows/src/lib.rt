//! Rows of inputs and answers of indexes of many names, whose blocks are changed in place. The
//! crate has tests and what they share, and no more.
#![tactic(auto)]

#[cfg(test)]
mod many_names;

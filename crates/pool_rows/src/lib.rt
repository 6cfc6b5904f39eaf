//! Rows of inputs and answers of values by block: what is put, found and taken and in which order
//! it comes out, and what becomes of marks and bodies when a rival is changed and at a sync. The
//! crate has tests and no more.
#![tactic(auto)]

#[cfg(test)]
mod marks;
#[cfg(test)]
mod values;

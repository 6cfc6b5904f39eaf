//! Rows of inputs and answers of file records: how they are read and written, also of a list
//! of attributes, and attributes that come and go in them. The crate has tests and what they share,
//! and no more.
#![tactic(auto)]

#[cfg(test)]
mod lists;
#[cfg(test)]
mod parts;
#[cfg(test)]
mod reads;
#[cfg(test)]
mod writes;

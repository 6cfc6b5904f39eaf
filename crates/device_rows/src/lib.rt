//! Rows of inputs and answers of devices and of views over them. The crate has tests and what they
//! share, and no more.
#![tactic(auto)]

#[cfg(test)]
mod calls;
#[cfg(test)]
mod files;
#[cfg(test)]
mod images;
#[cfg(test)]
mod views;

//! Rows of inputs and answers of what lies in a volume: its file table, indexes and change
//! journal. The crate has tests and what they share, and no more.
#![tactic(auto)]

#[cfg(test)]
mod changes;
#[cfg(test)]
mod directories;
#[cfg(test)]
mod journals;
#[cfg(test)]
mod maps;
#[cfg(test)]
mod pulls;

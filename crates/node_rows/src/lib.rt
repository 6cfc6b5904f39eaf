//! Rows of inputs and answers of the nodes of a directory's index: how nodes and roots are read,
//! edited and written, and plans over nodes in memory. The crate has tests and what they share,
//! and no more.
#![tactic(auto)]

#[cfg(test)]
mod nodes;
#[cfg(test)]
mod plans;
#[cfg(test)]
mod roots;

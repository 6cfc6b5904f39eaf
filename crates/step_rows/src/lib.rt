//! Rows of what a step answers on a file tree: the plain step and a tree with maps where nothing
//! changes, and the plain step where files are made, written, filled and cut. The crate has tests
//! and what they share, and no more.
#![tactic(auto)]

#[cfg(test)]
mod steps;
#[cfg(test)]
mod steps_of_files;

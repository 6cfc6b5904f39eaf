//! Worked rows of plans of operations on a loaded volume in memory: replies and changes, and calls
//! that fail.
#![tactic(auto)]

#[cfg(test)]
mod plans;
#[cfg(test)]
mod volume;

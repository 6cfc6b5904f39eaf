//! Worked rows of the next step of a store.
#![tactic(auto)]

#[cfg(test)]
mod steps;

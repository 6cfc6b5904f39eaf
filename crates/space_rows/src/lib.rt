//! Worked rows of choices of clusters, beside a plain program, and over a bitmap that stays.
#![tactic(auto)]

#[cfg(test)]
mod choices;

//! Rows of inputs and answers of what file records are made of: boot sectors that lead to them,
//! their update sequence, the runs of their streams, their attributes and values. The crate has
//! tests and what they share, and no more.
#![tactic(auto)]

#[cfg(test)]
mod attributes;
#[cfg(test)]
mod boots;
#[cfg(test)]
mod fixups;
#[cfg(test)]
mod parts;
#[cfg(test)]
mod runs;
#[cfg(test)]
mod values;

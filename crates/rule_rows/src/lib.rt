//! Rows of inputs and answers of records that are held in memory: the rules over their names, the
//! ways up from their directories, and changes that leave them their names. The crate has tests and
//! what they share, and no more.
#![tactic(auto)]

#[cfg(test)]
mod files;
#[cfg(test)]
mod names;
#[cfg(test)]
mod parts;
#[cfg(test)]
mod rules;
#[cfg(test)]
mod ways;

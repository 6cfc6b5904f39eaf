//! Rows of a file table that grows on a new volume, and of files that are made in its root: what a
//! check then finds of it, where the table lies, and whether its mirror follows. The crate has tests
//! and what they share, and no more.
#![tactic(auto)]

#[cfg(test)]
mod finding;
#[cfg(test)]
mod growing;
#[cfg(test)]
mod growths;
#[cfg(test)]
mod making;
#[cfg(test)]
mod makings;
#[cfg(test)]
mod volume;

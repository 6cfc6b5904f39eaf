//! Rows of inputs and answers of checkpoints of a store of blocks: the steps that it takes by
//! itself, and what it tells of itself behind each kind, a ring that is full and one that goes
//! round, what is logged whole again, stale blocks that are noted, restart pages and syncs that
//! fail, and the calls of the device that commits cost. The crate has tests and what they share, and
//! no more.
#![tactic(auto)]

#[cfg(test)]
mod costs;
#[cfg(test)]
mod dropping;
#[cfg(test)]
mod imaging;
#[cfg(test)]
mod restarting;
#[cfg(test)]
mod ring;
#[cfg(test)]
mod steps;

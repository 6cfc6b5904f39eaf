//! Rows of inputs and answers of a new volume with pages of its log: what recovery by it makes of
//! the disk, what a scan then shows, what a mount that writes finds, and what refuses it or a mount. The crate
//! has tests and no more.
#![tactic(auto)]

#[cfg(test)]
mod fronts;
#[cfg(test)]
mod mounts;
#[cfg(test)]
mod openings;
#[cfg(test)]
mod recovering;
#[cfg(test)]
mod scans;
#[cfg(test)]
mod steps;
#[cfg(test)]
mod volume;

//! Rows of a loaded volume that follows its changes: lawful and odd ones that a seed chooses, beside
//! a load of the volume after each step.
#![tactic(auto)]

#[cfg(test)]
mod bodies;
#[cfg(test)]
mod disks;
#[cfg(test)]
mod following;
#[cfg(test)]
mod layouts;
#[cfg(test)]
mod seeds;
#[cfg(test)]
mod steps;

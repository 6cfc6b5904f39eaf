//! Rows of the top call for what no run of the program shows: calls of the device, the source and
//! the sink that fail by their numbers, who passes the gate, readers and writers of std, commands
//! without words, and the words that the system gives. The crate has tests, and no more.
#![tactic(auto)]

#[cfg(test)]
mod answers;
#[cfg(test)]
mod faults;
#[cfg(test)]
mod images;
#[cfg(test)]
mod runs;
#[cfg(test)]
mod sweeps;

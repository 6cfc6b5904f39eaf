//! Rows of inputs and answers of the ring of a log: where entries go and which pages are free, the
//! check words of pages, what is sent again after a failure, and what a crash leaves of what is
//! written. The crate has tests and no more.
#![tactic(auto)]

#[cfg(test)]
mod checking;
#[cfg(test)]
mod choosing;
#[cfg(test)]
mod filling;
#[cfg(test)]
mod naming;
#[cfg(test)]
mod naming_again;
#[cfg(test)]
mod retrying;
#[cfg(test)]
mod rings;
#[cfg(test)]
mod writing;

//! Rows of runs that change a volume: the text of a run, what each crash and each call that fails
//! leaves of one, a log that another crash left, and a log that is full. The crate has tests and
//! what they share, and no more.
#![tactic(auto)]

#[cfg(test)]
mod answers;
#[cfg(test)]
mod crashing;
#[cfg(test)]
mod failing;
#[cfg(test)]
mod images;
#[cfg(test)]
mod logs;
#[cfg(test)]
mod runs;
#[cfg(test)]
mod shown;
#[cfg(test)]
mod volume;
#[cfg(test)]
mod watched;

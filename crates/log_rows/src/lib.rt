//! Rows of inputs and answers of a volume's log: its entries and its pages, what is read of them,
//! its greatest LSN, and whether its pages may be written. The crate has tests and no more.
#![tactic(auto)]

#[cfg(test)]
mod filling;
#[cfg(test)]
mod laps;
#[cfg(test)]
mod layouts;
#[cfg(test)]
mod readings;
#[cfg(test)]
mod rings;
#[cfg(test)]
mod sealing;
#[cfg(test)]
mod spellings;

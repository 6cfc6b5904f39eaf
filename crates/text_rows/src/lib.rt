//! Rows of inputs and answers of texts: scripts and command lines that are read, and what is
//! printed of a run and of an image. The crate has tests and what they share, and no more.
#![tactic(auto)]

#[cfg(test)]
mod commands;
#[cfg(test)]
mod dumps;
#[cfg(test)]
mod runs;
#[cfg(test)]
mod scripts;
#[cfg(test)]
mod word_lines;

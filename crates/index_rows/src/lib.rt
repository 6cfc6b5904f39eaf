//! Rows of inputs and answers of a directory's index over a view: walks over it and searches in
//! it, and plans that change it. The crate has tests and what they share, and no more.
#![tactic(auto)]

#[cfg(test)]
mod changes;
#[cfg(test)]
mod few_names;
#[cfg(test)]
mod walks;

//! Rows of inputs and answers of recovery: by lists of entries on a view, by logs of six pages on a
//! device, and for mounts that write. The crate has tests and no more.
#![tactic(auto)]

#[cfg(test)]
mod entry_lists;
#[cfg(test)]
mod mounts;
#[cfg(test)]
mod small_logs;

//! Rows of inputs and answers of a store of blocks: commits before and after their pages are
//! durable, write-outs that are cut, give-ups, rivals, pages that are counted, and calls of the
//! device that fail in turn; each with what recovery makes of the images that a crash may leave. The
//! crate has tests and what they share, and no more.
#![tactic(auto)]

#[cfg(test)]
mod committing;
#[cfg(test)]
mod counting;
#[cfg(test)]
mod failing;
#[cfg(test)]
mod giving_up;

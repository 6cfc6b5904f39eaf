//! Rows of inputs and answers of the ground floor: references, sources and sinks, numbers and
//! bodies of blocks, names, bitmaps, views of blocks and the table of upper-case units. The crate
//! has tests and what they share, and no more.
#![tactic(auto)]

#[cfg(test)]
mod bits;
#[cfg(test)]
mod bodies;
#[cfg(test)]
mod letters;
#[cfg(test)]
mod names;
#[cfg(test)]
mod outsides;
#[cfg(test)]
mod views;

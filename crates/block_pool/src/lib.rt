//! Values by block: a map in the order of the blocks, of which look-ups, puts and takes are
//! logarithmic.
//!
//! The contract: each call leaves exactly what its definition makes of the list of blocks and
//! values. What replaces a value takes no memory, and nor does what takes one out.
#![tactic(auto)]

mod laws;
mod number;
mod pool;
mod walk;

pub use laws::looks_up;
pub use pool::Pool;
pub use walk::{Tests, Turns};

//! A plan of changes while it is made: a view over a view, with each touched block's old and
//! present body.
#![tactic(auto)]

mod draft;
mod finishing;
mod laws;
mod order;
mod putting;
mod touched;
mod writing;

pub use block_view::{Block, BlockKind, Body, Change, View, ViewFault, u16_at};
pub use draft::Draft;
pub use laws::bodies_in_order;
pub use touched::Touched;

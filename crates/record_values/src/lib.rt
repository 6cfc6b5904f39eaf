//! A file record in which a stream that stands there has another value.
#![tactic(auto)]

mod laws;
mod values;

pub use laws::values_are_put;
pub use record_streams::{FileRec, placed_fits, placed_record};
pub use values::valued_record;

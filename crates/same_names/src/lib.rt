//! Files with the same names: what is told by these is the same, and whether a change of a map
//! leaves the files of its volume their names; and rules of which names they may have then, of which
//! this is one.
//!
//! The contract: the law of these definitions, as a function with no body of its own; and the
//! answer is yes exactly where the files of the map after the change have the names of before. Each
//! rule answers exactly whether its relation holds between the records of before and after.
#![tactic(auto)]

mod keeping;
mod laws;
mod rule;

pub use keeping::{are_named_alike, is_any_of, keeps_names, only_base};
pub use laws::same_names;
pub use map_change::{LiveMap, MapChange, MapFault, Upcase, apply, prepare};
pub use rule::{NamesRule, SameNamesRule};

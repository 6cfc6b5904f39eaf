//! The names of a volume's files where one more has a name, also where the file table has grown: a
//! rule of the names that files may have behind a change, and what the names in memory are then.
//!
//! The contract: the rule answers exactly whether the records behind the change have this one file
//! more, and the names of before; and where its name is put with those in memory, these are the
//! names of the records behind the change.
#![tactic(auto)]

mod elsewhere;
mod laws;
mod making;
mod rule;

pub use laws::{grown_names, more_is_told};
pub use making::put_name;
pub use rule::OneMoreRule;

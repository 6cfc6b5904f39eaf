//! The order of names by the table of upper-case units of a volume.
//!
//! The contract: names compare by their upper-case units and then by the units themselves, which is
//! a total order, and two names are the same exactly where their upper-case units are equal. The
//! table is that of the Linux-NTFS documentation, "File - $UpCase".
#![tactic(auto)]

mod laws;
mod upcase;

pub use index_model::{Link, LinkList, Name, Node, Run, Runs};
pub use laws::{
    equals_are_same, equals_have_equal_units, order_is_total, same_have_equal_upper_units,
    same_is_equivalence, same_stand_together, standard_table_gives,
};
pub use upcase::{Upcase, UpcaseFault};

//! The laws of indexes.
ghost use Rattle.index_model.specs.Laws.{OneIndex, WalkIsIndex, FaultBreaks};

/// Law: nodes and a root stand for one index at most, so the list of its keys is a function of
/// them.
pub fn one_index()
    ensures { OneIndex }
{}

/// Law: a walk passes exactly where the content holds an index, and then it gives the links of the
/// index's keys in their order.
pub fn walk_is_index()
    ensures { WalkIsIndex }
{}

/// Law: a node that a walk or a search names breaks that rule.
pub fn fault_breaks()
    ensures { FaultBreaks }
{}

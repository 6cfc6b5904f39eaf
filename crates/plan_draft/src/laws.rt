//! The laws of these definitions.
ghost use Rattle.plan_draft.specs.Same.{BodiesInOrder};

/// Law: a draft's bodies, in the order of their blocks, put what those of a plan put in the order in
/// which they came.
pub fn bodies_in_order()
    ensures { BodiesInOrder }
{}

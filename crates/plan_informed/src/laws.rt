//! The laws of these definitions.
ghost use Rattle.plan_informed.specs.Edits.{ValuesAreEdit};
ghost use Rattle.plan_informed.specs.Valued.{ValuedRewrites};

/// Law: a record that a draft has put, with other standard information or other unnamed data in the
/// record, is the edit of a plan that leads from a state to a state.
pub fn values_are_edit()
    ensures { ValuesAreEdit }
{}

/// Law: a record with another value of its unnamed data has this written anew, and the rest stays.
pub fn valued_rewrites()
    ensures { ValuedRewrites }
{}

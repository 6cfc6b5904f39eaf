//! The laws of these definitions.
ghost use Rattle.plan_values.specs.Made.{DataMade};
ghost use Rattle.plan_values.specs.Values.{ValueWritten};

/// Law: where standard information and the unnamed data of a file are written anew, both values in
/// its record, a state becomes one with them, and it is an edit of a plan.
pub fn value_written()
    ensures { ValueWritten }
{}

/// Law: where a file gets unnamed data as a value in its record, a state becomes one with it, and it
/// is an edit of a plan.
pub fn data_made()
    ensures { DataMade }
{}

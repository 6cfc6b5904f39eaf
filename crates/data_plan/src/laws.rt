//! The laws of these definitions.
ghost use Rattle.data_plan.specs.Laws.{DataMade};

/// Law: of a file without unnamed data a step says what it says once the file has it, without bytes.
pub fn data_made()
    ensures { DataMade }
{}

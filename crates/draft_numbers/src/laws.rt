//! The laws of these definitions.
ghost use Rattle.draft_numbers.specs.Numbers.{SparesAreThose};

/// Law: a spare number of a volume has the sequence that its record's bytes give a new file.
pub fn spares_are_those()
    ensures { SparesAreThose }
{}

//! The laws of these definitions.
ghost use Rattle.put_checks.specs.Laws.{ChecksAreEnough, ChecksAreMet};

/// Law: changes that pass are such as a store asks for.
pub fn checks_are_enough()
    ensures { ChecksAreEnough }
{}

/// Law: changes that a store may log, no two of one block or of rivals, pass where they stand in the
/// order of their blocks and beside the log.
pub fn checks_are_met()
    ensures { ChecksAreMet }
{}

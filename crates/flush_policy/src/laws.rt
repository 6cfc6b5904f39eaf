ghost use Rattle.flush_policy.specs.Laws.{RestsWhenDone, StepsMayBeTaken, StepsComeToAnEnd};

/// Law: there is no next step exactly where nothing is filled, sealed, unsynced, dirty or begun, and
/// no page was used since the last checkpoint began.
pub fn rests_when_done()
    ensures { RestsWhenDone }
{}

/// Law: the next step may be taken where no transaction is open.
pub fn steps_may_be_taken()
    ensures { StepsMayBeTaken }
{}

/// Law: each next step that answers `Ok` leaves less to do, so a store that takes one after the
/// other comes to an end.
pub fn steps_come_to_an_end()
    ensures { StepsComeToAnEnd }
{}

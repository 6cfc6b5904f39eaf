//! Where a session may be opened, and what the steps of a store lead to.
ghost use Rattle.txn_core.specs.Leading.{StepsLeadOn};
ghost use Rattle.txn_core.specs.Openings.{LogsOpen};

/// Law: where no transaction is open, the next step by what a store tells of itself may be taken,
/// each one that answers `Ok` leaves less to do, and there is none exactly where nothing is left.
pub fn steps_lead_on()
    ensures { StepsLeadOn }
{}

/// Law: a session may be opened on a log of a disk on which nothing is unsynced, where no page of
/// the ring says its lap or a later one, and the restart page that isn't written next is the newer
/// one, or is all FF.
pub fn logs_open()
    ensures { LogsOpen }
{}

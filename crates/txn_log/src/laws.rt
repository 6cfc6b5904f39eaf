//! What the pages that were counted are enough for.
ghost use Rattle.txn_log.specs.Laws.{PagesAreEnough};

/// Law: a caller who has as much room as was counted for some changes logs each of them and then a
/// commit: behind a change what is counted for the rest has fallen by as much as the room did.
pub fn pages_are_enough()
    ensures { PagesAreEnough }
{}

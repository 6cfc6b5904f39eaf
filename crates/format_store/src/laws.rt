ghost use Rattle.format_store.specs.Openings.{NewLogsOpen};

use txn_core::logs_open;

/// Law: the log of a new volume is a ring whose pages may be written where they lie; and on a disk
/// that shows the new volume, and on which nothing is unsynced, a session may be opened on it.
pub fn new_logs_open()
    ensures { NewLogsOpen }
{
    logs_open();
}

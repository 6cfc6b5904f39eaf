//! The laws of these definitions.
ghost use Rattle.found_files.specs.Found.{FoundMayWrite};

use written_made::{files_are_ready, files_have_data, made_is_counted, streams_of_states};

/// Law: a file that an operation was found to write or cut, in a state without a change journal, is
/// what the call that does it asks for, as it stands or with unnamed data made; so
/// [`may_write`](crate::may_write) is true of it.
pub fn found_may_write()
    ensures { FoundMayWrite }
{
    files_are_ready();
    made_is_counted();
    files_have_data();
    streams_of_states();
}

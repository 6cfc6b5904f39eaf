//! The laws of these definitions.
ghost use Rattle.state_files.specs.Files.{FilesHaveData};

use state_streams::streams_of_states;

/// Law: in a state the unnamed data of a file is what a write or a cut of it asks for, but for what
/// the reader of its record has said of the record.
pub fn files_have_data()
    ensures { FilesHaveData }
{
    streams_of_states();
}

//! The laws of these definitions.
ghost use Rattle.written_made.specs.Made.{MadeIsDone};
ghost use Rattle.written_made.specs.Ready.{AnyFileIsReady};
ghost use Rattle.written_made.specs.Steps.{MadeIsStep};

use file_changes::{changes_are_steps, drafts_are_written, leaving_is_done, values_are_done};
use made_data::made_is_counted;
use state_files::files_have_data;

/// Law: where a draft has put what comes of the data of a file that had none, by its record with data
/// that is empty, and it has clusters enough, the draft stands for a state, and the operation has
/// changed the tree and left the content as a step says of the file without data.
pub fn made_is_done()
    ensures { MadeIsDone }
{
    values_are_done();
    leaving_is_done();
    made_is_counted();
}

/// Law: where an operation is found to write or cut such a file, and a draft has put that, its
/// content has taken the step of that operation.
pub fn made_is_step()
    ensures { MadeIsStep }
{
    made_is_done();
    drafts_are_written();
    changes_are_steps();
}

/// Law: what [`change_any_file`](crate::change_any_file) asks of the data of a file stands in a
/// state, but for what the reader of its record has said of the record.
pub fn any_file_is_ready()
    ensures { AnyFileIsReady }
{
    made_is_counted();
    files_have_data();
}

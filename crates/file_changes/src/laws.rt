//! The laws of these definitions.
ghost use Rattle.file_changes.specs.Writes.{WritesAreDone};
ghost use Rattle.file_changes.specs.Steps.{WritesAreSteps};

use written_clusters::{
    changes_are_steps, cuts_are_done, drafts_are_written, growth_is_done, leaving_is_done,
    longer_is_done, shorter_are_done, values_are_done,
};

/// Law: where a draft has put what comes of a file's data, which has clusters enough, it stands for a
/// state, and the operation has changed the tree and left the content as a step says.
pub fn writes_are_done()
    ensures { WritesAreDone }
{
    values_are_done();
    shorter_are_done();
    cuts_are_done();
    longer_is_done();
    growth_is_done();
    leaving_is_done();
}

/// Law: where an operation is found to write or cut a file, and a draft has put what comes of the
/// file's data, its content has taken the step of that operation.
pub fn writes_are_steps()
    ensures { WritesAreSteps }
{
    writes_are_done();
    drafts_are_written();
    changes_are_steps();
}

ghost use Rattle.change_steps.specs.Changes.{ChangesAreSteps, DraftsAreWritten};
ghost use Rattle.change_steps.specs.Found.{FoundIsThere};
ghost use Rattle.change_steps.specs.Makings.{MakingsAreSteps};
ghost use Rattle.change_steps.specs.Ready.{BareIsEnough, FilesAreReady};

/// Law: the file that an operation is found to write or cut is one that can be changed, and the
/// directory that a new file comes into is the one that its path names.
pub fn found_is_there()
    ensures { FoundIsThere }
{}

/// Law: where a row refuses an operation that is found, where it changes nothing, and where a file
/// has been written or cut, the content has taken its step.
pub fn changes_are_steps()
    ensures { ChangesAreSteps }
{}

/// Law: where a draft has put what an operation writes or cuts, its content has it.
pub fn drafts_are_written()
    ensures { DraftsAreWritten }
{}

/// Law: where a file can't be made for its records, or has been made, the content has taken its
/// step.
pub fn makings_are_steps()
    ensures { MakingsAreSteps }
{}

/// Law: what is said of a file's data, and put of it, doesn't hang on the bytes of its node.
pub fn bare_is_enough()
    ensures { BareIsEnough }
{}

/// Law: a file that was found shows its data, and has the room that a write or a cut takes.
pub fn files_are_ready()
    ensures { FilesAreReady }
{}

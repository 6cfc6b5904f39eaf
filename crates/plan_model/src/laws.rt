ghost use Rattle.plan_model.specs.PlannedIndexes.{IndexesOfPlans};
ghost use Rattle.plan_model.specs.Drafts.{DraftsGoOn, RunsGiven};
ghost use Rattle.plan_model.specs.Edits.{FilesEdited};
ghost use Rattle.plan_model.specs.Parts.{AttrsReplaced, PiecesJoined};
ghost use Rattle.plan_model.specs.Indexed.{IndexWalked};
ghost use Rattle.plan_model.specs.Informed.{TimesChanged};
ghost use Rattle.plan_model.specs.Tables.{TableEdited};
ghost use Rattle.plan_model.specs.Made.{FileIsMade};
ghost use Rattle.plan_model.specs.Attributes.{ValuesRewritten};

/// Law: an edit whose new files keep the rules leads from a state to a state, and leaves the nodes
/// and spare numbers of all other files.
pub fn files_edited()
    ensures { FilesEdited }
{}

/// Law: where values that stand in a record are written anew, its streams in clusters, its types and
/// all that its other attributes say stay.
pub fn values_rewritten()
    ensures { ValuesRewritten }
{}

/// Law: where a file's record is put whole with other standard information, a state becomes one of a
/// tree that differs in this alone.
pub fn times_changed()
    ensures { TimesChanged }
{}

/// Law: a plan begins empty and goes on edit by edit, into one list of whole bodies, and no block of
/// it is a rival of one that the first state owns or of another of its own.
pub fn drafts_go_on()
    ensures { DraftsGoOn }
{}

/// Law: where a file is made in a directory whose index has room, a state becomes one of the tree
/// with the file.
pub fn file_is_made()
    ensures { FileIsMade }
{}

/// Law: a directory lists what a walk below its new root gives, in a content with the nodes of a
/// plan.
pub fn index_walked()
    ensures { IndexWalked }
{}

/// Law: where attributes of a record are put in, taken out or replaced, its names and clusters go and
/// come with them, and what reads the others stays.
pub fn attrs_replaced()
    ensures { AttrsReplaced }
{}

/// Law: a stream stays where its attributes in one record are joined into one.
pub fn pieces_joined()
    ensures { PiecesJoined }
{}

/// Law: an edit that may be of `$MFT` itself, and in which the file table may grow, leads from a
/// state to a state, with the tree by look-up.
pub fn table_edited()
    ensures { TableEdited }
{}

/// Law: runs that a plan takes get the kind of their blocks beside what it gave before.
pub fn runs_given()
    ensures { RunsGiven }
{}

/// Law: after a plan of a directory's index the directory lists what the plan says, and a link put
/// among links that rise stands there as one more.
pub fn indexes_of_plans()
    ensures { IndexesOfPlans }
{}

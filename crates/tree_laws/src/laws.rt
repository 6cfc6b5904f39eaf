ghost use Rattle.tree_laws.specs.Listed.{IndexListed};
ghost use Rattle.tree_laws.specs.Planned.{PlannedWrites};
ghost use Rattle.tree_laws.specs.Owners.{OwnersKept};
ghost use Rattle.tree_laws.specs.Changed.{FilesChanged};
ghost use Rattle.tree_laws.specs.Leaves.{LeavesOfVolume, LeafReplaced, FileMade, FileGone};
ghost use Rattle.tree_laws.specs.Ways.{WaysKept, WaysAreShort};
ghost use Rattle.tree_laws.specs.Contents.{FrameOfState};
ghost use Rattle.tree_laws.specs.Links.{LinksReplaced};
ghost use Rattle.tree_laws.specs.Growth.{TableGrown};
ghost use Rattle.tree_laws.specs.LookUps.{TreesByLookUp};
ghost use Rattle.tree_laws.specs.Journal.{JournalKept};
ghost use Rattle.tree_laws.specs.Room.{RoomCounted};
ghost use Rattle.tree_laws.specs.Nodes.{NodeReplaced, NodesByNumber};
ghost use Rattle.tree_laws.specs.Parts.{PartsElsewhere};
ghost use Rattle.tree_laws.specs.Rules.{RulesElsewhere};
ghost use Rattle.tree_laws.specs.Steps.{StatesFollow};
ghost use Rattle.tree_laws.specs.Trees.{TreeReplaced};

/// Law: where one file is replaced, the names of a volume are those from before with that file's
/// names replaced.
pub fn links_replaced()
    ensures { LinksReplaced }
{}

/// Law: where a file that keeps its names is replaced, the nodes of a volume are those from before
/// with that file's node replaced.
pub fn node_replaced()
    ensures { NodeReplaced }
{}

/// Law: where one file is replaced, the rules are kept at other numbers as before.
pub fn rules_elsewhere()
    ensures { RulesElsewhere }
{}

/// Law: the parts of a volume that don't read a file stay where it is replaced.
pub fn parts_elsewhere()
    ensures { PartsElsewhere }
{}

/// Law: where a user's file that is no directory is replaced, a volume stands for the tree from
/// before with that file's node replaced.
pub fn tree_replaced()
    ensures { TreeReplaced }
{}

/// Law: the rules, parts and nodes of a volume are the same in two contents that agree on what
/// they read.
pub fn frame_of_state()
    ensures { FrameOfState }
{}

/// Law: the way up from files stays where each file on it keeps its names.
pub fn ways_kept()
    ensures { WaysKept }
{}

/// Law: no name stands in a file that is no directory, nor in an empty one.
pub fn leaves_of_volume()
    ensures { LeavesOfVolume }
{}

/// Law: where a file is replaced in which no other file has a name, the rules, nodes and parts
/// stay at other numbers, also where it gets other names.
pub fn leaf_replaced()
    ensures { LeafReplaced }
{}

/// Law: a file that is made adds its names and its node to those of a volume.
pub fn file_made()
    ensures { FileMade }
{}

/// Law: a file that goes takes its names and its node away from those of a volume.
pub fn file_gone()
    ensures { FileGone }
{}

/// Law: where several files change at once, a volume stands for its tree if these keep the rules;
/// the nodes of the others stay.
pub fn files_changed()
    ensures { FilesChanged }
{}

/// Law: the nodes of a volume, looked up by number, are those of its files.
pub fn nodes_by_number()
    ensures { NodesByNumber }
{}

/// Law: no cluster is owned twice, and each that is owned is marked, where files take clear
/// clusters alone and the bits follow.
pub fn owners_kept()
    ensures { OwnersKept }
{}

/// Law: writes to the blocks of a few streams and file records leave the others, and what the
/// other files show.
pub fn planned_writes()
    ensures { PlannedWrites }
{}

/// Law: a directory's index holds the names that it has to where a file gets one name more there
/// or one less, and the index too.
pub fn index_listed()
    ensures { IndexListed }
{}

/// Law: a way up that reaches the root reaches it within as many steps as there are files.
pub fn ways_are_short()
    ensures { WaysAreShort }
{}

/// Law: the change journal stays, and its rule is kept, where several files change and none of
/// them is the journal's, nor gets or loses a name in `$Extend`.
pub fn journal_kept()
    ensures { JournalKept }
{}

/// Law: the clusters that are free and those that were taken are those that were free and those
/// that were given back.
pub fn room_counted()
    ensures { RoomCounted }
{}

/// Law: where the file table of a volume grows, the volume stands for the tree from before with the
/// new numbers, which are spare and have the sequence 1.
pub fn table_grown()
    ensures { TableGrown }
{}

/// Law: where several files are replaced and the file table may grow, the new tree by look-up: its
/// nodes and spare numbers, its names, the count, the journal and the room.
pub fn trees_by_look_up()
    ensures { TreesByLookUp }
{}

/// Law: after writes that replace several files, record 0 among them or not, and may let the file
/// table grow, a content is a state again, with the tree that the edits lead to.
pub fn states_follow()
    ensures { StatesFollow }
{}

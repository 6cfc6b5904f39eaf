//! The laws of these definitions.
ghost use Rattle.plan_changes.specs.Bytes.{BytesBrought};
ghost use Rattle.plan_changes.specs.Changes.{FileChanged};
ghost use Rattle.plan_changes.specs.Files.{FilesShow};
ghost use Rattle.plan_changes.specs.Going.{FilesGoOn};
ghost use Rattle.plan_changes.specs.Nodes.{NodesBecome};
ghost use Rattle.plan_changes.specs.Rooms.{RoomsFall};
ghost use Rattle.plan_changes.specs.Writes.{WrittenInClusters};

/// Law: trees that differ by one node, and one such change behind another.
pub fn nodes_become()
    ensures { NodesBecome }
{}

/// Law: what the node of a file shows of its record, and what it shows behind an edit.
pub fn files_show()
    ensures { FilesShow }
{}

/// Law: the bytes that a write or a greater size puts make the bytes of the operation.
pub fn bytes_brought()
    ensures { BytesBrought }
{}

/// Law: where edits have led to the node that an operation leaves, the operation has changed the tree.
pub fn file_changed()
    ensures { FileChanged }
{}

/// Law: where an edit takes clusters the room falls by at most these, and where it takes none the room
/// doesn't fall.
pub fn rooms_fall()
    ensures { RoomsFall }
{}

/// Law: behind an edit the file is one of its own again, with the stream or the values that the edit
/// gave it, so that the next edit begins there.
pub fn files_go_on()
    ensures { FilesGoOn }
{}

/// Law: where a draft has put the sizes, the bytes and the times of a write, or of a greater size, of a
/// file whose data stands in clusters, it stands for a state, and the operation has changed the tree.
pub fn written_in_clusters()
    ensures { WrittenInClusters }
{}

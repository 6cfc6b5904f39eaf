//! The laws of these definitions.
ghost use Rattle.index_edits.specs.Grown.{GrownIsEdit};
ghost use Rattle.index_edits.specs.Levels.{LevelsAreRead};
ghost use Rattle.index_edits.specs.Raised.{RaisedIsEdit};
ghost use Rattle.index_edits.specs.Streams.{StreamsOfIndexes};

/// Law: what a draft has put of a directory whose index got more blocks is the edit of a plan, by
/// which a state becomes one whose index has them.
pub fn grown_is_edit()
    ensures { GrownIsEdit }
{}

/// Law: what a draft has put of a directory whose index got blocks and a level more is the edit of a
/// plan, by which a state becomes one whose index has them and lists what it listed.
pub fn raised_is_edit()
    ensures { RaisedIsEdit }
{}

/// Law: the node and the root of a level more are read as they are written, and have so many bytes.
pub fn levels_are_read()
    ensures { LevelsAreRead }
{}

/// Law: the blocks of a directory's index and their bitmap stand as a plan has them where its
/// record has both, and where it has neither and they come empty.
pub fn index_streams_stand()
    ensures { StreamsOfIndexes }
{}

//! The laws of these definitions.
ghost use Rattle.plan_blocks.specs.Blocks.{IndexGrown};
ghost use Rattle.plan_blocks.specs.Drafted.{IndexIsEdit};
ghost use Rattle.plan_blocks.specs.Levels.{IndexRaised, LevelCame};
ghost use Rattle.plan_blocks.specs.Rooted.{RootsWritten, RootedIsEdit};
ghost use Rattle.plan_blocks.specs.Written.{BlocksAreWritten};

/// Law: where the index of a directory takes clusters that are clear, has greater sizes, and each
/// block that comes to be initialised is put whole, a state becomes one in which it lists what it
/// listed; it is an edit of a plan, and the index's place goes on behind the old one.
pub fn index_grown()
    ensures { IndexGrown }
{}

/// Law: a record whose index allocation is placed and whose bitmap of index blocks gets another
/// value has the blocks there as it is written, and keeps its other attributes.
pub fn blocks_are_written()
    ensures { BlocksAreWritten }
{}

/// Law: a directory that a draft has put with the bits of the clusters that its index took, and then
/// fresh blocks of the index, is the edit of a plan that leads from a state to a state.
pub fn index_is_edit()
    ensures { IndexIsEdit }
{}

/// Law: where besides the root of the index is written anew, so that it lists what it listed, a
/// state becomes one too; it is an edit of a plan, and the index's place goes on behind the old one.
pub fn index_raised()
    ensures { IndexRaised }
{}

/// Law: where a fresh block is put as a node with the entries of the root, and the new root has
/// one entry alone, below which it hangs, the index has a level more and lists what it listed.
pub fn level_came()
    ensures { LevelCame }
{}

/// Law: a record that is made with blocks of its index and then with another root has that root, and
/// is written with all else as the one with the blocks alone.
pub fn roots_are_written()
    ensures { RootsWritten }
{}

/// Law: a directory that a draft has put with another root of its index too is the edit of a plan by
/// which the index gets the blocks below that root.
pub fn rooted_is_edit()
    ensures { RootedIsEdit }
{}
